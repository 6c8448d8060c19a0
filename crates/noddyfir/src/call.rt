// The call on one record and an answer buffer, by its kind.
ghost use Rattle.std.specs.Prelude.{◌≡◌};
ghost use Rattle.noddyfir.specs.Call.{answer_to, call_buffer, call_code, code_to, ends_answer, energies_answer, room_of, slopes_answer};
ghost use Rattle.calls.specs.declared.kinds.Kind.TheVariants as Kinds;

use answer::write_answer;
use calls::kinds::{Kind, answer_of};
use refusal::Refusal;

// How many bytes an answer of a kind may need.
pub fn room_of(kind: Kind) -> usize
    ensures { result ≡ room_of kind }
{
    match kind {
        Kind::Energies => 28,
        Kind::Ends => 52,
        Kind::Slopes => 52,
    }
}

// Writes the answer to a record at the start of `answer`, and returns its code. Where there is too little room nothing is written.
pub fn answer_to(kind: Kind, record: &[u8], answer: &mut [u8]) -> u8
    ensures { (result ≡ call_code (room_of kind) (code_to kind «record».now) answer.old) × (answer.new ≡ call_buffer (room_of kind) (answer_to kind «record».now) answer.old) }
{
    if answer.len() < room_of(kind) {
        return Refusal::AnswerBuffer.into();
    }
    write_answer(answer, answer_of(kind, record))
}

pub fn energies(record: &[u8], answer: &mut [u8]) -> u8
    ensures { (result ≡ call_code 28 (code_to Kinds.Energies «record».now) answer.old) × (answer.new ≡ call_buffer 28 (energies_answer «record».now) answer.old) }
{
    answer_to(Kind::Energies, record, answer)
}

pub fn ends(record: &[u8], answer: &mut [u8]) -> u8
    ensures { (result ≡ call_code 52 (code_to Kinds.Ends «record».now) answer.old) × (answer.new ≡ call_buffer 52 (ends_answer «record».now) answer.old) }
{
    answer_to(Kind::Ends, record, answer)
}

pub fn slopes(record: &[u8], answer: &mut [u8]) -> u8
    ensures { (result ≡ call_code 52 (code_to Kinds.Slopes «record».now) answer.old) × (answer.new ≡ call_buffer 52 (slopes_answer «record».now) answer.old) }
{
    answer_to(Kind::Slopes, record, answer)
}
