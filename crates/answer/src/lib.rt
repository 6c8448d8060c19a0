// The answers of document 01, and of M-100 for slopes: what a kind of call gives of a case, written as bytes.
#![tactic(auto)]

ghost use Rattle.std.specs.Prelude.{◌≡◌, ◌+◌, ◌*◌, ◌≤◌, [], ◌∷◌, length};
ghost use Rattle.big_endian.specs.Bytes.{written};
ghost use Rattle.answer.specs.Answer.{answer_bytes, answer_with, code_of};

use big_endian::put_double;
use dual::basic::Dual;
use range::basic::Range;
use refusal::Refusal;

// The answer of a case: what a kind of call gives of hard sphere, reference and attractive, in this order, or why it refuses.
#[derive(Clone, Copy, Debug, PartialEq)]
pub enum Answer {
    Energies(f64, f64, f64),
    Ends(Range, Range, Range),
    Slopes(Dual, Dual, Dual),
    Refused(Refusal),
}

impl Answer {
    // The code byte: 0, or that of the refusal.
    pub fn code(self) -> u8
        ensures { result ≡ code_of self }
    {
        match self {
            Answer::Refused(refusal) => refusal.into(),
            _ => 0,
        }
    }
}

// Length, which is `count`, version 1 and code.
pub fn put_header(answer: &mut [u8], count: u8, code: u8)
    requires { 4 ≤ length answer.old }
    ensures { answer.new ≡ written answer.old (0 ∷ count ∷ 1 ∷ code ∷ []) }
{
    answer[..4].copy_from_slice(&[0, count, 1, code]);
}

// Writes a code and the doubles that follow it, as three energies or three pairs.
pub fn put_answer(answer: &mut [u8], code: u8, doubles: &[f64])
    requires { (length doubles.now ≤ 31) × (4 + 8 * length doubles.now ≤ length answer.old) }
    ensures { answer.new ≡ written answer.old (answer_with code doubles.now) }
{
    put_header(answer, (2 + 8 * doubles.len()) as u8, code);
    for (k, x) in doubles.iter().enumerate() {
        put_double(answer, 4 + 8 * k, *x);
    }
}

// Writes a refusal of any number over the buffer's first bytes, and returns the number.
pub fn write_refusal(answer: &mut [u8], code: u8) -> u8
    requires { 4 ≤ length answer.old }
    ensures { (result ≡ code) × (answer.new ≡ written answer.old (0 ∷ 2 ∷ 1 ∷ code ∷ [])) }
{
    put_header(answer, 2, code);
    code
}

// Writes an answer over the buffer's first bytes, and returns its code.
pub fn write_answer(answer: &mut [u8], a: Answer) -> u8
    requires { length (answer_bytes a) ≤ length answer.old }
    ensures { (result ≡ code_of a) × (answer.new ≡ written answer.old (answer_bytes a)) }
{
    let code = a.code();
    match a {
        Answer::Energies(x, y, z) => put_answer(answer, code, &[x, y, z]),
        Answer::Ends(x, y, z) => put_answer(
            answer,
            code,
            &[x.lower, x.upper, y.lower, y.upper, z.lower, z.upper],
        ),
        Answer::Slopes(x, y, z) => put_answer(
            answer,
            code,
            &[x.value, x.slope, y.value, y.slope, z.value, z.slope],
        ),
        Answer::Refused(_) => put_answer(answer, code, &[]),
    }
    code
}
