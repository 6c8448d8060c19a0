// The calls for C and other languages, by names that collide with no other library's. A slice is passed as a pointer and a length.
#![tactic(auto)]

ghost use Rattle.std.specs.Prelude.{◌≡◌, ◌≤◌, length};
ghost use Rattle.noddyfir.specs.Call.{call_buffer, call_code, code_to, ends_answer, energies_answer, slopes_answer};
ghost use Rattle.noddyfir.specs.Run.{run_of};
ghost use Rattle.moves.specs.Moves.{move_buffer, move_code};
ghost use Rattle.calls.specs.declared.kinds.Kind.TheVariants as Kinds;

use noddyfir::run::Run;

#[unsafe(no_mangle)]
pub extern "C" fn noddyfir_energies(record: &[u8], answer: &mut [u8]) -> u8
    ensures { (result ≡ call_code 28 (code_to Kinds.Energies «record».now) answer.old) × (answer.new ≡ call_buffer 28 (energies_answer «record».now) answer.old) }
{
    noddyfir::energies(record, answer)
}

#[unsafe(no_mangle)]
pub extern "C" fn noddyfir_ends(record: &[u8], answer: &mut [u8]) -> u8
    ensures { (result ≡ call_code 52 (code_to Kinds.Ends «record».now) answer.old) × (answer.new ≡ call_buffer 52 (ends_answer «record».now) answer.old) }
{
    noddyfir::ends(record, answer)
}

#[unsafe(no_mangle)]
pub extern "C" fn noddyfir_slopes(record: &[u8], answer: &mut [u8]) -> u8
    ensures { (result ≡ call_code 52 (code_to Kinds.Slopes «record».now) answer.old) × (answer.new ≡ call_buffer 52 (slopes_answer «record».now) answer.old) }
{
    noddyfir::slopes(record, answer)
}

#[unsafe(no_mangle)]
pub extern "C" fn noddyfir_run_energies(records: &[u8], answers: &mut [u8]) -> Run
    ensures value { (result ≡ (run_of 28 energies_answer records.now answers.old).run) × (answers.new ≡ (run_of 28 energies_answer records.now answers.old).answers) }
    ensures within { (result.read ≤ length records.now) × (result.written ≤ length answers.new) }
{
    noddyfir::run_energies(records, answers)
}

#[unsafe(no_mangle)]
pub extern "C" fn noddyfir_run_ends(records: &[u8], answers: &mut [u8]) -> Run
    ensures value { (result ≡ (run_of 52 ends_answer records.now answers.old).run) × (answers.new ≡ (run_of 52 ends_answer records.now answers.old).answers) }
    ensures within { (result.read ≤ length records.now) × (result.written ≤ length answers.new) }
{
    noddyfir::run_ends(records, answers)
}

#[unsafe(no_mangle)]
pub extern "C" fn noddyfir_run_slopes(records: &[u8], answers: &mut [u8]) -> Run
    ensures value { (result ≡ (run_of 52 slopes_answer records.now answers.old).run) × (answers.new ≡ (run_of 52 slopes_answer records.now answers.old).answers) }
    ensures within { (result.read ≤ length records.now) × (result.written ≤ length answers.new) }
{
    noddyfir::run_slopes(records, answers)
}

#[unsafe(no_mangle)]
pub extern "C" fn noddyfir_to_version_2(record: &[u8], out: &mut [u8]) -> u8
    ensures { (result ≡ move_code 1 2 «record».now out.old) × (out.new ≡ move_buffer 1 2 «record».now out.old) }
{
    noddyfir::to_version_2(record, out)
}

#[unsafe(no_mangle)]
pub extern "C" fn noddyfir_to_version_1(record: &[u8], out: &mut [u8]) -> u8
    ensures { (result ≡ move_code 2 1 «record».now out.old) × (out.new ≡ move_buffer 2 1 «record».now out.old) }
{
    noddyfir::to_version_1(record, out)
}
