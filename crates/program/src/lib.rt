// What the programs do: they answer the case records of standard input, of which they read at most 65,536 bytes, each by its kind of call.
#![tactic(auto)]

ghost use Rattle.std.specs.Prelude.{◌≡◌, ◌+◌, ◌≤◌, ◌<◌, IfOk, length};

use calls::kinds::Kind;
use noddyfir::run::{Run, Stop, run_records};
use std::io;
use std::io::{Read, Write};

// Reads until the buffer is full or the input ends, and returns how many bytes were read.
fn read_full(input: &mut impl Read, buffer: &mut [u8]) -> io::Result<usize>
    ensures { IfOk result (λ n. n ≤ length buffer.new) }
{
    let mut done = 0;
    while done < buffer.len() {
        let n = input.read(&mut buffer[done..])?;
        if n == 0 {
            break;
        }
        done += n;
    }
    Ok(done)
}

// Writes the answers of one run, from a position of the input on. A run that stops for space has read a record.
fn answer_from(output: &mut impl Write, kind: Kind, input: &[u8], at: usize) -> io::Result<Run>
    requires { at ≤ length input.now }
    ensures { IfOk result (λ run. (at + run.read ≤ length input.now) × (run.reason ≡ 1 → 0 < run.read)) }
{
    let mut answers = [0; 4096];
    let run = run_records(kind, &input[at..], &mut answers);
    output.write_all(&answers[..run.written])?;
    Ok(run)
}

// Calls the run again from where it stopped for space.
fn answer_all(output: &mut impl Write, kind: Kind, input: &[u8]) -> io::Result<()> {
    let mut at = 0;
    loop {
        let run = answer_from(output, kind, input, at)?;
        if run.reason != u8::from(Stop::NoRoom) {
            return Ok(());
        }
        at += run.read;
    }
}

// Answers the records of standard input, and returns how many bytes of it were read. Which bytes, the system decides.
pub fn answer_input(rt: &(impl Input + Print), kind: Kind) -> io::Result<usize>
    ensures { IfOk result (λ n. n ≤ 65536) }
{
    let mut input = [0; 65536];
    let n = read_full(&mut rt.reader(), &mut input)?;
    answer_all(&mut io::writer(rt), kind, &input[..n])?;
    Ok(n)
}
