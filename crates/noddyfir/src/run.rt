// A run over case records, one after the other.
ghost use Rattle.std.specs.Prelude.{◌≡◌, ◌≤◌, length};
ghost use Rattle.noddyfir.specs.Call.{answer_to, ends_answer, energies_answer, room_of, slopes_answer};
ghost use Rattle.noddyfir.specs.Run.{reason_of, run_of, size_of};

use crate::call::{answer_to, room_of};
use crate::reader::{BrokenTail, Reader};
use calls::kinds::Kind;

// Records done, bytes read, bytes written, and why the run stopped, as the number of a `Stop`.
#[repr(C)]
#[derive(Clone, Copy, Debug, PartialEq, Eq)]
pub struct Run {
    pub records: usize,
    pub read: usize,
    pub written: usize,
    pub reason: u8,
}

// Why a run stops: the input is used up, there is no room for an answer, or the tail of the input is no whole record.
#[derive(Clone, Copy, Debug, PartialEq, Eq)]
pub enum Stop {
    UsedUp = 0,
    NoRoom = 1,
    BrokenTail = 2,
}

// The number that a run has for its reason.
impl From<Stop> for u8 {
    ghost use Rattle.noddyfir.specs.Run.{reason_of};

    ghost from_gives = { λ stop byte. byte ≡ reason_of stop };

    fn from(stop: Stop) -> u8 {
        stop as u8
    }
}

impl Run {
    // The same run, stopped.
    fn stopped(self, stop: Stop) -> Run
        ensures { result ≡ record self { reason = reason_of stop } }
    {
        Run {
            reason: stop.into(),
            ..self
        }
    }
}

// How many bytes an answer with this code has.
fn answer_size(room: usize, code: u8) -> usize
    requires { 4 ≤ room }
    ensures { (result ≡ size_of room code) × (result ≤ room) }
{
    if code == 0 { room } else { 4 }
}

// Answers the records one after the other by one kind of call: each answer is written where the one before it ended. `within` follows
// from the outcome and is stated for callers, who lend the rest of the records and read the answers.
pub fn run_records(kind: Kind, records: &[u8], answers: &mut [u8]) -> Run
    ensures value { (result ≡ (run_of (room_of kind) (answer_to kind) records.now answers.old).run) × (answers.new ≡ (run_of (room_of kind) (answer_to kind) records.now answers.old).answers) }
    ensures within { (result.read ≤ length records.now) × (result.written ≤ length answers.new) }
{
    let room = room_of(kind);
    let mut run = Run {
        records: 0,
        read: 0,
        written: 0,
        reason: 0,
    };
    loop {
        let record = match Reader::new(records, run.read).next() {
            None => return run.stopped(Stop::UsedUp),
            Some(Err(BrokenTail)) => return run.stopped(Stop::BrokenTail),
            Some(Ok(record)) => record,
        };
        if answers.len() - run.written < room {
            return run.stopped(Stop::NoRoom);
        }
        let code = answer_to(kind, record, &mut answers[run.written..]);
        run.written += answer_size(room, code);
        run.read += record.len();
        run.records += 1;
    }
}

pub fn run_energies(records: &[u8], answers: &mut [u8]) -> Run
    ensures value { (result ≡ (run_of 28 energies_answer records.now answers.old).run) × (answers.new ≡ (run_of 28 energies_answer records.now answers.old).answers) }
    ensures within { (result.read ≤ length records.now) × (result.written ≤ length answers.new) }
{
    run_records(Kind::Energies, records, answers)
}

pub fn run_ends(records: &[u8], answers: &mut [u8]) -> Run
    ensures value { (result ≡ (run_of 52 ends_answer records.now answers.old).run) × (answers.new ≡ (run_of 52 ends_answer records.now answers.old).answers) }
    ensures within { (result.read ≤ length records.now) × (result.written ≤ length answers.new) }
{
    run_records(Kind::Ends, records, answers)
}

pub fn run_slopes(records: &[u8], answers: &mut [u8]) -> Run
    ensures value { (result ≡ (run_of 52 slopes_answer records.now answers.old).run) × (answers.new ≡ (run_of 52 slopes_answer records.now answers.old).answers) }
    ensures within { (result.read ≤ length records.now) × (result.written ≤ length answers.new) }
{
    run_records(Kind::Slopes, records, answers)
}
