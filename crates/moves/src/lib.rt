// Moves of a case record between version 1, which has no l_ij, and version 2.
#![tactic(auto)]

ghost use Rattle.std.specs.Prelude.{◌≡◌, ◌≤◌, length};
ghost use Rattle.big_endian.specs.Bytes.{written};
ghost use Rattle.case_record.specs.Layout.{header_of};
ghost use Rattle.case_record.specs.Record.{Whole};
ghost use Rattle.moves.specs.Moves.{header_in, move_buffer, move_code, moved_size, moved_to, tested};

use case_record::case::case_of;
use case_record::layout::{Header, header_of, length_of};
use case_record::writing::{Contents, write_record};
use checks::{envelope, pair_constants, require, state, substances};
use refusal::Refusal;

// The header in another version.
fn header_in(version: u8, h: Header) -> Header
    ensures { result ≡ header_in version h }
{
    Header { version, ..h }
}

// The tests of a move, in their order, by the size of the buffer.
#[tactic(auto, unfolding(crate::specs::Moves::tested), using(checks::proofs::Accepted::in_order))]
fn tested(from: u8, to: u8, size: usize, record: &[u8]) -> Result<(), Refusal>
    ensures { result ≡ tested from to size «record».now }
{
    envelope(from, from, record)?;
    let h = header_in(to, header_of(record));
    require(2 + length_of(h) <= size, Refusal::AnswerBuffer)?;
    let c = case_of(record);
    substances(&c)?;
    state(&c)?;
    pair_constants(&c)
}

// Writes the record in another version at the start of `out`.
#[tactic(auto, unfolding(crate::specs::Moves::moved_to))]
fn write_moved(to: u8, record: &[u8], out: &mut [u8])
    requires { Whole «record».now (header_of «record».now) × (moved_size to «record».now ≤ length out.old) }
    ensures { out.new ≡ written out.old (moved_to to «record».now) }
{
    let c = case_of(record);
    let contents = Contents {
        header: header_in(to, header_of(record)),
        mixture: c.mixture,
        state: c.state,
    };
    write_record(out, &contents);
}

// Moves a record from one version to another, and returns the code.
#[tactic(auto, using(crate::proofs::Moves::passed))]
fn move_record(from: u8, to: u8, record: &[u8], out: &mut [u8]) -> u8
    ensures { (result ≡ move_code from to «record».now out.old) × (out.new ≡ move_buffer from to «record».now out.old) }
{
    match tested(from, to, out.len(), record) {
        Ok(()) => {
            write_moved(to, record, out);
            0
        }
        Err(refusal) => refusal.into(),
    }
}

pub fn to_version_2(record: &[u8], out: &mut [u8]) -> u8
    ensures { (result ≡ move_code 1 2 «record».now out.old) × (out.new ≡ move_buffer 1 2 «record».now out.old) }
{
    move_record(1, 2, record, out)
}

pub fn to_version_1(record: &[u8], out: &mut [u8]) -> u8
    ensures { (result ≡ move_code 2 1 «record».now out.old) × (out.new ≡ move_buffer 2 1 «record».now out.old) }
{
    move_record(2, 1, record, out)
}
