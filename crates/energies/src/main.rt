// Answers the case records of standard input by their energies.
#![tactic(auto)]

use calls::kinds::Kind;
use std::io;

fn main(rt: HostRuntime) -> io::Result<()> {
    program::answer_input(&rt, Kind::Energies)?;
    Ok(())
}
