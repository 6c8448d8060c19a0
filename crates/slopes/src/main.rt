// Answers the case records of standard input by their energies with slopes.
#![tactic(auto)]

use calls::kinds::Kind;
use std::io;

fn main(rt: HostRuntime) -> io::Result<()> {
    program::answer_input(&rt, Kind::Slopes)?;
    Ok(())
}
