// The public calls: the energies of one case, and of a run of cases, their ends, and their slopes; and moves of a record between versions.
#![tactic(auto)]

pub mod call;
mod reader;
pub mod run;

pub use call::{ends, energies, slopes};
pub use moves::{to_version_1, to_version_2};
pub use run::{Run, run_ends, run_energies, run_slopes};
