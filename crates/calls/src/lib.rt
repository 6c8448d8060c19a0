// The calls on a record, each with its answer by value. Those that write into a buffer, and the runs, are above them, in crate noddyfir.
#![tactic(auto)]

pub mod kinds;
