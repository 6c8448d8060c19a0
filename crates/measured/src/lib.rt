// The functions of operations, elementary, range_elementary and dual and the methods of range and dual under C names, for measure/: test entry points, which no product crate needs.
#![tactic(auto)]

pub mod duals;
pub mod functions;
pub mod numbers;
pub mod ranges;
