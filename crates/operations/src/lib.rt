// The basic operations on f64, each proved equal to its definition in crate arithmetic. What has no rule gives NaN.
#![tactic(auto)]

pub mod basic;
pub mod next;
pub mod parts;
pub mod root;
