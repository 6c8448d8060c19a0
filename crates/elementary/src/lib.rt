// The elementary functions on f64 that the formulas call, worked by their recipes and each proved equal to its definition in crate arithmetic.
// What has no rule, and an argument that is not finite, gives NaN: no function for the formulas asks anything of its caller.
#![tactic(auto)]

pub mod exponential;
pub mod logarithm;
pub mod series;
