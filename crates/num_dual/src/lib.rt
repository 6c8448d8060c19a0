// The number types that the formulas are generic over, as the Rust's are over num-dual's DualNum.
#![tactic(auto)]

pub mod double;
pub mod dual_num;
pub mod numbers;
