// Values with slopes by the rules of M-100: each method and function is proved to be its rule (specs/Rules.antt).
#![tactic(auto)]

pub mod basic;
pub mod exponential;
pub mod logarithm;
