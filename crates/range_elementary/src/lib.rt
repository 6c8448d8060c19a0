// exp, powf, tanh, ln and ln_1p of ranges by document 01's recipes: each is proved to be its rule (specs/Rules.antt of crate range).
#![tactic(auto)]

pub mod exponential;
pub mod logarithm;
pub mod series;
