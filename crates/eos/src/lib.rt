// uvtheory/eos/mod.rs: the contributions of a perturbation, in any number type, and the states that they take.
#![tactic(auto)]

pub mod contributions;
pub mod states;
