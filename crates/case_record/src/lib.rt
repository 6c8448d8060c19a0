// Case records of document 01: their layout, and the case that a record holds.
#![tactic(auto)]

pub mod case;
pub mod layout;
pub mod writing;
