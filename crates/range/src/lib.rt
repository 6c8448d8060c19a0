// Ranges of doubles by document 01's rules: each method is proved to be its rule (specs/Rules.antt).
#![tactic(auto)]

pub mod basic;
