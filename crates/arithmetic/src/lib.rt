// Definitions and laws only: the arithmetic that every formula of this repository is written in. There is no code.
#![tactic(auto)]
