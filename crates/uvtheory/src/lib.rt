// The uv-theory energies of feos, in the modules and names of the Rust (crates/feos/src/uvtheory and crates/feos/src/hard_sphere) and generic as it is. Here stands what
// the perturbations share; each is a crate of its own.
#![tactic(auto)]

pub mod arrays;
pub mod beta_eff;
pub mod components;
pub mod consts;
pub mod contributions;
pub mod eos;
pub mod hard_sphere;
pub mod one_fluid;
pub mod packing_fraction;
pub mod parameters;
pub mod reference_energy;
