// uvtheory/eos/bh: the contributions by Barker-Henderson.
#![tactic(auto)]

pub mod attractive_perturbation;
pub mod barker_henderson;
pub mod hard_sphere;
pub mod reference_perturbation;

ghost use Rattle.std.specs.Prelude.{◌≡◌};
ghost use Rattle.uvtheory.specs.Inputs.{parameters, state_of};
ghost use Rattle.uvtheory.specs.Bh as F;

use crate::barker_henderson::BarkerHenderson;
use num_dual::dual_num::DualNum;
use uvtheory::contributions::Contributions;
use uvtheory::hard_sphere::spherical;
use uvtheory::parameters::{State, UVTheoryPars};

pub fn residual_helmholtz_energy_contributions<D: DualNum>(
    p: &UVTheoryPars<D>,
    s: &State<D>,
) -> Contributions<D>
    ensures { result ≡ F.residual_helmholtz_energy_contributions D.arithmetic (parameters D.arithmetic p.now) (state_of D.arithmetic s.now) }
{
    let b = BarkerHenderson::new(p, s);
    Contributions {
        hard_sphere: spherical(p.mixture.n, &b.d, s),
        reference: reference_perturbation::helmholtz_energy_density(&b),
        attractive: attractive_perturbation::helmholtz_energy_density(&b),
    }
}
