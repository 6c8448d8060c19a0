// uvtheory/eos/wca: the contributions by Weeks, Chandler and Andersen.
#![tactic(auto)]

pub mod attractive_perturbation;
pub mod hard_sphere;
pub mod reference_perturbation;
pub mod weeks_chandler_andersen;

ghost use Rattle.std.specs.Prelude.{◌≡◌};
ghost use Rattle.uvtheory.specs.Inputs.{parameters, state_of};
ghost use Rattle.uvtheory.specs.Wca as F;

use crate::hard_sphere::WCA_PACKING;
use crate::weeks_chandler_andersen::WeeksChandlerAndersen;
use num_dual::dual_num::DualNum;
use uvtheory::contributions::Contributions;
use uvtheory::parameters::{State, UVTheoryPars};

pub fn residual_helmholtz_energy_contributions<D: DualNum>(
    p: &UVTheoryPars<D>,
    s: &State<D>,
) -> Contributions<D>
    ensures { result ≡ F.residual_helmholtz_energy_contributions D.arithmetic (parameters D.arithmetic p.now) (state_of D.arithmetic s.now) }
{
    let w = WeeksChandlerAndersen::new(p, s);
    Contributions {
        hard_sphere: w.hard_sphere(),
        reference: reference_perturbation::helmholtz_energy_density(&WCA_PACKING, &w),
        attractive: attractive_perturbation::helmholtz_energy_density(&w),
    }
}
