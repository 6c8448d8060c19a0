// uvtheory/eos/wca: the contributions of the B3 form.
#![tactic(auto)]

pub mod attractive_perturbation_uvb3;

ghost use Rattle.std.specs.Prelude.{◌≡◌};
ghost use Rattle.uvtheory.specs.Inputs.{parameters, state_of};
ghost use Rattle.uvtheory.specs.Wca as F;

use num_dual::dual_num::DualNum;
use uvtheory::contributions::Contributions;
use uvtheory::parameters::{State, UVTheoryPars};
use uvtheory_wca::hard_sphere::WCA_PACKING_UVB3;
use uvtheory_wca::reference_perturbation;
use uvtheory_wca::weeks_chandler_andersen::WeeksChandlerAndersen;

// WeeksChandlerAndersenB3.
pub fn residual_helmholtz_energy_contributions_b3<D: DualNum>(
    p: &UVTheoryPars<D>,
    s: &State<D>,
) -> Contributions<D>
    ensures { result ≡ F.residual_helmholtz_energy_contributions_b3 D.arithmetic (parameters D.arithmetic p.now) (state_of D.arithmetic s.now) }
{
    let w = WeeksChandlerAndersen::new(p, s);
    Contributions {
        hard_sphere: w.hard_sphere(),
        reference: reference_perturbation::helmholtz_energy_density(&WCA_PACKING_UVB3, &w),
        attractive: attractive_perturbation_uvb3::helmholtz_energy_density(&w),
    }
}
