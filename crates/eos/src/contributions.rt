// uvtheory/eos/mod.rs: the contributions of a perturbation.
ghost use Rattle.std.specs.Prelude.{◌≡◌};
ghost use Rattle.uvtheory.specs.Inputs.{state_of};
ghost use Rattle.eos.specs.Contributions.{contributions};

use num_dual::dual_num::DualNum;
use uvtheory::contributions::Contributions;
use uvtheory::eos::Perturbation;
use uvtheory::parameters::{Mixture, State, UVTheoryPars};

// Of a mixture as sent, on any state.
#[tactic(auto, unfolding(crate::specs::Contributions::contributions, uvtheory::specs::Eos::residual_helmholtz_energy_contributions))]
pub fn contributions<D: DualNum>(
    perturbation: Perturbation,
    m: &Mixture,
    s: &State<D>,
) -> Contributions<D>
    ensures { result ≡ contributions D.arithmetic perturbation m.now (state_of D.arithmetic s.now) }
{
    let p = UVTheoryPars::new(m);
    match perturbation {
        Perturbation::BarkerHenderson => {
            uvtheory_bh::residual_helmholtz_energy_contributions(&p, s)
        }
        Perturbation::WeeksChandlerAndersen => {
            uvtheory_wca::residual_helmholtz_energy_contributions(&p, s)
        }
        Perturbation::WeeksChandlerAndersenB3 => {
            uvtheory_b3::residual_helmholtz_energy_contributions_b3(&p, s)
        }
    }
}
