// The last line of the three reference perturbations: the energy by the sum a over all pairs and the density.
ghost use Rattle.std.specs.Prelude.{◌≡◌};
ghost use Rattle.uvtheory.specs.ReferenceEnergy as F;

use crate::consts::PI;
use num_dual::dual_num::DualNum;

#[tactic(auto, unfolding(crate::specs::ReferenceEnergy::energy))]
pub fn energy<D: DualNum>(a: D, density: D) -> D
    ensures { result ≡ F.energy D.arithmetic a density }
{
    -a * density.powi(2) * D::from(2.0) / D::from(3.0) * D::from(PI)
}
