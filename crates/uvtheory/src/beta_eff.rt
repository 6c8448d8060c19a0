// The coefficients of beta_eff, which bh/attractive_perturbation.rs and wca/attractive_perturbation.rs have word for word but for the table C2.
ghost use Rattle.std.specs.Prelude.{◌≡◌};
ghost use Rattle.uvtheory.specs.Rows.{doubles};
ghost use Rattle.uvtheory.specs.BetaEff as F;

use num_dual::dual_num::DualNum;

// The first of a row of C2, and the second over rep.
pub fn coefficient_2<D: DualNum>(c: &[f64; 2], rep: D) -> D
    ensures { result ≡ F.coefficient_2 D.arithmetic (doubles c.now) rep }
{
    D::from(c[0]) + D::from(c[1]) / rep
}
