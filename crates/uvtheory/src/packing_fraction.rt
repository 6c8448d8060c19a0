// The packing fractions, which bh/hard_sphere.rs and wca/hard_sphere.rs have word for word but for tau and the tables.
ghost use Rattle.std.specs.Prelude.{◌≡◌};
ghost use Rattle.uvtheory.specs.Tables.{table};
ghost use Rattle.uvtheory.specs.Rows.{doubles, row};
ghost use Rattle.uvtheory.specs.PackingFraction as F;

use crate::components::Components;
use crate::consts::PI;
use num_dual::dual_num::DualNum;

// The tables ..ETA_A and ..ETA_B of a perturbation.
#[derive(Clone, Copy)]
pub struct PackingConstants {
    pub eta_a: [[f64; 4]; 4],
    pub eta_b: [[f64; 2]; 3],
}

#[tactic(auto, unfolding(crate::specs::PackingFraction::packing_fraction))]
pub fn packing_fraction<D: DualNum>(n: Components, partial_density: &[D; 8], diameter: &[D; 8]) -> D
    ensures { result ≡ F.packing_fraction D.arithmetic n (row D.arithmetic partial_density.now) (row D.arithmetic diameter.now) }
{
    let pi_6 = D::from(PI) / D::from(6.0);
    let mut eta = D::from(0.0);
    for i in 0..n.get() {
        eta = eta + partial_density[i] * diameter[i].powi(3) * pi_6;
    }
    eta
}

// A coefficient by its row of ..ETA_B.
#[tactic(auto, unfolding(crate::specs::PackingFraction::coefficient_b))]
pub fn coefficient_b<D: DualNum>(b: &[f64; 2], tau: D) -> D
    ensures { result ≡ F.coefficient_b D.arithmetic (doubles b.now) tau }
{
    tau * D::from(b[0]) + tau * tau * D::from(b[1])
}

#[tactic(auto, unfolding(crate::specs::PackingFraction::packing_fraction_b))]
pub fn packing_fraction_b<D: DualNum>(b: &[[f64; 2]; 3], eta: D, tau: D) -> D
    ensures { result ≡ F.packing_fraction_b D.arithmetic (table b.now) eta tau }
{
    eta + eta * coefficient_b(&b[0], tau)
        + eta * eta * coefficient_b(&b[1], tau)
        + eta.powi(3) * coefficient_b(&b[2], tau)
}

// A coefficient by its row of ..ETA_A.
#[tactic(auto, unfolding(crate::specs::PackingFraction::coefficient_a))]
fn coefficient_a<D: DualNum>(a: &[f64; 4], tau: D, rep_inv: D) -> D
    ensures { result ≡ F.coefficient_a D.arithmetic (doubles a.now) tau rep_inv }
{
    tau * (D::from(a[0]) + D::from(a[1]) * rep_inv)
        + tau * tau * (D::from(a[2]) + D::from(a[3]) * rep_inv)
}

#[tactic(auto, unfolding(crate::specs::PackingFraction::packing_fraction_a, crate::specs::PackingFraction::coefficient_a))]
pub fn packing_fraction_a<D: DualNum>(a: &[[f64; 4]; 4], eta: D, tau: D, rep_ij: D) -> D
    ensures { result ≡ F.packing_fraction_a D.arithmetic (table a.now) eta tau rep_ij }
{
    let rep_inv = D::from(1.0) / rep_ij;
    eta + eta * coefficient_a(&a[0], tau, rep_inv)
        + eta * eta * coefficient_a(&a[1], tau, rep_inv)
        + eta.powi(3) * coefficient_a(&a[2], tau, rep_inv)
        + eta.powi(4) * coefficient_a(&a[3], tau, rep_inv)
}
