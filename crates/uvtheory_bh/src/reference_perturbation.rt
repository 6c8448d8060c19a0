// uvtheory/eos/bh/reference_perturbation.rs: the reference perturbation (Mayer-f) by Barker-Henderson.
ghost use Rattle.std.specs.Prelude.{◌≡◌};
ghost use Rattle.arithmetic.specs.Sums.{pairs};
ghost use Rattle.uvtheory.specs.Rows.{row, matrix};
ghost use Rattle.uvtheory.specs.Inputs.{parameters, state_of};
ghost use Rattle.uvtheory.specs.Bh.ReferencePerturbation as F;

use crate::barker_henderson::{BarkerHenderson, Component, component_of};
use crate::hard_sphere::{BH_CONSTANTS_ETA_A, BH_CONSTANTS_ETA_B, tau};
use num_dual::dual_num::DualNum;
use uvtheory::components::Components;
use uvtheory::hard_sphere::sum;
use uvtheory::packing_fraction::{packing_fraction, packing_fraction_a, packing_fraction_b};
use uvtheory::parameters::Mie;
use uvtheory::reference_energy::energy;

// Of two components and the sigma and rep of their pair.
#[tactic(auto, unfolding(uvtheory::specs::Bh::ReferencePerturbation::term_of, uvtheory::specs::Bh::ReferencePerturbation::term))]
fn term_by<D: DualNum>(i: Component<D>, j: Component<D>, sigma_ij: D, rep_ij: D, eta: D) -> D
    ensures { result ≡ F.term_of D.arithmetic i.x j.x i.d j.d i.sigma j.sigma sigma_ij rep_ij eta }
{
    let t = tau(i.d, i.sigma, j.d, j.sigma);
    let eta_a = packing_fraction_a(&BH_CONSTANTS_ETA_A, eta, t, rep_ij);
    let eta_b = packing_fraction_b(&BH_CONSTANTS_ETA_B, eta, t);
    let half = D::from(0.5);
    let one = D::from(1.0);
    let d_ij = (i.d + j.d) * half;
    i.x * j.x
        * ((-eta_a * half + one) / (-eta_a + one).powi(3)
            - (-eta_b * half + one) / (-eta_b + one).powi(3))
        * (-d_ij.powi(3) + sigma_ij.powi(3))
}

// Of two components and their pair.
pub fn term<D: DualNum>(i: Component<D>, j: Component<D>, ij: Mie<D>, eta: D) -> D
    ensures { result ≡ F.term_of D.arithmetic i.x j.x i.d j.d i.sigma j.sigma ij.sigma ij.rep eta }
{
    term_by(i, j, ij.sigma, ij.rep, eta)
}

// The sum over all pairs, by any rows and matrices.
pub fn pair_sum<D: DualNum>(
    n: Components,
    x: &[D; 8],
    d: &[D; 8],
    sigma: &[D; 8],
    sigma_ij: &[D; 64],
    rep_ij: &[D; 64],
    eta: D,
) -> D
    ensures { result ≡ pairs D.arithmetic n (F.term_ij D.arithmetic (row D.arithmetic x.now) (row D.arithmetic d.now) (row D.arithmetic sigma.now) (matrix D.arithmetic n sigma_ij.now) (matrix D.arithmetic n rep_ij.now) eta) }
{
    let n = n.get();
    let mut a = D::from(0.0);
    for ij in 0..n * n {
        let i = component_of(ij / n, x, d, sigma);
        let j = component_of(ij % n, x, d, sigma);
        a = a + term_by(i, j, sigma_ij[ij], rep_ij[ij], eta);
    }
    a
}

pub fn helmholtz_energy_density<D: DualNum>(b: &BarkerHenderson<D>) -> D
    ensures { result ≡ F.helmholtz_energy_density D.arithmetic (parameters D.arithmetic b.now.mixture) (state_of D.arithmetic b.now.state) }
{
    let p = b.parameters;
    let n = p.mixture.n;
    let molefracs = &b.state.molefracs;
    let partial_density = &b.state.partial_density;
    let eta = packing_fraction(n, partial_density, &b.d);
    let a = pair_sum(n, molefracs, &b.d, &p.sigma, &p.sigma_ij, &p.rep_ij, eta);
    energy(a, sum(n, partial_density))
}
