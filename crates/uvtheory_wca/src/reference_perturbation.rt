// uvtheory/eos/wca/reference_perturbation.rs and reference_perturbation_uvb3.rs, which differ in their packing tables only.
ghost use Rattle.std.specs.Prelude.{◌≡◌};
ghost use Rattle.arithmetic.specs.Sums.{pairs};
ghost use Rattle.uvtheory.specs.Tables.{table};
ghost use Rattle.uvtheory.specs.Rows.{row, matrix};
ghost use Rattle.uvtheory.specs.Inputs.{parameters, state_of};
ghost use Rattle.uvtheory.specs.Wca.ReferencePerturbation as F;

use crate::hard_sphere::tau;
use crate::weeks_chandler_andersen::{Component, Pair, WeeksChandlerAndersen, component_of};
use num_dual::dual_num::DualNum;
use uvtheory::components::Components;
use uvtheory::hard_sphere::sum;
use uvtheory::packing_fraction::{
    PackingConstants, packing_fraction, packing_fraction_a, packing_fraction_b,
};
use uvtheory::reference_energy::energy;

// Of a pair of components.
#[tactic(auto, unfolding(uvtheory::specs::Wca::ReferencePerturbation::term))]
pub fn term<D: DualNum>(
    xi: D,
    xj: D,
    eta_a: D,
    eta_b: D,
    rs_ij: D,
    d_ij: D,
    q_ij: D,
    sigma_ij: D,
) -> D
    ensures { result ≡ F.term D.arithmetic xi xj eta_a eta_b rs_ij d_ij q_ij sigma_ij }
{
    let one = D::from(1.0);
    let half = D::from(0.5);
    let rs3 = (rs_ij * sigma_ij).powi(3);
    xi * xj
        * ((-eta_a * half + one) / (-eta_a + one).powi(3) * (-q_ij.powi(3) + rs3)
            - (-eta_b * half + one) / (-eta_b + one).powi(3) * (-d_ij.powi(3) + rs3))
}

// Of two components and the q, sigma and rep of their pair.
#[tactic(auto, unfolding(uvtheory::specs::Wca::ReferencePerturbation::term_of))]
fn term_by<D: DualNum>(
    c: &PackingConstants,
    i: Component<D>,
    j: Component<D>,
    q: D,
    sigma_ij: D,
    rep_ij: D,
    eta: D,
) -> D
    ensures { result ≡ F.term_of D.arithmetic (table c.now.eta_a) (table c.now.eta_b) i.x j.x i.rm j.rm i.d j.d i.length j.length q sigma_ij rep_ij eta }
{
    let half = D::from(0.5);
    let t = tau(i.length, j.length, sigma_ij);
    term(
        i.x,
        j.x,
        packing_fraction_a(&c.eta_a, eta, t, rep_ij),
        packing_fraction_b(&c.eta_b, eta, t),
        (i.rm + j.rm) * half,
        (i.d + j.d) * half,
        q * sigma_ij,
        sigma_ij,
    )
}

// Of two components and their pair.
pub fn term_of<D: DualNum>(
    c: &PackingConstants,
    i: Component<D>,
    j: Component<D>,
    ij: Pair<D>,
    eta: D,
) -> D
    ensures { result ≡ F.term_of D.arithmetic (table c.now.eta_a) (table c.now.eta_b) i.x j.x i.rm j.rm i.d j.d i.length j.length ij.q ij.sigma ij.rep eta }
{
    term_by(c, i, j, ij.q, ij.sigma, ij.rep, eta)
}

// The sum over all pairs, by any rows and matrices.
pub fn pair_sum<D: DualNum>(
    c: &PackingConstants,
    n: Components,
    x: &[D; 8],
    rm: &[D; 8],
    d: &[D; 8],
    length: &[D; 8],
    q: &[D; 64],
    sigma_ij: &[D; 64],
    rep_ij: &[D; 64],
    eta: D,
) -> D
    ensures { result ≡ pairs D.arithmetic n (F.term_ij D.arithmetic (table c.now.eta_a) (table c.now.eta_b) (row D.arithmetic x.now) (row D.arithmetic rm.now) (row D.arithmetic d.now) (row D.arithmetic length.now)
        (matrix D.arithmetic n q.now) (matrix D.arithmetic n sigma_ij.now) (matrix D.arithmetic n rep_ij.now) eta) }
{
    let n = n.get();
    let mut a = D::from(0.0);
    for ij in 0..n * n {
        let i = component_of(ij / n, x, rm, d, length);
        let j = component_of(ij % n, x, rm, d, length);
        a = a + term_by(c, i, j, q[ij], sigma_ij[ij], rep_ij[ij], eta);
    }
    a
}

// By the packing constants of WCA or of B3.
pub fn helmholtz_energy_density<D: DualNum>(c: &PackingConstants, w: &WeeksChandlerAndersen<D>) -> D
    ensures { result ≡ F.helmholtz_energy_density D.arithmetic (table c.now.eta_a) (table c.now.eta_b) (parameters D.arithmetic w.now.mixture) (state_of D.arithmetic w.now.state) }
{
    let p = w.parameters;
    let n = p.mixture.n;
    let molefracs = &w.state.molefracs;
    let partial_density = &w.state.partial_density;
    let eta = packing_fraction(n, partial_density, &w.d);
    let a = pair_sum(
        c,
        n,
        molefracs,
        &w.rm,
        &w.d,
        &w.length,
        &w.q_ij,
        &p.sigma_ij,
        &p.rep_ij,
        eta,
    );
    energy(a, sum(n, partial_density))
}
