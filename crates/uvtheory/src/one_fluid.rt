// one_fluid_properties, which bh/attractive_perturbation.rs and wca/attractive_perturbation.rs have word for word, and the sums over pairs of the virial coefficients.
ghost use Rattle.std.specs.Prelude.{◌≡◌};
ghost use Rattle.uvtheory.specs.Rows.{row, matrix};
ghost use Rattle.uvtheory.specs.Inputs.{parameters};
ghost use Rattle.uvtheory.specs.OneFluid as F;

use crate::components::Components;
use crate::parameters::UVTheoryPars;
use num_dual::dual_num::DualNum;

// The Rust's six values, in its order.
#[derive(Clone, Copy)]
pub struct OneFluid<D> {
    pub rep: D,
    pub att: D,
    pub sigma: D,
    pub weighted_sigma3_ij: D,
    pub epsilon_k: D,
    pub d: D,
}

// The dot product with the cubes of a row.
#[tactic(auto, unfolding(crate::specs::OneFluid::mean_cube))]
pub fn mean_cube<D: DualNum>(n: Components, x: &[D; 8], s: &[D; 8]) -> D
    ensures { result ≡ F.mean_cube D.arithmetic n (row D.arithmetic x.now) (row D.arithmetic s.now) }
{
    let mut sum = D::from(0.0);
    for i in 0..n.get() {
        sum = sum + x[i] * s[i].powi(3);
    }
    sum
}

// x_i x_j f_ij^k, over all pairs.
#[tactic(auto, unfolding(crate::specs::OneFluid::pair_mean))]
pub fn pair_mean<D: DualNum>(n: Components, x: &[D; 8], f: &[D; 64], k: u64) -> D
    ensures { result ≡ F.pair_mean D.arithmetic n (row D.arithmetic x.now) (λ i j. D.arithmetic.powi (matrix D.arithmetic n f.now i j) k) }
{
    let n = n.get();
    let mut sum = D::from(0.0);
    for ij in 0..n * n {
        sum = sum + x[ij / n] * x[ij % n] * f[ij].powi(k);
    }
    sum
}

// x_i x_j sigma_ij^k f_ij, over all pairs.
#[tactic(auto, unfolding(crate::specs::OneFluid::weighted_pairs))]
pub fn virial_sum<D: DualNum>(
    n: Components,
    x: &[D; 8],
    sigma_ij: &[D; 64],
    k: u64,
    f: &[D; 64],
) -> D
    ensures { result ≡ F.virial_sum D.arithmetic n (row D.arithmetic x.now) (matrix D.arithmetic n sigma_ij.now) k (matrix D.arithmetic n f.now) }
{
    let n = n.get();
    let mut sum = D::from(0.0);
    for ij in 0..n * n {
        sum = sum + x[ij / n] * x[ij % n] * sigma_ij[ij].powi(k) * f[ij];
    }
    sum
}

// The cube root of a mean of cubes.
#[tactic(auto, unfolding(crate::specs::OneFluid::cube_root))]
pub fn cube_root<D: DualNum>(v: D) -> D
    ensures { result ≡ F.cube_root D.arithmetic v }
{
    v.powf(D::from(1.0) / D::from(3.0))
}

// By any matrices of n rows, the sigma, the fractions and the diameters.
pub fn one_fluid_of<D: DualNum>(
    n: Components,
    rep_ij: &[D; 64],
    att_ij: &[D; 64],
    sigma_ij: &[D; 64],
    eps_k_ij: &[D; 64],
    sigma: &[D; 8],
    x: &[D; 8],
    d: &[D; 8],
) -> OneFluid<D>
    ensures { result ≡ F.one_fluid_of D.arithmetic n (matrix D.arithmetic n rep_ij.now) (matrix D.arithmetic n att_ij.now) (matrix D.arithmetic n sigma_ij.now) (matrix D.arithmetic n eps_k_ij.now)
        (row D.arithmetic sigma.now) (row D.arithmetic x.now) (row D.arithmetic d.now) }
{
    let weighted_sigma3_ij = pair_mean(n, x, sigma_ij, 3);
    let sigma_x = cube_root(mean_cube(n, x, sigma));
    OneFluid {
        rep: pair_mean(n, x, rep_ij, 1),
        att: pair_mean(n, x, att_ij, 1),
        sigma: sigma_x,
        weighted_sigma3_ij,
        epsilon_k: virial_sum(n, x, sigma_ij, 3, eps_k_ij) / weighted_sigma3_ij,
        d: cube_root(mean_cube(n, x, d)) / sigma_x,
    }
}

// Of the mixture, by the fractions and the diameters.
pub fn one_fluid_properties<D: DualNum>(p: &UVTheoryPars<D>, x: &[D; 8], d: &[D; 8]) -> OneFluid<D>
    ensures { result ≡ F.one_fluid_properties D.arithmetic (parameters D.arithmetic p.now) (row D.arithmetic x.now) (row D.arithmetic d.now) }
{
    one_fluid_of(
        p.mixture.n,
        &p.rep_ij,
        &p.att_ij,
        &p.sigma_ij,
        &p.eps_k_ij,
        &p.sigma,
        x,
        d,
    )
}
