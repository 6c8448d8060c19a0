// uvtheory/eos/wca/attractive_perturbation_uvb3.rs: the attractive perturbation of WCA-B3.
ghost use Rattle.std.specs.Prelude.{◌≡◌, ◌<◌};
ghost use Rattle.arithmetic.specs.Arithmetic.{power_by};
ghost use Rattle.arithmetic.specs.Constants.{one};
ghost use Rattle.uvtheory.specs.Rows.{doubles, Matrix};
ghost use Rattle.uvtheory.specs.Inputs.{parameters, state_of};
ghost use Rattle.uvtheory.specs.Wca.HardSphere.{diameter_wca};
ghost use Rattle.uvtheory.specs.Wca.AttractivePerturbationUvb3 as F;

use num_dual::dual_num::DualNum;
use uvtheory::arrays::{matrix, symmetric};
use uvtheory::consts::PI;
use uvtheory::hard_sphere::sum;
use uvtheory::one_fluid::{OneFluid, mean_cube, one_fluid_properties, virial_sum};
use uvtheory::packing_fraction::coefficient_b;
use uvtheory::parameters::{mean_field_of, mie_prefactor};
use uvtheory_wca::attractive_perturbation::{C_WCA, delta_a1u, delta_b12u};
use uvtheory_wca::hard_sphere::{WCA_PACKING_UVB3, q_of, rm_of};
use uvtheory_wca::weeks_chandler_andersen::WeeksChandlerAndersen;

// Constants for delta B2 RSAP
pub const C_B2_RSAP: [[f64; 4]; 4] = [
    [-0.063550989, 6.206829830, -37.45829549, 40.72849774],
    [1.519053409, 13.14989643, 85.35058674, 374.1906360],
    [0.693456220, 9.459946180, -53.28984218, 315.8199084],
    [0.007492596, 0.546171170, 7.979562575, -119.6126395],
];

// Constants for B3 Model for Mie nu-6 fluids
pub const K_LJ_B3: [f64; 16] = [
    -3.9806, 79.565, 0.5489, 5.3632, 1.4245, 57.292, 0.0, 1.0031, -39.755, -81.213, 0.6987, 30.156,
    -23.692, -85.006, 0.7762, 12.798,
];

pub const P_B3: [f64; 4] = [0.80844, -0.09541, 0.47525, -2.83283];

pub const L_B3: [f64; 4] = [4.9485, -21.3, 7.0, 3.2162];

pub const M_B3: [f64; 4] = [0.11853, 0.078556, -0.55039, 0.009163];

pub const CU_WCA: [f64; 8] = [26.454, 1.8045, 1.7997, 161.96, 11.605, 12.0, 0.4, 2.0];

// 2! to 15!, and 2 to 15.
pub const FACTORIALS: [f64; 14] = [
    2.0,
    6.0,
    24.0,
    120.0,
    720.0,
    5040.0,
    40320.0,
    362880.0,
    3628800.0,
    39916800.0,
    479001600.0,
    6227020800.0,
    87178291200.0,
    1307674368000.0,
];

pub const WHOLES: [f64; 14] = [
    2.0, 3.0, 4.0, 5.0, 6.0, 7.0, 8.0, 9.0, 10.0, 11.0, 12.0, 13.0, 14.0, 15.0,
];

// The low temperature correction; e is the exponential of both its cases.
#[tactic(auto, unfolding(uvtheory::specs::Wca::AttractivePerturbationUvb3::omega))]
fn omega<D: DualNum>(t_x: D, e: D) -> D
    ensures { result ≡ F.omega D.arithmetic t_x e }
{
    let one = D::from(1.0);
    let low = e * (one / (t_x * D::from(CU_WCA[7])).tanh() - one).powi(2);
    t_x.if_below(175.0, low, e * D::from(0.0))
}

#[tactic(auto, unfolding(uvtheory::specs::Wca::AttractivePerturbationUvb3::u_fraction_wca))]
fn u_fraction_wca<D: DualNum>(rep_x: D, reduced_density: D, t_x: D) -> D
    ensures { result ≡ F.u_fraction_wca D.arithmetic rep_x reduced_density t_x }
{
    let one = D::from(1.0);
    let c = &CU_WCA;
    let e = (-t_x * D::from(c[5]) * (reduced_density - D::from(c[6])).powi(2)).exp();
    -(-(reduced_density.powi(2) * (one / (rep_x + D::from(c[4])) * D::from(c[3]) + D::from(c[2]))
        + omega(t_x, e))).exp()
        + one
}

// A coefficient by its row of C_B2_RSAP, and the reciprocals of rep and its powers.
#[tactic(auto, unfolding(uvtheory::specs::Wca::AttractivePerturbationUvb3::coefficient_rsap_of))]
fn coefficient_rsap<D: DualNum>(c: &[f64; 4], r1: D, r2: D, r3: D) -> D
    ensures { result ≡ F.coefficient_rsap_of D.arithmetic (doubles c.now) r1 r2 r3 }
{
    r1 * D::from(c[1]) + r2 * D::from(c[2]) + r3 * D::from(c[3]) + D::from(c[0])
}

// The power of v, where its product from the left is at hand.
#[tactic(auto, unfolding(num_dual::specs::Powers::PowersFromLeft))]
fn power_from<D: DualNum>(v: D, k: u64, product: D) -> D
    requires { product ≡ power_by (D.arithmetic.constant one) D.arithmetic.mul v k }
    ensures { result ≡ D.arithmetic.powi v k }
{
    if k == 2 || k == 4 { v.powi(k) } else { product }
}

// Each product is the one before it times beta.
#[tactic(auto, unfolding(uvtheory::specs::Wca::AttractivePerturbationUvb3::sum_beta), using(arithmetic::proofs::Repeated::longer_power, arithmetic::proofs::Repeated::single_factor))]
fn sum_beta<D: DualNum>(beta: D) -> D
    ensures { result ≡ F.sum_beta D.arithmetic 14 beta }
{
    let mut sum = beta;
    let mut product = beta;
    for m in 0..14 {
        product = product * beta;
        sum = sum
            + power_from(beta, m as u64 + 2, product)
                / (D::from(FACTORIALS[m]) * D::from(WHOLES[m]));
    }
    sum
}

// By the place rm of the minimum of rep and att.
#[tactic(auto, unfolding(uvtheory::specs::Wca::AttractivePerturbationUvb3::delta_b2_of, uvtheory::specs::Wca::AttractivePerturbationUvb3::coefficient_rsap_of, uvtheory::specs::Wca::AttractivePerturbationUvb3::sum_beta))]
pub fn delta_b2<D: DualNum>(reduced_temperature: D, rep: D, q: D, rm: D) -> D
    ensures { result ≡ F.delta_b2_of D.arithmetic reduced_temperature rep q rm }
{
    let one = D::from(1.0);
    let two = D::from(2.0);
    let three = D::from(3.0);
    let pi = D::from(PI);
    let c = &C_B2_RSAP;
    let beta = one / reduced_temperature;
    let b20 = q.powi(3) * two / three * pi;
    let y = beta.exp() - one;
    let r1 = one / rep;
    let r2 = one / rep.powi(2);
    let r3 = one / rep.powi(3);
    (b20 - rm.powi(3) * two / three * pi - coefficient_rsap(&c[0], r1, r2, r3)) * y
        - sum_beta(beta) * coefficient_rsap(&c[1], r1, r2, r3)
        - beta * coefficient_rsap(&c[2], r1, r2, r3)
        - beta.powi(2) * coefficient_rsap(&c[3], r1, r2, r3)
}

// k1 by the first row of C_WCA and the reciprocals of nu and its square.
#[tactic(auto, unfolding(uvtheory::specs::Wca::AttractivePerturbationUvb3::k1_of))]
fn k1_of<D: DualNum>(c: &[f64; 6], r1: D, r2: D, tau: D) -> D
    ensures { result ≡ F.k1_of D.arithmetic (doubles c.now) r1 r2 tau }
{
    r1 * D::from(c[1])
        + r2 * D::from(c[2])
        + D::from(c[0])
        + (r1 * D::from(c[4]) + r2 * D::from(c[5]) + D::from(c[3])) * tau
}

// By the prefactor c of nu and att.
#[tactic(auto, unfolding(uvtheory::specs::Wca::AttractivePerturbationUvb3::delta_b31u_of))]
fn delta_b31u<D: DualNum>(t_x: D, weighted_sigma3_ij: D, rm_x: D, nu: D, c: D, d_x: D) -> D
    ensures { result ≡ F.delta_b31u_of D.arithmetic t_x weighted_sigma3_ij rm_x nu c d_x }
{
    let one = D::from(1.0);
    let k1 = k1_of(&C_WCA[0], one / nu, one / nu.powi(2), rm_x - d_x);
    one / t_x * D::from(4.0) * c * D::from(PI) * k1 * weighted_sigma3_ij.powi(2)
}

// b31 to b34, for i from 0: by four entries of K_LJ_B3 and one of each other table.
#[tactic(auto, unfolding(uvtheory::specs::Wca::AttractivePerturbationUvb3::b3_term))]
fn b3_term<D: DualNum>(i: usize, t_x: D, rep_x: D) -> D
    requires { i < 4 }
    ensures { result ≡ F.b3_term D.arithmetic i t_x rep_x }
{
    let one = D::from(1.0);
    let k = &K_LJ_B3;
    let j = 4 * i;
    let r = rep_x - D::from(12.0);
    let e = (r / (rep_x - D::from(6.0)) * D::from(M_B3[i]) + one) * D::from(k[j + 3]);
    let s = r / (rep_x - D::from(L_B3[i])) * D::from(P_B3[i]) + one;
    one / (t_x + D::from(k[j + 2])).powf(e) * D::from(k[j + 1]) * s + D::from(k[j])
}

// Ten times the square of the volume of a sphere.
#[tactic(auto, unfolding(uvtheory::specs::Wca::AttractivePerturbationUvb3::ten_volumes))]
fn ten_volumes<D: DualNum>(d: D) -> D
    ensures { result ≡ F.ten_volumes D.arithmetic d }
{
    (d.powi(3) * D::from(PI) / D::from(6.0)).powi(2) * D::from(10.0)
}

// By the first row of WCA_CONSTANTS_ETA_A_UVB3. Its sums stand the other way round than in packing_fraction_a.
#[tactic(auto, unfolding(uvtheory::specs::Wca::AttractivePerturbationUvb3::c1_eta_a))]
fn c1_eta_a<D: DualNum>(a: &[f64; 4], tau: D, rep_inv: D) -> D
    ensures { result ≡ F.c1_eta_a D.arithmetic (doubles a.now) tau rep_inv }
{
    tau * (rep_inv * D::from(a[1]) + D::from(a[0]))
        + tau * tau * (rep_inv * D::from(a[3]) + D::from(a[2]))
}

#[tactic(auto, unfolding(uvtheory::specs::Wca::AttractivePerturbationUvb3::b30_uv))]
fn b30_uv<D: DualNum>(rm_x: D, rep_x: D, d_x: D, q_x: D) -> D
    ensures { result ≡ F.b30_uv D.arithmetic rm_x rep_x d_x q_x }
{
    let one = D::from(1.0);
    let tau = -d_x + rm_x;
    let c1_eta_a = c1_eta_a(&WCA_PACKING_UVB3.eta_a[0], tau, one / rep_x);
    let c1_eta_b = coefficient_b(&WCA_PACKING_UVB3.eta_b[0], tau);
    let d3 = d_x.powi(3);
    let rm3 = rm_x.powi(3);
    ten_volumes(d_x)
        - d3 * D::from(5.0) / D::from(9.0)
            * D::from(PI).powi(2)
            * ((-q_x.powi(3) + rm3) * (c1_eta_a + one) - (-d3 + rm3) * (c1_eta_b + one))
}

#[tactic(auto, unfolding(uvtheory::specs::Wca::AttractivePerturbationUvb3::delta_b3))]
pub fn delta_b3<D: DualNum>(t_x: D, rm_x: D, rep_x: D, d_x: D, q_x: D) -> D
    ensures { result ≡ F.delta_b3 D.arithmetic t_x rm_x rep_x d_x q_x }
{
    let beta = D::from(1.0) / t_x;
    ten_volumes(q_x)
        + b3_term(0, t_x, rep_x) * beta
        + b3_term(1, t_x, rep_x) * beta.powi(2)
        + b3_term(2, t_x, rep_x) * beta.powi(3)
        + b3_term(3, t_x, rep_x) * beta.powi(4)
        - b30_uv(rm_x, rep_x, d_x, q_x)
}

#[tactic(auto, unfolding(uvtheory::specs::Wca::AttractivePerturbationUvb3::alpha))]
fn alpha<D: DualNum>(rho_x: D, rep_x: D, t_x: D) -> D
    ensures { result ≡ F.alpha D.arithmetic rho_x rep_x t_x }
{
    let one = D::from(1.0);
    (-rho_x
        * (one / rep_x)
        * D::from(CU_WCA[0])
        * (one / t_x.powi(2) * D::from(CU_WCA[1]) + one)).exp()
}

#[tactic(auto, unfolding(uvtheory::specs::Wca::AttractivePerturbationUvb3::energy))]
pub fn energy<D: DualNum>(o: &OneFluid<D>, t: D, density: D, rho: D, b2bar: D, b3bar: D) -> D
    ensures { result ≡ F.energy D.arithmetic o.now t density rho b2bar b3bar }
{
    let t_x = t / o.epsilon_k;
    let rm_x = rm_of(o.rep, o.att);
    let c = mie_prefactor(o.rep, o.att);
    let mean_field_constant_x = mean_field_of(c, o.rep, o.att, rm_x);
    let q_vdw = q_of(t_x, o.rep, o.att, rm_x);
    let a1u = delta_a1u(o, t_x, density, mean_field_constant_x, c, q_vdw, rm_x);
    let b21u = delta_b12u(
        t_x,
        mean_field_constant_x,
        o.weighted_sigma3_ij,
        q_vdw,
        rm_x,
    );
    let db31u = delta_b31u(t_x, o.weighted_sigma3_ij, rm_x, o.rep, c, o.d);
    let a = alpha(density * o.sigma.powi(3), o.rep, t_x);
    let b = (b2bar - b21u) * density + density.powi(2) * a * (b3bar - db31u) * D::from(0.5);
    density * (a1u + (-u_fraction_wca(o.rep, rho, t_x) + D::from(1.0)) * b)
}

// Of all pairs.
fn delta_b2_ij<D: DualNum>(w: &WeeksChandlerAndersen<D>) -> [D; 64]
    ensures { Matrix D.arithmetic w.now.mixture.n result (F.delta_b2_ij D.arithmetic (parameters D.arithmetic w.now.mixture) w.now.state.temperature) }
{
    let p = w.parameters;
    let t = w.state.temperature;
    symmetric(
        p.mixture.n,
        |i: usize, j: usize| -> D
            requires { (i < w.now.mixture.n) × (j < w.now.mixture.n) × (t ≡ w.now.state.temperature) }
            ensures { result ≡ F.delta_b2_ij D.arithmetic (parameters D.arithmetic w.entry.now.mixture) w.entry.now.state.temperature i j }
        {
            let ij = w.pair(i, j);
            delta_b2(t / ij.epsilon_k, ij.rep, ij.q, ij.rm)
        },
    )
}

// The diameter of a component over its sigma.
fn reduced_diameter<D: DualNum>(w: &WeeksChandlerAndersen<D>, i: usize) -> D
    requires { i < w.now.mixture.n }
    ensures { result ≡ D.arithmetic.div (diameter_wca D.arithmetic (parameters D.arithmetic w.now.mixture) w.now.state.temperature i) ((parameters D.arithmetic w.now.mixture).sigma i) }
{
    w.component(i).d / w.parameters.pure(i).sigma
}

// Of all pairs; no sum of two diameters is taken to be the same the other way round.
fn delta_b3_ij<D: DualNum>(w: &WeeksChandlerAndersen<D>) -> [D; 64]
    ensures { Matrix D.arithmetic w.now.mixture.n result (F.delta_b3_ij D.arithmetic (parameters D.arithmetic w.now.mixture) w.now.state.temperature (diameter_wca D.arithmetic (parameters D.arithmetic w.now.mixture) w.now.state.temperature)) }
{
    let p = w.parameters;
    let t = w.state.temperature;
    matrix(
        p.mixture.n,
        |i: usize, j: usize| -> D
            requires { (i < w.now.mixture.n) × (j < w.now.mixture.n) × (t ≡ w.now.state.temperature) }
            ensures { result ≡ F.delta_b3_ij D.arithmetic (parameters D.arithmetic w.entry.now.mixture) w.entry.now.state.temperature (diameter_wca D.arithmetic (parameters D.arithmetic w.entry.now.mixture) w.entry.now.state.temperature) i j }
        {
            let ij = w.pair(i, j);
            let d_ij = (reduced_diameter(w, i) + reduced_diameter(w, j)) * D::from(0.5);
            delta_b3(t / ij.epsilon_k, ij.rm, ij.rep, d_ij, ij.q)
        },
    )
}

pub fn helmholtz_energy_density<D: DualNum>(w: &WeeksChandlerAndersen<D>) -> D
    ensures { result ≡ F.helmholtz_energy_density D.arithmetic (parameters D.arithmetic w.now.mixture) (state_of D.arithmetic w.now.state) }
{
    let p = w.parameters;
    let s = w.state;
    let n = p.mixture.n;
    let x = &s.molefracs;
    let o = one_fluid_properties(p, x, &w.d);
    let b2bar = virial_sum(n, x, &p.sigma_ij, 3, &delta_b2_ij(w));
    let b3bar = virial_sum(n, x, &p.sigma_ij, 6, &delta_b3_ij(w));
    let density = sum(n, &s.partial_density);
    energy(
        &o,
        s.temperature,
        density,
        density * mean_cube(n, x, &p.sigma),
        b2bar,
        b3bar,
    )
}
