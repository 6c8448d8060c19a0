// uvtheory/eos/wca/attractive_perturbation.rs: the attractive perturbation by Weeks, Chandler and Andersen.
ghost use Rattle.std.specs.Prelude.{◌≡◌, ◌<◌};
ghost use Rattle.uvtheory.specs.Rows.{doubles, Matrix};
ghost use Rattle.uvtheory.specs.Inputs.{parameters, state_of};
ghost use Rattle.uvtheory.specs.Wca.AttractivePerturbation as F;

use crate::hard_sphere::{q_of, rm_of};
use crate::weeks_chandler_andersen::WeeksChandlerAndersen;
use num_dual::dual_num::DualNum;
use uvtheory::arrays::symmetric;
use uvtheory::beta_eff::coefficient_2;
use uvtheory::consts::PI;
use uvtheory::hard_sphere::sum;
use uvtheory::one_fluid::{OneFluid, mean_cube, one_fluid_properties, virial_sum};
use uvtheory::parameters::{mean_field_of, mie_prefactor};

pub const C_WCA: [[f64; 6]; 6] = [
    [
        -0.2622378162,
        0.6585817423,
        5.5318022309,
        0.6902354794,
        -3.6825190645,
        -1.7263213318,
    ],
    [
        -0.1899241690,
        -0.5555205158,
        9.1361398949,
        0.7966155658,
        -6.1413017045,
        4.9553415149,
    ],
    [
        0.1169786415,
        -0.2216804790,
        -2.0470861617,
        -0.3742261343,
        0.9568416381,
        10.1401796764,
    ],
    [
        0.5852642702,
        2.0795520346,
        19.0711829725,
        -2.3403594600,
        2.5833371420,
        432.3858674425,
    ],
    [
        -0.6084232211,
        -7.2376034572,
        19.0412933614,
        3.2388986513,
        75.4442555789,
        -588.3837110653,
    ],
    [
        0.0512327656,
        6.6667943569,
        47.1109947616,
        -0.5011125797,
        -34.8918383146,
        189.5498636006,
    ],
];

// Constants for WCA u-fraction.
pub const CU_WCA: [f64; 3] = [1.4419, 1.1169, 16.8810];

// Constants for WCA effective inverse reduced temperature.
pub const C2: [[f64; 2]; 3] = [
    [1.45805207053190E-03, 3.57786067657446E-02],
    [1.25869266841313E-04, 1.79889086453277E-03],
    [0.0, 0.0],
];

#[tactic(auto, unfolding(uvtheory::specs::Wca::AttractivePerturbation::delta_b12u))]
pub fn delta_b12u<D: DualNum>(
    t_x: D,
    mean_field_constant_x: D,
    weighted_sigma3_ij: D,
    q_x: D,
    rm_x: D,
) -> D
    ensures { result ≡ F.delta_b12u D.arithmetic t_x mean_field_constant_x weighted_sigma3_ij q_x rm_x }
{
    (-mean_field_constant_x - (rm_x.powi(3) - q_x.powi(3)) * D::from(1.0) / D::from(3.0)) / t_x
        * D::from(2.0)
        * D::from(PI)
        * weighted_sigma3_ij
}

// A coefficient of I_WCA, by its row of C_WCA.
#[tactic(auto, unfolding(uvtheory::specs::Wca::AttractivePerturbation::coefficient))]
fn coefficient<D: DualNum>(c: &[f64; 6], rep_inv: D, tau_x: D) -> D
    ensures { result ≡ F.coefficient D.arithmetic (doubles c.now) rep_inv tau_x }
{
    let rep_inv2 = rep_inv.powi(2);
    rep_inv2 * D::from(c[2])
        + D::from(c[0])
        + rep_inv * D::from(c[1])
        + (rep_inv2 * D::from(c[5]) + rep_inv * D::from(c[4]) + D::from(c[3])) * tau_x
}

// The quotient of the correlation integral, without the prefactor.
#[tactic(auto, unfolding(uvtheory::specs::Wca::AttractivePerturbation::correlation_quotient))]
fn correlation_quotient<D: DualNum>(c: D, rho_x: D, rep_inv: D, tau_x: D) -> D
    ensures { result ≡ F.correlation_quotient D.arithmetic c rho_x rep_inv tau_x }
{
    let k0 = coefficient(&C_WCA[0], rep_inv, tau_x);
    let k1 = coefficient(&C_WCA[1], rep_inv, tau_x);
    let k2 = coefficient(&C_WCA[2], rep_inv, tau_x);
    let k3 = coefficient(&C_WCA[3], rep_inv, tau_x);
    let k4 = coefficient(&C_WCA[4], rep_inv, tau_x);
    let k5 = coefficient(&C_WCA[5], rep_inv, tau_x);
    let rho2 = rho_x.powi(2);
    let rho3 = rho_x.powi(3);
    c * (k0 * rho_x + k1 * rho2 + k2 * rho3) / (k3 * rho_x + k4 * rho2 + k5 * rho3 + D::from(1.0))
}

// By the prefactor c and the place rm_x of the minimum of the one fluid.
#[tactic(auto, unfolding(uvtheory::specs::Wca::AttractivePerturbation::correlation_integral_of))]
pub fn correlation_integral_wca<D: DualNum>(
    rho_x: D,
    mean_field_constant_x: D,
    c: D,
    rep_x: D,
    d_x: D,
    q_x: D,
    rm_x: D,
) -> D
    ensures { result ≡ F.correlation_integral_of D.arithmetic rho_x mean_field_constant_x c rep_x d_x q_x rm_x }
{
    let one = D::from(1.0);
    (q_x.powi(3) - rm_x.powi(3)) * one / D::from(3.0) - mean_field_constant_x
        + correlation_quotient(c, rho_x, one / rep_x, -d_x + rm_x)
}

#[tactic(auto, unfolding(uvtheory::specs::Wca::AttractivePerturbation::u_fraction_wca))]
fn u_fraction_wca<D: DualNum>(rep_x: D, reduced_density: D) -> D
    ensures { result ≡ F.u_fraction_wca D.arithmetic rep_x reduced_density }
{
    (reduced_density * D::from(CU_WCA[0])
        + reduced_density.powi(2)
            * (D::from(1.0) / rep_x * D::from(CU_WCA[2]) + D::from(CU_WCA[1]))).tanh()
}

#[tactic(auto, unfolding(uvtheory::specs::Wca::AttractivePerturbation::beta_eff))]
fn beta_eff<D: DualNum>(beta: D, rep: D, c0: D) -> D
    ensures { result ≡ F.beta_eff D.arithmetic beta rep c0 }
{
    let one = D::from(1.0);
    let c1 = coefficient_2(&C2[0], rep);
    let c2 = coefficient_2(&C2[1], rep);
    let c3 = coefficient_2(&C2[2], rep);
    beta * (-(one
        / (beta.powf(D::from(1.05968091375869)) * c1
            + beta.powf(D::from(3.41106168592999)) * c2
            + beta.powf(D::from(0.0)) * c3
            + one))
        * c0
        + one)
}

// By what it and delta_b2 both work: the mean-field constants at the minimum rs and at the cutoff, a_rs and alpha.
#[tactic(auto, unfolding(uvtheory::specs::Wca::AttractivePerturbation::y_eff_of))]
fn y_eff<D: DualNum>(beta: D, rep: D, rs: D, a_rs: D, alpha: D) -> D
    ensures { result ≡ F.y_eff_of D.arithmetic beta rep rs a_rs alpha }
{
    let one = D::from(1.0);
    let c0 = one - D::from(3.0) * (a_rs - alpha) / (D::from(5.0).powi(3) - rs.powi(3));
    beta_eff(beta, rep, c0).exp() - one
}

// By the prefactor c and the place rm of the minimum of rep and att.
#[tactic(auto, unfolding(uvtheory::specs::Wca::AttractivePerturbation::delta_b2_of))]
pub fn delta_b2<D: DualNum>(reduced_temperature: D, rep: D, att: D, q: D, c: D, rm: D) -> D
    ensures { result ≡ F.delta_b2_of D.arithmetic reduced_temperature rep att q c rm }
{
    let one = D::from(1.0);
    let three = D::from(3.0);
    let rc = D::from(5.0);
    let alpha = mean_field_of(c, rep, att, rc);
    let beta = one / reduced_temperature;
    let y = beta.exp() - one;
    let yeff = y_eff(beta, rep, rm, mean_field_of(c, rep, att, rm), alpha);
    let rm3 = rm.powi(3);
    -(yeff * (rc.powi(3) - rm3) / three + y * (-q.powi(3) + rm3) / three + beta * alpha)
        * D::from(2.0)
        * D::from(PI)
}

// delta_a1u of the properties of the one fluid, by its prefactor c.
#[tactic(auto, unfolding(uvtheory::specs::Wca::AttractivePerturbation::delta_a1u_of))]
pub fn delta_a1u<D: DualNum>(
    o: &OneFluid<D>,
    t_x: D,
    density: D,
    mean_field_constant_x: D,
    c: D,
    q_vdw: D,
    rm_x: D,
) -> D
    ensures { result ≡ F.delta_a1u_of D.arithmetic o.now t_x density mean_field_constant_x c q_vdw rm_x }
{
    let rho_x = density * o.sigma.powi(3);
    let i_wca = correlation_integral_wca(rho_x, mean_field_constant_x, c, o.rep, o.d, q_vdw, rm_x);
    density / t_x * i_wca * D::from(2.0) * D::from(PI) * o.weighted_sigma3_ij
}

#[tactic(auto, unfolding(uvtheory::specs::Wca::AttractivePerturbation::energy))]
pub fn energy<D: DualNum>(o: &OneFluid<D>, t: D, density: D, rho: D, b2bar: D) -> D
    ensures { result ≡ F.energy D.arithmetic o.now t density rho b2bar }
{
    let t_x = t / o.epsilon_k;
    let rm_x = rm_of(o.rep, o.att);
    let c = mie_prefactor(o.rep, o.att);
    let mean_field_constant_x = mean_field_of(c, o.rep, o.att, rm_x);
    let q_vdw = q_of(t_x, o.rep, o.att, rm_x);
    let a1u = delta_a1u(o, t_x, density, mean_field_constant_x, c, q_vdw, rm_x);
    let b21u = delta_b12u(
        t_x,
        mean_field_constant_x,
        o.weighted_sigma3_ij,
        q_vdw,
        rm_x,
    );
    density * (a1u + (-u_fraction_wca(o.rep, rho) + D::from(1.0)) * (b2bar - b21u) * density)
}

// Of all pairs.
fn delta_b2_ij<D: DualNum>(w: &WeeksChandlerAndersen<D>) -> [D; 64]
    ensures { Matrix D.arithmetic w.now.mixture.n result (F.delta_b2_ij D.arithmetic (parameters D.arithmetic w.now.mixture) w.now.state.temperature) }
{
    let p = w.parameters;
    let t = w.state.temperature;
    symmetric(
        p.mixture.n,
        |i: usize, j: usize| -> D
            requires { (i < w.now.mixture.n) × (j < w.now.mixture.n) × (t ≡ w.now.state.temperature) }
            ensures { result ≡ F.delta_b2_ij D.arithmetic (parameters D.arithmetic w.entry.now.mixture) w.entry.now.state.temperature i j }
        {
            let ij = w.pair(i, j);
            let c = mie_prefactor(ij.rep, ij.att);
            delta_b2(t / ij.epsilon_k, ij.rep, ij.att, ij.q, c, ij.rm)
        },
    )
}

pub fn helmholtz_energy_density<D: DualNum>(w: &WeeksChandlerAndersen<D>) -> D
    ensures { result ≡ F.helmholtz_energy_density D.arithmetic (parameters D.arithmetic w.now.mixture) (state_of D.arithmetic w.now.state) }
{
    let p = w.parameters;
    let s = w.state;
    let n = p.mixture.n;
    let x = &s.molefracs;
    let o = one_fluid_properties(p, x, &w.d);
    let b2 = delta_b2_ij(w);
    let b2bar = virial_sum(n, x, &p.sigma_ij, 3, &b2);
    let density = sum(n, &s.partial_density);
    energy(
        &o,
        s.temperature,
        density,
        density * mean_cube(n, x, &p.sigma),
        b2bar,
    )
}
