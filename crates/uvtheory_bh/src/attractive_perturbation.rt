// uvtheory/eos/bh/attractive_perturbation.rs: the attractive perturbation by Barker-Henderson.
ghost use Rattle.std.specs.Prelude.{◌≡◌, ◌<◌};
ghost use Rattle.uvtheory.specs.Rows.{doubles, Matrix};
ghost use Rattle.uvtheory.specs.Inputs.{parameters, state_of};
ghost use Rattle.uvtheory.specs.Bh.AttractivePerturbation as F;

use crate::barker_henderson::BarkerHenderson;
use num_dual::dual_num::DualNum;
use uvtheory::arrays::symmetric;
use uvtheory::beta_eff::coefficient_2;
use uvtheory::consts::{FRAC_PI_3, PI};
use uvtheory::hard_sphere::sum;
use uvtheory::one_fluid::{OneFluid, mean_cube, one_fluid_properties, virial_sum};
use uvtheory::parameters::{UVTheoryPars, mean_field_of, mie_prefactor};

pub const C_BH: [[f64; 4]; 2] = [
    [
        0.168966996450507,
        -0.991545819144238,
        0.743142180601202,
        -4.32349593441145,
    ],
    [
        -0.532628162859638,
        2.66039013993583,
        -1.95070279905704,
        -0.000137219512394905,
    ],
];

// Constants for BH u-fraction.
pub const CU_BH: [[f64; 2]; 4] = [
    [0.72188, 0.0],
    [-0.0059822, 2.4676],
    [2.2919, 14.9735],
    [5.1647, 2.4017],
];

// Constants for BH effective inverse reduced temperature.
pub const C2: [[f64; 2]; 3] = [
    [1.50542979585173e-03, 3.90426109607451e-02],
    [3.23388827421376e-04, 1.29508541592689e-02],
    [5.25749466058948e-05, 5.26748277148572e-04],
];

#[tactic(auto, unfolding(uvtheory::specs::Bh::AttractivePerturbation::delta_b12u))]
fn delta_b12u<D: DualNum>(t_x: D, mean_field_constant_x: D, weighted_sigma3_ij: D) -> D
    ensures { result ≡ F.delta_b12u D.arithmetic t_x mean_field_constant_x weighted_sigma3_ij }
{
    -mean_field_constant_x / t_x * D::from(2.0) * D::from(PI) * weighted_sigma3_ij
}

#[tactic(auto, unfolding(uvtheory::specs::Bh::AttractivePerturbation::beta_eff))]
fn beta_eff<D: DualNum>(beta: D, rep: D, c0: D) -> D
    ensures { result ≡ F.beta_eff D.arithmetic beta rep c0 }
{
    let one = D::from(1.0);
    let c1 = coefficient_2(&C2[0], rep);
    let c2 = coefficient_2(&C2[1], rep);
    let c3 = coefficient_2(&C2[2], rep);
    beta * (-(one / (beta * (beta * c2 + beta.powi(3) * c3 + c1) + one)) * c0 + one)
}

// By the mean-field constants at 1 and at the cutoff, a_rs and alpha.
#[tactic(auto, unfolding(uvtheory::specs::Bh::AttractivePerturbation::y_eff_of))]
fn y_eff<D: DualNum>(beta: D, rep: D, a_rs: D, alpha: D) -> D
    ensures { result ≡ F.y_eff_of D.arithmetic beta rep a_rs alpha }
{
    let rc = D::from(5.0);
    let rs = D::from(1.0);
    let c0 = rs - D::from(3.0) * (a_rs - alpha) / (rc.powi(3) - rs.powi(3));
    beta_eff(beta, rep, c0).exp() - D::from(1.0)
}

// The prefactor is worked once for both mean-field constants.
#[tactic(auto, unfolding(uvtheory::specs::Bh::AttractivePerturbation::delta_b2))]
pub fn delta_b2<D: DualNum>(reduced_temperature: D, rep: D, att: D) -> D
    ensures { result ≡ F.delta_b2 D.arithmetic reduced_temperature rep att }
{
    let one = D::from(1.0);
    let rc = D::from(5.0);
    let c = mie_prefactor(rep, att);
    let alpha = mean_field_of(c, rep, att, rc);
    let beta = one / reduced_temperature;
    let yeff = y_eff(beta, rep, mean_field_of(c, rep, att, one), alpha);
    -(yeff * (rc.powi(3) - one) / D::from(3.0) + beta * alpha) * D::from(2.0) * D::from(PI)
}

// The first of coefficients_bh; d to the 6 - rep is worked once for two of its parts.
#[tactic(auto, unfolding(uvtheory::specs::Bh::AttractivePerturbation::coefficient_1, uvtheory::specs::Bh::AttractivePerturbation::c11, uvtheory::specs::Bh::AttractivePerturbation::c12, uvtheory::specs::Bh::AttractivePerturbation::c13))]
fn coefficient_1<D: DualNum>(rep: D, att: D, d: D) -> D
    ensures { result ≡ F.coefficient_1 D.arithmetic rep att d }
{
    let one = D::from(1.0);
    let two = D::from(2.0);
    let three = D::from(3.0);
    let four = D::from(4.0);
    let six = D::from(6.0);
    let s3 = -rep + three;
    let s4 = -rep + four;
    let s6 = -rep + six;
    let d_rep = d.powf(s6);
    let d2 = d * two;
    let c11 = d_rep * ((one * two).powf(s3) - d.powf(rep - three)) / s3
        + (-d.powi(3) * D::from(8.0) + one) / D::from(24.0);
    let c12 = (d_rep * ((one * two).powf(s4) - d.powf(rep - four)) / s4
        + (-d.powi(2) * four + one) / D::from(8.0))
        * D::from(-0.75);
    let c13 = ((d2.powf(s6) - one) / s6 - d2.ln() * d.powf(-att + six)) / D::from(16.0);
    (c11 + c12 + c13) * D::from(FRAC_PI_3) * four
}

// The second and the third, by their row of C_BH.
#[tactic(auto, unfolding(uvtheory::specs::Bh::AttractivePerturbation::coefficient))]
fn coefficient<D: DualNum>(c: &[f64; 4], rep_inv: D, d: D) -> D
    ensures { result ≡ F.coefficient D.arithmetic (doubles c.now) rep_inv d }
{
    rep_inv * D::from(c[1]) + D::from(c[0])
        - (rep_inv * D::from(c[3]) + D::from(c[2])) * (-d + D::from(1.0))
}

// By the prefactor c.
#[tactic(auto, unfolding(uvtheory::specs::Bh::AttractivePerturbation::correlation_integral_of, uvtheory::specs::Bh::AttractivePerturbation::coefficient))]
fn correlation_integral_bh<D: DualNum>(
    rho_x: D,
    mean_field_constant_x: D,
    c: D,
    rep_x: D,
    att_x: D,
    d_x: D,
) -> D
    ensures { result ≡ F.correlation_integral_of D.arithmetic rho_x mean_field_constant_x c rep_x att_x d_x }
{
    let one = D::from(1.0);
    let rep_inv = one / rep_x;
    let c1 = coefficient_1(rep_x, att_x, d_x);
    let c2 = coefficient(&C_BH[0], rep_inv, d_x);
    let c3 = coefficient(&C_BH[1], rep_inv, d_x);
    -mean_field_constant_x + c * (c1 * rho_x + c2 * rho_x.powi(2)) / (c3 * rho_x + one).powi(2)
}

#[tactic(auto, unfolding(uvtheory::specs::Bh::AttractivePerturbation::activation))]
fn activation<D: DualNum>(c: D, one_fluid_beta: D) -> D
    ensures { result ≡ F.activation D.arithmetic c one_fluid_beta }
{
    one_fluid_beta * c.sqrt() / (one_fluid_beta.powi(2) * c + D::from(1.0)).sqrt()
}

// A coefficient of u_fraction_bh, by its row of CU_BH.
fn coefficient_u<D: DualNum>(c: &[f64; 2], inv_rep: D) -> D
    ensures { result ≡ F.coefficient_u D.arithmetic (doubles c.now) inv_rep }
{
    inv_rep * D::from(c[1]) + D::from(c[0])
}

#[tactic(auto, unfolding(uvtheory::specs::Bh::AttractivePerturbation::u_fraction_bh))]
fn u_fraction_bh<D: DualNum>(rep_x: D, reduced_density: D, one_fluid_beta: D) -> D
    ensures { result ≡ F.u_fraction_bh D.arithmetic rep_x reduced_density one_fluid_beta }
{
    let one = D::from(1.0);
    let inv_rep = one / rep_x;
    let c0 = coefficient_u(&CU_BH[0], inv_rep);
    let c1 = coefficient_u(&CU_BH[1], inv_rep);
    let c2 = coefficient_u(&CU_BH[2], inv_rep);
    let c3 = coefficient_u(&CU_BH[3], inv_rep);
    (activation(c1, one_fluid_beta) * (-c0 + one) + c0)
        * (reduced_density.powf(D::from(1.2187)) * c2
            + reduced_density.powf(D::from(4.2773)) * c3).tanh()
}

// Of the properties of the one fluid; its prefactor is worked once.
#[tactic(auto, unfolding(uvtheory::specs::Bh::AttractivePerturbation::energy))]
pub fn energy<D: DualNum>(o: &OneFluid<D>, t: D, density: D, rho: D, b2bar: D) -> D
    ensures { result ≡ F.energy D.arithmetic o.now t density rho b2bar }
{
    let one = D::from(1.0);
    let t_x = t / o.epsilon_k;
    let rho_x = density * o.sigma.powi(3);
    let c = mie_prefactor(o.rep, o.att);
    let mean_field_constant_x = mean_field_of(c, o.rep, o.att, one);
    let i_bh = correlation_integral_bh(rho_x, mean_field_constant_x, c, o.rep, o.att, o.d);
    let delta_a1u = density / t_x * i_bh * D::from(2.0) * D::from(PI) * o.weighted_sigma3_ij;
    let u_fraction = u_fraction_bh(o.rep, rho, one / t_x);
    let b21u = delta_b12u(t_x, mean_field_constant_x, o.weighted_sigma3_ij);
    density * (delta_a1u + (-u_fraction + one) * (b2bar - b21u) * density)
}

// Of all pairs.
#[tactic(auto, using(uvtheory::proofs::Sizes::parameters_fit))]
fn delta_b2_ij<D: DualNum>(p: &UVTheoryPars<D>, t: D) -> [D; 64]
    ensures { Matrix D.arithmetic p.now.n result (F.delta_b2_ij D.arithmetic (parameters D.arithmetic p.now) t) }
{
    symmetric(
        p.mixture.n,
        |i: usize, j: usize| -> D
            requires { (i < p.now.n) × (j < p.now.n) }
            ensures { result ≡ F.delta_b2_ij D.arithmetic (parameters D.arithmetic p.entry.now) t i j }
        {
            let ij = p.pair(i, j);
            delta_b2(t / ij.epsilon_k, ij.rep, ij.att)
        },
    )
}

#[tactic(auto, using(uvtheory::proofs::Sizes::parameters_fit))]
pub fn helmholtz_energy_density<D: DualNum>(b: &BarkerHenderson<D>) -> D
    ensures { result ≡ F.helmholtz_energy_density D.arithmetic (parameters D.arithmetic b.now.mixture) (state_of D.arithmetic b.now.state) }
{
    let p = b.parameters;
    let s = b.state;
    let n = p.mixture.n;
    let x = &s.molefracs;
    let o = one_fluid_properties(p, x, &b.d);
    let b2 = delta_b2_ij(p, s.temperature);
    let b2bar = virial_sum(n, x, &p.sigma_ij, 3, &b2);
    let density = sum(n, &s.partial_density);
    energy(
        &o,
        s.temperature,
        density,
        density * mean_cube(n, x, &p.sigma),
        b2bar,
    )
}
