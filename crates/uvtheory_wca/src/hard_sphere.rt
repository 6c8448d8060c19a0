// uvtheory/eos/wca/hard_sphere.rs: diameters and lengths by Weeks, Chandler and Andersen.
ghost use Rattle.std.specs.Prelude.{◌≡◌, ◌<◌, ◌≤◌};
ghost use Rattle.uvtheory.specs.Inputs.{parameters};
ghost use Rattle.uvtheory.specs.Rows.{doubles, row, matrix, Row, Matrix};
ghost use Rattle.uvtheory.specs.Wca.HardSphere as F;
ghost use Rattle.uvtheory_wca.specs.Lengths.{Minima, MinimaOfPairs};

use num_dual::dual_num::DualNum;
use uvtheory::arrays::{each, matrix, symmetric};
use uvtheory::components::Components;
use uvtheory::consts::PI;
use uvtheory::packing_fraction::PackingConstants;
use uvtheory::parameters::UVTheoryPars;

pub const WCA_CONSTANTS_Q: [[f64; 4]; 3] = [
    [1.92840364363978, 4.43165896265079E-01, 0.0, 0.0],
    [
        5.20120816141761E-01,
        1.82526759234412E-01,
        1.10319989659929E-02,
        -7.97813995328348E-05,
    ],
    [
        0.0,
        1.29885156087242E-02,
        6.41039871789327E-03,
        1.85866741090323E-05,
    ],
];

pub const WCA_CONSTANTS_ETA_A: [[f64; 4]; 4] = [
    [-0.888512176, 0.265207151, -0.851803291, -1.380304110],
    [-0.395548410, -0.626398537, -1.484059291, -3.041216688],
    [-2.905719617, -1.778798984, -1.556827067, -4.308085347],
    [0.429154871, 20.765871545, 9.341250676, -33.787719418],
];

pub const WCA_CONSTANTS_ETA_B: [[f64; 2]; 3] = [
    [-0.883143456, -0.618156214],
    [-0.589914255, -3.015264636],
    [-2.152046477, 4.7038689542],
];

// New fit to numerical integrals for uv-B3-theory
pub const WCA_CONSTANTS_ETA_A_UVB3: [[f64; 4]; 4] = [
    [2.64043218, -1.2184421, -22.90786387, 0.96433414],
    [-16.75643936, 30.83929771, 73.08711814, -166.57701616],
    [19.53170162, -88.87955657, -76.51387192, 443.68942745],
    [-3.77740877, 83.04694547, 21.62502721, -304.8643176],
];

pub const WCA_CONSTANTS_ETA_B_UVB3: [[f64; 2]; 3] = [
    [2.19821588, -20.45005484],
    [-13.47050687, 56.65701375],
    [12.90119266, -42.71680606],
];

pub const WCA_PACKING: PackingConstants = PackingConstants {
    eta_a: WCA_CONSTANTS_ETA_A,
    eta_b: WCA_CONSTANTS_ETA_B,
};

pub const WCA_PACKING_UVB3: PackingConstants = PackingConstants {
    eta_a: WCA_CONSTANTS_ETA_A_UVB3,
    eta_b: WCA_CONSTANTS_ETA_B_UVB3,
};

// The place of the potential's minimum.
#[tactic(auto, unfolding(uvtheory::specs::Wca::HardSphere::rm_of))]
pub fn rm_of<D: DualNum>(rep: D, att: D) -> D
    ensures { result ≡ F.rm_of D.arithmetic rep att }
{
    (rep / att).powf(D::from(1.0) / (rep - att))
}

// The diameter of a component, by its reduced temperature t.
#[tactic(auto, unfolding(uvtheory::specs::Wca::HardSphere::diameter_of))]
pub fn diameter_of<D: DualNum>(t: D, rep: D, rm: D, sigma: D) -> D
    ensures { result ≡ F.diameter_of D.arithmetic t rep rm sigma }
{
    let one = D::from(1.0);
    let two = D::from(2.0);
    let c = (rep / D::from(6.0)).powf(-rep / (D::from(12.0) - two * rep)) - one;
    one / (t.sqrt() * c + one).powf(two / rep) * rm * sigma
}

// A coefficient by its row of WCA_CONSTANTS_Q.
#[tactic(auto, unfolding(uvtheory::specs::Wca::HardSphere::coefficient_q))]
pub fn coefficient_q<D: DualNum>(c: &[f64; 4], nu: D) -> D
    ensures { result ≡ F.coefficient_q D.arithmetic (doubles c.now) nu }
{
    let s = nu - D::from(7.0);
    s * D::from(c[1]) + s.powi(2) * D::from(c[2]) + s.powi(3) * D::from(c[3]) + D::from(c[0])
}

// What the power of dimensionless_diameter_q_wca is taken of.
#[tactic(auto, unfolding(uvtheory::specs::Wca::HardSphere::polynomial_q))]
fn polynomial_q<D: DualNum>(t_x: D, nu: D, n: D) -> D
    ensures { result ≡ F.polynomial_q D.arithmetic t_x nu n }
{
    let one = D::from(1.0);
    let two = D::from(2.0);
    let c = &WCA_CONSTANTS_Q;
    t_x.powf(two) * coefficient_q(&c[2], nu)
        + t_x.powf(D::from(3.0) / two) * coefficient_q(&c[1], nu)
        + t_x * ((nu - D::from(7.0)) * D::from(c[0][1]) + D::from(c[0][0]))
        + t_x.powf(one / two) * (nu * two * D::from(PI) / n).sqrt()
        + one
}

// By the place rs of the minimum of nu and n.
#[tactic(auto, unfolding(uvtheory::specs::Wca::HardSphere::q_of))]
pub fn q_of<D: DualNum>(t_x: D, nu: D, n: D, rs: D) -> D
    ensures { result ≡ F.q_of D.arithmetic t_x nu n rs }
{
    polynomial_q(t_x, nu, n).powf(-(D::from(1.0) / (nu * D::from(2.0)))) * rs
}

// The places of the minima of the components.
#[tactic(auto, using(uvtheory::proofs::Sizes::parameters_fit))]
pub fn minima<D: DualNum>(p: &UVTheoryPars<D>) -> [D; 8]
    ensures { Minima D.arithmetic (parameters D.arithmetic p.now) result }
{
    each(
        p.mixture.n,
        |i: usize| -> D
            requires { i < p.now.n }
            ensures { result ≡ F.rm_of D.arithmetic ((parameters D.arithmetic p.entry.now).rep i) ((parameters D.arithmetic p.entry.now).att i) }
        {
            let c = p.pure(i);
            rm_of(c.rep, c.att)
        },
    )
}

// The diameters, by these.
#[tactic(auto, using(uvtheory::proofs::Sizes::parameters_fit))]
pub fn diameter_wca<D: DualNum>(p: &UVTheoryPars<D>, temperature: D, rm: &[D; 8]) -> [D; 8]
    requires { Minima D.arithmetic (parameters D.arithmetic p.now) rm.now }
    ensures { Row D.arithmetic p.now.n result (F.diameter_wca D.arithmetic (parameters D.arithmetic p.now) temperature) }
{
    each(
        p.mixture.n,
        |i: usize| -> D
            requires { (i < p.now.n) × (i < 8) }
            ensures { result ≡ F.diameter_of D.arithmetic (D.arithmetic.div temperature ((parameters D.arithmetic p.entry.now).epsilon_k i)) ((parameters D.arithmetic p.entry.now).rep i) (row D.arithmetic rm.entry.now i) ((parameters D.arithmetic p.entry.now).sigma i) }
        {
            let c = p.pure(i);
            diameter_of(temperature / c.epsilon_k, c.rep, rm[i], c.sigma)
        },
    )
}

// The lengths, by both.
#[tactic(auto, using(uvtheory::proofs::Sizes::parameters_fit))]
pub fn dimensionless_length_scale<D: DualNum>(
    p: &UVTheoryPars<D>,
    temperature: D,
    rm: &[D; 8],
    d: &[D; 8],
) -> [D; 8]
    requires minima { Minima D.arithmetic (parameters D.arithmetic p.now) rm.now }
    requires diameters { Row D.arithmetic p.now.n d.now (F.diameter_wca D.arithmetic (parameters D.arithmetic p.now) temperature) }
    ensures { Row D.arithmetic p.now.n result (F.dimensionless_length_scale D.arithmetic (parameters D.arithmetic p.now) temperature) }
{
    each(
        p.mixture.n,
        |i: usize| -> D
            requires { (i < p.now.n) × (i < 8) }
            ensures { result ≡ D.arithmetic.add (D.arithmetic.neg (row D.arithmetic d.entry.now i)) (D.arithmetic.mul (row D.arithmetic rm.entry.now i) ((parameters D.arithmetic p.entry.now).sigma i)) }
        { -d[i] + rm[i] * p.pure(i).sigma },
    )
}

// The places of the minima of the pairs.
#[tactic(auto, using(uvtheory::proofs::Sizes::parameters_fit))]
pub fn minima_ij<D: DualNum>(p: &UVTheoryPars<D>) -> [D; 64]
    ensures { MinimaOfPairs D.arithmetic (parameters D.arithmetic p.now) result }
{
    symmetric(
        p.mixture.n,
        |i: usize, j: usize| -> D
            requires { (i < p.now.n) × (j < p.now.n) }
            ensures { result ≡ F.rm_of D.arithmetic ((parameters D.arithmetic p.entry.now).rep_ij i j) ((parameters D.arithmetic p.entry.now).att_ij i j) }
        {
            let ij = p.pair(i, j);
            rm_of(ij.rep, ij.att)
        },
    )
}

// The q of the pairs, by these.
#[tactic(auto, using(uvtheory::proofs::Sizes::parameters_fit))]
pub fn diameter_q_ij<D: DualNum>(p: &UVTheoryPars<D>, t: D, rm_ij: &[D; 64]) -> [D; 64]
    requires { MinimaOfPairs D.arithmetic (parameters D.arithmetic p.now) rm_ij.now }
    ensures { Matrix D.arithmetic p.now.n result (λ i j. F.dimensionless_diameter_q_wca D.arithmetic (D.arithmetic.div t ((parameters D.arithmetic p.now).eps_k_ij i j)) ((parameters D.arithmetic p.now).rep_ij i j) ((parameters D.arithmetic p.now).att_ij i j)) }
{
    let n = p.mixture.n;
    symmetric(
        n,
        |i: usize, j: usize| -> D
            requires { (n ≡ p.now.n) × (i < n) × (j < n) }
            ensures { result ≡ F.q_of D.arithmetic (D.arithmetic.div t ((parameters D.arithmetic p.entry.now).eps_k_ij i j)) ((parameters D.arithmetic p.entry.now).rep_ij i j) ((parameters D.arithmetic p.entry.now).att_ij i j) (matrix D.arithmetic n rm_ij.entry.now i j) }
        {
            let ij = p.pair(i, j);
            q_of(t / ij.epsilon_k, ij.rep, ij.att, rm_ij[n.row_by_row(i, j)])
        },
    )
}

// The places of the minima and the q of pairs.
#[derive(Clone, Copy)]
pub struct LengthTables<D> {
    pub rm: [D; 64],
    pub q: [D; 64],
}

// Both of all pairs, by any matrices of n rows, symmetric or not.
pub fn pair_lengths<D: DualNum>(
    n: Components,
    rep_ij: &[D; 64],
    att_ij: &[D; 64],
    eps_k_ij: &[D; 64],
    t: D,
) -> LengthTables<D>
    ensures minima { Matrix D.arithmetic n result.rm (λ i j. F.rm_of D.arithmetic (matrix D.arithmetic n rep_ij.now i j) (matrix D.arithmetic n att_ij.now i j)) }
    ensures diameters { Matrix D.arithmetic n result.q (λ i j. F.dimensionless_diameter_q_wca D.arithmetic (D.arithmetic.div t (matrix D.arithmetic n eps_k_ij.now i j)) (matrix D.arithmetic n rep_ij.now i j) (matrix D.arithmetic n att_ij.now i j)) }
{
    let rm = matrix(
        n,
        |i: usize, j: usize| -> D
            requires { (i < n) × (j < n) × (n ≤ 8) }
            ensures { result ≡ F.rm_of D.arithmetic (matrix D.arithmetic n rep_ij.entry.now i j) (matrix D.arithmetic n att_ij.entry.now i j) }
        {
            let k = n.row_by_row(i, j);
            rm_of(rep_ij[k], att_ij[k])
        },
    );
    let q = matrix(
        n,
        |i: usize, j: usize| -> D
            requires { (i < n) × (j < n) × (n ≤ 8) }
            ensures { result ≡ F.dimensionless_diameter_q_wca D.arithmetic (D.arithmetic.div t (matrix D.arithmetic n eps_k_ij.entry.now i j)) (matrix D.arithmetic n rep_ij.entry.now i j) (matrix D.arithmetic n att_ij.entry.now i j) }
        {
            let k = n.row_by_row(i, j);
            q_of(
                t / eps_k_ij[k],
                rep_ij[k],
                att_ij[k],
                rm_of(rep_ij[k], att_ij[k]),
            )
        },
    );
    LengthTables { rm, q }
}

// The dimensionless tau of a pair.
#[tactic(auto, unfolding(uvtheory::specs::Wca::HardSphere::tau))]
pub fn tau<D: DualNum>(li: D, lj: D, sigma_ij: D) -> D
    ensures { result ≡ F.tau D.arithmetic li lj sigma_ij }
{
    (li + lj) / sigma_ij * D::from(0.5)
}
