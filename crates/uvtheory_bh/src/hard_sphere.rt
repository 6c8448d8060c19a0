// uvtheory/eos/bh/hard_sphere.rs: diameters by Barker-Henderson, and the tau of its packing fractions.
ghost use Rattle.std.specs.Prelude.{◌≡◌, ◌<◌};
ghost use Rattle.uvtheory.specs.Literals as N;
ghost use Rattle.uvtheory.specs.Parameters as P;
ghost use Rattle.uvtheory.specs.Rows.{Row};
ghost use Rattle.uvtheory.specs.Inputs.{parameters};
ghost use Rattle.uvtheory.specs.Bh.HardSphere as F;

use num_dual::dual_num::DualNum;
use uvtheory::arrays::each;
use uvtheory::parameters::{UVTheoryPars, bh_coefficients, inv_a76};

pub const BH_CONSTANTS_ETA_B: [[f64; 2]; 3] = [
    [-0.960919783, -0.921097447],
    [-0.547468020, -3.508014069],
    [-2.253750186, 3.581161364],
];

pub const BH_CONSTANTS_ETA_A: [[f64; 4]; 4] = [
    [-1.217417282, 6.754987582, -0.5919326153, -28.99719604],
    [1.579548775, -26.93879416, 0.3998915410, 106.9446266],
    [-1.993990512, 44.11863355, -40.10916106, -29.6130848],
    [0.0, 0.0, 0.0, 0.0],
];

// Of a component, by its reduced temperature t and the reciprocal that all have.
#[tactic(auto, unfolding(uvtheory::specs::Bh::HardSphere::quarter_powers, uvtheory::specs::Bh::HardSphere::diameter_by))]
fn diameter_of<D: DualNum>(t: D, rep: D, sigma: D, inv_a76: D) -> D
    requires { inv_a76 ≡ P.inv_a76 D.arithmetic (D.arithmetic.constant N.six) }
    ensures { result ≡ F.diameter_of D.arithmetic t (P.bh_coefficients D.arithmetic rep (D.arithmetic.constant N.six) 0) (P.bh_coefficients D.arithmetic rep (D.arithmetic.constant N.six) 1)
        (P.bh_coefficients D.arithmetic rep (D.arithmetic.constant N.six) 2) (P.bh_coefficients D.arithmetic rep (D.arithmetic.constant N.six) 3) (P.bh_coefficients D.arithmetic rep (D.arithmetic.constant N.six) 4) rep sigma }
{
    let c = bh_coefficients(rep, inv_a76);
    let d = t.powf(D::from(0.25)) * c[1]
        + t.powf(D::from(0.75)) * c[2]
        + t.powf(D::from(1.25)) * c[3];
    (t * c[0] + d * (t + D::from(1.0)).ln() + t.powi(2) * c[4] + D::from(1.0)).powf(
        D::from(-0.5) / rep,
    ) * sigma
}

#[tactic(auto, using(uvtheory::proofs::Sizes::parameters_fit))]
pub fn diameter_bh<D: DualNum>(p: &UVTheoryPars<D>, temperature: D) -> [D; 8]
    ensures { Row D.arithmetic p.now.n result (F.diameter_bh D.arithmetic (parameters D.arithmetic p.now) temperature) }
{
    let a76 = inv_a76();
    each(
        p.mixture.n,
        |i: usize| -> D
            requires { (i < p.now.n) × (a76 ≡ P.inv_a76 D.arithmetic (D.arithmetic.constant N.six)) }
            ensures { result ≡ F.diameter_bh D.arithmetic (parameters D.arithmetic p.entry.now) temperature i }
        {
            let c = p.pure(i);
            diameter_of(temperature / c.epsilon_k, c.rep, c.sigma, a76)
        },
    )
}

// The dimensionless tau of a pair.
#[tactic(auto, unfolding(uvtheory::specs::Bh::HardSphere::tau))]
pub fn tau<D: DualNum>(di: D, si: D, dj: D, sj: D) -> D
    ensures { result ≡ F.tau D.arithmetic di si dj sj }
{
    -(di / si + dj / sj) * D::from(0.5) + D::from(1.0)
}
