// hard_sphere/mod.rs: the hard-sphere term.
ghost use Rattle.std.specs.Prelude.{◌≡◌};
ghost use Rattle.uvtheory.specs.Rows.{row};
ghost use Rattle.uvtheory.specs.Inputs.{state_of};
ghost use Rattle.uvtheory.specs.HardSphere as F;

use crate::arrays::each;
use crate::components::Components;
use crate::consts::FRAC_PI_6;
use crate::parameters::State;
use num_dual::dual_num::DualNum;

// The zeta of the fractions with the diameters to the k.
#[tactic(auto, unfolding(crate::specs::HardSphere::weighted_zeta))]
pub fn weighted_zeta<D: DualNum>(
    n: Components,
    unit: &[D; 8],
    diameter: &[D; 8],
    weights: &[D; 8],
    k: u64,
) -> D
    ensures { result ≡ F.weighted_zeta D.arithmetic n (row D.arithmetic unit.now) (row D.arithmetic diameter.now) (row D.arithmetic weights.now) k }
{
    let mut zeta = D::from(0.0);
    for i in 0..n.get() {
        zeta = zeta + weights[i] * diameter[i].powi(k) * unit[i];
    }
    zeta
}

// The vector sum.
pub fn sum<D: DualNum>(n: Components, x: &[D; 8]) -> D
    ensures { result ≡ D.arithmetic.sum n (row D.arithmetic x.now) }
{
    let mut sum = D::from(0.0);
    for value in x[..n.get()].iter() {
        sum = sum + *value;
    }
    sum
}

// The term of Boublik and Mansoori et al., by the zeta of the fractions and the density.
#[tactic(auto, unfolding(crate::specs::HardSphere::bmcsl))]
pub fn bmcsl<D: DualNum>(z0: D, z1: D, z2: D, z3: D, density: D) -> D
    ensures { result ≡ F.bmcsl D.arithmetic z0 z1 z2 z3 density }
{
    let zeta_23 = z2 / z3;
    let zeta0 = z0 * density;
    let zeta1 = z1 * density;
    let zeta2 = z2 * density;
    let zeta3 = z3 * density;
    let frac_1mz3 = -(D::from(1.0) / (zeta3 - D::from(1.0)));
    (zeta1 * zeta2 * frac_1mz3 * D::from(3.0)
        + zeta2.powi(2) * frac_1mz3.powi(2) * zeta_23
        + (zeta2 * zeta_23.powi(2) - zeta0) * (-zeta3).ln_1p())
        / D::from(FRAC_PI_6)
}

// By the units, the diameters and the density.
#[tactic(auto, unfolding(crate::specs::HardSphere::helmholtz_energy_density))]
pub fn helmholtz_energy_density<D: DualNum>(
    n: Components,
    unit: &[D; 8],
    diameter: &[D; 8],
    s: &State<D>,
) -> D
    ensures { result ≡ F.helmholtz_energy_density D.arithmetic n (row D.arithmetic unit.now) (row D.arithmetic diameter.now) (state_of D.arithmetic s.now) }
{
    let z0 = weighted_zeta(n, unit, diameter, &s.molefracs, 0);
    let z1 = weighted_zeta(n, unit, diameter, &s.molefracs, 1);
    let z2 = weighted_zeta(n, unit, diameter, &s.molefracs, 2);
    let z3 = weighted_zeta(n, unit, diameter, &s.molefracs, 3);
    bmcsl(z0, z1, z2, z3, sum(n, &s.partial_density))
}

// MonomerShape::Spherical: by the diameters.
pub fn spherical<D: DualNum>(n: Components, diameter: &[D; 8], s: &State<D>) -> D
    ensures { result ≡ F.helmholtz_energy_density D.arithmetic n (F.spherical D.arithmetic) (row D.arithmetic diameter.now) (state_of D.arithmetic s.now) }
{
    let unit = each(
        n,
        |i: usize| -> D
            ensures { result ≡ F.spherical D.arithmetic i }
        { D::from(FRAC_PI_6) },
    );
    helmholtz_energy_density(n, &unit, diameter, s)
}
