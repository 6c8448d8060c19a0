// The test of what is finite, the guarded quotient, and the power by a whole number.
ghost use Rattle.std.specs.Prelude.{◌≡◌};
ghost use Rattle.std.specs.Float.Ieee.Scale.{finite};
ghost use Rattle.arithmetic.specs.Arithmetic.{power_by};
ghost use Rattle.arithmetic.specs.Doubles.{guarded, where_finite};

use std::ops::Mul;

// Whether x is neither NaN nor an infinity.
pub fn is_finite(x: f64) -> bool
    ensures { result ≡ finite x }
{
    x - x == 0.0
}

// y where x is finite.
#[tactic(auto, using(arithmetic::proofs::Tests::zero_by_zero))]
pub fn where_finite(x: f64, y: f64) -> f64
    ensures { result ≡ where_finite x y }
{
    if is_finite(x) { y } else { 0.0 / 0.0 }
}

// a / b. By an infinity it would be a zero, and what is not finite would be lost.
#[tactic(auto, unfolding(arithmetic::specs::Doubles::quotient))]
pub fn div(a: f64, b: f64) -> f64
    ensures { result ≡ guarded.div a b }
{
    where_finite(b, a / b)
}

// v * v * .. from the left, k factors; with none it is one. Where a product is `times`, it is the power of document 01.
#[tactic(auto, unfolding(arithmetic::specs::Arithmetic::power_by), using(arithmetic::proofs::Repeated::longer_power))]
pub fn power<V: Copy + Mul<Output = V>>(one: V, v: V, k: u64) -> V
    requires { (a b : V) → V.can_mul a b }
    ensures { (times : V → V → V) → ((a b r : V) → V.mul_gives a b r → r ≡ times a b) → result ≡ power_by one times v k }
{
    if k == 0 {
        return one;
    }
    let mut r = v;
    for i in 1..k {
        r = r * v;
    }
    r
}

// The power of a double; with no factor it is 1.
pub fn powi(v: f64, k: u64) -> f64
    ensures { result ≡ guarded.powi v k }
{
    power(1.0, v, k)
}
