// exp, powf and tanh by the recipes of document 01.
ghost use Rattle.std.specs.Prelude.{◌≡◌, false, T, pos, negsuc};
ghost use Rattle.std.specs.Float.{fin};
ghost use Rattle.std.specs.Float.Ieee.Scale.{finite};
ghost use Rattle.arithmetic.specs.Fraction.{◌≼◌, ◌≺◌, whole};
ghost use Rattle.arithmetic.specs.Value.{value};
ghost use Rattle.arithmetic.specs.Cases.{floor_of};
ghost use Rattle.arithmetic.specs.Recipes as R;
ghost use Rattle.arithmetic.specs.Doubles.{plain, guarded};
ghost use Rattle.elementary.specs.Exponents.{Normal};

use crate::logarithm::ln;
use crate::series::horner;
use operations::basic::{div, is_finite, where_finite};

// log2 e, and ln 2 in two parts.
pub const E: f64 = 1.4426950408889634;

pub const H: f64 = 6.93147180369123816490e-01;

pub const G: f64 = 1.90821492927058770002e-10;

// 1/j!, j 0 to 13.
pub const FACTORIALS: [f64; 14] = [
    1.0,
    1.0,
    0.5,
    0.16666666666666666,
    0.041666666666666664,
    0.008333333333333333,
    0.001388888888888889,
    0.0001984126984126984,
    2.48015873015873e-05,
    2.7557319223985893e-06,
    2.755731922398589e-07,
    2.505210838544172e-08,
    2.08767569878681e-09,
    1.6059043836821613e-10,
];

// The greatest whole number that is not above x, for an x whose floor is the exponent of a normal double.
pub fn floor(x: f64) -> i64
    requires { T (finite x) × (whole (negsuc 1021) ≼ value x) × (value x ≺ whole (pos 1024)) }
    ensures { result ≡ floor_of (value x) }
{
    let t = std::num::truncating_f64_to_i64(x);
    if x < t as f64 { t - 1 } else { t }
}

// 2^k, for the exponent of a normal double.
pub fn power_of_two(k: i64) -> f64
    requires { Normal k }
    ensures { result ≡ fin false 1 k }
{
    f64::from_bits((k + 1023) as u64 * 0x10_0000_0000_0000)
}

// The sum of r^j/j!, j 0 to 13.
fn polynomial(r: f64) -> f64
    ensures { result ≡ R.exp_polynomial plain r }
{
    horner(&FACTORIALS, r)
}

// exp of v, by its k.
fn exp_of(v: f64, k: i64) -> f64
    requires { Normal k }
    ensures { result ≡ R.exp_of plain v k }
{
    let w = k as f64;
    polynomial(v - w * H - w * G) * power_of_two(k)
}

// e^v. Below -700 it is 0; above 700 there is no rule.
pub fn exp(v: f64) -> f64
    ensures { result ≡ guarded.exp v }
{
    if v < -700.0 {
        return where_finite(v, 0.0);
    }
    if v <= 700.0 {
        return exp_of(v, floor(v * E + 0.5));
    }
    0.0 / 0.0
}

// v^b, as exp(b * ln v). A base of 0 gives 0 where b is above 0; for any other base that is not above 0 there is no rule.
pub fn powf(v: f64, b: f64) -> f64
    ensures { result ≡ guarded.powf v b }
{
    if v > 0.0 {
        return exp(b * ln(v));
    }
    if v < 0.0 {
        return 0.0 / 0.0;
    }
    if is_finite(v) && b > 0.0 && is_finite(b) {
        return 0.0;
    }
    0.0 / 0.0
}

#[tactic(auto, using(crate::proofs::Cases::tanh_by_cases, crate::proofs::Cases::tanh_not_finite, arithmetic::proofs::Tests::zero_by_zero))]
pub fn tanh(v: f64) -> f64
    ensures { result ≡ guarded.tanh v }
{
    if is_finite(v) {
        if v > 20.0 {
            return 1.0;
        }
        if v < -20.0 {
            return -1.0;
        }
        return 1.0 - div(2.0, exp(2.0 * v) + 1.0);
    }
    0.0 / 0.0
}
