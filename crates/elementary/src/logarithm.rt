// ln and ln_1p by the recipes of document 01.
ghost use Rattle.std.specs.Prelude.{◌≡◌, ◌<◌, false, T, neg_ℤ, from_bits};
ghost use Rattle.std.proofs.Math.Option.{some};
ghost use Rattle.std.specs.Float.{fin, binary64};
ghost use Rattle.std.specs.Float.Ieee.{in_float};
ghost use Rattle.arithmetic.specs.Fraction.{◌≼◌, ◌⊗◌};
ghost use Rattle.arithmetic.specs.Value.{value};
ghost use Rattle.arithmetic.specs.Cases.{exponent_of};
ghost use Rattle.arithmetic.specs.Recipes as R;
ghost use Rattle.arithmetic.specs.Doubles.{plain, guarded, scaled};
ghost use Rattle.operations.specs.Patterns.{Positive};

use crate::series::horner;
use operations::basic::{div, is_finite};
use operations::parts::parts;

// ln 2.
pub const L: f64 = 0.6931471805599453;

// 1/(2k+1), k 0 to 12.
pub const ODDS: [f64; 13] = [
    1.0,
    0.3333333333333333,
    0.2,
    0.14285714285714285,
    0.1111111111111111,
    0.09090909090909091,
    0.07692307692307693,
    0.06666666666666667,
    0.058823529411764705,
    0.05263157894736842,
    0.047619047619047616,
    0.043478260869565216,
    0.04,
];

// (2s) * p.
#[tactic(auto, unfolding(arithmetic::specs::Recipes::series))]
fn series(s: f64) -> f64
    ensures { result ≡ R.series plain s }
{
    2.0 * s * horner(&ODDS, s * s)
}

// m * 2^e with 0.75 <= m < 1.5.
#[derive(Clone, Copy, Debug, PartialEq)]
pub struct Reduced {
    pub m: f64,
    pub e: i64,
}

// The m and the e of a positive finite double, by its pattern. Nothing is rounded.
pub fn split(b: u64) -> Reduced
    requires { Positive b }
    ensures { (exponent_of (value (from_bits binary64 b)) ≡ some result.e) × (scaled (from_bits binary64 b) (neg_ℤ result.e) ≡ result.m) × T (in_float binary64 result.e)
        × (value result.m ≼ value (from_bits binary64 b) ⊗ value (fin false 1 (neg_ℤ result.e))) × (value (from_bits binary64 b) ⊗ value (fin false 1 (neg_ℤ result.e)) ≼ value result.m) }
{
    let p = parts(b);
    if p.sig < 0x18_0000_0000_0000 {
        Reduced {
            m: f64::from_bits(p.sig + 0x3fe0_0000_0000_0000),
            e: p.exp as i64 - 1074,
        }
    } else {
        Reduced {
            m: f64::from_bits(p.sig + 0x3fd0_0000_0000_0000),
            e: p.exp as i64 - 1073,
        }
    }
}

// ln of m * 2^e.
#[tactic(auto, unfolding(arithmetic::specs::Recipes::ln_of))]
fn ln_of(m: f64, e: i64) -> f64
    requires { T (in_float binary64 e) }
    ensures { result ≡ R.ln_of plain m e }
{
    series(div(m - 1.0, m + 1.0)) + e as f64 * L
}

// The natural logarithm of v above 0.
pub fn ln(v: f64) -> f64
    ensures { result ≡ guarded.ln v }
{
    if v > 0.0 && is_finite(v) {
        let p = split(f64::to_bits(v));
        return ln_of(p.m, p.e);
    }
    0.0 / 0.0
}

// The natural logarithm of 1 + v, v above -1.
#[tactic(auto, using(crate::proofs::Cases::ln1p_by_cases, crate::proofs::Cases::ln1p_not_finite, arithmetic::proofs::Tests::zero_by_zero))]
pub fn ln_1p(v: f64) -> f64
    ensures { result ≡ guarded.ln1p v }
{
    if is_finite(v) {
        if v < -0.25 {
            if v > -1.0 {
                return ln(1.0 + v);
            }
            return 0.0 / 0.0;
        }
        if v > 0.25 {
            return ln(1.0 + v);
        }
        return series(div(v, 2.0 + v));
    }
    0.0 / 0.0
}
