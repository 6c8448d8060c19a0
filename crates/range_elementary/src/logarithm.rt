// ln and ln_1p of ranges, by the recipes of document 01.
ghost use Rattle.std.specs.Prelude.{◌≡◌, T};
ghost use Rattle.std.specs.Float.{binary64};
ghost use Rattle.std.specs.Float.Ieee.{in_float};
ghost use Rattle.arithmetic.specs.Recipes as R;
ghost use Rattle.range.specs.Rules.{rules, ranges};

use crate::series::horner;
use elementary::logarithm::{L, ODDS, split};
use range::basic::{Range, failed};

// (2s) * p.
#[tactic(auto, unfolding(arithmetic::specs::Recipes::series))]
fn series(s: Range) -> Range
    ensures { result ≡ R.series rules s }
{
    Range::from(2.0) * s * horner(&ODDS, s * s)
}

// ln of m * 2^e.
#[tactic(auto, unfolding(arithmetic::specs::Recipes::ln_of), using(range::proofs::Constants::one_constant, range::proofs::Constants::whole_is))]
fn ln_of(m: Range, e: i64) -> Range
    requires { T (in_float binary64 e) }
    ensures { result ≡ R.ln_of rules m e }
{
    let s = (m - Range::ONE) / (m + Range::ONE);
    series(s) + Range::from(e as f64) * Range::from(L)
}

// The natural logarithm of a range above 0, both of whose ends have one e.
#[tactic(auto, unfolding(arithmetic::specs::Recipes::ln))]
pub fn ln(v: Range) -> Range
    ensures { result ≡ ranges.ln v }
{
    if !v.is_ok() || v.lower <= 0.0 || v.upper <= 0.0 {
        return failed();
    }
    let a = split(f64::to_bits(v.lower));
    let b = split(f64::to_bits(v.upper));
    if a.e != b.e {
        return failed();
    }
    let m = Range {
        lower: a.m,
        upper: b.m,
    };
    ln_of(m, a.e)
}

// The natural logarithm of 1 + v.
#[tactic(auto, unfolding(arithmetic::specs::Recipes::ln1p), using(range::proofs::Constants::one_constant))]
pub fn ln_1p(v: Range) -> Range
    ensures { result ≡ ranges.ln1p v }
{
    let far = ln(Range::ONE + v);
    let near = series(v / (Range::from(2.0) + v));
    let below = v.if_above(-1.0, far, failed());
    let within = v.if_above(0.25, far, near);
    v.if_below(-0.25, below, within)
}
