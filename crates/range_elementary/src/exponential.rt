// exp, powf and tanh of ranges, by the recipes of document 01.
ghost use Rattle.std.specs.Prelude.{◌≡◌, Float, true, false, cond};
ghost use Rattle.std.specs.Float.Ieee as Ieee;
ghost use Rattle.std.specs.Float.{binary64};
ghost use Rattle.std.specs.Float.Ieee.{lt, eq};
ghost use Rattle.arithmetic.specs.Basic.{floor};
ghost use Rattle.arithmetic.specs.Constants as K;
ghost use Rattle.arithmetic.specs.Recipes as R;
ghost use Rattle.range_elementary.specs.Moderate.{moderate};
ghost use Rattle.range.specs.Rules as Rules;
ghost use Rattle.range.specs.Rules.{rules, ranges};
ghost use Rattle.elementary.specs.Exponents.{Normal};

use crate::logarithm::ln;
use crate::series::horner;
use elementary::exponential::{E, FACTORIALS, G, H, floor, power_of_two};
use operations::next::{next_down, next_up};
use range::basic::{Range, ends, failed};

// x * t, moved outwards where dividing by t does not give x back.
fn scale_end<F: Fn(f64) -> f64>(x: f64, t: f64, outwards: F) -> f64
    requires { F.IsAlwaysCallable outwards }
    ensures { (o : Float → Float) → ((y r : Float) → F.post outwards y r → r ≡ o y)
        → result ≡ cond (eq (Ieee.div binary64 (Ieee.mul binary64 x t) t) x) (Ieee.mul binary64 x t) (o (Ieee.mul binary64 x t)) }
{
    let y = x * t;
    if y / t == x { y } else { outwards(y) }
}

// The range times 2^k, for the exponent of a normal double.
#[tactic(auto, unfolding(range::specs::Rules::scale, range::specs::Rules::kept))]
fn scale(r: Range, k: i64) -> Range
    requires { Normal k }
    ensures { result ≡ rules.scale r k }
{
    if !r.is_ok() {
        return failed();
    }
    let t = power_of_two(k);
    ends(
        scale_end(r.lower, t, |y| next_down(y)),
        scale_end(r.upper, t, |y| next_up(y)),
    )
}

// exp of v, by its k.
#[tactic(auto, unfolding(arithmetic::specs::Recipes::exp_of), using(range::proofs::Constants::whole_is, elementary::proofs::Floor::normal_float))]
fn exp_of(v: Range, k: i64) -> Range
    requires { Normal k }
    ensures { result ≡ R.exp_of rules v k }
{
    let w = Range::from(k as f64);
    let r = v - w * Range::from(H) - w * Range::from(G);
    scale(horner(&FACTORIALS, r), k)
}

// exp of a range from -700 to 700. Both ends of the range of v * E + 0.5 must have the floor k; it holds that number for the lower end, so only that one's k can serve.
fn exp_between(v: Range) -> Range
    ensures { Rules.ok v ≡ true → lt v.lower K.minus_seven_hundred ≡ false → lt K.seven_hundred v.lower ≡ false
        → result ≡ rules.step floor (rules.add (rules.mul v (rules.constant K.E)) (rules.constant K.half)) (λ k. R.exp_of rules v k) }
{
    let place = v * Range::from(E) + Range::from(0.5);
    if !place.is_ok() || v.lower < -700.0 || !(v.lower <= 700.0) {
        return failed();
    }
    let k = floor(v.lower * E + 0.5);
    if place.lower < k as f64 || (k + 1) as f64 <= place.upper {
        return failed();
    }
    exp_of(v, k)
}

// Whether a power of [1, 1] by it is known: it lies between -1000 and 1000, with its ends in order, and does not start at 0.
fn is_moderate(b: Range) -> bool
    ensures { result ≡ moderate b }
{
    b.lower >= -1000.0 && b.lower <= b.upper && b.upper <= 1000.0 && b.lower != 0.0
}

// What a moderate power of [1, 1] is: the doubles before and after 1.
const AROUND_ONE: Range = Range {
    lower: 0.9999999999999999,
    upper: 1.0000000000000002,
};

// e^v. Below -700 it is 0; above 700 there is no rule.
#[tactic(auto, unfolding(arithmetic::specs::Recipes::exp))]
pub fn exp(v: Range) -> Range
    ensures { result ≡ ranges.exp v }
{
    let upper = v.if_above(700.0, failed(), exp_between(v));
    v.if_below(-700.0, Range::ZERO, upper)
}

// v^b, as exp(b * ln v). A base of 0 gives 0 where b is above 0.
// A moderate power of [1, 1] is known, and is not worked: its logarithm has ends on either side of 0, for which no shorter way serves, and subnormal ones.
#[tactic(auto, unfolding(arithmetic::specs::Recipes::powf), using(range::proofs::Constants::zero_constant, crate::proofs::PowerOfOne::tested_power))]
pub fn powf(v: Range, b: Range) -> Range
    ensures { result ≡ ranges.powf v b }
{
    if v == Range::ONE && is_moderate(b) {
        return AROUND_ONE;
    }
    let zero = b.if_above(0.0, Range::ZERO, failed());
    let other = v.if_below(0.0, failed(), zero);
    v.if_above(0.0, exp(b * ln(v)), other)
}

#[tactic(auto, unfolding(arithmetic::specs::Recipes::tanh), using(range::proofs::Constants::one_constant))]
pub fn tanh(v: Range) -> Range
    ensures { result ≡ ranges.tanh v }
{
    let two = Range::from(2.0);
    let inner = Range::ONE - two / (exp(two * v) + Range::ONE);
    let lower = v.if_below(-20.0, Range::from(-1.0), inner);
    v.if_above(20.0, Range::ONE, lower)
}
