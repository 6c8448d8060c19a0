// The struct of two ends, and the rules of negation, sum, difference, product, quotient, power, root and the case at a threshold.
ghost use Rattle.std.specs.Prelude.{◌≡◌, T, cond, Float};
ghost use Rattle.std.specs.Float.Ieee.{lt, le};
ghost use Rattle.std.specs.Float.Ieee.Scale.{finite};
ghost use Rattle.arithmetic.specs.Basic.{above};
ghost use Rattle.arithmetic.specs.Constants.{largest, zero_d};
ghost use Rattle.range.specs.Positive.{positive};
ghost use Rattle.range.specs.Rules as Rules;
ghost use Rattle.range.specs.Rules.{rules, ranges};

use operations::basic::{is_finite, power};
use operations::next::{next_down, next_up};
use operations::root::sqrt;
use std::ops::{Add, Div, Mul, Neg, Sub};

// Two ends. A range whose rule failed has ends that are NaN.
#[derive(Clone, Copy, Debug, PartialEq)]
pub struct Range {
    pub lower: f64,
    pub upper: f64,
}

// The range whose rule failed.
#[tactic(auto, using(arithmetic::proofs::Tests::zero_by_zero))]
pub fn failed() -> Range
    ensures { result ≡ Rules.failed }
{
    let nan: f64 = 0.0 / 0.0;
    Range {
        lower: nan,
        upper: nan,
    }
}

// A zero, of either sign, is +0.
fn plus_zero(x: f64) -> f64
    ensures { result ≡ Rules.plus_zero x }
{
    if x == 0.0 { 0.0 } else { x }
}

// The range of two ends, which must be finite.
#[tactic(auto, unfolding(crate::specs::Rules::ends), using(arithmetic::proofs::Tests::zero_by_zero))]
pub fn ends(l: f64, u: f64) -> Range
    ensures { result ≡ Rules.ends l u }
{
    if !is_finite(l) || !is_finite(u) {
        return failed();
    }
    Range {
        lower: plus_zero(l),
        upper: plus_zero(u),
    }
}

// The largest double.
pub const LARGEST: f64 = 1.7976931348623157e308;

// Each end moved to the next double outwards, for ends above 0, in order and below the largest double: their neighbours are the patterns before and behind.
pub fn neighbours(l: f64, u: f64) -> Range
    requires { T (lt zero_d l) × T (le l u) × T (lt u largest) }
    ensures { result ≡ Rules.outwards l u }
{
    Range {
        lower: f64::from_bits(f64::to_bits(l) - 1),
        upper: f64::from_bits(f64::to_bits(u) + 1),
    }
}

// Each end moved to the next double outwards.
fn outwards(l: f64, u: f64) -> Range
    ensures { result ≡ Rules.outwards l u }
{
    if l > 0.0 && l <= u && u < LARGEST {
        return neighbours(l, u);
    }
    outwards_below(l, u)
}

// The same; for ends below 0 by those of the opposite range.
fn outwards_below(l: f64, u: f64) -> Range
    ensures { result ≡ Rules.outwards l u }
{
    let a = -u;
    let b = -l;
    if a > 0.0 && a <= b && b < LARGEST {
        let n = neighbours(a, b);
        if n.lower > 0.0 {
            return Range {
                lower: -n.upper,
                upper: -n.lower,
            };
        }
    }
    ends(next_down(l), next_up(u))
}

// Both choices are written with <, for which x86 has an instruction (minsd, maxsd).
#[tactic(auto, unfolding(crate::specs::Rules::least))]
fn least(x: f64, y: f64) -> f64
    ensures { result ≡ Rules.least x y }
{
    if y < x { y } else { x }
}

#[tactic(auto, unfolding(crate::specs::Rules::greatest))]
fn greatest(x: f64, y: f64) -> f64
    ensures { result ≡ Rules.greatest x y }
{
    if y < x { x } else { y }
}

#[tactic(auto, unfolding(crate::specs::Rules::magnitude))]
fn magnitude(x: f64) -> f64
    ensures { result ≡ Rules.magnitude x }
{
    if x < 0.0 { -x } else { x }
}

#[tactic(auto, unfolding(crate::specs::Rules::not_below_zero))]
fn not_below_zero(x: f64) -> f64
    ensures { result ≡ Rules.not_below_zero x }
{
    if x < 0.0 { 0.0 } else { x }
}

impl Range {
    pub const ZERO: Range = Range {
        lower: 0.0,
        upper: 0.0,
    };

    pub const ONE: Range = Range {
        lower: 1.0,
        upper: 1.0,
    };

    // Whether both ends are finite.
    pub fn is_ok(self) -> bool
        ensures { result ≡ Rules.ok self }
    {
        is_finite(self.lower) && is_finite(self.upper)
    }

    // Whether its ends are above 0 and in order, as most are.
    pub fn is_positive(self) -> bool
        ensures { result ≡ positive self }
    {
        self.lower > 0.0 && self.lower <= self.upper
    }

    // Whether it does not hold 0.
    fn is_apart(self) -> bool
        ensures { result ≡ Rules.apart self }
    {
        self.lower > 0.0 || self.upper < 0.0
    }

    // The range of the magnitudes; one above 0, as most are, is its own.
    #[tactic(auto, unfolding(crate::specs::Rules::magnitudes), using(crate::proofs::PositiveMagnitudes::own_magnitudes))]
    fn magnitudes(self) -> Range
        ensures { result ≡ Rules.magnitudes self }
    {
        if self.is_positive() && is_finite(self.upper) {
            return self;
        }
        if !self.is_ok() {
            return failed();
        }
        let l = magnitude(self.lower);
        let u = magnitude(self.upper);
        Range {
            lower: if self.is_apart() { least(l, u) } else { 0.0 },
            upper: greatest(l, u),
        }
    }

    // Squares and fourth powers by their own rule; any other power is self * self * .. from the left, k factors; with none it is 1.
    #[tactic(auto, unfolding(crate::specs::Rules::powi, crate::specs::Rules::even_power, arithmetic::specs::Arithmetic::power_by), using(crate::proofs::Constants::one_constant))]
    pub fn powi(self, k: u64) -> Range
        ensures { result ≡ ranges.powi self k }
    {
        if k != 2 && k != 4 {
            return power(Range::ONE, self, k);
        }
        let m = self.magnitudes();
        let square = mul_magnitudes(m, m);
        if k == 2 {
            return square;
        }
        mul_magnitudes(mul_magnitudes(square, m), m)
    }

    #[tactic(auto, unfolding(crate::specs::Rules::sqrt))]
    pub fn sqrt(self) -> Range
        ensures { result ≡ ranges.sqrt self }
    {
        if !self.is_ok() {
            return failed();
        }
        if self == Range::ZERO {
            return Range::ZERO;
        }
        if self.lower < 0.0 {
            return failed();
        }
        outwards(sqrt(self.lower), sqrt(self.upper))
    }

    // a where both ends have a case, b where neither has.
    fn case(self, lower: bool, upper: bool, a: Range, b: Range) -> Range
        ensures { result ≡ cond (Rules.ok self) (Rules.agreed lower upper a b) Rules.failed }
    {
        let x = agreed(lower, upper, a, b);
        if self.is_ok() { x } else { failed() }
    }

    // a where the whole range is below t, b where none of it is.
    #[tactic(auto, using(crate::proofs::Testing::case_below))]
    pub fn if_below(self, t: f64, a: Range, b: Range) -> Range
        requires { T (finite t) }
        ensures { result ≡ ranges.if_below self t a b }
    {
        self.case(self.lower < t, self.upper < t, a, b)
    }

    // a where the whole range is above t, b where none of it is.
    #[tactic(auto, using(crate::proofs::Testing::case_above))]
    pub fn if_above(self, t: f64, a: Range, b: Range) -> Range
        requires { T (finite t) }
        ensures { result ≡ rules.test (above t) self a b }
    {
        self.case(self.lower > t, self.upper > t, a, b)
    }
}

impl From<f64> for Range {
    ghost from_gives = { λ x r. r ≡ ranges.constant x };

    #[tactic(auto, unfolding(crate::specs::Rules::point))]
    fn from(x: f64) -> Range {
        ends(x, x)
    }
}

impl Neg for Range {
    type Output = Range;

    ghost neg_gives = { λ a r. r ≡ ranges.neg a };

    #[tactic(auto, unfolding(crate::specs::Rules::neg))]
    fn neg(self) -> Range {
        ends(-self.upper, -self.lower)
    }
}

// Most sums and products are of ranges above 0. These are worked here, short enough to be inlined; the others are calls.
impl Add for Range {
    type Output = Range;

    ghost add_gives = { λ a b r. r ≡ ranges.add a b };

    fn add(self, other: Range) -> Range {
        let l = self.lower + other.lower;
        let u = self.upper + other.upper;
        if self.lower > 0.0 && other.lower > 0.0 && l <= u && u < LARGEST {
            return neighbours(l, u);
        }
        sum_of(self, other)
    }
}

impl Sub for Range {
    type Output = Range;

    ghost sub_gives = { λ a b r. r ≡ ranges.sub a b };

    fn sub(self, other: Range) -> Range {
        self + -other
    }
}

impl Mul for Range {
    type Output = Range;

    ghost mul_gives = { λ a b r. r ≡ ranges.mul a b };

    fn mul(self, other: Range) -> Range {
        if self.is_positive() && other.is_positive() {
            let l = self.lower * other.lower;
            let u = self.upper * other.upper;
            if l > 0.0 && u < LARGEST {
                return neighbours(l, u);
            }
        }
        product_of(self, other)
    }
}

impl Div for Range {
    type Output = Range;

    ghost div_gives = { λ a b r. r ≡ ranges.div a b };

    #[tactic(auto, unfolding(crate::specs::Rules::div))]
    fn div(self, other: Range) -> Range {
        if !self.is_ok() || !other.is_ok() || !other.is_apart() {
            return failed();
        }
        if self == Range::ZERO {
            return Range::ZERO;
        }
        four(|a, b| a / b, self, other)
    }
}

// The sum of any two ranges.
#[tactic(auto, unfolding(crate::specs::Rules::add))]
pub fn sum_of(r: Range, s: Range) -> Range
    ensures { result ≡ ranges.add r s }
{
    if !r.is_ok() || !s.is_ok() {
        return failed();
    }
    if r == Range::ZERO {
        return s;
    }
    if s == Range::ZERO {
        return r;
    }
    outwards(r.lower + s.lower, r.upper + s.upper)
}

// The product of any two ranges.
#[tactic(auto, unfolding(crate::specs::Rules::mul))]
pub fn product_of(r: Range, s: Range) -> Range
    ensures { result ≡ ranges.mul r s }
{
    if !r.is_ok() || !s.is_ok() {
        return failed();
    }
    if r == Range::ZERO || s == Range::ZERO {
        return Range::ZERO;
    }
    four(|a, b| a * b, r, s)
}

// The product of magnitudes: the lower end from the lower ends and never below 0, the upper from the upper ones.
#[tactic(auto, unfolding(crate::specs::Rules::mul_magnitudes), using(crate::proofs::PositiveMagnitudes::positive_magnitudes))]
fn mul_magnitudes(a: Range, b: Range) -> Range
    ensures { result ≡ Rules.mul_magnitudes a b }
{
    let l = a.lower * b.lower;
    let u = a.upper * b.upper;
    if l > 0.0 && l <= u && u < LARGEST {
        return neighbours(l, u);
    }
    if !a.is_ok() || !b.is_ok() {
        return failed();
    }
    if a == Range::ZERO {
        return Range::ZERO;
    }
    ends(not_below_zero(next_down(l)), next_up(u))
}

// One case for both ends: a where both have it, b where neither has.
fn agreed(i: bool, j: bool, a: Range, b: Range) -> Range
    ensures { result ≡ Rules.agreed i j a b }
{
    if i && j {
        return a;
    }
    if i || j { failed() } else { b }
}

// The least and the greatest of four, moved outwards.
fn outermost(a: f64, b: f64, c: f64, d: f64) -> Range
    ensures { result ≡ Rules.outwards (Rules.least (Rules.least a b) (Rules.least c d)) (Rules.greatest (Rules.greatest a b) (Rules.greatest c d)) }
{
    outwards(
        least(least(a, b), least(c, d)),
        greatest(greatest(a, b), greatest(c, d)),
    )
}

// The range of the four results at ends of r and of s.
#[tactic(auto, unfolding(crate::specs::Rules::four))]
fn four<F: Fn(f64, f64) -> f64>(op: F, r: Range, s: Range) -> Range
    requires { F.IsAlwaysCallable op }
    ensures { (o : Float → Float → Float) → ((a b c : Float) → F.post op a b c → c ≡ o a b) → result ≡ Rules.four o r s }
{
    outermost(
        op(r.lower, s.lower),
        op(r.lower, s.upper),
        op(r.upper, s.lower),
        op(r.upper, s.upper),
    )
}
