// The trait of the number types. A type says by its ghost arithmetic what its operators and methods give; the formulas are written over that record.
ghost use Rattle.std.specs.Prelude.{◌≡◌, ◌+◌, ◌^◌, ◌≤◌, ℕ, T, Float};
ghost use Rattle.std.specs.Float.Ieee.Scale.{finite};
ghost use Rattle.std.specs.Align.{type_align};
ghost use Rattle.std.specs.Mem.{type_size};
ghost use Rattle.arithmetic.specs.Arithmetic.{Arithmetic};
ghost use Rattle.arithmetic.specs.Constants.{zero_d};
ghost use Rattle.num_dual.specs.Powers.{PowersFromLeft};

use std::ops::{Add, Div, Mul, Neg, Sub};

pub trait DualNum: Copy
    + From<f64>
    + Neg<Output = Self>
    + Add<Output = Self>
    + Sub<Output = Self>
    + Mul<Output = Self>
    + Div<Output = Self> {
    ghost arithmetic: { Arithmetic Self };

    fn powi(self, k: u64) -> Self
        ensures { result ≡ arithmetic.powi self k };

    fn sqrt(self) -> Self
        ensures { result ≡ arithmetic.sqrt self };

    fn ln(self) -> Self
        ensures { result ≡ arithmetic.ln self };

    fn ln_1p(self) -> Self
        ensures { result ≡ arithmetic.ln1p self };

    fn exp(self) -> Self
        ensures { result ≡ arithmetic.exp self };

    fn powf(self, b: Self) -> Self
        ensures { result ≡ arithmetic.powf self b };

    fn tanh(self) -> Self
        ensures { result ≡ arithmetic.tanh self };

    // a where self is below t, else b.
    fn if_below(self, t: f64, a: Self, b: Self) -> Self
        requires { T (finite t) }
        ensures { result ≡ arithmetic.if_below self t a b };

    // A value takes few bytes, so that the arrays and matrices of the formulas fit in memory.
    ghost small: { type_size Self.row ≤ 2 ^ 32 };

    ghost aligned: { type_align Self.row ≤ 2 ^ 32 };

    // The operators may be used on all values, and give what the arithmetic says.
    ghost from_is: { (x : Float) (r : Self) → Self.from_gives x r → r ≡ arithmetic.constant x };

    ghost neg_total: { (a : Self) → Self.can_neg a };

    ghost neg_is: { (a r : Self) → Self.neg_gives a r → r ≡ arithmetic.neg a };

    ghost add_total: { (a b : Self) → Self.can_add a b };

    ghost add_is: { (a b r : Self) → Self.add_gives a b r → r ≡ arithmetic.add a b };

    ghost sub_total: { (a b : Self) → Self.can_sub a b };

    ghost sub_is: { (a b r : Self) → Self.sub_gives a b r → r ≡ arithmetic.sub a b };

    ghost mul_total: { (a b : Self) → Self.can_mul a b };

    ghost mul_is: { (a b r : Self) → Self.mul_gives a b r → r ≡ arithmetic.mul a b };

    ghost div_total: { (a b : Self) → Self.can_div a b };

    ghost div_is: { (a b r : Self) → Self.div_gives a b r → r ≡ arithmetic.div a b };

    // Powers go from the left, but for squares and fourth powers.
    ghost powi_is: { PowersFromLeft arithmetic };

    // Sums go from the left.
    ghost sum_start: { (f : ℕ → Self) → arithmetic.sum 0 f ≡ arithmetic.constant zero_d };

    ghost sum_step: { (n : ℕ) (f : ℕ → Self) → arithmetic.sum (n + 1) f ≡ arithmetic.add (arithmetic.sum n f) (f n) };
}
