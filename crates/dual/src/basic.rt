// The struct of a value and its slope, and the rules of negation, sum, difference, product, quotient, power, root and the case at a threshold.
ghost use Rattle.std.specs.Prelude.{◌≡◌, T};
ghost use Rattle.std.specs.Float.Ieee.Scale.{finite};
ghost use Rattle.dual.specs.Rules as Rules;
ghost use Rattle.dual.specs.Rules.{guarded_slopes};

use operations::basic::{div, is_finite, power, where_finite};
use operations::root::sqrt;
use std::ops::{Add, Div, Mul, Neg, Sub};

// A value and its slope along total density.
#[derive(Clone, Copy, Debug, PartialEq)]
pub struct Dual {
    pub value: f64,
    pub slope: f64,
}

// A value without a rule, and its slope.
#[tactic(auto, using(arithmetic::proofs::Tests::zero_by_zero))]
pub fn failed() -> Dual
    ensures { result ≡ Rules.failed }
{
    let nan: f64 = 0.0 / 0.0;
    Dual {
        value: nan,
        slope: nan,
    }
}

impl Dual {
    pub const ZERO: Dual = Dual {
        value: 0.0,
        slope: 0.0,
    };

    pub const ONE: Dual = Dual {
        value: 1.0,
        slope: 0.0,
    };

    // Whether both halves are finite.
    pub fn is_ok(self) -> bool
        ensures { result ≡ Rules.ok self }
    {
        is_finite(self.value) && is_finite(self.slope)
    }

    // self * self * .. from the left, k factors; with none it is 1.
    #[tactic(auto, using(crate::proofs::Constants::one_constant))]
    pub fn powi(self, k: u64) -> Dual
        ensures { result ≡ guarded_slopes.powi self k }
    {
        power(Dual::ONE, self, k)
    }

    #[tactic(auto, unfolding(crate::specs::Rules::sqrt))]
    pub fn sqrt(self) -> Dual
        ensures { result ≡ guarded_slopes.sqrt self }
    {
        let root = sqrt(self.value);
        Dual {
            value: root,
            slope: self.slope / (2.0 * root),
        }
    }

    // x in a case that self has: what is not finite in self is not lost.
    #[tactic(auto, unfolding(crate::specs::Rules::within))]
    pub fn within(self, x: Dual) -> Dual
        ensures { result ≡ Rules.within self x }
    {
        let slope = where_finite(self.slope, x.slope);
        if is_finite(self.value) {
            return Dual {
                value: x.value,
                slope,
            };
        }
        failed()
    }

    // a where the value is below t, else b.
    #[tactic(auto, using(crate::proofs::Cases::below_then, crate::proofs::Cases::below_else))]
    pub fn if_below(self, t: f64, a: Dual, b: Dual) -> Dual
        requires { T (finite t) }
        ensures { result ≡ guarded_slopes.if_below self t a b }
    {
        if self.value < t {
            return self.within(a);
        }
        self.within(b)
    }
}

// A constant: its slope is 0.
impl From<f64> for Dual {
    ghost from_gives = { λ x r. r ≡ guarded_slopes.constant x };

    #[tactic(auto, unfolding(crate::specs::Rules::constant))]
    fn from(x: f64) -> Dual {
        Dual {
            value: x,
            slope: where_finite(x, 0.0),
        }
    }
}

impl Neg for Dual {
    type Output = Dual;

    ghost neg_gives = { λ a r. r ≡ guarded_slopes.neg a };

    #[tactic(auto, unfolding(crate::specs::Rules::neg))]
    fn neg(self) -> Dual {
        Dual {
            value: -self.value,
            slope: -self.slope,
        }
    }
}

impl Add for Dual {
    type Output = Dual;

    ghost add_gives = { λ a b r. r ≡ guarded_slopes.add a b };

    #[tactic(auto, unfolding(crate::specs::Rules::add))]
    fn add(self, other: Dual) -> Dual {
        Dual {
            value: self.value + other.value,
            slope: self.slope + other.slope,
        }
    }
}

impl Sub for Dual {
    type Output = Dual;

    ghost sub_gives = { λ a b r. r ≡ guarded_slopes.sub a b };

    #[tactic(auto, unfolding(crate::specs::Rules::sub))]
    fn sub(self, other: Dual) -> Dual {
        Dual {
            value: self.value - other.value,
            slope: self.slope - other.slope,
        }
    }
}

impl Mul for Dual {
    type Output = Dual;

    ghost mul_gives = { λ a b r. r ≡ guarded_slopes.mul a b };

    #[tactic(auto, unfolding(crate::specs::Rules::mul))]
    fn mul(self, other: Dual) -> Dual {
        Dual {
            value: self.value * other.value,
            slope: self.slope * other.value + self.value * other.slope,
        }
    }
}

impl Div for Dual {
    type Output = Dual;

    ghost div_gives = { λ a b r. r ≡ guarded_slopes.div a b };

    #[tactic(auto, unfolding(crate::specs::Rules::div))]
    fn div(self, other: Dual) -> Dual {
        let over = self.slope * other.value - self.value * other.slope;
        let slope = over / (other.value * other.value);
        Dual {
            value: div(self.value, other.value),
            slope,
        }
    }
}
