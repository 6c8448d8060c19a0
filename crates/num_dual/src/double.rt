// Plain doubles as a number type.
ghost use Rattle.std.specs.Prelude.{◌≡◌, Float, refl};
ghost use Rattle.std.proofs.Common.{lit≤};
ghost use Rattle.arithmetic.specs.Doubles.{guarded};
ghost use Rattle.arithmetic.proofs.Repeated.{empty_sum, longer_sum};
ghost use Rattle.num_dual.specs.Powers.{from_left};

use crate::dual_num::DualNum;
use elementary::exponential::{exp, powf, tanh};
use elementary::logarithm::{ln, ln_1p};
use operations::basic::{div, powi, where_finite};
use operations::root::sqrt;
use std::marker::Model;
use std::ops::{Add, Div, Mul, Neg, Sub};

// A double whose quotient is the guarded one: by an infinity it would be a zero, and what is not finite would be lost. In contracts it is its value.
#[derive(Clone, Copy, Debug, PartialEq)]
pub struct Double {
    value: f64,
}

impl Model for Double {
    ghost Value = { Float };

    ghost view = { λ x. x.value };

    ghost inverse = { λ x. record { value = x } };
}

impl From<f64> for Double {
    ghost from_gives = { λ x r. r ≡ x };

    fn from(x: f64) -> Double {
        Double { value: x }
    }
}

impl From<Double> for f64 {
    ghost from_gives = { λ x r. r ≡ x };

    fn from(x: Double) -> f64 {
        x.value
    }
}

impl Neg for Double {
    type Output = Double;

    ghost neg_gives = { λ a r. r ≡ guarded.neg a };

    fn neg(self) -> Double {
        Double { value: -self.value }
    }
}

impl Add for Double {
    type Output = Double;

    ghost add_gives = { λ a b r. r ≡ guarded.add a b };

    fn add(self, other: Double) -> Double {
        Double {
            value: self.value + other.value,
        }
    }
}

impl Sub for Double {
    type Output = Double;

    ghost sub_gives = { λ a b r. r ≡ guarded.sub a b };

    fn sub(self, other: Double) -> Double {
        Double {
            value: self.value - other.value,
        }
    }
}

impl Mul for Double {
    type Output = Double;

    ghost mul_gives = { λ a b r. r ≡ guarded.mul a b };

    fn mul(self, other: Double) -> Double {
        Double {
            value: self.value * other.value,
        }
    }
}

impl Div for Double {
    type Output = Double;

    ghost div_gives = { λ a b r. r ≡ guarded.div a b };

    fn div(self, other: Double) -> Double {
        Double {
            value: div(self.value, other.value),
        }
    }
}

impl DualNum for Double {
    ghost arithmetic = { guarded };

    fn powi(self, k: u64) -> Double {
        Double {
            value: powi(self.value, k),
        }
    }

    fn sqrt(self) -> Double {
        Double {
            value: sqrt(self.value),
        }
    }

    fn ln(self) -> Double {
        Double {
            value: ln(self.value),
        }
    }

    fn ln_1p(self) -> Double {
        Double {
            value: ln_1p(self.value),
        }
    }

    fn exp(self) -> Double {
        Double {
            value: exp(self.value),
        }
    }

    fn powf(self, b: Double) -> Double {
        Double {
            value: powf(self.value, b.value),
        }
    }

    fn tanh(self) -> Double {
        Double {
            value: tanh(self.value),
        }
    }

    #[tactic(auto, using(arithmetic::proofs::Tests::if_below_is))]
    fn if_below(self, t: f64, a: Double, b: Double) -> Double {
        let x = if self.value < t { a } else { b };
        Double {
            value: where_finite(self.value, x.value),
        }
    }

    ghost small = { lit≤ tt };

    ghost aligned = { lit≤ tt };

    ghost from_is = { λ _ _ e. e };

    ghost neg_total = { λ _. tt };

    ghost neg_is = { λ _ _ e. e };

    ghost add_total = { λ _ _. tt };

    ghost add_is = { λ _ _ _ e. e };

    ghost sub_total = { λ _ _. tt };

    ghost sub_is = { λ _ _ _ e. e };

    ghost mul_total = { λ _ _. tt };

    ghost mul_is = { λ _ _ _ e. e };

    ghost div_total = { λ _ _. tt };

    ghost div_is = { λ _ _ _ e. e };

    ghost powi_is = { from_left guarded (λ _ _ _ _. refl) };

    ghost sum_start = { empty_sum _ _ };

    ghost sum_step = { longer_sum _ _ };
}
