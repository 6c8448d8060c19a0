// Ranges and values with slopes as number types.
ghost use Rattle.std.specs.Prelude.{refl};
ghost use Rattle.std.proofs.Common.{lit≤};
ghost use Rattle.arithmetic.proofs.Repeated.{empty_sum, longer_sum};
ghost use Rattle.num_dual.specs.Powers.{from_left};
ghost use Rattle.range.specs.Rules.{ranges};
ghost use Rattle.range.proofs.EvenPowers.{other_powers};
ghost use Rattle.dual.specs.Rules.{guarded_slopes};

use crate::dual_num::DualNum;
use dual::basic::Dual;
use range::basic::Range;

impl DualNum for Range {
    ghost arithmetic = { ranges };

    fn powi(self, k: u64) -> Range {
        self.powi(k)
    }

    fn sqrt(self) -> Range {
        self.sqrt()
    }

    fn ln(self) -> Range {
        range_elementary::logarithm::ln(self)
    }

    fn ln_1p(self) -> Range {
        range_elementary::logarithm::ln_1p(self)
    }

    fn exp(self) -> Range {
        range_elementary::exponential::exp(self)
    }

    fn powf(self, b: Range) -> Range {
        range_elementary::exponential::powf(self, b)
    }

    fn tanh(self) -> Range {
        range_elementary::exponential::tanh(self)
    }

    fn if_below(self, t: f64, a: Range, b: Range) -> Range {
        self.if_below(t, a, b)
    }

    ghost small = { lit≤ tt };

    ghost aligned = { lit≤ tt };

    ghost from_is = { λ _ _ e. e };

    ghost neg_total = { λ _. tt };

    ghost neg_is = { λ _ _ e. e };

    ghost add_total = { λ _ _. tt };

    ghost add_is = { λ _ _ _ e. e };

    ghost sub_total = { λ _ _. tt };

    ghost sub_is = { λ _ _ _ e. e };

    ghost mul_total = { λ _ _. tt };

    ghost mul_is = { λ _ _ _ e. e };

    ghost div_total = { λ _ _. tt };

    ghost div_is = { λ _ _ _ e. e };

    ghost powi_is = { from_left ranges other_powers };

    ghost sum_start = { empty_sum _ _ };

    ghost sum_step = { longer_sum _ _ };
}

impl DualNum for Dual {
    ghost arithmetic = { guarded_slopes };

    fn powi(self, k: u64) -> Dual {
        self.powi(k)
    }

    fn sqrt(self) -> Dual {
        self.sqrt()
    }

    fn ln(self) -> Dual {
        dual::logarithm::ln(self)
    }

    fn ln_1p(self) -> Dual {
        dual::logarithm::ln_1p(self)
    }

    fn exp(self) -> Dual {
        dual::exponential::exp(self)
    }

    fn powf(self, b: Dual) -> Dual {
        dual::exponential::powf(self, b)
    }

    fn tanh(self) -> Dual {
        dual::exponential::tanh(self)
    }

    fn if_below(self, t: f64, a: Dual, b: Dual) -> Dual {
        self.if_below(t, a, b)
    }

    ghost small = { lit≤ tt };

    ghost aligned = { lit≤ tt };

    ghost from_is = { λ _ _ e. e };

    ghost neg_total = { λ _. tt };

    ghost neg_is = { λ _ _ e. e };

    ghost add_total = { λ _ _. tt };

    ghost add_is = { λ _ _ _ e. e };

    ghost sub_total = { λ _ _. tt };

    ghost sub_is = { λ _ _ _ e. e };

    ghost mul_total = { λ _ _. tt };

    ghost mul_is = { λ _ _ _ e. e };

    ghost div_total = { λ _ _. tt };

    ghost div_is = { λ _ _ _ e. e };

    ghost powi_is = { from_left guarded_slopes (λ _ _ _ _. refl) };

    ghost sum_start = { empty_sum _ _ };

    ghost sum_step = { longer_sum _ _ };
}
