// exp, powf and tanh of values with slopes. exp has a slope of its own; powf and tanh follow their recipes.
ghost use Rattle.std.specs.Prelude.{◌≡◌};
ghost use Rattle.dual.specs.Rules.{guarded_slopes};

use crate::basic::{Dual, failed};
use crate::logarithm::ln;
use operations::basic::where_finite;

// e^v. Below -700 it is a constant: a slope of v that is not finite is kept there.
#[tactic(auto, unfolding(crate::specs::Rules::exp))]
pub fn exp(v: Dual) -> Dual
    ensures { result ≡ guarded_slopes.exp v }
{
    let e = elementary::exponential::exp(v.value);
    if v.value < -700.0 {
        return Dual {
            value: e,
            slope: where_finite(v.slope, 0.0),
        };
    }
    Dual {
        value: e,
        slope: v.slope * e,
    }
}

// v^b, as exp(b * ln v). A base of 0 gives 0 where b is above 0.
#[tactic(auto, using(crate::proofs::Cases::powf_over, crate::proofs::Cases::powf_under, crate::proofs::Cases::powf_zero, crate::proofs::Cases::powf_none, crate::proofs::Constants::zero_constant))]
pub fn powf(v: Dual, b: Dual) -> Dual
    ensures { result ≡ guarded_slopes.powf v b }
{
    if v.value > 0.0 {
        return exp(b * ln(v));
    }
    if v.value < 0.0 {
        return failed();
    }
    if b.value > 0.0 {
        return v.within(b.within(Dual::ZERO));
    }
    failed()
}

#[tactic(auto, using(crate::proofs::Cases::tanh_high, crate::proofs::Cases::tanh_low, crate::proofs::Cases::tanh_middle, crate::proofs::Constants::one_constant))]
pub fn tanh(v: Dual) -> Dual
    ensures { result ≡ guarded_slopes.tanh v }
{
    if v.value > 20.0 {
        return v.within(Dual::ONE);
    }
    if v.value < -20.0 {
        return v.within(Dual::from(-1.0));
    }
    let two = Dual::from(2.0);
    Dual::ONE - two / (exp(two * v) + Dual::ONE)
}
