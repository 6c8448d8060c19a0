// ln and ln_1p of values with slopes. The recipe is worked for the value; the slope has a rule of its own.
ghost use Rattle.std.specs.Prelude.{◌≡◌};
ghost use Rattle.dual.specs.Rules.{guarded_slopes};

use crate::basic::Dual;

#[tactic(auto, unfolding(crate::specs::Rules::ln))]
pub fn ln(v: Dual) -> Dual
    ensures { result ≡ guarded_slopes.ln v }
{
    let slope = v.slope / v.value;
    Dual {
        value: elementary::logarithm::ln(v.value),
        slope,
    }
}

// The natural logarithm of 1 + v.
#[tactic(auto, unfolding(crate::specs::Rules::ln1p))]
pub fn ln_1p(v: Dual) -> Dual
    ensures { result ≡ guarded_slopes.ln1p v }
{
    let slope = v.slope / (1.0 + v.value);
    Dual {
        value: elementary::logarithm::ln_1p(v.value),
        slope,
    }
}
