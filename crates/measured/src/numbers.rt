// Every operation of a number type, by number.
ghost use Rattle.std.specs.Prelude.{◌≡◌, []};
ghost use Rattle.std.specs.Float.{nan};
ghost use Rattle.measured.specs.Applied.{applied};

use num_dual::dual_num::DualNum;
use operations::basic::is_finite;

// What has no rule.
#[tactic(auto, using(arithmetic::proofs::Tests::zero_by_zero))]
fn failed<D: DualNum>() -> D
    ensures { result ≡ D.arithmetic.constant nan }
{
    D::from(0.0 / 0.0)
}

// The operation that op numbers, of a, and of b where it takes two. The exponent of powi is k; t is the limit of the last.
#[tactic(auto, unfolding(crate::specs::Applied::applied))]
pub fn apply<D: DualNum>(op: u64, k: u64, t: f64, a: D, b: D) -> D
    ensures { result ≡ applied D.arithmetic (D.arithmetic.constant nan) op k t a b [] }
{
    match op {
        0 => -a,
        1 => a + b,
        2 => a - b,
        3 => a * b,
        4 => a / b,
        5 => a.powi(k),
        6 => a.sqrt(),
        7 => a.ln(),
        8 => a.ln_1p(),
        9 => a.exp(),
        10 => a.powf(b),
        11 => a.tanh(),
        12 if is_finite(t) => a.if_below(t, a, b),
        _ => failed(),
    }
}
