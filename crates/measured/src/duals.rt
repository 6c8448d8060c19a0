// Every operation of values with slopes under two C names, one for each half of the result, for the comparison with an independent implementation of the rules (measure/duals.py).
ghost use Rattle.std.specs.Prelude.{◌≡◌};
ghost use Rattle.dual.specs.Rules as Rules;
ghost use Rattle.measured.specs.Applied.{of_duals};

use crate::numbers::apply;
use dual::basic::Dual;

// The operation that op numbers, of the values and slopes of two.
#[tactic(auto, using(dual::proofs::Constants::nan_constant))]
fn applied(op: u64, k: u64, t: f64, a_value: f64, a_slope: f64, b_value: f64, b_slope: f64) -> Dual
    ensures { result ≡ of_duals op k t (Rules.dual a_value a_slope) (Rules.dual b_value b_slope) }
{
    let a = Dual {
        value: a_value,
        slope: a_slope,
    };
    let b = Dual {
        value: b_value,
        slope: b_slope,
    };
    apply(op, k, t, a, b)
}

#[unsafe(no_mangle)]
pub extern "C" fn noddyfir_dual_value(
    op: u64,
    k: u64,
    t: f64,
    a_value: f64,
    a_slope: f64,
    b_value: f64,
    b_slope: f64,
) -> f64
    ensures { result ≡ (of_duals op k t (Rules.dual a_value a_slope) (Rules.dual b_value b_slope)).value }
{
    applied(op, k, t, a_value, a_slope, b_value, b_slope).value
}

#[unsafe(no_mangle)]
pub extern "C" fn noddyfir_dual_slope(
    op: u64,
    k: u64,
    t: f64,
    a_value: f64,
    a_slope: f64,
    b_value: f64,
    b_slope: f64,
) -> f64
    ensures { result ≡ (of_duals op k t (Rules.dual a_value a_slope) (Rules.dual b_value b_slope)).slope }
{
    applied(op, k, t, a_value, a_slope, b_value, b_slope).slope
}
