// Every operation of ranges under two C names, one for each end of the result, for the comparison with an independent implementation of the rules (measure/ranges.py).
ghost use Rattle.std.specs.Prelude.{◌≡◌};
ghost use Rattle.range.specs.Rules as Rules;
ghost use Rattle.measured.specs.Applied.{of_ranges};

use crate::numbers::apply;
use operations::basic::is_finite;
use range::basic::{Range, failed};

// The operation that op numbers, of the ends of two ranges; ranges alone have the last.
#[tactic(auto, using(range::proofs::Constants::nan_constant, crate::proofs::Last::last_of_ranges, crate::proofs::Last::before_last))]
fn applied(op: u64, k: u64, t: f64, a_lower: f64, a_upper: f64, b_lower: f64, b_upper: f64) -> Range
    ensures { result ≡ of_ranges op k t (Rules.range a_lower a_upper) (Rules.range b_lower b_upper) }
{
    let a = Range {
        lower: a_lower,
        upper: a_upper,
    };
    let b = Range {
        lower: b_lower,
        upper: b_upper,
    };
    if op == 13 {
        return if is_finite(t) {
            a.if_above(t, a, b)
        } else {
            failed()
        };
    }
    apply(op, k, t, a, b)
}

#[unsafe(no_mangle)]
pub extern "C" fn noddyfir_range_lower(
    op: u64,
    k: u64,
    t: f64,
    a_lower: f64,
    a_upper: f64,
    b_lower: f64,
    b_upper: f64,
) -> f64
    ensures { result ≡ (of_ranges op k t (Rules.range a_lower a_upper) (Rules.range b_lower b_upper)).lower }
{
    applied(op, k, t, a_lower, a_upper, b_lower, b_upper).lower
}

#[unsafe(no_mangle)]
pub extern "C" fn noddyfir_range_upper(
    op: u64,
    k: u64,
    t: f64,
    a_lower: f64,
    a_upper: f64,
    b_lower: f64,
    b_upper: f64,
) -> f64
    ensures { result ≡ (of_ranges op k t (Rules.range a_lower a_upper) (Rules.range b_lower b_upper)).upper }
{
    applied(op, k, t, a_lower, a_upper, b_lower, b_upper).upper
}
