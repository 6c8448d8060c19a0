// The next double up and the next double down.
ghost use Rattle.std.specs.Prelude.{◌≡◌};
ghost use Rattle.std.specs.Float.{binary64};
ghost use Rattle.arithmetic.specs.Next.{next_up, next_down};
ghost use Rattle.arithmetic.specs.Doubles.{where_finite};

use crate::basic::is_finite;

// The sign's bit, which is the pattern of -0.
const SIGN: u64 = 0x8000_0000_0000_0000;

// A pattern grows with the magnitude: the next one up is one more where the sign is clear, and one less where it is set.
// The sign is a number and no branch, since the ends of ranges have either. From both zeros the next is the smallest double.
#[tactic(auto, using(arithmetic::proofs::Tests::where_else, arithmetic::proofs::Tests::zero_by_zero))]
pub fn next_up(x: f64) -> f64
    ensures { result ≡ where_finite x (next_up binary64 x) }
{
    if is_finite(x) {
        if x == 0.0 {
            return f64::from_bits(1);
        }
        let b = f64::to_bits(x);
        return f64::from_bits(b + 1 - b / SIGN * 2);
    }
    0.0 / 0.0
}

// As next_up, with the signs the other way round.
#[tactic(auto, using(arithmetic::proofs::Tests::where_else, arithmetic::proofs::Tests::zero_by_zero))]
pub fn next_down(x: f64) -> f64
    ensures { result ≡ where_finite x (next_down binary64 x) }
{
    if is_finite(x) {
        if x == 0.0 {
            return f64::from_bits(SIGN + 1);
        }
        let b = f64::to_bits(x);
        return f64::from_bits(b - 1 + b / SIGN * 2);
    }
    0.0 / 0.0
}
