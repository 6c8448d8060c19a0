// A positive double as a significand of 53 binary digits and an exponent.
ghost use Rattle.std.specs.Prelude.{◌*◌, ◌^◌, ◌≤◌, ◌<◌, false};
ghost use Rattle.std.specs.Float.{binary64};
ghost use Rattle.std.specs.Float.Ieee.{of_bits};
ghost use Rattle.std.specs.Float.Ieee.Exact.{HasValue};
ghost use Rattle.operations.specs.Patterns.{Positive};

// The weight of a significand's leading digit, and of the exponent's field in a pattern.
pub const LEADING: u64 = 0x10_0000_0000_0000;

// sig * 2^exp units of 2^-1126. In that unit the smallest double still has a significand of 53 digits.
#[derive(Clone, Copy, Debug, PartialEq, Eq)]
pub struct Number {
    pub sig: u64,
    pub exp: u64,
}

// The positive double with the pattern b. A subnormal one has leading zeros, and is shifted up by them.
pub fn parts(b: u64) -> Number
    requires { Positive b }
    ensures bound { (2 ^ 52 ≤ result.sig) × (result.sig < 2 ^ 53) × (result.exp < 2100) }
    ensures has_value { HasValue (of_bits binary64 b) false (result.sig * 2 ^ result.exp) (2 ^ 1126) }
{
    let field = b / LEADING;
    if field == 0 {
        let shift = (u64::leading_zeros(b) - 11) as u64;
        return Number {
            sig: b << shift,
            exp: 52 - shift,
        };
    }
    Number {
        sig: b % LEADING + LEADING,
        exp: field + 51,
    }
}
