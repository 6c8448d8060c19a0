// The square root, worked in whole numbers: one binary digit a round, from the leading 1.
ghost use Rattle.std.specs.Prelude.{◌≡◌, ◌+◌, ◌*◌, ◌/◌, ◌%◌, ◌^◌, ◌≤◌, ◌<◌};
ghost use Rattle.std.specs.Float.{binary64};
ghost use Rattle.std.specs.Float.Ieee.{of_bits};
ghost use Rattle.arithmetic.specs.Root.{root, sqrt};
ghost use Rattle.arithmetic.specs.Rounds.{rounds_in, rounds};
ghost use Rattle.arithmetic.specs.Doubles.{guarded};
ghost use Rattle.operations.specs.Patterns.{Positive};

use crate::basic::is_finite;
use crate::parts::{LEADING, parts};

// A root being worked: the digits of the radicand that are to come, the digits of the root, and the remainder of what was taken in.
#[derive(Clone, Copy)]
struct State {
    radicand: u64,
    root: u64,
    remainder: u64,
}

// Takes in the radicand's two leading digits, of 54, and finds one digit of the root. The digit is a number and no branch: no branch predictor foresees it.
fn step(s: State) -> State
    requires { (s.radicand < 2 ^ 54) × (s.root < 2 ^ 54) × (s.remainder ≤ 2 * s.root) }
    ensures { (result.radicand ≡ s.radicand % 2 ^ 52 * 4) × (result.root ≤ 2 * s.root + 1) × (result.remainder ≤ 2 * result.root)
        × (result.root * result.root + result.remainder ≡ 4 * (s.root * s.root + s.remainder) + s.radicand / 2 ^ 52) }
{
    let x = s.remainder * 4 + s.radicand / LEADING;
    let t = s.root * 4 + 1;
    let digit = (t <= x) as u64;
    State {
        radicand: s.radicand % LEADING * 4,
        root: s.root * 2 + digit,
        remainder: x - t * digit,
    }
}

// A root, as its 54 digits, as a double's pattern or as a double, and the rounds that it took.
#[derive(Clone, Copy, Debug, PartialEq, Eq)]
pub struct Counted<R> {
    pub root: R,
    pub rounds: u64,
}

// The root of a * 2^54, one digit a round, up to the first round at which the square of the digits found is the whole radicand: no digit of it is to come, and no
// remainder is left. While digits are to come the count need not be looked at: 27 rounds take them all in.
fn digits(a: u64) -> Counted<u64>
    requires { (2 ^ 52 ≤ a) × (a < 2 ^ 54) }
    ensures { (result.root ≡ root (a * 2 ^ 54)) × (result.rounds ≡ rounds_in (a * 2 ^ 54)) }
{
    let mut s = State {
        radicand: a,
        root: 0,
        remainder: 0,
    };
    let mut rounds: u64 = 0;
    while s.radicand > 0 || (s.remainder > 0 && rounds < 54) {
        s = step(s);
        rounds += 1;
    }
    Counted {
        root: s.root << (54 - rounds),
        rounds,
    }
}

// The root's pattern, by the pattern of a positive double. An odd exponent leaves a factor of 2 to the significand.
// The 54th digit rounds: where it is 1 the root is not exact, since the radicand is even, so there is no tie.
fn root_bits(b: u64) -> Counted<u64>
    requires { Positive b }
    ensures { (result.root < 0x7ff0_0000_0000_0000) × (of_bits binary64 result.root ≡ sqrt (of_bits binary64 b)) × (result.rounds ≡ rounds (of_bits binary64 b)) }
{
    let p = parts(b);
    let r = digits(p.sig << (p.exp % 2));
    Counted {
        root: (p.exp / 2 + 485) * LEADING + (r.root + 1) / 2,
        rounds: r.rounds,
    }
}

// The double nearest to the root, with the rounds counted. A zero is its own root and takes none; below zero, and for what is not finite, there is no rule.
pub fn counted_sqrt(v: f64) -> Counted<f64>
    ensures { (result.root ≡ guarded.sqrt v) × (result.rounds ≡ rounds v) }
{
    if v == 0.0 {
        return Counted { root: v, rounds: 0 };
    }
    if v > 0.0 && is_finite(v) {
        let r = root_bits(f64::to_bits(v));
        return Counted {
            root: f64::from_bits(r.root),
            rounds: r.rounds,
        };
    }
    Counted {
        root: 0.0 / 0.0,
        rounds: 0,
    }
}

// The double nearest to the root.
pub fn sqrt(v: f64) -> f64
    ensures { result ≡ guarded.sqrt v }
{
    counted_sqrt(v).root
}
