// The functions under C names, for the measurements: each is what it calls, and has its contract.
ghost use Rattle.std.specs.Prelude.{◌≡◌};
ghost use Rattle.std.specs.Float.{binary64};
ghost use Rattle.arithmetic.specs.Next.{next_up, next_down};
ghost use Rattle.arithmetic.specs.Rounds.{rounds};
ghost use Rattle.arithmetic.specs.Doubles.{guarded, where_finite};

use elementary::exponential::{exp, powf, tanh};
use elementary::logarithm::{ln, ln_1p};
use operations::basic::{div, powi};
use operations::next::{next_down, next_up};
use operations::root::{counted_sqrt, sqrt};

#[unsafe(no_mangle)]
pub extern "C" fn noddyfir_div(a: f64, b: f64) -> f64
    ensures { result ≡ guarded.div a b }
{
    div(a, b)
}

#[unsafe(no_mangle)]
pub extern "C" fn noddyfir_powi(v: f64, k: u64) -> f64
    ensures { result ≡ guarded.powi v k }
{
    powi(v, k)
}

#[unsafe(no_mangle)]
pub extern "C" fn noddyfir_sqrt(v: f64) -> f64
    ensures { result ≡ guarded.sqrt v }
{
    sqrt(v)
}

#[unsafe(no_mangle)]
pub extern "C" fn noddyfir_sqrt_rounds(v: f64) -> u64
    ensures { result ≡ rounds v }
{
    counted_sqrt(v).rounds
}

#[unsafe(no_mangle)]
pub extern "C" fn noddyfir_ln(v: f64) -> f64
    ensures { result ≡ guarded.ln v }
{
    ln(v)
}

#[unsafe(no_mangle)]
pub extern "C" fn noddyfir_ln_1p(v: f64) -> f64
    ensures { result ≡ guarded.ln1p v }
{
    ln_1p(v)
}

#[unsafe(no_mangle)]
pub extern "C" fn noddyfir_exp(v: f64) -> f64
    ensures { result ≡ guarded.exp v }
{
    exp(v)
}

#[unsafe(no_mangle)]
pub extern "C" fn noddyfir_powf(v: f64, b: f64) -> f64
    ensures { result ≡ guarded.powf v b }
{
    powf(v, b)
}

#[unsafe(no_mangle)]
pub extern "C" fn noddyfir_tanh(v: f64) -> f64
    ensures { result ≡ guarded.tanh v }
{
    tanh(v)
}

#[unsafe(no_mangle)]
pub extern "C" fn noddyfir_next_up(x: f64) -> f64
    ensures { result ≡ where_finite x (next_up binary64 x) }
{
    next_up(x)
}

#[unsafe(no_mangle)]
pub extern "C" fn noddyfir_next_down(x: f64) -> f64
    ensures { result ≡ where_finite x (next_down binary64 x) }
{
    next_down(x)
}
