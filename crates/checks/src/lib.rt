// The checks of a record, in stages: the envelope, the substances, the state.
#![tactic(auto)]

ghost use Rattle.std.specs.Prelude.{◌≡◌, ◌≤◌, [], ◌∷◌, length};
ghost use Rattle.std.specs.List.{list_all};
ghost use Rattle.arithmetic.specs.Doubles.{guarded};
ghost use Rattle.uvtheory.specs.Rows.{doubles};
ghost use Rattle.checks.specs.Checks.{all_first, all_inside, attraction_fits, envelope, first_failing, inside, pair_constants, plus_zero, state, state_inside, substances, substances_inside};

use big_endian::big_endian2;
use case_record::case::Case;
use case_record::layout::{header_of, length_of, pairs, perturbation_named};
use num_dual::double::Double;
use refusal::Refusal;
use std::num::f64_to_bits_with_nan;
use uvtheory::arrays::constants;
use uvtheory::components::Components;
use uvtheory::eos::Perturbation;
use uvtheory::hard_sphere::sum;
use uvtheory::parameters::{Mixture, State};

// A closed interval: its lower and its upper limit.
#[derive(Clone, Copy)]
pub struct Interval(pub f64, pub f64);

const REP: Interval = Interval(8.0, 48.0);

const ATT: Interval = Interval(5.0, 7.0);

// BH's: its diameters are worked with 6, whatever is sent.
const ATT_BH: Interval = Interval(6.0, 6.0);

const SIGMA: Interval = Interval(0.5, 10.0);

const EPSILON_K: Interval = Interval(0.1, 5000.0);

const K_IJ: Interval = Interval(-0.9, 0.9);

const L_IJ: Interval = Interval(-0.5, 0.5);

const TEMPERATURE: Interval = Interval(1.0, 5000.0);

const DENSITY: Interval = Interval(0.0, 2.0);

const FRACTION: Interval = Interval(0.0, 1.0);
// 1 - 2^-40 and 1 + 2^-40.
const FRACTION_SUM: Interval = Interval(0.9999999999990905, 1.0000000000009095);

impl Interval {
    // Whether x lies in the interval; NaN does not.
    fn contains(self, x: f64) -> bool
        ensures { result ≡ inside self x }
    {
        (self.0 <= x) & (x <= self.1)
    }

    // Whether each of several values does.
    fn contains_all(self, values: &[f64]) -> bool
        ensures { result ≡ list_all (inside self) values.now }
    {
        values.iter().all(|x| self.contains(*x))
    }

    // Whether each of the first n does.
    #[tactic(auto, using(crate::proofs::Inside::of_the_first))]
    fn contains_first(self, n: usize, values: &[f64]) -> bool
        requires { n ≤ length values.now }
        ensures { result ≡ all_inside self n values.now }
    {
        self.contains_all(&values[..n])
    }
}

#[tactic(auto, unfolding(crate::specs::Checks::substances_inside))]
fn substances_inside(m: &Mixture) -> bool
    ensures { result ≡ substances_inside m.now }
{
    let n = m.n.get();
    REP.contains_first(n, &m.rep)
        & ATT.contains_first(n, &m.att)
        & SIGMA.contains_first(n, &m.sigma)
        & EPSILON_K.contains_first(n, &m.epsilon_k)
        & K_IJ.contains_first(pairs(m.n), &m.k_ij)
        & L_IJ.contains_first(pairs(m.n), &m.l_ij)
}

// Whether each att is one that the perturbation is worked for.
#[tactic(auto, unfolding(crate::specs::Checks::attraction_fits))]
fn attraction_fits(perturbation: Perturbation, m: &Mixture) -> bool
    ensures { result ≡ attraction_fits perturbation m.now }
{
    match perturbation {
        Perturbation::BarkerHenderson => ATT_BH.contains_first(m.n.get(), &m.att),
        Perturbation::WeeksChandlerAndersen => true,
        Perturbation::WeeksChandlerAndersenB3 => true,
    }
}

// The vector sum of the first n doubles.
fn vector_sum(n: Components, values: &[f64; 8]) -> f64
    ensures { result ≡ guarded.sum n (doubles values.now) }
{
    sum::<Double>(n, &constants(values)).into()
}

#[tactic(auto, unfolding(crate::specs::Checks::state_inside))]
fn state_inside(n: Components, state: &State<f64>) -> bool
    ensures { result ≡ state_inside n state.now }
{
    TEMPERATURE.contains(state.temperature)
        & DENSITY.contains_first(n.get(), &state.partial_density)
        & FRACTION.contains_first(n.get(), &state.molefracs)
        & FRACTION_SUM.contains(vector_sum(n, &state.molefracs))
}

// A test of the table, with what is due where it fails.
pub fn require(passes: bool, refusal: Refusal) -> Result<(), Refusal>
    ensures { result ≡ first_failing ((refusal, passes) ∷ []) }
{
    if passes { Ok(()) } else { Err(refusal) }
}

// The codes 2 to 6, where the versions from `oldest` to `newest` pass. Only the bytes that the checks before have shown to be there are read.
pub fn envelope(oldest: u8, newest: u8, record: &[u8]) -> Result<(), Refusal>
    ensures { result ≡ first_failing (envelope oldest newest «record».now) }
{
    require(record.len() >= 5, Refusal::Envelope)?;
    let length = big_endian2(record, 0);
    require(length == record.len() - 2, Refusal::Envelope)?;
    let h = header_of(record);
    require(
        (oldest <= h.version) & (h.version <= newest),
        Refusal::Version,
    )?;
    require(
        perturbation_named(h.perturbation).is_some(),
        Refusal::Perturbation,
    )?;
    require((1 <= h.n) & (h.n <= 8), Refusal::Components)?;
    require(length == length_of(h), Refusal::Size)
}

// The codes 7 and 12.
pub fn substances(c: &Case) -> Result<(), Refusal>
    ensures { result ≡ first_failing (substances c.now) }
{
    require(substances_inside(&c.mixture), Refusal::Substances)?;
    require(
        attraction_fits(c.perturbation, &c.mixture),
        Refusal::Attraction,
    )
}

// The code 8.
pub fn state(c: &Case) -> Result<(), Refusal>
    ensures { result ≡ first_failing (state c.now) }
{
    require(state_inside(c.mixture.n, &c.state), Refusal::State)
}

// Whether each of several values is +0, by its bits.
fn all_plus_zero(values: &[f64]) -> bool
    ensures { result ≡ list_all plus_zero values.now }
{
    values.iter().all(|x| f64_to_bits_with_nan(*x) == 0)
}

// Whether each of the first n is.
#[tactic(auto, using(crate::proofs::Inside::of_the_first))]
fn first_plus_zero(n: usize, values: &[f64]) -> bool
    requires { n ≤ length values.now }
    ensures { result ≡ all_first plus_zero n values.now }
{
    all_plus_zero(&values[..n])
}

// The code 13.
pub fn pair_constants(c: &Case) -> Result<(), Refusal>
    ensures { result ≡ first_failing (pair_constants c.now) }
{
    let m = &c.mixture;
    require(first_plus_zero(pairs(m.n), &m.l_ij), Refusal::PairConstant)
}
