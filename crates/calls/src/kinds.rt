// The calls by kind: what each answers to a record.
ghost use Rattle.std.specs.Prelude.{◌≡◌, ◌&&◌};
ghost use Rattle.std.specs.Float.Ieee.Scale.{finite};
ghost use Rattle.calls.specs.Answers.{answer_of, beyond, result_of, staged, tested, worked_of};
ghost use Rattle.calls.specs.declared.kinds.Kind.TheVariants as Kinds;

use answer::Answer;
use case_record::case::{Case, case_of};
use checks::{envelope, require, state, substances};
use eos::contributions::contributions;
use eos::states::{sent, started};
use num_dual::double::Double;
use operations::basic::is_finite;
use range::basic::Range;
use refusal::Refusal;

// What a call answers with: the three energies, their ends, or the energies with their slopes.
#[derive(Clone, Copy, Debug, PartialEq, Eq)]
pub enum Kind {
    Energies,
    Ends,
    Slopes,
}

// Whether the three are finite.
fn are_finite(x: f64, y: f64, z: f64) -> bool
    ensures { result ≡ (finite x && finite y && finite z) }
{
    is_finite(x) & is_finite(y) & is_finite(z)
}

// The energies of a case whose record the checks pass, or code 9.
fn energies_of(c: &Case) -> Result<Answer, Refusal>
    ensures { result ≡ worked_of Kinds.Energies c.now }
{
    let e = contributions::<Double>(c.perturbation, &c.mixture, &sent(&c.state));
    let x = f64::from(e.hard_sphere);
    let y = f64::from(e.reference);
    let z = f64::from(e.attractive);
    require(are_finite(x, y, z), Refusal::Arithmetic)?;
    Ok(Answer::Energies(x, y, z))
}

// The ranges of the three, or code 10.
fn ranges_of(c: &Case) -> Result<Answer, Refusal>
    ensures { result ≡ tested (beyond Kinds.Ends c.now) (result_of Kinds.Ends c.now) }
{
    let e = contributions::<Range>(c.perturbation, &c.mixture, &sent(&c.state));
    let are_ok = e.hard_sphere.is_ok() & e.reference.is_ok() & e.attractive.is_ok();
    require(are_ok, Refusal::Ends)?;
    Ok(Answer::Ends(e.hard_sphere, e.reference, e.attractive))
}

// The ends of a case. The energies are worked first: a case without them has no ends.
fn ends_of(c: &Case) -> Result<Answer, Refusal>
    ensures { result ≡ worked_of Kinds.Ends c.now }
{
    energies_of(c)?;
    ranges_of(c)
}

// The energies with their slopes. Their values are the energies: code 9 is due by them, and before 11.
fn slopes_of(c: &Case) -> Result<Answer, Refusal>
    ensures { result ≡ worked_of Kinds.Slopes c.now }
{
    let e = contributions(c.perturbation, &c.mixture, &started(&c.state));
    require(
        are_finite(e.hard_sphere.value, e.reference.value, e.attractive.value),
        Refusal::Arithmetic,
    )?;
    require(
        e.hard_sphere.is_ok() & e.reference.is_ok() & e.attractive.is_ok(),
        Refusal::Slopes,
    )?;
    Ok(Answer::Slopes(e.hard_sphere, e.reference, e.attractive))
}

// The tests of a record, in their order, and the answer behind them.
fn worked(kind: Kind, record: &[u8]) -> Result<Answer, Refusal>
    ensures { result ≡ staged kind «record».now }
{
    envelope(1, 2, record)?;
    let c = case_of(record);
    substances(&c)?;
    state(&c)?;
    match kind {
        Kind::Energies => energies_of(&c),
        Kind::Ends => ends_of(&c),
        Kind::Slopes => slopes_of(&c),
    }
}

// The answer to a record.
#[tactic(auto, unfolding(crate::specs::Answers::answer_of), using(crate::proofs::Answers::stages))]
pub fn answer_of(kind: Kind, record: &[u8]) -> Answer
    ensures { result ≡ answer_of kind «record».now }
{
    worked(kind, record).unwrap_or_else(|refusal| Answer::Refused(refusal))
}
