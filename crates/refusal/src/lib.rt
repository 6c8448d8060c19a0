// Why a call refuses a record or its buffer: each place of document 01's table, and of document 02's, with its code.
#![tactic(auto)]

ghost use Rattle.std.specs.Prelude.{◌≡◌};

// In the order of the codes. The order of the tests is another (crate `calls`, specs/Answers.antt).
#[derive(Clone, Copy, Debug, PartialEq, Eq)]
pub enum Refusal {
    AnswerBuffer = 1,
    Envelope = 2,
    Version = 3,
    Perturbation = 4,
    Components = 5,
    Size = 6,
    Substances = 7,
    State = 8,
    Arithmetic = 9,
    Ends = 10,
    Slopes = 11,
    Attraction = 12,
    PairConstant = 13,
}

// The number that an answer's code byte has, and that a call returns.
impl From<Refusal> for u8 {
    ghost use Rattle.refusal.specs.Code.{code};

    ghost from_gives = { λ refusal byte. byte ≡ code refusal };

    fn from(refusal: Refusal) -> u8 {
        refusal as u8
    }
}
