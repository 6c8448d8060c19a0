// uvtheory/eos/mod.rs: which perturbation.
#[derive(Clone, Copy, Debug, PartialEq, Eq)]
pub enum Perturbation {
    BarkerHenderson,
    WeeksChandlerAndersen,
    WeeksChandlerAndersenB3,
}
