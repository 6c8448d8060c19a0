// The three energies of a case, in the order of the answer.
#[derive(Clone, Copy)]
pub struct Contributions<D> {
    pub hard_sphere: D,
    pub reference: D,
    pub attractive: D,
}
