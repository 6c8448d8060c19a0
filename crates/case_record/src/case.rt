// The case that a record holds.
ghost use Rattle.std.specs.Prelude.{◌≡◌, ℕ, ◌+◌, ◌*◌, ◌≤◌, ◌<◌, length};
ghost use Rattle.case_record.specs.Layout.{header_of};
ghost use Rattle.case_record.specs.Record.{Whole, case_of, column, double, mixture_of, row, state_of, values};

use crate::layout::{Header, header_of, l_pairs, layout_of, pairs, perturbation_of};
use big_endian::double_at;
use uvtheory::components::Components;
use uvtheory::eos::Perturbation;
use uvtheory::parameters::{Mixture, State};

// What a record asks for: which perturbation, of which mixture, in which state.
#[derive(Clone, Copy)]
pub struct Case {
    pub perturbation: Perturbation,
    pub mixture: Mixture,
    pub state: State<f64>,
}

// A record that has all the bytes of a header.
#[derive(Clone, Copy, Debug, PartialEq, Eq)]
pub struct WholeRecord<'a> {
    pub bytes: &'a [u8],
    pub header: Header,
    pub ghost whole: { Whole bytes.now header },
}

impl<'a> WholeRecord<'a> {
    // The k-th double after n, counted from 0.
    fn double(&self, k: usize) -> f64
        requires { 13 + 8 * k ≤ length self.now.bytes.now }
        ensures { result ≡ double self.now.bytes.now k }
    {
        double_at(self.bytes, 5 + 8 * k)
    }

    // Puts the doubles at first, first + step, .. into `out`.
    #[tactic(auto, unfolding(crate::specs::Record::values), using(crate::proofs::Rows::value_more))]
    fn read_column(&self, first: usize, step: usize, out: &mut [f64])
        requires { (i : ℕ) → i < length out.old → 13 + 8 * (first + step * i) ≤ length self.now.bytes.now }
        ensures { out.new ≡ values (length out.old) (column self.now.bytes.now first step) }
    {
        for (i, x) in out.iter_mut().enumerate() {
            *x = self.double(first + step * i);
        }
    }

    // The first n of them in an array, with +0 behind them.
    #[tactic(auto, using(crate::proofs::Rows::filled))]
    fn row<const SIZE: usize>(&self, first: usize, step: usize, n: usize) -> [f64; SIZE]
        requires { (n ≤ SIZE) × ((i : ℕ) → i < n → 13 + 8 * (first + step * i) ≤ length self.now.bytes.now) }
        ensures { result ≡ row SIZE n (column self.now.bytes.now first step) }
    {
        let mut out = [0.0; SIZE];
        self.read_column(first, step, &mut out[..n]);
        out
    }

    #[tactic(auto, unfolding(crate::specs::Record::mixture_of))]
    pub fn mixture(&self) -> Mixture
        ensures { result ≡ mixture_of self.now.bytes.now self.now.header }
    {
        let h = self.header;
        let n = Components::new(h.n);
        let l = layout_of(h);
        Mixture {
            n,
            rep: self.row(0, 4, h.n),
            att: self.row(1, 4, h.n),
            sigma: self.row(2, 4, h.n),
            epsilon_k: self.row(3, 4, h.n),
            k_ij: self.row(l.k_ij, 1, pairs(n)),
            l_ij: self.row(l.l_ij, 1, l_pairs(h)),
        }
    }

    #[tactic(auto, unfolding(crate::specs::Record::state_of))]
    pub fn state(&self) -> State<f64>
        ensures { result ≡ state_of self.now.bytes.now self.now.header }
    {
        let h = self.header;
        let l = layout_of(h);
        State {
            temperature: self.double(l.temperature),
            partial_density: self.row(l.partial_density, 1, h.n),
            molefracs: self.row(l.molefracs, 1, h.n),
        }
    }
}

// The case of a record that the checks 2, 5 and 6 pass.
pub fn case_of(record: &[u8]) -> Case
    requires { Whole «record».now (header_of «record».now) }
    ensures { result ≡ case_of «record».now }
{
    let whole = WholeRecord {
        bytes: record,
        header: header_of(record),
    };
    Case {
        perturbation: perturbation_of(whole.header.perturbation),
        mixture: whole.mixture(),
        state: whole.state(),
    }
}
