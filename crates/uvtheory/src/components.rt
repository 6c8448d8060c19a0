// How many substances a mixture has.
ghost use Rattle.std.specs.Prelude.{◌≡◌, ◌+◌, ◌*◌, ◌≤◌, ◌<◌};

use std::marker::Model;

// At most 8: the arrays of the formulas have room for them. A clause sees the number.
#[derive(Clone, Copy)]
pub struct Components {
    n: usize,
}

impl Model for Components {
    ghost use Rattle.std.specs.Prelude.{ℕ, ◌≤◌};

    ghost Value = { ℕ };

    ghost view = { λ c. c.n };

    ghost inverse = { λ n. record { n = n } };

    ghost invariant = { λ c. c.n ≤ 8 };
}

impl Components {
    pub fn new(n: usize) -> Components
        requires { n ≤ 8 }
        ensures { result ≡ n }
    {
        Components { n }
    }

    #[inline(always)]
    pub fn get(self) -> usize
        ensures { (result ≡ self) × (result ≤ 8) }
    {
        self.n
    }

    // The place of i in a row.
    #[inline(always)]
    pub fn in_row(self, i: usize) -> usize
        requires { i < self }
        ensures { (result ≡ i) × (result < 8) }
    {
        // Reading n opens the value: the proof sees that n is at most 8.
        let _ = self.n;
        i
    }

    // The place of (i, j) in a matrix.
    #[inline(always)]
    #[tactic(auto, using(crate::proofs::Pairs::fits))]
    pub fn row_by_row(self, i: usize, j: usize) -> usize
        requires { (i < self) × (j < self) }
        ensures { (result ≡ i * self + j) × (result < 64) }
    {
        i * self.n + j
    }
}
