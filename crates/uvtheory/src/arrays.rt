// Rows and matrices that are made by a function of the index, as the Rust makes its vectors and matrices.
ghost use Rattle.std.specs.Prelude.{◌≡◌, ℕ, ◌≤◌, ◌<◌};
ghost use Rattle.uvtheory.specs.Rows.{doubles, row, Row, Matrix};

use crate::components::Components;
use num_dual::dual_num::DualNum;

// Doubles as sent.
pub fn constants<D: DualNum>(xs: &[f64; 8]) -> [D; 8]
    ensures { row D.arithmetic result ≡ (λ i. D.arithmetic.constant (doubles xs.now i)) }
{
    let mut row = [D::from(0.0); 8];
    for i in 0..8 {
        row[i] = D::from(xs[i]);
    }
    row
}

// A value for each of n components.
pub fn each<D: DualNum, F: Fn(usize) -> D>(n: Components, f: F) -> [D; 8]
    requires { n ≤ 8 → (i : ℕ) → i < n → F.pre f i }
    ensures { (g : ℕ → D) → ((i : ℕ) (r : D) → i < n → F.post f i r → r ≡ g i) → Row D.arithmetic n result g }
{
    let mut row = [D::from(0.0); 8];
    for i in 0..n.get() {
        row[i] = f(i);
    }
    row
}

// A value for each pair of n components.
pub fn matrix<D: DualNum, F: Fn(usize, usize) -> D>(n: Components, f: F) -> [D; 64]
    requires { n ≤ 8 → (i j : ℕ) → i < n → j < n → F.pre f i j }
    ensures { (g : ℕ → ℕ → D) → ((i j : ℕ) (r : D) → i < n → j < n → F.post f i j r → r ≡ g i j) → Matrix D.arithmetic n result g }
{
    let n = n.get();
    let mut matrix = [D::from(0.0); 64];
    for k in 0..n * n {
        matrix[k] = f(k / n, k % n);
    }
    matrix
}

// The same, where the values at (i, j) and (j, i) are equal: one is worked for i up to j, and copied.
pub fn symmetric<D: DualNum, F: Fn(usize, usize) -> D>(n: Components, f: F) -> [D; 64]
    requires { n ≤ 8 → (i j : ℕ) → i ≤ j → j < n → F.pre f i j }
    ensures { (g : ℕ → ℕ → D) → ((i j : ℕ) (r : D) → i ≤ j → j < n → F.post f i j r → r ≡ g i j) → ((i j : ℕ) → j < i → g i j ≡ g j i) → Matrix D.arithmetic n result g }
{
    let n = n.get();
    let mut matrix = [D::from(0.0); 64];
    for k in 0..n * n {
        let i = k / n;
        let j = k % n;
        matrix[k] = if j < i { matrix[j * n + i] } else { f(i, j) };
    }
    matrix
}
