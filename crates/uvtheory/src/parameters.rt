// uvtheory/parameters.rs: the parameters of a mixture, and `mie_prefactor`, `mean_field_constant` and `bh_coefficients`.
ghost use Rattle.std.specs.Prelude.{◌≡◌, ℕ, ◌<◌, ◌≤◌, [], ◌∷◌};
ghost use Rattle.uvtheory.specs.Literals as N;
ghost use Rattle.uvtheory.specs.Parameters as F;
ghost use Rattle.uvtheory.specs.Parameters.{combined};
ghost use Rattle.uvtheory.specs.Inputs.{parameters};
ghost use Rattle.uvtheory.specs.Rows.{doubles, row, row_of, Matrix, place as place_of};
ghost use Rattle.arithmetic.specs.Constants.{zero_d};

use crate::arrays::{constants, symmetric};
use crate::components::Components;
use num_dual::dual_num::DualNum;
use std::marker::Model;

// A mixture of n substances, as sent. Only the first n of each row count, and of k_ij and l_ij the first n(n-1)/2: i below j, row by row.
#[derive(Clone, Copy)]
pub struct Mixture {
    pub n: Components,
    pub rep: [f64; 8],
    pub att: [f64; 8],
    pub sigma: [f64; 8],
    pub epsilon_k: [f64; 8],
    pub k_ij: [f64; 28],
    pub l_ij: [f64; 28],
}

// feos_core's StateHD: temperature, and partial densities and mole fractions as separate fields.
#[derive(Clone, Copy)]
pub struct State<D> {
    pub temperature: D,
    pub partial_density: [D; 8],
    pub molefracs: [D; 8],
}

// UVTheoryPars: a mixture with its values in the number type, and the combined values of all pairs: matrices of n rows of n values, row by row. A clause sees the mixture.
#[derive(Drop)]
pub struct UVTheoryPars<D: DualNum> {
    pub mixture: Mixture,
    pub rep: [D; 8],
    pub att: [D; 8],
    pub sigma: [D; 8],
    pub epsilon_k: [D; 8],
    pub rep_ij: [D; 64],
    pub att_ij: [D; 64],
    pub sigma_ij: [D; 64],
    pub eps_k_ij: [D; 64],
}

impl<D: DualNum> Model for UVTheoryPars<D> {
    ghost use Rattle.uvtheory.specs.declared.parameters.Mixture.{Mixture};

    ghost Value = { Mixture };

    ghost use Rattle.uvtheory.specs.Held.{Rows, Matrices};

    ghost view = { λ p. p.mixture };

    ghost invariant = { λ p. Rows D.arithmetic p.mixture p.rep p.att p.sigma p.epsilon_k × Matrices D.arithmetic p.mixture p.rep_ij p.att_ij p.sigma_ij p.eps_k_ij };
}

// The parameters of a Mie potential: of a substance, or combined of two.
#[derive(Clone, Copy)]
pub struct Mie<D> {
    pub rep: D,
    pub att: D,
    pub sigma: D,
    pub epsilon_k: D,
}

// Constants for BH temperature dependent HS diameter.
pub const CD_BH: [[f64; 3]; 4] = [
    [0.0, 1.09360455168912E-02, 0.0],
    [-2.00897880971934E-01, -1.27074910870683E-02, 0.0],
    [
        1.40422470174053E-02,
        7.35946850956932E-02,
        1.28463973950737E-02,
    ],
    [
        3.71527116894441E-03,
        5.05384813757953E-03,
        4.91003312452622E-02,
    ],
];

#[tactic(auto, unfolding(crate::specs::Parameters::mie_prefactor))]
pub fn mie_prefactor<D: DualNum>(rep: D, att: D) -> D
    ensures { result ≡ F.mie_prefactor D.arithmetic rep att }
{
    rep / (rep - att) * (rep / att).powf(att / (rep - att))
}

// The mean-field constant, by the prefactor c of rep and att. Most callers give a constant x: inlined, its logarithm is worked but once.
#[inline(always)]
#[tactic(auto, unfolding(crate::specs::Parameters::mean_field_of))]
pub fn mean_field_of<D: DualNum>(c: D, rep: D, att: D, x: D) -> D
    ensures { result ≡ F.mean_field_of D.arithmetic c rep att x }
{
    let three = D::from(3.0);
    c * (x.powf(-att + three) / (att - three) - x.powf(-rep + three) / (rep - three))
}

pub fn mean_field_constant<D: DualNum>(rep: D, att: D, x: D) -> D
    ensures { result ≡ F.mean_field_constant D.arithmetic rep att x }
{
    mean_field_of(mie_prefactor(rep, att), rep, att, x)
}

// A row of CD_BH times (1, alpha, alpha^2).
fn cd_bh_times<D: DualNum>(c: &[f64; 3], alpha: D) -> D
    ensures { result ≡ F.cd_bh_times D.arithmetic (doubles c.now) alpha }
{
    D::from(c[0]) * D::from(1.0) + D::from(c[1]) * alpha + D::from(c[2]) * (alpha * alpha)
}

// The reciprocal that every substance's alpha is taken from: of rep 7 and att 6.
pub fn inv_a76<D: DualNum>() -> D
    ensures { result ≡ F.inv_a76 D.arithmetic (D.arithmetic.constant N.six) }
{
    D::from(1.0) / mean_field_constant(D::from(7.0), D::from(6.0), D::from(1.0))
}

// The coefficients of a substance for att 6, whatever att was sent.
#[tactic(auto, unfolding(crate::specs::Parameters::bh_coefficient))]
pub fn bh_coefficients<D: DualNum>(rep: D, inv_a76: D) -> [D; 5]
    requires { inv_a76 ≡ F.inv_a76 D.arithmetic (D.arithmetic.constant N.six) }
    ensures { result ≡ F.bh_coefficients D.arithmetic rep (D.arithmetic.constant N.six) 0 ∷ F.bh_coefficients D.arithmetic rep (D.arithmetic.constant N.six) 1 ∷ F.bh_coefficients D.arithmetic rep (D.arithmetic.constant N.six) 2
        ∷ F.bh_coefficients D.arithmetic rep (D.arithmetic.constant N.six) 3 ∷ F.bh_coefficients D.arithmetic rep (D.arithmetic.constant N.six) 4 ∷ [] }
{
    let six = D::from(6.0);
    let c = mie_prefactor(rep, six);
    let alpha = D::from(1.0) / mean_field_of(c, rep, six, D::from(1.0)) - inv_a76;
    [
        D::from(-2.0) * rep / ((six - rep) * c),
        cd_bh_times(&CD_BH[0], alpha),
        cd_bh_times(&CD_BH[1], alpha),
        cd_bh_times(&CD_BH[2], alpha),
        cd_bh_times(&CD_BH[3], alpha),
    ]
}

// The place of k_ij, and of l_ij.
pub fn place(n: Components, i: usize, j: usize) -> usize
    requires { (i < j) × (j < n) }
    ensures { (result ≡ place_of n i j) × (result < 28) }
{
    i * (2 * n.get() - i - 1) / 2 + (j - i - 1)
}

// The sigma_ij of a pair by its l_ij, the k-th; where that is 0 it stays, with no operation more.
#[tactic(auto, unfolding(crate::specs::Parameters::with_l_ij))]
fn with_l_ij<D: DualNum>(l_ij: &[f64; 28], k: usize, sigma_ij: D) -> D
    requires { k < 28 }
    ensures { result ≡ F.with_l_ij D.arithmetic (row_of zero_d l_ij.now k) sigma_ij }
{
    let l = l_ij[k];
    if l == 0.0 {
        sigma_ij
    } else {
        (D::from(1.0) - D::from(l)) * sigma_ij
    }
}

// The combined values of all pairs: on the diagonal the substances' own, and for i below j what the rule gives.
fn by_rule<D: DualNum, F: Fn(usize, usize) -> D>(n: Components, pure: &[D; 8], rule: F) -> [D; 64]
    requires { n ≤ 8 → (i j : ℕ) → i < j → j < n → F.pre rule i j }
    ensures { (f : ℕ → ℕ → D) → ((i j : ℕ) (r : D) → i < j → j < n → F.post rule i j r → r ≡ f i j) → Matrix D.arithmetic n result (combined (row D.arithmetic pure.now) f) }
{
    symmetric(
        n,
        |i, j| -> D
            requires { (i ≤ j) × (i < 8) × (i < j → F.pre rule i j) }
            ensures same { i ≡ j → result ≡ row D.arithmetic pure.entry.now i }
            ensures pair { i < j → F.post rule i j result }
        { if i == j { pure[i] } else { rule(i, j) } },
    )
}

impl<D: DualNum> UVTheoryPars<D> {
    // Each pair is worked once, for i below j, and copied.
    pub fn new(m: &Mixture) -> UVTheoryPars<D>
        ensures { result ≡ m.now }
    {
        let n = m.n;
        let k_ij = &m.k_ij;
        let l_ij = &m.l_ij;
        let rep = constants(&m.rep);
        let att = constants(&m.att);
        let sigma = constants(&m.sigma);
        let epsilon_k = constants(&m.epsilon_k);
        UVTheoryPars {
            mixture: *m,
            rep,
            att,
            sigma,
            epsilon_k,
            rep_ij: by_rule(
                n,
                &rep,
                |i, j| -> D
                    requires { (i < 8) × (j < 8) }
                    ensures { result ≡ D.arithmetic.sqrt (D.arithmetic.mul (row D.arithmetic rep i) (row D.arithmetic rep j)) }
                { (rep[i] * rep[j]).sqrt() },
            ),
            att_ij: by_rule(
                n,
                &att,
                |i, j| -> D
                    requires { (i < 8) × (j < 8) }
                    ensures { result ≡ D.arithmetic.sqrt (D.arithmetic.mul (row D.arithmetic att i) (row D.arithmetic att j)) }
                { (att[i] * att[j]).sqrt() },
            ),
            sigma_ij: by_rule(
                n,
                &sigma,
                |i, j| -> D
                    requires { (i < j) × (j < n) × (n ≤ 8) }
                    ensures { result ≡ F.with_l_ij D.arithmetic (row_of zero_d l_ij.entry.now (place_of n i j)) (D.arithmetic.mul (D.arithmetic.constant N.half) (D.arithmetic.add (row D.arithmetic sigma i) (row D.arithmetic sigma j))) }
                { with_l_ij(l_ij, place(n, i, j), D::from(0.5) * (sigma[i] + sigma[j])) },
            ),
            eps_k_ij: by_rule(
                n,
                &epsilon_k,
                |i, j| -> D
                    requires { (i < j) × (j < n) × (n ≤ 8) }
                    ensures { result ≡ D.arithmetic.mul (D.arithmetic.sub (D.arithmetic.constant N.one) (D.arithmetic.constant (doubles k_ij.entry.now (place_of n i j)))) (D.arithmetic.sqrt (D.arithmetic.mul (row D.arithmetic epsilon_k i) (row D.arithmetic epsilon_k j))) }
                {
                    (D::from(1.0) - D::from(k_ij[place(n, i, j)]))
                        * (epsilon_k[i] * epsilon_k[j]).sqrt()
                },
            ),
        }
    }

    // Of the i-th substance.
    #[inline(always)]
    pub fn pure(&self, i: usize) -> Mie<D>
        requires { i < self.now.n }
        ensures { result ≡ record { rep = (parameters D.arithmetic self.now).rep i; att = (parameters D.arithmetic self.now).att i; sigma = (parameters D.arithmetic self.now).sigma i; epsilon_k = (parameters D.arithmetic self.now).epsilon_k i } }
    {
        let k = self.mixture.n.in_row(i);
        Mie {
            rep: self.rep[k],
            att: self.att[k],
            sigma: self.sigma[k],
            epsilon_k: self.epsilon_k[k],
        }
    }

    // Of the pair (i, j).
    #[inline(always)]
    pub fn pair(&self, i: usize, j: usize) -> Mie<D>
        requires { (i < self.now.n) × (j < self.now.n) }
        ensures { result ≡ record { rep = (parameters D.arithmetic self.now).rep_ij i j; att = (parameters D.arithmetic self.now).att_ij i j; sigma = (parameters D.arithmetic self.now).sigma_ij i j; epsilon_k = (parameters D.arithmetic self.now).eps_k_ij i j } }
    {
        let k = self.mixture.n.row_by_row(i, j);
        Mie {
            rep: self.rep_ij[k],
            att: self.att_ij[k],
            sigma: self.sigma_ij[k],
            epsilon_k: self.eps_k_ij[k],
        }
    }
}
