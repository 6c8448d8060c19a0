// A mixture in a state, with what its contributions by Weeks, Chandler and Andersen share.
ghost use Rattle.std.specs.Prelude.{◌≡◌, ◌<◌};
ghost use Rattle.uvtheory.specs.Rows.{row};
ghost use Rattle.uvtheory.specs.HardSphere as Spheres;
ghost use Rattle.uvtheory.specs.Inputs.{parameters, state_of};
ghost use Rattle.uvtheory.specs.Wca.HardSphere as F;

use crate::hard_sphere::{
    diameter_q_ij, diameter_wca, dimensionless_length_scale, minima, minima_ij,
};
use num_dual::dual_num::DualNum;
use std::marker::Model;
use uvtheory::hard_sphere::spherical;
use uvtheory::parameters::{State, UVTheoryPars};

// The lengths are worked once: of the components, and of the pairs. A clause sees the mixture and the state.
#[derive(Drop)]
pub struct WeeksChandlerAndersen<'a, D: DualNum> {
    pub parameters: &'a UVTheoryPars<D>,
    pub state: &'a State<D>,
    pub rm: [D; 8],
    pub d: [D; 8],
    pub length: [D; 8],
    pub rm_ij: [D; 64],
    pub q_ij: [D; 64],
}

impl<'a, D: DualNum> Model for WeeksChandlerAndersen<'a, D> {
    ghost use Rattle.uvtheory.specs.Inputs.{MixtureState};

    ghost Value = { MixtureState D };

    ghost use Rattle.uvtheory.specs.Inputs.{parameters as of};
    ghost use Rattle.uvtheory_wca.specs.Lengths.{ComponentLengths, PairLengths};

    ghost view = { λ w. record { mixture = w.parameters.now; state = w.state.now } };

    ghost invariant = { λ w. ComponentLengths D.arithmetic (of D.arithmetic w.parameters.now) w.state.now.temperature w.rm w.d w.length × PairLengths D.arithmetic (of D.arithmetic w.parameters.now) w.state.now.temperature w.rm_ij w.q_ij };
}

// The values of a component: fraction, place of the minimum, diameter and length.
#[derive(Clone, Copy)]
pub struct Component<D> {
    pub x: D,
    pub rm: D,
    pub d: D,
    pub length: D,
}

// Of the k-th, by rows.
#[inline(always)]
pub fn component_of<D: DualNum>(
    k: usize,
    x: &[D; 8],
    rm: &[D; 8],
    d: &[D; 8],
    length: &[D; 8],
) -> Component<D>
    requires { k < 8 }
    ensures { result ≡ record { x = row D.arithmetic x.entry.now k; rm = row D.arithmetic rm.entry.now k; d = row D.arithmetic d.entry.now k; length = row D.arithmetic length.entry.now k } }
{
    Component {
        x: x[k],
        rm: rm[k],
        d: d[k],
        length: length[k],
    }
}

// The values of a pair: its potential, place of the minimum and q.
#[derive(Clone, Copy)]
pub struct Pair<D> {
    pub rep: D,
    pub att: D,
    pub sigma: D,
    pub epsilon_k: D,
    pub rm: D,
    pub q: D,
}

impl<'a, D: DualNum> WeeksChandlerAndersen<'a, D> {
    #[tactic(auto, using(uvtheory::proofs::Sizes::parameters_fit))]
    pub fn new(parameters: &'a UVTheoryPars<D>, state: &'a State<D>) -> WeeksChandlerAndersen<'a, D>
        ensures { result ≡ record { mixture = parameters.entry.now; state = state.entry.now } }
    {
        let t = state.temperature;
        let rm = minima(parameters);
        let d = diameter_wca(parameters, t, &rm);
        let length = dimensionless_length_scale(parameters, t, &rm, &d);
        let rm_ij = minima_ij(parameters);
        let q_ij = diameter_q_ij(parameters, t, &rm_ij);
        WeeksChandlerAndersen {
            parameters,
            state,
            rm,
            d,
            length,
            rm_ij,
            q_ij,
        }
    }

    #[inline(always)]
    pub fn component(&self, i: usize) -> Component<D>
        requires { i < self.now.mixture.n }
        ensures { result ≡ record {
          x = row D.arithmetic self.now.state.molefracs i;
          rm = F.rm_of D.arithmetic ((parameters D.arithmetic self.now.mixture).rep i) ((parameters D.arithmetic self.now.mixture).att i);
          d = F.diameter_wca D.arithmetic (parameters D.arithmetic self.now.mixture) self.now.state.temperature i;
          length = F.dimensionless_length_scale D.arithmetic (parameters D.arithmetic self.now.mixture) self.now.state.temperature i;
        } }
    {
        let p = self.parameters;
        let x = &self.state.molefracs;
        let rm = &self.rm;
        let d = &self.d;
        let length = &self.length;
        component_of(p.mixture.n.in_row(i), x, rm, d, length)
    }

    #[inline(always)]
    #[tactic(auto, using(uvtheory::proofs::Sizes::parameters_fit))]
    pub fn pair(&self, i: usize, j: usize) -> Pair<D>
        requires { (i < self.now.mixture.n) × (j < self.now.mixture.n) }
        ensures { result ≡ record {
          rep = (parameters D.arithmetic self.now.mixture).rep_ij i j;
          att = (parameters D.arithmetic self.now.mixture).att_ij i j;
          sigma = (parameters D.arithmetic self.now.mixture).sigma_ij i j;
          epsilon_k = (parameters D.arithmetic self.now.mixture).eps_k_ij i j;
          rm = F.rm_of D.arithmetic ((parameters D.arithmetic self.now.mixture).rep_ij i j) ((parameters D.arithmetic self.now.mixture).att_ij i j);
          q = F.dimensionless_diameter_q_wca D.arithmetic (D.arithmetic.div self.now.state.temperature ((parameters D.arithmetic self.now.mixture).eps_k_ij i j)) ((parameters D.arithmetic self.now.mixture).rep_ij i j) ((parameters D.arithmetic self.now.mixture).att_ij i j);
        } }
    {
        let p = self.parameters;
        let rm = &self.rm_ij;
        let q = &self.q_ij;
        let k = p.mixture.n.row_by_row(i, j);
        let ij = p.pair(i, j);
        Pair {
            rep: ij.rep,
            att: ij.att,
            sigma: ij.sigma,
            epsilon_k: ij.epsilon_k,
            rm: rm[k],
            q: q[k],
        }
    }

    // The hard-sphere term.
    pub fn hard_sphere(&self) -> D
        ensures { result ≡ Spheres.helmholtz_energy_density D.arithmetic self.now.mixture.n (Spheres.spherical D.arithmetic) (F.diameter_wca D.arithmetic (parameters D.arithmetic self.now.mixture) self.now.state.temperature) (state_of D.arithmetic self.now.state) }
    {
        let p = self.parameters;
        spherical(p.mixture.n, &self.d, self.state)
    }
}
