// A mixture in a state, with what its contributions by Barker-Henderson share.
ghost use Rattle.std.specs.Prelude.{◌≡◌, ◌<◌};
ghost use Rattle.uvtheory.specs.Rows.{row};
ghost use Rattle.uvtheory.specs.Inputs.{parameters};
ghost use Rattle.uvtheory.specs.Bh.HardSphere as F;

use crate::hard_sphere::diameter_bh;
use num_dual::dual_num::DualNum;
use std::marker::Model;
use uvtheory::parameters::{State, UVTheoryPars};

// The diameters are worked once. A clause sees the mixture and the state.
#[derive(Drop)]
pub struct BarkerHenderson<'a, D: DualNum> {
    pub parameters: &'a UVTheoryPars<D>,
    pub state: &'a State<D>,
    pub d: [D; 8],
}

impl<'a, D: DualNum> Model for BarkerHenderson<'a, D> {
    ghost use Rattle.uvtheory.specs.Inputs.{MixtureState};

    ghost Value = { MixtureState D };

    ghost use Rattle.uvtheory.specs.Inputs.{parameters as of};
    ghost use Rattle.uvtheory.specs.Rows.{Row};
    ghost use Rattle.uvtheory.specs.Bh.HardSphere.{diameter_bh};

    ghost view = { λ b. record { mixture = b.parameters.now; state = b.state.now } };

    ghost invariant = { λ b. Row D.arithmetic b.parameters.now.n b.d (diameter_bh D.arithmetic (of D.arithmetic b.parameters.now) b.state.now.temperature) };
}

// The values of a component: fraction, diameter and sigma.
#[derive(Clone, Copy)]
pub struct Component<D> {
    pub x: D,
    pub d: D,
    pub sigma: D,
}

// Of the k-th, by rows.
#[inline(always)]
pub fn component_of<D: DualNum>(k: usize, x: &[D; 8], d: &[D; 8], sigma: &[D; 8]) -> Component<D>
    requires { k < 8 }
    ensures { result ≡ record { x = row D.arithmetic x.entry.now k; d = row D.arithmetic d.entry.now k; sigma = row D.arithmetic sigma.entry.now k } }
{
    Component {
        x: x[k],
        d: d[k],
        sigma: sigma[k],
    }
}

impl<'a, D: DualNum> BarkerHenderson<'a, D> {
    #[tactic(auto, using(uvtheory::proofs::Sizes::parameters_fit))]
    pub fn new(parameters: &'a UVTheoryPars<D>, state: &'a State<D>) -> BarkerHenderson<'a, D>
        ensures { result ≡ record { mixture = parameters.entry.now; state = state.entry.now } }
    {
        BarkerHenderson {
            parameters,
            state,
            d: diameter_bh(parameters, state.temperature),
        }
    }

    #[inline(always)]
    #[tactic(auto, using(uvtheory::proofs::Sizes::parameters_fit))]
    pub fn component(&self, i: usize) -> Component<D>
        requires { i < self.now.mixture.n }
        ensures { result ≡ record { x = row D.arithmetic self.now.state.molefracs i; d = F.diameter_bh D.arithmetic (parameters D.arithmetic self.now.mixture) self.now.state.temperature i; sigma = (parameters D.arithmetic self.now.mixture).sigma i } }
    {
        let p = self.parameters;
        let x = &self.state.molefracs;
        let d = &self.d;
        component_of(p.mixture.n.in_row(i), x, d, &p.sigma)
    }
}
