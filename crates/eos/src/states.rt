// The states that the formulas take: as sent, and as sent with densities that start with slopes.
ghost use Rattle.std.specs.Prelude.{◌≡◌, ◌<◌};
ghost use Rattle.dual.specs.Rules.{guarded_slopes, plain, start};
ghost use Rattle.uvtheory.specs.Rows.{doubles};
ghost use Rattle.uvtheory.specs.Inputs.{state, state_of};
ghost use Rattle.eos.specs.Slopes as Slopes;

use dual::basic::Dual;
use num_dual::dual_num::DualNum;
use uvtheory::arrays::{constants, each};
use uvtheory::components::Components;
use uvtheory::parameters::State;

// As sent.
pub fn sent<D: DualNum>(s: &State<f64>) -> State<D>
    ensures { state_of D.arithmetic result ≡ state D.arithmetic s.now }
{
    State {
        temperature: D::from(s.temperature),
        partial_density: constants(&s.partial_density),
        molefracs: constants(&s.molefracs),
    }
}

// A density, with the slope of its own fraction.
#[tactic(auto, unfolding(dual::specs::Rules::start))]
fn start(density: f64, fraction: f64) -> Dual
    ensures { result ≡ start plain density fraction }
{
    Dual {
        value: density,
        slope: fraction,
    }
}

// As sent, its densities with their slopes.
pub fn started(s: &State<f64>) -> State<Dual>
    ensures { state_of guarded_slopes result ≡ Slopes.started plain s.now }
{
    let d = &s.partial_density;
    let x = &s.molefracs;
    State {
        temperature: Dual::from(s.temperature),
        partial_density: each(
            Components::new(8),
            |i: usize| -> Dual
                requires { i < 8 }
                ensures { result ≡ start plain (doubles d.entry.now i) (doubles x.entry.now i) }
            { start(d[i], x[i]) },
        ),
        molefracs: constants(x),
    }
}
