// The layout of a case record: its header, the places of its doubles, its length.
ghost use Rattle.std.specs.Prelude.{◌≡◌, ◌≤◌, cond, length};
ghost use Rattle.case_record.specs.Layout.{header_of, is_perturbation, layout_of, length_of, l_pairs, pairs, perturbation_of};

use uvtheory::components::Components;
use uvtheory::eos::Perturbation;

// What a record says of itself, behind its length.
#[derive(Clone, Copy, Debug, PartialEq, Eq)]
pub struct Header {
    pub version: u8,
    pub perturbation: u8,
    pub n: usize,
}

// Where the fields behind the substances begin, counted in doubles behind n, and how many doubles there are.
#[derive(Clone, Copy, Debug, PartialEq, Eq)]
pub struct Layout {
    pub k_ij: usize,
    pub l_ij: usize,
    pub temperature: usize,
    pub partial_density: usize,
    pub molefracs: usize,
    pub doubles: usize,
}

pub fn header_of(record: &[u8]) -> Header
    requires { 5 ≤ length «record».now }
    ensures { result ≡ header_of «record».now }
{
    Header {
        version: record[2],
        perturbation: record[3],
        n: record[4] as usize,
    }
}

// The perturbation that a byte names, if there is one.
pub fn perturbation_named(byte: u8) -> Option<Perturbation>
    ensures { result ≡ cond (is_perturbation byte) (Some (perturbation_of byte)) None }
{
    match byte {
        0 => Some(Perturbation::BarkerHenderson),
        1 => Some(Perturbation::WeeksChandlerAndersen),
        2 => Some(Perturbation::WeeksChandlerAndersenB3),
        _ => None,
    }
}

// The same, where check 4 has passed the byte; any other counts as WCA-B3.
pub fn perturbation_of(byte: u8) -> Perturbation
    ensures { result ≡ perturbation_of byte }
{
    perturbation_named(byte).unwrap_or(Perturbation::WeeksChandlerAndersenB3)
}

// How many pairs i below j there are.
pub fn pairs(n: Components) -> usize
    ensures { (result ≡ pairs n) × (result ≤ 28) }
{
    let n = n.get();
    n * n.saturating_sub(1) / 2
}

// How many l_ij there are: one for each pair in version 2, and none in version 1.
pub fn l_pairs(h: Header) -> usize
    requires { h.n ≤ 8 }
    ensures { (result ≡ l_pairs h) × (result ≤ 28) }
{
    if h.version == 2 {
        pairs(Components::new(h.n))
    } else {
        0
    }
}

pub fn layout_of(h: Header) -> Layout
    requires { h.n ≤ 8 }
    ensures { result ≡ layout_of h }
{
    let n = h.n;
    let k_ij = 4 * n;
    let l_ij = k_ij + pairs(Components::new(n));
    let temperature = l_ij + l_pairs(h);
    let partial_density = temperature + 1;
    let molefracs = partial_density + n;
    let doubles = molefracs + n;
    Layout {
        k_ij,
        l_ij,
        temperature,
        partial_density,
        molefracs,
        doubles,
    }
}

// The length that a record with this header has.
pub fn length_of(h: Header) -> usize
    requires { h.n ≤ 8 }
    ensures { result ≡ length_of h }
{
    let l = layout_of(h);
    3 + 8 * l.doubles
}
