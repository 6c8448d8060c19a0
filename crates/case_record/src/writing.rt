// The record of a mixture and a state, written: what case.rt reads.
ghost use Rattle.std.specs.Prelude.{◌≡◌, ◌+◌, ◌/◌, ◌%◌, ◌≤◌, ◌<◌, length, get_or};
ghost use Rattle.std.specs.Float.{nan};
ghost use Rattle.big_endian.specs.Bytes.{written};
ghost use Rattle.case_record.specs.Layout.{layout_of, length_of};
ghost use Rattle.case_record.specs.Writing.{double_of, field_of, header_bytes, record_bytes};

use crate::layout::{Header, layout_of, length_of};
use big_endian::put_double;
use uvtheory::parameters::{Mixture, State};

// What a record holds: a mixture and a state, with a header of at most 8 substances.
#[derive(Clone, Copy)]
pub struct Contents {
    pub header: Header,
    pub mixture: Mixture,
    pub state: State<f64>,
    pub ghost few: { header.n ≤ 8 },
}

// The k-th double of the substances: the four fields of the first, then those of the second, ..
fn substance_double(m: &Mixture, k: usize) -> f64
    requires { k < 32 }
    ensures { result ≡ get_or (field_of m.now (k % 4)) (k / 4) nan }
{
    let i = k / 4;
    match k % 4 {
        0 => m.rep[i],
        1 => m.att[i],
        2 => m.sigma[i],
        _ => m.epsilon_k[i],
    }
}

// The k-th double of the record, counted from 0.
#[tactic(auto, unfolding(crate::specs::Writing::double_of), using(crate::proofs::Sizes::few_pairs, crate::proofs::Sizes::few_l_pairs))]
fn double_of(c: &Contents, k: usize) -> f64
    requires { k < (layout_of c.now.header).doubles }
    ensures { result ≡ double_of c.now.header c.now.mixture c.now.state k }
{
    let l = layout_of(c.header);
    if k < l.k_ij {
        return substance_double(&c.mixture, k);
    }
    if k < l.l_ij {
        return c.mixture.k_ij[k - l.k_ij];
    }
    if k < l.temperature {
        return c.mixture.l_ij[k - l.l_ij];
    }
    if k < l.partial_density {
        return c.state.temperature;
    }
    if k < l.molefracs {
        return c.state.partial_density[k - l.partial_density];
    }
    c.state.molefracs[k - l.molefracs]
}

// Length, version, perturbation and n.
#[tactic(auto, unfolding(big_endian::specs::Bytes::bytes_of), using(crate::proofs::Sizes::few_doubles))]
fn put_header(out: &mut [u8], h: Header)
    requires { (h.n ≤ 8) × (5 ≤ length out.old) }
    ensures { out.new ≡ written out.old (header_bytes h) }
{
    let [high, low] = (length_of(h) as u16).to_be_bytes();
    out[..5].copy_from_slice(&[high, low, h.version, h.perturbation, h.n as u8]);
}

// Writes the record over the buffer's first bytes.
#[tactic(auto, unfolding(crate::specs::Record::values), using(crate::proofs::Pieces::whole_record, big_endian::proofs::Written::none_yet))]
pub fn write_record(out: &mut [u8], c: &Contents)
    requires { 2 + length_of c.now.header ≤ length out.old }
    ensures { out.new ≡ written out.old (record_bytes c.now.header c.now.mixture c.now.state) }
{
    put_header(out, c.header);
    for k in 0..layout_of(c.header).doubles {
        put_double(out, 5 + 8 * k, double_of(c, k));
    }
}
