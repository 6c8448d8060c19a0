// Horner's rule in ranges.
ghost use Rattle.std.specs.Prelude.{◌≡◌, ◌<◌, length, slice_index_or, drop};
ghost use Rattle.std.specs.Float.{nan};
ghost use Rattle.arithmetic.specs.Recipes as R;
ghost use Rattle.range.specs.Rules.{rules};

use range::basic::{LARGEST, Range, neighbours, product_of, sum_of};

// p * z + c, of any ranges.
fn step_of(p: Range, z: Range, c: f64) -> Range
    ensures { result ≡ rules.add (rules.mul p z) (rules.constant c) }
{
    sum_of(product_of(p, z), Range::from(c))
}

// p * z + c for a z below 0. Where p is above 0, p * z is -(p * w) with w = -z; where c outweighs that, the sum is above 0.
fn step_below(p: Range, z: Range, c: f64) -> Range
    ensures { result ≡ rules.add (rules.mul p z) (rules.constant c) }
{
    let w = Range {
        lower: -z.upper,
        upper: -z.lower,
    };
    if p.is_positive() && w.is_positive() {
        let q = p * w;
        let l = -q.upper + c;
        let u = -q.lower + c;
        if q.lower > 0.0 && c > 0.0 && l > 0.0 && l <= u && u < LARGEST {
            return neighbours(l, u);
        }
    }
    step_of(p, z, c)
}

// p * z + c, the shorter way for a z of one sign.
fn step(p: Range, z: Range, c: f64) -> Range
    ensures { result ≡ rules.add (rules.mul p z) (rules.constant c) }
{
    if z.upper < 0.0 {
        return step_below(p, z, c);
    }
    if z.lower > 0.0 {
        return p * z + Range::from(c);
    }
    step_of(p, z, c)
}

// c[0] + z * (c[1] + z * ..), worked from the last coefficient on.
pub fn horner(c: &[f64], z: Range) -> Range
    requires { 0 < length c.now }
    ensures { result ≡ R.horner rules z (slice_index_or c.now 0 nan) (drop 1 c.now) }
{
    elementary::series::horner_by(c, |p: Range, x| step(p, z, x))
}
