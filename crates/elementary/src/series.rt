// Horner's rule.
ghost use Rattle.std.specs.Prelude.{◌≡◌, ◌<◌, length, drop, slice_index_or, Float};
ghost use Rattle.std.specs.Float.{nan};
ghost use Rattle.arithmetic.specs.Recipes as R;
ghost use Rattle.arithmetic.specs.Doubles.{plain};

// c[0] + z * (c[1] + z * ..) in values of any kind, worked from the last coefficient on: a step is p * z + c, of what was worked so far and the next coefficient.
pub fn horner_by<V: Copy + From<f64>, S: Fn(V, f64) -> V>(c: &[f64], step: S) -> V
    requires some { 0 < length c.now }
    requires callable { S.IsAlwaysCallable step }
    ensures { (of : Float → V) (by : V → Float → V) → ((x : Float) (r : V) → V.from_gives x r → r ≡ of x) → ((p : V) (x : Float) (r : V) → S.post step p x r → r ≡ by p x)
        → result ≡ R.horner_by of by (slice_index_or c.now 0 nan) (drop 1 c.now) }
{
    let last = c.len() - 1;
    let mut p = V::from(c[last]);
    for x in c[..last].iter().rev() {
        p = step(p, *x);
    }
    p
}

// The same in doubles.
pub fn horner(c: &[f64], z: f64) -> f64
    requires { 0 < length c.now }
    ensures { result ≡ R.horner plain z (slice_index_or c.now 0 nan) (drop 1 c.now) }
{
    horner_by(c, |p: f64, x| p * z + x)
}
