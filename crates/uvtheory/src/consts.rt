// The constants of std::f64::consts that the Rust uses, with its digits. FRAC_PI_6 is not PI / 6.0: they differ in the last bit.
pub const PI: f64 = 3.14159265358979323846264338327950288;

pub const FRAC_PI_3: f64 = 1.04719755119659774615421446109316763;

pub const FRAC_PI_6: f64 = 0.52359877559829887307710723054658381;
