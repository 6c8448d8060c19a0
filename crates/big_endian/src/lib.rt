// Numbers and doubles as bytes, the most significant first: read and written.
#![tactic(auto)]

ghost use Rattle.std.specs.Prelude.{◌≡◌, ◌+◌, ◌≤◌, ◌<◌, ◌++◌, length, take, drop};
ghost use Rattle.big_endian.specs.Bytes.{big_endian, double_at, double_bytes};

use std::num::{f64_from_bits_with_nan, f64_to_bits_with_nan};

// A length: the number that two bytes are.
#[tactic(auto, unfolding(crate::specs::Bytes::big_endian))]
pub fn big_endian2(bytes: &[u8], at: usize) -> usize
    requires { at + 2 ≤ length bytes.now }
    ensures { (result ≡ big_endian bytes.now at 2) × (result < 65536) }
{
    u16::from_be_bytes([bytes[at], bytes[at + 1]]) as usize
}

// The double in eight bytes. A NaN's pattern gives a NaN, without its sign and payload.
#[tactic(auto, unfolding(crate::specs::Bytes::double_at, crate::specs::Bytes::big_endian))]
pub fn double_at(bytes: &[u8], at: usize) -> f64
    requires { at + 8 ≤ length bytes.now }
    ensures { result ≡ double_at bytes.now at }
{
    let pattern: [u8; 8] = bytes[at..at + 8].try_into().unwrap();
    f64_from_bits_with_nan(u64::from_be_bytes(pattern))
}

// Writes a double into the eight bytes from `at` on. Every NaN has one pattern.
#[tactic(auto, unfolding(crate::specs::Bytes::double_bytes, crate::specs::Bytes::bytes_of))]
pub fn put_double(buffer: &mut [u8], at: usize, x: f64)
    requires { at + 8 ≤ length buffer.old }
    ensures { buffer.new ≡ take at buffer.old ++ double_bytes x ++ drop (at + 8) buffer.old }
{
    buffer[at..at + 8].copy_from_slice(&f64_to_bits_with_nan(x).to_be_bytes());
}
