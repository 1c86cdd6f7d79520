// Numbers, bytes, messages and scenes on standard output, for the programs whose output is stored. Numbers are decimal; masks and the bits
// of floats have as many hex digits as they have places for. Fields have the names that the second reader has for them.
#![tactic(auto)]

pub mod fields;
pub mod scenes;

ghost use Rattle.std.specs.Prelude.{◌≤◌, length, ◌≡◌, ◌≢◌, ◌<◌, ℕ, slice_index};

use memchr::memchr;
use std::io;

pub fn hex(rt: &impl Print, bytes: &[u8]) -> io::Result<()> {
    for b in bytes {
        print!(rt; "{b:02x}")?;
    }
    Ok(())
}

// The place of the first such byte from a place on, or the end where there is none.
pub fn find(bytes: &[u8], from: usize, b: u8) -> usize
    requires { from ≤ length bytes.now }
    ensures low { from ≤ result }
    ensures high { result ≤ length bytes.now }
    ensures before { (k : ℕ) → from ≤ k → k < result → slice_index bytes.now k ≢ b }
    ensures found { result < length bytes.now → slice_index bytes.now result ≡ b }
{
    match memchr(b, &bytes[from..]) {
        Some(i) => from + i,
        None => bytes.len(),
    }
}

pub fn time(rt: &impl Print, time: Option<u32>) -> io::Result<()> {
    match time {
        None => print!(rt; " time=none"),
        Some(bits) => print!(rt; " time={bits:08x}"),
    }
}
