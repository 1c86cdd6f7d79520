// A reader into an array, piece by piece.
#![tactic(auto)]

ghost use Rattle.std.specs.Prelude.{◌≡◌, ◌≤◌, length, take, drop};
ghost use Rattle.std.specs.Io.KnownBytes.{Consumes, IsAtEnd};
ghost use Rattle.input_pieces.specs.declared.Stop.TheVariants.{Full, Ended};

use std::io::Read;

// Why no more was read: the array is full, the input ended, or a read failed.
#[derive(Clone, Copy, PartialEq, Eq, Debug)]
pub enum Stop {
    Full,
    Ended,
    Failed,
}

// How many bytes an array holds, and why not more. No `io::Result`: what a reader gave before it failed is told too, which may not change (the
// clause `bytes` of `fill`). A length beside an array of the caller's: a rule of the project, no heap.
#[derive(Clone, Copy)]
pub struct Filled {
    pub len: usize,
    pub stop: Stop,
}

// Reads into an array from a place on, until it is full or the input ends. Behind that place stands what the reader gave, also where a read
// failed.
pub fn fill<R: Read>(reader: &mut R, room: &mut [u8], from: usize) -> Filled
    requires { from ≤ length room.old }
    ensures within { result.len ≤ length room.old }
    ensures same_length { length room.new ≡ length room.old }
    ensures low { from ≤ result.len }
    ensures front { take from room.new ≡ take from room.old }
    ensures bytes { Consumes (R.remaining reader.old) (R.remaining reader.new) (drop from (take result.len room.new)) }
    ensures end { result.stop ≡ Ended → IsAtEnd (R.remaining reader.new) }
    ensures full { result.stop ≡ Full → result.len ≡ length room.old }
{
    let mut len = from;
    // It moves on by what a read gave: no index is counted.
    while len < room.len() {
        match reader.read(&mut room[len..]) {
            Ok(0) => {
                return Filled {
                    len,
                    stop: Stop::Ended,
                };
            }
            Ok(n) => len += n,
            Err(_) => {
                return Filled {
                    len,
                    stop: Stop::Failed,
                };
            }
        }
    }
    Filled {
        len,
        stop: Stop::Full,
    }
}
