// The bytes of a line in hex. Small letters alone, unlike `demgiven`'s: what may not change is that a capital one is passed over.

fn digit(b: u8) -> Option<u8> {
    match b {
        b'0'..=b'9' => Some(b - b'0'),
        b'a'..=b'f' => Some(b - b'a' + 10),
        _ => None,
    }
}

// Two digits are a byte; what is no digit is passed, and so is the line's letter. How many bytes there are, as far as the array takes them.
pub fn decode(text: &[u8], out: &mut [u8]) -> usize {
    let mut count = 0;
    let mut first = None;
    for b in text.iter().skip(1) {
        first = match (first, digit(*b)) {
            (Some(high), Some(low)) => {
                let Some(place) = out.get_mut(count) else {
                    return count;
                };
                *place = (high % 16) * 16 + low % 16;
                count += 1;
                None
            }
            (None, Some(high)) => Some(high),
            (_, None) => first,
        };
    }
    count
}

// The byte at a place, or 0 behind the last.
pub fn byte_at(bytes: &[u8], i: usize) -> u8 {
    bytes.get(i).copied().unwrap_or(0)
}

// ---- packed bytes

// No recording here is longer.
const LONGEST: usize = 8192;

// Runs, one behind the other: a length (two bytes), how many bytes repeat (one), and these. How many bytes there are in all.
pub fn unpack(packed: &[u8], out: &mut [u8]) -> usize {
    let mut from = 0;
    let mut at = 0;
    // It moves on by a run's length: no index is counted.
    while from < packed.len() && from < LONGEST {
        let length = [byte_at(packed, from), byte_at(packed, from + 1)];
        let count = usize::from(u16::from_be_bytes(length));
        let size = usize::from(byte_at(packed, from + 2));
        for (i, place) in out.iter_mut().skip(at).take(count).enumerate() {
            if let Some(turn) = i.checked_rem(size) {
                *place = byte_at(packed, from + 3 + turn);
            }
        }
        at = LONGEST.min(at + count);
        from += 3 + size;
    }
    at
}
