// Numbers in words.

// What a byte is as a digit.
pub fn digit(b: u8) -> Option<u8> {
    match b {
        b'0'..=b'9' => Some(b - b'0'),
        b'a'..=b'f' => Some(b - b'a' + 10),
        b'A'..=b'F' => Some(b - b'A' + 10),
        _ => None,
    }
}

// A number of at least one digit, of ten or sixteen, that fits 32 bits.
fn read_u32(text: &[u8], base: u8) -> Option<u32> {
    if text.is_empty() {
        return None;
    }
    let mut n: u32 = 0;
    for b in text {
        let d = digit(*b)?;
        if base <= d {
            return None;
        }
        n = n.checked_mul(u32::from(base))?.checked_add(u32::from(d))?;
    }
    Some(n)
}

pub fn decimal(text: &[u8]) -> Option<u32> {
    read_u32(text, 10)
}

pub fn hexadecimal(text: &[u8]) -> Option<u32> {
    read_u32(text, 16)
}

// 0 or 1.
pub fn flag(text: &[u8]) -> Option<bool> {
    match text {
        b"0" => Some(false),
        b"1" => Some(true),
        _ => None,
    }
}
