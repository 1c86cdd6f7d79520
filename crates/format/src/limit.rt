// Bytes of a string, with its zero: specs/Limits.antt.
pub const STRING_LIMIT: usize = 2047;

// The bits of infinity: those of each time are smaller, as specs/Floats.antt tells a time.
pub const TIME_BOUND: u32 = 2139095040;
