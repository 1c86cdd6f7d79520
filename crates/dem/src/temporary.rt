// The type of a temporary entity that has colours.
pub const EXPLOSION2: u8 = 12;
