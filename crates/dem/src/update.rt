// The bits of an update's mask: 0 to 6 are those of its number, 8 to 15 those of the byte behind it.

// A byte of mask bits follows.
pub const HIGH: u16 = 0;

pub const X: u16 = 1;

pub const Y: u16 = 2;

pub const Z: u16 = 3;

pub const ANGLE1: u16 = 4;
// Yes or no of the record.
pub const RECORD: u16 = 5;

pub const FRAME: u16 = 6;

pub const ANGLE0: u16 = 8;

pub const ANGLE2: u16 = 9;

pub const MODEL: u16 = 10;

pub const COLORMAP: u16 = 11;

pub const SKIN: u16 = 12;

pub const EFFECTS: u16 = 13;
// The entity is sent in two bytes.
pub const WIDE: u16 = 14;

pub const RESERVED: u16 = 15;

// Masks without it are smaller.
pub const MASK_BOUND: u16 = 1 << RESERVED;

// The same bit in the byte behind the number.
pub const RESERVED_IN_HIGH: u16 = RESERVED - 8;
