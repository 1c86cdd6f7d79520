// The bits of clientdata's mask.
pub const VIEW_HEIGHT: u16 = 0;

pub const PITCH: u16 = 1;

pub const PUNCH0: u16 = 2;

pub const PUNCH1: u16 = 3;

pub const PUNCH2: u16 = 4;

pub const VELOCITY0: u16 = 5;

pub const VELOCITY1: u16 = 6;

pub const VELOCITY2: u16 = 7;
// The two reserved ones.
pub const RESERVED_LOW: u16 = 8;
// Items, which are sent always.
pub const ITEMS: u16 = 9;

pub const GROUND: u16 = 10;

pub const WATER: u16 = 11;

pub const WEAPON_FRAME: u16 = 12;

pub const ARMOUR: u16 = 13;

pub const WEAPON_MODEL: u16 = 14;

pub const RESERVED_HIGH: u16 = 15;

// Masks without the last are smaller.
pub const MASK_BOUND: u16 = 1 << RESERVED_HIGH;
