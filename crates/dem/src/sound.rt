// The bits of a sound's mask. The others are reserved: a mask is below the bound.
pub const VOLUME: u16 = 0;

pub const ATTENUATION: u16 = 1;

pub const MASK_BOUND: u8 = 4;

// Channels. A channel and an entity are sent as one number: the entity times their count, and the channel.
pub const CHANNEL_COUNT: u16 = 8;

pub const CHANNEL_BOUND: u8 = CHANNEL_COUNT as u8;

pub const CHANNEL_FACTOR: u32 = CHANNEL_COUNT as u32;
