// The numbers that document 01 and the requests of document 02 set, as specs/Limits.antt names them. A number of one type that is needed
// at another is made of it.

// Entities: the length of their tables, and the bound of their numbers.
pub const ENTITY_COUNT: usize = 600;

pub const ENTITY_BOUND: u16 = ENTITY_COUNT as u16;

// Player lines, and the highest player limit.
pub const PLAYER_COUNT: usize = 16;

pub const HIGHEST_LIMIT: u8 = PLAYER_COUNT as u8;

pub const STAT_COUNT: usize = 32;

pub const STAT_BOUND: u8 = STAT_COUNT as u8;

pub const STYLE_COUNT: u8 = 64;

// Messages 20 since serverinfo.
pub const STATIC_LIMIT: u8 = 128;

// Names in each list of serverinfo, without the empty one that closes it.
pub const NAME_LIMIT: usize = 255;

// Types of temporary entities.
pub const TEMPORARY_TYPE_COUNT: u8 = 14;

// Message bytes of a block.
pub const BLOCK_LIMIT: u32 = 8000;

// Bytes of a block's head: its size and three angles.
pub const HEAD_SIZE: usize = 16;

// Bytes of the longest track line: a sign, three digits and the line feed.
pub const LONGEST_TRACK_LINE: usize = 5;

pub const PROTOCOL: i32 = 15;

// What a sound and clientdata mean where they do not send it.
pub const DEFAULT_VOLUME: u8 = 255;

pub const DEFAULT_ATTENUATION: u8 = 64;

pub const DEFAULT_VIEW_HEIGHT: i8 = 22;
