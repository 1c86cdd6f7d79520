// The message numbers. Constants and no enum, which would be no plainer: they are matched on a message's first byte, and what was read is a
// variant of `dem_types::Message`.
pub const NOP: u8 = 1;

pub const DISCONNECT: u8 = 2;

pub const STAT: u8 = 3;

pub const VERSION: u8 = 4;

pub const VIEW: u8 = 5;

pub const SOUND: u8 = 6;

pub const TIME: u8 = 7;

pub const PRINT: u8 = 8;

pub const STUFFTEXT: u8 = 9;

pub const SET_ANGLES: u8 = 10;

pub const SERVERINFO: u8 = 11;

pub const STYLE: u8 = 12;

pub const NAME: u8 = 13;

pub const FRAGS: u8 = 14;

pub const CLIENTDATA: u8 = 15;

pub const STOPSOUND: u8 = 16;

pub const COLOURS: u8 = 17;

pub const PARTICLE: u8 = 18;

pub const DAMAGE: u8 = 19;

pub const STATIC: u8 = 20;

pub const BASELINE: u8 = 22;

pub const TEMPORARY: u8 = 23;

pub const PAUSE: u8 = 24;

pub const SIGNON: u8 = 25;

pub const CENTERPRINT: u8 = 26;

pub const KILLED: u8 = 27;

pub const SECRET: u8 = 28;

pub const STATIC_SOUND: u8 = 29;

pub const INTERMISSION: u8 = 30;

pub const FINALE: u8 = 31;

pub const TRACK: u8 = 32;

pub const SELLSCREEN: u8 = 33;

pub const CUTSCENE: u8 = 34;

// The first update.
pub const UPDATE: u8 = 128;
