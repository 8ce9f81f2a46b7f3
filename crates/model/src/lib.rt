// Document 01 as definitions (specs/) and what is proved of them (proofs/). For code, its letters, in ASCII: of the strings hashed, ...
#![tactic(auto)]

pub const LETTER_I: u8 = 0x49;

pub const LETTER_O: u8 = 0x4f;

pub const LETTER_L: u8 = 0x4c;

pub const LETTER_N: u8 = 0x4e;

pub const LETTER_G: u8 = 0x47;

pub const LETTER_P: u8 = 0x50;

pub const LETTER_R: u8 = 0x52;
// ... of a trace's header, and of its records.
pub const LETTER_B: u8 = 0x42;

pub const LETTER_F: u8 = 0x46;

pub const LETTER_E: u8 = 0x45;

pub const LETTER_V: u8 = 0x56;

pub const LETTER_S: u8 = 0x53;

pub const LETTER_T: u8 = 0x54;

pub const LETTER_D: u8 = 0x44;
