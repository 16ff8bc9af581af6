// The kinds of document 01 by name.

// "1 register in the R place (`RegRRR`), 2 register in the M place; immediates 3 i8, 4 i16, 5 i32, 6 u8, 7 u16, 8 u32; memory: 9
// absolute u16, 10 absolute u32, 11 `[r]`, 12 `[r disp]`, 13 index and scale, 14 the same with disp, 15 base, index and scale, 16 the
// same with disp"
pub const REGISTER_R: u8 = 1;

pub const REGISTER_M: u8 = 2;

pub const I8: u8 = 3;

pub const I16: u8 = 4;

pub const I32: u8 = 5;

pub const U8: u8 = 6;

pub const U16: u8 = 7;

pub const U32: u8 = 8;

pub const ABSOLUTE_16: u8 = 9;

pub const ABSOLUTE_32: u8 = 10;

pub const BASE: u8 = 11;

pub const BASE_DISP: u8 = 12;

pub const INDEX: u8 = 13;

pub const INDEX_DISP: u8 = 14;

pub const BASE_INDEX: u8 = 15;

pub const BASE_INDEX_DISP: u8 = 16;

// Document 02: "kinds 17 to 22, being 11 to 16 with a mask"
pub const MASKED_LEAST: u8 = 17;

pub const MASKED_MOST: u8 = 22;
