// The codes of INMOS's guide for the instructions that document 01 uses. They stay numbers: a byte of code may have any function, and an
// operand of OPR may be any word.

// Direct functions, in the high four bits of a byte.
pub const J: u8 = 0x00;

pub const LDLP: u8 = 0x10;

pub const LDC: u8 = 0x40;

pub const LDL: u8 = 0x70;

pub const CJ: u8 = 0xa0;

pub const AJW: u8 = 0xb0;

pub const EQC: u8 = 0xc0;

pub const STL: u8 = 0xd0;

pub const OPR: u8 = 0xf0;

// Operations, the operands of OPR.
pub const REV: u32 = 0x00;

pub const ENDP: u32 = 0x03;

pub const DIFF: u32 = 0x04;

pub const IN: u32 = 0x07;

pub const PROD: u32 = 0x08;

pub const GT: u32 = 0x09;

pub const STARTP: u32 = 0x0d;

pub const OUTWORD: u32 = 0x0f;

pub const STOPP: u32 = 0x15;

pub const LDPI: u32 = 0x1b;

pub const DISC: u32 = 0x2f;

pub const DISS: u32 = 0x30;

pub const XOR: u32 = 0x33;

pub const MINT: u32 = 0x42;

pub const ALT: u32 = 0x43;

pub const ALTWT: u32 = 0x44;

pub const ALTEND: u32 = 0x45;

pub const AND: u32 = 0x46;

pub const ENBC: u32 = 0x48;

pub const ENBS: u32 = 0x49;

pub const OR: u32 = 0x4b;

pub const SUM: u32 = 0x52;

// Of the clock (document 02, order 4).
pub const LDTIMER: u32 = 0x22;

pub const TIN: u32 = 0x2b;

pub const DIST: u32 = 0x2e;

pub const ENBT: u32 = 0x47;

pub const TALT: u32 = 0x4e;

pub const TALTWT: u32 = 0x51;
