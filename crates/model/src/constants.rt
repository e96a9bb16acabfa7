// The words that the machine tells apart (document 01, "Workspace and code", "The machine").

// NotProcess: a channel's word where no process is.
pub const NOT_PROCESS: u32 = 0x80000000;

// The states of an ALT, in W - 3.
pub const ENABLING: u32 = 0x80000001;

pub const WAITING: u32 = 0x80000002;

pub const READY: u32 = 0x80000003;

// Whether an ALT has a time, in W - 4 while its process is in no timer queue (document 02, order 4).
pub const TIME_SET: u32 = 0x80000001;

pub const TIME_NOT_SET: u32 = 0x80000002;

// In W + 0 while no branch of an ALT is chosen.
pub const NONE_SELECTED: u32 = 0xffffffff;

// The bytes of a word: the only count that IN has.
pub const WORD_BYTES: u32 = 4;
