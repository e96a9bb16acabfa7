// Document 01's limits.

// The bytes of a table.
pub const TABLE: usize = 16384;

// The bytes of code.
pub const CODE: usize = 16384;

// The words of memory, with outside channels; in 64 bits where they are summed wide, and as a length of memory that serves every program.
pub const WORDS: u32 = 4096;

pub const WIDE_WORDS: u64 = WORDS as u64;

pub const MEMORY: usize = WORDS as usize;

// The deepest statement or expression.
pub const DEPTH: u64 = 32;

// Processes that are live together.
pub const PROCESSES: u32 = 64;

// The registers that an expression's code may use.
pub const REGISTERS: u32 = 3;

// Outside inputs, and outside outputs: as a table's count, and as a start's.
pub const CHANNELS: u64 = 8;

pub const START_CHANNELS: u32 = CHANNELS as u32;

// The slice.
pub const SLICE: u32 = 65535;

// The names of a VAR or CHAN.
pub const NAMES: u64 = 32;

// The parts of a SEQ, an IF or an ALT.
pub const PARTS: u64 = 32;

// The branches of a PAR.
pub const BRANCHES: u64 = 16;

// The bench program's slice, and the instructions after which it stops.
pub const BENCH_SLICE: u32 = 32;

pub const BENCH_BUDGET: u64 = 65536;

// The bench program's clock (document 02, order 4).
pub const BENCH_CLOCK: u32 = 0;
