// Text for the test programs: lines of numbers from standard input, the numbers of a line, and numbers and bytes to standard output.
#![tactic(auto)]

mod numbers;
mod reading;
mod writing;

pub use numbers::{at, flag, front, least, rest, to_bytes, word};
pub use reading::{Line, begin, next_line, read_full, row};
pub use writing::{print, print_bytes, print_hex, print_word, show, write};

// The characters that are read at a time.
pub const CHARACTERS: usize = 65536;

// The numbers of a line for which there is room: more than the longest table has bytes.
pub const NUMBERS: usize = 32768;
