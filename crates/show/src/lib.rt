// Calls of a machine with their answers as text, machines and memories, for the test programs.
#![tactic(auto)]

mod answers;
mod calls;
mod course;
mod machines;
mod memory;

pub use answers::{Hex, Standing};
pub use calls::{offer, run, take};
pub use course::{Course, begin, go_on, start_program};
pub use machines::print_machine;
pub use memory::{fill, print_value, sum};
