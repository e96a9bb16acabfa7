// The processor: the machine's words, its registers, processes, the queue, and held offers (document 01, "The machine").
// That a process runs, and that its place is in the code, stay clauses: what a function answers may not run, so registers of another type
// would be made and left again at each call.
#![tactic(auto)]

mod memory;
mod offer;
mod outside;
mod process;
mod registers;
mod wait;

pub use memory::{
    Step, peek, poke, resume_word, state_word, swap, time_link_word, time_word, undo,
};
pub use offer::held_at;
pub use outside::{notify_wake, wake};
pub use process::{
    end_process, enqueue, jump, land, poke_join, poke_release, release, start_process, stop_process,
};
pub use registers::{goto, stack, work};
pub use wait::{alt_state, poke2_tell};
