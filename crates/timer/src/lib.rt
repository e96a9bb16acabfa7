// The clock's operations and the timer queue (document 02, order 4).
#![tactic(auto)]

mod alt;
mod sleep;
mod walk;

pub use alt::{begin_timed_alt, disable_time, enable_time, wait_timed_alt};
pub use sleep::timer_input;
