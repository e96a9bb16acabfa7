// Communication: IN and OUTWORD (document 01, "The machine").
#![tactic(auto)]

mod receiver;
mod sender;
mod wait;

pub use receiver::{input, receive};
pub use sender::output;
