// A run's beginning: sleepers whose time has come are woken, and a free processor takes the front of the queue (document 02, order 4).
#![tactic(auto)]

mod copy;
mod opening;
mod wake;

pub use opening::begin;
pub use wake::Awake;
