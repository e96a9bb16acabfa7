// What each instruction does, and one byte of code (document 01, "The machine"; INMOS's guide).
// What a byte sees stays parameters: registers by value are the fastest (docs/DECISIONS.md 48), and with the rest in a struct that is lent
// every function between a run's loop and an operation would promise something else (109).
#![tactic(auto)]

mod bytes;
mod execute;
mod functions;

pub use bytes::step;
