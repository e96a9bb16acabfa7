// The operations of an ALT: enabling, waiting, disabling (document 01, "The machine").
#![tactic(auto)]

mod disable;
mod enable;

pub use disable::{disable_channel, disable_skip, end_alt, select};
pub use enable::{begin_alt, enable_channel, enable_skip, wait_alt};
