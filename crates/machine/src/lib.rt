// The machine over lent code and lent memory (document 01, "The machine", "When a call is turned down").
#![tactic(auto)]

mod begin;
mod budget;
mod outside;
mod taking;

pub use begin::{Begun, blank, start};
pub use budget::{Ran, run};
pub use outside::{Offered, offer};
pub use taking::{Took, take};
