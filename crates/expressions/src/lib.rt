// The code of expressions, and of statements without statements inside, as entries of a list of instructions; and the words of names.
// Entries past the list's end are left out, so that the length of a list can be had where it is too long.
// Table and plan stay two parameters: with a struct of both each clause reads `source.now.table.now` for `table.now`, with a view of it
// each proof has one more step.
#![tactic(auto)]

mod emit;
mod expr;
mod sides;
mod simple;
mod words;

pub use emit::{Cursor, distance, minus, operation, plain};
pub use expr::{gen_both, gen_whole};
pub use simple::{gen_input, gen_simple};
pub use words::{Scope, Words, below, channel, enter};
