// The plan of a table: what is known of its expressions and statements before their code is made. It has an entry at the first place of
// each: of an expression the place after it, its registers and its stored values; of a statement the place after it and its words.
#![tactic(auto)]

ghost use Rattle.std.specs.Prelude.{◌≡◌};
ghost use Rattle.plan.specs.Extents.{table_plan};

mod expr;
mod extent;

pub use expr::{entry_at, next_in, registers_in, sides_held, stored_in};
pub use extent::{Extent, extent_in};

// An entry for each place of the longest table. It stays packed into 32 bits: an enum of the two kinds takes 48, which is 32 KB more of the
// stack than a compilation may take.
pub type Plan = [u32; model::limits::TABLE];

// The plan of a table that was read: each expression and each statement is measured once.
pub fn make_plan(table: &[u8], plan: &mut Plan)
    ensures { plan.new ≡ table_plan table.now plan.old }
{
    let at = numbers::skip(table, numbers::skip(table, 0));
    crate::extent::measure_stmt(table, plan, at, model::limits::DEPTH);
}
