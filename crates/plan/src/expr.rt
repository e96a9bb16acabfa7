// What is known of expressions before their code is made (document 02, order 2): a plan has an entry at the first place of each.
ghost use Rattle.std.specs.Prelude.{◌≡◌};
ghost use Rattle.plan.specs.Entries.{entry as entry_of, next_in, registers_in, stored_in, plan_at, put_at, sides_held, sides_entry};
ghost use Rattle.plan.specs.Entries.{entered, expr_entered, sides_entered, inner_entered};

use crate::Plan;
use model::kinds::ExprKind;

// An entry: the place after an expression, its registers and its stored values.
#[tactic(auto, unfolding(crate::specs::Entries::entry))]
fn entry(next: usize, registers: u32, stored: u32) -> u32
    ensures { result ≡ entry_of next registers stored }
{
    let place = (next % 4194304) as u32;
    let rest = place * 1024 + registers % 4 * 256;
    if stored < 255 {
        return rest + stored;
    }
    rest + 255
}

// The parts of an entry: the place after the expression, its registers, its stored values.
pub fn next_in(entry: u32) -> usize
    ensures { result ≡ next_in entry }
{
    (entry / 1024) as usize
}

pub fn registers_in(entry: u32) -> u32
    ensures { result ≡ registers_in entry }
{
    entry / 256 % 4
}

pub fn stored_in(entry: u32) -> u32
    ensures { result ≡ stored_in entry }
{
    entry % 256
}

// What a plan has at a place; 0 past its end.
#[tactic(auto, unfolding(crate::specs::Entries::plan_at))]
pub fn entry_at(plan: &Plan, at: usize) -> u32
    ensures { result ≡ plan_at plan.now at }
{
    if at < model::limits::TABLE {
        plan[at]
    } else {
        0
    }
}

// The values that two sides hold together, by their entries.
pub fn sides_held(left: u32, right: u32) -> u32
    ensures { result ≡ sides_held left right }
{
    let order = counts::order_of(registers_in(left), registers_in(right));
    counts::sides_hold(order, stored_in(left), stored_in(right))
}

// An operator by the entries of its sides.
fn sides_entry(left: u32, right: u32) -> u32
    ensures { result ≡ sides_entry left right }
{
    let registers = counts::sides_need(registers_in(left), registers_in(right));
    entry(next_in(right), registers, sides_held(left, right))
}

// A plan with the entry of one place more.
#[tactic(auto, unfolding(crate::specs::Entries::put_at))]
pub fn put_entry(plan: &mut Plan, at: usize, entry: u32)
    ensures { plan.new ≡ put_at at entry plan.old }
{
    if at < model::limits::TABLE {
        plan[at] = entry;
    }
}

// What follows an operator's kind: operator, left, right.
#[cycle(measure_expr_measure_sides)]
fn measure_sides(table: &[u8], plan: &mut Plan, at: usize, depth: u64) -> u32
    ensures { entered result plan.new ≡ sides_entered (inner_entered depth table.now) table.now at
        plan.old }
{
    let first = numbers::skip(table, at);
    let left = measure_expr(table, plan, first, depth);
    let right = measure_expr(table, plan, next_in(left), depth);
    sides_entry(left, right)
}

// An expression, and those in it; the depth left falls at each call.
#[cycle(measure_expr_measure_sides)]
pub fn measure_expr(table: &[u8], plan: &mut Plan, at: usize, depth: u64) -> u32
    ensures { entered result plan.new ≡ expr_entered depth table.now at plan.old }
{
    if depth == 0 {
        return entry(at, 1, 0);
    }
    let number = numbers::value_at(table, at);
    let next = number.next;
    let own = match numbers::kinds::expr_kind(number.value as u64) {
        ExprKind::Constant | ExprKind::Variable => entry(numbers::skip(table, next), 1, 0),
        ExprKind::Not => measure_expr(table, plan, next, depth - 1),
        ExprKind::Binary => measure_sides(table, plan, next, depth - 1),
    };
    put_entry(plan, at, own);
    own
}
