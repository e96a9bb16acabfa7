// Expressions, and the variables that they use.
ghost use Rattle.std.specs.Prelude.{◌≡◌, ◌+◌, ◌<◌, ◌≤◌, IfOk};
ghost use Rattle.table.specs.Exprs.{single, joined, used_at, expr_at, sides_at, used_uses, expr_uses, sides_use};

use model::kinds::ExprKind;
use numbers::Misread;
use numbers::kinds::{LAST_EXPRESSION, LAST_OPERATOR};

// What is counted of an expression: the place after it, the registers that it needs and the values that it stores (document 02, order 2).
#[derive(Clone, Copy, Debug, PartialEq, Eq)]
pub struct Term {
    pub next: usize,
    pub registers: u32,
    pub stored: u32,
}

// What is counted of a constant or a variable that ends at a place.
fn single(next: usize) -> Term
    ensures { result ≡ single next }
{
    Term {
        next,
        registers: 1,
        stored: 0,
    }
}

// An operator by its sides.
fn join(left: Term, right: Term) -> Term
    requires { left.stored ≤ 32 }
    ensures { result ≡ joined left right }
{
    let order = counts::order_of(left.registers, right.registers);
    let registers = counts::sides_need(left.registers, right.registers);
    let stored = counts::sides_hold(order, left.stored, right.stored);
    Term {
        next: right.next,
        registers,
        stored,
    }
}

// A variable, which is used.
#[tactic(auto, unfolding(crate::specs::Exprs::used_at, crate::specs::Exprs::used_uses))]
fn read_used(table: &[u8], at: usize, variables: u64, sets: &mut [u64; 64]) -> Result<Term, Misread>
    requires { variables ≤ 1024 }
    ensures said { result ≡ used_at variables table.now at }
    ensures uses { sets.new ≡ used_uses variables table.now at sets.old }
{
    let name = numbers::read_name(table, at, variables, 0, 0)?;
    crate::usage::mark(sets, crate::usage::USES, name.value);
    Ok(single(name.next))
}

// What follows an operator's kind: operator, left, right.
#[cycle(read_expr_read_sides)]
#[tactic(auto, unfolding(crate::specs::Exprs::sides_at, crate::specs::Exprs::sides_use))]
fn read_sides(
    table: &[u8],
    at: usize,
    depth: u64,
    variables: u64,
    sets: &mut [u64; 64],
) -> Result<Term, Misread>
    requires { (depth < 32) × (variables ≤ 1024) }
    ensures said { result ≡ sides_at depth variables table.now at }
    ensures uses { sets.new ≡ sides_use depth variables table.now at sets.old }
    ensures within { IfOk result (λ e. e.stored < depth + 1) }
{
    let operator = numbers::read_between(table, at, 0, LAST_OPERATOR)?;
    let left = read_expr(table, operator.next, depth, variables, sets)?;
    let right = read_expr(table, left.next, depth, variables, sets)?;
    Ok(join(left, right))
}

// An expression; the depth left falls at each call.
#[cycle(read_expr_read_sides)]
pub fn read_expr(
    table: &[u8],
    at: usize,
    depth: u64,
    variables: u64,
    sets: &mut [u64; 64],
) -> Result<Term, Misread>
    requires { (depth ≤ 32) × (variables ≤ 1024) }
    ensures said { result ≡ expr_at depth variables table.now at }
    ensures uses { sets.new ≡ expr_uses depth variables table.now at sets.old }
    ensures within { IfOk result (λ e. e.stored < depth) }
{
    if depth == 0 {
        return Err(numbers::read_deep(table, at));
    }
    let number = numbers::read_between(table, at, 0, LAST_EXPRESSION)?;
    match numbers::kinds::expr_kind(number.value) {
        ExprKind::Constant => {
            let constant = numbers::read_between(table, number.next, 0, 4294967295)?;
            Ok(single(constant.next))
        }
        ExprKind::Variable => read_used(table, number.next, variables, sets),
        ExprKind::Not => read_expr(table, number.next, depth - 1, variables, sets),
        ExprKind::Binary => read_sides(table, number.next, depth - 1, variables, sets),
    }
}
