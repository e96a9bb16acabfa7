// The code of expressions.
ghost use Rattle.std.specs.Prelude.{◌≡◌};
ghost use Rattle.expressions.specs.Emits.{at as standing};
ghost use Rattle.expressions.specs.Names.{WithVariables};
ghost use Rattle.expressions.specs.Exprs.{wrote, operator_into, constant_into, variable_into, sides_into, operated_into, inner_at};
ghost use Rattle.expressions.specs.Exprs.{expr_into, lowering, adjust_into, whole_into, both_into};

use crate::emit::Cursor;
use crate::sides::Pair;
use crate::words::{Scope, Words};
use crate::{emit, sides, words};
use assembler::Entry;
use instruction::codes;
use model::kinds::{ExprKind, Operator};

// The workspace, the values held before, and how many variables are in scope.
#[derive(Clone, Copy)]
struct Frame {
    w: u32,
    held: u32,
    variables: u32,
}

// An operator; EQ is DIFF, EQC 0.
#[tactic(auto, unfolding(crate::specs::Exprs::operator_into))]
fn gen_operator(operator: Operator, list: &mut [Entry], here: u32) -> u32
    ensures { standing result list.new ≡ operator_into operator (standing here list.old) }
{
    match operator {
        Operator::Plus => emit::operation(list, here, codes::SUM),
        Operator::Minus => emit::operation(list, here, codes::DIFF),
        Operator::Times => emit::operation(list, here, codes::PROD),
        Operator::Gt => emit::operation(list, here, codes::GT),
        Operator::Eq => {
            let next = emit::operation(list, here, codes::DIFF);
            emit::plain(list, next, codes::EQC, 0)
        }
        Operator::And => emit::operation(list, here, codes::AND),
        Operator::Or => emit::operation(list, here, codes::OR),
        Operator::Xor => emit::operation(list, here, codes::XOR),
    }
}

// A constant.
fn gen_constant(table: &[u8], cursor: Cursor, list: &mut [Entry]) -> Cursor
    ensures { wrote result list.new ≡ constant_into table.now cursor.at (standing cursor.here list.old) }
{
    let constant = numbers::value_at(table, cursor.at);
    let here = emit::plain(list, cursor.here, codes::LDC, constant.value);
    Cursor {
        at: constant.next,
        here,
    }
}

// A variable.
fn gen_variable(
    table: &[u8],
    cursor: Cursor,
    frame: Frame,
    words: &Words,
    list: &mut [Entry],
) -> Cursor
    ensures { WithVariables frame.variables words.now (λ vs. wrote result list.new
        ≡ variable_into frame.w vs table.now cursor.at (standing cursor.here list.old)) }
{
    let name = numbers::value_at(table, cursor.at);
    let word = words::variable(words, frame.variables, name.value, frame.w);
    let here = emit::plain(list, cursor.here, codes::LDL, word);
    Cursor {
        at: name.next,
        here,
    }
}

// Two sides, apart from the operator.
#[cycle(gen_binary_gen_expr_gen_sides)]
fn gen_sides(
    table: &[u8],
    plan: &plan::Plan,
    pair: Pair,
    here: u32,
    depth: u64,
    frame: Frame,
    words: &Words,
    list: &mut [Entry],
) -> u32
    ensures { WithVariables frame.variables words.now (λ vs. standing result list.new
        ≡ sides_into (inner_at depth frame.w vs plan.now table.now) plan.now frame.held pair
        (standing here list.old)) }
{
    let sides = sides::arrange(plan, pair, frame.held);
    let start = Cursor {
        at: sides.first,
        here,
    };
    let one = gen_expr(table, plan, start, depth, frame, words, list);
    let between = sides::put_between(sides.order, frame.held, list, one.here);
    let second = Cursor {
        at: sides.second,
        here: between,
    };
    let inner = Frame {
        held: sides.held,
        ..frame
    };
    let two = gen_expr(table, plan, second, depth, inner, words, list);
    sides::put_behind(sides.order, frame.held, list, two.here)
}

// What follows an operator's kind: operator, left, right.
#[cycle(gen_binary_gen_expr_gen_sides)]
fn gen_binary(
    table: &[u8],
    plan: &plan::Plan,
    cursor: Cursor,
    depth: u64,
    frame: Frame,
    words: &Words,
    list: &mut [Entry],
) -> Cursor
    ensures { WithVariables frame.variables words.now (λ vs. wrote result list.new
        ≡ operated_into (inner_at depth frame.w vs plan.now table.now) plan.now table.now
        frame.held cursor.at (standing cursor.here list.old)) }
{
    let operator = numbers::value_at(table, cursor.at);
    let pair = sides::sides_of(plan, operator.next);
    let here = gen_sides(table, plan, pair, cursor.here, depth, frame, words, list);
    let which = numbers::kinds::operator_of(operator.value as u64);
    Cursor {
        at: pair.next,
        here: gen_operator(which, list, here),
    }
}

// An expression; the depth left falls at each call.
#[cycle(gen_binary_gen_expr_gen_sides)]
fn gen_expr(
    table: &[u8],
    plan: &plan::Plan,
    cursor: Cursor,
    depth: u64,
    frame: Frame,
    words: &Words,
    list: &mut [Entry],
) -> Cursor
    ensures { WithVariables frame.variables words.now (λ vs. wrote result list.new
        ≡ expr_into depth frame.w vs plan.now table.now frame.held cursor.at
        (standing cursor.here list.old)) }
{
    if depth == 0 {
        return cursor;
    }
    let number = numbers::value_at(table, cursor.at);
    let behind = Cursor {
        at: number.next,
        here: cursor.here,
    };
    match numbers::kinds::expr_kind(number.value as u64) {
        ExprKind::Constant => gen_constant(table, behind, list),
        ExprKind::Variable => gen_variable(table, behind, frame, words, list),
        ExprKind::Not => {
            let inner = gen_expr(table, plan, behind, depth - 1, frame, words, list);
            let here = emit::plain(list, inner.here, codes::EQC, 0);
            Cursor { at: inner.at, here }
        }
        ExprKind::Binary => gen_binary(table, plan, behind, depth - 1, frame, words, list),
    }
}

// By how many words W is lowered for a whole expression: its stored values and so many more; without stored values by none.
#[tactic(auto, unfolding(crate::specs::Exprs::lowering))]
fn lowered(stored: u32, more: u32) -> u32
    ensures { result ≡ lowering stored more }
{
    if stored == 0 {
        return 0;
    }
    word::plus(stored, more)
}

// AJW where W is lowered.
#[tactic(auto, unfolding(crate::specs::Exprs::adjust_into))]
fn put_adjust(lowered: u32, operand: u32, list: &mut [Entry], here: u32) -> u32
    ensures { standing result list.new ≡ adjust_into lowered operand (standing here list.old) }
{
    if lowered == 0 {
        return here;
    }
    emit::plain(list, here, codes::AJW, operand)
}

// A whole expression: one with stored values stands between AJW -n and AJW n, n words being its stored values and so many more.
pub fn gen_whole(
    table: &[u8],
    plan: &plan::Plan,
    cursor: Cursor,
    more: u32,
    scope: Scope,
    words: &Words,
    list: &mut [Entry],
) -> Cursor
    ensures { WithVariables scope.variables words.now (λ vs. wrote result list.new
        ≡ whole_into scope.depth scope.w more vs plan.now table.now cursor.at
        (standing cursor.here list.old)) }
{
    let stored = plan::stored_in(plan::entry_at(plan, cursor.at));
    let n = lowered(stored, more);
    let begin = put_adjust(n, emit::minus(n), list, cursor.here);
    let frame = Frame {
        w: words::below(scope.w, n),
        held: 0,
        variables: scope.variables,
    };
    let start = Cursor {
        at: cursor.at,
        here: begin,
    };
    let inner = gen_expr(table, plan, start, scope.depth, frame, words, list);
    let here = put_adjust(n, n, list, inner.here);
    Cursor { at: inner.at, here }
}

// A time guard's time and condition, the condition at a place: the sides of an operator that is not there, with the wrap of both.
// Stays beside `gen_whole`: with the code inside as a closure its contract would be the closure's, and these two would say no less.
pub fn gen_both(
    table: &[u8],
    plan: &plan::Plan,
    cursor: Cursor,
    more: u32,
    scope: Scope,
    words: &Words,
    list: &mut [Entry],
) -> Cursor
    ensures { WithVariables scope.variables words.now (λ vs. wrote result list.new
        ≡ both_into scope.depth scope.w more vs plan.now table.now cursor.at
        (standing cursor.here list.old)) }
{
    let pair = sides::time_and_condition(plan, cursor.at);
    let time = plan::entry_at(plan, pair.left);
    let condition = plan::entry_at(plan, pair.right);
    let n = lowered(plan::sides_held(time, condition), more);
    let begin = put_adjust(n, emit::minus(n), list, cursor.here);
    let frame = Frame {
        w: words::below(scope.w, n),
        held: 0,
        variables: scope.variables,
    };
    let behind = gen_sides(table, plan, pair, begin, scope.depth, frame, words, list);
    Cursor {
        at: pair.next,
        here: put_adjust(n, n, list, behind),
    }
}
