// The code of statements without statements inside.
ghost use Rattle.std.specs.Prelude.{◌≡◌};
ghost use Rattle.expressions.specs.Emits.{at as standing};
ghost use Rattle.expressions.specs.Names.{WithVariables, WithNames};
ghost use Rattle.expressions.specs.Exprs.{wrote};
ghost use Rattle.expressions.specs.Simples.{input_into, output_into, assign_into, in_into, out_into, time_into, wait_into, simple_into};

use crate::emit::Cursor;
use crate::words::{Scope, Words};
use crate::{emit, expr, words};
use assembler::Entry;
use instruction::codes;
use numbers::kinds::Simple;

// LDLP variable, LDLP channel, LDC 4, IN.
fn put_input(list: &mut [Entry], here: u32, channel: u32, variable: u32) -> u32
    ensures { standing result list.new ≡ input_into channel variable (standing here list.old) }
{
    let second = emit::plain(list, here, codes::LDLP, variable);
    let third = emit::plain(list, second, codes::LDLP, channel);
    let fourth = emit::plain(list, third, codes::LDC, 4);
    emit::operation(list, fourth, codes::IN)
}

// LDLP channel, REV, AJW -1, OUTWORD, AJW 1, behind the value.
fn put_output(list: &mut [Entry], here: u32, channel: u32) -> u32
    ensures { standing result list.new ≡ output_into channel (standing here list.old) }
{
    let second = emit::plain(list, here, codes::LDLP, channel);
    let third = emit::operation(list, second, codes::REV);
    let fourth = emit::plain(list, third, codes::AJW, emit::minus(1));
    let fifth = emit::operation(list, fourth, codes::OUTWORD);
    emit::plain(list, fifth, codes::AJW, 1)
}

// Assignment: value, STL.
fn gen_assign(
    table: &[u8],
    plan: &plan::Plan,
    cursor: Cursor,
    scope: Scope,
    words: &Words,
    list: &mut [Entry],
) -> Cursor
    ensures { WithVariables scope.variables words.now (λ vs. wrote result list.new
        ≡ assign_into scope.depth scope.w vs plan.now table.now cursor.at
        (standing cursor.here list.old)) }
{
    let name = numbers::value_at(table, cursor.at);
    let start = Cursor {
        at: name.next,
        here: cursor.here,
    };
    let value = expr::gen_whole(table, plan, start, 0, scope, words, list);
    let word = words::variable(words, scope.variables, name.value, scope.w);
    let here = emit::plain(list, value.here, codes::STL, word);
    Cursor { at: value.at, here }
}

// Input: a channel and a variable.
pub fn gen_input(
    table: &[u8],
    cursor: Cursor,
    scope: Scope,
    words: &Words,
    list: &mut [Entry],
) -> Cursor
    ensures { WithNames scope words.now (λ ns. wrote result list.new
        ≡ in_into scope.w ns table.now cursor.at (standing cursor.here list.old)) }
{
    let channel = numbers::value_at(table, cursor.at);
    let variable = numbers::value_at(table, channel.next);
    let from = words::channel(words, scope.channels, channel.value, scope.w);
    let to = words::variable(words, scope.variables, variable.value, scope.w);
    let here = put_input(list, cursor.here, from, to);
    Cursor {
        at: variable.next,
        here,
    }
}

// Output: a channel and a value.
fn gen_output(
    table: &[u8],
    plan: &plan::Plan,
    cursor: Cursor,
    scope: Scope,
    words: &Words,
    list: &mut [Entry],
) -> Cursor
    ensures { WithNames scope words.now (λ ns. wrote result list.new
        ≡ out_into scope.depth scope.w ns plan.now table.now cursor.at
        (standing cursor.here list.old)) }
{
    let channel = numbers::value_at(table, cursor.at);
    let start = Cursor {
        at: channel.next,
        here: cursor.here,
    };
    let value = expr::gen_whole(table, plan, start, 0, scope, words, list);
    let to = words::channel(words, scope.channels, channel.value, scope.w);
    let here = put_output(list, value.here, to);
    Cursor { at: value.at, here }
}

// TIME (02, order 4): LDTIMER, STL.
fn gen_time(table: &[u8], cursor: Cursor, scope: Scope, words: &Words, list: &mut [Entry]) -> Cursor
    ensures { WithVariables scope.variables words.now (λ vs. wrote result list.new
        ≡ time_into scope.w vs table.now cursor.at (standing cursor.here list.old)) }
{
    let name = numbers::value_at(table, cursor.at);
    let to = words::variable(words, scope.variables, name.value, scope.w);
    let read = emit::operation(list, cursor.here, codes::LDTIMER);
    let here = emit::plain(list, read, codes::STL, to);
    Cursor {
        at: name.next,
        here,
    }
}

// WAIT (02, order 4): the time, TIN.
fn gen_wait(
    table: &[u8],
    plan: &plan::Plan,
    cursor: Cursor,
    scope: Scope,
    words: &Words,
    list: &mut [Entry],
) -> Cursor
    ensures { WithVariables scope.variables words.now (λ vs. wrote result list.new
        ≡ wait_into scope.depth scope.w vs plan.now table.now cursor.at
        (standing cursor.here list.old)) }
{
    let time = expr::gen_whole(table, plan, cursor, 0, scope, words, list);
    let here = emit::operation(list, time.here, codes::TIN);
    Cursor { at: time.at, here }
}

// What follows the kind of a statement without statements inside.
#[tactic(auto, unfolding(crate::specs::Simples::simple_into))]
pub fn gen_simple(
    table: &[u8],
    plan: &plan::Plan,
    cursor: Cursor,
    simple: Simple,
    scope: Scope,
    words: &Words,
    list: &mut [Entry],
) -> Cursor
    ensures { WithNames scope words.now (λ ns. wrote result list.new
        ≡ simple_into simple scope.depth scope.w ns plan.now table.now cursor.at
        (standing cursor.here list.old)) }
{
    match simple {
        Simple::Skip => cursor,
        Simple::Stop => {
            let here = emit::operation(list, cursor.here, codes::STOPP);
            Cursor {
                at: cursor.at,
                here,
            }
        }
        Simple::Assign => gen_assign(table, plan, cursor, scope, words, list),
        Simple::Input => gen_input(table, cursor, scope, words, list),
        Simple::Output => gen_output(table, plan, cursor, scope, words, list),
        Simple::Time => gen_time(table, cursor, scope, words, list),
        Simple::Wait => gen_wait(table, plan, cursor, scope, words, list),
    }
}
