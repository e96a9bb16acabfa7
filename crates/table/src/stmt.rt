// Statements: what one reading counts, and the sets of names that they change, use, input from and output to.
ghost use Rattle.std.specs.Prelude.{◌≡◌, ◌+◌, ◌<◌, ◌≤◌, length, IfOk};
ghost use Rattle.table.specs.Stmts.{first_among, leaf, whole_at, value_at, taken_at, simple_at, waiting_at, both_of, both_at, guard_at};
ghost use Rattle.table.specs.Stmts.{variable_at, input_at, output_at, head_at, behind};
ghost use Rattle.table.specs.Stmts.{nothing, added, gathered, par_of, more_names, declaring, Numbered, Fits};
ghost use Rattle.table.specs.Stmts.{part_in, most_at, par_at, declared_at, inside_at, stmt_at, taken_uses, timed_at, timed_uses};
ghost use Rattle.table.specs.Stmts.{simple_uses, waiting_uses, both_uses, guard_uses, head_uses};
ghost use Rattle.table.specs.Stmts.{part_uses_in, most_uses_at, par_uses_at, declared_uses, inside_uses, stmt_uses};
ghost use Rattle.table.specs.Exprs.{expr_uses};
ghost use Rattle.table.specs.Sets.{Exact};

use crate::expr::{Term, read_expr};
use counts::Role;
use model::kinds::{GuardKind, StmtKind};
use numbers::kinds::{Declared, Head, LAST_GUARD, LAST_STATEMENT, Shape, Simple};
use numbers::{Misread, Number};

// How many names are in scope: variables, channels with the outside ones, outside inputs and outputs. Their bounds stay in clauses: where
// no depth is left there may be 1,040 channels, so what the readers ask (`Numbered`) is no fact of the type. Table, place, depth and sets
// stay parameters: as fields each clause would say `self.old.sets` for `sets.old`, and three of them are others at each call.
#[derive(Clone, Copy, Debug, PartialEq, Eq)]
pub struct Names {
    pub variables: u64,
    pub channels: u64,
    pub inputs: u64,
    pub outputs: u64,
}

// What is counted of a statement: the place after it, words needed, live processes, and one more than the place of the first PAR with a
// clash, 0 for none.
// The clash stays a number: as an enum with its place it was copied slowly (247 us in place of 95 for 16,384 bytes of SKIPs).
#[derive(Clone, Copy, Debug, PartialEq, Eq)]
pub struct Part {
    pub next: usize,
    pub words: u32,
    pub processes: u32,
    pub clash: usize,
}

// What stands before a part's statement: the place after it, and the words that it asks for.
#[derive(Clone, Copy, Debug, PartialEq, Eq)]
pub struct Front {
    pub next: usize,
    pub words: u32,
}

// What is counted over the parts of a statement: the most and the sum of words and of processes.
#[derive(Clone, Copy, Debug, PartialEq, Eq)]
pub struct Sum {
    pub next: usize,
    pub most: u32,
    pub sum: u32,
    pub live: u32,
    pub all: u32,
    pub clash: usize,
}

impl Names {
    // The number of a variable.
    fn read_variable(self, table: &[u8], at: usize) -> Result<Number, Misread>
        ensures said { result ≡ variable_at self table.now at }
        ensures below { IfOk result (λ n. n.value < self.variables) }
    {
        numbers::read_name(table, at, self.variables, 0, 0)
    }

    // The number of a channel to input from.
    fn read_input(self, table: &[u8], at: usize) -> Result<Number, Misread>
        requires { Numbered self }
        ensures said { result ≡ input_at self table.now at }
        ensures below { IfOk result (λ n. n.value < self.channels) }
    {
        let last = self.inputs + self.outputs;
        numbers::read_name(table, at, self.channels, self.inputs, last)
    }

    // The number of a channel to output to.
    fn read_output(self, table: &[u8], at: usize) -> Result<Number, Misread>
        ensures said { result ≡ output_at self table.now at }
        ensures below { IfOk result (λ n. n.value < self.channels) }
    {
        numbers::read_name(table, at, self.channels, 0, self.inputs)
    }
}

// The first of two that is not 0.
fn earlier(a: usize, b: usize) -> usize
    ensures { result ≡ first_among a b }
{
    if a == 0 { b } else { a }
}

// A statement without statements inside.
fn leaf(next: usize, words: u32) -> Part
    ensures { result ≡ leaf next words }
{
    Part {
        next,
        words,
        processes: 1,
        clash: 0,
    }
}

// An expression of a statement that stands in no other.
#[tactic(auto, unfolding(crate::specs::Stmts::whole_at))]
fn read_whole(
    table: &[u8],
    at: usize,
    role: Role,
    depth: u64,
    variables: u64,
    sets: &mut [u64; 64],
) -> Result<Front, Misread>
    requires { (depth ≤ 32) × (variables ≤ 1024) }
    ensures said { result ≡ whole_at role depth variables table.now at }
    ensures uses { sets.new ≡ expr_uses depth variables table.now at sets.old }
{
    let value = read_expr(table, at, depth, variables, sets)?;
    Ok(Front {
        next: value.next,
        words: counts::ask(role, value.stored),
    })
}

// An expression as the end of a statement without statements inside.
#[tactic(auto, unfolding(crate::specs::Stmts::value_at))]
fn read_value(
    table: &[u8],
    at: usize,
    role: Role,
    depth: u64,
    variables: u64,
    sets: &mut [u64; 64],
) -> Result<Part, Misread>
    requires { (depth ≤ 32) × (variables ≤ 1024) }
    ensures said { result ≡ value_at role depth variables table.now at }
    ensures uses { sets.new ≡ expr_uses depth variables table.now at sets.old }
{
    let value = read_whole(table, at, role, depth, variables, sets)?;
    Ok(leaf(value.next, value.words))
}

// A channel to input from and a variable, behind what has been read.
#[tactic(auto, unfolding(crate::specs::Stmts::taken_at, crate::specs::Stmts::taken_uses))]
fn read_input(
    table: &[u8],
    at: usize,
    names: Names,
    words: u32,
    sets: &mut [u64; 64],
) -> Result<Front, Misread>
    requires { Numbered names }
    ensures said { result ≡ taken_at names table.now at words }
    ensures uses { sets.new ≡ taken_uses names table.now at sets.old }
{
    let channel = names.read_input(table, at)?;
    let variable = names.read_variable(table, channel.next)?;
    crate::usage::mark(sets, crate::usage::INPUTS, channel.value);
    crate::usage::change(sets, variable.value);
    Ok(Front {
        next: variable.next,
        words,
    })
}

// The variable of a TIME (02, order 4), changed as by an input.
#[tactic(auto, unfolding(crate::specs::Stmts::timed_at, crate::specs::Stmts::timed_uses))]
fn read_time(table: &[u8], at: usize, names: Names, sets: &mut [u64; 64]) -> Result<Part, Misread>
    requires { Numbered names }
    ensures said { result ≡ timed_at names table.now at }
    ensures uses { sets.new ≡ timed_uses names table.now at sets.old }
{
    let into = names.read_variable(table, at)?;
    crate::usage::change(sets, into.value);
    Ok(leaf(into.next, counts::IDLE_WORDS))
}

// What follows the kind of a statement without statements inside.
#[tactic(auto, unfolding(crate::specs::Stmts::simple_at, crate::specs::Stmts::simple_uses))]
fn read_simple(
    table: &[u8],
    at: usize,
    simple: Simple,
    depth: u64,
    names: Names,
    sets: &mut [u64; 64],
) -> Result<Part, Misread>
    requires { (depth ≤ 32) × Numbered names }
    ensures said { result ≡ simple_at simple depth names table.now at }
    ensures uses { sets.new ≡ simple_uses simple depth names table.now at sets.old }
{
    match simple {
        Simple::Skip | Simple::Stop => Ok(leaf(at, counts::IDLE_WORDS)),
        Simple::Assign => {
            let target = names.read_variable(table, at)?;
            crate::usage::change(sets, target.value);
            read_value(
                table,
                target.next,
                Role::Value,
                depth,
                names.variables,
                sets,
            )
        }
        Simple::Input => {
            let taken = read_input(table, at, names, counts::INPUT_WORDS, sets)?;
            Ok(leaf(taken.next, taken.words))
        }
        Simple::Output => {
            let channel = names.read_output(table, at)?;
            crate::usage::mark(sets, crate::usage::OUTPUTS, channel.value);
            read_value(
                table,
                channel.next,
                Role::Output,
                depth,
                names.variables,
                sets,
            )
        }
        Simple::Time => read_time(table, at, names, sets),
        Simple::Wait => read_value(table, at, Role::Wait, depth, names.variables, sets),
    }
}

// The condition, the channel and the variable of a guard that waits for input.
#[tactic(auto, unfolding(crate::specs::Stmts::waiting_at, crate::specs::Stmts::waiting_uses))]
fn read_waiting(
    table: &[u8],
    at: usize,
    depth: u64,
    names: Names,
    sets: &mut [u64; 64],
) -> Result<Front, Misread>
    requires { (depth ≤ 32) × Numbered names }
    ensures said { result ≡ waiting_at depth names table.now at }
    ensures uses { sets.new ≡ waiting_uses depth names table.now at sets.old }
{
    let condition = read_whole(table, at, Role::Guard, depth, names.variables, sets)?;
    read_input(table, condition.next, names, condition.words, sets)
}

// What is counted of a time guard: its time and its condition as the left and the right side of an operator (02, order 4).
fn both_front(condition: Term, time: Term) -> Front
    requires { (condition.stored ≤ 32) × (time.stored ≤ 32) }
    ensures { result ≡ both_of condition time }
{
    let order = counts::order_of(time.registers, condition.registers);
    let stored = counts::sides_hold(order, time.stored, condition.stored);
    Front {
        next: time.next,
        words: counts::ask(Role::Time, stored),
    }
}

// The condition and the time of a time guard.
#[tactic(auto, unfolding(crate::specs::Stmts::both_at, crate::specs::Stmts::both_uses))]
fn read_both(
    table: &[u8],
    at: usize,
    depth: u64,
    variables: u64,
    sets: &mut [u64; 64],
) -> Result<Front, Misread>
    requires { (depth ≤ 32) × (variables ≤ 1024) }
    ensures said { result ≡ both_at depth variables table.now at }
    ensures uses { sets.new ≡ both_uses depth variables table.now at sets.old }
{
    let condition = read_expr(table, at, depth, variables, sets)?;
    let time = read_expr(table, condition.next, depth, variables, sets)?;
    Ok(both_front(condition, time))
}

// A guard: its kind, its condition, and its channel and its variable if it waits for input, its time if it is a time guard.
#[tactic(auto, unfolding(crate::specs::Stmts::guard_at, crate::specs::Stmts::guard_uses))]
fn read_guard(
    table: &[u8],
    at: usize,
    depth: u64,
    names: Names,
    sets: &mut [u64; 64],
) -> Result<Front, Misread>
    requires { (depth ≤ 32) × Numbered names }
    ensures said { result ≡ guard_at depth names table.now at }
    ensures uses { sets.new ≡ guard_uses depth names table.now at sets.old }
{
    let number = numbers::read_between(table, at, 0, LAST_GUARD)?;
    match numbers::kinds::guard_kind(number.value) {
        GuardKind::Input => read_waiting(table, number.next, depth, names, sets),
        GuardKind::Skip => read_whole(
            table,
            number.next,
            Role::Guard,
            depth,
            names.variables,
            sets,
        ),
        GuardKind::Time => read_both(table, number.next, depth, names.variables, sets),
    }
}

// What stands before the statement of a part.
#[tactic(auto, unfolding(crate::specs::Stmts::head_at, crate::specs::Stmts::head_uses))]
fn read_head(
    table: &[u8],
    at: usize,
    head: Head,
    depth: u64,
    names: Names,
    sets: &mut [u64; 64],
) -> Result<Front, Misread>
    requires { (depth ≤ 32) × Numbered names }
    ensures said { result ≡ head_at head depth names table.now at }
    ensures uses { sets.new ≡ head_uses head depth names table.now at sets.old }
{
    match head {
        Head::Nothing => Ok(Front { next: at, words: 0 }),
        Head::Condition => read_whole(table, at, Role::Value, depth, names.variables, sets),
        Head::Guard => read_guard(table, at, depth, names, sets),
    }
}

// What is counted of no parts, from a place on.
fn no_parts(at: usize) -> Sum
    ensures { result ≡ nothing at }
{
    Sum {
        next: at,
        most: 0,
        sum: 0,
        live: 0,
        all: 0,
        clash: 0,
    }
}

// What is counted with one more part.
fn add(sum: Sum, part: Part) -> Sum
    requires { (sum.sum ≤ 32000000) × (sum.all ≤ 32000000) × (part.words ≤ 1000000) × (part.processes ≤ 1000000) }
    ensures { result ≡ added sum part }
{
    let most = sum.most.max(part.words);
    let live = sum.live.max(part.processes);
    let clash = earlier(sum.clash, part.clash);
    Sum {
        next: part.next,
        most,
        sum: sum.sum + part.words,
        live,
        all: sum.all + part.processes,
        clash,
    }
}

// What is counted of a statement of parts.
fn gather(head: Head, sum: Sum) -> Part
    ensures { result ≡ gathered head sum }
{
    let words = counts::least_words(head).max(sum.most);
    let processes = 1.max(sum.live);
    Part {
        next: sum.next,
        words,
        processes,
        clash: sum.clash,
    }
}

// What is counted of the PAR at a place.
fn close_par(place: usize, sum: Sum, bad: bool) -> Part
    requires { (sum.sum ≤ 32000000) × (place ≤ 16384) }
    ensures { result ≡ par_of place sum bad }
{
    let own = if bad { place + 1 } else { 0 };
    let clash = earlier(own, sum.clash);
    let processes = 1.max(sum.all);
    Part {
        next: sum.next,
        words: counts::PAR_WORDS + sum.sum,
        processes,
        clash,
    }
}

// A statement behind a head that asks for so many words.
fn behind(asked: u32, part: Part) -> Part
    ensures { result ≡ behind asked part }
{
    let words = asked.max(part.words);
    Part { words, ..part }
}

// A statement in a VAR or CHAN of so many names.
fn in_scope(count: u64, part: Part) -> Part
    requires { (count ≤ 32) × (part.words ≤ 1000000) }
    ensures { result ≡ declaring count part }
{
    Part {
        words: count as u32 + part.words,
        ..part
    }
}

// One part: its head, then its statement.
#[cycle(read_declaration_read_inside_read_most_read_par_read_part_read_stmt)]
#[tactic(auto, unfolding(crate::specs::Stmts::part_at, crate::specs::Stmts::part_uses))]
fn read_part(
    table: &[u8],
    at: usize,
    head: Head,
    depth: u64,
    names: Names,
    sets: &mut [u64; 64],
) -> Result<Part, Misread>
    requires { Fits names depth × (names.channels ≤ 1024) × (length table.now ≤ 16384) }
    ensures said { result ≡ part_in head depth names table.now at }
    ensures uses { sets.new ≡ part_uses_in head depth names table.now at sets.old }
{
    let front = read_head(table, at, head, depth, names, sets)?;
    let part = read_stmt(table, front.next, depth, names, sets)?;
    Ok(behind(front.words, part))
}

// So many parts.
#[cycle(read_declaration_read_inside_read_most_read_par_read_part_read_stmt)]
#[tactic(auto, unfolding(crate::specs::Stmts::most_at, crate::specs::Stmts::most_uses_at))]
fn read_most(
    table: &[u8],
    at: usize,
    head: Head,
    count: u64,
    depth: u64,
    names: Names,
    sets: &mut [u64; 64],
) -> Result<Part, Misread>
    requires { Fits names depth × (names.channels ≤ 1024) × (length table.now ≤ 16384) × (count ≤ 32) }
    ensures said { result ≡ most_at head count depth names table.now at }
    ensures uses { sets.new ≡ most_uses_at head count depth names table.now at sets.old }
{
    let mut sum = no_parts(at);
    for _ in 0..count {
        let part = read_part(table, sum.next, head, depth, names, sets)?;
        sum = add(sum, part);
    }
    Ok(gather(head, sum))
}

// The branches of the PAR at a place. Each is read once, with sets of its own, and the check sees these alone.
#[cycle(read_declaration_read_inside_read_most_read_par_read_part_read_stmt)]
#[tactic(auto, unfolding(crate::specs::Stmts::par_at, crate::specs::Stmts::par_uses_at))]
fn read_par(
    table: &[u8],
    place: usize,
    at: usize,
    count: u64,
    depth: u64,
    names: Names,
    sets: &mut [u64; 64],
) -> Result<Part, Misread>
    requires { Fits names depth × (names.channels ≤ 1024) × (length table.now ≤ 16384) × (count ≤ 32) × (place ≤ 16384) }
    ensures said { result ≡ par_at place count depth names table.now at }
    ensures uses { sets.new ≡ par_uses_at count depth names table.now at sets.old }
{
    let mut sum = no_parts(at);
    let mut before: [u64; 64] = [0; 64];
    let mut bad = false;
    for _ in 0..count {
        let mut branch: [u64; 64] = [0; 64];
        let part = read_stmt(table, sum.next, depth, names, &mut branch)?;
        bad |= crate::usage::clash(&before, &branch);
        crate::usage::merge(&mut before, &branch);
        sum = add(sum, part);
    }
    crate::usage::merge(sets, &before);
    Ok(close_par(place, sum, bad))
}

// The names in scope with so many more.
fn more_names(declared: Declared, count: u64, names: Names) -> Names
    requires { (count ≤ 32) × Numbered names }
    ensures { result ≡ more_names declared count names }
{
    match declared {
        Declared::Variables => Names {
            variables: names.variables + count,
            ..names
        },
        Declared::Channels => Names {
            channels: names.channels + count,
            ..names
        },
    }
}

// The statement of a VAR or CHAN, in which so many more names are in scope.
#[cycle(read_declaration_read_inside_read_most_read_par_read_part_read_stmt)]
#[tactic(auto, unfolding(crate::specs::Stmts::declared_at, crate::specs::Stmts::declared_uses))]
fn read_declaration(
    table: &[u8],
    at: usize,
    declared: Declared,
    count: u64,
    depth: u64,
    names: Names,
    sets: &mut [u64; 64],
) -> Result<Part, Misread>
    requires { Fits names (depth + 1) × (length table.now ≤ 16384) × (count ≤ 32) }
    ensures said { result ≡ declared_at declared count depth names table.now at }
    ensures uses { sets.new ≡ declared_uses declared count depth names table.now at sets.old }
{
    let more = more_names(declared, count, names);
    let read = read_stmt(table, at, depth, more, sets);
    crate::usage::leave(sets, declared, names.variables, names.channels);
    let part = read?;
    Ok(in_scope(count, part))
}

// What follows the kind of the statement at a place; the statements and expressions inside have `depth` left.
#[cycle(read_declaration_read_inside_read_most_read_par_read_part_read_stmt)]
fn read_inside(
    table: &[u8],
    place: usize,
    at: usize,
    kind: StmtKind,
    depth: u64,
    names: Names,
    sets: &mut [u64; 64],
) -> Result<Part, Misread>
    requires { Fits names (depth + 1) × (length table.now ≤ 16384) × (place ≤ 16384) }
    ensures said { result ≡ inside_at place kind depth names table.now at }
    ensures uses { sets.new ≡ inside_uses kind depth names table.now at sets.old }
{
    match numbers::kinds::shape_of(kind) {
        Shape::Simple(simple) => read_simple(table, at, simple, depth, names, sets),
        Shape::Declares(declared) => {
            let count = numbers::read_between(table, at, 1, model::limits::NAMES)?;
            read_declaration(table, count.next, declared, count.value, depth, names, sets)
        }
        Shape::Branches(count) => {
            let count = numbers::kinds::read_count(table, at, count)?;
            read_par(table, place, count.next, count.value, depth, names, sets)
        }
        Shape::Parts(head, count) => {
            let count = numbers::kinds::read_count(table, at, count)?;
            read_most(table, count.next, head, count.value, depth, names, sets)
        }
    }
}

// A statement; the depth left falls at each call.
#[cycle(read_declaration_read_inside_read_most_read_par_read_part_read_stmt)]
pub fn read_stmt(
    table: &[u8],
    at: usize,
    depth: u64,
    names: Names,
    sets: &mut [u64; 64],
) -> Result<Part, Misread>
    requires { Fits names depth × (length table.now ≤ 16384) }
    ensures said { result ≡ stmt_at depth names table.now at }
    ensures uses { sets.new ≡ stmt_uses depth names table.now at sets.old }
    ensures exact { Exact depth names table.now at sets.old sets.new }
{
    if depth == 0 {
        return Err(numbers::read_deep(table, at));
    }
    let number = numbers::read_between(table, at, 0, LAST_STATEMENT)?;
    let kind = numbers::kinds::stmt_kind(number.value);
    read_inside(table, at, number.next, kind, depth - 1, names, sets)
}
