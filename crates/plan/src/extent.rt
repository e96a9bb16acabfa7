// What is measured of statements and their parts.
ghost use Rattle.std.specs.Prelude.{◌≡◌};
ghost use Rattle.plan.specs.Extents.{extent_entry, extent_in, measured, whole_measured, simple_measured, both_measured, guard_measured};
ghost use Rattle.plan.specs.Extents.{head_measured, joined as needed, parts_measured, inside_measured, stmt_measured};
ghost use Rattle.plan.specs.Extents.{inner_measured};

use crate::{Plan, expr};
use counts::Role;
use model::kinds::{GuardKind, StmtKind};
use numbers::kinds::{Head, Shape, Simple};

// The place after a part, and the words that it needs.
#[derive(Clone, Copy)]
pub struct Extent {
    pub next: usize,
    pub need: u32,
}

// A statement's entry in a plan: the place after it and its words, 16 bits for each. A table has at most 16,384 bytes, and a program of
// more than 4,096 words is refused before its plan is made.
fn extent_entry(extent: Extent) -> u32
    ensures { result ≡ extent_entry extent }
{
    let place = (extent.next % 65536) as u32;
    place * 65536 + extent.need % 65536
}

// What a plan tells of the statement at a place.
pub fn extent_in(plan: &Plan, at: usize) -> Extent
    ensures { result ≡ extent_in plan.now at }
{
    let entry = expr::entry_at(plan, at);
    Extent {
        next: (entry / 65536) as usize,
        need: entry % 65536,
    }
}

// An expression that stands in no other.
fn measure_whole(table: &[u8], plan: &mut Plan, at: usize, role: Role, depth: u64) -> Extent
    ensures { measured result plan.new ≡ whole_measured role depth table.now at plan.old }
{
    let entry = expr::measure_expr(table, plan, at, depth);
    Extent {
        next: expr::next_in(entry),
        need: counts::ask(role, expr::stored_in(entry)),
    }
}

// What follows the kind of a statement without statements inside.
#[tactic(auto, unfolding(crate::specs::Extents::simple_measured))]
fn measure_simple(table: &[u8], plan: &mut Plan, at: usize, simple: Simple, depth: u64) -> Extent
    ensures { measured result plan.new ≡ simple_measured simple depth table.now at plan.old }
{
    match simple {
        Simple::Skip | Simple::Stop => Extent {
            next: at,
            need: counts::IDLE_WORDS,
        },
        Simple::Assign => measure_whole(table, plan, numbers::skip(table, at), Role::Value, depth),
        Simple::Input => Extent {
            next: numbers::skip(table, numbers::skip(table, at)),
            need: counts::INPUT_WORDS,
        },
        Simple::Output => measure_whole(table, plan, numbers::skip(table, at), Role::Output, depth),
        Simple::Time => Extent {
            next: numbers::skip(table, at),
            need: counts::IDLE_WORDS,
        },
        Simple::Wait => measure_whole(table, plan, at, Role::Wait, depth),
    }
}

// The condition and the time of a time guard (document 02, order 4): the right and the left side of an operator that is not there.
fn measure_both(table: &[u8], plan: &mut Plan, at: usize, depth: u64) -> Extent
    ensures { measured result plan.new ≡ both_measured depth table.now at plan.old }
{
    let condition = expr::measure_expr(table, plan, at, depth);
    let time = expr::measure_expr(table, plan, expr::next_in(condition), depth);
    let stored = expr::sides_held(time, condition);
    Extent {
        next: expr::next_in(time),
        need: counts::ask(Role::Time, stored),
    }
}

// A guard: its condition, and its channel and its variable if it waits for input, its time if it is a time guard.
#[tactic(auto, unfolding(crate::specs::Extents::guard_measured))]
fn measure_guard(table: &[u8], plan: &mut Plan, at: usize, depth: u64) -> Extent
    ensures { measured result plan.new ≡ guard_measured depth table.now at plan.old }
{
    let number = numbers::value_at(table, at);
    match numbers::kinds::guard_kind(number.value as u64) {
        GuardKind::Input => {
            let condition = measure_whole(table, plan, number.next, Role::Guard, depth);
            Extent {
                next: numbers::skip(table, numbers::skip(table, condition.next)),
                need: condition.need,
            }
        }
        GuardKind::Skip => measure_whole(table, plan, number.next, Role::Guard, depth),
        GuardKind::Time => measure_both(table, plan, number.next, depth),
    }
}

// What stands before the statement of a part.
#[tactic(auto, unfolding(crate::specs::Extents::head_measured))]
fn measure_head(table: &[u8], plan: &mut Plan, at: usize, head: Head, depth: u64) -> Extent
    ensures { measured result plan.new ≡ head_measured head depth table.now at plan.old }
{
    match head {
        Head::Nothing => Extent { next: at, need: 0 },
        Head::Condition => measure_whole(table, plan, at, Role::Value, depth),
        Head::Guard => measure_guard(table, plan, at, depth),
    }
}

// What is needed with one more part: where parts run side by side the sum, else the most.
fn joined(beside: bool, before: u32, part: u32) -> u32
    ensures { result ≡ needed beside before part }
{
    if beside {
        return word::plus(before, part);
    }
    before.max(part)
}

// So many parts from a place on, behind some that need so many words.
#[cycle(measure_inside_measure_parts_measure_stmt)]
fn measure_parts(
    table: &[u8],
    plan: &mut Plan,
    first: Extent,
    head: Head,
    beside: bool,
    count: u32,
    depth: u64,
) -> Extent
    ensures { measured result plan.new ≡ parts_measured count head beside (inner_measured depth table.now) depth
        table.now (measured first plan.old) }
{
    let mut so_far = first;
    for _ in 0..count {
        let before = measure_head(table, &mut *plan, so_far.next, head, depth);
        let part = measure_stmt(table, &mut *plan, before.next, depth);
        let least = so_far.need.max(before.need);
        so_far = Extent {
            next: part.next,
            need: joined(beside, least, part.need),
        };
    }
    so_far
}

// What follows a kind; the statements inside have `depth` left.
#[cycle(measure_inside_measure_parts_measure_stmt)]
fn measure_inside(table: &[u8], plan: &mut Plan, at: usize, kind: StmtKind, depth: u64) -> Extent
    ensures { measured result plan.new ≡ inside_measured kind (inner_measured depth table.now) depth table.now at
        plan.old }
{
    match numbers::kinds::shape_of(kind) {
        Shape::Simple(simple) => measure_simple(table, plan, at, simple, depth),
        Shape::Declares(declared) => {
            let count = numbers::value_at(table, at);
            let body = measure_stmt(table, plan, count.next, depth);
            Extent {
                next: body.next,
                need: word::plus(count.value, body.need),
            }
        }
        Shape::Branches(count) => {
            let n = numbers::kinds::count_at(table, at, count);
            let first = Extent {
                next: n.next,
                need: counts::PAR_WORDS,
            };
            measure_parts(table, plan, first, Head::Nothing, true, n.value, depth)
        }
        Shape::Parts(head, count) => {
            let n = numbers::kinds::count_at(table, at, count);
            let first = Extent {
                next: n.next,
                need: counts::least_words(head),
            };
            measure_parts(table, plan, first, head, false, n.value, depth)
        }
    }
}

// A statement, and all in it; the depth left falls at each call.
#[cycle(measure_inside_measure_parts_measure_stmt)]
pub fn measure_stmt(table: &[u8], plan: &mut Plan, at: usize, depth: u64) -> Extent
    ensures { measured result plan.new ≡ stmt_measured depth table.now at plan.old }
{
    if depth == 0 {
        return Extent {
            next: at,
            need: counts::IDLE_WORDS,
        };
    }
    let number = numbers::value_at(table, at);
    let kind = numbers::kinds::stmt_kind(number.value as u64);
    let own = measure_inside(table, plan, number.next, kind, depth - 1);
    expr::put_entry(plan, at, extent_entry(own));
    own
}
