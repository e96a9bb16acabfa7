// The code of statements.
ghost use Rattle.std.specs.Prelude.{◌≡◌, ◌+◌, ◌≤◌, length};
ghost use Rattle.model.specs.Limits.{part_limit};
ghost use Rattle.expressions.specs.Emits.{at as standing};
ghost use Rattle.expressions.specs.Exprs.{wrote};
ghost use Rattle.expressions.specs.Names.{WithNames};
ghost use Rattle.statements.specs.Stmts.{Makes, under, first_into, initial_into, declaration_into, seq_into, pair_into, close_into};
ghost use Rattle.statements.specs.Stmts.{if_into, while_into, start_into, branch_into, branches_into, forked, fork_into, par_into};
ghost use Rattle.statements.specs.Alts.{chosen, branch_input, choice_into, guards_into, alt_into};
ghost use Rattle.statements.specs.Kinds.{FewParts, stmt_into, inner_at, parts_into, inside_into};

use crate::alt::Guard;
use assembler::Entry;
use expressions::{Cursor, Scope, Words, gen_simple};
use instruction::codes;
use model::kinds::{GuardKind, StmtKind};
use numbers::kinds::{Count, Declared, Head, Shape};

// The branches of a PAR from one on: its place, the index of its code, that of its start, the words that it runs below, and how many there
// are from it on.
#[derive(Clone, Copy)]
struct Rest {
    at: usize,
    here: u32,
    start: u32,
    d: u32,
    left: u32,
}

// What a PAR begins with: the index left for LDC end, that of its user, and that of the starts.
#[derive(Clone, Copy)]
struct Fork {
    gap: u32,
    user: u32,
    starts: u32,
}

// A guard of an ALT: its place, the index of its disabling, the index of its branch, and that of ALTEND.
#[derive(Clone, Copy)]
struct Turn {
    at: usize,
    disable: u32,
    here: u32,
    choice: u32,
}

// How the parts of a statement are laid out in the table.
#[derive(Clone, Copy)]
struct Form {
    head: Head,
    count: Count,
}

// LDC 0 (VAR) or MINT (CHAN).
#[tactic(auto, unfolding(crate::specs::Stmts::first_into))]
fn put_first(list: &mut [Entry], here: u32, declared: Declared) -> u32
    ensures { standing result list.new ≡ first_into declared (standing here list.old) }
{
    match declared {
        Declared::Variables => expressions::plain(list, here, codes::LDC, 0),
        Declared::Channels => expressions::operation(list, here, codes::MINT),
    }
}

// The same and STL j, for each of so many j.
fn put_initial(list: &mut [Entry], start: u32, declared: Declared, count: u32) -> u32
    ensures { standing result list.new ≡ initial_into count declared 0 (standing start list.old) }
{
    let mut here = start;
    for j in 0..count {
        let second = put_first(&mut *list, here, declared);
        here = expressions::plain(&mut *list, second, codes::STL, j);
    }
    here
}

// The scope of a statement that runs n words below.
fn lowered(scope: Scope, n: u32) -> Scope
    ensures { result ≡ under n scope }
{
    Scope {
        w: expressions::below(scope.w, n),
        ..scope
    }
}

// VAR and CHAN: AJW -n, the words, body, AJW n.
#[cycle(alt_branch_branches_choice_choices_declare_inside_pair_pairs_par_parts_repetition_seq_statement)]
fn declare(
    table: &[u8],
    plan: &plan::Plan,
    cursor: Cursor,
    declared: Declared,
    scope: Scope,
    words: &mut Words,
    list: &mut [Entry],
) -> Cursor
    ensures { Makes (scope.depth + 1) scope words.old words.new
        (λ ns. declaration_into declared (inner_at scope.depth plan.now table.now) scope.w ns
        table.now cursor.at (standing cursor.here list.old)) (wrote result list.new) }
{
    let count = numbers::kinds::count_at(table, cursor.at, Count::UpTo(model::limits::NAMES));
    let n = count.value;
    let first = expressions::plain(list, cursor.here, codes::AJW, expressions::minus(n));
    let start = Cursor {
        at: count.next,
        here: put_initial(list, first, declared, n),
    };
    let inner = expressions::enter(words, declared, n, scope);
    let body = statement(table, plan, start, inner, words, list);
    let here = expressions::plain(list, body.here, codes::AJW, n);
    Cursor { at: body.at, here }
}

// SEQ: so many parts.
#[cycle(alt_branch_branches_choice_choices_declare_inside_pair_pairs_par_parts_repetition_seq_statement)]
fn seq(
    table: &[u8],
    plan: &plan::Plan,
    cursor: Cursor,
    count: u32,
    scope: Scope,
    words: &mut Words,
    list: &mut [Entry],
) -> Cursor
    ensures { Makes (scope.depth + 1) scope words.old words.new
        (λ ns. seq_into count (inner_at scope.depth plan.now table.now scope.w ns) cursor.at
        (standing cursor.here list.old)) (wrote result list.new) }
{
    let mut next = cursor;
    for _ in 0..count {
        next = statement(table, plan, next, scope, &mut *words, &mut *list);
    }
    next
}

// Condition, CJ next, statement, and an index left for a J, behind which is the next. The answer has that index.
#[cycle(alt_branch_branches_choice_choices_declare_inside_pair_pairs_par_parts_repetition_seq_statement)]
fn pair(
    table: &[u8],
    plan: &plan::Plan,
    cursor: Cursor,
    scope: Scope,
    words: &mut Words,
    list: &mut [Entry],
) -> Cursor
    ensures { Makes (scope.depth + 1) scope words.old words.new
        (λ ns. pair_into scope.depth scope.w ns.variables
        (inner_at scope.depth plan.now table.now scope.w ns) plan.now table.now
        cursor.at (standing cursor.here list.old)) (wrote result list.new) }
{
    let test = expressions::gen_whole(table, plan, cursor, 0, scope, &*words, list);
    let start = Cursor {
        at: test.at,
        here: word::plus(test.here, 1),
    };
    let body = statement(table, plan, start, scope, words, list);
    let next = word::plus(body.here, 1);
    expressions::distance(list, test.here, codes::CJ, next, test.here);
    body
}

// The Js at some indices, to the end; the last first.
fn close(ends: &[u32], over: u32, list: &mut [Entry])
    ensures { list.new ≡ close_into (length ends.now) ends.now over list.old }
{
    for k in (0..ends.len()).rev() {
        let here = ends[k];
        expressions::distance(&mut *list, here, codes::J, over, here);
    }
}

// IF, for each pair: condition, CJ next, statement, J end; the last pair too. Behind the last pair stands a STOPP, then comes the end.
#[cycle(alt_branch_branches_choice_choices_declare_inside_pair_pairs_par_parts_repetition_seq_statement)]
fn pairs(
    table: &[u8],
    plan: &plan::Plan,
    cursor: Cursor,
    count: u32,
    scope: Scope,
    words: &mut Words,
    list: &mut [Entry],
) -> Cursor
    requires { count ≤ part_limit }
    ensures { Makes (scope.depth + 1) scope words.old words.new
        (λ ns. if_into count scope.depth scope.w ns.variables
        (inner_at scope.depth plan.now table.now scope.w ns) plan.now table.now
        cursor.at (standing cursor.here list.old)) (wrote result list.new) }
{
    let mut ends: [u32; 32] = [0; 32];
    let mut next = cursor;
    for i in 0..count {
        let body = pair(table, plan, next, scope, &mut *words, &mut *list);
        ends[i as usize] = body.here;
        next = Cursor {
            at: body.at,
            here: word::plus(body.here, 1),
        };
    }
    let over = expressions::operation(list, next.here, codes::STOPP);
    close(&ends[..count as usize], over, list);
    Cursor {
        at: next.at,
        here: over,
    }
}

// WHILE: condition, CJ end, body, J start.
#[cycle(alt_branch_branches_choice_choices_declare_inside_pair_pairs_par_parts_repetition_seq_statement)]
fn repetition(
    table: &[u8],
    plan: &plan::Plan,
    cursor: Cursor,
    scope: Scope,
    words: &mut Words,
    list: &mut [Entry],
) -> Cursor
    ensures { Makes (scope.depth + 1) scope words.old words.new
        (λ ns. while_into scope.depth scope.w ns.variables
        (inner_at scope.depth plan.now table.now scope.w ns) plan.now table.now
        cursor.at (standing cursor.here list.old)) (wrote result list.new) }
{
    let body = pair(table, plan, cursor, scope, words, list);
    let here = expressions::distance(list, body.here, codes::J, cursor.here, body.here);
    Cursor { at: body.at, here }
}

// LDC start, LDLP -d, STARTP.
fn put_start(list: &mut [Entry], here: u32, d: u32, start: u32) -> u32
    ensures { standing result list.new ≡ start_into d start (standing here list.old) }
{
    let user = word::plus(here, 2);
    let second = expressions::distance(list, here, codes::LDC, start, user);
    let third = expressions::plain(list, second, codes::LDLP, expressions::minus(d));
    expressions::operation(list, third, codes::STARTP)
}

// A branch d words below: its code, LDLP d, ENDP.
#[cycle(alt_branch_branches_choice_choices_declare_inside_pair_pairs_par_parts_repetition_seq_statement)]
fn branch(
    table: &[u8],
    plan: &plan::Plan,
    cursor: Cursor,
    d: u32,
    scope: Scope,
    words: &mut Words,
    list: &mut [Entry],
) -> Cursor
    ensures { Makes (scope.depth + 1) scope words.old words.new
        (λ ns. branch_into d (inner_at scope.depth plan.now table.now) scope.w ns cursor.at
        (standing cursor.here list.old)) (wrote result list.new) }
{
    let inner = lowered(scope, d);
    let body = statement(table, plan, cursor, inner, words, list);
    let second = expressions::plain(list, body.here, codes::LDLP, d);
    let here = expressions::operation(list, second, codes::ENDP);
    Cursor { at: body.at, here }
}

// The branches of a PAR from the second on, each with its start.
#[cycle(alt_branch_branches_choice_choices_declare_inside_pair_pairs_par_parts_repetition_seq_statement)]
fn branches(
    table: &[u8],
    plan: &plan::Plan,
    rest: Rest,
    scope: Scope,
    words: &mut Words,
    list: &mut [Entry],
) -> Cursor
    ensures { Makes (scope.depth + 1) scope words.old words.new
        (λ ns. branches_into rest.left (inner_at scope.depth plan.now table.now) scope.w ns
        plan.now rest.at rest.d rest.start (standing rest.here list.old)) (wrote result list.new) }
{
    let mut next = Cursor {
        at: rest.at,
        here: rest.here,
    };
    let mut start = rest.start;
    let mut d = rest.d;
    for _ in 0..rest.left {
        let own = plan::extent_in(plan, next.at);
        start = put_start(&mut *list, start, d, next.here);
        next = branch(table, plan, next, d, scope, &mut *words, &mut *list);
        d = word::plus(d, own.need);
    }
    next
}

// AJW -2; an index left for LDC end; LDPI, STL 0; LDC count, STL 1.
fn put_fork(list: &mut [Entry], here: u32, count: u32) -> Fork
    ensures { forked result list.new ≡ fork_into count (standing here list.old) }
{
    let lower = expressions::minus(2);
    let gap = expressions::plain(list, here, codes::AJW, lower);
    let user = word::plus(gap, 1);
    let second = expressions::operation(list, user, codes::LDPI);
    let third = expressions::plain(list, second, codes::STL, 0);
    let fourth = expressions::plain(list, third, codes::LDC, count);
    Fork {
        gap,
        user,
        starts: expressions::plain(list, fourth, codes::STL, 1),
    }
}

// PAR with branches: AJW -2; LDC end, LDPI, STL 0; LDC count, STL 1; the starts; the branches; AJW 2. PAR of none: no code.
#[cycle(alt_branch_branches_choice_choices_declare_inside_pair_pairs_par_parts_repetition_seq_statement)]
fn par(
    table: &[u8],
    plan: &plan::Plan,
    cursor: Cursor,
    count: u32,
    scope: Scope,
    words: &mut Words,
    list: &mut [Entry],
) -> Cursor
    ensures { Makes (scope.depth + 1) scope words.old words.new
        (λ ns. par_into count (inner_at scope.depth plan.now table.now) scope.w ns plan.now
        cursor.at (standing cursor.here list.old)) (wrote result list.new) }
{
    if count == 0 {
        return cursor;
    }
    let fork = put_fork(list, cursor.here, count);
    let first = Cursor {
        at: cursor.at,
        here: word::plus(fork.starts, word::product(3, count - 1)),
    };
    let inner = lowered(scope, 2);
    let own = plan::extent_in(plan, cursor.at);
    let one = branch(table, plan, first, 0, inner, words, list);
    let rest = Rest {
        at: one.at,
        here: one.here,
        start: fork.starts,
        d: own.need,
        left: count - 1,
    };
    let end = branches(table, plan, rest, inner, words, list);
    expressions::distance(list, fork.gap, codes::LDC, end.here, fork.user);
    Cursor {
        at: end.at,
        here: expressions::plain(list, end.here, codes::AJW, 2),
    }
}

// The input that a guard's branch begins with, if it waits for one.
#[tactic(auto, unfolding(crate::specs::Alts::branch_input))]
fn put_input(
    table: &[u8],
    guard: Guard,
    here: u32,
    scope: Scope,
    words: &Words,
    list: &mut [Entry],
) -> Cursor
    ensures { WithNames scope words.now
        (λ ns. wrote result list.new ≡ branch_input guard scope.w ns table.now (standing here list.old)) }
{
    let start = Cursor { at: guard.at, here };
    match guard.kind {
        GuardKind::Input => expressions::gen_input(table, start, scope, words, list),
        GuardKind::Skip | GuardKind::Time => start,
    }
}

// A guard's disabling, and its branch: AJW 1, the input if any, statement. The answer has the index left for the branch's J.
#[cycle(alt_branch_branches_choice_choices_declare_inside_pair_pairs_par_parts_repetition_seq_statement)]
fn choice(
    table: &[u8],
    plan: &plan::Plan,
    turn: Turn,
    scope: Scope,
    words: &mut Words,
    list: &mut [Entry],
) -> Turn
    ensures { Makes (scope.depth + 1) scope words.old words.new
        (λ ns. choice_into scope.depth (inner_at scope.depth plan.now table.now) scope.w ns
        plan.now table.now turn.choice turn.at turn.disable (standing turn.here list.old))
        (chosen result list.new) }
{
    let start = Cursor {
        at: turn.at,
        here: turn.disable,
    };
    let guard = crate::alt::gen_guard(table, plan, start, lowered(scope, 1), &*words, list);
    let disable = crate::alt::put_disable(list, guard, turn.here, turn.choice);
    let first = expressions::plain(list, turn.here, codes::AJW, 1);
    let input = put_input(table, guard, first, scope, &*words, list);
    let body = statement(table, plan, input, scope, words, list);
    Turn {
        at: body.at,
        disable,
        here: body.here,
        ..turn
    }
}

// The disabling of so many guards, and their branches: each ends with J end.
// Stays beside `pairs`: a loop for both, over a closure, would have a contract of what the closure ensures at each turn, longer than both.
#[cycle(alt_branch_branches_choice_choices_declare_inside_pair_pairs_par_parts_repetition_seq_statement)]
fn choices(
    table: &[u8],
    plan: &plan::Plan,
    first: Turn,
    count: u32,
    scope: Scope,
    words: &mut Words,
    list: &mut [Entry],
) -> Cursor
    requires { count ≤ part_limit }
    ensures { Makes (scope.depth + 1) scope words.old words.new
        (λ ns. guards_into count scope.depth (inner_at scope.depth plan.now table.now) scope.w ns
        plan.now table.now first.choice first.at first.disable (standing first.here list.old))
        (wrote result list.new) }
{
    let mut ends: [u32; 32] = [0; 32];
    let mut turn = first;
    for i in 0..count {
        let body = choice(table, plan, turn, scope, &mut *words, &mut *list);
        ends[i as usize] = body.here;
        turn = Turn {
            at: body.at,
            disable: body.disable,
            here: word::plus(body.here, 1),
            ..turn
        };
    }
    close(&ends[..count as usize], turn.here, list);
    Cursor {
        at: turn.at,
        here: turn.here,
    }
}

// AJW -1, ALT, the enabling, ALTWT, the disabling, ALTEND, the branches.
#[cycle(alt_branch_branches_choice_choices_declare_inside_pair_pairs_par_parts_repetition_seq_statement)]
fn alt(
    table: &[u8],
    plan: &plan::Plan,
    cursor: Cursor,
    count: u32,
    scope: Scope,
    words: &mut Words,
    list: &mut [Entry],
) -> Cursor
    requires { count ≤ part_limit }
    ensures { Makes (scope.depth + 1) scope words.old words.new
        (λ ns. alt_into count scope.depth (inner_at scope.depth plan.now table.now) scope.w ns
        plan.now table.now cursor.at (standing cursor.here list.old))
        (wrote result list.new) }
{
    let inner = lowered(scope, 1);
    let front = crate::alt::gen_front(table, plan, cursor, count, inner, &*words, list);
    let first = Turn {
        at: cursor.at,
        disable: front.disable,
        here: expressions::operation(list, front.choice, codes::ALTEND),
        choice: front.choice,
    };
    choices(table, plan, first, count, scope, words, list)
}

// The parts of a statement: pairs with a count are an IF's, a pair without is a WHILE's.
#[cycle(alt_branch_branches_choice_choices_declare_inside_pair_pairs_par_parts_repetition_seq_statement)]
fn parts(
    table: &[u8],
    plan: &plan::Plan,
    cursor: Cursor,
    form: Form,
    scope: Scope,
    words: &mut Words,
    list: &mut [Entry],
) -> Cursor
    requires { FewParts form.count }
    ensures { Makes (scope.depth + 1) scope words.old words.new
        (λ ns. parts_into form.head form.count scope.depth (inner_at scope.depth plan.now table.now)
        scope.w ns plan.now table.now cursor.at (standing cursor.here list.old))
        (wrote result list.new) }
{
    let Form { head, count } = form;
    let number = numbers::kinds::count_at(table, cursor.at, count);
    let n = number.value;
    let first = Cursor {
        at: number.next,
        here: cursor.here,
    };
    match head {
        Head::Nothing => seq(table, plan, first, n, scope, words, list),
        Head::Condition => match count {
            Count::UpTo(_) => pairs(table, plan, first, n, scope, words, list),
            Count::Fixed(_) => repetition(table, plan, first, scope, words, list),
        },
        Head::Guard => alt(table, plan, first, n, scope, words, list),
    }
}

// What follows a kind; the statements inside have the scope's depth left.
#[cycle(alt_branch_branches_choice_choices_declare_inside_pair_pairs_par_parts_repetition_seq_statement)]
fn inside(
    table: &[u8],
    plan: &plan::Plan,
    cursor: Cursor,
    kind: StmtKind,
    scope: Scope,
    words: &mut Words,
    list: &mut [Entry],
) -> Cursor
    ensures { Makes (scope.depth + 1) scope words.old words.new
        (λ ns. inside_into kind scope.depth (inner_at scope.depth plan.now table.now) scope.w ns
        plan.now table.now cursor.at (standing cursor.here list.old))
        (wrote result list.new) }
{
    match numbers::kinds::shape_of(kind) {
        Shape::Simple(simple) => gen_simple(table, plan, cursor, simple, scope, &*words, list),
        Shape::Declares(declared) => declare(table, plan, cursor, declared, scope, words, list),
        Shape::Branches(count) => {
            let number = numbers::kinds::count_at(table, cursor.at, count);
            let first = Cursor {
                at: number.next,
                here: cursor.here,
            };
            par(table, plan, first, number.value, scope, words, list)
        }
        Shape::Parts(head, count) => {
            let own = Form { head, count };
            parts(table, plan, cursor, own, scope, words, list)
        }
    }
}

// A statement; the depth left falls at each call.
#[cycle(alt_branch_branches_choice_choices_declare_inside_pair_pairs_par_parts_repetition_seq_statement)]
pub fn statement(
    table: &[u8],
    plan: &plan::Plan,
    cursor: Cursor,
    scope: Scope,
    words: &mut Words,
    list: &mut [Entry],
) -> Cursor
    ensures { Makes scope.depth scope words.old words.new
        (λ ns. stmt_into scope.depth scope.w ns plan.now table.now cursor.at
        (standing cursor.here list.old)) (wrote result list.new) }
{
    if scope.depth == 0 {
        return cursor;
    }
    let number = numbers::value_at(table, cursor.at);
    let kind = numbers::kinds::stmt_kind(number.value as u64);
    let behind = Cursor {
        at: number.next,
        here: cursor.here,
    };
    let inner = Scope {
        depth: scope.depth - 1,
        ..scope
    };
    inside(table, plan, behind, kind, inner, words, list)
}
