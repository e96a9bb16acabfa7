// The guards of an ALT: their enabling and disabling.
ghost use Rattle.std.specs.Prelude.{◌≡◌, cond};
ghost use Rattle.numbers.specs.Kinds.{by_guard};
ghost use Rattle.expressions.specs.Emits.{at as standing};
ghost use Rattle.expressions.specs.Names.{WithNames};
ghost use Rattle.statements.specs.Alts.{guarded, waiting_into, guard_into, is_timed, statement_of, next_guard, timed_in};
ghost use Rattle.statements.specs.Alts.{enable_into, disable_into, fronted, front_into};

use assembler::Entry;
use expressions::{Cursor, Scope, Words};
use instruction::codes;
use model::kinds::GuardKind;

// The words of an ALT below its workspace; what its guards store stands below them.
const ALT_WORDS: u32 = 5;

// The place after a guard's expressions, the index after its code so far, and its kind.
#[derive(Clone, Copy)]
pub struct Guard {
    pub at: usize,
    pub here: u32,
    pub kind: GuardKind,
}

// The index of an ALT's disabling, and that of its ALTEND.
#[derive(Clone, Copy)]
pub struct Front {
    pub disable: u32,
    pub choice: u32,
}

// The condition of a guard that waits, LDLP channel, REV.
fn gen_waiting(
    table: &[u8],
    plan: &plan::Plan,
    cursor: Cursor,
    scope: Scope,
    words: &Words,
    list: &mut [Entry],
) -> Guard
    ensures { WithNames scope words.now (λ ns. guarded result list.new
        ≡ waiting_into scope.depth scope.w ns plan.now table.now cursor.at
        (standing cursor.here list.old)) }
{
    let test = expressions::gen_whole(table, plan, cursor, ALT_WORDS, scope, words, list);
    let name = numbers::value_at(table, test.at);
    let word = expressions::channel(words, scope.channels, name.value, scope.w);
    let second = expressions::plain(list, test.here, codes::LDLP, word);
    Guard {
        at: test.at,
        here: expressions::operation(list, second, codes::REV),
        kind: GuardKind::Input,
    }
}

// What enabling and disabling begin with: the condition, with LDLP channel, REV if the guard waits; time and condition of a time guard. The
// scope is the guard's, one word below the ALT's.
#[tactic(auto, unfolding(crate::specs::Alts::guard_into))]
pub fn gen_guard(
    table: &[u8],
    plan: &plan::Plan,
    cursor: Cursor,
    scope: Scope,
    words: &Words,
    list: &mut [Entry],
) -> Guard
    ensures { WithNames scope words.now (λ ns. guarded result list.new
        ≡ guard_into scope.depth scope.w ns plan.now table.now cursor.at
        (standing cursor.here list.old)) }
{
    let number = numbers::value_at(table, cursor.at);
    let start = Cursor {
        at: number.next,
        here: cursor.here,
    };
    match numbers::kinds::guard_kind(number.value as u64) {
        GuardKind::Input => gen_waiting(table, plan, start, scope, words, list),
        GuardKind::Skip => {
            let test = expressions::gen_whole(table, plan, start, ALT_WORDS, scope, words, list);
            Guard {
                at: test.at,
                here: test.here,
                kind: GuardKind::Skip,
            }
        }
        GuardKind::Time => {
            let both = expressions::gen_both(table, plan, start, ALT_WORDS, scope, words, list);
            Guard {
                at: both.at,
                here: both.here,
                kind: GuardKind::Time,
            }
        }
    }
}

// One operation or another, by the kind of a guard.
fn by_kind(kind: GuardKind, input: u32, skip: u32, time: u32) -> u32
    ensures { result ≡ by_guard kind input skip time }
{
    match kind {
        GuardKind::Input => input,
        GuardKind::Skip => skip,
        GuardKind::Time => time,
    }
}

// The guard at a place is a time guard.
#[tactic(auto, unfolding(crate::specs::Alts::is_timed))]
fn is_time(table: &[u8], at: usize) -> bool
    ensures { result ≡ is_timed table.now at }
{
    let number = numbers::value_at(table, at);
    matches!(
        numbers::kinds::guard_kind(number.value as u64),
        GuardKind::Time
    )
}

// The place of the statement of the guard at a place, as the plan tells.
#[tactic(auto, unfolding(crate::specs::Alts::statement_of))]
fn statement_of(table: &[u8], plan: &plan::Plan, at: usize) -> usize
    ensures { result ≡ statement_of plan.now table.now at }
{
    let number = numbers::value_at(table, at);
    let behind = plan::next_in(plan::entry_at(plan, number.next));
    match numbers::kinds::guard_kind(number.value as u64) {
        GuardKind::Input => numbers::skip(table, numbers::skip(table, behind)),
        GuardKind::Skip => behind,
        GuardKind::Time => plan::next_in(plan::entry_at(plan, behind)),
    }
}

// The place of the next guard, behind this one's statement.
fn next_guard(table: &[u8], plan: &plan::Plan, at: usize) -> usize
    ensures { result ≡ next_guard plan.now table.now at }
{
    plan::extent_in(plan, statement_of(table, plan, at)).next
}

// There is a time guard among so many guards from a place on. The plan tells where each begins, so no statement is gone through.
fn has_time(table: &[u8], plan: &plan::Plan, first: usize, count: u32) -> bool
    ensures { result ≡ timed_in count plan.now table.now first }
{
    let mut at = first;
    for _ in 0..count {
        if is_time(table, at) {
            return true;
        }
        at = next_guard(table, plan, at);
    }
    false
}

// The enabling of so many guards: condition, LDLP channel, REV, ENBC, or condition, ENBS, or time, condition, ENBT. The answer is the index
// after it.
fn gen_enable(
    table: &[u8],
    plan: &plan::Plan,
    cursor: Cursor,
    count: u32,
    scope: Scope,
    words: &Words,
    list: &mut [Entry],
) -> u32
    ensures { WithNames scope words.now (λ ns. standing result list.new
        ≡ enable_into count scope.depth scope.w ns plan.now table.now cursor.at
        (standing cursor.here list.old)) }
{
    let Cursor { mut at, mut here } = cursor;
    for _ in 0..count {
        let start = Cursor { at, here };
        let guard = gen_guard(table, plan, start, scope, words, &mut *list);
        let code = by_kind(guard.kind, codes::ENBC, codes::ENBS, codes::ENBT);
        here = expressions::operation(&mut *list, guard.here, code);
        at = next_guard(table, plan, at);
    }
    here
}

// What an ALT begins with: AJW -1, ALT, the enabling, ALTWT; with a time guard TALT and TALTWT (02, order 4). The disabling that follows
// has the enabling's instructions and one more for each guard. The scope is the guards'.
pub fn gen_front(
    table: &[u8],
    plan: &plan::Plan,
    cursor: Cursor,
    count: u32,
    scope: Scope,
    words: &Words,
    list: &mut [Entry],
) -> Front
    ensures { WithNames scope words.now (λ ns. fronted result list.new
        ≡ front_into count scope.depth scope.w ns plan.now table.now cursor.at
        (standing cursor.here list.old)) }
{
    let timed = has_time(table, plan, cursor.at, count);
    let lower = expressions::minus(1);
    let second = expressions::plain(list, cursor.here, codes::AJW, lower);
    let (begins, waits) = if timed {
        (codes::TALT, codes::TALTWT)
    } else {
        (codes::ALT, codes::ALTWT)
    };
    let start = Cursor {
        at: cursor.at,
        here: expressions::operation(list, second, begins),
    };
    let wait = gen_enable(table, plan, start, count, scope, words, list);
    let disable = expressions::operation(list, wait, waits);
    let size = word::plus(word::less(wait, start.here), count);
    Front {
        disable,
        choice: word::plus(disable, size),
    }
}

// The rest of a guard's disabling: LDC branch, DISC, or LDC branch, DISS, or LDC branch, DIST. Distances of branches count from the byte
// after ALTEND, which is at index `choice`.
pub fn put_disable(list: &mut [Entry], guard: Guard, branch: u32, choice: u32) -> u32
    ensures { standing result list.new ≡ disable_into guard branch choice list.old }
{
    let second = expressions::distance(list, guard.here, codes::LDC, branch, choice);
    let code = by_kind(guard.kind, codes::DISC, codes::DISS, codes::DIST);
    expressions::operation(list, second, code)
}
