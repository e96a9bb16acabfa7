// The kinds and operators of document 01's table by their numbers, and how statements of a kind are laid out ("The program table"); 02,
// order 4: TIME, WAIT and time guards.
ghost use Rattle.std.specs.Prelude.{◌≡◌, get_or};
ghost use Rattle.numbers.specs.Kinds.{stmt_kind, expr_kind, guard_kind, operator_of, shape_of, count_at, count_in};

use crate::{Misread, Number, Value};
use model::kinds::{ExprKind, GuardKind, Operator, StmtKind};

// In the order of their numbers, from 0.
const STATEMENTS: [StmtKind; 14] = [
    StmtKind::Skip,
    StmtKind::Stop,
    StmtKind::Assign,
    StmtKind::Input,
    StmtKind::Output,
    StmtKind::Var,
    StmtKind::Chan,
    StmtKind::Seq,
    StmtKind::Par,
    StmtKind::If,
    StmtKind::While,
    StmtKind::Alt,
    StmtKind::Time,
    StmtKind::Wait,
];

const EXPRESSIONS: [ExprKind; 4] = [
    ExprKind::Constant,
    ExprKind::Variable,
    ExprKind::Not,
    ExprKind::Binary,
];

const GUARDS: [GuardKind; 3] = [GuardKind::Input, GuardKind::Skip, GuardKind::Time];

const OPERATORS: [Operator; 8] = [
    Operator::Plus,
    Operator::Minus,
    Operator::Times,
    Operator::Gt,
    Operator::Eq,
    Operator::And,
    Operator::Or,
    Operator::Xor,
];

// The last number of a statement's, an expression's and a guard's kind, and of an operator.
pub const LAST_STATEMENT: u64 = 13;

pub const LAST_EXPRESSION: u64 = 3;

pub const LAST_GUARD: u64 = 2;

pub const LAST_OPERATOR: u64 = 7;

// A statement without statements inside.
#[derive(Clone, Copy)]
pub enum Simple {
    Skip,
    Stop,
    Assign,
    Input,
    Output,
    Time,
    Wait,
}

// What a declaration declares.
#[derive(Clone, Copy)]
pub enum Declared {
    Variables,
    Channels,
}

// What stands before the statement of each part: nothing, a condition, or a guard.
#[derive(Clone, Copy)]
pub enum Head {
    Nothing,
    Condition,
    Guard,
}

// How the parts of a statement are counted: a count from 0 to a number is read, or there are so many without a count.
#[derive(Clone, Copy)]
pub enum Count {
    UpTo(u64),
    Fixed(u32),
}

// What is behind a kind: names or an expression; a count of names and a statement; so many branches of a PAR; or so many parts, one after
// the other.
#[derive(Clone, Copy)]
pub enum Shape {
    Simple(Simple),
    Declares(Declared),
    Branches(Count),
    Parts(Head, Count),
}

// What stands at a number of a list; `other` for a number past its end.
fn listed<K: Copy>(list: &[K], number: u64, other: K) -> K
    ensures { result ≡ get_or list.now number other }
{
    list.get(number as usize).copied().unwrap_or(other)
}

// The kind of a statement; SKIP for a number that has none.
#[tactic(auto, unfolding(crate::specs::Kinds::stmt_kind))]
pub fn stmt_kind(number: u64) -> StmtKind
    ensures { result ≡ stmt_kind number }
{
    listed(&STATEMENTS, number, StmtKind::Skip)
}

// The kind of an expression; an operator's for a number that has none.
#[tactic(auto, unfolding(crate::specs::Kinds::expr_kind))]
pub fn expr_kind(number: u64) -> ExprKind
    ensures { result ≡ expr_kind number }
{
    listed(&EXPRESSIONS, number, ExprKind::Binary)
}

// The kind of a guard; a SKIP guard for a number that has none.
#[tactic(auto, unfolding(crate::specs::Kinds::guard_kind))]
pub fn guard_kind(number: u64) -> GuardKind
    ensures { result ≡ guard_kind number }
{
    listed(&GUARDS, number, GuardKind::Skip)
}

// An operator; PLUS for a number that has none.
#[tactic(auto, unfolding(crate::specs::Kinds::operator_of))]
pub fn operator_of(number: u64) -> Operator
    ensures { result ≡ operator_of number }
{
    listed(&OPERATORS, number, Operator::Plus)
}

// What is behind a kind.
pub fn shape_of(kind: StmtKind) -> Shape
    ensures { result ≡ shape_of kind }
{
    match kind {
        StmtKind::Skip => Shape::Simple(Simple::Skip),
        StmtKind::Stop => Shape::Simple(Simple::Stop),
        StmtKind::Assign => Shape::Simple(Simple::Assign),
        StmtKind::Input => Shape::Simple(Simple::Input),
        StmtKind::Output => Shape::Simple(Simple::Output),
        StmtKind::Var => Shape::Declares(Declared::Variables),
        StmtKind::Chan => Shape::Declares(Declared::Channels),
        StmtKind::Seq => Shape::Parts(Head::Nothing, Count::UpTo(model::limits::PARTS)),
        StmtKind::Par => Shape::Branches(Count::UpTo(model::limits::BRANCHES)),
        StmtKind::If => Shape::Parts(Head::Condition, Count::UpTo(model::limits::PARTS)),
        StmtKind::While => Shape::Parts(Head::Condition, Count::Fixed(1)),
        StmtKind::Alt => Shape::Parts(Head::Guard, Count::UpTo(model::limits::PARTS)),
        StmtKind::Time => Shape::Simple(Simple::Time),
        StmtKind::Wait => Shape::Simple(Simple::Wait),
    }
}

// The count of parts, where one is read, and the place after it.
#[tactic(auto, unfolding(crate::specs::Kinds::count_at))]
pub fn read_count(table: &[u8], at: usize, count: Count) -> Result<Number, Misread>
    ensures { result ≡ count_at count table.now at }
{
    match count {
        Count::UpTo(most) => crate::read_between(table, at, 0, most),
        Count::Fixed(n) => Ok(Number {
            next: at,
            value: u64::from(n),
        }),
    }
}

// The same in a table that was read before; 0 for one that is too large, which stands where no statement begins.
#[tactic(auto, unfolding(crate::specs::Kinds::count_in))]
pub fn count_at(table: &[u8], at: usize, count: Count) -> Value
    ensures { result ≡ count_in count table.now at }
{
    match count {
        Count::UpTo(most) => {
            let number = crate::value_at(table, at);
            if most < u64::from(number.value) {
                Value { value: 0, ..number }
            } else {
                number
            }
        }
        Count::Fixed(n) => Value { value: n, next: at },
    }
}
