// The kinds and operators of document 01's table ("The program table") and of document 02's orders, whose numbers stand in
// specs/Reader.antt and, for the code, in crate `numbers`; and how an operator's sides are brought in.

// Statements.
#[derive(Clone, Copy)]
pub enum StmtKind {
    Skip,
    Stop,
    Assign,
    Input,
    Output,
    Var,
    Chan,
    Seq,
    Par,
    If,
    While,
    Alt,
    Time,
    Wait,
}

// Expressions.
#[derive(Clone, Copy)]
pub enum ExprKind {
    Constant,
    Variable,
    Not,
    Binary,
}

// Guards.
#[derive(Clone, Copy)]
pub enum GuardKind {
    Input,
    Skip,
    Time,
}

// Operators.
#[derive(Clone, Copy)]
pub enum Operator {
    Plus,
    Minus,
    Times,
    Gt,
    Eq,
    And,
    Or,
    Xor,
}

// How two sides are brought in: left first, then right (document 01); right first, then left; or the right value is stored while left
// follows (document 02, order 2).
#[derive(Clone, Copy)]
pub enum Order {
    LeftFirst,
    RightFirst,
    RightStored,
}
