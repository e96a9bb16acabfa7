// What is counted of the parts of a program, for the reader and for the compiler: registers and stored values (document 02, order 2), and
// words (document 01, "Workspace and code"; 02, order 4). Stored values are at most 255 where they are summed: an expression of 32 levels
// has fewer than 32, and an entry of the compiler's plan has 8 bits for them. Two sides hold at most one more.
#![tactic(auto)]

ghost use Rattle.std.specs.Prelude.{◌≡◌, ◌≤◌};
ghost use Rattle.model.specs.Counts.{sides_need, order_of, sides_hold, guard_words};
ghost use Rattle.counts.specs.Words.{asked, least_words};

use model::kinds::Order;
use model::limits::REGISTERS;
use numbers::kinds::Head;

// The words of SKIP, STOP and TIME, of an input, and of a PAR beside its branches.
pub const IDLE_WORDS: u32 = 2;

pub const INPUT_WORDS: u32 = 3;

pub const PAR_WORDS: u32 = 2;

// What an expression that stands in no other is: a value or a condition, what is output, a guard's condition, a time that is waited for,
// or a time guard's time and condition together.
#[derive(Clone, Copy, Debug, PartialEq, Eq)]
pub enum Role {
    Value,
    Output,
    Guard,
    Wait,
    Time,
}

// The registers of an operator by those of its sides: one more where both need the same, else the larger, and never over 3.
#[tactic(auto, unfolding(model::specs::Counts::sides_need))]
pub fn sides_need(left: u32, right: u32) -> u32
    ensures { result ≡ sides_need left right }
{
    let most = left.max(right);
    if REGISTERS <= most {
        return REGISTERS;
    }
    if left == right {
        return most + 1;
    }
    most
}

// The order of two sides by their registers.
#[tactic(auto, unfolding(model::specs::Counts::order_of))]
pub fn order_of(left: u32, right: u32) -> Order
    ensures { result ≡ order_of left right }
{
    if left < right {
        return Order::RightFirst;
    }
    if left == REGISTERS && right == REGISTERS {
        return Order::RightStored;
    }
    Order::LeftFirst
}

// The values that two sides hold together at most, by what each holds: where the right value is stored, left holds it beside its own.
#[tactic(auto, unfolding(model::specs::Counts::sides_hold))]
pub fn sides_hold(order: Order, left: u32, right: u32) -> u32
    requires { left ≤ 255 }
    ensures { result ≡ sides_hold order left right }
{
    match order {
        Order::LeftFirst | Order::RightFirst => left.max(right),
        Order::RightStored => (left + 1).max(right),
    }
}

// The words that an ALT asks for, by the stored values of a guard.
#[tactic(auto, unfolding(model::specs::Counts::guard_words))]
fn guard_words(stored: u32) -> u32
    requires { stored ≤ 256 }
    ensures { result ≡ guard_words stored }
{
    if stored == 0 { 0 } else { stored + 8 }
}

// The words that a statement asks for, by the stored values of an expression in it.
#[tactic(auto, unfolding(crate::specs::Words::asked))]
pub fn ask(role: Role, stored: u32) -> u32
    requires { stored ≤ 256 }
    ensures { result ≡ asked role stored }
{
    match role {
        Role::Value => stored + 2,
        Role::Output => 4.max(stored + 3),
        Role::Guard => guard_words(stored),
        Role::Wait => 5.max(stored + 2),
        Role::Time => 6.max(guard_words(stored)),
    }
}

// The least words that a statement of parts needs.
pub fn least_words(head: Head) -> u32
    ensures { result ≡ least_words head }
{
    match head {
        Head::Nothing | Head::Condition => 2,
        Head::Guard => 4,
    }
}
