// The order in which an operator's sides are brought in (document 02, order 2), and the instructions that it asks for. A time guard's time
// and condition are such sides (order 4).
ghost use Rattle.std.specs.Prelude.{◌≡◌};
ghost use Rattle.expressions.specs.Emits.{at as standing};
ghost use Rattle.expressions.specs.Exprs.{sides_of, time_and_condition, arranged, between_into, behind_into};

use crate::emit;
use assembler::Entry;
use instruction::codes;
use model::kinds::Order;

// The places of two sides, and the place after both.
#[derive(Clone, Copy)]
pub struct Pair {
    pub left: usize,
    pub right: usize,
    pub next: usize,
}

// The order, the place of the side that goes first, that of the other and the values held before it.
#[derive(Clone, Copy)]
pub struct Sides {
    pub order: Order,
    pub first: usize,
    pub second: usize,
    pub held: u32,
}

// The sides of an operator: the left one at a place, the right one behind it.
pub fn sides_of(plan: &plan::Plan, at: usize) -> Pair
    ensures { result ≡ sides_of plan.now at }
{
    let right = plan::next_in(plan::entry_at(plan, at));
    Pair {
        left: at,
        right,
        next: plan::next_in(plan::entry_at(plan, right)),
    }
}

// A time guard's time and condition: the right one at a place, the left one behind it.
pub fn time_and_condition(plan: &plan::Plan, at: usize) -> Pair
    ensures { result ≡ time_and_condition plan.now at }
{
    let sides = sides_of(plan, at);
    Pair {
        left: sides.right,
        right: at,
        next: sides.next,
    }
}

// Two sides, with so many values held before.
pub fn arrange(plan: &plan::Plan, pair: Pair, held: u32) -> Sides
    ensures { result ≡ arranged plan.now held pair }
{
    let left = plan::entry_at(plan, pair.left);
    let right = plan::entry_at(plan, pair.right);
    let order = counts::order_of(plan::registers_in(left), plan::registers_in(right));
    let (first, second, held) = match order {
        Order::LeftFirst => (pair.left, pair.right, held),
        Order::RightFirst => (pair.right, pair.left, held),
        Order::RightStored => (pair.right, pair.left, word::plus(held, 1)),
    };
    Sides {
        order,
        first,
        second,
        held,
    }
}

// Between two sides: STL where the first value is stored, as number `held`. This and the next stay two: they are two rows of the scheme,
// which share no case that has code.
#[tactic(auto, unfolding(crate::specs::Exprs::between_into))]
pub fn put_between(order: Order, held: u32, list: &mut [Entry], here: u32) -> u32
    ensures { standing result list.new ≡ between_into order held (standing here list.old) }
{
    match order {
        Order::LeftFirst | Order::RightFirst => here,
        Order::RightStored => emit::plain(list, here, codes::STL, held),
    }
}

// Behind two sides: REV where right went first, LDL where it was stored.
#[tactic(auto, unfolding(crate::specs::Exprs::behind_into))]
pub fn put_behind(order: Order, held: u32, list: &mut [Entry], here: u32) -> u32
    ensures { standing result list.new ≡ behind_into order held (standing here list.old) }
{
    match order {
        Order::LeftFirst => here,
        Order::RightFirst => emit::operation(list, here, codes::REV),
        Order::RightStored => emit::plain(list, here, codes::LDL, held),
    }
}
