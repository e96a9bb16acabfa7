// The numbers of a table, counts, kinds and names.
#![tactic(auto)]

ghost use Rattle.std.specs.Prelude.{◌≡◌, ◌<◌, ◌≤◌, IfOk};
ghost use Rattle.numbers.specs.Items.{misread, refusal_of, groups_at, number_at, between_at, name_at, deep_at, value_at};

use model::{Reason, Refusal};

pub mod kinds;

// A number and the place after it.
#[derive(Clone, Copy, Debug, PartialEq, Eq)]
pub struct Number {
    pub next: usize,
    pub value: u64,
}

// A refusal on its way through the reader: its place and its number, as whole words. Stays a number until the reader's end: a `Reason` has
// one byte, which cut the answers handed on into bytes; a hundred readings of SKIPs took 36 ms so, 17 ms before it, and take 15 ms with
// the number.
#[derive(Clone, Copy, Debug, PartialEq, Eq)]
pub struct Misread {
    pub place: usize,
    pub number: u32,
}

impl Misread {
    // The refusal for a reason at a place.
    fn of(reason: Reason, place: usize) -> Misread
        ensures { result ≡ misread reason place }
    {
        Misread {
            place,
            number: reason.number(),
        }
    }
}

impl From<Misread> for Refusal {
    ghost from_gives = { λ m r. r ≡ refusal_of m };

    fn from(misread: Misread) -> Refusal {
        let reason = match misread.number {
            1 => Reason::TableSize,
            2 => Reason::BadNumber,
            3 => Reason::OutOfRange,
            4 => Reason::TooDeep,
            5 => Reason::BadName,
            6 => Reason::BytesBehind,
            7 => Reason::Clash,
            9 => Reason::TooManyProcesses,
            10 => Reason::TooLarge,
            _ => Reason::Short,
        };
        reason.at(misread.place)
    }
}

// The groups from a place on, of at most `left` bytes. A group above 0 is needed behind one, and the value stays below 2^32.
#[tactic(auto, unfolding(crate::specs::Items::groups_at))]
pub fn read_groups(table: &[u8], at: usize, left: u64) -> Option<Number>
    ensures { result ≡ groups_at left table.now at }
{
    if left == 0 {
        return None;
    }
    if table.len() <= at {
        return None;
    }
    let b = u64::from(table[at]);
    if b < 128 {
        return Some(Number {
            value: b,
            next: at + 1,
        });
    }
    let Number { value: v, next } = read_groups(table, at + 1, left - 1)?;
    if v == 0 {
        return None;
    }
    if v < 33554432 {
        let value = b - 128 + 128 * v;
        Some(Number { value, next })
    } else {
        None
    }
}

// The number at a place, if one stands there that is not cut short, too long or too large. Most have one byte, which costs no call.
#[tactic(auto, unfolding(crate::specs::Items::groups_at))]
pub fn read_number(table: &[u8], at: usize) -> Option<Number>
    ensures { result ≡ groups_at 5 table.now at }
{
    if at < table.len() {
        let value = u64::from(table[at]);
        if value < 128 {
            return Some(Number {
                value,
                next: at + 1,
            });
        }
    }
    read_groups(table, at, 5)
}

// The same; else 2 at its byte.
#[tactic(auto, unfolding(crate::specs::Items::number_at))]
fn expect_number(table: &[u8], at: usize) -> Result<Number, Misread>
    ensures { result ≡ number_at table.now at }
{
    read_number(table, at).ok_or_else(|| Misread::of(Reason::BadNumber, at))
}

// A kind or a count from lo to hi; else 3 at its byte.
#[tactic(auto, unfolding(crate::specs::Items::between_at))]
pub fn read_between(table: &[u8], at: usize, lo: u64, hi: u64) -> Result<Number, Misread>
    ensures said { result ≡ between_at lo hi table.now at }
    ensures within { IfOk result (λ n. (lo ≤ n.value) × (n.value ≤ hi)) }
{
    let number = expect_number(table, at)?;
    if number.value < lo || hi < number.value {
        return Err(Misread::of(Reason::OutOfRange, at));
    }
    Ok(number)
}

// A name of which `count` are in scope, those from `from` up to `to` used the wrong way; else 5 at its byte.
#[tactic(auto, unfolding(crate::specs::Items::name_at))]
pub fn read_name(table: &[u8], at: usize, count: u64, from: u64, to: u64) -> Result<Number, Misread>
    ensures said { result ≡ name_at count from to table.now at }
    ensures below { IfOk result (λ n. n.value < count) }
{
    let name = expect_number(table, at)?;
    if count <= name.value || from <= name.value && name.value < to {
        return Err(Misread::of(Reason::BadName, at));
    }
    Ok(name)
}

// A part at depth 33: its first number may be bad, else 4 at its byte.
#[tactic(auto, unfolding(crate::specs::Items::deep_at))]
pub fn read_deep(table: &[u8], at: usize) -> Misread
    ensures { result ≡ deep_at table.now at }
{
    match expect_number(table, at) {
        Ok(_) => Misread::of(Reason::TooDeep, at),
        Err(misread) => misread,
    }
}

// A number of a table that was read before, and the place after it.
#[derive(Clone, Copy, Debug, PartialEq, Eq)]
pub struct Value {
    pub value: u32,
    pub next: usize,
}

// The number at a place; 0 and the place itself where none stands.
#[tactic(auto, unfolding(crate::specs::Items::value_at, crate::specs::Items::number_at))]
pub fn value_at(table: &[u8], at: usize) -> Value
    ensures { result ≡ value_at table.now at }
{
    match read_number(table, at) {
        Some(number) => Value {
            value: (number.value % 4294967296) as u32,
            next: number.next,
        },
        None => Value { value: 0, next: at },
    }
}

// The place after a number.
pub fn skip(table: &[u8], at: usize) -> usize
    ensures { result ≡ (value_at table.now at).next }
{
    value_at(table, at).next
}
