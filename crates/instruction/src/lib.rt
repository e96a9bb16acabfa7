// Coding an instruction with its prefixes, and decoding (document 01, "Workspace and code", "The machine").
#![tactic(auto)]

ghost use Rattle.std.specs.Prelude.{◌≡◌, suc, ◌%◌, ◌^◌, ◌<◌, ◌≤◌, set};
ghost use Rattle.std.proofs.lemmas.List.Edits.{sets};
ghost use Rattle.model.specs.Prefix.{shifted, first_prefix, prefixes, enough as enough_for, fewest as fewest_for};
ghost use Rattle.instruction.specs.Coded.{coded};

pub mod codes;
mod decoder;

pub use decoder::{Instruction, decode, gather, is_prefix, prefixed};

// A word divided by 16 as a signed number, rounded down.
#[tactic(auto, unfolding(model::specs::Prefix::shifted))]
fn shift(n: u32) -> u32
    ensures { result ≡ shifted n }
{
    if n < 2147483648 {
        n / 16
    } else {
        4294967295 - (4294967295 - n) / 16
    }
}

// The low four bits of a word.
fn digit(n: u32) -> u8
    ensures { (result ≡ n % 16) × (result < 16) }
{
    (n % 16) as u8
}

// Stores a byte; one outside is left out.
fn put(out: &mut [u8], at: usize, byte: u8)
    ensures { out.new ≡ set out.old at byte }
{
    if at < out.len() {
        out[at] = byte;
    }
}

// Below 0 the first prefix is NFIX, which turns every bit over, so its digit is turned over too.
#[tactic(auto, unfolding(model::specs::Prefix::first_prefix))]
fn first_prefix(n: u32) -> u8
    ensures { result ≡ first_prefix n }
{
    if n < 2147483648 {
        32 + digit(n)
    } else {
        96 + (15 - digit(n))
    }
}

// So many prefixes for the higher digits of an operand, stored from the last to the first: the last has the lowest digit.
fn put_prefixes(out: &mut [u8], here: usize, count: u32, n: u32)
    requires { here < 2 ^ 32 }
    ensures { out.new ≡ sets out.old here (prefixes count n) }
{
    let mut rest = n;
    for left in (1..count).rev() {
        put(out, here + left as usize, 32 + digit(rest));
        rest = shift(rest);
    }
    if 0 < count {
        put(out, here, first_prefix(rest));
    }
}

// An instruction with so many prefixes, whose function is the high four bits of a byte. Bytes outside are left out.
pub fn put_instruction(out: &mut [u8], here: u32, count: u32, function: u8, operand: u32)
    ensures { out.new ≡ sets out.old here (coded count function operand) }
{
    let start = here as usize;
    let last = function / 16 * 16 + digit(operand);
    put(out, start + count as usize, last);
    put_prefixes(out, start, count, shift(operand));
}

// Whether so many prefixes are enough for a signed operand. The limit, 16 to the number of digits, is kept by the caller.
#[tactic(auto, unfolding(model::specs::Prefix::enough))]
fn enough(prefixes: u32, limit: u64, n: u32) -> bool
    requires { limit ≡ 16 ^ suc prefixes }
    ensures { result ≡ enough_for prefixes n }
{
    if n < 2147483648 {
        return (n as u64) < limit;
    }
    prefixes != 0 && ((4294967295 - n) as u64) < limit
}

// The fewest prefixes that are enough for an operand.
pub fn fewest(n: u32) -> u32
    ensures said { result ≡ fewest_for n }
    ensures bound { result ≤ 7 }
{
    let mut limit: u64 = 16;
    for prefixes in 0..7 {
        if enough(prefixes, limit, n) {
            return prefixes;
        }
        limit *= 16;
    }
    7
}
