// One instruction into the list, at an index; the answer is the index after it. A function is the high four bits of its byte.
ghost use Rattle.std.specs.Prelude.{◌≡◌};
ghost use Rattle.model.specs.Word.{minus as negated};
ghost use Rattle.expressions.specs.Emits.{at as standing, put_into, plain_into, distance_into, operation_into};

use assembler::Entry;
use instruction::codes;

// A place in the table, and an index in the list.
#[derive(Clone, Copy)]
pub struct Cursor {
    pub at: usize,
    pub here: u32,
}

// An entry; past the list's end it is left out.
#[tactic(auto, unfolding(crate::specs::Emits::put_into))]
fn put(list: &mut [Entry], here: u32, entry: Entry) -> u32
    ensures { standing result list.new ≡ put_into entry (standing here list.old) }
{
    let index = here as usize;
    if index < list.len() {
        list[index] = entry;
    }
    word::plus(here, 1)
}

// An instruction with a plain operand.
pub fn plain(list: &mut [Entry], here: u32, function: u8, operand: u32) -> u32
    ensures { standing result list.new ≡ plain_into function operand (standing here list.old) }
{
    put(list, here, Entry::Plain { function, operand })
}

// An instruction whose operand is the distance from the byte after its user to the instruction reached, both by their indices. Indices of
// more than 16 bits are of a list that is too long, whose code is not made.
pub fn distance(list: &mut [Entry], here: u32, function: u8, reached: u32, user: u32) -> u32
    ensures { standing result list.new ≡ distance_into function reached user (standing here list.old) }
{
    let entry = Entry::Distance {
        function,
        reached: (reached % 65536) as u16,
        user: (user % 65536) as u16,
    };
    put(list, here, entry)
}

// OPR with an operation.
pub fn operation(list: &mut [Entry], here: u32, code: u32) -> u32
    ensures { standing result list.new ≡ operation_into code (standing here list.old) }
{
    plain(list, here, codes::OPR, code)
}

// The word -n.
pub fn minus(n: u32) -> u32
    ensures { result ≡ negated n }
{
    word::less(0, n)
}
