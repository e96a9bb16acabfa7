// The assembler: the bytes of a list of instructions (document 01, "Workspace and code").
#![tactic(auto)]

ghost use Rattle.std.specs.Prelude.{◌≡◌, length};
ghost use Rattle.assembler.specs.Places.{sized, placed, wrote, within};
ghost use Rattle.assembler.specs.Listed.{Size, Places, Bytes};

mod entry;

pub use entry::Entry;

// The most entries of a list: each takes at least one byte of code.
pub const ENTRIES: usize = model::limits::CODE;

// The place of each entry's first byte, and behind them the place after the last. The answer is the size of the code.
// The places are written through a slice: of one its length is known in the proof, behind a `&mut` to an array it is not.
pub fn place(list: &[Entry], places: &mut [u32; 16385]) -> u32
    ensures made { (result ≡ sized (within (length list.now)) 0 0 list.now)
        × (places.new ≡ placed (within (length list.now)) 0 0 list.now places.old) }
    ensures size { Size (length list.now) list.now result }
    ensures places { Places (length list.now) list.now places.new }
{
    let most = list.len().min(ENTRIES);
    let all = &mut places[..];
    let mut here: u32 = 0;
    for (i, entry) in list[..most].iter().enumerate() {
        all[i] = here;
        here = word::plus(here, entry.prefixes() + 1);
    }
    all[most] = here;
    here
}

// The bytes of a list into a lent buffer, by the places of its entries. Bytes past the buffer's end are left out.
pub fn write(list: &[Entry], places: &[u32; 16385], out: &mut [u8])
    ensures made { out.new ≡ wrote (within (length list.now)) 0 list.now places.now out.old }
    ensures bytes { Bytes (length list.now) list.now places.now out.old out.new }
{
    let most = list.len().min(ENTRIES);
    for (i, entry) in list[..most].iter().enumerate() {
        let operand = entry.operand(places);
        instruction::put_instruction(out, places[i], entry.prefixes(), entry.function(), operand);
    }
}
