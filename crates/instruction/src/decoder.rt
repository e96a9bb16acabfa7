// Decoding (document 01, "The machine").
ghost use Rattle.std.specs.Prelude.{◌≡◌, length, drop};
ghost use Rattle.model.specs.Prefix.{gathered, decode as decoding};
ghost use Rattle.instruction.specs.Coded.{is_prefix, moved_up, answer};

// A decoded instruction: its function's four bits, its operand and the place after it.
#[derive(Clone, Copy, PartialEq, Eq)]
pub struct Instruction {
    pub function: u8,
    pub operand: u32,
    pub next: usize,
}

// The operand with its low four bits set to a byte's.
pub fn gather(operand: u32, byte: u8) -> u32
    ensures { result ≡ gathered operand byte }
{
    operand / 16 * 16 + (byte % 16) as u32
}

// Whether a function is PFIX or NFIX.
pub fn is_prefix(function: u8) -> bool
    ensures { result ≡ is_prefix function }
{
    matches!(function, 2 | 6)
}

// The operand behind a prefix byte: moved up by four bits, and by NFIX turned over before.
pub fn prefixed(operand: u32, function: u8) -> u32
    ensures { result ≡ moved_up operand function }
{
    if function == 2 {
        return operand % 268435456 * 16;
    }
    (4294967295 - operand) % 268435456 * 16
}

// Prefix bytes are gathered until a byte that is no prefix. None where the code ends before.
// Stays a `loop`: document 01 names this form, a loop that yields the instruction and the next place by `break`.
pub fn decode(code: &[u8], from: usize) -> Option<Instruction>
    ensures { result ≡ answer (length code.now) (decoding 0 (drop from code.now)) }
{
    let mut at = from;
    let mut operand: u32 = 0;
    let found = loop {
        if code.len() <= at {
            break None;
        }
        let byte = code[at];
        let function = byte / 16;
        let whole = gather(operand, byte);
        at += 1;
        if !is_prefix(function) {
            break Some(Instruction {
                function,
                operand: whole,
                next: at,
            });
        }
        operand = prefixed(whole, function);
    };
    found
}
