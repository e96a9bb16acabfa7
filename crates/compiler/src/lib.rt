// Compiling a program table into Transputer code (document 01, "Workspace and code"): the reader's facts, the scheme's list of
// instructions, and its bytes.
#![tactic(auto)]

ghost use Rattle.std.specs.Prelude.{◌≡◌, length};
ghost use Rattle.model.specs.Code.{compile as compilation, compiled_answer, buffer_after, given_back, number_of, returned_of};
ghost use Rattle.model.specs.Answers.{refused_compiling};
ghost use Rattle.model.specs.Refusals.{compile_refusal};
ghost use Rattle.statements.specs.Tables.{Lists};
ghost use Rattle.compiler.specs.Codes.{Assembles};

use assembler::Entry;
use model::{Facts, Reason, Refusal};

// The list of an accepted table, and its length. The plan is needed for it alone.
fn generate(table: &[u8], facts: Facts, list: &mut [Entry]) -> u32
    ensures { Lists table.now facts list.old list.new result }
{
    let mut plan: plan::Plan = [0; model::limits::TABLE];
    plan::make_plan(table, &mut plan);
    statements::generate(table, &plan, facts, list)
}

// The bytes of a list into a lent buffer: code that is too long, or longer than the buffer, is refused, and the buffer stays as it was.
fn assemble(list: &[Entry], out: &mut [u8]) -> Result<usize, Refusal>
    ensures { Assembles list.now (length list.now) out.old out.new result }
{
    let mut places: [u32; 16385] = [0; 16385];
    let size = assembler::place(list, &mut places) as usize;
    if model::limits::CODE < size {
        return Err(Reason::TooLarge.at(0));
    }
    if out.len() < size {
        return Err(Reason::Short.at(size));
    }
    assembler::write(list, &places, out);
    Ok(size)
}

// Compiles a table into a lent buffer: the code in front and the rest as it was; on any refusal all of it as it was. A list of more
// instructions than code may have bytes is refused without being coded: each takes at least one byte.
pub fn compile_into(table: &[u8], out: &mut [u8]) -> Result<usize, Refusal>
    ensures answer { result ≡ compiled_answer (compilation table.now (length out.old)) }
    ensures buffer { out.new ≡ buffer_after (compilation table.now (length out.old)) out.old }
    ensures refusal { refused_compiling result ≡ compile_refusal (compilation table.now (length out.old)) }
{
    let facts = table::read(table)?;
    if model::limits::WORDS < facts.words {
        return Err(Reason::TooLarge.at(0));
    }
    let mut list = [Entry::BLANK; assembler::ENTRIES];
    let count = generate(table, facts, &mut list) as usize;
    if assembler::ENTRIES < count {
        return Err(Reason::TooLarge.at(0));
    }
    assemble(&list[..count], out)
}

// The same, giving back the filled front of the lent buffer, with 0 and the code's length beside it. On a refusal the whole buffer is
// given back as it was, with the refusal's number and what it returns. Both stay beside the slice: document 01 names this call's form, and
// its clauses say them apart.
pub fn compile<'a>(
    table: &[u8],
    out: &'a mut [u8],
    number: &mut u32,
    returned: &mut usize,
) -> &'a mut [u8]
    ensures given { result.now ≡ given_back (compilation table.now (length out.old)) out.old }
    ensures number { number.new ≡ number_of (compilation table.now (length out.old)) }
    ensures returned { returned.new ≡ returned_of (compilation table.now (length out.old)) }
{
    match compile_into(table, &mut *out) {
        Ok(size) => {
            *number = 0;
            *returned = size;
            &mut out[..size]
        }
        Err(refusal) => {
            *number = refusal.reason.number();
            *returned = refusal.returned;
            &mut out[..]
        }
    }
}
