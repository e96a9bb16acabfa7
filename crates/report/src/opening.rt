// The text's beginning: a table is compiled and started.
ghost use Rattle.std.specs.Prelude.{◌≡◌, ◌+◌, ◌≤◌, length, take, Ok};
ghost use Rattle.model.specs.Limits.{code_limit, word_limit};
ghost use Rattle.model.specs.Accept.{accept};
ghost use Rattle.model.specs.Code.{compile, compiled_answer};
ghost use Rattle.model.specs.Bench.{bench};
ghost use Rattle.report.specs.Texts.{text_of};
ghost use Rattle.report.specs.Opens.{refusing as refusing_for, Begins, begun_by, loaded, Opens, open_of};

use crate::stage::{Report, Stage};
use model::{Reason, Refusal};

// Two rounds more than there are instructions, as in the definition (specs/Bench.antt `bench`).
const ROUNDS: u32 = model::limits::BENCH_BUDGET as u32 + 2;

// A report of a refusal.
fn refusing(refusal: Refusal) -> Report
    ensures { result ≡ refusing_for refusal }
{
    Report {
        machine: machine::blank(),
        stage: Stage::Refused(refusal.reason.number(), refusal.returned),
        total: 0,
        left: 0,
        outputs: 0,
        size: 0,
        words: 0,
    }
}

// The code is started over the front of the memory.
fn begin(facts: model::Facts, code: &[u8], memory: &mut [u32]) -> Report
    requires { (facts.inputs + facts.outputs ≤ facts.words) × (facts.words ≤ length memory.old) }
    ensures { Begins (begun_by facts code.now memory.old) result memory.new }
{
    let words = facts.words as usize;
    let w = facts.words - facts.inputs - facts.outputs;
    let begun = machine::start(
        code,
        &mut memory[..words],
        w,
        facts.inputs,
        facts.outputs,
        model::limits::BENCH_SLICE,
    );
    Report {
        machine: begun.machine,
        stage: Stage::Bytes,
        total: 0,
        left: ROUNDS,
        outputs: facts.outputs,
        size: code.len(),
        words,
    }
}

// A compiled table is started.
fn load(table: &[u8], code: &[u8], size: usize, memory: &mut [u32]) -> Report
    requires size_in_bounds { (size ≤ length code.now) × (word_limit ≤ length memory.old) }
    requires code_limit_value { compiled_answer (compile table.now code_limit) ≡ Ok size }
    ensures { Begins (loaded (accept table.now) (take size code.now) memory.old) result memory.new }
{
    match table::read(table) {
        Ok(facts) => begin(facts, &code[..size], memory),
        Err(unread) => refusing(unread),
    }
}

// Compiles a table into the first 16,384 bytes of a lent code buffer and starts it over lent memory of at least 4,096 words. Buffers that
// are shorter get refusal 11.
pub fn open(table: &[u8], code: &mut [u8], memory: &mut [u32]) -> Report
    ensures opens { Opens (open_of table.now code.old memory.old) result code.new memory.new }
    ensures text { 16384 ≤ length code.old → 4096 ≤ length memory.old
        → text_of code.new result memory.new ≡ bench table.now }
{
    if code.len() < model::limits::CODE {
        return refusing(Reason::Short.at(model::limits::CODE));
    }
    if memory.len() < model::limits::MEMORY {
        return refusing(Reason::Short.at(model::limits::MEMORY));
    }
    match compiler::compile_into(table, &mut code[..model::limits::CODE]) {
        Ok(size) => load(table, &*code, size, memory),
        Err(refusal) => refusing(refusal),
    }
}
