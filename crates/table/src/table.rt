// A whole table: the channel counts, the statement, and what is tested after it was read.
ghost use Rattle.std.specs.Prelude.{◌≡◌, ◌≤◌, length};
ghost use Rattle.table.specs.Tables.{finished, body_at, table_at};

use crate::stmt::{Names, Part};
use model::limits::{CHANNELS, DEPTH, PROCESSES, TABLE};
use model::{Facts, Reason, Refusal};

// The answer for a statement that was read: refusals 6, 7 and 9, lowest first, then the facts.
#[tactic(auto, unfolding(crate::specs::Tables::finished))]
fn finish(ins: u64, outs: u64, length: usize, part: Part) -> Result<Facts, Refusal>
    requires { (ins ≤ 8) × (outs ≤ 8) × (part.words ≤ 655360) }
    ensures { result ≡ finished ins outs length part }
{
    if part.next < length {
        return Err(Reason::BytesBehind.at(part.next));
    }
    if 0 < part.clash {
        return Err(Reason::Clash.at(part.clash - 1));
    }
    if PROCESSES < part.processes {
        return Err(Reason::TooManyProcesses.at(0));
    }
    Ok(Facts {
        words: part.words + ins as u32 + outs as u32,
        inputs: ins as u32,
        outputs: outs as u32,
        processes: part.processes,
    })
}

// The statement behind the channel counts, and nothing behind it.
#[tactic(auto, unfolding(crate::specs::Tables::body_at))]
fn read_body(table: &[u8], at: usize, inputs: u64, outputs: u64) -> Result<Facts, Refusal>
    requires { (inputs ≤ 8) × (outputs ≤ 8) × (length table.now ≤ 16384) }
    ensures { result ≡ body_at inputs outputs table.now at }
{
    let names = Names {
        variables: 0,
        channels: inputs + outputs,
        inputs,
        outputs,
    };
    let mut sets: [u64; 64] = [0; 64];
    let part = crate::stmt::read_stmt(table, at, DEPTH, names, &mut sets)?;
    finish(inputs, outputs, table.len(), part)
}

// A table of 1 byte to the most that one may have: the channel counts, then the statement.
#[tactic(auto, unfolding(crate::specs::Tables::table_at))]
pub fn read_table(table: &[u8]) -> Result<Facts, Refusal>
    ensures { result ≡ table_at table.now }
{
    if table.is_empty() || TABLE < table.len() {
        return Err(Reason::TableSize.at(0));
    }
    let inputs = numbers::read_between(table, 0, 0, CHANNELS)?;
    let outputs = numbers::read_between(table, inputs.next, 0, CHANNELS)?;
    read_body(table, outputs.next, inputs.value, outputs.value)
}
