// Reads the table of standard input a hundred times, for measuring, and writes the memory words that it needs, or a refusal's number and
// place. speed/tables.py makes tables for it.
#![tactic(auto)]

use model::{Facts, Refusal};

// Reads the table a hundred times.
fn read_hundred(table: &[u8]) -> Result<Facts, Refusal> {
    let mut answer = table::read(table);
    for _ in 1..100 {
        answer = table::read(table);
    }
    answer
}

// Reads into room for the longest table and one byte more, so that a longer input is refused and not cut off.
fn main(rt: HostRuntime) {
    let out = rt.stdout();
    let mut table = [0; model::limits::TABLE + 1];
    let n = lines::read_full(rt.stdin(), &mut table);
    match read_hundred(&table[..n]) {
        Ok(facts) => lines::print(out, b"words ", facts.words as u64),
        Err(refusal) => lines::show(out, &refusal),
    }
    lines::write(out, b"\n");
}
