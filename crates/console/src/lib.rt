// The report of a table, written to standard output: for the bench program and for tests of it.
#![tactic(auto)]

use std::io::{self, Stdout};

// Writes the text that is still to come, up to the first write that fails.
fn print(out: Stdout, start: report::Report, code: &[u8], memory: &mut [u32]) -> io::Result<()> {
    let mut report = start;
    loop {
        let turn = report::next(report, code, memory);
        if !turn.more {
            return Ok(());
        }
        let piece = turn.piece;
        out.write_all(&piece.bytes[..piece.length])?;
        report = turn.report;
    }
}

// Writes what the bench program prints for a table; after a write that fails nothing more is. What is written are the pieces that `report`
// promises; a contract cannot speak of what a call of the system wrote, so there is none here.
pub fn print_report(out: Stdout, table: &[u8]) -> io::Result<()> {
    let mut code = [0; model::limits::CODE];
    let mut memory = [0; model::limits::MEMORY];
    let opened = report::open(table, &mut code, &mut memory);
    print(out, opened, &code, &mut memory)
}
