// Reads tables as text from standard input, and writes for each what the bench program prints for it.
//
// A line of the text is one table in hexadecimal, two digits to a byte; '#' begins a comment up to the end of the line. A line without a
// digit is no table.
#![tactic(auto)]

use std::io::Stdout;

// Answers a line's table, if it has one. What is written is compared with the expected text, so a write that fails shows there.
fn answer_line(out: Stdout, numbers: &[u64]) {
    let mut table = [0; lines::NUMBERS];
    let end = lines::to_bytes(numbers, &mut table);
    if end > 0 {
        let _written = console::print_report(out, &table[..end]);
    }
}

// Answers the lines of standard input.
fn main(rt: HostRuntime) {
    let out = rt.stdout();
    let mut characters = [0; lines::CHARACTERS];
    let mut numbers = [0; lines::NUMBERS];
    let mut line = lines::begin(2);
    while line.left > 0 {
        line = lines::next_line(rt.stdin(), rt.stderr(), line, &mut characters, &mut numbers);
        answer_line(out, lines::row(line, &numbers));
    }
}
