// Reads tables as text from standard input, and writes what the reader and the compiler answer: a line for each table, and for an accepted
// one a second line with its code, or with the compiler's refusal.
//
// A line of the text is one table in hexadecimal, two digits to a byte; what is no digit stands between bytes. '#' begins a comment
// up to the end of the line. A line that begins with '#' is no table; any other without a digit is the empty table. A table is
// answered at its line's end, so the last line has one too.
#![tactic(auto)]

use lines::write;
use model::{Facts, Reason, Refusal};
use std::io::Stdout;

// A byte that no code has: there is no direct function 9. The lent buffers are of these, as long as the longest code.
const BLANK: u8 = 0x99;

// Writes that a promise is broken, and which. No run should come here.
fn wrong(out: Stdout, what: &[u8]) {
    write(out, b"wrong ");
    write(out, what);
    write(out, b"\n");
}

// Writes a refusal's line.
fn print_refusal(out: Stdout, refusal: Refusal) {
    lines::show(out, &format_args!("{refusal}\n"));
}

// Writes what the reader says of an accepted table.
fn print_facts(out: Stdout, facts: Facts) {
    lines::show(
        out,
        &format_args!(
            "words {} in {} out {} processes {}\n",
            facts.words, facts.inputs, facts.outputs, facts.processes
        ),
    );
}

// Writes a table's code.
fn print_code(out: Stdout, code: &[u8]) {
    write(out, b"code");
    if !code.is_empty() {
        write(out, b" ");
    }
    lines::print_bytes(out, b"", code);
    write(out, b"\n");
}

// Whether all bytes are as they were lent.
fn is_blank(bytes: &[u8]) -> bool {
    bytes.iter().all(|&byte: &u8| byte == BLANK)
}

// Whether a table is refused so, and every byte of the lent buffer is kept.
fn is_refused(table: &[u8], lent: &mut [u8], refusal: Refusal) -> bool {
    compiler::compile_into(table, lent) == Err(refusal) && is_blank(lent)
}

// Whether a table is compiled into that code, and the lent buffer is just long enough for it.
fn is_compiled(table: &[u8], lent: &mut [u8], code: &[u8]) -> bool {
    compiler::compile_into(table, lent) == Ok(code.len()) && code == lent
}

// With a byte less room than the code needs the answer is 11 and the code's length.
fn check_short(out: Stdout, table: &[u8], length: usize, buffer: &mut [u8]) {
    if length == 0 {
        return;
    }
    let room = length - 1;
    if room > buffer.len() {
        return;
    }
    let short = Refusal {
        reason: Reason::Short,
        returned: length,
    };
    if !is_refused(table, &mut buffer[..room], short) {
        wrong(out, b"short room");
    }
}

// Code needs no more than its own room.
fn check_room(out: Stdout, table: &[u8], code: &[u8], buffer: &mut [u8]) {
    let length = code.len();
    if length > buffer.len() {
        return;
    }
    if !is_compiled(table, &mut buffer[..length], code) {
        wrong(out, b"room");
    }
}

// Writes a table's code, which is the front of the buffer, and checks the rest of the buffer and the room.
fn answer_code(out: Stdout, table: &[u8], buffer: &[u8], length: usize) {
    if length > buffer.len() {
        wrong(out, b"length");
        return;
    }
    let mut other = [BLANK; model::limits::CODE];
    print_code(out, &buffer[..length]);
    if !is_blank(&buffer[length..]) {
        wrong(out, b"rest");
    }
    check_short(out, table, length, &mut other);
    check_room(out, table, &buffer[..length], &mut other);
}

// Writes why an accepted table is not compiled. The buffer is as it was lent, and the refusal comes before the test of the room.
fn answer_uncompiled(out: Stdout, table: &[u8], buffer: &[u8], refusal: Refusal) {
    print_refusal(out, refusal);
    if !is_blank(buffer) {
        wrong(out, b"rest");
    }
    if !is_refused(table, &mut [], refusal) {
        wrong(out, b"refusal without room");
    }
}

// Compiles an accepted table, and writes its code or the refusal.
fn answer_accepted(out: Stdout, table: &[u8]) {
    let mut buffer = [BLANK; model::limits::CODE];
    match compiler::compile_into(table, &mut buffer) {
        Ok(length) => answer_code(out, table, &buffer, length),
        Err(refusal) => answer_uncompiled(out, table, &buffer, refusal),
    }
}

// Writes the reader's refusal, which is the compiler's too.
fn answer_refused(out: Stdout, table: &[u8], refusal: Refusal) {
    let mut buffer = [BLANK; model::limits::CODE];
    print_refusal(out, refusal);
    if !is_refused(table, &mut buffer, refusal) {
        wrong(out, b"refusal");
    }
}

// Writes the answers to a table.
fn answer(out: Stdout, table: &[u8]) {
    match table::read(table) {
        Ok(facts) => {
            print_facts(out, facts);
            answer_accepted(out, table);
        }
        Err(refusal) => answer_refused(out, table, refusal),
    }
}

// Answers a line's table, if it has one: a line that is all comment has none, any other without a number has the empty table.
fn answer_line(out: Stdout, line: lines::Line, numbers: &[u64]) {
    let mut table = [0; lines::NUMBERS];
    let end = lines::to_bytes(numbers, &mut table);
    if !line.remark {
        answer(out, &table[..end]);
    }
}

// Answers the lines of standard input.
fn main(rt: HostRuntime) {
    let out = rt.stdout();
    let mut characters = [0; lines::CHARACTERS];
    let mut numbers = [0; lines::NUMBERS];
    let mut line = lines::begin(2);
    while line.left > 0 {
        line = lines::next_line(rt.stdin(), rt.stderr(), line, &mut characters, &mut numbers);
        answer_line(out, line, lines::row(line, &numbers));
    }
}
