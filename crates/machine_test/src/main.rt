// Starts machines, and writes for each a line: what is lent and asked, the answer, and the memory afterwards.
//
// Lent are the first bytes of some code and the first words of a memory of 4,100 words, all of them 7 before. An answer is document 01's
// number, 11 with the size needed, or `started` with what the machine keeps of the start. The whole memory follows, as runs of equal words.
#![tactic(auto)]

ghost use Rattle.std.specs.Prelude.{◌+◌, ◌<◌, ◌≤◌, length};
ghost use Rattle.model.specs.Limits.{code_limit, word_limit};

use lines::print;
use model::StartRefusal;
use std::io::Stdout;

// The code's room: a byte longer than a start takes.
const BYTES: usize = model::limits::CODE + 1;

// The memory's words: more than a start needs.
const WORDS: usize = model::limits::MEMORY + 4;

// The place from which on words differ from the one at a place, or the end.
fn same_until(memory: &[u32], from: usize) -> usize
    requires { from < length memory.now }
    ensures { (from < result) × (result ≤ length memory.now) }
{
    for i in from + 1..memory.len() {
        if memory[i] != memory[from] {
            return i;
        }
    }
    memory.len()
}

// Writes how many words have a value.
fn print_run(out: Stdout, count: usize, value: u32) {
    print(out, b" ", count as u64);
    print(out, b"*", value as u64);
}

// Writes a memory as runs of equal words.
fn print_runs(out: Stdout, memory: &[u32]) {
    let mut i = 0;
    while i < memory.len() {
        let end = same_until(memory, i);
        print_run(out, end - i, memory[i]);
        i = end;
    }
}

// Writes what a start keeps.
fn print_setup(out: Stdout, setup: model::Setup) {
    print(out, b"started code ", setup.code as u64);
    print(out, b" w ", setup.base as u64);
    print(out, b" in ", setup.inputs as u64);
    print(out, b" out ", setup.outputs as u64);
    print(out, b" slice ", setup.slice as u64);
}

// Writes a start's answer.
fn print_answer(out: Stdout, answer: model::StartAnswer, setup: model::Setup) {
    match answer {
        Ok(()) => print_setup(out, setup),
        Err(StartRefusal::BadSlice) => print(out, b"", 15),
        Err(StartRefusal::BadCount) => print(out, b"", 3),
        Err(StartRefusal::TooLarge) => print(out, b"", 10),
        Err(StartRefusal::Short(size)) => print(out, b"11 ", size),
    }
}

// What a start is lent and asked.
#[derive(Clone, Copy)]
struct Case {
    code: usize,
    memory: usize,
    w: u32,
    inputs: u32,
    outputs: u32,
    slice: u32,
}

// Writes what a start is lent and asked.
fn print_case(out: Stdout, case: Case) {
    print(out, b"", case.code as u64);
    print(out, b" ", case.memory as u64);
    print(out, b" ", case.w as u64);
    print(out, b" ", case.inputs as u64);
    print(out, b" ", case.outputs as u64);
    print(out, b" ", case.slice as u64);
    lines::write(out, b": ");
}

// Starts a machine over the first bytes and the first words, and writes the answer.
fn answer(out: Stdout, bytes: &[u8], words: &mut [u32], case: Case)
    requires { (case.code ≤ length bytes.now) × (case.memory ≤ length words.old) }
{
    let begun = machine::start(
        &bytes[..case.code],
        &mut words[..case.memory],
        case.w,
        case.inputs,
        case.outputs,
        case.slice,
    );
    print_answer(out, begun.answer, begun.machine.setup);
}

// Writes a start's line.
fn start(out: Stdout, code: usize, memory: usize, w: u32, inputs: u32, outputs: u32, slice: u32)
    requires { (code ≤ code_limit + 1) × (memory ≤ word_limit + 4) }
{
    let case = Case {
        code,
        memory,
        w,
        inputs,
        outputs,
        slice,
    };
    let bytes = [0; BYTES];
    let mut words = [7; WORDS];
    print_case(out, case);
    answer(out, &bytes, &mut words, case);
    print_runs(out, &words);
    lines::write(out, b"\n");
}

// The slice: 1 to 65,535.
fn slices(out: Stdout) {
    start(out, 7, 8, 5, 1, 1, 0);
    start(out, 7, 8, 5, 1, 1, 1);
    start(out, 7, 8, 5, 1, 1, 65535);
    start(out, 7, 8, 5, 1, 1, 65536);
    start(out, 7, 8, 5, 1, 1, 4294967295);
}

// Channel counts: 0 to 8 each.
fn counts(out: Stdout) {
    start(out, 7, 20, 3, 8, 0, 32);
    start(out, 7, 20, 3, 9, 0, 32);
    start(out, 7, 20, 3, 0, 8, 32);
    start(out, 7, 20, 3, 0, 9, 32);
    start(out, 7, 20, 3, 9, 9, 32);
    start(out, 7, 20, 3, 4294967295, 1, 32);
}

// Words with outside channels: at most 4,096, summed wide.
fn words(out: Stdout) {
    start(out, 7, 4100, 4080, 8, 8, 32);
    start(out, 7, 4100, 4081, 8, 8, 32);
    start(out, 7, 4096, 4096, 0, 0, 32);
    start(out, 7, 4100, 4097, 0, 0, 32);
    start(out, 7, 4100, 4294967280, 8, 8, 32);
    start(out, 7, 4100, 4294967295, 0, 0, 32);
}

// Code bytes: at most 16,384.
fn codes(out: Stdout) {
    start(out, 0, 4, 2, 1, 0, 32);
    start(out, 16384, 4, 2, 1, 0, 32);
    start(out, 16385, 4, 2, 1, 0, 32);
}

// Memory: as many words as are needed, or more.
fn memories(out: Stdout) {
    start(out, 7, 7, 5, 1, 1, 32);
    start(out, 7, 6, 5, 1, 1, 32);
    start(out, 7, 0, 0, 0, 0, 32);
    start(out, 7, 0, 0, 0, 1, 32);
    start(out, 7, 4095, 4080, 8, 8, 32);
    start(out, 7, 4100, 2, 1, 2, 32);
}

// Two causes at a time: 15 before 3, 10 and 11.
fn slice_first(out: Stdout) {
    start(out, 7, 20, 3, 9, 0, 0);
    start(out, 7, 4100, 4097, 0, 0, 65536);
    start(out, 16385, 20, 3, 0, 0, 0);
    start(out, 7, 2, 3, 0, 0, 65536);
}

// Then 3 before 10 and 11, and 10 before 11.
fn then_counts(out: Stdout) {
    start(out, 7, 4100, 4097, 0, 9, 32);
    start(out, 16385, 20, 3, 9, 0, 32);
    start(out, 7, 2, 3, 0, 9, 32);
    start(out, 7, 2, 4097, 0, 0, 32);
    start(out, 16385, 2, 3, 0, 0, 32);
}

fn main(rt: HostRuntime) {
    let out = rt.stdout();
    slices(out);
    counts(out);
    words(out);
    codes(out);
    memories(out);
    slice_first(out);
    then_counts(out);
}
