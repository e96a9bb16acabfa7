// Runs machines that a caller built, one to a line of standard input, and writes for each a line: the answer, and what is there afterwards.
//
// A line of the input is numbers in hexadecimal; what is no digit stands between numbers, and '#' begins a comment up to the end of the
// line. A line without a number is no case. The numbers of a case, with '/' where it is easier to read:
//   front back operand a b c workspace count place running queued / code base inputs outputs slice / clock, whether one was given, and
//   the timer queue's front / eight offers / eight held flags / kind and number of the kept fault (kinds 1 to 5: function, operation,
//   count, word, place; 0: none) / budget and clock / words lent / code bytes lent, then these bytes / address=value for some words.
// Every other word that is lent holds 7700 and its address.
//
// A line of the output has the answer (11 with the size needed), the registers and the setup in the order of the input, the held offers
// as input=value, the kept fault, and as address=value the words lent that are no longer what they were. Numbers are hexadecimal.
#![tactic(auto)]

use model::FaultKind;
use std::io::Stdout;

// The numbers that say a machine. Behind them come the budget, the clock, the words lent and the code bytes lent.
const MACHINE: usize = 37;

// The most words that a case is lent.
const WORDS: usize = 4200;

// The most bytes of its code.
const BYTES: usize = 512;

// The registers of a case.
fn cpu(numbers: &[u64]) -> model::Cpu {
    model::Cpu {
        front: lines::word(numbers, 0),
        back: lines::word(numbers, 1),
        operand: lines::word(numbers, 2),
        a: lines::word(numbers, 3),
        b: lines::word(numbers, 4),
        c: lines::word(numbers, 5),
        workspace: lines::word(numbers, 6),
        count: lines::word(numbers, 7),
        place: lines::word(numbers, 8),
        running: lines::flag(numbers, 9),
        queued: lines::flag(numbers, 10),
    }
}

// What a start would have fixed.
fn setup(numbers: &[u64]) -> model::Setup {
    model::Setup {
        code: lines::word(numbers, 0),
        base: lines::word(numbers, 1),
        inputs: lines::word(numbers, 2),
        outputs: lines::word(numbers, 3),
        slice: lines::word(numbers, 4),
    }
}

// Its clock and the front of its timer queue.
fn timer(numbers: &[u64]) -> model::Timer {
    model::Timer {
        clock: lines::word(numbers, 0),
        given: lines::flag(numbers, 1),
        front: lines::word(numbers, 2),
    }
}

// The offers of a case.
fn offers(numbers: &[u64]) -> [u32; 8] {
    let mut values = [0; 8];
    for i in 0..8 {
        values[i] = lines::word(numbers, i);
    }
    values
}

// Which offers are held.
fn held(numbers: &[u64]) -> [bool; 8] {
    let mut flags = [false; 8];
    for i in 0..8 {
        flags[i] = lines::flag(numbers, i);
    }
    flags
}

// The fault that a case keeps. Stays a number until here: it is the number in the input, and nothing else reads it.
fn kept(kind: u64, number: u32) -> Option<FaultKind> {
    match kind {
        1 => Some(FaultKind::Function(number)),
        2 => Some(FaultKind::Operation(number)),
        3 => Some(FaultKind::Count(number)),
        4 => Some(FaultKind::Word(number)),
        5 => Some(FaultKind::Place(number)),
        _ => None,
    }
}

// The machine of a case.
fn machine(numbers: &[u64]) -> model::Machine {
    model::Machine {
        cpu: cpu(numbers),
        setup: setup(lines::rest(numbers, 11)),
        timer: timer(lines::rest(numbers, 16)),
        offers: offers(lines::rest(numbers, 19)),
        held: held(lines::rest(numbers, 27)),
        fault: kept(lines::at(numbers, 35), lines::word(numbers, 36)),
    }
}

// A word that a case names.
fn store(words: &mut [u32], address: u64, value: u32) {
    if address < words.len() as u64 {
        words[address as usize] = value;
    }
}

// The words that a case names: addresses and values come in turn.
fn load_words(numbers: &[u64], words: &mut [u32]) {
    for pair in numbers.chunks_exact(2) {
        store(words, lines::at(pair, 0), lines::word(pair, 1));
    }
}

// The words that a case is lent: those that it names, and what the others hold.
fn load(named: &[u64], words: &mut [u32]) {
    show::fill(words);
    load_words(named, words);
}

// Writes the words that are no longer what they were.
fn print_changes(out: Stdout, before: &[u32], after: &[u32]) {
    for (i, (old, new)) in before.iter().zip(after.iter()).enumerate() {
        if old != new {
            show::print_value(out, i, *new);
        }
    }
}

// Runs a case, and writes its line. `before` and `memory` are the same words.
fn run(out: Stdout, numbers: &[u64], code: &[u8], before: &[u32], memory: &mut [u32]) {
    let left = show::run(
        out,
        machine(numbers),
        code,
        memory,
        lines::at(numbers, MACHINE),
        lines::word(numbers, MACHINE + 1),
    );
    show::print_machine(out, left, true);
    lines::write(out, b" /");
    print_changes(out, before, memory);
    lines::write(out, b"\n");
}

// Puts the words of a case into both memories, and runs it.
fn load_and_run(
    out: Stdout,
    numbers: &[u64],
    code: &[u8],
    named: &[u64],
    before: &mut [u32],
    memory: &mut [u32],
) {
    load(named, before);
    load(named, memory);
    run(out, numbers, code, before, memory);
}

// Lends a case its code and its memory. The numbers that are code and those that name words are given apart.
fn lend(out: Stdout, numbers: &[u64], codes: &[u64], named: &[u64], words: usize) {
    let mut code = [0; BYTES];
    let mut before = [0; WORDS];
    let mut memory = [0; WORDS];
    let end = lines::to_bytes(codes, &mut code);
    if words > WORDS || codes.len() > BYTES {
        return;
    }
    load_and_run(
        out,
        numbers,
        &code[..end],
        named,
        &mut before[..words],
        &mut memory[..words],
    );
}

// Answers a line's case, if it has one: finds its code's bytes and the words that it names.
fn answer(out: Stdout, numbers: &[u64]) {
    if numbers.is_empty() {
        return;
    }
    let words = lines::at(numbers, MACHINE + 2) as usize;
    let length = lines::at(numbers, MACHINE + 3);
    let rest = lines::rest(numbers, MACHINE as u64 + 4);
    lend(
        out,
        numbers,
        lines::front(rest, length),
        lines::rest(rest, length),
        words,
    );
}

// Answers the lines of standard input.
fn main(rt: HostRuntime) {
    let out = rt.stdout();
    let mut characters = [0; lines::CHARACTERS];
    let mut numbers = [0; lines::NUMBERS];
    let mut line = lines::begin(16);
    while line.left > 0 {
        line = lines::next_line(rt.stdin(), rt.stderr(), line, &mut characters, &mut numbers);
        answer(out, lines::row(line, &numbers));
    }
}
