// Makes calls, a list of them to a line of standard input, and writes for each list a line: every answer, and what is there afterwards.
//
// A line of the input is numbers in hexadecimal; what is no digit stands between numbers, and '#' begins a comment up to the end of the
// line. A line without a number is no list. The first number of a call says which it is:
//   0 n and n bytes    these bytes are the front of the code, and they alone are lent from here on
//   1 c w              from here on the first c bytes of the code and the first w words of the memory are lent
//   2 w i o q          start: W, outside inputs and outputs, slice
//   3 q n and n bytes  the table of these bytes is compiled into the front of the code, which is lent from here on, and started
//   4 b c              run with a budget and a clock
//   5 k v              offer
//   6 k                take
// A list begins with 4,200 words lent, which hold 7700 and their address, no code, and the machine that a refused start gives.
//
// A line of the output has the answers. A table that is refused is `refused N at P`; a call's refusal is its number, 3 and 10 with the
// place, 11 with the size needed; 12 is `fault` and what was at fault, in a run behind the instructions executed. Then come the registers
// in the order of model::Cpu; the last clock given, whether one was given, and the timer queue's front; the held offers as input=value;
// the kept fault; and a sum over the memory's 4,200 words. Numbers are hexadecimal, but for those of refusals.
#![tactic(auto)]

use lines::{at, word};
use model::{Machine, Refusal};
use std::io::Stdout;

// The code's room: longer than any code and than a start takes.
const BYTES: usize = model::limits::CODE + 256;

// The memory's words: more than any program needs.
const WORDS: usize = 4200;

// A call of a list. The numbers of a code or a table are its bytes.
#[derive(Clone, Copy)]
enum Call<'a> {
    Code(&'a [u64]),
    Lend(usize, usize),
    Start(Start),
    Table(u32, &'a [u64]),
    Run(u64, u32),
    Offer(u32, u32),
    Take(u32),
}

// What a start is asked.
#[derive(Clone, Copy)]
struct Start {
    w: u32,
    inputs: u32,
    outputs: u32,
    slice: u32,
}

// How far a list has come: the machine, what is lent, and whether there was no answer yet.
#[derive(Clone, Copy)]
struct List {
    machine: Machine,
    bytes: usize,
    words: usize,
    first: bool,
}

// The first so many numbers behind some, and no more than there is room for.
fn bytes_of(numbers: &[u64], behind: u64, count: u64, room: u64) -> &[u64] {
    lines::front(lines::front(lines::rest(numbers, behind), count), room)
}

// The call that numbers begin with, and how many it takes; none where the first is no call's number.
fn parse(numbers: &[u64]) -> Option<(Call<'_>, usize)> {
    match at(numbers, 0) {
        0 => {
            let bytes = bytes_of(numbers, 2, at(numbers, 1), BYTES as u64);
            Some((Call::Code(bytes), bytes.len().wrapping_add(2)))
        }
        1 => {
            let bytes = lines::least(at(numbers, 1), BYTES);
            let words = lines::least(at(numbers, 2), WORDS);
            Some((Call::Lend(bytes, words), 3))
        }
        2 => {
            let start = Start {
                w: word(numbers, 1),
                inputs: word(numbers, 2),
                outputs: word(numbers, 3),
                slice: word(numbers, 4),
            };
            Some((Call::Start(start), 5))
        }
        3 => {
            let bytes = bytes_of(numbers, 3, at(numbers, 2), lines::NUMBERS as u64);
            Some((
                Call::Table(word(numbers, 1), bytes),
                bytes.len().wrapping_add(3),
            ))
        }
        4 => Some((Call::Run(at(numbers, 1), word(numbers, 2)), 3)),
        5 => Some((Call::Offer(word(numbers, 1), word(numbers, 2)), 3)),
        6 => Some((Call::Take(word(numbers, 1)), 2)),
        _ => None,
    }
}

// Begins an answer: one after the first stands behind a comma.
fn begin_answer(out: Stdout, list: &mut List) {
    if !list.first {
        lines::write(out, b", ");
    }
    list.first = false;
}

// Writes a start's answer, and keeps its machine.
fn keep_started(out: Stdout, list: &mut List, begun: machine::Begun) {
    lines::show(out, &show::Hex(begun.answer));
    list.machine = begun.machine;
}

// Writes why a table is refused.
fn print_refusal(out: Stdout, refusal: Refusal) {
    let number = refusal.reason.number();
    lines::show(
        out,
        &format_args!("refused {number} at {:x}", refusal.returned),
    );
}

// Reads a table, compiles it into the front of the code, and starts it: that code is lent from here on.
fn start_table(
    out: Stdout,
    list: &mut List,
    table: &[u8],
    code: &mut [u8],
    memory: &mut [u32],
    slice: u32,
) -> Result<(), Refusal> {
    let facts = table::read(table)?;
    let length = compiler::compile_into(table, code)?;
    if length <= code.len() {
        list.bytes = length;
        let begun = show::start_program(&code[..length], memory, facts, slice);
        keep_started(out, list, begun);
    }
    Ok(())
}

// Call 3: a table.
fn call_table(
    out: Stdout,
    list: &mut List,
    numbers: &[u64],
    code: &mut [u8],
    memory: &mut [u32],
    slice: u32,
) {
    let mut bytes = [0; lines::NUMBERS];
    let count = lines::to_bytes(numbers, &mut bytes);
    if let Err(refusal) = start_table(out, list, &bytes[..count], code, memory, slice) {
        print_refusal(out, refusal);
    }
}

// A call over the code and the memory that are lent.
fn call_machine(out: Stdout, list: &mut List, call: Call<'_>, code: &[u8], memory: &mut [u32]) {
    let machine = list.machine;
    match call {
        Call::Start(start) => {
            let begun = machine::start(
                code,
                memory,
                start.w,
                start.inputs,
                start.outputs,
                start.slice,
            );
            keep_started(out, list, begun);
        }
        Call::Run(budget, clock) => {
            list.machine = show::run(out, machine, code, memory, budget, clock);
        }
        Call::Offer(k, value) => list.machine = show::offer(out, machine, memory, k, value),
        Call::Take(k) => list.machine = show::take(out, machine, memory, k),
        Call::Code(_) | Call::Lend(_, _) | Call::Table(_, _) => {}
    }
}

// A call that is answered.
fn call_answered(
    out: Stdout,
    list: &mut List,
    call: Call<'_>,
    code: &mut [u8],
    memory: &mut [u32],
) {
    begin_answer(out, list);
    let bytes = list.bytes;
    match call {
        Call::Table(slice, numbers) => call_table(out, list, numbers, code, memory, slice),
        _ => {
            if bytes <= code.len() {
                call_machine(out, list, call, &code[..bytes], memory);
            }
        }
    }
}

// One call.
fn make_call(out: Stdout, list: &mut List, call: Call<'_>, code: &mut [u8], memory: &mut [u32]) {
    let words = list.words;
    match call {
        Call::Code(numbers) => list.bytes = lines::to_bytes(numbers, code),
        Call::Lend(bytes, words) => {
            list.bytes = bytes;
            list.words = words;
        }
        _ => {
            if words <= memory.len() {
                call_answered(out, list, call, code, &mut memory[..words]);
            }
        }
    }
}

// Makes the calls of a list, over code and memory, and gives the machine at the end. There are no more calls than numbers; a number that is
// no call's ends the list.
fn make_calls(out: Stdout, numbers: &[u64], code: &mut [u8], memory: &mut [u32]) -> Machine {
    let mut list = List {
        machine: machine::blank(),
        bytes: 0,
        words: WORDS,
        first: true,
    };
    let mut rest = numbers;
    for _ in 0..numbers.len() {
        if rest.is_empty() {
            break;
        }
        let Some((call, count)) = parse(rest) else {
            break;
        };
        make_call(out, &mut list, call, &mut *code, &mut *memory);
        rest = lines::rest(rest, count as u64);
    }
    list.machine
}

// Answers a line's list, if it has one.
fn answer(out: Stdout, numbers: &[u64]) {
    let mut code = [0x99; BYTES];
    let mut memory = [0; WORDS];
    if numbers.is_empty() {
        return;
    }
    show::fill(&mut memory);
    let machine = make_calls(out, numbers, &mut code, &mut memory);
    show::print_machine(out, machine, false);
    lines::print_hex(out, b" / ", show::sum(&memory));
    lines::write(out, b"\n");
}

// Answers the lines of standard input.
fn main(rt: HostRuntime) {
    let out = rt.stdout();
    let mut characters = [0; lines::CHARACTERS];
    let mut numbers = [0; lines::NUMBERS];
    let mut line = lines::begin(16);
    while line.left > 0 {
        line = lines::next_line(rt.stdin(), rt.stderr(), line, &mut characters, &mut numbers);
        answer(out, lines::row(line, &numbers));
    }
}
