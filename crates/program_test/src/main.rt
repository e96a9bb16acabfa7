// Reads tables as text from standard input, compiles each, starts it and runs it to 65,536 instructions, and writes a line for each table.
//
// A line of the text is one table in hexadecimal, two digits to a byte; '#' begins a comment up to the end of the line. A line without a
// digit is no table. Nothing is offered and nothing is taken, and q is 32, so for a program that never outputs to outside the answer is
// the bench program's last line.
//
// A line of the output has the code's bytes, the memory's words with channels, how the program stood, the instructions of all runs, and
// a sum over the lent memory (in hexadecimal). A refused table has the refusal's number and place. Every program is run twice: by runs of
// 1, 2, 4, 8 and so on instructions until one is not spent, and by a single run. The two must agree, another run must execute nothing,
// and words beyond the machine's memory must be kept. If not, `wrong` says what.
#![tactic(auto)]

use lines::{print, write};
use show::Standing;
use std::io::Stdout;

// The instructions after which a program is left.
const LIMIT: u64 = model::limits::BENCH_BUDGET;

// The words that are lent: more than any program needs. Each holds KEPT.
const WORDS: usize = model::limits::MEMORY + 4;

const KEPT: u32 = 7;

// How a program stood at last, the instructions, and the sum over its memory.
#[derive(Clone, Copy, PartialEq, Eq)]
struct Finish {
    standing: Standing,
    total: u64,
    sum: u64,
}

// Writes that something does not hold, and what. No run should come here.
fn wrong(out: Stdout, what: &[u8]) {
    write(out, b" wrong ");
    write(out, what);
}

// Whether all words are as they were lent.
fn is_kept(words: &[u32]) -> bool {
    words.iter().all(|&word: &u32| word == KEPT)
}

// The next run's budget: as many instructions as there were, and one; all that are left at the end.
fn budget(total: u64) -> u64 {
    if total >= LIMIT {
        0
    } else if total < 32768 {
        total + 1
    } else {
        LIMIT - total
    }
}

// Runs of 1, 2, 4, 8 and so on instructions until one is not spent.
fn run_by_steps(machine: model::Machine, code: &[u8], memory: &mut [u32]) -> show::Course {
    let mut course = show::begin(machine);
    for _ in 0..17 {
        if course.standing != Standing::Spent {
            break;
        }
        course = show::go_on(course, code, memory, budget(course.total));
    }
    course
}

// Runs a started program, by steps or by a single run.
fn run_in_a_way(
    machine: model::Machine,
    code: &[u8],
    memory: &mut [u32],
    by_steps: bool,
) -> show::Course {
    if by_steps {
        return run_by_steps(machine, code, memory);
    }
    show::go_on(show::begin(machine), code, memory, LIMIT)
}

// Runs a started program, and once more: that run executes nothing.
fn run_to_end(
    out: Stdout,
    machine: model::Machine,
    code: &[u8],
    memory: &mut [u32],
    by_steps: bool,
) -> Finish {
    let course = run_in_a_way(machine, code, memory, by_steps);
    let again = show::go_on(course, code, memory, budget(course.total));
    if again.total != course.total || again.standing != course.standing {
        wrong(out, b"run after the last");
    }
    Finish {
        standing: course.standing,
        total: course.total,
        sum: show::sum(memory),
    }
}

// Starts a program over lent memory and runs it.
fn start(
    out: Stdout,
    code: &[u8],
    memory: &mut [u32],
    facts: model::Facts,
    by_steps: bool,
) -> Finish {
    let begun = show::start_program(code, memory, facts, model::limits::BENCH_SLICE);
    if begun.answer.is_err() {
        wrong(out, b"start");
    }
    run_to_end(out, begun.machine, code, memory, by_steps)
}

// Runs a program in one of the two ways, with more words lent than it needs.
fn execute(out: Stdout, code: &[u8], facts: model::Facts, by_steps: bool) -> Finish {
    let mut memory = [KEPT; WORDS];
    let done = start(out, code, &mut memory, facts, by_steps);
    let words = facts.words as usize;
    if words > WORDS {
        wrong(out, b"words");
        return done;
    }
    if !is_kept(&memory[words..]) {
        wrong(out, b"words beyond");
    }
    done
}

// Runs a compiled program in both ways, and writes its line.
fn answer_code(out: Stdout, code: &[u8], facts: model::Facts) {
    print(out, b"bytes ", code.len() as u64);
    print(out, b" words ", facts.words as u64);
    let steps = execute(out, code, facts, true);
    let single = execute(out, code, facts, false);
    write(out, b" ");
    lines::show(out, &steps.standing);
    print(out, b" ", steps.total);
    lines::print_word(out, b" sum ", steps.sum);
    if steps != single {
        wrong(out, b"single run");
    }
}

// Compiles an accepted table and runs it.
fn answer_accepted(out: Stdout, table: &[u8], facts: model::Facts) {
    let mut buffer = [0; model::limits::CODE];
    match compiler::compile_into(table, &mut buffer) {
        Ok(length) => {
            if length <= model::limits::CODE {
                answer_code(out, &buffer[..length], facts);
            }
        }
        Err(refusal) => lines::show(out, &refusal),
    }
}

// Answers a table.
fn answer(out: Stdout, table: &[u8]) {
    match table::read(table) {
        Ok(facts) => answer_accepted(out, table, facts),
        Err(refusal) => lines::show(out, &refusal),
    }
    write(out, b"\n");
}

// Answers a line's table, if it has one.
fn answer_line(out: Stdout, numbers: &[u64]) {
    let mut table = [0; lines::NUMBERS];
    let end = lines::to_bytes(numbers, &mut table);
    if end > 0 {
        answer(out, &table[..end]);
    }
}

// Answers the lines of standard input.
fn main(rt: HostRuntime) {
    let out = rt.stdout();
    let mut characters = [0; lines::CHARACTERS];
    let mut numbers = [0; lines::NUMBERS];
    let mut line = lines::begin(2);
    while line.left > 0 {
        line = lines::next_line(rt.stdin(), rt.stderr(), line, &mut characters, &mut numbers);
        answer_line(out, lines::row(line, &numbers));
    }
}
