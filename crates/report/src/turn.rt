// A turn: the next piece of the text.
ghost use Rattle.std.specs.Prelude.{◌≡◌, true, false, List, [], ◌++◌, ℕ, ◌+◌, ◌-◌, ◌≤◌, ◌<◌, length};
ghost use Rattle.model.specs.Answers.{instructions_of};
ghost use Rattle.model.specs.Bench.{decimal, newline, bench_budget, took_one};
ghost use Rattle.report.specs.declared.stage.Stage.TheVariants.{Running, Taking, Code, Done};
ghost use Rattle.report.specs.Texts.{text_in, at as standing, after, taking, Gives, says, stood_turn, turn_of, next_of, text_of};
ghost use Rattle.report.specs.Texts.{turns_left, gave};

use crate::piece::Piece;
use crate::stage::{Report, Stage};
use model::{Outcome, TakeAnswer};

// A piece of the text, the report after it, and whether there may be more. Stays a flag: `next` promises the report after the last turn too
// (clause `turn`), which an Option would not hand out.
#[derive(Clone, Copy)]
pub struct Turn {
    pub report: Report,
    pub piece: Piece,
    pub more: bool,
}

// A piece, and the stage after it.
fn say(report: Report, stage: Stage, piece: Piece) -> Turn
    ensures { (l : List ℕ) → Gives (says (standing stage report) (text_in piece) l) result l }
{
    Turn {
        report: report.at(stage),
        piece,
        more: true,
    }
}

// The report after a run of n instructions.
fn after_run(report: Report, machine: model::Machine, n: u64, stage: Stage) -> Report
    requires { (report.total + n < 18446744073709551616) × (1 ≤ report.left) }
    ensures { result ≡ after machine n stage report }
{
    Report {
        machine,
        stage,
        total: report.total + n,
        left: report.left - 1,
        ..report
    }
}

// The last line: how the program stood.
fn finish(report: Report, machine: model::Machine, n: u64, name: &[u8]) -> Turn
    requires { (report.total + n < 18446744073709551616) × (1 ≤ report.left) × (length name.now ≤ 8) }
    ensures { (l : List ℕ) → Gives
        (says (after machine n Done report) (name.now ++ decimal (report.total + n) ++ newline) l) result l }
{
    Turn {
        report: after_run(report, machine, n, Stage::Done),
        piece: Piece::line(name, report.total + n),
        more: true,
    }
}

// How a run stood: the last line, or the takes come.
fn stand(report: Report, machine: model::Machine, outcome: Outcome) -> Turn
    requires { (report.total + instructions_of outcome < 18446744073709551616) × (1 ≤ report.left) }
    ensures { (l : List ℕ) → Gives (stood_turn report machine l outcome) result l }
{
    match outcome {
        Outcome::Ended(n) => finish(report, machine, n, b"ended "),
        Outcome::Waiting(n) => Turn {
            report: after_run(report, machine, n, Stage::Taking(0, false)),
            piece: Piece::nothing(),
            more: true,
        },
        Outcome::Spent(n) => finish(report, machine, n, b"spent "),
        Outcome::Fault(n, _) => finish(report, machine, n, b"fault "),
    }
}

// The instructions that are left of 65,536.
fn budget(total: u64) -> u64
    ensures { (result ≡ bench_budget - total) × (total + result < 18446744073709551616) }
{
    if total < model::limits::BENCH_BUDGET {
        return model::limits::BENCH_BUDGET - total;
    }
    0
}

// A run that was refused: the report is over.
fn not_run(report: Report, machine: model::Machine) -> Turn
    requires { 1 ≤ report.left }
    ensures { (l : List ℕ) → Gives (says (after machine 0 Done report) [] l) result l }
{
    Turn {
        report: after_run(report, machine, 0, Stage::Done),
        piece: Piece::nothing(),
        more: true,
    }
}

// A run, while rounds are left.
fn run_turn(report: Report, code: &[u8], memory: &mut [u32]) -> Turn
    requires { report.stage ≡ Running }
    ensures { Gives (turn_of code.now report memory.old) result memory.new }
{
    if report.left == 0 {
        return say(report, Stage::Done, Piece::nothing());
    }
    let ran = machine::run(
        report.machine,
        code,
        memory,
        budget(report.total),
        model::limits::BENCH_CLOCK,
    );
    match ran.answer {
        Ok(outcome) => stand(report, ran.machine, outcome),
        Err(_) => not_run(report, ran.machine),
    }
}

// The report after a take.
fn after_take(report: Report, machine: model::Machine, stage: Stage) -> Report
    ensures { result ≡ taking machine stage report }
{
    Report {
        machine,
        stage,
        ..report
    }
}

// A take's line, if it gave a value.
fn take_piece(k: u32, answer: TakeAnswer) -> Piece
    ensures { text_in result ≡ took_one k answer }
{
    match answer {
        Ok(Some(v)) => Piece::out_line(k, v),
        Ok(None) | Err(_) => Piece::nothing(),
    }
}

// Whether a take gave a value, or one before it did.
fn gives(any: bool, answer: TakeAnswer) -> bool
    ensures { result ≡ gave any answer }
{
    matches!(answer, Ok(Some(_))) || any
}

// A take from an output; behind the last one a run comes, or, where none gave a value, the end.
fn take_turn(report: Report, memory: &mut [u32], k: u32, any: bool) -> Turn
    requires { report.stage ≡ Taking k any }
    ensures { (prog : List ℕ) → Gives (turn_of prog report memory.old) result memory.new }
{
    if k < report.outputs {
        let took = machine::take(report.machine, memory, k);
        let stage = Stage::Taking(k + 1, gives(any, took.answer));
        return Turn {
            report: after_take(report, took.machine, stage),
            piece: take_piece(k, took.answer),
            more: true,
        };
    }
    if any {
        return say(report, Stage::Running, Piece::nothing());
    }
    say(report, Stage::Done, Piece::line(b"waiting ", report.total))
}

// A byte of the code, or the end of its line.
fn code_turn(report: Report, code: &[u8], i: usize) -> Turn
    requires { report.stage ≡ Code i }
    ensures { (l : List ℕ) → Gives (turn_of code.now report l) result l }
{
    if i < code.len() {
        return say(report, Stage::Code(i + 1), Piece::code_byte(code[i]));
    }
    say(report, Stage::Running, Piece::nothing().push(10))
}

// A turn over the code and the machine's memory.
fn advance(report: Report, code: &[u8], memory: &mut [u32]) -> Turn
    ensures { Gives (turn_of code.now report memory.old) result memory.new }
{
    match report.stage {
        Stage::Bytes => say(
            report,
            Stage::Words,
            Piece::line(b"bytes ", code.len() as u64),
        ),
        Stage::Words => say(
            report,
            Stage::Head,
            Piece::line(b"words ", report.words as u64),
        ),
        Stage::Head => say(report, Stage::Code(0), Piece::nothing().push_text(b"code")),
        Stage::Code(i) => code_turn(report, code, i),
        Stage::Running => run_turn(report, code, memory),
        Stage::Taking(k, any) => take_turn(report, memory, k, any),
        Stage::Refused(n, p) => say(report, Stage::Done, Piece::refused_line(n, p)),
        Stage::Done => Turn {
            report,
            piece: Piece::nothing(),
            more: false,
        },
    }
}

// The next piece, over the lent buffers that the report was opened with. Where they are too short for it nothing is done.
pub fn next(report: Report, code: &[u8], memory: &mut [u32]) -> Turn
    ensures turn { Gives (next_of code.now report memory.old) result memory.new }
    ensures coming { text_of code.now report memory.old
        ≡ text_in result.piece ++ text_of code.now result.report memory.new }
    ensures shorter { result.more ≡ true → turns_left result.report < turns_left report }
    ensures last { result.more ≡ false → report.size ≤ length code.now → report.words ≤ length memory.old
        → text_of code.now report memory.old ≡ [] }
{
    let size = report.size;
    let words = report.words;
    if code.len() < size || memory.len() < words {
        return Turn {
            report,
            piece: Piece::nothing(),
            more: false,
        };
    }
    advance(report, &code[..size], &mut memory[..words])
}
