// A run with a budget and a clock (document 01, "The machine", "When a call is turned down"; document 02, order 4).
ghost use Rattle.std.specs.Prelude.{◌≡◌, false, ◌&&◌, ◌≤◌, length, None};
ghost use Rattle.model.specs.Machine.{memory_size};
ghost use Rattle.model.specs.Word.{after as after_of};
ghost use Rattle.model.specs.Run.{earlier_clock, run_from, finished, run as running};
ghost use Rattle.model.specs.Answers.{refused_run};
ghost use Rattle.model.specs.Refusals.{run_refusal};
ghost use Rattle.machine.specs.Runs.{Finishes, kept_after, awake_in, Amid};

use crate::outside::keep_fault;
use executor::step;
use model::{FaultKind, Outcome, RunRefusal};
use waking::{Awake, begin};
use word::after;

// A run's answer beside the machine.
#[derive(Clone, Copy)]
pub struct Ran {
    pub machine: model::Machine,
    pub answer: model::RunAnswer,
}

// How the bytes of a run came to an end: the registers, the front of the timer queue, the flags of held offers, and the outcome.
#[derive(Clone, Copy)]
pub struct Finished {
    pub cpu: model::Cpu,
    pub front: u32,
    pub held: [bool; 8],
    pub outcome: Outcome,
}

// Ended, waiting, spent or fault, tested in that order; only that a machine which waits has no process that could have ended, so these two
// may change places.
fn run_bytes(
    code: &[u8],
    memory: &mut [u32],
    start: model::Cpu,
    setup: model::Setup,
    offers: &[u32; 8],
    before: [bool; 8],
    clock: u32,
    from: u32,
    budget: u64,
) -> Finished
    requires { (memory_size setup ≡ length memory.old) × (setup.code ≤ length code.now) }
    ensures { Finishes setup code.now budget offers.now start before clock from memory.old result
        memory.new }
{
    let mut cpu = start;
    let mut front = from;
    let mut held = before;
    let mut n: u64 = 0;
    // Stays a `loop`: it ends with the outcome in four places; as a `for` each would be a return of the whole answer, and it is longer.
    let outcome = loop {
        if !cpu.running {
            break Outcome::Waiting(n);
        }
        if cpu.place == setup.code {
            break Outcome::Ended(n);
        }
        if n == budget {
            break Outcome::Spent(n);
        }
        match step(
            code, memory, cpu, setup, offers, &mut held, clock, &mut front,
        ) {
            Ok(r) => {
                cpu = r;
                n += 1;
            }
            Err(k) => {
                break Outcome::Fault(n, k);
            }
        }
    };
    Finished {
        cpu,
        front,
        held,
        outcome,
    }
}

// The fault that a machine without one keeps after a run.
fn kept(outcome: Outcome) -> Option<FaultKind>
    ensures { result ≡ kept_after outcome }
{
    match outcome {
        Outcome::Fault(_, k) => Some(k),
        Outcome::Ended(_) | Outcome::Waiting(_) | Outcome::Spent(_) => None,
    }
}

// The bytes of a run, after its beginning, of a machine that keeps no fault, and the machine after them.
fn run_awake(
    machine: model::Machine,
    code: &[u8],
    memory: &mut [u32],
    budget: u64,
    clock: u32,
    awake: Awake,
) -> Ran
    requires sized { (memory_size machine.setup ≡ length memory.old) × (machine.setup.code ≤ length code.now) }
    requires fault_value { machine.fault ≡ None }
    ensures { Amid (λ l. finished (run_from budget code.now 0 (awake_in machine clock awake l))) result.answer
        result.machine memory.old memory.new }
{
    let offers = machine.offers;
    let before = machine.held;
    let end = run_bytes(
        code,
        memory,
        awake.cpu,
        machine.setup,
        &offers,
        before,
        clock,
        awake.front,
        budget,
    );
    let held = end.held;
    let timer = model::Timer {
        clock,
        given: true,
        front: end.front,
    };
    let after = model::Machine {
        cpu: end.cpu,
        timer,
        held,
        fault: kept(end.outcome),
        ..machine
    };
    Ran {
        machine: after,
        answer: Ok(end.outcome),
    }
}

// The machine as it was, beside an answer.
fn unchanged(machine: model::Machine, answer: model::RunAnswer) -> Ran
    ensures { (result.answer ≡ answer) × (result.machine ≡ machine) }
{
    Ran { machine, answer }
}

// A run of a machine that keeps no fault: its beginning, and then its bytes. A fault in the beginning is kept, and all else stays.
fn run_machine(
    machine: model::Machine,
    code: &[u8],
    memory: &mut [u32],
    budget: u64,
    clock: u32,
) -> Ran
    requires sized { (memory_size machine.setup ≡ length memory.old) × (machine.setup.code ≤ length code.now) }
    requires fault_value { (machine.fault ≡ None) × (earlier_clock machine clock ≡ false) }
    ensures { Amid (λ l. running machine code.now l budget clock) result.answer result.machine memory.old
        memory.new }
{
    let cpu = machine.cpu;
    let setup = machine.setup;
    let timer = machine.timer;
    match begin(memory, cpu, setup.code, clock, timer.front) {
        Ok(awake) => run_awake(machine, code, memory, budget, clock, awake),
        Err(k) => unchanged(keep_fault(machine, k), Ok(Outcome::Fault(0, k))),
    }
}

// The last clock given is after this one.
fn is_earlier(timer: model::Timer, clock: u32) -> bool
    ensures { result ≡ timer.given && after_of timer.clock clock }
{
    timer.given && after(timer.clock, clock)
}

// A run over lent code and lent memory, with its clock. Refusal 16 before anything else, then 11, for the code before the memory; then a
// kept fault is answered again.
pub fn run(machine: model::Machine, code: &[u8], memory: &mut [u32], budget: u64, clock: u32) -> Ran
    ensures answer { result.answer ≡ (running machine code.now memory.old budget clock).answer }
    ensures machine { result.machine ≡ (running machine code.now memory.old budget clock).machine }
    ensures memory { memory.new ≡ (running machine code.now memory.old budget clock).memory }
    ensures refusal { refused_run result.answer ≡ run_refusal machine code.now memory.old budget clock }
{
    let timer = machine.timer;
    let setup = machine.setup;
    if is_earlier(timer, clock) {
        return unchanged(machine, Err(RunRefusal::EarlierClock));
    }
    if code.len() < setup.code as usize {
        return unchanged(machine, Err(RunRefusal::Short(setup.code as u64)));
    }
    let size = setup.base as u64 + setup.inputs as u64 + setup.outputs as u64;
    if (memory.len() as u64) < size {
        return unchanged(machine, Err(RunRefusal::Short(size)));
    }
    match machine.fault {
        Some(k) => unchanged(machine, Ok(Outcome::Fault(0, k))),
        None => run_machine(machine, code, &mut memory[..size as usize], budget, clock),
    }
}
