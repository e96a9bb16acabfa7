// A start: its refusals, the memory that it clears, and the machine that it gives (document 01, "The machine").
ghost use Rattle.std.specs.Prelude.{◌≡◌, ◌++◌, ◌-◌, ◌≤◌, length, replicate, Ok};
ghost use Rattle.model.specs.Word.{not_process};
ghost use Rattle.model.specs.Run.{registers_at, no_timer, fresh as fresh_for, blank as blank_machine, start as starting};
ghost use Rattle.model.specs.Answers.{refused_start};
ghost use Rattle.model.specs.Refusals.{start_refusal};

use model::StartRefusal;

// A start's answer beside the machine.
#[derive(Clone, Copy)]
pub struct Begun {
    pub machine: model::Machine,
    pub answer: model::StartAnswer,
}

// Registers that start as 0, with the workspace pointer.
fn registers(w: u32, runs: bool) -> model::Cpu
    ensures { result ≡ registers_at w runs }
{
    model::Cpu {
        a: 0,
        b: 0,
        c: 0,
        operand: 0,
        place: 0,
        workspace: w,
        count: 0,
        front: 0,
        back: 0,
        running: runs,
        queued: false,
    }
}

// No clock was given, and nobody is in the timer queue.
fn no_timer() -> model::Timer
    ensures { result ≡ no_timer }
{
    model::Timer {
        clock: 0,
        given: false,
        front: model::constants::NOT_PROCESS,
    }
}

// A machine that was started: the process at W has the processor.
fn fresh(setup: model::Setup) -> model::Machine
    ensures { result ≡ fresh_for setup }
{
    model::Machine {
        cpu: registers(setup.base, true),
        setup,
        timer: no_timer(),
        offers: [0; 8],
        held: [false; 8],
        fault: None,
    }
}

// The machine with nothing in it.
pub fn blank() -> model::Machine
    ensures { result ≡ blank_machine }
{
    let setup = model::Setup {
        code: 0,
        base: 0,
        inputs: 0,
        outputs: 0,
        slice: 0,
    };
    model::Machine {
        cpu: registers(0, false),
        setup,
        timer: no_timer(),
        offers: [0; 8],
        held: [false; 8],
        fault: None,
    }
}

// A refusal's answer, beside the machine with nothing in it.
fn refused(answer: model::StartAnswer) -> Begun
    ensures { (result.answer ≡ answer) × (result.machine ≡ blank_machine) }
{
    Begun {
        machine: blank(),
        answer,
    }
}

// The answer of a start that is not refused.
fn started(setup: model::Setup) -> Begun
    ensures { (result.answer ≡ Ok tt) × (result.machine ≡ fresh_for setup) }
{
    Begun {
        machine: fresh(setup),
        answer: Ok(()),
    }
}

// Outside channels start as NotProcess, the words before them as 0.
fn clear(memory: &mut [u32], w: usize)
    requires { w ≤ length memory.old }
    ensures { memory.new ≡ replicate w 0 ++ replicate (length memory.old - w) not_process }
{
    memory[..w].fill(0);
    memory[w..].fill(model::constants::NOT_PROCESS);
}

// Starts a machine over lent code and lent memory. Refusals: 15 for the slice, then 3 for a channel count, 10 for words or code, and 11
// for memory. Each leaves the memory as it was.
pub fn start(
    code: &[u8],
    memory: &mut [u32],
    w: u32,
    inputs: u32,
    outputs: u32,
    slice: u32,
) -> Begun
    ensures answer { result.answer ≡ (starting code.now memory.old w inputs outputs slice).answer }
    ensures machine { result.machine ≡ (starting code.now memory.old w inputs outputs slice).machine }
    ensures memory { memory.new ≡ (starting code.now memory.old w inputs outputs slice).memory }
    ensures refusal { refused_start result.answer ≡ start_refusal code.now memory.old w inputs outputs slice }
{
    if slice == 0 || model::limits::SLICE < slice {
        return refused(Err(StartRefusal::BadSlice));
    }
    if model::limits::START_CHANNELS < inputs || model::limits::START_CHANNELS < outputs {
        return refused(Err(StartRefusal::BadCount));
    }
    let size = w as u64 + inputs as u64 + outputs as u64;
    if model::limits::WIDE_WORDS < size || model::limits::CODE < code.len() {
        return refused(Err(StartRefusal::TooLarge));
    }
    if (memory.len() as u64) < size {
        return refused(Err(StartRefusal::Short(size)));
    }
    clear(&mut memory[..size as usize], w as usize);
    started(model::Setup {
        code: code.len() as u32,
        base: w,
        inputs,
        outputs,
        slice,
    })
}
