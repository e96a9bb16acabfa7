// What each instruction does (document 01, "The machine"; INMOS's guide).
ghost use Rattle.std.specs.Prelude.{◌≡◌, true, ◌≤◌, length};
ghost use Rattle.model.specs.Instruction.{opr};
ghost use Rattle.model.specs.Machine.{memory_size, push as pushed, pop as popped, reduce as reduced};
ghost use Rattle.model.specs.Timer.{timer_input, wait_timed_alt, disable_time};
ghost use Rattle.timer.specs.Sleeps.{Remains, Waits};
ghost use Rattle.model.specs.Execute.{load_local, store_local, conditional_jump, execute as executed};
ghost use Rattle.processor.specs.Seen.{Lands};
ghost use Rattle.processor.specs.Pieces.{landing};
ghost use Rattle.processor.specs.Quiet.{Stays, Acts};
ghost use Rattle.executor.specs.Steps.{executing, Other, on_registers, on_processes, on_alts, Ticks, Looks};

use crate::functions;
use instruction::codes;
use processor::{Step, goto, land, peek, poke, stack, work};
use word::{above, less, plus, product};

// A value comes onto the stack.
fn push(r: model::Cpu, v: u32) -> model::Cpu
    ensures { result ≡ pushed v r }
{
    stack(r, v, r.a, r.b)
}

// The top of the stack goes, C keeps.
fn pop(r: model::Cpu) -> model::Cpu
    ensures { result ≡ popped r }
{
    stack(r, r.b, r.c, r.c)
}

// A result in place of the two topmost values.
fn reduce(r: model::Cpu, v: u32) -> model::Cpu
    ensures { result ≡ reduced v r }
{
    stack(r, v, r.c, r.c)
}

// LDL: pushes the word at W + n.
fn load_local(memory: &[u32], cpu: model::Cpu, n: u32) -> Step
    requires { cpu.running ≡ true }
    ensures { Stays (load_local n) cpu memory.now result memory.now }
{
    let v = peek(memory, plus(cpu.workspace, n))?;
    Ok(push(cpu, v))
}

// STL: A goes to the word at W + n.
fn store_local(memory: &mut [u32], cpu: model::Cpu, n: u32) -> Step
    requires { cpu.running ≡ true }
    ensures { Stays (store_local n) cpu memory.old result memory.new }
{
    poke(memory, pop(cpu), plus(cpu.workspace, n), cpu.a)
}

// CJ: with A = 0 it jumps and the registers keep; else A goes.
fn conditional_jump(cpu: model::Cpu, code: u32, n: u32) -> Step
    requires { (cpu.running ≡ true) × (cpu.place ≤ code) }
    ensures { Lands code (landing (conditional_jump n)) cpu result }
{
    if cpu.a == 0 {
        return land(goto(cpu, plus(cpu.place, n)), code);
    }
    Ok(pop(cpu))
}

// TIN. This and the two below have the front in a word of their own: so a run's loop over bytes does not hold it.
fn timer_input(memory: &mut [u32], cpu: model::Cpu, code: u32, clock: u32, front: &mut u32) -> Step
    requires { (cpu.running ≡ true) × (cpu.place ≤ code) }
    ensures { Waits code (landing timer_input) cpu clock front.old memory.old result front.new
        memory.new }
{
    let mut first = *front;
    let done = timer::timer_input(memory, cpu, code, clock, &mut first);
    *front = first;
    done
}

// DIST.
fn disable_time(memory: &mut [u32], cpu: model::Cpu, front: &mut u32) -> Step
    requires { cpu.running ≡ true }
    ensures { Remains disable_time cpu front.old memory.old result front.new memory.new }
{
    let mut first = *front;
    let done = timer::disable_time(memory, cpu, &mut first);
    *front = first;
    done
}

// TALTWT.
fn wait_timed_alt(
    memory: &mut [u32],
    cpu: model::Cpu,
    code: u32,
    clock: u32,
    front: &mut u32,
) -> Step
    requires { (cpu.running ≡ true) × (cpu.place ≤ code) }
    ensures { Waits code (landing wait_timed_alt) cpu clock front.old memory.old result front.new
        memory.new }
{
    let mut first = *front;
    let done = timer::wait_timed_alt(memory, cpu, code, clock, &mut first);
    *front = first;
    done
}

// The operations of the clock (document 02, order 4). Any other number is a fault (refusal 12).
fn operate_timer(
    memory: &mut [u32],
    cpu: model::Cpu,
    code: u32,
    clock: u32,
    front: &mut u32,
    n: u32,
) -> Step
    requires sized { (cpu.running ≡ true) × (cpu.place ≤ code) }
    requires other { Other on_registers n × Other on_processes n × Other on_alts n }
    ensures { Ticks code (landing (executed opr n)) cpu clock front.old memory.old result front.new
        memory.new }
{
    match n {
        codes::LDTIMER => Ok(push(cpu, clock)),
        codes::TIN => timer_input(memory, cpu, code, clock, front),
        codes::DIST => disable_time(memory, cpu, front),
        codes::ENBT => timer::enable_time(memory, cpu),
        codes::TALT => timer::begin_timed_alt(memory, cpu),
        codes::TALTWT => wait_timed_alt(memory, cpu, code, clock, front),
        _ => Err(model::FaultKind::Operation(n)),
    }
}

// The operations of an ALT.
fn operate_alt(
    memory: &mut [u32],
    cpu: model::Cpu,
    setup: model::Setup,
    held: &[bool; 8],
    clock: u32,
    front: &mut u32,
    n: u32,
) -> Step
    requires sized { (cpu.running ≡ true) × (memory_size setup ≡ length memory.old) × (cpu.place ≤ setup.code) }
    requires other { Other on_registers n × Other on_processes n }
    ensures { Looks setup (landing (executed opr n)) cpu held.now clock front.old memory.old result
        front.new memory.new }
{
    match n {
        codes::DISC => alternative::disable_channel(memory, cpu, setup, held),
        codes::DISS => alternative::disable_skip(memory, cpu),
        codes::ALT => alternative::begin_alt(memory, cpu),
        codes::ALTWT => alternative::wait_alt(memory, cpu, setup.code),
        codes::ALTEND => alternative::end_alt(memory, cpu, setup.code),
        codes::ENBC => alternative::enable_channel(memory, cpu, setup, held),
        codes::ENBS => alternative::enable_skip(memory, cpu),
        _ => operate_timer(memory, cpu, setup.code, clock, front, n),
    }
}

// The operations on processes and channels.
fn operate_process(
    memory: &mut [u32],
    cpu: model::Cpu,
    setup: model::Setup,
    offers: &[u32; 8],
    held: &mut [bool; 8],
    clock: u32,
    front: &mut u32,
    n: u32,
) -> Step
    requires sized { (cpu.running ≡ true) × (memory_size setup ≡ length memory.old) × (cpu.place ≤ setup.code) }
    requires other { Other on_registers n }
    ensures { Acts setup (landing (executed opr n)) cpu offers.now held.old clock front.old
        memory.old result held.new front.new memory.new }
{
    match n {
        codes::ENDP => processor::end_process(memory, cpu, setup.code),
        codes::IN => channel::input(memory, cpu, setup, offers, held),
        codes::STARTP => processor::start_process(memory, cpu),
        codes::OUTWORD => channel::output(memory, cpu, setup.code),
        codes::STOPP => processor::stop_process(memory, cpu, setup.code),
        _ => operate_alt(memory, cpu, setup, held, clock, front, n),
    }
}

// The operations: first those on the registers alone, which are the most frequent.
fn operate(
    memory: &mut [u32],
    cpu: model::Cpu,
    setup: model::Setup,
    offers: &[u32; 8],
    held: &mut [bool; 8],
    clock: u32,
    front: &mut u32,
    n: u32,
) -> Step
    requires sized { (cpu.running ≡ true) × (memory_size setup ≡ length memory.old) × (cpu.place ≤ setup.code) }
    ensures { Acts setup (landing (executed opr n)) cpu offers.now held.old clock front.old
        memory.old result held.new front.new memory.new }
{
    match n {
        codes::REV => Ok(stack(cpu, cpu.b, cpu.a, cpu.c)),
        codes::DIFF => Ok(reduce(cpu, less(cpu.b, cpu.a))),
        codes::PROD => Ok(reduce(cpu, product(cpu.b, cpu.a))),
        codes::GT => Ok(reduce(cpu, above(cpu.b, cpu.a))),
        codes::LDPI => Ok(stack(cpu, plus(cpu.place, cpu.a), cpu.b, cpu.c)),
        codes::XOR => Ok(reduce(cpu, cpu.b ^ cpu.a)),
        codes::MINT => Ok(push(cpu, model::constants::NOT_PROCESS)),
        codes::AND => Ok(reduce(cpu, cpu.b & cpu.a)),
        codes::OR => Ok(reduce(cpu, cpu.b | cpu.a)),
        codes::SUM => Ok(reduce(cpu, plus(cpu.b, cpu.a))),
        _ => operate_process(memory, cpu, setup, offers, held, clock, front, n),
    }
}

// A direct function with its operand. Any other is a fault (refusal 12).
pub fn execute(
    memory: &mut [u32],
    cpu: model::Cpu,
    setup: model::Setup,
    offers: &[u32; 8],
    held: &mut [bool; 8],
    clock: u32,
    front: &mut u32,
    function: u32,
    n: u32,
) -> Step
    requires sized { (cpu.running ≡ true) × (memory_size setup ≡ length memory.old) × (cpu.place ≤ setup.code) }
    ensures { Acts setup (landing (executing function n)) cpu offers.now held.old clock front.old
        memory.old result held.new front.new memory.new }
{
    match function {
        functions::J => processor::jump(memory, cpu, setup, n),
        functions::LDLP => Ok(push(cpu, plus(cpu.workspace, n))),
        functions::LDC => Ok(push(cpu, n)),
        functions::LDL => load_local(memory, cpu, n),
        functions::CJ => conditional_jump(cpu, setup.code, n),
        functions::AJW => Ok(work(cpu, plus(cpu.workspace, n))),
        functions::EQC => Ok(stack(cpu, u32::from(cpu.a == n), cpu.b, cpu.c)),
        functions::STL => store_local(memory, cpu, n),
        functions::OPR => operate(memory, cpu, setup, offers, held, clock, front, n),
        _ => Err(model::FaultKind::Function(function)),
    }
}
