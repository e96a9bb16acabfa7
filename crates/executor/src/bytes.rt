// One byte (document 01, "The machine").
ghost use Rattle.std.specs.Prelude.{◌≡◌, true, suc, min, ◌≤◌, ◌<◌, length};
ghost use Rattle.model.specs.Limits.{slice_limit};
ghost use Rattle.model.specs.Machine.{memory_size};
ghost use Rattle.model.specs.Run.{act as act_of, byte as byte_of};
ghost use Rattle.processor.specs.Pieces.{landing};
ghost use Rattle.processor.specs.Quiet.{Acts};
ghost use Rattle.executor.specs.Steps.{advanced_to};

use crate::execute::execute;
use processor::Step;
use word::plus;

// One more instruction towards the slice; the count stays at its largest.
fn counted(count: u32) -> u32
    ensures { result ≡ min (suc count) slice_limit }
{
    count.saturating_add(1).min(model::limits::SLICE)
}

// The byte counts towards the slice, the next one is behind it, and the operand is given.
fn advanced(r: model::Cpu, operand: u32) -> model::Cpu
    ensures { result ≡ advanced_to operand r }
{
    model::Cpu {
        operand,
        count: counted(r.count),
        place: plus(r.place, 1),
        ..r
    }
}

// What a byte does once it is fetched: a prefix gathers, any other uses the operand and leaves 0.
fn act(
    memory: &mut [u32],
    cpu: model::Cpu,
    setup: model::Setup,
    offers: &[u32; 8],
    held: &mut [bool; 8],
    clock: u32,
    front: &mut u32,
    byte: u8,
) -> Step
    requires sized { (cpu.running ≡ true) × (memory_size setup ≡ length memory.old) × (cpu.place < setup.code) }
    ensures { Acts setup (landing (act_of byte)) cpu offers.now held.old clock front.old
        memory.old result held.new front.new memory.new }
{
    let function = byte / 16;
    let operand = instruction::gather(cpu.operand, byte);
    if instruction::is_prefix(function) {
        return Ok(advanced(cpu, instruction::prefixed(operand, function)));
    }
    let r = advanced(cpu, 0);
    execute(
        memory,
        r,
        setup,
        offers,
        held,
        clock,
        front,
        function as u32,
        operand,
    )
}

// One byte.
pub fn step(
    code: &[u8],
    memory: &mut [u32],
    cpu: model::Cpu,
    setup: model::Setup,
    offers: &[u32; 8],
    held: &mut [bool; 8],
    clock: u32,
    front: &mut u32,
) -> Step
    requires sized { (cpu.running ≡ true) × (memory_size setup ≡ length memory.old)
        × (setup.code ≤ length code.now) }
    ensures { Acts setup (byte_of code.now) cpu offers.now held.old clock front.old
        memory.old result held.new front.new memory.new }
{
    if setup.code <= cpu.place {
        return Err(model::FaultKind::Place(cpu.place));
    }
    let at = cpu.place as usize;
    act(memory, cpu, setup, offers, held, clock, front, code[at])
}
