// A take from outside (document 01, "The machine", "When a call is turned down").
ghost use Rattle.std.specs.Prelude.{◌≡◌, ◌+◌, ◌<◌, length, get_or, None};
ghost use Rattle.model.specs.Word.{not_process};
ghost use Rattle.model.specs.Machine.{memory_size};
ghost use Rattle.model.specs.Answers.{refused_take};
ghost use Rattle.model.specs.Refusals.{take_refusal};
ghost use Rattle.model.specs.Outside.{take as take_of};
ghost use Rattle.machine.specs.Runs.{Amid};
ghost use Rattle.machine.specs.Outsides.{taken_by};

use crate::outside::{empty_wake, keep_fault, with_registers};
use channel::receive;
use model::TakeRefusal;
use processor::Step;

// A take's answer beside the machine.
#[derive(Clone, Copy)]
pub struct Took {
    pub machine: model::Machine,
    pub answer: model::TakeAnswer,
}

// The machine as it was, beside an answer.
fn same(machine: model::Machine, answer: model::TakeAnswer) -> Took
    ensures { (result.answer ≡ answer) × (result.machine ≡ machine) }
{
    Took { machine, answer }
}

// What a take of a value came to: other registers, or a fault, which the machine as it was keeps.
fn settle(machine: model::Machine, value: u32, step: Step) -> Took
    ensures { result ≡ taken_by machine value step }
{
    match step {
        Ok(cpu) => Took {
            machine: with_registers(machine, cpu),
            answer: Ok(Some(value)),
        },
        Err(k) => Took {
            machine: keep_fault(machine, k),
            answer: Err(TakeRefusal::Fault(k)),
        },
    }
}

// A process is at the channel's word: its value is taken, and it is woken.
fn take_from(machine: model::Machine, memory: &mut [u32], k: u32, p: u32) -> Took
    requires sized { (memory_size machine.setup ≡ length memory.old) × (machine.fault ≡ None) }
    requires k_lt_outputs { (k < machine.setup.outputs) × (p ≡ not_process → ⊥) }
    requires k_value { get_or memory.old (machine.setup.base + machine.setup.inputs + k) 0 ≡ p }
    ensures { Amid (λ l. take_of machine l k) result.answer result.machine memory.old memory.new }
{
    let cpu = machine.cpu;
    let setup = machine.setup;
    match receive(memory, p) {
        Ok(v) => {
            let c = setup.base as u64 + setup.inputs as u64 + k as u64;
            let step = empty_wake(memory, cpu, setup.code, c, p);
            settle(machine, v, step)
        }
        Err(f) => settle(machine, 0, Err(f)),
    }
}

// A take from a machine that keeps no fault: 13, then the sender, if one waits.
fn take_machine(machine: model::Machine, memory: &mut [u32], k: u32) -> Took
    requires { (memory_size machine.setup ≡ length memory.old) × (machine.fault ≡ None) }
    ensures { Amid (λ l. take_of machine l k) result.answer result.machine memory.old memory.new }
{
    let setup = machine.setup;
    if setup.outputs <= k {
        return same(machine, Err(TakeRefusal::NoChannel));
    }
    let p = memory[(setup.base as u64 + setup.inputs as u64 + k as u64) as usize];
    if p == model::constants::NOT_PROCESS {
        return same(machine, Ok(None));
    }
    take_from(machine, memory, k, p)
}

// A take from the outside output k, over lent memory: 11, a kept fault again, 13 and, last, 12. Without a sender it answers none.
pub fn take(machine: model::Machine, memory: &mut [u32], k: u32) -> Took
    ensures answer { result.answer ≡ (take_of machine memory.old k).answer }
    ensures machine { result.machine ≡ (take_of machine memory.old k).machine }
    ensures memory { memory.new ≡ (take_of machine memory.old k).memory }
    ensures refusal { refused_take result.answer ≡ take_refusal machine memory.old k }
{
    let setup = machine.setup;
    let size = setup.base as u64 + setup.inputs as u64 + setup.outputs as u64;
    if (memory.len() as u64) < size {
        return same(machine, Err(TakeRefusal::Short(size)));
    }
    match machine.fault {
        Some(f) => same(machine, Err(TakeRefusal::Fault(f))),
        None => take_machine(machine, &mut memory[..size as usize], k),
    }
}
