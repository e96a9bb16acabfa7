// An offer from outside (document 01, "The machine", "When a call is turned down").
ghost use Rattle.std.specs.Prelude.{◌≡◌, false, ◌+◌, ◌<◌, length, get_or, None, Some};
ghost use Rattle.model.specs.Word.{not_process};
ghost use Rattle.model.specs.Machine.{memory_size, machine_with};
ghost use Rattle.model.specs.Answers.{refused_offer};
ghost use Rattle.model.specs.Refusals.{offer_refusal};
ghost use Rattle.model.specs.Outside.{offer as offer_of};
ghost use Rattle.processor.specs.Seen.{Goes};
ghost use Rattle.machine.specs.Runs.{Amid};
ghost use Rattle.machine.specs.Outsides.{empty_wake, hand_wake, offered_by, holding};

use model::{FaultKind, OfferRefusal};
use processor::{Step, alt_state, notify_wake, peek, state_word, swap, undo, wake};

// An offer's answer beside the machine.
#[derive(Clone, Copy)]
pub struct Offered {
    pub machine: model::Machine,
    pub answer: model::OfferAnswer,
}

// A channel's word is empty again, and the process that waited there is woken. The word may stand past 2^32: it is no address that code
// computes.
pub fn empty_wake(memory: &mut [u32], cpu: model::Cpu, code: u32, c: u64, w: u32) -> Step
    requires { c < length memory.old }
    ensures { Goes code (empty_wake c w) cpu memory.old result memory.new }
{
    let at = c as usize;
    let old = memory[at];
    memory[at] = model::constants::NOT_PROCESS;
    let step = wake(memory, cpu, code, w);
    if step.is_err() {
        memory[at] = old;
    }
    step
}

// A process that waits in IN gets the value at its message place, and is woken.
fn hand_wake(
    memory: &mut [u32],
    cpu: model::Cpu,
    code: u32,
    c: u64,
    p: u32,
    place: u32,
    v: u32,
) -> Step
    requires { c < length memory.old }
    ensures { Goes code (hand_wake c p place v) cpu memory.old result memory.new }
{
    let old = swap(memory, place, v)?;
    let step = empty_wake(memory, cpu, code, c, p);
    undo(memory, place, old, step)
}

// The machine as it was, beside an answer.
fn unchanged(machine: model::Machine, answer: model::OfferAnswer) -> Offered
    ensures { (result.answer ≡ answer) × (result.machine ≡ machine) }
{
    Offered { machine, answer }
}

// The machine with other registers.
pub fn with_registers(machine: model::Machine, cpu: model::Cpu) -> model::Machine
    ensures { result ≡ machine_with cpu machine.offers machine.held machine.fault machine }
{
    model::Machine { cpu, ..machine }
}

// The machine as it was, which keeps a fault.
pub fn keep_fault(machine: model::Machine, k: FaultKind) -> model::Machine
    ensures { result ≡ machine_with machine.cpu machine.offers machine.held (Some k) machine }
{
    model::Machine {
        fault: Some(k),
        ..machine
    }
}

// What an offer came to: other registers, or a fault, which the machine as it was keeps.
fn settle(before: model::Machine, after: model::Machine, step: Step) -> Offered
    ensures { result ≡ offered_by before after step }
{
    match step {
        Ok(cpu) => Offered {
            machine: with_registers(after, cpu),
            answer: Ok(()),
        },
        Err(k) => Offered {
            machine: keep_fault(before, k),
            answer: Err(OfferRefusal::Fault(k)),
        },
    }
}

// The machine with an offer held for the outside input k.
fn hold(machine: model::Machine, k: u32, value: u32) -> model::Machine
    requires { k < 8 }
    ensures { result ≡ holding machine k value }
{
    let mut holding = machine;
    holding.offers[k as usize] = value;
    holding.held[k as usize] = true;
    holding
}

// A process is at the channel's word: in IN it gets the value; in an ALT it is told, and the offer is held.
fn offer_to(machine: model::Machine, memory: &mut [u32], k: u32, value: u32, p: u32) -> Offered
    requires sized { (memory_size machine.setup ≡ length memory.old) × (machine.fault ≡ None) }
    requires k_lt_inputs { (k < machine.setup.inputs) × (k < 8) × (get_or machine.held k false ≡ false) }
    requires k_value { (get_or memory.old (machine.setup.base + k) 0 ≡ p) × (p ≡ not_process → ⊥) }
    ensures { Amid (λ l. offer_of machine l k value) result.answer result.machine memory.old memory.new }
{
    let cpu = machine.cpu;
    let setup = machine.setup;
    match peek(memory, state_word(p)) {
        Ok(s) => {
            if alt_state(s) {
                let told = notify_wake(memory, cpu, setup.code, p, s);
                return settle(machine, hold(machine, k, value), told);
            }
            let c = setup.base as u64 + k as u64;
            let handed = hand_wake(memory, cpu, setup.code, c, p, s, value);
            settle(machine, machine, handed)
        }
        Err(f) => settle(machine, machine, Err(f)),
    }
}

// An offer to a machine that keeps no fault: 13, then 14.
fn offer_machine(machine: model::Machine, memory: &mut [u32], k: u32, value: u32) -> Offered
    requires { (memory_size machine.setup ≡ length memory.old) × (machine.fault ≡ None) }
    ensures { Amid (λ l. offer_of machine l k value) result.answer result.machine memory.old memory.new }
{
    let setup = machine.setup;
    if setup.inputs <= k || model::limits::START_CHANNELS <= k {
        return unchanged(machine, Err(OfferRefusal::NoChannel));
    }
    let held = machine.held;
    if held[k as usize] {
        return unchanged(machine, Err(OfferRefusal::Held));
    }
    let p = memory[(setup.base as u64 + k as u64) as usize];
    if p == model::constants::NOT_PROCESS {
        return unchanged(hold(machine, k, value), Ok(()));
    }
    offer_to(machine, memory, k, value, p)
}

// An offer on the outside input k, over lent memory: 11, a kept fault again, 13, 14 and, last, 12. A process waiting in IN gets the value;
// else it is held.
pub fn offer(machine: model::Machine, memory: &mut [u32], k: u32, value: u32) -> Offered
    ensures answer { result.answer ≡ (offer_of machine memory.old k value).answer }
    ensures machine { result.machine ≡ (offer_of machine memory.old k value).machine }
    ensures memory { memory.new ≡ (offer_of machine memory.old k value).memory }
    ensures refusal { refused_offer result.answer ≡ offer_refusal machine memory.old k value }
{
    let setup = machine.setup;
    let size = setup.base as u64 + setup.inputs as u64 + setup.outputs as u64;
    if (memory.len() as u64) < size {
        return unchanged(machine, Err(OfferRefusal::Short(size)));
    }
    match machine.fault {
        Some(f) => unchanged(machine, Err(OfferRefusal::Fault(f))),
        None => offer_machine(machine, &mut memory[..size as usize], k, value),
    }
}
