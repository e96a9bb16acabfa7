// Calls of a machine over lent code and lent memory, each of which writes its answer and gives the machine after it.
use crate::answers::Hex;
use std::io::Stdout;

// A run.
pub fn run(
    out: Stdout,
    machine: model::Machine,
    code: &[u8],
    memory: &mut [u32],
    budget: u64,
    clock: u32,
) -> model::Machine {
    let ran = machine::run(machine, code, memory, budget, clock);
    lines::show(out, &Hex(ran.answer));
    ran.machine
}

// An offer.
pub fn offer(
    out: Stdout,
    machine: model::Machine,
    memory: &mut [u32],
    k: u32,
    value: u32,
) -> model::Machine {
    let offered = machine::offer(machine, memory, k, value);
    lines::show(out, &Hex(offered.answer));
    offered.machine
}

// A take.
pub fn take(out: Stdout, machine: model::Machine, memory: &mut [u32], k: u32) -> model::Machine {
    let taken = machine::take(machine, memory, k);
    lines::show(out, &Hex(taken.answer));
    taken.machine
}
