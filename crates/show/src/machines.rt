// Machines as text. Numbers are hexadecimal.
use crate::answers::Hex;
use model::{Cpu, FaultKind, Machine, Setup, Timer};
use std::fmt;
use std::io::Stdout;

// The registers in the order of model::Cpu.
impl fmt::Display for Hex<Cpu> {
    fn fmt<W: fmt::Write>(&self, f: &mut fmt::Formatter<W>) -> fmt::Result {
        let cpu = self.0;
        write!(f, "{:x} {:x} {:x}", cpu.front, cpu.back, cpu.operand)?;
        write!(f, " {:x} {:x} {:x}", cpu.a, cpu.b, cpu.c)?;
        write!(f, " {:x} {:x} {:x}", cpu.workspace, cpu.count, cpu.place)?;
        write!(f, " {} {}", cpu.running as u8, cpu.queued as u8)
    }
}

// What the start fixed.
impl fmt::Display for Hex<Setup> {
    fn fmt<W: fmt::Write>(&self, f: &mut fmt::Formatter<W>) -> fmt::Result {
        let setup = self.0;
        write!(f, "{:x} {:x} {:x}", setup.code, setup.base, setup.inputs)?;
        write!(f, " {:x} {:x}", setup.outputs, setup.slice)
    }
}

// The clock, whether one was given, and the front of the timer queue.
impl fmt::Display for Hex<Timer> {
    fn fmt<W: fmt::Write>(&self, f: &mut fmt::Formatter<W>) -> fmt::Result {
        let timer = self.0;
        write!(
            f,
            "{:x} {} {:x}",
            timer.clock, timer.given as u8, timer.front
        )
    }
}

// The kept fault.
impl fmt::Display for Hex<Option<FaultKind>> {
    fn fmt<W: fmt::Write>(&self, f: &mut fmt::Formatter<W>) -> fmt::Result {
        match self.0 {
            Some(kind) => write!(f, "{}", Hex(kind)),
            None => f.write_str("none"),
        }
    }
}

// Writes the offers that are held, as input=value.
fn print_offers(out: Stdout, held: &[bool; 8], offers: &[u32; 8]) {
    for i in 0..8 {
        if held[i] {
            crate::memory::print_value(out, i, offers[i]);
        }
    }
}

// Writes a machine: the registers, what the start fixed if that is asked for, clock and timer queue, the held offers and the kept fault.
pub fn print_machine(out: Stdout, machine: Machine, with_setup: bool) {
    lines::show(out, &format_args!(" / {}", Hex(machine.cpu)));
    if with_setup {
        lines::show(out, &format_args!(" / {}", Hex(machine.setup)));
    }
    lines::show(out, &format_args!(" / {} /", Hex(machine.timer)));
    print_offers(out, &machine.held, &machine.offers);
    lines::show(out, &format_args!(" / {}", Hex(machine.fault)));
}
