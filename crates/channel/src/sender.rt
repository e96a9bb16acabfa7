// OUTWORD.
ghost use Rattle.std.specs.Prelude.{◌≡◌, true, ◌≤◌};
ghost use Rattle.model.specs.Execute.{output_word};
ghost use Rattle.processor.specs.Pieces.{landing};
ghost use Rattle.processor.specs.Quiet.{Talks};
ghost use Rattle.channel.specs.Channels.{output_to, output_behind};

use crate::wait::{deliver, wait_at};
use processor::{Step, alt_state, peek, state_word, swap, undo};

// A process is at the channel's word: in IN it gets the value; in an ALT it is told, and the sender waits.
fn output_to(memory: &mut [u32], cpu: model::Cpu, code: u32, p: u32) -> Step
    requires { (cpu.running ≡ true) × (cpu.place ≤ code) }
    ensures { Talks code (output_to p) cpu memory.old result memory.new }
{
    let s = peek(memory, state_word(p))?;
    if alt_state(s) {
        return wait_at(memory, cpu, code, cpu.b, cpu.workspace, p, s);
    }
    deliver(memory, cpu, cpu.b, p, s, cpu.a)
}

// The value stands in W + 0; what comes after.
fn output_behind(memory: &mut [u32], cpu: model::Cpu, code: u32) -> Step
    requires { (cpu.running ≡ true) × (cpu.place ≤ code) }
    ensures { Talks code (output_behind cpu) cpu memory.old result memory.new }
{
    let p = peek(memory, cpu.b)?;
    if p == model::constants::NOT_PROCESS {
        return wait_at(memory, cpu, code, cpu.b, cpu.workspace, 0, 0);
    }
    output_to(memory, cpu, code, p)
}

// OUTWORD: A is the value, which goes to W + 0, B the channel. A process in IN gets it; else the sender waits, and tells an ALT.
pub fn output(memory: &mut [u32], cpu: model::Cpu, code: u32) -> Step
    requires { (cpu.running ≡ true) × (cpu.place ≤ code) }
    ensures { Talks code (landing output_word) cpu memory.old result memory.new }
{
    let w = cpu.workspace;
    let old = swap(memory, w, cpu.a)?;
    let step = output_behind(memory, cpu, code);
    undo(memory, w, old, step)
}
