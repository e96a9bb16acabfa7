// IN.
ghost use Rattle.std.specs.Prelude.{◌≡◌, true, ◌≤◌, length};
ghost use Rattle.model.specs.Execute.{receive as receive_of, input_message};
ghost use Rattle.model.specs.Machine.{memory_size};
ghost use Rattle.processor.specs.Seen.{Finds};
ghost use Rattle.processor.specs.Pieces.{landing};
ghost use Rattle.processor.specs.Quiet.{Talks, Takes};
ghost use Rattle.channel.specs.Channels.{inside_input};

use crate::wait::{deliver, wait_at};
use processor::{Step, held_at, peek, state_word, swap};

// The value of the sender that waits at a channel's word.
pub fn receive(memory: &[u32], p: u32) -> Result<u32, model::FaultKind>
    ensures { Finds (receive_of p) memory.now result }
{
    let m = peek(memory, state_word(p))?;
    peek(memory, m)
}

// IN from a channel on which no offer is held.
fn input_inside(memory: &mut [u32], cpu: model::Cpu, code: u32) -> Step
    requires { (cpu.running ≡ true) × (cpu.place ≤ code) }
    ensures { Talks code inside_input cpu memory.old result memory.new }
{
    let p = peek(memory, cpu.b)?;
    if p == model::constants::NOT_PROCESS {
        return wait_at(memory, cpu, code, cpu.b, cpu.c, 0, 0);
    }
    let v = receive(memory, p)?;
    deliver(memory, cpu, cpu.b, p, cpu.c, v)
}

// IN: A is the count, B the channel, C the message place. It takes a held offer, else the value of a sender, else the process waits.
pub fn input(
    memory: &mut [u32],
    cpu: model::Cpu,
    setup: model::Setup,
    offers: &[u32; 8],
    held: &mut [bool; 8],
) -> Step
    requires sized { (cpu.running ≡ true) × (memory_size setup ≡ length memory.old) × (cpu.place ≤ setup.code) }
    ensures { Takes setup (landing input_message) cpu offers.now held.old memory.old result
        held.new memory.new }
{
    if cpu.a != model::constants::WORD_BYTES {
        return Err(model::FaultKind::Count(cpu.a));
    }
    let Some(k) = held_at(cpu.b, setup, held) else {
        return input_inside(memory, cpu, setup.code);
    };
    swap(memory, cpu.c, offers[k])?;
    held[k] = false;
    Ok(cpu)
}
