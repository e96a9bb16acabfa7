// A process waits at a channel's word, or gets a value and is woken.
ghost use Rattle.std.specs.Prelude.{◌≡◌, true};
ghost use Rattle.processor.specs.Seen.{Works, Goes};
ghost use Rattle.channel.specs.Channels.{wait_tell, hand};

use processor::{Step, poke_join, poke2_tell, resume_word, state_word, swap, undo};

// A process waits at a channel's word, with its resume place and a message place. A process in an ALT, whose state is given, is told.
pub fn wait_at(
    memory: &mut [u32],
    cpu: model::Cpu,
    code: u32,
    c: u32,
    message: u32,
    p: u32,
    state: u32,
) -> Step
    requires { cpu.running ≡ true }
    ensures { Goes code (wait_tell c message p state) cpu memory.old result memory.new }
{
    let w = cpu.workspace;
    let old = swap(memory, c, w)?;
    let step = poke2_tell(
        memory,
        cpu,
        code,
        resume_word(w),
        cpu.place,
        state_word(w),
        message,
        p,
        state,
    );
    undo(memory, c, old, step)
}

// A value goes to a message place, the channel is empty again and the process that waited there is woken.
pub fn deliver(memory: &mut [u32], cpu: model::Cpu, c: u32, p: u32, place: u32, v: u32) -> Step
    requires { cpu.running ≡ true }
    ensures { Works (hand c p place v) cpu memory.old result memory.new }
{
    let old = swap(memory, place, v)?;
    let step = poke_join(memory, cpu, c, model::constants::NOT_PROCESS, p);
    undo(memory, place, old, step)
}
