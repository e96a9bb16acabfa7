// ALT, ENBC, ENBS and ALTWT.
ghost use Rattle.std.specs.Prelude.{◌≡◌, true, ◌≤◌, length};
ghost use Rattle.model.specs.Machine.{memory_size, state_word, poke as poke_of};
ghost use Rattle.model.specs.Alternative.{begin_alt, enable_channel, enable_skip, wait_alt};
ghost use Rattle.processor.specs.Seen.{Works, Goes};
ghost use Rattle.processor.specs.Pieces.{landing};
ghost use Rattle.processor.specs.Quiet.{Stays, Sees};
ghost use Rattle.alternative.specs.Guards.{enable_inside, wait_ready};

use processor::{
    Step, held_at, peek, poke, poke2_tell, resume_word, stack, state_word, swap, undo,
};

// The state in W - 3.
fn set_state(memory: &mut [u32], cpu: model::Cpu, state: u32) -> Step
    ensures { Works (poke_of (state_word cpu.workspace) state) cpu memory.old result memory.new }
{
    poke(memory, cpu, state_word(cpu.workspace), state)
}

// ALT: the state is Enabling.
pub fn begin_alt(memory: &mut [u32], cpu: model::Cpu) -> Step
    requires { cpu.running ≡ true }
    ensures { Stays begin_alt cpu memory.old result memory.new }
{
    set_state(memory, cpu, model::constants::ENABLING)
}

// ENBC with a true condition and no held offer: an empty channel gets the mark W; a sender makes the ALT ready.
fn enable_inside(memory: &mut [u32], cpu: model::Cpu, c: u32) -> Step
    ensures { Works (enable_inside c) cpu memory.old result memory.new }
{
    let p = peek(memory, c)?;
    if p == model::constants::NOT_PROCESS {
        return poke(memory, cpu, c, cpu.workspace);
    }
    if p == cpu.workspace {
        return Ok(cpu);
    }
    set_state(memory, cpu, model::constants::READY)
}

// ENBC: A is the condition, B the channel.
pub fn enable_channel(
    memory: &mut [u32],
    cpu: model::Cpu,
    setup: model::Setup,
    held: &[bool; 8],
) -> Step
    requires sized { (cpu.running ≡ true) × (memory_size setup ≡ length memory.old) × (cpu.place ≤ setup.code) }
    ensures { Sees setup (landing enable_channel) cpu held.now memory.old result memory.new }
{
    let c = cpu.b;
    let r = stack(cpu, cpu.a, cpu.c, cpu.c);
    if cpu.a == 0 {
        return Ok(r);
    }
    if held_at(c, setup, held).is_some() {
        return set_state(memory, r, model::constants::READY);
    }
    enable_inside(memory, r, c)
}

// ENBS: A is the condition.
pub fn enable_skip(memory: &mut [u32], cpu: model::Cpu) -> Step
    requires { cpu.running ≡ true }
    ensures { Stays enable_skip cpu memory.old result memory.new }
{
    if cpu.a == 0 {
        return Ok(cpu);
    }
    set_state(memory, cpu, model::constants::READY)
}

// No branch is chosen; the process waits unless it is Ready.
fn wait_ready(memory: &mut [u32], cpu: model::Cpu, code: u32) -> Step
    requires { (cpu.running ≡ true) × (cpu.place ≤ code) }
    ensures { Goes code (wait_ready cpu.workspace cpu.place) cpu memory.old result memory.new }
{
    let w = cpu.workspace;
    let a = state_word(w);
    let s = peek(memory, a)?;
    if s == model::constants::READY {
        return Ok(cpu);
    }
    let b = resume_word(w);
    poke2_tell(
        memory,
        cpu,
        code,
        a,
        model::constants::WAITING,
        b,
        cpu.place,
        0,
        0,
    )
}

// ALTWT: no branch is chosen yet; the process waits unless it is Ready.
pub fn wait_alt(memory: &mut [u32], cpu: model::Cpu, code: u32) -> Step
    requires { (cpu.running ≡ true) × (cpu.place ≤ code) }
    ensures { Goes code (landing wait_alt) cpu memory.old result memory.new }
{
    let w = cpu.workspace;
    let old = swap(memory, w, model::constants::NONE_SELECTED)?;
    let step = wait_ready(memory, cpu, code);
    undo(memory, w, old, step)
}
