// The process at work goes into the timer queue, and the processor is free: TIN, and what TALTWT shares with it. A fault gives all back.
ghost use Rattle.std.specs.Prelude.{◌≡◌, true, ◌≤◌};
ghost use Rattle.model.specs.Timer.{timer_input};
ghost use Rattle.processor.specs.Pieces.{landing};
ghost use Rattle.timer.specs.Sleeps.{Sleeps, Waits, link_release, sleep_release, poke_sleep, poke2_sleep};

use crate::walk::{Place, Until, walk};
use processor::{
    Step, poke_release, poke2_tell, resume_word, state_word, swap, time_link_word, time_word, undo,
};
use word::after;

// The process comes to a place in the timer queue, and the processor is free.
fn link_release(
    memory: &mut [u32],
    cpu: model::Cpu,
    code: u32,
    front: &mut u32,
    here: Place,
) -> Step
    requires { cpu.running ≡ true }
    ensures { Sleeps code (link_release here) cpu front.old memory.old result front.new memory.new }
{
    let w = cpu.workspace;
    let a = time_link_word(w);
    let Some(before) = here.before else {
        let r = poke_release(memory, cpu, code, 0, a, here.at)?;
        *front = w;
        return Ok(r);
    };
    let b = time_link_word(before);
    poke2_tell(memory, cpu, code, a, here.at, b, w, 0, 0)
}

// The process goes into the timer queue with a time.
fn sleep_release(memory: &mut [u32], cpu: model::Cpu, code: u32, front: &mut u32, time: u32) -> Step
    requires { cpu.running ≡ true }
    ensures { Sleeps code (sleep_release time) cpu front.old memory.old result front.new memory.new }
{
    let from = *front;
    let here = walk(memory, Until::Later(time), from)?;
    link_release(memory, cpu, code, front, here)
}

// A word is written before that.
fn poke_sleep(
    memory: &mut [u32],
    cpu: model::Cpu,
    code: u32,
    front: &mut u32,
    a: u32,
    v: u32,
    time: u32,
) -> Step
    requires { cpu.running ≡ true }
    ensures { Sleeps code (poke_sleep a v time) cpu front.old memory.old result front.new
        memory.new }
{
    let old = swap(memory, a, v)?;
    let step = sleep_release(memory, cpu, code, front, time);
    undo(memory, a, old, step)
}

// Two words are written before that.
pub fn poke2_sleep(
    memory: &mut [u32],
    cpu: model::Cpu,
    code: u32,
    front: &mut u32,
    a: u32,
    v: u32,
    b: u32,
    w: u32,
    time: u32,
) -> Step
    requires { cpu.running ≡ true }
    ensures { Sleeps code (poke2_sleep a v b w time) cpu front.old memory.old result front.new
        memory.new }
{
    let old = swap(memory, a, v)?;
    let step = poke_sleep(memory, cpu, code, front, b, w, time);
    undo(memory, a, old, step)
}

// TIN: A is a time. The process goes on where the clock is after it; else it waits until then.
pub fn timer_input(
    memory: &mut [u32],
    cpu: model::Cpu,
    code: u32,
    clock: u32,
    front: &mut u32,
) -> Step
    requires { (cpu.running ≡ true) × (cpu.place ≤ code) }
    ensures { Waits code (landing timer_input) cpu clock front.old memory.old result front.new
        memory.new }
{
    let time = cpu.a;
    if after(clock, time) {
        return Ok(cpu);
    }
    let w = cpu.workspace;
    let a = resume_word(w);
    let old = swap(memory, a, cpu.place)?;
    let b = state_word(w);
    let c = time_word(w);
    let state = model::constants::WAITING;
    let step = poke2_sleep(memory, cpu, code, front, b, state, c, time, time);
    undo(memory, a, old, step)
}
