// The operations of an ALT with a time guard: TALT, ENBT, TALTWT and DIST.
ghost use Rattle.std.specs.Prelude.{◌≡◌, true, ◌≤◌};
ghost use Rattle.model.specs.Timer.{begin_timed_alt, bring_time, enable_time, wait_time, wait_timed_alt, leave_timer, disable_time};
ghost use Rattle.processor.specs.Seen.{Works};
ghost use Rattle.processor.specs.Pieces.{landing};
ghost use Rattle.processor.specs.Quiet.{Stays};
ghost use Rattle.alternative.specs.Guards.{choosing};
ghost use Rattle.timer.specs.Sleeps.{Leaves, Remains, Waits, SameCpu, poke2, earlier_time, wait_set, wait_ready, unlink, time_ready};
ghost use Rattle.timer.specs.Sleeps.{disable_state};

use crate::sleep::poke2_sleep;
use crate::walk::{Place, Until, walk};
use alternative::select;
use processor::{
    Step, peek, poke, poke2_tell, resume_word, stack, state_word, swap, time_link_word, time_word,
    undo,
};
use word::after;

// Two words are written.
fn poke_poke(memory: &mut [u32], cpu: model::Cpu, a: u32, v: u32, b: u32, w: u32) -> Step
    ensures does { Works (poke2 a v b w) cpu memory.old result memory.new }
    ensures same { SameCpu result cpu }
{
    let old = swap(memory, a, v)?;
    let step = poke(memory, cpu, b, w);
    undo(memory, a, old, step)
}

// TALT: the state is Enabling, and no guard has brought a time.
pub fn begin_timed_alt(memory: &mut [u32], cpu: model::Cpu) -> Step
    requires { cpu.running ≡ true }
    ensures { Stays begin_timed_alt cpu memory.old result memory.new }
{
    let a = state_word(cpu.workspace);
    let b = time_link_word(cpu.workspace);
    poke_poke(
        memory,
        cpu,
        a,
        model::constants::ENABLING,
        b,
        model::constants::TIME_NOT_SET,
    )
}

// The earlier of two times.
fn earlier_time(memory: &mut [u32], cpu: model::Cpu, a: u32, time: u32) -> Step
    ensures does { Works (earlier_time a time) cpu memory.old result memory.new }
    ensures same { SameCpu result cpu }
{
    let t = peek(memory, a)?;
    if after(t, time) {
        return poke(memory, cpu, a, time);
    }
    Ok(cpu)
}

// ENBT with a true condition: the first time, or the earlier one.
fn bring_time(memory: &mut [u32], cpu: model::Cpu, time: u32) -> Step
    ensures does { Works (bring_time time) cpu memory.old result memory.new }
    ensures same { SameCpu result cpu }
{
    let a = time_link_word(cpu.workspace);
    let b = time_word(cpu.workspace);
    let x = peek(memory, a)?;
    if x == model::constants::TIME_NOT_SET {
        return poke_poke(memory, cpu, a, model::constants::TIME_SET, b, time);
    }
    earlier_time(memory, cpu, b, time)
}

// ENBT: A is the condition, B the time.
pub fn enable_time(memory: &mut [u32], cpu: model::Cpu) -> Step
    requires { cpu.running ≡ true }
    ensures { Stays enable_time cpu memory.old result memory.new }
{
    if cpu.a == 0 {
        return Ok(stack(cpu, cpu.a, cpu.c, cpu.c));
    }
    let r = bring_time(memory, cpu, cpu.b)?;
    Ok(stack(r, r.a, r.c, r.c))
}

// TALTWT with a time, not Ready: the process goes on where the clock is after it, else it sleeps.
fn wait_time(memory: &mut [u32], cpu: model::Cpu, code: u32, clock: u32, front: &mut u32) -> Step
    requires { (cpu.running ≡ true) × (cpu.place ≤ code) }
    ensures { Waits code (landing wait_time) cpu clock front.old memory.old result front.new
        memory.new }
{
    let w = cpu.workspace;
    let a = time_word(w);
    let b = state_word(w);
    let t = peek(memory, a)?;
    if after(clock, t) {
        return poke_poke(memory, cpu, b, model::constants::READY, a, clock);
    }
    let c = resume_word(w);
    let state = model::constants::WAITING;
    poke2_sleep(memory, cpu, code, front, b, state, c, cpu.place, t)
}

// TALTWT, not Ready: with a time or without.
fn wait_set(memory: &mut [u32], cpu: model::Cpu, code: u32, clock: u32, front: &mut u32) -> Step
    requires { (cpu.running ≡ true) × (cpu.place ≤ code) }
    ensures { Waits code (landing (wait_set cpu.workspace)) cpu clock front.old memory.old result front.new
        memory.new }
{
    let w = cpu.workspace;
    let x = peek(memory, time_link_word(w))?;
    if x == model::constants::TIME_SET {
        return wait_time(memory, cpu, code, clock, front);
    }
    let b = state_word(w);
    let c = resume_word(w);
    let state = model::constants::WAITING;
    poke2_tell(memory, cpu, code, b, state, c, cpu.place, 0, 0)
}

// TALTWT once no branch is chosen: the process goes on if it is Ready.
fn wait_ready(memory: &mut [u32], cpu: model::Cpu, code: u32, clock: u32, front: &mut u32) -> Step
    requires { (cpu.running ≡ true) × (cpu.place ≤ code) }
    ensures { Waits code (landing (wait_ready cpu.workspace clock)) cpu clock front.old memory.old result
        front.new memory.new }
{
    let w = cpu.workspace;
    let s = peek(memory, state_word(w))?;
    if s == model::constants::READY {
        return poke(memory, cpu, time_word(w), clock);
    }
    wait_set(memory, cpu, code, clock, front)
}

// TALTWT: no branch is chosen yet; the process waits unless it is Ready or its time is past.
pub fn wait_timed_alt(
    memory: &mut [u32],
    cpu: model::Cpu,
    code: u32,
    clock: u32,
    front: &mut u32,
) -> Step
    requires { (cpu.running ≡ true) × (cpu.place ≤ code) }
    ensures { Waits code (landing wait_timed_alt) cpu clock front.old memory.old result front.new
        memory.new }
{
    let w = cpu.workspace;
    let old = swap(memory, w, model::constants::NONE_SELECTED)?;
    let step = wait_ready(memory, cpu, code, clock, front);
    undo(memory, w, old, step)
}

// The process leaves its place in the timer queue to what is behind it. It may not be there.
fn unlink_at(memory: &mut [u32], cpu: model::Cpu, front: &mut u32, here: Place, behind: u32) -> Step
    ensures does { Leaves (unlink here behind) cpu front.old memory.old result front.new memory.new }
    ensures same { SameCpu result cpu }
{
    let a = time_link_word(cpu.workspace);
    let state = model::constants::TIME_NOT_SET;
    if here.at == model::constants::NOT_PROCESS {
        return poke(memory, cpu, a, state);
    }
    let Some(before) = here.before else {
        let r = poke(memory, cpu, a, state)?;
        *front = behind;
        return Ok(r);
    };
    let b = time_link_word(before);
    poke_poke(memory, cpu, b, behind, a, state)
}

// The process leaves the timer queue.
fn leave(memory: &mut [u32], cpu: model::Cpu, front: &mut u32, behind: u32) -> Step
    ensures does { Leaves (leave_timer behind) cpu front.old memory.old result front.new memory.new }
    ensures same { SameCpu result cpu }
{
    let from = *front;
    let here = walk(memory, Until::Is(cpu.workspace), from)?;
    unlink_at(memory, cpu, front, here, behind)
}

// DIST of an ALT that went on: its branch is chosen where the time at which it did is after the guard's.
fn choose_timed(memory: &mut [u32], cpu: model::Cpu) -> Step
    requires { cpu.running ≡ true }
    ensures { Stays (choosing (time_ready cpu.workspace cpu.c cpu.a)) cpu memory.old result memory.new }
{
    let t = peek(memory, time_word(cpu.workspace))?;
    if after(t, cpu.c) {
        return select(memory, cpu, cpu.a);
    }
    Ok(stack(cpu, 0, cpu.b, cpu.c))
}

// DIST with a true condition: the ALT has a time or none, or is in the timer queue with this behind it, which it leaves.
fn disable_state(memory: &mut [u32], cpu: model::Cpu, front: &mut u32, state: u32) -> Step
    requires { cpu.running ≡ true }
    ensures { Remains (disable_state cpu.workspace cpu.c cpu.a state) cpu front.old memory.old result
        front.new memory.new }
{
    if state == model::constants::TIME_SET {
        return choose_timed(memory, cpu);
    }
    if state == model::constants::TIME_NOT_SET {
        return Ok(stack(cpu, 0, cpu.b, cpu.c));
    }
    let r = leave(memory, cpu, front, state)?;
    Ok(stack(r, 0, r.b, r.c))
}

// DIST: A is the branch's distance, B the condition, C the time.
pub fn disable_time(memory: &mut [u32], cpu: model::Cpu, front: &mut u32) -> Step
    requires { cpu.running ≡ true }
    ensures { Remains disable_time cpu front.old memory.old result front.new memory.new }
{
    if cpu.b == 0 {
        return Ok(stack(cpu, 0, cpu.b, cpu.c));
    }
    let x = peek(memory, time_link_word(cpu.workspace))?;
    disable_state(memory, cpu, front, x)
}
