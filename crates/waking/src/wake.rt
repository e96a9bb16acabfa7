// Sleepers are woken, from the front of the timer queue on. Words are not given back here: the caller has a copy.
ghost use Rattle.std.specs.Prelude.{◌≡◌, false, ◌≤◌, length, get_or};
ghost use Rattle.model.specs.Machine.{time_link_word};
ghost use Rattle.waking.specs.Wakes.{Roughly, due_in, ready_join, wake_state, wake_rest, WakesOne, WakesAll};

use model::FaultKind;
use processor::{Step, enqueue, peek, state_word, swap, time_link_word, time_word};
use word::after;

// The registers and the front of the timer queue.
#[derive(Clone, Copy)]
pub struct Awake {
    pub cpu: model::Cpu,
    pub front: u32,
}

// The clock is after the time in W - 5: the sleeper's time has come.
pub fn is_due(memory: &[u32], clock: u32, p: u32) -> Result<bool, FaultKind>
    ensures { result ≡ due_in memory.now clock p }
{
    let t = peek(memory, time_word(p))?;
    Ok(after(clock, t))
}

// A sleeper that waits is Ready and joins the back of the queue.
fn ready_join(memory: &mut [u32], cpu: model::Cpu, p: u32) -> Step
    ensures { Roughly (ready_join p cpu) cpu memory.old result memory.new }
{
    swap(memory, state_word(p), model::constants::READY)?;
    enqueue(memory, cpu, p)
}

// One that does not wait is an ALT that was woken before.
fn wake_state(memory: &mut [u32], cpu: model::Cpu, p: u32) -> Step
    ensures { Roughly (wake_state p) cpu memory.old result memory.new }
{
    let s = peek(memory, state_word(p))?;
    if s == model::constants::WAITING {
        return ready_join(memory, cpu, p);
    }
    Ok(cpu)
}

// Its time becomes the clock.
fn wake_rest(memory: &mut [u32], cpu: model::Cpu, clock: u32, p: u32) -> Step
    ensures { Roughly (wake_rest clock p) cpu memory.old result memory.new }
{
    swap(memory, time_word(p), clock)?;
    wake_state(memory, cpu, p)
}

// A sleeper whose time has come leaves the timer queue; the front is then what was behind it.
fn wake_one(memory: &mut [u32], cpu: model::Cpu, clock: u32, p: u32) -> Result<Awake, FaultKind>
    ensures { WakesOne clock p cpu memory.old result memory.new }
{
    let front = swap(memory, time_link_word(p), model::constants::TIME_SET)?;
    let cpu = wake_rest(memory, cpu, clock, p)?;
    Ok(Awake { cpu, front })
}

// A process was there before: its link's word is marked.
fn marked(seen: &[bool; 4096], p: u32) -> bool
    requires { length seen.now ≡ 4096 }
    ensures { result ≡ get_or seen.now (time_link_word p) false }
{
    let a = time_link_word(p) as usize;
    a < model::limits::MEMORY && seen[a]
}

// All sleepers whose time has come, until one's has not. A queue that comes back on itself is a fault.
pub fn wake_all(
    memory: &mut [u32],
    start: model::Cpu,
    clock: u32,
    front: u32,
) -> Result<Awake, FaultKind>
    requires { length memory.old ≤ 4096 }
    ensures { WakesAll clock front start memory.old result memory.new }
{
    let mut seen = [false; 4096];
    let mut awake = Awake { cpu: start, front };
    for _ in 0..=memory.len() {
        let p = awake.front;
        if p == model::constants::NOT_PROCESS {
            return Ok(awake);
        }
        if marked(&seen, p) {
            return Err(FaultKind::Word(front));
        }
        if !is_due(memory, clock, p)? {
            return Ok(awake);
        }
        awake = wake_one(memory, awake.cpu, clock, p)?;
        seen[time_link_word(p) as usize] = true;
    }
    Err(FaultKind::Word(front))
}
