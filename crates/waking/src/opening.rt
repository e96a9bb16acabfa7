// A run's beginning, as one piece: a fault gives all words back.
ghost use Rattle.std.specs.Prelude.{◌≤◌, length};
ghost use Rattle.waking.specs.Wakes.{SettlesAs, WakesSaved, Begins};

use crate::copy::{restore, save};
use crate::wake::{Awake, is_due, wake_all};
use model::FaultKind;
use processor::release;

// A processor that is free takes the front of the queue, and goes to its place.
fn settle(memory: &[u32], code: u32, awake: Awake) -> Result<Awake, FaultKind>
    ensures { SettlesAs code awake.front awake.cpu memory.now result }
{
    let cpu = awake.cpu;
    if cpu.running {
        return Ok(awake);
    }
    let cpu = release(memory, cpu, code, 0)?;
    Ok(Awake { cpu, ..awake })
}

// Waking, and then what a free processor does; not given back on a fault.
fn wake_settle(
    memory: &mut [u32],
    cpu: model::Cpu,
    code: u32,
    clock: u32,
    front: u32,
) -> Result<Awake, FaultKind>
    requires { length memory.old ≤ 4096 }
    ensures { WakesSaved code clock front cpu memory.old result memory.new }
{
    let awake = wake_all(memory, cpu, clock, front)?;
    settle(memory, code, awake)
}

// With a copy of the words, which a fault gives back.
fn wake_saved(
    memory: &mut [u32],
    cpu: model::Cpu,
    code: u32,
    clock: u32,
    front: u32,
) -> Result<Awake, FaultKind>
    requires { length memory.old ≤ 4096 }
    ensures { Begins code clock front cpu memory.old result memory.new }
{
    let mut saved = [0; 4096];
    save(memory, &mut saved);
    let woken = wake_settle(memory, cpu, code, clock, front);
    if woken.is_err() {
        restore(memory, &saved);
    }
    woken
}

// A run's beginning under its clock. Words are copied only where a sleeper's time has come.
pub fn begin(
    memory: &mut [u32],
    cpu: model::Cpu,
    code: u32,
    clock: u32,
    front: u32,
) -> Result<Awake, FaultKind>
    ensures { Begins code clock front cpu memory.old result memory.new }
{
    let asleep = Awake { cpu, front };
    if front == model::constants::NOT_PROCESS || !is_due(memory, clock, front)? {
        return settle(memory, code, asleep);
    }
    if model::limits::MEMORY < memory.len() {
        return Err(FaultKind::Word(front));
    }
    wake_saved(memory, cpu, code, clock, front)
}
