// A process is woken from outside. A free processor takes it at once, and the place where it goes on is tested.
ghost use Rattle.processor.specs.Seen.{Goes};
ghost use Rattle.processor.specs.Pieces.{wake_join, wake_waiting, notify_wake};

use crate::memory::{Step, state_word, swap, undo};
use crate::process::{join, land, resume};

// The process joins the queue, or a free processor takes it, with none queued, and goes to its place.
pub fn wake(memory: &mut [u32], cpu: model::Cpu, code: u32, w: u32) -> Step
    ensures { Goes code (wake_join w) cpu memory.old result memory.new }
{
    if cpu.running {
        return join(memory, cpu, w);
    }
    let r = model::Cpu {
        front: w,
        back: w,
        queued: false,
        ..cpu
    };
    let q = resume(memory, r, w)?;
    land(q, code)
}

// An ALT was made Ready: its process is woken if it was Waiting.
fn wake_waiting(memory: &mut [u32], cpu: model::Cpu, code: u32, p: u32, state: u32) -> Step
    ensures { Goes code (wake_waiting p state) cpu memory.old result memory.new }
{
    if state == model::constants::WAITING {
        return wake(memory, cpu, code, p);
    }
    Ok(cpu)
}

// A process in an ALT is told from outside: its state becomes Ready, and it is woken if it was Waiting.
pub fn notify_wake(memory: &mut [u32], cpu: model::Cpu, code: u32, p: u32, state: u32) -> Step
    ensures { Goes code (notify_wake p state) cpu memory.old result memory.new }
{
    let a = state_word(p);
    let old = swap(memory, a, model::constants::READY)?;
    let step = wake_waiting(memory, cpu, code, p, state);
    undo(memory, a, old, step)
}
