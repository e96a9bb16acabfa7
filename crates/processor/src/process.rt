// Processes and the queue.
ghost use Rattle.std.specs.Prelude.{◌≡◌, true, length};
ghost use Rattle.model.specs.Machine.{resume as resume_of, take_front, join as join_of, enqueue as enqueue_of, memory_size};
ghost use Rattle.model.specs.Execute.{jump as jump_of, start_process, end_process, stop_process};
ghost use Rattle.model.specs.Run.{land as land_of};
ghost use Rattle.processor.specs.Seen.{Does, Works, Goes, Lands};
ghost use Rattle.processor.specs.Pieces.{landing, land_at, release_at, poke_release, poke_join, join_release, last_ends, yield_slice};

use crate::memory::{Step, link_word, peek, poke, resume_word, swap, undo};
use crate::registers::{goto, work};
use word::{less, plus};

// A code place is tested when the processor goes there.
pub fn land(cpu: model::Cpu, code: u32) -> Step
    ensures { Lands code land_of cpu result }
{
    if cpu.running && code < cpu.place {
        return Err(model::FaultKind::Place(cpu.place));
    }
    Ok(cpu)
}

// A process gets the processor at its resume place, and its count towards the slice starts again.
pub fn resume(memory: &[u32], cpu: model::Cpu, w: u32) -> Step
    ensures { Works (resume_of w) cpu memory.now result memory.now }
{
    let p = peek(memory, resume_word(w))?;
    Ok(model::Cpu {
        running: true,
        count: 0,
        place: p,
        workspace: w,
        ..cpu
    })
}

// The front of the queue gets the processor.
fn take_front(memory: &[u32], cpu: model::Cpu) -> Step
    ensures { Works take_front cpu memory.now result memory.now }
{
    let first = cpu.front;
    if first == cpu.back {
        let r = model::Cpu {
            queued: false,
            ..cpu
        };
        return resume(memory, r, first);
    }
    let front = peek(memory, link_word(first))?;
    let r = model::Cpu {
        front,
        queued: true,
        ..cpu
    };
    resume(memory, r, first)
}

// The place where a process will go on is tested before that of the process that is taken.
fn land_at(cpu: model::Cpu, code: u32, to: u32) -> Step
    ensures { Lands code (land_at to) cpu result }
{
    if code < to {
        return Err(model::FaultKind::Place(to));
    }
    land(cpu, code)
}

// The processor is free: it takes the front of the queue; where none is queued no process runs.
pub fn release(memory: &[u32], cpu: model::Cpu, code: u32, to: u32) -> Step
    ensures { Goes code (release_at to) cpu memory.now result memory.now }
{
    if cpu.queued {
        let r = take_front(memory, cpu)?;
        return land_at(r, code, to);
    }
    let r = model::Cpu {
        running: false,
        ..cpu
    };
    land_at(r, code, to)
}

// A word is written and the processor is free.
pub fn poke_release(memory: &mut [u32], cpu: model::Cpu, code: u32, to: u32, a: u32, v: u32) -> Step
    ensures { Goes code (poke_release to a v) cpu memory.old result memory.new }
{
    let old = swap(memory, a, v)?;
    let step = release(memory, cpu, code, to);
    undo(memory, a, old, step)
}

// STOPP: the process is not queued again.
pub fn stop_process(memory: &mut [u32], cpu: model::Cpu, code: u32) -> Step
    ensures { Goes code (landing stop_process) cpu memory.old result memory.new }
{
    poke_release(memory, cpu, code, 0, resume_word(cpu.workspace), cpu.place)
}

// A process joins the back of the queue while another has the processor.
pub fn join(memory: &mut [u32], cpu: model::Cpu, w: u32) -> Step
    requires { cpu.running ≡ true }
    ensures { Works (join_of w) cpu memory.old result memory.new }
{
    enqueue(memory, cpu, w)
}

// A process joins the back of the queue, whoever has the processor.
pub fn enqueue(memory: &mut [u32], cpu: model::Cpu, w: u32) -> Step
    ensures { Works (enqueue_of w cpu) cpu memory.old result memory.new }
{
    let r = model::Cpu {
        back: w,
        queued: true,
        ..cpu
    };
    if cpu.queued {
        return poke(memory, r, link_word(cpu.back), w);
    }
    Ok(model::Cpu { front: w, ..r })
}

// A word is written, and a process joins the queue.
pub fn poke_join(memory: &mut [u32], cpu: model::Cpu, a: u32, v: u32, w: u32) -> Step
    requires { cpu.running ≡ true }
    ensures { Works (poke_join a v w) cpu memory.old result memory.new }
{
    let old = swap(memory, a, v)?;
    let step = join(memory, cpu, w);
    undo(memory, a, old, step)
}

// STARTP: A is the workspace of the new process, B the distance of its code.
pub fn start_process(memory: &mut [u32], cpu: model::Cpu) -> Step
    requires { cpu.running ≡ true }
    ensures { Works start_process cpu memory.old result memory.new }
{
    let w = cpu.a;
    poke_join(memory, cpu, resume_word(w), plus(cpu.place, cpu.b), w)
}

// The last branch goes on as the PAR.
fn last_ends(memory: &[u32], cpu: model::Cpu, code: u32) -> Step
    ensures { Goes code last_ends cpu memory.now result memory.now }
{
    let w = cpu.a;
    let p = peek(memory, w)?;
    land(goto(work(cpu, w), p), code)
}

// ENDP: A is the workspace of the PAR.
pub fn end_process(memory: &mut [u32], cpu: model::Cpu, code: u32) -> Step
    ensures { Goes code (landing end_process) cpu memory.old result memory.new }
{
    let a = plus(cpu.a, 1);
    let n = peek(memory, a)?;
    if n == 1 {
        return last_ends(memory, cpu, code);
    }
    poke_release(memory, cpu, code, 0, a, less(n, 1))
}

// A process joins the queue and the processor is free.
pub fn join_release(memory: &mut [u32], cpu: model::Cpu, code: u32, to: u32, w: u32) -> Step
    requires { cpu.running ≡ true }
    ensures { Goes code (join_release to w) cpu memory.old result memory.new }
{
    let r = model::Cpu {
        back: w,
        queued: true,
        ..cpu
    };
    if cpu.queued {
        return poke_release(memory, r, code, to, link_word(cpu.back), w);
    }
    release(memory, model::Cpu { front: w, ..r }, code, to)
}

// The slice is over: the process goes to the back of the queue.
fn yield_slice(memory: &mut [u32], cpu: model::Cpu, code: u32, to: u32) -> Step
    requires { cpu.running ≡ true }
    ensures { Goes code (yield_slice to) cpu memory.old result memory.new }
{
    let w = cpu.workspace;
    let a = resume_word(w);
    let old = swap(memory, a, to)?;
    let step = join_release(memory, cpu, code, to, w);
    undo(memory, a, old, step)
}

// J: the only place where the slice can end.
pub fn jump(memory: &mut [u32], cpu: model::Cpu, setup: model::Setup, n: u32) -> Step
    requires { (cpu.running ≡ true) × (memory_size setup ≡ length memory.old) }
    ensures { Does setup (landing (jump_of n)) cpu memory.old result memory.new }
{
    let to = plus(cpu.place, n);
    if cpu.count < setup.slice {
        return land(goto(cpu, to), setup.code);
    }
    yield_slice(memory, cpu, setup.code, to)
}
