// A process waits: words are written, an ALT is told, and the processor is free. A fault gives all words back.
// The process and its ALT's state stay two words, 0 and 0 for nobody, as in the definitions' pieces: no ALT has the state 0, and an Option
// would be one case more in each of these functions and of their definitions.
ghost use Rattle.std.specs.Prelude.{◌≡◌, true};
ghost use Rattle.model.specs.Alternative.{is_alt_state};
ghost use Rattle.processor.specs.Seen.{Goes};
ghost use Rattle.processor.specs.Pieces.{wake_release, tell_release, poke_tell, poke2_tell};

use crate::memory::{Step, state_word, swap, undo};
use crate::process::{join_release, release};

// An ALT was made Ready: its process is woken if it was Waiting, and the processor is free.
fn wake_release(memory: &mut [u32], cpu: model::Cpu, code: u32, p: u32, state: u32) -> Step
    requires { cpu.running ≡ true }
    ensures { Goes code (wake_release p state) cpu memory.old result memory.new }
{
    if state == model::constants::WAITING {
        return join_release(memory, cpu, code, 0, p);
    }
    release(memory, cpu, code, 0)
}

// The state is that of an ALT.
pub fn alt_state(state: u32) -> bool
    ensures { result ≡ is_alt_state state }
{
    matches!(
        state,
        model::constants::ENABLING | model::constants::WAITING | model::constants::READY
    )
}

// The processor is free; before, a process in an ALT, whose state is given, is told: it becomes Ready, and is woken if it was Waiting.
fn tell_release(memory: &mut [u32], cpu: model::Cpu, code: u32, p: u32, state: u32) -> Step
    requires { cpu.running ≡ true }
    ensures { Goes code (tell_release p state) cpu memory.old result memory.new }
{
    if alt_state(state) {
        let a = state_word(p);
        let old = swap(memory, a, model::constants::READY)?;
        let step = wake_release(memory, cpu, code, p, state);
        return undo(memory, a, old, step);
    }
    release(memory, cpu, code, 0)
}

// A word is written before that.
fn poke_tell(
    memory: &mut [u32],
    cpu: model::Cpu,
    code: u32,
    a: u32,
    v: u32,
    p: u32,
    state: u32,
) -> Step
    requires { cpu.running ≡ true }
    ensures { Goes code (poke_tell a v p state) cpu memory.old result memory.new }
{
    let old = swap(memory, a, v)?;
    let step = tell_release(memory, cpu, code, p, state);
    undo(memory, a, old, step)
}

// Two words are written before that.
pub fn poke2_tell(
    memory: &mut [u32],
    cpu: model::Cpu,
    code: u32,
    a: u32,
    v: u32,
    b: u32,
    w: u32,
    p: u32,
    state: u32,
) -> Step
    requires { cpu.running ≡ true }
    ensures { Goes code (poke2_tell a v b w p state) cpu memory.old result memory.new }
{
    let old = swap(memory, a, v)?;
    let step = poke_tell(memory, cpu, code, b, w, p, state);
    undo(memory, a, old, step)
}
