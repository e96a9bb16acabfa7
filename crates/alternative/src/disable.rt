// DISC, DISS and ALTEND.
ghost use Rattle.std.specs.Prelude.{◌≡◌, true, ◌≤◌, ◌<◌, length};
ghost use Rattle.model.specs.Machine.{memory_size};
ghost use Rattle.model.specs.Alternative.{disable_channel, disable_skip, end_alt};
ghost use Rattle.processor.specs.Seen.{Works, Goes};
ghost use Rattle.processor.specs.Pieces.{landing};
ghost use Rattle.processor.specs.Quiet.{Stays, Sees};
ghost use Rattle.alternative.specs.Guards.{selecting, disable_held, disable_inside};

use processor::{Step, goto, held_at, land, peek, poke, stack};
use word::plus;

// A ready guard's branch is chosen if none is yet; A says whether it was.
pub fn select(memory: &mut [u32], cpu: model::Cpu, branch: u32) -> Step
    ensures { Works (selecting branch) cpu memory.old result memory.new }
{
    let t = peek(memory, cpu.workspace)?;
    if t == model::constants::NONE_SELECTED {
        let r = stack(cpu, 1, cpu.b, cpu.c);
        return poke(memory, r, cpu.workspace, branch);
    }
    Ok(stack(cpu, 0, cpu.b, cpu.c))
}

// A guard with a held offer is ready, and the channel's word becomes NotProcess.
fn disable_held(memory: &mut [u32], cpu: model::Cpu, c: u32) -> Step
    requires { c < length memory.old }
    ensures { Works (disable_held c cpu.a) cpu memory.old result memory.new }
{
    let chosen = select(memory, cpu, cpu.a)?;
    poke(memory, chosen, c, model::constants::NOT_PROCESS)
}

// A guard without: a sender is ready, and the ALT's own mark goes.
fn disable_inside(memory: &mut [u32], cpu: model::Cpu, c: u32, p: u32) -> Step
    ensures { Works (disable_inside c cpu.a p) cpu memory.old result memory.new }
{
    let r = stack(cpu, 0, cpu.b, cpu.c);
    if p == model::constants::NOT_PROCESS {
        return Ok(r);
    }
    if p == cpu.workspace {
        return poke(memory, r, c, model::constants::NOT_PROCESS);
    }
    select(memory, cpu, cpu.a)
}

// DISC: A is the branch's distance, B the condition, C the channel.
pub fn disable_channel(
    memory: &mut [u32],
    cpu: model::Cpu,
    setup: model::Setup,
    held: &[bool; 8],
) -> Step
    requires sized { (cpu.running ≡ true) × (memory_size setup ≡ length memory.old) × (cpu.place ≤ setup.code) }
    ensures { Sees setup (landing disable_channel) cpu held.now memory.old result memory.new }
{
    if cpu.b == 0 {
        return Ok(stack(cpu, 0, cpu.b, cpu.c));
    }
    let p = peek(memory, cpu.c)?;
    if held_at(cpu.c, setup, held).is_some() {
        return disable_held(memory, cpu, cpu.c);
    }
    disable_inside(memory, cpu, cpu.c, p)
}

// DISS: A is the branch's distance, B the condition.
pub fn disable_skip(memory: &mut [u32], cpu: model::Cpu) -> Step
    requires { cpu.running ≡ true }
    ensures { Stays disable_skip cpu memory.old result memory.new }
{
    let r = stack(cpu, 0, cpu.c, cpu.c);
    if cpu.b == 0 {
        return Ok(r);
    }
    select(memory, r, cpu.a)
}

// ALTEND: to the chosen branch, at the distance in W + 0.
pub fn end_alt(memory: &[u32], cpu: model::Cpu, code: u32) -> Step
    ensures { Goes code (landing end_alt) cpu memory.now result memory.now }
{
    let d = peek(memory, cpu.workspace)?;
    land(goto(cpu, plus(cpu.place, d)), code)
}
