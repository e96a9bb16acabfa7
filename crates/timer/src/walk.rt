// Going along the timer queue, by the links in W - 4.
ghost use Rattle.std.specs.Prelude.{◌≡◌, suc, length};
ghost use Rattle.timer.specs.Walks.{stops_in, pass_in, walk_in, from_front};

use model::FaultKind;
use processor::{peek, time_link_word, time_word};
use word::after;

// Where a walk is to stop: at a process whose time is after this one, or at this process. Stays an enum: the definition of a walk has these
// two cases, and a closure would have a contract of both.
#[derive(Clone, Copy)]
pub enum Until {
    Later(u32),
    Is(u32),
}

// A place in the timer queue: the one before, if it is not the first, and the process there, NotProcess at the end.
#[derive(Clone, Copy)]
pub struct Place {
    pub before: Option<u32>,
    pub at: u32,
}

// Whether the walk stops at a process.
fn stops(memory: &[u32], until: Until, p: u32) -> Result<bool, FaultKind>
    ensures { result ≡ stops_in memory.now until p }
{
    match until {
        Until::Later(t) => {
            let u = peek(memory, time_word(p))?;
            Ok(after(u, t))
        }
        Until::Is(w) => Ok(p == w),
    }
}

// At a process: the one that its link names, or none where the walk stops.
fn pass(memory: &[u32], until: Until, p: u32) -> Result<Option<u32>, FaultKind>
    ensures { result ≡ pass_in memory.now until p }
{
    if stops(memory, until, p)? {
        return Ok(None);
    }
    let q = peek(memory, time_link_word(p))?;
    Ok(Some(q))
}

// A walk from the front. One that has passed more processes than there are words has come back on itself.
pub fn walk(memory: &[u32], until: Until, front: u32) -> Result<Place, FaultKind>
    ensures { result ≡ walk_in (suc (length memory.now)) memory.now until front (from_front front) }
{
    let mut here = Place {
        before: None,
        at: front,
    };
    for _ in 0..=memory.len() {
        let p = here.at;
        if p == model::constants::NOT_PROCESS {
            return Ok(here);
        }
        let Some(q) = pass(memory, until, p)? else {
            return Ok(here);
        };
        here = Place {
            before: Some(p),
            at: q,
        };
    }
    Err(FaultKind::Word(front))
}
