// Words of the machine's memory: the slice is exactly these.
ghost use Rattle.std.specs.Prelude.{◌≡◌};
ghost use Rattle.model.specs.Machine.{peek as peek_of, poke as poke_of, resume_word, link_word, state_word, time_link_word, time_word};
ghost use Rattle.processor.specs.Seen.{Works, Finds, looked, written, undone};

use word::less;

// What a byte came to: the registers after it, or the fault that kept it from beginning.
pub type Step = Result<model::Cpu, model::FaultKind>;

// The words below a process's workspace pointer W: W - 1, where it goes on.
pub fn resume_word(w: u32) -> u32
    ensures { result ≡ resume_word w }
{
    less(w, 1)
}

// W - 2, the process behind it in the queue.
pub fn link_word(w: u32) -> u32
    ensures { result ≡ link_word w }
{
    less(w, 2)
}

// W - 3, its message place or the state of its ALT.
pub fn state_word(w: u32) -> u32
    ensures { result ≡ state_word w }
{
    less(w, 3)
}

// W - 4, the process behind it in the timer queue, or whether its ALT has a time.
pub fn time_link_word(w: u32) -> u32
    ensures { result ≡ time_link_word w }
{
    less(w, 4)
}

// W - 5, the time that it waits for.
pub fn time_word(w: u32) -> u32
    ensures { result ≡ time_word w }
{
    less(w, 5)
}

// A word inside the machine's memory, or the fault with its address.
pub fn peek(memory: &[u32], a: u32) -> Result<u32, model::FaultKind>
    ensures { Finds (peek_of a) memory.now result }
{
    if (a as usize) < memory.len() {
        return Ok(memory[a as usize]);
    }
    Err(model::FaultKind::Word(a))
}

// A word is written, and what it held is answered.
pub fn swap(memory: &mut [u32], a: u32, v: u32) -> Result<u32, model::FaultKind>
    ensures held { result ≡ looked a memory.old }
    ensures holds { memory.new ≡ written result a v memory.old }
{
    if (a as usize) < memory.len() {
        let old = memory[a as usize];
        memory[a as usize] = v;
        return Ok(old);
    }
    Err(model::FaultKind::Word(a))
}

// A word is written, and the registers are as given.
pub fn poke(memory: &mut [u32], cpu: model::Cpu, a: u32, v: u32) -> Step
    ensures { Works (poke_of a v) cpu memory.old result memory.new }
{
    if (a as usize) < memory.len() {
        memory[a as usize] = v;
        return Ok(cpu);
    }
    Err(model::FaultKind::Word(a))
}

// A word gets back what it held where a fault came: a byte that faults changes nothing. `swap` and `undo` stay around a rest in three
// lines, and functions of one word around those of the next: of one function over a closure the caller's proof did not get what the closure
// does, but by clauses of its own at each of the 17 calls, which is longer.
pub fn undo(memory: &mut [u32], a: u32, old: u32, step: Step) -> Step
    ensures same { result ≡ step }
    ensures back { memory.new ≡ undone step a old memory.old }
{
    if step.is_err() && (a as usize) < memory.len() {
        memory[a as usize] = old;
    }
    step
}
