// Programs in runs of which only the end counts.
use crate::answers::Standing;

// How far a program has come: its machine, how the last run stood, and the instructions of all runs.
#[derive(Clone, Copy)]
pub struct Course {
    pub machine: model::Machine,
    pub standing: Standing,
    pub total: u64,
}

// Starts a program with these facts over lent memory.
pub fn start_program(
    code: &[u8],
    memory: &mut [u32],
    facts: model::Facts,
    slice: u32,
) -> machine::Begun {
    let channels = facts.inputs.wrapping_add(facts.outputs);
    let w = facts.words.wrapping_sub(channels);
    machine::start(code, memory, w, facts.inputs, facts.outputs, slice)
}

// A program before its first run.
pub fn begin(machine: model::Machine) -> Course {
    Course {
        machine,
        standing: Standing::Spent,
        total: 0,
    }
}

// A run of some more instructions, under the clock 0.
pub fn go_on(course: Course, code: &[u8], memory: &mut [u32], budget: u64) -> Course {
    let ran = machine::run(course.machine, code, memory, budget, 0);
    let (standing, count) = Standing::of(ran.answer);
    Course {
        machine: ran.machine,
        standing,
        total: course.total.wrapping_add(count),
    }
}
