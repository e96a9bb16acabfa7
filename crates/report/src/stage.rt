// Where the text has come to.
ghost use Rattle.std.specs.Prelude.{◌≡◌};
ghost use Rattle.report.specs.Texts.{at as standing};

// What comes next: a line of the head, a byte of the code, a run, a take from an output (and whether one before it in the round gave a
// value), a refusal, or nothing. A refusal stays a number and a place: `next` takes a report with any.
#[derive(Clone, Copy)]
pub enum Stage {
    Bytes,
    Words,
    Head,
    Code(usize),
    Running,
    Taking(u32, bool),
    Refused(u32, usize),
    Done,
}

// The machine, the stage, the instructions so far, the rounds that are left, and what was compiled: outside outputs, bytes and words.
#[derive(Clone, Copy)]
pub struct Report {
    pub machine: model::Machine,
    pub stage: Stage,
    pub total: u64,
    pub left: u32,
    pub outputs: u32,
    pub size: usize,
    pub words: usize,
}

impl Report {
    // The same at another stage.
    pub(crate) fn at(self, stage: Stage) -> Report
        ensures { result ≡ standing stage self }
    {
        Report { stage, ..self }
    }
}
