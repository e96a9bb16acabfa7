// The types that the calls of document 01 take and answer, the kinds of its table, its limits and the words that its machine tells apart.
// What the calls do is defined in specs/.
#![tactic(auto)]

ghost use Rattle.std.specs.Prelude.{◌≡◌};
ghost use Rattle.model.specs.Answers.{reason_number, refused_for};

pub mod constants;
pub mod kinds;
pub mod limits;

use std::fmt;

// Fault (refusal 12): what was at fault, with its number.
#[derive(Clone, Copy, Debug, PartialEq, Eq)]
pub enum FaultKind {
    Function(u32),
    Operation(u32),
    Count(u32),
    Word(u32),
    Place(u32),
}

// How a run stood, with the instructions that it executed.
#[derive(Clone, Copy, Debug, PartialEq, Eq)]
pub enum Outcome {
    Ended(u64),
    Waiting(u64),
    Spent(u64),
    Fault(u64, FaultKind),
}

// Why a run is turned down: refusals 16, for a clock that the last one given is after, and 11, with the size needed.
#[derive(Clone, Copy, Debug, PartialEq, Eq)]
pub enum RunRefusal {
    EarlierClock,
    Short(u64),
}

// Why a start is: refusals 15, 3, 10 and 11, the last with the size needed.
#[derive(Clone, Copy, Debug, PartialEq, Eq)]
pub enum StartRefusal {
    BadSlice,
    BadCount,
    TooLarge,
    Short(u64),
}

// Why an offer is: refusals 11, 12, 13 and 14.
#[derive(Clone, Copy, Debug, PartialEq, Eq)]
pub enum OfferRefusal {
    Short(u64),
    Fault(FaultKind),
    NoChannel,
    Held,
}

// Why a take is: refusals 11, 12 and 13.
#[derive(Clone, Copy, Debug, PartialEq, Eq)]
pub enum TakeRefusal {
    Short(u64),
    Fault(FaultKind),
    NoChannel,
}

// The answers of the machine's calls. A take answers the value, or none where no sender waits.
pub type RunAnswer = Result<Outcome, RunRefusal>;

pub type StartAnswer = Result<(), StartRefusal>;

pub type OfferAnswer = Result<(), OfferRefusal>;

pub type TakeAnswer = Result<Option<u32>, TakeRefusal>;

// What the bytes change: the queue, the gathered operand, the registers, the slice's count, and the place of the next byte.
// `queued` counts only while `running`: a processor that is free with a process queued takes it at once.
// The order is that of the fastest code: a fault's number shares the place of the first two fields where a byte is answered.
#[derive(Clone, Copy)]
pub struct Cpu {
    pub front: u32,
    pub back: u32,
    pub operand: u32,
    pub a: u32,
    pub b: u32,
    pub c: u32,
    pub workspace: u32,
    pub count: u32,
    pub place: u32,
    pub running: bool,
    pub queued: bool,
}

// What the start fixed: the code's length, W, the channel counts and the slice.
#[derive(Clone, Copy)]
pub struct Setup {
    pub code: u32,
    pub base: u32,
    pub inputs: u32,
    pub outputs: u32,
    pub slice: u32,
}

// The last clock word given, whether one was given at all, and the front of the timer queue, NotProcess where it is empty.
// Stays a word and a flag: a machine of a caller's making has a word there that was never given, and crates/run_test prints it.
#[derive(Clone, Copy)]
pub struct Timer {
    pub clock: u32,
    pub given: bool,
    pub front: u32,
}

// The machine: up to eight held offers, one for each outside input.
// Stays two arrays: document 01 names this form, an array of eight offer values and an array of flags.
#[derive(Clone, Copy)]
pub struct Machine {
    pub cpu: Cpu,
    pub setup: Setup,
    pub timer: Timer,
    pub offers: [u32; 8],
    pub held: [bool; 8],
    // The fault that it keeps, if any.
    pub fault: Option<FaultKind>,
}

// A program's facts: words with outside channels, outside channels, live processes.
#[derive(Clone, Copy)]
pub struct Facts {
    pub words: u32,
    pub inputs: u32,
    pub outputs: u32,
    pub processes: u32,
}

// Why a table is refused, at reading or at compiling.
#[derive(Clone, Copy, Debug, PartialEq, Eq)]
pub enum Reason {
    // 1: a table of 0 or too many bytes.
    TableSize,
    // 2: a number cut short, too long or too large.
    BadNumber,
    // 3: a count or kind out of range.
    OutOfRange,
    // 4: a part at depth 33.
    TooDeep,
    // 5: a name not in scope, or an outside channel used the wrong way.
    BadName,
    // 6: bytes behind the program.
    BytesBehind,
    // 7: branches of a PAR that clash.
    Clash,
    // 9: too many processes live together.
    TooManyProcesses,
    // 10: too many words or code bytes.
    TooLarge,
    // 11: a code buffer that is too short.
    Short,
}

impl Reason {
    // Its number in document 01.
    pub fn number(self) -> u32
        ensures { result ≡ reason_number self }
    {
        match self {
            Reason::TableSize => 1,
            Reason::BadNumber => 2,
            Reason::OutOfRange => 3,
            Reason::TooDeep => 4,
            Reason::BadName => 5,
            Reason::BytesBehind => 6,
            Reason::Clash => 7,
            Reason::TooManyProcesses => 9,
            Reason::TooLarge => 10,
            Reason::Short => 11,
        }
    }

    // The refusal for it, with what it returns.
    pub fn at(self, returned: usize) -> Refusal
        ensures { result ≡ refused_for self returned }
    {
        Refusal {
            reason: self,
            returned,
        }
    }
}

// A refused table: why, and what is returned with it, the place in the table or, where the buffer is short, the size needed.
#[derive(Clone, Copy, Debug, PartialEq, Eq)]
pub struct Refusal {
    pub reason: Reason,
    pub returned: usize,
}

impl fmt::Display for Refusal {
    fn fmt<W: fmt::Write>(&self, f: &mut fmt::Formatter<W>) -> fmt::Result {
        write!(f, "refused {} at {}", self.reason.number(), self.returned)
    }
}
