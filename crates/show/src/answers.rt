// Answers as text. Numbers are hexadecimal, but for those of refusals.
use model::{
    FaultKind, OfferAnswer, OfferRefusal, Outcome, RunAnswer, RunRefusal, StartAnswer,
    StartRefusal, TakeAnswer, TakeRefusal,
};
use std::fmt;

// How a run stood. The last two are its refusals, 11 and 16.
#[derive(Clone, Copy, Debug, PartialEq, Eq)]
pub enum Standing {
    Spent,
    Ended,
    Waiting,
    Fault,
    Short,
    EarlierClock,
}

impl fmt::Display for Standing {
    fn fmt<W: fmt::Write>(&self, f: &mut fmt::Formatter<W>) -> fmt::Result {
        f.write_str(match self {
            Standing::Spent => "spent",
            Standing::Ended => "ended",
            Standing::Waiting => "waiting",
            Standing::Fault => "fault",
            Standing::Short => "short",
            Standing::EarlierClock => "earlier clock",
        })
    }
}

impl Standing {
    // How a run stood, and the instructions that it executed.
    pub fn of(answer: RunAnswer) -> (Standing, u64) {
        match answer {
            Ok(Outcome::Spent(count)) => (Standing::Spent, count),
            Ok(Outcome::Ended(count)) => (Standing::Ended, count),
            Ok(Outcome::Waiting(count)) => (Standing::Waiting, count),
            Ok(Outcome::Fault(count, _)) => (Standing::Fault, count),
            Err(RunRefusal::Short(_)) => (Standing::Short, 0),
            Err(RunRefusal::EarlierClock) => (Standing::EarlierClock, 0),
        }
    }
}

// A value as the test programs write it: its numbers are hexadecimal.
#[derive(Clone, Copy)]
pub struct Hex<T>(pub T);

impl fmt::Display for Hex<FaultKind> {
    fn fmt<W: fmt::Write>(&self, f: &mut fmt::Formatter<W>) -> fmt::Result {
        match self.0 {
            FaultKind::Function(number) => write!(f, "function {number:x}"),
            FaultKind::Operation(number) => write!(f, "operation {number:x}"),
            FaultKind::Count(number) => write!(f, "count {number:x}"),
            FaultKind::Word(number) => write!(f, "word {number:x}"),
            FaultKind::Place(number) => write!(f, "place {number:x}"),
        }
    }
}

impl fmt::Display for Hex<StartAnswer> {
    fn fmt<W: fmt::Write>(&self, f: &mut fmt::Formatter<W>) -> fmt::Result {
        match self.0 {
            Ok(()) => f.write_str("started"),
            Err(StartRefusal::BadSlice) => f.write_str("15"),
            Err(StartRefusal::BadCount) => f.write_str("3 0"),
            Err(StartRefusal::TooLarge) => f.write_str("10 0"),
            Err(StartRefusal::Short(size)) => write!(f, "11 {size:x}"),
        }
    }
}

impl fmt::Display for Hex<RunAnswer> {
    fn fmt<W: fmt::Write>(&self, f: &mut fmt::Formatter<W>) -> fmt::Result {
        match self.0 {
            Ok(Outcome::Spent(count)) => write!(f, "spent {count:x}"),
            Ok(Outcome::Ended(count)) => write!(f, "ended {count:x}"),
            Ok(Outcome::Waiting(count)) => write!(f, "waiting {count:x}"),
            Ok(Outcome::Fault(count, kind)) => write!(f, "fault {count:x} {}", Hex(kind)),
            Err(RunRefusal::EarlierClock) => f.write_str("16"),
            Err(RunRefusal::Short(size)) => write!(f, "11 {size:x}"),
        }
    }
}

impl fmt::Display for Hex<OfferAnswer> {
    fn fmt<W: fmt::Write>(&self, f: &mut fmt::Formatter<W>) -> fmt::Result {
        match self.0 {
            Ok(()) => f.write_str("offered"),
            Err(OfferRefusal::Short(size)) => write!(f, "11 {size:x}"),
            Err(OfferRefusal::Fault(kind)) => write!(f, "fault {}", Hex(kind)),
            Err(OfferRefusal::NoChannel) => f.write_str("13"),
            Err(OfferRefusal::Held) => f.write_str("14"),
        }
    }
}

impl fmt::Display for Hex<TakeAnswer> {
    fn fmt<W: fmt::Write>(&self, f: &mut fmt::Formatter<W>) -> fmt::Result {
        match self.0 {
            Ok(Some(value)) => write!(f, "taken {value:x}"),
            Ok(None) => f.write_str("none"),
            Err(TakeRefusal::Short(size)) => write!(f, "11 {size:x}"),
            Err(TakeRefusal::Fault(kind)) => write!(f, "fault {}", Hex(kind)),
            Err(TakeRefusal::NoChannel) => f.write_str("13"),
        }
    }
}
