// How the program ended.
use cli_answers::{Ended, Verdict};
use net_serve::ServeStop;
use run_lines::Stop;
use std::fmt;

/// How the program ended.
#[derive(Clone, Copy, Debug, PartialEq, Eq)]
pub enum Status {
    /// The whole report was written.
    Done,
    /// The words fit no form. The number is the index (from 0) of the first word that fits none, or the number of words if one is missing.
    Usage(usize),
    /// The first line that is refused, counted from 1.
    BadLine(u32),
    /// The source failed.
    ReadFault,
    /// The sink failed.
    WriteFault,
    /// At this line a frame that nobody sent had the valid tag for the lane's next bytes. The run ended there.
    ForgedMatch(u32),
    /// Memory ran out.
    Memory,
    /// A port or a listener failed.
    ListenFault,
    /// The audit of a whole report found a rule that it breaks.
    BrokenRule,
}

impl Status {
    ghost use Rattle.std.specs.Prelude.{◌≡◌};
    ghost use Rattle.qkd_network.specs.Codes.{code_of, status_of, served_as, answered_as};

    /// The exit status of the program.
    pub fn code(self) -> u8
        ensures { result ≡ code_of self }
    {
        match self {
            Status::Done => 0,
            Status::Usage(_) => 1,
            Status::BadLine(_) => 2,
            Status::ReadFault => 3,
            Status::WriteFault => 3,
            Status::ForgedMatch(_) => 4,
            Status::Memory => 5,
            Status::ListenFault => 6,
            Status::BrokenRule => 7,
        }
    }

    // The status of a run.
    pub(crate) fn of_run(ended: Result<(), Stop>) -> Self
        ensures { result ≡ status_of ended }
    {
        match ended {
            Ok(()) => Status::Done,
            Err(Stop::WriteFault) => Status::WriteFault,
            Err(Stop::Forged(line)) => Status::ForgedMatch(line),
            Err(Stop::Memory) => Status::Memory,
        }
    }

    // The status of a run whose managers are then served.
    pub(crate) fn of_serve(ended: Result<(), ServeStop>) -> Self
        ensures { result ≡ served_as ended }
    {
        match ended {
            Ok(()) => Status::Done,
            Err(ServeStop::Stopped(stop)) => Status::of_run(Err(stop)),
            Err(ServeStop::Listen) => Status::ListenFault,
        }
    }

    // The status of an answer.
    pub(crate) fn of_answer(ended: Ended) -> Self
        ensures { result ≡ answered_as ended }
    {
        match ended {
            Ended::Answered(Verdict::Yes) => Status::Done,
            Ended::Answered(Verdict::BrokenRule) => Status::BrokenRule,
            Ended::Answered(Verdict::BadLine(line)) => Status::BadLine(line),
            Ended::BadLine(line) => Status::BadLine(line),
            Ended::ReadFault => Status::ReadFault,
            Ended::WriteFault => Status::WriteFault,
            Ended::Memory => Status::Memory,
        }
    }
}

impl fmt::Display for Status {
    ghost use Rattle.std.specs.Prelude.{Some};
    ghost use Rattle.qkd_network.specs.Codes.{said_of};

    ghost output = { λ s. Some (said_of s) };

    fn fmt<W: fmt::Write>(&self, f: &mut fmt::Formatter<W>) -> fmt::Result {
        match *self {
            Status::Done => write!(f, ""),
            Status::Usage(place) => write!(f, "usage: word {place}"),
            Status::BadLine(number) => write!(f, "line {number}"),
            Status::ReadFault => write!(f, "read fault"),
            Status::WriteFault => write!(f, "write fault"),
            Status::ForgedMatch(number) => write!(f, "forged frame at line {number}"),
            Status::Memory => write!(f, "out of memory"),
            Status::ListenFault => write!(f, "listen fault"),
            Status::BrokenRule => write!(f, "broken rule"),
        }
    }
}
