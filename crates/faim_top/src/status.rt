// How a run ends.
ghost use Rattle.std.specs.Prelude.{◌≡◌};
ghost use Rattle.faim_top.specs.ExitCodes.{code_of, status_without_words};

use faim_base::Refused;
use faim_edits::EditNo;
use link_frames::FrameFault;
use std::fmt;
use std::io::ErrorKind;
use world_text::ScriptFault;

/// Why an input was refused.
#[derive(Clone, Copy, Debug, PartialEq, Eq)]
pub enum Reason {
    /// The bytes are no message; never for want of memory.
    Text(Refused),
    /// The message fails this edit first, of table 1.
    Edit(EditNo),
    /// The text isn't a script, or no configuration, or no bank's.
    Script(ScriptFault),
    /// What comes next on a session's input is no frame, or the input ends within it.
    Frame(FrameFault),
    /// A session's input has more than 2^40 bytes.
    TooLong,
}

/// How a run ends.
#[derive(Clone, Copy, Debug, PartialEq, Eq)]
pub enum Status {
    /// The input, where the command has one, was read to its end, and what was asked for is written.
    Done,
    /// The words are no command. Nothing was read or written.
    Usage,
    /// The input was refused. A query and an init write why, and nothing else; in a session the frames before the bad one
    /// are handled.
    Refused(Reason),
    /// Memory ran out. Nothing was written.
    NoMemory,
    /// A read failed. Nothing was written; in a session the frames that came are handled.
    ReadFault,
    /// A write failed. What was to be written is written in part.
    WriteFault,
    /// A call of the disk failed. The journal stands as before its newest record, or with it.
    DiskFault,
    /// A send failed. What was recorded stands, and the frames before the one that failed were sent.
    LineFault,
    /// The place of the gate, from 0, from which on the journal isn't sound.
    Damaged { place: u64 },
    /// The journal would pass 1,073,741,824 bytes: the place after its tail gate, and the bytes that were to come after it. The
    /// frames before the one that asked for them are handled.
    JournalFull { tail: u64, need: u64 },
    /// A session found no journal, or an init a file that isn't empty.
    NoJournal,
    /// A reading of the clock failed. The frames before the one that it was asked for are handled.
    ClockFault,
}

impl Status {
    /// How a run ends whose words could not be read for this reason: `NoMemory` for want of memory. Else a word is no
    /// text and so in no command.
    pub fn without_words(reason: ErrorKind) -> Status
        ensures { result ≡ status_without_words reason }
    {
        match reason {
            ErrorKind::OutOfMemory => Status::NoMemory,
            _ => Status::Usage,
        }
    }

    /// The exit status of the program (docs/FORMATS.md, "Exit statuses").
    pub fn code(&self) -> u8
        ensures { result ≡ code_of self.now }
    {
        match self {
            Status::Done => 0,
            Status::Usage => 2,
            Status::Refused(_) => 3,
            Status::NoMemory => 4,
            Status::ReadFault => 5,
            Status::WriteFault => 6,
            Status::DiskFault => 7,
            Status::LineFault => 8,
            Status::Damaged { .. } => 9,
            Status::JournalFull { .. } => 10,
            Status::NoJournal => 11,
            Status::ClockFault => 12,
        }
    }
}

/// The line on standard error, without its end, where the status isn't `Done` (docs/FORMATS.md, "Exit statuses").
impl fmt::Display for Status {
    ghost use Rattle.std.specs.Prelude.{Some};
    ghost use Rattle.faim_top.specs.ExitCodes.{line_of};

    ghost output = { λ s. Some (line_of s) };

    fn fmt<W: fmt::Write>(&self, f: &mut fmt::Formatter<W>) -> fmt::Result {
        match self {
            Status::Done => f.write_str("faim: done"),
            Status::Usage => f.write_str("faim: usage"),
            Status::Refused(_) => f.write_str("faim: refused"),
            Status::NoMemory => f.write_str("faim: no memory"),
            Status::ReadFault => f.write_str("faim: read fault"),
            Status::WriteFault => f.write_str("faim: write fault"),
            Status::DiskFault => f.write_str("faim: disk fault"),
            Status::LineFault => f.write_str("faim: line fault"),
            Status::Damaged { place } => write!(f, "faim: damaged at {place}"),
            Status::JournalFull { tail, need } => {
                write!(f, "faim: journal full at {tail} needing {need}")
            }
            Status::NoJournal => f.write_str("faim: no journal"),
            Status::ClockFault => f.write_str("faim: clock fault"),
        }
    }
}
