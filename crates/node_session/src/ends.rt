// How a session ends where one of its parts does.
ghost use Rattle.std.specs.Prelude.{◌≡◌};
ghost use Rattle.node_session.specs.Ends.{open_end, input_end, step_end};

use framed_input::InputEnd;
use journaled_list::OpenFault;
use journaled_steps::StepFault;
use line_sessions::SessionEnd;

/// How a session ends whose node wasn't resumed.
pub fn open_end(fault: OpenFault) -> SessionEnd
    ensures { result ≡ open_end fault }
{
    match fault {
        OpenFault::SiteFault => SessionEnd::DiskFault,
        OpenFault::LineFault => SessionEnd::LineFault,
        OpenFault::NoHeader => SessionEnd::NoJournal,
        OpenFault::Damaged { place } => SessionEnd::Damaged { place },
        OpenFault::NoMemory => SessionEnd::NoMemory,
    }
}

/// How a session ends at which no further frame comes.
pub fn input_end(end: InputEnd) -> SessionEnd
    ensures { result ≡ input_end end }
{
    match end {
        InputEnd::ReadFault => SessionEnd::ReadFault,
        InputEnd::Frame(fault) => SessionEnd::Frame(fault),
        InputEnd::TooLong => SessionEnd::TooLong,
    }
}

/// How a session ends in which a frame wasn't handled.
pub fn step_end(fault: StepFault) -> SessionEnd
    ensures { result ≡ step_end fault }
{
    match fault {
        StepFault::SiteFault => SessionEnd::DiskFault,
        StepFault::LineFault => SessionEnd::LineFault,
        StepFault::JournalFull { tail, need } => SessionEnd::JournalFull { tail, need },
        StepFault::NoMemory => SessionEnd::NoMemory,
    }
}
