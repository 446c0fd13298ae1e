// Why a step wasn't done whole. The text of each fault is the name of its variant.
ghost use Rattle.std.specs.Prelude.{◌≡◌};
ghost use Rattle.journaled_steps.specs.Steps.{goes_on, live_after};

use thiserror::Error;

/// Why a step of a node wasn't done whole (docs/MODEL.md, "Steps of a node").
#[derive(Clone, Copy, Debug, Drop, PartialEq, Eq, Error)]
pub enum StepFault {
    /// A call of the disk failed, and no frame was sent. The journal may have what the step adds or not: the node is out of
    /// use, and is resumed.
    #[error("SiteFault")]
    SiteFault,
    /// A send failed. What the step adds is kept for good, the frames before the one that failed were sent, that one was or
    /// it wasn't, and none after it was. The node goes on.
    #[error("LineFault")]
    LineFault,
    /// The journal would pass 1,073,741,824 bytes: its tail, and the bytes that were to come after it. No device call was
    /// made, nothing changed, and the node goes on.
    #[error("JournalFull")]
    JournalFull { tail: u64, need: u64 },
    /// Memory ran out. No device call was made, nothing changed, and the node goes on.
    #[error("NoMemory")]
    NoMemory,
}

impl StepFault {
    /// Whether the node may take its next step: after each fault but one of the disk.
    pub fn goes_on(&self) -> bool
        ensures { result ≡ goes_on self.now }
    {
        match self {
            StepFault::SiteFault => false,
            StepFault::LineFault => true,
            StepFault::JournalFull { tail: _, need: _ } => true,
            StepFault::NoMemory => true,
        }
    }
}

/// Whether a node may take its next step after this answer of one.
pub fn is_live_after<X>(answer: &Result<X, StepFault>) -> bool
    ensures { result ≡ live_after answer.now }
{
    match answer {
        Ok(_) => true,
        Err(fault) => fault.goes_on(),
    }
}
