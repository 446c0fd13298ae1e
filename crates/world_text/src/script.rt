// Scripts (docs/FORMATS.md, "Scripts").
use faim_base::{Bytes, Endpoint, Items, Moment, NoMemory, OutPos};
use host_ledger::Config;

/// What happens at an event.
#[derive(Debug, Drop)]
pub enum Act {
    /// The clock reads this moment, from here on. It brings about nothing, and no line of the report tells of it.
    Clock(Moment),
    /// A text, of at most 8,192 bytes, is submitted on the line of an endpoint.
    Submit { line: Endpoint, text: Bytes },
    /// An endpoint asks for its outputs from a position on.
    Retrieve { line: Endpoint, at: OutPos },
}

/// One event of a script.
#[derive(Debug, Drop)]
pub struct Event {
    pub act: Act,
}

/// A list of events. Those that aren't `Clock` are numbered from 1.
pub type Events = Items<Event>;

/// A configuration, and what happens to a host that has it.
#[derive(Debug, Drop)]
pub struct Script {
    pub config: Config,
    pub events: Events,
}

/// Why a line isn't one of a script, or of a configuration's or a bank's text. The reasons are tried in this order; `Size` comes before all of
/// them.
#[derive(Clone, Copy, Debug, PartialEq, Eq)]
pub enum Why {
    /// The first word isn't one that may stand at this place, or the count of words is wrong.
    Shape,
    /// A word isn't a value of its kind.
    Value,
    /// An account with this number stands on an earlier line.
    Twice,
    /// The endpoint may not stand here.
    Place,
    /// There are too many accounts or endpoints.
    Limit,
    /// The text ends before the lines that must stand; the line is one more than it has.
    Ended,
    /// The text has more than 67,108,864 bytes; the line is 0.
    Size,
}

/// The first line, counted from 1, that isn't one of a script, or of a configuration's or a bank's text, and why.
#[derive(Clone, Copy, Debug, PartialEq, Eq)]
pub struct ScriptFault {
    pub line: u64,
    pub why: Why,
}

/// Why a text was not read: where it is no script, no configuration or no bank's text, or for want of memory.
#[derive(Clone, Copy, Debug, PartialEq, Eq)]
pub enum ScriptRefused {
    Fault(ScriptFault),
    NoMemory,
}

// Why one line was not read.
#[derive(Clone, Copy, Debug, PartialEq, Eq)]
pub(crate) enum LineRefused {
    Fault(Why),
    NoMemory,
}

impl From<Why> for LineRefused {
    ghost use Rattle.std.specs.Prelude.{◌≡◌};
    ghost use Rattle.world_text.specs.declared.script.LineRefused.TheVariants.{Fault};

    ghost from_gives = { λ why e. e ≡ Fault why };

    fn from(why: Why) -> LineRefused {
        LineRefused::Fault(why)
    }
}

impl From<NoMemory> for LineRefused {
    ghost use Rattle.std.specs.Prelude.{◌≡◌};
    ghost use Rattle.world_text.specs.declared.script.LineRefused.TheVariants as refusals;

    ghost from_gives = { λ _ e. e ≡ refusals.NoMemory };

    fn from(_: NoMemory) -> LineRefused {
        LineRefused::NoMemory
    }
}

impl From<NoMemory> for ScriptRefused {
    ghost use Rattle.std.specs.Prelude.{◌≡◌};
    ghost use Rattle.world_text.specs.declared.script.ScriptRefused.TheVariants as refusals;

    ghost from_gives = { λ _ e. e ≡ refusals.NoMemory };

    fn from(_: NoMemory) -> ScriptRefused {
        ScriptRefused::NoMemory
    }
}

impl LineRefused {
    ghost use Rattle.std.specs.Prelude.{◌≡◌};
    ghost use Rattle.world_text.specs.Reading.{refused_at};

    // The refusal of a line at its number.
    pub(crate) fn at(self, line: u64) -> ScriptRefused
        ensures { result ≡ refused_at line self }
    {
        match self {
            LineRefused::Fault(why) => ScriptRefused::Fault(ScriptFault { line, why }),
            LineRefused::NoMemory => ScriptRefused::NoMemory,
        }
    }
}
