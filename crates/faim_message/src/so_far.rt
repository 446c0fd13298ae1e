// Which breaks a message has, as far as it is read.
ghost use Rattle.std.specs.Prelude.{◌≡◌};
ghost use Rattle.faim_message.specs.Stages.{breaks_with, takes_brace, takes_feed, takes_return};

use crate::Breaks;

/// What is known of the breaks: nothing before the second tag begins, then which of the three stands between the tags.
#[derive(Clone, Copy, Debug, PartialEq, Eq)]
pub enum BreakSoFar {
    Unknown,
    Bare,
    Feed,
    ReturnFeed,
}

// The next tag may stand right after a tag.
pub(crate) fn takes_brace(so_far: BreakSoFar) -> bool
    ensures { result ≡ takes_brace so_far }
{
    matches!(so_far, BreakSoFar::Unknown | BreakSoFar::Bare)
}

// LF may stand after a tag.
pub(crate) fn takes_feed(so_far: BreakSoFar) -> bool
    ensures { result ≡ takes_feed so_far }
{
    matches!(so_far, BreakSoFar::Unknown | BreakSoFar::Feed)
}

// CR and LF may stand after a tag.
pub(crate) fn takes_return(so_far: BreakSoFar) -> bool
    ensures { result ≡ takes_return so_far }
{
    matches!(so_far, BreakSoFar::Unknown | BreakSoFar::ReturnFeed)
}

// The breaks, where the last one stands or not.
pub(crate) fn breaks_with(so_far: BreakSoFar, last: bool) -> Breaks
    ensures { result ≡ breaks_with so_far last }
{
    match so_far {
        BreakSoFar::Unknown | BreakSoFar::Bare => Breaks::Joined,
        BreakSoFar::Feed => Breaks::Lf { last },
        BreakSoFar::ReturnFeed => Breaks::CrLf { last },
    }
}
