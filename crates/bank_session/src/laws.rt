// What a bank's sessions mean. Each call does nothing: its contract is the law.
ghost use Rattle.std.specs.Prelude.{◌≡◌, [], ℕ, List, map, Option, Some, Result};
ghost use Rattle.std.specs.List.{AllByRecursion};
ghost use Rattle.site_core.specs.Told.{Goes};
ghost use Rattle.link_frames.specs.Frames.{Content as Frame, IsFrame, frame_bytes};
ghost use Rattle.host_ledger.specs.declared.config.Config.{Config};
ghost use Rattle.host_ledger.specs.declared.entries.Entry.{Entry};
ghost use Rattle.bank_accord.specs.Accord.{Accords, IsHost, IsTrusted};
ghost use Rattle.line_sessions.specs.declared.ends.SessionEnd.{SessionEnd};
ghost use Rattle.line_sessions.specs.Plays.{IsMoment, all_after, all_sent};
ghost use Rattle.node_session.specs.Kinds.{Event, KeptStands, events};
ghost use Rattle.node_session.specs.Serving.{Session};
ghost use Rattle.node_session.specs.Views.{View};
ghost use Rattle.bank_session.specs.BankKind.{Kept, bank_kind, bank_part};
ghost use Rattle.bank_session.specs.BankSessions.{entries_after, frames_at};
ghost use Rattle.bank_session.specs.Promises.{AllCovered, IsSafe, IsSound, all_frames};
ghost use Rattle.bank_session.specs.Trust.{IsTrustedInput, KeepsAccord};

use bank_accord::steps_keep_accord;
use bank_node::KeptBooks;
use journaled_list::images_stand_for_one_list;
use node_session::Serving;

/// What of a bank its sessions speak of.
pub struct BankSessions;

impl Serving for BankSessions {
    ghost use Rattle.link_frames.specs.Frames.{Content as Frame};
    ghost use Rattle.bank_books.specs.declared.entries.BankEntry.{BankEntry};
    ghost use Rattle.bank_books.specs.declared.entries.BankOpening.{BankOpening};
    ghost use Rattle.bank_books.specs.declared.outcomes.BankOutcome.{BankOutcome};
    ghost use Rattle.bank_session.specs.BankKind.{Kept, bank_kind};

    ghost Opening = { BankOpening };

    ghost Entry = { BankEntry };

    ghost Outcome = { BankOutcome };

    ghost Arrival = { Frame };

    ghost Kept = { Kept };

    ghost kind = { bank_kind };
}

/// A session over frames leaves the entries of the bank's steps over them, one after another, and sends their frames.
pub fn sessions_are_the_models()
    ensures kept { (kept : Kept) (arrivals : List Frame)
        → ((all_after bank_part kept (events arrivals)).opening ≡ kept.opening)
        × ((all_after bank_part kept (events arrivals)).entries ≡ entries_after kept.opening kept.entries arrivals) }
    ensures frames { (kept : Kept) (arrivals : List Frame) → all_frames kept (events arrivals) ≡ frames_at kept.opening kept.entries arrivals }
    ensures sent { (kept : Kept) (arrivals : List Frame)
        → all_sent bank_part kept (events arrivals) ≡ map frame_bytes (frames_at kept.opening kept.entries arrivals) }
{}

/// What a stop leaves at any moment of sessions. Entries are only added, and no draft is out before it is kept. A stop in one
/// session is told in the words of the bank's steps.
pub fn each_moment_is_safe()
    ensures sessions { (kept : Kept) (taken : List (Event Frame)) (before : List (List ℕ)) (image : List ℕ) (found : List (List ℕ))
        → AllByRecursion IsSound taken → IsMoment bank_part kept taken before image found
        → IsSafe kept (all_after bank_part kept taken).entries (all_frames kept taken) before image found }
    ensures session { (kept : Kept) (arrivals : List Frame) (before : List (List ℕ)) (image : List ℕ) (found : List (List ℕ))
        → AllByRecursion IsFrame arrivals → IsMoment bank_part kept (events arrivals) before image found
        → IsSafe kept (entries_after kept.opening kept.entries arrivals) (frames_at kept.opening kept.entries arrivals) before image found }
{}

/// No frame is out that the list doesn't cover, however often sessions are stopped. At first none is out. Where each frame that
/// is out is covered by what a bank keeps when a session begins, so it is at each of its moments, by what the image stands for.
pub fn all_that_is_out_is_covered()
    ensures at_first { (kept : Kept) → AllCovered kept [] }
    ensures at_each_moment { (kept now : Kept) (arrivals : List Frame) (before : List (List ℕ)) (image : List ℕ) (found : List (List ℕ))
        → AllByRecursion IsFrame arrivals → AllCovered kept before
        → IsMoment bank_part kept (events arrivals) before image found → KeptStands bank_kind image now → AllCovered now found }
{
    images_stand_for_one_list::<KeptBooks>();
}

/// Verdicts and inbox stay right. Where a host covers each acknowledgement and output that arrives, what the image stands for
/// at each moment of a session is in accord with that host, where what was kept before was; and so it is of a session whose
/// whole input the host covers.
pub fn sessions_keep_accord()
    ensures moments { (c : Config) (es : List Entry) (kept now : Kept) (arrivals : List Frame) (before : List (List ℕ)) (image : List ℕ) (found : List (List ℕ))
        → AllByRecursion (IsTrusted c es) arrivals → IsHost c es kept.opening → Accords c es kept.opening kept.entries
        → IsMoment bank_part kept (events arrivals) before image found → KeptStands bank_kind image now
        → Accords c es now.opening now.entries }
    ensures inputs { (result : Result (Unit {0}) SessionEnd) (old new : View) (whole : List ℕ) (c : Config) (es : List Entry)
        → Session bank_kind result old new → old.left ≡ Some whole → IsTrustedInput c es whole
        → Goes old.site new.site (KeepsAccord c es) }
{
    images_stand_for_one_list::<KeptBooks>();
    steps_keep_accord();
}
