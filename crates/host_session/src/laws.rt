// What a host's sessions mean. Each call does nothing: its contract is the law.
ghost use Rattle.std.specs.Prelude.{◌≡◌, ◌∷◌, ◌++◌, [], ℕ, List, map};
ghost use Rattle.std.specs.List.{AllByRecursion, Contains};
ghost use Rattle.site_core.specs.Log.{sent};
ghost use Rattle.site_core.specs.Told.{Told};
ghost use Rattle.link_frames.specs.Frames.{Content as Frame, IsFrame, frame_bytes};
ghost use Rattle.host_ledger.specs.declared.config.Config.{Config};
ghost use Rattle.host_ledger.specs.declared.entries.Entry.{Entry};
ghost use Rattle.faim_model.specs.Sending.{frames_of};
ghost use Rattle.faim_model.specs.Sessions.{Arrival, IsArrival, entries_after, recent_after, session_frames};
ghost use Rattle.line_sessions.specs.Plays.{IsMoment, PlaysOut, all_after, all_sent};
ghost use Rattle.bank_books.specs.declared.entries.BankOpening.{BankOpening};
ghost use Rattle.bank_accord.specs.Accord.{IsHost, IsTrusted};
ghost use Rattle.node_session.specs.Kinds.{Event, KeptStands, events};
ghost use Rattle.host_session.specs.HostKind.{Kept, host_kind, host_part};
ghost use Rattle.host_session.specs.Promises.{AllCovered, IsGrownFrom, IsOut, IsSafe, IsSound, NoneMissed, all_frames, first_sent};

use host_node::HostList;
use journaled_list::images_stand_for_one_list;
use node_session::Serving;

/// What of a host its sessions speak of.
pub struct HostSessions;

impl Serving for HostSessions {
    ghost use Rattle.host_ledger.specs.declared.config.Config.{Config};
    ghost use Rattle.host_ledger.specs.declared.entries.Entry.{Entry};
    ghost use Rattle.faim_model.specs.declared.decisions.HostOutcome.{HostOutcome};
    ghost use Rattle.faim_model.specs.Sessions.{Arrival};
    ghost use Rattle.host_session.specs.HostKind.{Kept, host_kind};

    ghost Opening = { Config };

    ghost Entry = { Entry };

    ghost Outcome = { HostOutcome };

    ghost Arrival = { Arrival };

    ghost Kept = { Kept };

    ghost kind = { host_kind };
}

/// A session over arrivals leaves the entries of the model's session, and sends its frames.
pub fn sessions_are_the_models()
    ensures kept { (kept : Kept) (arrivals : List Arrival)
        → all_after host_part kept (events arrivals)
        ≡ record {
          config = kept.config;
          entries = entries_after kept.config kept.entries arrivals;
          recent = recent_after kept.config kept.entries kept.recent arrivals;
        } }
    ensures frames { (kept : Kept) (arrivals : List Arrival)
        → all_frames kept (events arrivals) ≡ session_frames kept.config kept.entries kept.recent arrivals }
    ensures sent { (kept : Kept) (arrivals : List Arrival)
        → all_sent host_part kept (events arrivals) ≡ map frame_bytes (session_frames kept.config kept.entries kept.recent arrivals) }
{}

/// What a stop leaves at any moment of sessions, where what came are frames at moments of the calendar. Entries are only added;
/// no frame is out before the entry that it rests on is kept; and each frame of an added entry is out, or a resume sends it
/// again. A stop in one session is told in the model's words.
pub fn each_moment_is_safe()
    ensures sessions { (kept : Kept) (taken : List (Event Arrival)) (before : List (List ℕ)) (image : List ℕ) (found : List (List ℕ))
        → AllByRecursion IsSound taken → IsMoment host_part kept taken before image found
        → IsSafe kept (all_after host_part kept taken).entries (all_frames kept taken) before image found }
    ensures session { (kept : Kept) (arrivals : List Arrival) (before : List (List ℕ)) (image : List ℕ) (found : List (List ℕ))
        → AllByRecursion IsArrival arrivals → IsMoment host_part kept (events arrivals) before image found
        → IsSafe kept (entries_after kept.config kept.entries arrivals) (session_frames kept.config kept.entries kept.recent arrivals) before image found }
{
    images_stand_for_one_list::<HostList>();
}

/// Nothing is missed, however often sessions are stopped. At first nothing is owed. Where some frames are out or owed when a
/// session begins, so they are at each of its moments, and with them each frame of each entry that it has added; and once all
/// its events are done all of them are out.
pub fn nothing_is_missed()
    ensures at_first { (kept : Kept) (out : List (List ℕ)) → NoneMissed [] kept out }
    ensures each_entry { (c : Config) (es newer later : List Entry) (x : Entry) (f : Frame)
        → Contains (frames_of c (newer ++ es) x 32) f → Contains (first_sent c es (later ++ x ∷ newer)) f }
    ensures at_each_moment { (kept now : Kept) (arrivals : List Arrival) (frames : List Frame) (before : List (List ℕ)) (image : List ℕ) (found : List (List ℕ))
        → AllByRecursion IsArrival arrivals → NoneMissed frames kept before
        → IsMoment host_part kept (events arrivals) before image found → KeptStands host_kind image now
        → (grown : IsGrownFrom kept.entries now.entries)
        × NoneMissed (frames ++ first_sent kept.config kept.entries grown.newer) now found }
    ensures in_the_end { (kept : Kept) (arrivals : List Arrival) (frames : List Frame) (old new : Told)
        → NoneMissed frames kept (sent old.log) → PlaysOut host_part kept (events arrivals) old new
        → (grown : IsGrownFrom kept.entries (all_after host_part kept (events arrivals)).entries)
        × ((f : Frame) → Contains (frames ++ first_sent kept.config kept.entries grown.newer) f → IsOut f (sent new.log)) }
{
    images_stand_for_one_list::<HostList>();
}

/// No frame is out that the list doesn't cover, however often sessions are stopped. At first none is out. Where each frame that
/// is out is covered by what a host keeps when a session begins, so it is at each of its moments, by what the image stands for.
pub fn all_that_is_out_is_covered()
    ensures at_first { (kept : Kept) → AllCovered kept [] }
    ensures at_each_moment { (kept now : Kept) (arrivals : List Arrival) (before : List (List ℕ)) (image : List ℕ) (found : List (List ℕ))
        → AllByRecursion IsArrival arrivals → AllCovered kept before
        → IsMoment host_part kept (events arrivals) before image found → KeptStands host_kind image now → AllCovered now found }
{
    images_stand_for_one_list::<HostList>();
}

/// Banks may trust what a host puts out: what its image stands for is a host for each bank that opened on its date, and each
/// frame that is out is one that a bank may take from it, where all that is out is covered.
pub fn all_that_is_out_may_be_trusted()
    ensures host { (kept : Kept) (image : List ℕ) (o : BankOpening)
        → KeptStands host_kind image kept → kept.config.date ≡ o.date → IsHost kept.config kept.entries o }
    ensures trusted { (kept : Kept) (image : List ℕ) (out : List (List ℕ)) (f : Frame)
        → KeptStands host_kind image kept → AllCovered kept out → IsFrame f → Contains out (frame_bytes f)
        → IsTrusted kept.config kept.entries f }
{
    images_stand_for_one_list::<HostList>();
}
