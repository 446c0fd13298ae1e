// What sessions of any node mean. The call does nothing: its contract is the law.
ghost use Rattle.std.specs.Prelude.{◌≡◌, ◌≢◌, ◌≤◌, ◌++◌, ℕ, List, length, Result, Ok, Err};
ghost use Rattle.site_core.specs.Log.{reads, sent, NothingPending};
ghost use Rattle.site_core.specs.Told.{Restarts, Told};
ghost use Rattle.journaled_list.specs.Making.{Inits};
ghost use Rattle.journaled_steps.specs.Node.{Node, found_of};
ghost use Rattle.line_sessions.specs.declared.ends.SessionEnd.{SessionEnd};
ghost use Rattle.line_sessions.specs.declared.ends.SessionEnd.TheVariants.{DiskFault, JournalFull, LineFault, NoMemory};
ghost use Rattle.line_sessions.specs.Plays.{IsMoment, Plays, all_after};
ghost use Rattle.node_session.specs.Kinds.{Event, Kind, events, part_of};
ghost use Rattle.node_session.specs.Ending.{AtRest, EndsSite, IsDone};
ghost use Rattle.node_session.specs.Serving.{Serves, ServesAll};

/// What serves a line in sessions: the openings, entries and outcomes of its list, what arrives at it, what it keeps, and its
/// kind.
pub trait Serving {
    ghost Opening: { Type 0 };

    ghost Entry: { Type 0 };

    ghost Outcome: { Type 0 };

    ghost Arrival: { Type 0 };

    ghost Kept: { Type 0 };

    ghost kind: { Kind Opening Entry Outcome Arrival Kept };
}

/// Sessions follow one another. After each end but a fault of the disk the site is at rest, with what is kept after all events
/// of the session or all but the last, so a next session may begin. Where the line had no fault either these events are done,
/// and each of their frames is out; and all events are, where memory sufficed and the journal had room. A session goes on from
/// events that are done, and both are one. The site is at rest too once a node was made, and after a restart at any stop. What
/// stands now is a moment of the session, and so is what a restart finds.
pub fn sessions_follow_one_another<S: Serving>()
    ensures rests { (result : Result (Unit {0}) SessionEnd) (kept : S.Kept) (arrivals : List S.Arrival) (old new : Told)
        → Serves S.kind result kept arrivals old new → result ≢ Err DiskFault
        → (done : List (Event S.Arrival)) × (later : List (Event S.Arrival)) × (events arrivals ≡ done ++ later) × (length later ≤ 1)
        × AtRest S.kind (all_after (part_of S.kind) kept done) new }
    ensures done { (result : Result (Unit {0}) SessionEnd) (kept : S.Kept) (arrivals : List S.Arrival) (old new : Told)
        → Serves S.kind result kept arrivals old new → result ≢ Err DiskFault → result ≢ Err LineFault
        → (done : List (Event S.Arrival)) × (later : List (Event S.Arrival)) × (events arrivals ≡ done ++ later) × (length later ≤ 1)
        × IsDone S.kind kept done old new }
    ensures all_done { (result : Result (Unit {0}) SessionEnd) (kept : S.Kept) (arrivals : List S.Arrival) (old new : Told)
        → Serves S.kind result kept arrivals old new → result ≢ Err DiskFault → result ≢ Err LineFault → result ≢ Err NoMemory
        → ((tail need : ℕ) → result ≢ Err (JournalFull tail need)) → IsDone S.kind kept (events arrivals) old new }
    ensures next { (kept : S.Kept) (done : List (Event S.Arrival)) (end : Result (Unit {0}) SessionEnd) (later : List S.Arrival) (a b c : Told)
        → IsDone S.kind kept done a b → ServesAll S.kind end later b c
        → Plays (part_of S.kind) kept (done ++ events later) a c × EndsSite S.kind end (all_after (part_of S.kind) kept done) later b c }
    ensures both { (kept : S.Kept) (first later : List (Event S.Arrival)) (a b c : Told)
        → IsDone S.kind kept first a b → IsDone S.kind (all_after (part_of S.kind) kept first) later b c → IsDone S.kind kept (first ++ later) a c }
    ensures made { (opening : List ℕ) (kept : S.Kept) (node : Node S.Opening S.Entry) (old new : Told)
        → Inits (Kind.rules S.kind) found_of opening (Ok node) old new → node.list ≡ Kind.list_of S.kind kept → node.last ≡ Kind.recent_of S.kind kept
        → AtRest S.kind kept new × (sent new.log ≡ sent old.log) }
    ensures present { (kept : S.Kept) (taken : List (Event S.Arrival)) (a b : Told)
        → Plays (part_of S.kind) kept taken a b → IsMoment (part_of S.kind) kept taken (sent a.log) (reads b.log) (sent b.log) }
    ensures stopped { (kept : S.Kept) (taken : List (Event S.Arrival)) (a b c : Told)
        → Plays (part_of S.kind) kept taken a b → Restarts b c
        → IsMoment (part_of S.kind) kept taken (sent a.log) (reads c.log) (sent c.log) × NothingPending c.log }
    ensures restarted { (kept : S.Kept) (taken : List (Event S.Arrival)) (a b c : Told)
        → Plays (part_of S.kind) kept taken a b → Restarts b c
        → (done : List (Event S.Arrival)) × (later : List (Event S.Arrival)) × (taken ≡ done ++ later) × AtRest S.kind (all_after (part_of S.kind) kept done) c }
{}
