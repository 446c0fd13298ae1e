// Laws of a host's step over a frame, of what a restart sends again, of how a step lands, and of sessions. Each call does
// nothing: its contract is the law.
ghost use Rattle.std.specs.Prelude.{◌≡◌, ◌⊎◌, ◌+◌, ◌<◌, ◌≤◌, ◌↔◌, ◌++◌, ◌∷◌, [], ℕ, Bool, true, false, List, map, filter, length, slice_index, is_some, Option, Some, None, if◌then◌else◌};
ghost use Rattle.std.specs.List.{AllByRecursion, Contains};
ghost use Rattle.faim_base.specs.declared.ids.Imad.{Imad};
ghost use Rattle.faim_base.specs.declared.ids.OutPos.{OutPos};
ghost use Rattle.faim_base.specs.declared.judgement.Head.{Head};
ghost use Rattle.faim_base.specs.declared.judgement.Reject.{Reject};
ghost use Rattle.faim_base.specs.declared.judgement.Verdict.{Verdict};
ghost use Rattle.faim_base.specs.declared.judgement.Verdict.TheVariants.{Refused, Taken};
ghost use Rattle.faim_base.specs.Numbers.{IsMoment};
ghost use Rattle.host_ledger.specs.declared.config.Config.{Config};
ghost use Rattle.host_ledger.specs.declared.entries.Entry.{Entry};
ghost use Rattle.host_ledger.specs.declared.entries.Entry.TheVariants.{Posted, Roll};
ghost use Rattle.host_ledger.specs.Accounts.{endpoints_of, has_endpoint};
ghost use Rattle.host_ledger.specs.Sums.{cycle, is_taken};
ghost use Rattle.link_frames.specs.declared.frame.FrameKind.{FrameKind};
ghost use Rattle.link_frames.specs.Frames.{Content as Frame, IsFrame};
ghost use Rattle.faim_model.specs.declared.decisions.HostOutcome.TheVariants.{Known, NotLater, Recorded, Retrieved, Rolled, Strange, TurnedAway};
ghost use Rattle.faim_model.specs.Outputs.{Item, item_of, outputs, retrieved, sent_in_cycle};
ghost use Rattle.faim_model.specs.Submissions.{Numbered, submission};
ghost use Rattle.faim_model.specs.Lawful.{Follows, Lawful, last_moment, moment_of};
ghost use Rattle.faim_model.specs.Turns.{adds_to, effective, submitted};
ghost use Rattle.faim_model.specs.Acks.{verdict_ack};
ghost use Rattle.faim_model.specs.Frames.{Covered, ack_of, framed, has_identifier, output, turned};
ghost use Rattle.faim_model.specs.Sending.{frames_of, is_first_output, resume_frames, unmarked};
ghost use Rattle.faim_model.specs.Requests.{IsRequest, IsRetrieve, IsRoll};
ghost use Rattle.faim_model.specs.Steps.{HostStep, host_step, identifier};
ghost use Rattle.faim_model.specs.Landing.{InOrder, landed};
ghost use Rattle.faim_model.specs.Sessions.{Arrival, IsArrival, entries_after, frames_at, recent_after, session_frames};

/// What a step adds may follow the list and is of the effective moment, so a lawful list stays lawful. Where the clock reads a
/// moment of the calendar, the newest entry stays of one.
pub fn steps_stay_lawful()
    ensures follows { (c : Config) (es : List Entry) (f : Frame) (reading : ℕ) (x : Entry)
        → (host_step c es f reading).adds ≡ Some x → Follows c es x }
    ensures moment { (c : Config) (es : List Entry) (f : Frame) (reading : ℕ) (x : Entry)
        → (host_step c es f reading).adds ≡ Some x → moment_of x ≡ effective es reading }
    ensures lawful { (c : Config) (es : List Entry) (f : Frame) (reading : ℕ)
        → Lawful c es → Lawful c (adds_to (host_step c es f reading).adds es) }
    ensures in_calendar { (c : Config) (es : List Entry) (f : Frame) (reading : ℕ)
        → IsMoment reading → IsMoment (last_moment es) → IsMoment (last_moment (adds_to (host_step c es f reading).adds es)) }
{}

/// The list with what a step adds covers each frame that the step sends, and a list covers each frame that a restart sends
/// again.
pub fn sent_frames_are_covered()
    ensures step { (c : Config) (es : List Entry) (f : Frame) (reading : ℕ) (g : Frame)
        → IsFrame f → IsMoment reading → IsMoment (last_moment es) → Contains (host_step c es f reading).sends g
        → Covered c (adds_to (host_step c es f reading).adds es) g }
    ensures resume { (c : Config) (es : List Entry) (r : ℕ) (g : Frame)
        → Contains (resume_frames c es r) g → Covered c es g }
{}

/// An acknowledgement goes to the endpoint that the step's frame came from. So does an output that a retrieval asked for;
/// each other output goes to an endpoint of the configuration.
pub fn frames_go_where_they_belong()
    ensures ack { (c : Config) (es : List Entry) (f : Frame) (reading : ℕ) (g : Frame)
        → Contains (host_step c es f reading).sends g → g.kind ≡ FrameKind.Ack → g.endpoint ≡ f.endpoint }
    ensures output { (c : Config) (es : List Entry) (f : Frame) (reading : ℕ) (g : Frame)
        → Contains (host_step c es f reading).sends g → g.kind ≡ FrameKind.Output
        → ((f.kind ≡ FrameKind.Retrieve) × (g.endpoint ≡ f.endpoint)) ⊎ (has_endpoint c.accounts g.endpoint ≡ true) }
{}

/// The frames of an entry: of an accepted message its acknowledgement and its output; of a refused one its acknowledgement;
/// of a Roll the end of the cycle to each endpoint, in the configuration's order, under the date that ends with the next
/// number of that date.
pub fn entries_have_their_frames()
    ensures taken { (c : Config) (older : List Entry) (h : Head) (body : List ℕ) (resent : Bool) (moment : ℕ)
        (dest : List ℕ) (seq mark : ℕ)
        → Follows c older (Posted h body resent moment (Taken dest seq))
        → frames_of c older (Posted h body resent moment (Taken dest seq)) mark
        ≡ framed FrameKind.Ack h.imad.source (verdict_ack c.env h moment (Taken dest seq) mark)
        ∷ output c dest (record {
          at = record { date = h.imad.date; seq = seq };
          place = length older;
          entry = Posted h body resent moment (Taken dest seq);
        }) mark ∷ [] }
    ensures refused { (c : Config) (older : List Entry) (h : Head) (body : List ℕ) (resent : Bool) (moment : ℕ)
        (why : Reject) (mark : ℕ)
        → frames_of c older (Posted h body resent moment (Refused why)) mark
        ≡ framed FrameKind.Ack h.imad.source (verdict_ack c.env h moment (Refused why) mark) ∷ [] }
    ensures roll { (c : Config) (older : List Entry) (moment date mark : ℕ)
        → frames_of c older (Roll moment date) mark
        ≡ map (λ e. output c e (record {
          at = record { date = cycle c older; seq = sent_in_cycle c older e + 1 };
          place = length older;
          entry = Roll moment date;
        }) mark) (endpoints_of c.accounts) }
{}

/// The frames of an entry have the mark that they are sent with, as byte 9, and with another mark they are the same frames
/// but for that byte: as many, and each of the same kind, to the same endpoint, with the same other bytes. Frames that are
/// the same but for their marks are one where the marks are one.
pub fn frames_differ_in_their_marks()
    ensures mark { (c : Config) (older : List Entry) (x : Entry) (mark : ℕ) (f : Frame)
        → Contains (frames_of c older x mark) f → slice_index f.payload 9 ≡ mark }
    ensures alike { (c : Config) (older : List Entry) (x : Entry) (mark other : ℕ)
        → map unmarked (frames_of c older x mark) ≡ map unmarked (frames_of c older x other) }
    ensures one { (f g : Frame)
        → unmarked f ≡ unmarked g → slice_index f.payload 9 ≡ slice_index g.payload 9 → f ≡ g }
{}

/// A step that adds an entry sends the entry's frames, with a blank as their mark. A restart after an arrival that added an
/// entry sends again what was sent at it, marked P, and nothing else; after one that added nothing it sends what it would have
/// sent before. Where each arrival added an entry, so many entries have the frames that were sent at these arrivals, in that
/// order.
pub fn restarts_send_again()
    ensures first { (c : Config) (es : List Entry) (f : Frame) (reading : ℕ) (x : Entry)
        → (host_step c es f reading).adds ≡ Some x → (host_step c es f reading).sends ≡ frames_of c es x 32 }
    ensures again { (c : Config) (es : List Entry) (x : Entry) → resume_frames c (x ∷ es) 1 ≡ frames_of c es x 80 }
    ensures added { (c : Config) (es : List Entry) (r : ℕ) (earlier : List Arrival) (a : Arrival) (x : Entry)
        → (host_step c (entries_after c es earlier) a.frame a.reading).adds ≡ Some x
        → map unmarked (resume_frames c (entries_after c es (earlier ++ a ∷ [])) (recent_after c es r (earlier ++ a ∷ [])))
        ≡ map unmarked (host_step c (entries_after c es earlier) a.frame a.reading).sends }
    ensures kept { (c : Config) (es : List Entry) (r : ℕ) (earlier : List Arrival) (a : Arrival)
        → (host_step c (entries_after c es earlier) a.frame a.reading).adds ≡ None
        → resume_frames c (entries_after c es (earlier ++ a ∷ [])) (recent_after c es r (earlier ++ a ∷ []))
        ≡ resume_frames c (entries_after c es earlier) (recent_after c es r earlier) }
    ensures in_order { (c : Config) (es : List Entry) (arrivals : List Arrival)
        → length (entries_after c es arrivals) ≡ length es + length arrivals
        → map unmarked (resume_frames c (entries_after c es arrivals) (length arrivals)) ≡ map unmarked (frames_at c es arrivals) }
    ensures mark { (c : Config) (es : List Entry) (r : ℕ) (g : Frame)
        → Contains (resume_frames c es r) g → slice_index g.payload 9 ≡ 80 }
{}

/// What a step adds and sends, by its outcome. A new verdict: the entry, and one frame where it is a refusal, two where the
/// message was taken. A verdict that is known: the acknowledgement of the entry that has the text's identifier and body,
/// marked P. A submission that is turned away: that, with its identifier exactly with H102 and X201. A retrieval: so many
/// outputs, at most 64. A new cycle: its Roll, and a frame to each endpoint. Otherwise nothing.
pub fn steps_tell_their_outcomes()
    ensures recorded { (c : Config) (es : List Entry) (f : Frame) (reading : ℕ) (imad : Imad) (v : Verdict)
        → (host_step c es f reading).outcome ≡ Recorded imad v
        → ((h : Head) × (body : List ℕ) × (resent : Bool) × (h.imad ≡ imad)
        × ((host_step c es f reading).adds ≡ Some (Posted h body resent (effective es reading) v)))
        × (length (host_step c es f reading).sends ≡ (if is_taken v then 2 else 1)) }
    ensures known { (c : Config) (es : List Entry) (f : Frame) (reading : ℕ) (imad : Imad) (v : Verdict)
        → (host_step c es f reading).outcome ≡ Known imad v
        → (h : Head) × (body : List ℕ) × (resent : Bool) × (moment : ℕ) × (own : Head) × (mark : ℕ) × (failed : Option Reject)
        × (submission c.env f.payload ≡ Numbered own body mark failed) × (own.imad ≡ imad) × (h.imad ≡ imad)
        × Contains es (Posted h body resent moment v)
        × (host_step c es f reading ≡ record {
          adds = None;
          sends = framed FrameKind.Ack f.endpoint (verdict_ack c.env h moment v 80) ∷ [];
          outcome = Known imad v;
        }) }
    ensures turned { (c : Config) (es : List Entry) (f : Frame) (reading : ℕ) (why : Reject)
        → (host_step c es f reading).outcome ≡ TurnedAway why
        → (is_some (identifier (submission c.env f.payload)) ≡ has_identifier why)
        × (host_step c es f reading ≡ record {
          adds = None;
          sends = turned c why (identifier (submission c.env f.payload)) (effective es reading) f.endpoint ∷ [];
          outcome = TurnedAway why;
        }) }
    ensures retrieved { (c : Config) (es : List Entry) (f : Frame) (reading : ℕ) (n : ℕ)
        → (host_step c es f reading).outcome ≡ Retrieved n
        → (((host_step c es f reading).adds ≡ None) × (length (host_step c es f reading).sends ≡ n)) × (n ≤ 64) }
    ensures rolled { (c : Config) (es : List Entry) (f : Frame) (reading : ℕ) (date : ℕ)
        → (host_step c es f reading).outcome ≡ Rolled date
        → ((host_step c es f reading).adds ≡ Some (Roll (effective es reading) date))
        × (length (host_step c es f reading).sends ≡ length (endpoints_of c.accounts)) }
    ensures not_later { (c : Config) (es : List Entry) (f : Frame) (reading : ℕ) (current : ℕ)
        → (host_step c es f reading).outcome ≡ NotLater current
        → host_step c es f reading ≡ record { adds = None; sends = []; outcome = NotLater current } }
    ensures strange { (c : Config) (es : List Entry) (f : Frame) (reading : ℕ)
        → (host_step c es f reading).outcome ≡ Strange
        → host_step c es f reading ≡ record { adds = None; sends = []; outcome = Strange } }
{}

/// What a frame asks settles the step. It is Strange exactly where the frame is no request: a submission of any bytes, a
/// retrieval from a position, or the operator's Roll to a date. The cycle goes on exactly where that date is later than the
/// present one. A submission is the host's turn at its text. A retrieval gives the outputs of its endpoint, marked R.
pub fn requests_settle_steps()
    ensures strange { (c : Config) (es : List Entry) (f : Frame) (reading : ℕ)
        → ((host_step c es f reading).outcome ≡ Strange) ↔ (IsRequest f → ⊥) }
    ensures rolled { (c : Config) (es : List Entry) (f : Frame) (reading : ℕ) (date : ℕ)
        → ((host_step c es f reading).outcome ≡ Rolled date) ↔ (IsRoll f date × (cycle c es < date)) }
    ensures not_later { (c : Config) (es : List Entry) (f : Frame) (reading : ℕ) (current : ℕ)
        → ((host_step c es f reading).outcome ≡ NotLater current)
        ↔ ((date : ℕ) × IsRoll f date × (date ≤ cycle c es) × (current ≡ cycle c es)) }
    ensures submitted { (c : Config) (es : List Entry) (f : Frame) (reading : ℕ)
        → f.kind ≡ FrameKind.Submit
        → ((host_step c es f reading).adds ≡ (submitted c es f.endpoint reading f.payload).adds)
        × ((host_step c es f reading).outcome ≡ (submitted c es f.endpoint reading f.payload).outcome) }
    ensures retrieved { (c : Config) (es : List Entry) (f : Frame) (reading : ℕ) (p : OutPos)
        → IsRetrieve f p
        → host_step c es f reading ≡ record {
          adds = None;
          sends = map (λ i. output c f.endpoint i 82) (retrieved c es f.endpoint p);
          outcome = Retrieved (length (retrieved c es f.endpoint p));
        } }
{}

/// A step that lands in order leaves a lawful list that covers each frame that was sent. One that goes through lands in
/// order, and all that it says stands; one whose entry is lost leaves what stood before. While the entry is kept any number
/// of the step's frames may be out, from the first on.
pub fn steps_land_soundly()
    ensures lawful { (c : Config) (es : List Entry) (before : List Frame) (f : Frame) (reading : ℕ) (kept : Bool) (n : ℕ)
        → Lawful c es → Lawful c (landed es before (host_step c es f reading) kept n).entries }
    ensures covered { (c : Config) (es : List Entry) (before : List Frame) (f : Frame) (reading : ℕ) (kept : Bool) (n : ℕ)
        (g : Frame)
        → IsFrame f → IsMoment reading → IsMoment (last_moment es) → InOrder (host_step c es f reading) kept n
        → ((h : Frame) → Contains before h → Covered c es h)
        → Contains (landed es before (host_step c es f reading) kept n).frames g
        → Covered c (landed es before (host_step c es f reading) kept n).entries g }
    ensures whole { (es : List Entry) (before : List Frame) (s : HostStep)
        → InOrder s true (length s.sends)
        × (landed es before s true (length s.sends) ≡ record { entries = adds_to s.adds es; frames = before ++ s.sends }) }
    ensures lost { (es : List Entry) (before : List Frame) (s : HostStep) (n : ℕ) (x : Entry)
        → s.adds ≡ Some x → InOrder s false n → landed es before s false n ≡ record { entries = es; frames = before } }
    ensures front { (es : List Entry) (before : List Frame) (s : HostStep) (kept : Bool) (n : ℕ)
        → InOrder s kept n
        → (rest : List Frame) × ((landed es before s kept n).frames ++ rest ≡ before ++ s.sends)
        × (length (landed es before s kept n).frames ≡ length before + n) }
    ensures may { (s : HostStep) (kept : Bool) (n : ℕ)
        → InOrder s kept n ↔ ((n ≤ length s.sends) × ((kept ≡ true) ⊎ ((s.adds ≡ None) ⊎ (n ≡ 0)))) }
{}

/// A session over arrivals and then over others is one session over both.
pub fn sessions_join()
    ensures entries { (c : Config) (es : List Entry) (first later : List Arrival)
        → entries_after c es (first ++ later) ≡ entries_after c (entries_after c es first) later }
    ensures frames { (c : Config) (es : List Entry) (r : ℕ) (first later : List Arrival)
        → session_frames c es r (first ++ later)
        ≡ session_frames c es r first ++ frames_at c (entries_after c es first) later }
    ensures recent { (c : Config) (es : List Entry) (r : ℕ) (first later : List Arrival)
        → recent_after c es r (first ++ later) ≡ recent_after c (entries_after c es first) (recent_after c es r first) later }
{}

/// The list after a session is that of its opening with newer entries in front. It is lawful where that was, its last
/// record lies in it, and it covers each frame of the session.
pub fn sessions_stay_sound()
    ensures opening { (c : Config) (es : List Entry) (arrivals : List Arrival)
        → (newer : List Entry) × (entries_after c es arrivals ≡ newer ++ es) }
    ensures lawful { (c : Config) (es : List Entry) (arrivals : List Arrival)
        → Lawful c es → Lawful c (entries_after c es arrivals) }
    ensures in_calendar { (c : Config) (es : List Entry) (arrivals : List Arrival)
        → AllByRecursion IsArrival arrivals → IsMoment (last_moment es) → IsMoment (last_moment (entries_after c es arrivals)) }
    ensures recent { (c : Config) (es : List Entry) (r : ℕ) (arrivals : List Arrival)
        → r ≤ length es → recent_after c es r arrivals ≤ length (entries_after c es arrivals) }
    ensures covered { (c : Config) (es : List Entry) (r : ℕ) (arrivals : List Arrival) (g : Frame)
        → AllByRecursion IsArrival arrivals → IsMoment (last_moment es) → Contains (session_frames c es r arrivals) g
        → Covered c (entries_after c es arrivals) g }
{}

/// A session misses nothing and repeats nothing: each entry that it adds is acknowledged; and what is sent to an endpoint as
/// an output for the first time, with a blank, are its new outputs, each once and in their order. What a restart after the
/// session sends was sent in it, but for the mark.
pub fn sessions_miss_and_repeat_nothing()
    ensures acks { (c : Config) (es : List Entry) (arrivals : List Arrival) (x : Entry)
        → Contains (entries_after c es arrivals) x
        → Contains es x ⊎ ((g : Frame) → ack_of c 32 x ≡ Some g → Contains (frames_at c es arrivals) g) }
    ensures outputs { (c : Config) (es : List Entry) (arrivals : List Arrival) (e : List ℕ)
        → (new : List Item) × (outputs c (entries_after c es arrivals) e ≡ outputs c es e ++ new)
        × (filter (is_first_output e) (frames_at c es arrivals) ≡ map (λ i. output c e i 32) new) }
    ensures resumed { (c : Config) (es : List Entry) (r : ℕ) (arrivals : List Arrival) (g : Frame)
        → Contains (resume_frames c (entries_after c es arrivals) (recent_after c es r arrivals)) g
        → (sent : Frame) × Contains (session_frames c es r arrivals) sent × (unmarked sent ≡ unmarked g) }
{}
