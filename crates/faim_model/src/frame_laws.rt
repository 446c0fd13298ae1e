// Laws of the frames that a host sends (docs/FORMATS.md, "What a host sends"). Each call does nothing: its contract is the
// law. They speak of a sound configuration and a lawful list whose newest entry is of a moment of the calendar.
ghost use Rattle.std.specs.Prelude.{◌≡◌, ◌⊎◌, ◌≤◌, ◌++◌, ℕ, List, length, slice_index, codes, Bool, false, if◌then◌else◌, Option, Some, None, Ok, IsTrue, IfSome};
ghost use Rattle.std.specs.List.{Contains, flat_map};
ghost use Rattle.faim_base.specs.declared.ids.Imad.{Imad};
ghost use Rattle.faim_base.specs.declared.ids.Omad.{Omad};
ghost use Rattle.faim_base.specs.declared.judgement.Head.{Head};
ghost use Rattle.faim_base.specs.declared.judgement.Reject.{Reject};
ghost use Rattle.faim_base.specs.declared.judgement.Verdict.{Verdict};
ghost use Rattle.faim_base.specs.declared.judgement.Verdict.TheVariants.{Taken};
ghost use Rattle.faim_base.specs.Ids.{application, stamp_of, stamp_text};
ghost use Rattle.faim_base.specs.Limits.{longest_message};
ghost use Rattle.faim_base.specs.Numbers.{IsMoment};
ghost use Rattle.faim_base.specs.Ranges.{IsImad};
ghost use Rattle.faim_base.specs.Text.{is_text_byte};
ghost use Rattle.faim_tags.specs.Reading.{is_among};
ghost use Rattle.faim_tags.specs.Spelling.{spelling};
ghost use Rattle.faim_message.specs.declared.form.Form.{Form};
ghost use Rattle.faim_message.specs.Forms.{between};
ghost use Rattle.faim_message.specs.Decoded.{decoded};
ghost use Rattle.faim_message.specs.Heads.{fixed_in};
ghost use Rattle.faim_message.specs.Spelling.{Content, IsMessage, mark_in, marked_with, message_spelling, numbers};
ghost use Rattle.faim_edits.specs.Texts.{is_turned_away};
ghost use Rattle.host_ledger.specs.declared.config.Config.{Config};
ghost use Rattle.host_ledger.specs.declared.entries.Entry.{Entry};
ghost use Rattle.host_ledger.specs.declared.entries.Entry.TheVariants.{Posted};
ghost use Rattle.host_ledger.specs.Soundness.{IsConfig};
ghost use Rattle.link_frames.specs.declared.frame.FrameKind.{FrameKind};
ghost use Rattle.link_frames.specs.Frames.{Content as Frame, IsFrame};
ghost use Rattle.faim_model.specs.Outputs.{Item, outputs};
ghost use Rattle.faim_model.specs.Lawful.{Lawful, last_moment, moment_of};
ghost use Rattle.faim_model.specs.Submissions.{text_with};
ghost use Rattle.faim_model.specs.Acks.{turned_ack, verdict_ack};
ghost use Rattle.faim_model.specs.Deliveries.{host_tags, output_message};
ghost use Rattle.faim_model.specs.Frames.{Covered, IsAckMark, IsOutputMark, IsTurned};
ghost use Rattle.faim_model.specs.Readings.{Acknowledges, imad_in, omad_in, verdict_in};

/// A frame that a list covers is covered by every list that has newer entries in front of it.
pub fn covered_frames_stay_covered()
    ensures { (c : Config) (es newer : List Entry) (f : Frame) → Covered c es f → Covered c (newer ++ es) f }
{}

/// What a host writes are messages of their forms, and their bytes read as these messages: the acknowledgement of an entry
/// and each output, with any text byte as the mark, and the acknowledgement of a submission that is turned away.
pub fn answers_are_messages()
    ensures ack { (c : Config) (es : List Entry)
        (h : Head) (body : List ℕ) (resent : Bool) (moment : ℕ) (v : Verdict) (mark : ℕ)
        → IsConfig c → Lawful c es → IsMoment (last_moment es)
        → Contains es (Posted h body resent moment v) → IsTrue (is_text_byte mark)
        → IsMessage (verdict_ack c.env h moment v mark)
        × (decoded Form.Ack (message_spelling (verdict_ack c.env h moment v mark)) ≡ Some (verdict_ack c.env h moment v mark)) }
    ensures turned { (c : Config) (why : Reject) (imad : Option Imad) (moment : ℕ)
        → IsConfig c → IsTrue (is_turned_away why) → IfSome imad IsImad
        → IsMessage (turned_ack c.env why imad moment)
        × (decoded Form.Ack (message_spelling (turned_ack c.env why imad moment)) ≡ Some (turned_ack c.env why imad moment)) }
    ensures output { (c : Config) (es : List Entry) (e : List ℕ) (i : Item) (mark : ℕ)
        → IsConfig c → Lawful c es → IsMoment (last_moment es)
        → Contains (outputs c es e) i → IsTrue (is_text_byte mark)
        → IsMessage (output_message c.env e i mark)
        × (decoded Form.Output (message_spelling (output_message c.env e i mark)) ≡ Some (output_message c.env e i mark)) }
{}

/// Each covered frame is one, with no more bytes than a message has, and its payload reads as a message of its form.
pub fn covered_frames_fit()
    ensures frame { (c : Config) (es : List Entry) (f : Frame)
        → IsConfig c → Lawful c es → IsMoment (last_moment es) → Covered c es f → IsFrame f }
    ensures short { (c : Config) (es : List Entry) (f : Frame)
        → IsConfig c → Lawful c es → IsMoment (last_moment es) → Covered c es f → length f.payload ≤ longest_message }
    ensures ack { (c : Config) (es : List Entry) (f : Frame)
        → IsConfig c → Lawful c es → IsMoment (last_moment es) → Covered c es f → f.kind ≡ FrameKind.Ack
        → (m : Content) × (decoded Form.Ack f.payload ≡ Some m) }
    ensures output { (c : Config) (es : List Entry) (f : Frame)
        → IsConfig c → Lawful c es → IsMoment (last_moment es) → Covered c es f → f.kind ≡ FrameKind.Output
        → (m : Content) × (decoded Form.Output f.payload ≡ Some m) }
{}

/// An acknowledgement of an entry tells its identifier and its verdict. One that turns a submission away tells no verdict.
pub fn acks_tell_verdicts()
    ensures kept { (c : Config) (es : List Entry)
        (h : Head) (body : List ℕ) (resent : Bool) (moment : ℕ) (v : Verdict) (mark : ℕ)
        → IsConfig c → Lawful c es → IsMoment (last_moment es) → Contains es (Posted h body resent moment v)
        → (imad_in (verdict_ack c.env h moment v mark) ≡ Ok h.imad)
        × (verdict_in (verdict_ack c.env h moment v mark) ≡ Some v) }
    ensures turned { (c : Config) (why : Reject) (imad : Option Imad) (moment : ℕ)
        → IsTrue (is_turned_away why) → verdict_in (turned_ack c.env why imad moment) ≡ None }
{}

/// A covered frame is an acknowledgement with a blank or P as its mark, or an output with a blank, P or R. The mark is byte 9
/// of the payload, counted from 0.
pub fn covered_frames_are_marked()
    ensures kind { (c : Config) (es : List Entry) (f : Frame)
        → Covered c es f → (f.kind ≡ FrameKind.Ack) ⊎ (f.kind ≡ FrameKind.Output) }
    ensures ack { (c : Config) (es : List Entry) (f : Frame)
        → Covered c es f → f.kind ≡ FrameKind.Ack → IsAckMark (slice_index f.payload 9) }
    ensures output { (c : Config) (es : List Entry) (f : Frame)
        → Covered c es f → f.kind ≡ FrameKind.Output → IsOutputMark (slice_index f.payload 9) }
{}

/// Nothing but what the list holds is covered. A covered acknowledgement that tells a verdict is that of an entry with
/// this verdict, to its source. One that tells none turns a submission away. Of one identifier all that tell a verdict go to
/// one endpoint and differ in their marks alone.
pub fn covered_acks_are_kept()
    ensures kept { (c : Config) (es : List Entry) (f : Frame) (m : Content) (v : Verdict)
        → IsConfig c → Lawful c es → IsMoment (last_moment es) → Covered c es f → f.kind ≡ FrameKind.Ack
        → decoded Form.Ack f.payload ≡ Some m → verdict_in m ≡ Some v → Acknowledges c es v f m }
    ensures turned { (c : Config) (es : List Entry) (f : Frame) (m : Content)
        → IsConfig c → Lawful c es → IsMoment (last_moment es) → Covered c es f → f.kind ≡ FrameKind.Ack
        → decoded Form.Ack f.payload ≡ Some m → verdict_in m ≡ None → IsTurned c f }
    ensures one { (c : Config) (es : List Entry) (f g : Frame) (m w : Content) (v u : Verdict)
        → IsConfig c → Lawful c es → IsMoment (last_moment es) → Covered c es f → Covered c es g
        → f.kind ≡ FrameKind.Ack → g.kind ≡ FrameKind.Ack
        → decoded Form.Ack f.payload ≡ Some m → decoded Form.Ack g.payload ≡ Some w
        → verdict_in m ≡ Some v → verdict_in w ≡ Some u → imad_in m ≡ imad_in w
        → (f.endpoint ≡ g.endpoint) × (marked_with 32 m ≡ marked_with 32 w) }
{}

/// A covered acknowledgement that tells no verdict has one of four refusals. With E001 and E002 it has no identifier, with
/// H102 and X201 it has one.
pub fn four_refusals_turn_away()
    ensures { (c : Config) (es : List Entry) (f : Frame) (m : Content)
        → IsConfig c → Lawful c es → IsMoment (last_moment es) → Covered c es f → f.kind ≡ FrameKind.Ack
        → decoded Form.Ack f.payload ≡ Some m → verdict_in m ≡ None
        → (((fixed_in m.tags 1130 ≡ codes "E001") ⊎ (fixed_in m.tags 1130 ≡ codes "E002"))
        × (is_among (numbers m.tags) 1520 ≡ false))
        ⊎ (((fixed_in m.tags 1130 ≡ codes "H102") ⊎ (fixed_in m.tags 1130 ≡ codes "X201"))
        × ((imad : Imad) × (imad_in m ≡ Ok imad))) }
{}

/// Each covered frame has the stamp of a moment of the calendar, and the application.
pub fn covered_frames_are_stamped()
    ensures ack { (c : Config) (es : List Entry) (f : Frame) (m : Content)
        → IsConfig c → Lawful c es → IsMoment (last_moment es) → Covered c es f → f.kind ≡ FrameKind.Ack
        → decoded Form.Ack f.payload ≡ Some m
        → (moment : ℕ) × IsMoment moment × (fixed_in m.tags 1110 ≡ stamp_text (stamp_of moment) ++ application) }
    ensures output { (c : Config) (es : List Entry) (f : Frame) (m : Content)
        → IsConfig c → Lawful c es → IsMoment (last_moment es) → Covered c es f → f.kind ≡ FrameKind.Output
        → decoded Form.Output f.payload ≡ Some m
        → (moment : ℕ) × IsMoment moment × (fixed_in m.tags 1110 ≡ stamp_text (stamp_of moment) ++ application) }
{}

/// Each output names its endpoint, its position and the stamp of its entry's moment.
pub fn outputs_name_positions()
    ensures { (c : Config) (es : List Entry) (e : List ℕ) (i : Item) (mark : ℕ)
        → IsConfig c → Lawful c es → IsMoment (last_moment es) → Contains (outputs c es e) i
        → omad_in (output_message c.env e i mark)
        ≡ Ok (record { date = i.at.date; dest = e; seq = i.at.seq; stamp = stamp_of (moment_of i.entry) }) }
{}

/// The acknowledgement of an accepted message names the output that its receiver gets, with the same stamp.
pub fn acks_name_outputs()
    ensures { (c : Config) (es : List Entry) (e : List ℕ) (i : Item)
        (h : Head) (body : List ℕ) (resent : Bool) (moment : ℕ) (dest : List ℕ) (seq mark other : ℕ)
        → Contains (outputs c es e) i → i.entry ≡ Posted h body resent moment (Taken dest seq)
        → omad_in (verdict_ack c.env h moment (Taken dest seq) mark) ≡ omad_in (output_message c.env e i other) }
{}

/// A covered output is one of the list's outputs to its endpoint. All that name one output go to one endpoint and differ in
/// their marks alone.
pub fn covered_outputs_are_given()
    ensures given { (c : Config) (es : List Entry) (f : Frame) (m : Content)
        → IsConfig c → Lawful c es → IsMoment (last_moment es) → Covered c es f → f.kind ≡ FrameKind.Output
        → decoded Form.Output f.payload ≡ Some m
        → (i : Item) × Contains (outputs c es f.endpoint) i × IsOutputMark (mark_in Form.Output m.tags)
        × (m ≡ output_message c.env f.endpoint i (mark_in Form.Output m.tags)) }
    ensures one { (c : Config) (es : List Entry) (f g : Frame) (m w : Content) (o p : Omad)
        → IsConfig c → Lawful c es → IsMoment (last_moment es) → Covered c es f → Covered c es g
        → f.kind ≡ FrameKind.Output → g.kind ≡ FrameKind.Output
        → decoded Form.Output f.payload ≡ Some m → decoded Form.Output g.payload ≡ Some w
        → omad_in m ≡ Ok o → omad_in w ≡ Ok p → o.dest ≡ p.dest → o.date ≡ p.date → o.seq ≡ p.seq
        → (f.endpoint ≡ g.endpoint) × (marked_with 32 m ≡ marked_with 32 w) }
{}

/// The output of a message is a host's own three tags, each followed by a break of the submission, and then the body's text
/// with P as its mark where the entry is resent, and a blank where not.
pub fn outputs_hand_on_texts()
    ensures { (env : ℕ) (e : List ℕ) (i : Item) (mark : ℕ)
        (h : Head) (body : List ℕ) (resent : Bool) (moment : ℕ) (v : Verdict) (m : Content)
        → i.entry ≡ Posted h body resent moment v → decoded Form.Input body ≡ Some m
        → message_spelling (output_message env e i mark)
        ≡ flat_map (λ t. spelling t ++ between m.breaks) (host_tags env e i mark) ++ text_with (if resent then 80 else 32) body }
{}
