// Laws of lists of entries, the newest first, and of what a host does with a text (docs/FORMATS.md, "The order of
// verdicts").
ghost use Rattle.std.specs.Prelude.{◌≡◌, ◌≢◌, ◌+◌, ◌<◌, ◌≤◌, ◌≤ℤ◌, ◌-ℤ◌, pos, min, length, ℕ, Bool, true, false, List, [], ◌∷◌, ◌++◌, Option, Some, None, Ok, Err, ◌==◌, ◌↔◌, IsTrue};
ghost use Rattle.faim_base.specs.declared.ids.Imad.{Imad};
ghost use Rattle.faim_base.specs.declared.ids.OutPos.{OutPos};
ghost use Rattle.faim_base.specs.declared.judgement.Head.{Head};
ghost use Rattle.faim_base.specs.declared.judgement.Reject.{Reject};
ghost use Rattle.faim_base.specs.declared.judgement.Verdict.{Verdict};
ghost use Rattle.faim_base.specs.declared.judgement.Verdict.TheVariants.{Refused, Taken};
ghost use Rattle.faim_base.specs.Refusals.{e001, e002, h102, is_recorded, x201};
ghost use Rattle.faim_base.specs.declared.ids.IdFault.{IdFault};
ghost use Rattle.faim_base.specs.Numbers.{IsDay, IsMoment};
ghost use Rattle.faim_message.specs.declared.form.Form.{Form};
ghost use Rattle.faim_message.specs.Spelling.{Content, Spells, mark_in};
ghost use Rattle.faim_message.specs.Heads.{head_of};
ghost use Rattle.host_ledger.specs.declared.config.Account.{Account};
ghost use Rattle.host_ledger.specs.declared.config.Config.{Config};
ghost use Rattle.host_ledger.specs.declared.entries.Entry.{Entry};
ghost use Rattle.host_ledger.specs.declared.entries.Entry.TheVariants.{Posted, Roll};
ghost use Rattle.faim_model.specs.declared.decisions.Decision.TheVariants.{New};
ghost use Rattle.faim_model.specs.declared.decisions.HostOutcome.TheVariants.{Known, Recorded, TurnedAway};
ghost use Rattle.host_ledger.specs.Accounts.{floor_of, has_endpoint};
ghost use Rattle.host_ledger.specs.Ranges.{IsEntry};
ghost use Rattle.host_ledger.specs.Soundness.{IsConfig};
ghost use Rattle.std.specs.List.{Contains};
ghost use Rattle.std.specs.Int.{int_min};
ghost use Rattle.host_ledger.specs.Lists.{counted, total};
ghost use Rattle.host_ledger.specs.Sums.{balance, cycle, moves_money};
ghost use Rattle.faim_model.specs.Outputs.{Item, count_under, is_from, outputs, retrieved, sent_in_cycle};
ghost use Rattle.faim_model.specs.Submissions.{Numbered, submission};
ghost use Rattle.faim_model.specs.Verdicts.{Before, Now, Turned, judged, verdict};
ghost use Rattle.faim_model.specs.Lawful.{Follows, HasOther, IsAccepted, Lawful, Rises, last_moment, moment_of, numbers_under, one_to, times_posted};
ghost use Rattle.faim_model.specs.Turns.{adds_to, effective, entry_at, stays, submitted, told_again};

/// A lawful list posts each identifier at most once.
pub fn posted_once()
    ensures { (c : Config) (es : List Entry) → Lawful c es → (imad : Imad) → times_posted imad es ≤ 1 }
{}

/// Under each date the outputs of each endpoint are numbered 1, 2, 3 and so on, in their order.
pub fn numbered_in_order()
    ensures { (c : Config) (es : List Entry) → Lawful c es → (e : List ℕ) (date : ℕ)
        → numbers_under date (outputs c es e) ≡ one_to (count_under date (outputs c es e)) }
{}

/// Each cycle has a number left for its end: in the present cycle an endpoint has at most 999,998 outputs.
pub fn cycles_have_a_number_left()
    ensures { (c : Config) (es : List Entry) (e : List ℕ) → Lawful c es → sent_in_cycle c es e ≤ 999_998 }
{}

/// Each output's place is the place of the entry that gives it.
pub fn outputs_stand_at_their_places()
    ensures { (c : Config) (es : List Entry) (e : List ℕ) (i : Item)
        → Contains (outputs c es e) i → entry_at es i.place ≡ Some i.entry }
{}

/// The moments of a lawful list never fall.
pub fn moments_in_order()
    ensures { (c : Config) (older : List Entry) (x : Entry)
        → Lawful c (x ∷ older) → last_moment older ≤ moment_of x }
{}

/// An accepted message is of the present cycle date and came before its cutoff, its source serves the sender's account,
/// its output goes to the endpoint of the receiver's account with the next number of the cycle, at most 999,998, and what
/// it moves, in cents, leaves the sender's balance no lower than its floor.
/// A message with a new identifier, from its source's line, that fails no edit is accepted wherever all this holds.
pub fn accepted_where_allowed()
    ensures allowed { (c : Config) (older : List Entry) (h : Head) (body : List ℕ) (resent : Bool)
        (moment : ℕ) (dest : List ℕ) (seq : ℕ)
        → Lawful c (Posted h body resent moment (Taken dest seq) ∷ older)
        → IsAccepted c older h moment dest seq }
    ensures accepted { (c : Config) (older : List Entry) (h : Head) (body : List ℕ)
        (moment : ℕ) (dest : List ℕ) (seq : ℕ)
        → times_posted h.imad older ≡ 0 → IsAccepted c older h moment dest seq
        → judged c older h.imad.source moment h body None ≡ New (Taken dest seq) }
{}

/// A retrieval gives each output at its position or after it, but at most 64.
pub fn retrieved_up_to_sixty_four()
    ensures { (c : Config) (es : List Entry) (e : List ℕ) (p : OutPos)
        → length (retrieved c es e p) ≡ min 64 (counted (is_from p) (outputs c es e)) }
{}

/// An accepted message that moves money leaves its sender's balance no lower than the floor.
pub fn within_floor()
    ensures { (c : Config) (older : List Entry) (h : Head) (body : List ℕ) (resent : Bool)
        (moment : ℕ) (dest : List ℕ) (seq : ℕ)
        → Lawful c (Posted h body resent moment (Taken dest seq) ∷ older) → moves_money h ≡ true
        → floor_of c h.sender ≤ℤ (balance c older h.sender -ℤ pos h.amount) }
{}

/// Over all accounts of a sound configuration the balances add up to the openings, in cents, whatever the lawful list.
pub fn money_is_conserved()
    ensures { (c : Config) (es : List Entry)
        → IsConfig c → Lawful c es
        → total (λ a. balance c es a.aba) c.accounts ≡ total (λ a. a.opening) c.accounts }
{}

/// In each lawful list of a sound configuration each account's balance is at least its floor or its opening, whichever
/// is lower, in cents.
pub fn floors_are_kept()
    ensures { (c : Config) (es : List Entry) (a : Account)
        → IsConfig c → Lawful c es → Contains c.accounts a
        → int_min a.floor a.opening ≤ℤ balance c es a.aba }
{}

/// What a submitted text adds may follow the entries that are there.
pub fn turn_follows()
    ensures { (c : Config) (es : List Entry) (line : List ℕ) (reading : ℕ) (text : List ℕ) (x : Entry)
        → (submitted c es line reading text).adds ≡ Some x → Follows c es x }
{}

/// A lawful list stays lawful whatever text is submitted, on whatever line and at whatever moment.
pub fn turns_stay_lawful()
    ensures { (c : Config) (es : List Entry) (line : List ℕ) (reading : ℕ) (text : List ℕ)
        → Lawful c es → Lawful c (adds_to (submitted c es line reading text).adds es) }
{}

/// The verdict that an entry keeps stands: its text, submitted again with whatever mark and at any moment, is answered
/// with that verdict, and nothing is added.
pub fn verdict_stands()
    ensures { (c : Config) (es : List Entry) (h : Head) (body : List ℕ) (resent : Bool) (moment : ℕ)
        (v : Verdict) (reading : ℕ) (text : List ℕ) (own : Head) (mark : ℕ) (failed : Option Reject)
        → Lawful c es → Contains es (Posted h body resent moment v)
        → submission c.env text ≡ Numbered own body mark failed → own.imad ≡ h.imad
        → submitted c es h.imad.source reading text ≡ stays (Known h.imad v) }
{}

/// Another text under the identifier of an entry is turned away, and nothing is added.
pub fn other_text_is_turned()
    ensures { (c : Config) (es : List Entry) (h : Head) (body : List ℕ) (resent : Bool) (moment : ℕ)
        (v : Verdict) (reading : ℕ) (text : List ℕ) (own : Head) (other : List ℕ) (mark : ℕ) (failed : Option Reject)
        → Lawful c es → Contains es (Posted h body resent moment v)
        → submission c.env text ≡ Numbered own other mark failed → own.imad ≡ h.imad → other ≢ body
        → submitted c es h.imad.source reading text ≡ stays (TurnedAway x201) }
{}

/// The host's turn at a text is what the verdict on it says, at the effective moment: a new verdict is recorded as the
/// entry that keeps the message's head and body, whether its mark was `P`, the moment and that verdict; one that stands is
/// told again; and any other refusal changes nothing.
pub fn turns_tell_verdicts()
    ensures recorded { (c : Config) (es : List Entry) (line : List ℕ) (reading : ℕ) (text : List ℕ)
        (h : Head) (body : List ℕ) (mark : ℕ) (failed : Option Reject) (v : Verdict)
        → submission c.env text ≡ Numbered h body mark failed → verdict c es line (effective es reading) text ≡ Now v
        → submitted c es line reading text
        ≡ record { adds = Some (Posted h body (mark == 80) (effective es reading) v); outcome = Recorded h.imad v } }
    ensures known { (c : Config) (es : List Entry) (line : List ℕ) (reading : ℕ) (text : List ℕ) (place : ℕ)
        → verdict c es line (effective es reading) text ≡ Before place
        → submitted c es line reading text ≡ stays (told_again (entry_at es place)) }
    ensures turned { (c : Config) (es : List Entry) (line : List ℕ) (reading : ℕ) (text : List ℕ) (why : Reject)
        → verdict c es line (effective es reading) text ≡ Turned why
        → submitted c es line reading text ≡ stays (TurnedAway why) }
{}

/// Each entry of a lawful list that posts a message keeps an Input message as its body, with the entry's head and a blank
/// mark.
pub fn posted_messages_are_sound()
    ensures { (c : Config) (es : List Entry) (h : Head) (body : List ℕ) (resent : Bool) (moment : ℕ) (v : Verdict)
        → Lawful c es → Contains es (Posted h body resent moment v)
        → (m : Content) × Spells m body × (m.form ≡ Form.Input) × (head_of m ≡ Ok h) × (mark_in Form.Input m.tags ≡ 32) }
{}

/// A new refusal is one that an entry may keep, and a refusal that turns a text away isn't.
pub fn kept_refusals_are_recorded()
    ensures kept { (c : Config) (es : List Entry) (line : List ℕ) (t : ℕ) (text : List ℕ) (why : Reject)
        → verdict c es line t text ≡ Now (Refused why) → IsTrue (is_recorded why) }
    ensures turned { (c : Config) (es : List Entry) (line : List ℕ) (t : ℕ) (text : List ℕ) (why : Reject)
        → verdict c es line t text ≡ Turned why → is_recorded why ≡ false }
{}

/// When a text is turned away: with E001 exactly where it spells no Input message, with E002 exactly where it spells one
/// whose identifier is none, with H102 exactly where its identifier's source isn't the line, and with X201 exactly where it
/// is and an entry has the identifier with another body.
pub fn refusals_tell_why()
    ensures e001 { (c : Config) (es : List Entry) (line : List ℕ) (t : ℕ) (text : List ℕ)
        → (verdict c es line t text ≡ Turned e001) ↔ ((m : Content) → Spells m text → m.form ≢ Form.Input) }
    ensures e002 { (c : Config) (es : List Entry) (line : List ℕ) (t : ℕ) (text : List ℕ)
        → (verdict c es line t text ≡ Turned e002)
        ↔ ((m : Content) × (fault : IdFault) × Spells m text × (m.form ≡ Form.Input) × (head_of m ≡ Err fault)) }
    ensures h102 { (c : Config) (es : List Entry) (line : List ℕ) (t : ℕ) (text : List ℕ)
        (h : Head) (body : List ℕ) (mark : ℕ) (failed : Option Reject)
        → submission c.env text ≡ Numbered h body mark failed
        → (verdict c es line t text ≡ Turned h102) ↔ (h.imad.source ≢ line) }
    ensures x201 { (c : Config) (es : List Entry) (line : List ℕ) (t : ℕ) (text : List ℕ)
        (h : Head) (body : List ℕ) (mark : ℕ) (failed : Option Reject)
        → Lawful c es → submission c.env text ≡ Numbered h body mark failed
        → (verdict c es line t text ≡ Turned x201) ↔ ((h.imad.source ≡ line) × HasOther es h body) }
{}

/// A verdict that is told again is that of an entry with the text's identifier and body, and the body of each entry of a
/// lawful list, submitted on its source's line, is told the verdict that the entry keeps.
pub fn known_verdicts_are_kept()
    ensures kept { (c : Config) (es : List Entry) (line : List ℕ) (reading : ℕ) (text : List ℕ) (imad : Imad) (v : Verdict)
        → (submitted c es line reading text).outcome ≡ Known imad v
        → (own : Head) × (body : List ℕ) × (mark : ℕ) × (failed : Option Reject) × (h : Head) × (resent : Bool) × (moment : ℕ)
        × (submission c.env text ≡ Numbered own body mark failed) × (own.imad ≡ imad) × (h.imad ≡ imad)
        × Contains es (Posted h body resent moment v) }
    ensures told { (c : Config) (es : List Entry) (h : Head) (body : List ℕ) (resent : Bool) (moment : ℕ) (v : Verdict)
        (reading : ℕ) → Lawful c es → Contains es (Posted h body resent moment v)
        → submitted c es h.imad.source reading body ≡ stays (Known h.imad v) }
{}

/// The outputs of an endpoint rise in position over all dates, and none has a later date than the present cycle.
pub fn outputs_rise()
    ensures rise { (c : Config) (es : List Entry) (e : List ℕ) → Lawful c es → Rises (outputs c es e) }
    ensures in_time { (c : Config) (es : List Entry) (e : List ℕ) (i : Item)
        → Lawful c es → Contains (outputs c es e) i → i.at.date ≤ cycle c es }
{}

/// A Roll goes on to a later date, and to any such date one may follow. It gives each endpoint the end of the cycle as an
/// output, with the next number of the date that ends; every balance stays as it was.
pub fn rolls_end_cycles()
    ensures later { (c : Config) (older : List Entry) (moment date : ℕ)
        → Lawful c (Roll moment date ∷ older) → cycle c older < date }
    ensures follows { (c : Config) (older : List Entry) (moment date : ℕ)
        → last_moment older ≤ moment → cycle c older < date → IsDay date → Follows c older (Roll moment date) }
    ensures output { (c : Config) (older : List Entry) (moment date : ℕ) (e : List ℕ) → has_endpoint c.accounts e ≡ true
        → outputs c (Roll moment date ∷ older) e
        ≡ outputs c older e ++ (record {
          at = record { date = cycle c older; seq = sent_in_cycle c older e + 1 };
          place = length older;
          entry = Roll moment date;
        }) ∷ [] }
    ensures balance { (c : Config) (older : List Entry) (moment date : ℕ) (aba : List ℕ)
        → balance c (Roll moment date ∷ older) aba ≡ balance c older aba }
{}

/// An entry that may follow, at a moment of the calendar, holds what an entry may hold (docs/FORMATS.md, "Entries").
pub fn entries_that_follow_are_spelled()
    ensures { (c : Config) (older : List Entry) (x : Entry)
        → IsConfig c → Follows c older x → IsMoment (moment_of x) → IsEntry x }
{}
