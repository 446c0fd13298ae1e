// Laws of what a bank's entries keep (docs/FORMATS.md, "What a bank takes"). Each call does nothing: its contract is the law.
ghost use Rattle.std.specs.Prelude.{◌≡◌, ◌≤◌, ℕ, List, [], ◌+◌, length, min, Some};
ghost use Rattle.std.specs.List.{Contains};
ghost use Rattle.faim_base.specs.declared.ids.Imad.{Imad};
ghost use Rattle.faim_base.specs.Limits.{longest_message};
ghost use Rattle.faim_base.specs.Numbers.{IsDay, greatest_seq};
ghost use Rattle.faim_base.specs.Ranges.{IsImad};
ghost use Rattle.faim_message.specs.declared.form.Form.{Form};
ghost use Rattle.faim_message.specs.Decoded.{decoded};
ghost use Rattle.faim_message.specs.Spelling.{Content, marked_with};
ghost use Rattle.link_frames.specs.declared.frame.FrameKind.{FrameKind};
ghost use Rattle.link_frames.specs.Frames.{Content as Frame, IsFrame};
ghost use Rattle.bank_books.specs.declared.entries.BankEntry.{BankEntry};
ghost use Rattle.bank_books.specs.declared.entries.BankOpening.{BankOpening};
ghost use Rattle.bank_books.specs.declared.outcomes.BankOutcome.{BankOutcome};
ghost use Rattle.bank_books.specs.Drafts.{Draft, drafts, open_drafts};
ghost use Rattle.bank_books.specs.Inbox.{bank_cycle};
ghost use Rattle.bank_books.specs.Lawful.{LawfulBank};
ghost use Rattle.bank_books.specs.Numbering.{drafts_in_cycle};
ghost use Rattle.bank_books.specs.Openings.{IsBankOpening};
ghost use Rattle.bank_turns.specs.BankSteps.{adds_to, bank_step, sending};
ghost use Rattle.bank_turns.specs.Drafting.{draft_text};
ghost use Rattle.bank_turns.specs.KeptTexts.{BankMayFollow, KeepsDraft, KeptBank};
ghost use Rattle.bank_turns.specs.OutputTexts.{Given, output_given};

/// What a step adds has a spelling, may follow the list and keeps what it is to keep, whatever the frame holds. So a list
/// whose entries all do stays such a list.
pub fn steps_add_what_is_kept()
    ensures follows { (o : BankOpening) (es : List BankEntry) (f : Frame) (x : BankEntry)
        → IsBankOpening o → KeptBank o es → (bank_step o es f).adds ≡ Some x → BankMayFollow o es x }
    ensures kept { (o : BankOpening) (es : List BankEntry) (f : Frame)
        → IsBankOpening o → KeptBank o es → KeptBank o (adds_to (bank_step o es f).adds es) }
{}

/// A list whose entries all have a spelling, may follow and keep what they are to keep is lawful. Its present cycle date is a
/// day, and the text of each of its drafts is no longer than a message and spells a submission with the draft's IMAD and a
/// blank as its mark.
pub fn kept_banks_are_lawful()
    ensures lawful { (o : BankOpening) (es : List BankEntry) → KeptBank o es → LawfulBank o es }
    ensures day { (o : BankOpening) (es : List BankEntry) → IsBankOpening o → KeptBank o es → IsDay (bank_cycle o es) }
    ensures short { (o : BankOpening) (es : List BankEntry) (d : Draft)
        → KeptBank o es → Contains (drafts es) d → length d.text ≤ longest_message }
    ensures drafted { (o : BankOpening) (es : List BankEntry) (d : Draft)
        → KeptBank o es → Contains (drafts es) d → KeepsDraft d.imad d.text }
{}

/// Each frame that a step sends over a list whose entries keep what they are to keep fits a frame.
pub fn kept_frames_fit()
    ensures { (o : BankOpening) (es : List BankEntry) (f g : Frame)
        → IsBankOpening o → KeptBank o es → Contains (bank_step o es f).sends g → IsFrame g }
{}

/// The text that a draft becomes with an IMAD spells a submission with that IMAD and a blank as its mark.
pub fn drafts_keep_their_texts()
    ensures { (text : List ℕ) (m : Content) (imad : Imad)
        → decoded Form.Draft text ≡ Some m → IsImad imad → KeepsDraft imad (draft_text m imad) }
{}

/// The text that is kept of an output is read as the output that came, with a blank as its mark, and it gives that output
/// again: the same position, the same text, and the same next date.
pub fn outputs_keep_their_texts()
    ensures blank { (o : BankOpening) (text : List ℕ) (m : Content) (g : Given)
        → decoded Form.Output text ≡ Some m → output_given o text ≡ Some g → decoded Form.Output g.text ≡ Some (marked_with 32 m) }
    ensures again { (o : BankOpening) (text : List ℕ) (g : Given)
        → output_given o text ≡ Some g → output_given o g.text ≡ Some g }
{}

/// A reminder submits the oldest drafts for which no verdict came, at most 64: their number is the least of 64 and of how
/// many such drafts there are, and it sends a frame for each of them and one that asks for the outputs.
pub fn reminders_submit_at_most_64()
    ensures told { (o : BankOpening) (es : List BankEntry) (f : Frame)
        → f.endpoint ≡ o.endpoint → f.kind ≡ FrameKind.Tick
        → (bank_step o es f).outcome ≡ BankOutcome.Resent (min 64 (length (open_drafts es))) }
    ensures sent { (o : BankOpening) (es : List BankEntry) (f : Frame)
        → f.endpoint ≡ o.endpoint → f.kind ≡ FrameKind.Tick
        → length (bank_step o es f).sends ≡ min 64 (length (open_drafts es)) + 1 }
{}

/// Where the present cycle has all its 999,999 drafts, a text that is a draft is neither kept nor submitted.
pub fn full_cycles_keep_no_draft()
    ensures { (o : BankOpening) (es : List BankEntry) (f : Frame) (m : Content)
        → f.endpoint ≡ o.endpoint → f.kind ≡ FrameKind.Draft → decoded Form.Draft f.payload ≡ Some m
        → drafts_in_cycle o es ≡ greatest_seq
        → bank_step o es f ≡ sending [] BankOutcome.SeqFull }
{}
