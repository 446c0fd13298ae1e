// Laws of what a bank does with a frame (docs/FORMATS.md, "What a bank takes"). Each call does nothing: its contract is the law.
ghost use Rattle.std.specs.Prelude.{◌≡◌, ◌≢◌, ◌≤◌, ℕ, List, length, Some, None};
ghost use Rattle.std.specs.List.{Contains};
ghost use Rattle.faim_base.specs.declared.ids.Imad.{Imad};
ghost use Rattle.faim_base.specs.declared.judgement.Refused.{Refused};
ghost use Rattle.faim_base.specs.Ids.{imad_text};
ghost use Rattle.faim_base.specs.Limits.{longest_message};
ghost use Rattle.faim_base.specs.Ranges.{IsEndpoint};
ghost use Rattle.faim_message.specs.declared.form.Form.{Form};
ghost use Rattle.faim_message.specs.Decoded.{decoded};
ghost use Rattle.faim_message.specs.Numbering.{numbered};
ghost use Rattle.faim_message.specs.Refusal.{Refuses};
ghost use Rattle.faim_message.specs.Spelling.{Content, Spells, marked_with};
ghost use Rattle.link_frames.specs.Frames.{Content as Frame, IsFrame};
ghost use Rattle.bank_books.specs.declared.entries.BankEntry.{BankEntry};
ghost use Rattle.bank_books.specs.declared.entries.BankOpening.{BankOpening};
ghost use Rattle.bank_books.specs.Openings.{IsBankOpening};
ghost use Rattle.bank_books.specs.Drafts.{Draft, drafts, drafts_of};
ghost use Rattle.bank_books.specs.Lawful.{BankFollows, LawfulBank, draft_numbers, one_to};
ghost use Rattle.bank_turns.specs.BankSteps.{adds_to, bank_step};
ghost use Rattle.bank_turns.specs.DraftFaults.{draft_fault};
ghost use Rattle.bank_turns.specs.Drafting.{draft_text};

/// What a step adds may follow the list, so a lawful list stays lawful.
pub fn bank_steps_stay_lawful()
    ensures follows { (o : BankOpening) (es : List BankEntry) (f : Frame) (x : BankEntry)
        → (bank_step o es f).adds ≡ Some x → BankFollows o es x }
    ensures lawful { (o : BankOpening) (es : List BankEntry) (f : Frame)
        → LawfulBank o es → LawfulBank o (adds_to (bank_step o es f).adds es) }
{}

/// After a step the drafts of each cycle date are still numbered 1, 2, 3 and so on, in their order.
pub fn steps_number_in_order()
    ensures { (o : BankOpening) (es : List BankEntry) (f : Frame) (date : ℕ)
        → LawfulBank o es
        → draft_numbers date (adds_to (bank_step o es f).adds es) ≡ one_to (length (drafts_of date (adds_to (bank_step o es f).adds es))) }
{}

/// Each frame that a step sends fits a frame, where the drafts of the list are no longer than a message. A draft that is
/// decoded spells a submission with its IMAD and a blank as its mark.
pub fn sent_frames_fit()
    ensures fits { (o : BankOpening) (es : List BankEntry) (f g : Frame)
        → IsBankOpening o → LawfulBank o es
        → ((d : Draft) → Contains (drafts es) d → length d.text ≤ longest_message)
        → Contains (bank_step o es f).sends g → IsFrame g }
    ensures spelled { (text : List ℕ) (m : Content) (imad : Imad)
        → decoded Form.Draft text ≡ Some m → IsEndpoint imad.source
        → Spells (marked_with 32 (numbered m (imad_text imad))) (draft_text m imad) }
{}

/// A text has a fault exactly where it is no draft, and the fault is why it is none, never want of memory.
pub fn draft_faults_are_refusals()
    ensures why { (text : List ℕ) (e : Refused) → draft_fault text ≡ Some e → Refuses Form.Draft text e × (e ≢ Refused.NoMemory) }
    ensures found { (text : List ℕ) → draft_fault text ≡ None → (m : Content) × (decoded Form.Draft text ≡ Some m) }
    ensures none { (text : List ℕ) (m : Content) → decoded Form.Draft text ≡ Some m → draft_fault text ≡ None }
{}
