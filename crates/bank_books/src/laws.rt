// Laws of a bank's list of entries, the newest first. Each call does nothing: its contract is the law.
ghost use Rattle.std.specs.Prelude.{◌≡◌, ◌↔◌, ◌<◌, ◌≤◌, min, length, ℕ, List, [], ◌∷◌, Option, Some, Ok, true, false};
ghost use Rattle.std.specs.List.{Contains, slice_get};
ghost use Rattle.faim_base.specs.declared.ids.Imad.{Imad};
ghost use Rattle.faim_base.specs.declared.ids.OutPos.{OutPos};
ghost use Rattle.faim_base.specs.declared.judgement.Verdict.{Verdict};
ghost use Rattle.bank_books.specs.declared.entries.BankEntry.{BankEntry};
ghost use Rattle.bank_books.specs.declared.entries.BankEntry.TheVariants.{Answered, Drafted, Received};
ghost use Rattle.bank_books.specs.declared.entries.BankOpening.{BankOpening};
ghost use Rattle.bank_books.specs.declared.outcomes.AckCase.TheVariants as ack;
ghost use Rattle.bank_books.specs.declared.outcomes.OutCase.TheVariants as out;
ghost use Rattle.bank_books.specs.Drafts.{Draft, ack_case, drafts, drafts_of, is_answered, is_drafted, open_drafts, unanswered, verdict_of};
ghost use Rattle.bank_books.specs.Inbox.{InboxItem, bank_cycle, inbox, out_case, wanted};
ghost use Rattle.bank_books.specs.Numbering.{drafts_in_cycle, next_imad};
ghost use Rattle.bank_books.specs.Lawful.{BankFollows, LawfulBank, StandInARow, draft_numbers, one_to, received_numbers, received_under, right_after, times_answered};

/// The drafts of each cycle date are numbered 1, 2, 3 and so on, in their order, and each has the bank's endpoint as its
/// source.
pub fn drafts_are_numbered_in_order()
    ensures numbers { (o : BankOpening) (es : List BankEntry) (date : ℕ)
        → LawfulBank o es → draft_numbers date es ≡ one_to (length (drafts_of date es)) }
    ensures source { (o : BankOpening) (es : List BankEntry) (d : Draft)
        → LawfulBank o es → Contains (drafts es) d → d.imad.source ≡ o.endpoint }
{}

/// The next number is above all that were given under its cycle date, and no draft has the next IMAD. No draft is of a date
/// after the present cycle, and a cycle has at most 999,999 drafts.
pub fn next_numbers_are_new()
    ensures above { (o : BankOpening) (es : List BankEntry) (imad : Imad) (d : Draft)
        → LawfulBank o es → next_imad o es ≡ Ok imad → Contains (drafts es) d → d.imad.date ≡ imad.date → d.imad.seq < imad.seq }
    ensures new { (o : BankOpening) (es : List BankEntry) (imad : Imad)
        → LawfulBank o es → next_imad o es ≡ Ok imad → is_drafted imad es ≡ false }
    ensures in_time { (o : BankOpening) (es : List BankEntry) (date : ℕ)
        → LawfulBank o es → bank_cycle o es < date → drafts_of date es ≡ [] }
    ensures few { (o : BankOpening) (es : List BankEntry)
        → LawfulBank o es → drafts_in_cycle o es ≤ 999_999 }
{}

/// A draft is answered at most once, nothing else is answered, and the verdict that came is the one that is kept.
pub fn drafts_are_answered_once()
    ensures once { (o : BankOpening) (es : List BankEntry) (imad : Imad)
        → LawfulBank o es → times_answered imad es ≤ 1 }
    ensures drafts { (o : BankOpening) (es : List BankEntry) (imad : Imad)
        → LawfulBank o es → is_answered imad es ≡ true → is_drafted imad es ≡ true }
    ensures kept { (o : BankOpening) (es : List BankEntry) (imad : Imad) (verdict : Verdict)
        → LawfulBank o es → (verdict_of imad es ≡ Some verdict) ↔ Contains es (Answered imad verdict) }
{}

/// The outputs of the inbox follow one another without a hole, over all cycles: the first stands at number 1 of the opening
/// date, each other right after the one before it, and the wanted position is right after the last. So under each date
/// they are numbered 1, 2, 3 and so on, and a new date comes only after an end of a cycle that names it.
pub fn inboxes_have_no_hole()
    ensures row { (o : BankOpening) (es : List BankEntry)
        → LawfulBank o es → StandInARow (record { date = o.date; seq = 1 }) (inbox es) }
    ensures wanted { (o : BankOpening) (older : List BankEntry) (at : OutPos) (text : List ℕ) (next : Option ℕ)
        → LawfulBank o (Received at text next ∷ older)
        → (at ≡ wanted o older) × (wanted o (Received at text next ∷ older) ≡ right_after at next) }
    ensures numbers { (o : BankOpening) (es : List BankEntry) (date : ℕ)
        → LawfulBank o es → received_numbers date es ≡ one_to (length (received_under date es)) }
{}

/// What came once is told as repeated from then on: an acknowledgement of an IMAD whose verdict is kept, and an output at a
/// position of the inbox. An acknowledgement of a draft for which no verdict came is fresh.
pub fn what_came_is_repeated()
    ensures verdict { (o : BankOpening) (es : List BankEntry) (imad : Imad) (verdict : Verdict)
        → LawfulBank o es → Contains es (Answered imad verdict) → ack_case es imad ≡ ack.Repeated }
    ensures output { (o : BankOpening) (es : List BankEntry) (i : InboxItem)
        → LawfulBank o es → Contains (inbox es) i → out_case o es i.at ≡ out.Repeated }
    ensures draft { (o : BankOpening) (older : List BankEntry) (imad : Imad) (text : List ℕ)
        → LawfulBank o (Drafted imad text ∷ older) → ack_case (Drafted imad text ∷ older) imad ≡ ack.Fresh }
{}

/// Each draft stands at its place, and of the drafts for which no verdict came as many are told as asked for, where there
/// are so many.
pub fn drafts_stand_at_their_places()
    ensures places { (es : List BankEntry) (d : Draft)
        → Contains (drafts es) d → slice_get (drafts es) d.place ≡ Some d }
    ensures told { (es : List BankEntry) (limit : ℕ)
        → length (unanswered limit es) ≡ min limit (length (open_drafts es)) }
{}

/// A lawful list stays lawful with any entry that may come next.
pub fn lists_stay_lawful()
    ensures { (o : BankOpening) (es : List BankEntry) (x : BankEntry)
        → BankFollows o es x → LawfulBank o es → LawfulBank o (x ∷ es) }
{}
