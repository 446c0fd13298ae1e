// Laws of the texts of messages. Each call does nothing: its contract is the law.
ghost use Rattle.std.specs.Prelude.{◌≡◌, ◌≢◌, ◌⊎◌, ◌<◌, ◌≤◌, ◌↔◌, ℕ, List, ◌++◌, length, true, Some, None, Ok, is_some, slice_index, slice_set, IsTrue};
ghost use Rattle.std.specs.List.{list_all};
ghost use Rattle.faim_base.specs.Limits.{longest_message};
ghost use Rattle.faim_base.specs.Numbers.{IsAmount, IsType};
ghost use Rattle.faim_base.specs.Ranges.{IsAba, IsImad};
ghost use Rattle.faim_base.specs.Text.{is_text_byte};
ghost use Rattle.faim_base.specs.declared.judgement.Head.{Head};
ghost use Rattle.faim_base.specs.declared.judgement.Refused.{Refused};
ghost use Rattle.faim_message.specs.declared.form.Form.{Form};
ghost use Rattle.faim_message.specs.Spelling.{Content, IsMessage, Spells, message_spelling, mark_byte, mark_in, marked_with, body_text};
ghost use Rattle.faim_message.specs.Refusal.{Begins, StopsAt, Refuses};
ghost use Rattle.faim_message.specs.Decoded.{decoded};
ghost use Rattle.faim_message.specs.Heads.{head_of};
ghost use Rattle.faim_message.specs.Stages.{reads, start};
ghost use Rattle.faim_message.specs.Partial.{HasRead};
ghost use Rattle.faim_message.specs.declared.partial.MessagePart.{MessagePart};

/// Of one form, one message has one spelling, and one spelling has one message.
pub fn one_spelling_of_messages()
    ensures message { (m w : Content) (bytes : List ℕ) → m.form ≡ w.form → Spells m bytes → Spells w bytes → m ≡ w }
    ensures bytes { (m : Content) (a b : List ℕ) → Spells m a → Spells m b → a ≡ b }
{}

/// Bytes begin a message exactly where reading byte by byte doesn't stop in them.
pub fn reading_tells_what_begins()
    ensures read { (form : Form) (bytes : List ℕ) → is_some (reads form start bytes) ≡ true → Begins form bytes }
    ensures begun { (form : Form) (bytes : List ℕ) → Begins form bytes → is_some (reads form start bytes) ≡ true }
{}

/// Bytes that spell a message of a form are refused for want of memory alone.
pub fn spelled_is_not_refused()
    ensures { (m : Content) (bytes : List ℕ) (e : Refused) → Spells m bytes → Refuses m.form bytes e → e ≡ Refused.NoMemory }
{}

/// No spelling of a message has more bytes than `LONGEST_MESSAGE` says (docs/FORMATS.md, "Messages").
pub fn spellings_are_short()
    ensures { (m : Content) (bytes : List ℕ) → Spells m bytes → length bytes ≤ longest_message }
{}

/// What a `MessagePart` has read begins a message of its form, and has no more bytes than `LONGEST_MESSAGE` says.
pub fn what_is_read_begins_a_message()
    ensures begins { (m : MessagePart) (form : Form) (bytes : List ℕ) → HasRead m form bytes → Begins form bytes }
    ensures short { (m : MessagePart) (form : Form) (bytes : List ℕ) → HasRead m form bytes → length bytes ≤ longest_message }
    ensures on { (m : MessagePart) (form : Form) (bytes : List ℕ) (p : ℕ) → HasRead m form bytes → StopsAt form bytes p → ⊥ }
{}

/// Where bytes stop beginning a message is one place, and it stays the place whatever comes after them.
pub fn a_stop_stays()
    ensures one { (form : Form) (bytes : List ℕ) (p q : ℕ) → StopsAt form bytes p → StopsAt form bytes q → p ≡ q }
    ensures stays { (form : Form) (bytes more : List ℕ) (p : ℕ) → StopsAt form bytes p → StopsAt form (bytes ++ more) p }
    ensures front { (form : Form) (bytes more : List ℕ) (p : ℕ) → StopsAt form (bytes ++ more) p → p < length bytes → StopsAt form bytes p }
{}

/// The mark of a message, which is its duplication code, is one byte of its text: byte 17, counted from 0, of a submission
/// and of a draft, and byte 9 of what the service writes. With another mark that byte alone is another, and where the mark
/// is a text byte, the new text spells the message with that mark (docs/FORMATS.md, "Messages").
pub fn a_mark_is_one_byte()
    ensures within { (m : Content) → IsMessage m → mark_byte m.form < length (message_spelling m) }
    ensures mark { (m : Content) → IsMessage m → slice_index (message_spelling m) (mark_byte m.form) ≡ mark_in m.form m.tags }
    ensures alone { (m : Content) (mark : ℕ) → IsMessage m
        → message_spelling (marked_with mark m) ≡ slice_set (message_spelling m) (mark_byte m.form) mark }
    ensures spells { (m : Content) (text : List ℕ) (mark : ℕ) → Spells m text → IsTrue (is_text_byte mark)
        → Spells (marked_with mark m) (slice_set text (mark_byte m.form) mark) }
{}

/// The body's text of a submission is the spelling of the submission with a blank as its mark. Two submissions
/// have one body exactly where they are equal but for their marks (docs/FORMATS.md, "Messages").
pub fn bodies_tell_messages_apart()
    ensures spelled { (m : Content) → IsMessage m → m.form ≡ Form.Input → body_text m ≡ message_spelling (marked_with 32 m) }
    ensures apart { (m w : Content) → IsMessage m → IsMessage w → m.form ≡ Form.Input → w.form ≡ Form.Input
        → (body_text m ≡ body_text w) ↔ (marked_with 32 m ≡ marked_with 32 w) }
{}

/// Bytes spell a message of a form, or they are refused for another reason than want of memory.
pub fn each_input_is_judged()
    ensures { (form : Form) (bytes : List ℕ)
        → ((m : Content) × Spells m bytes × (m.form ≡ form)) ⊎ ((e : Refused) × Refuses form bytes e × (e ≢ Refused.NoMemory)) }
{}

/// What `decoded` finds is the message of the form that the bytes spell, and it finds none exactly where they spell none
/// (docs/FORMATS.md, "Messages").
pub fn decoded_is_spelled()
    ensures found { (form : Form) (bytes : List ℕ) (m : Content) → (decoded form bytes ≡ Some m) ↔ (Spells m bytes × (m.form ≡ form)) }
    ensures none { (form : Form) (bytes : List ℕ) → (decoded form bytes ≡ None) ↔ ((m : Content) → Spells m bytes → m.form ≢ form) }
{}

/// A submission that a text spells shows its mark, a text byte, as byte 17 of the text, counted from 0. With another text
/// byte there, the text is that of the submission with that mark (docs/FORMATS.md, "Messages").
pub fn submissions_show_their_marks()
    ensures place { (text : List ℕ) (m : Content) → decoded Form.Input text ≡ Some m → mark_in m.form m.tags ≡ slice_index text 17 }
    ensures text_byte { (text : List ℕ) (m : Content) → decoded Form.Input text ≡ Some m → IsTrue (is_text_byte (mark_in m.form m.tags)) }
    ensures marked { (text : List ℕ) (m : Content) (mark : ℕ) → decoded Form.Input text ≡ Some m → IsTrue (is_text_byte mark)
        → decoded Form.Input (slice_set text 17 mark) ≡ Some (marked_with mark m) }
{}

/// The body's text of a submission that a text spells is that text with a blank as byte 17. It is the text of the
/// submission with a blank as its mark, it gives the text back with the submission's own mark, and it has 1 byte to as
/// many as `LONGEST_MESSAGE` says (docs/FORMATS.md, "Messages").
pub fn submissions_show_their_bodies()
    ensures text { (text : List ℕ) (m : Content) → decoded Form.Input text ≡ Some m → body_text m ≡ slice_set text 17 32 }
    ensures reads { (text : List ℕ) (m : Content) → decoded Form.Input text ≡ Some m → decoded Form.Input (body_text m) ≡ Some (marked_with 32 m) }
    ensures back { (text : List ℕ) (m : Content) → decoded Form.Input text ≡ Some m → slice_set (body_text m) 17 (mark_in m.form m.tags) ≡ text }
    ensures some { (text : List ℕ) (m : Content) → decoded Form.Input text ≡ Some m → 1 ≤ length (body_text m) }
    ensures short { (text : List ℕ) (m : Content) → decoded Form.Input text ≡ Some m → length (body_text m) ≤ longest_message }
{}

/// A message with another mark has that mark, and the head that it had; a submission has the body that it had.
pub fn a_mark_changes_alone()
    ensures mark { (m : Content) (mark : ℕ) → IsMessage m → mark_in m.form (marked_with mark m).tags ≡ mark }
    ensures head { (m : Content) (mark : ℕ) → IsMessage m → head_of (marked_with mark m) ≡ head_of m }
    ensures body { (m : Content) (mark : ℕ) → IsMessage m → m.form ≡ Form.Input → body_text (marked_with mark m) ≡ body_text m }
{}

/// Two texts of submissions with one body have one head, and they are one text where their marks are equal too.
pub fn one_body_has_one_head()
    ensures head { (text other : List ℕ) (m w : Content) → decoded Form.Input text ≡ Some m → decoded Form.Input other ≡ Some w
        → body_text m ≡ body_text w → head_of m ≡ head_of w }
    ensures text { (text other : List ℕ) (m w : Content) → decoded Form.Input text ≡ Some m → decoded Form.Input other ≡ Some w
        → body_text m ≡ body_text w → mark_in m.form m.tags ≡ mark_in w.form w.tags → text ≡ other }
{}

/// The parts of a head that a submission gives are in their ranges: an identifier, two banks of nine digits, a code of
/// three text bytes, a type and a subtype of two digits each, and an amount of twelve digits.
pub fn heads_are_in_range()
    ensures imad { (text : List ℕ) (m : Content) (h : Head) → decoded Form.Input text ≡ Some m → head_of m ≡ Ok h → IsImad h.imad }
    ensures sender { (text : List ℕ) (m : Content) (h : Head) → decoded Form.Input text ≡ Some m → head_of m ≡ Ok h → IsAba h.sender }
    ensures receiver { (text : List ℕ) (m : Content) (h : Head) → decoded Form.Input text ≡ Some m → head_of m ≡ Ok h → IsAba h.receiver }
    ensures code { (text : List ℕ) (m : Content) (h : Head) → decoded Form.Input text ≡ Some m → head_of m ≡ Ok h
        → (length h.code ≡ 3) × IsTrue (list_all is_text_byte h.code) }
    ensures kind { (text : List ℕ) (m : Content) (h : Head) → decoded Form.Input text ≡ Some m → head_of m ≡ Ok h → IsType h.kind }
    ensures sub { (text : List ℕ) (m : Content) (h : Head) → decoded Form.Input text ≡ Some m → head_of m ≡ Ok h → IsType h.sub }
    ensures amount { (text : List ℕ) (m : Content) (h : Head) → decoded Form.Input text ≡ Some m → head_of m ≡ Ok h → IsAmount h.amount }
{}

/// Bytes are refused for one reason, beside want of memory.
pub fn one_refusal()
    ensures { (form : Form) (bytes : List ℕ) (a b : Refused) → Refuses form bytes a → Refuses form bytes b
        → (a ≡ b) ⊎ ((a ≡ Refused.NoMemory) ⊎ (b ≡ Refused.NoMemory)) }
{}
