// A message byte by byte, without memory of its bytes.
ghost use Rattle.std.specs.Prelude.{◌≡◌, ◌≢◌, ◌+◌, ◌<◌, ◌≤◌, ◌++◌, ◌∷◌, [], ℕ, List, Some, None, true, false, length, IfSome, IfOk, IfErr, MatchOption, MatchResult, if◌then◌else◌};
ghost use Rattle.std.specs.List.{list_all};
ghost use Rattle.faim_base.specs.Tags.{is_tag_number};
ghost use Rattle.faim_tags.specs.Spelling.{Tag};
ghost use Rattle.faim_tags.specs.Steps.{Progress, may_end, step, tag_of};
ghost use Rattle.faim_tags.specs.Partial.{BothStand, Reaches, EndsAs};
ghost use Rattle.faim_message.specs.declared.form.Form.{Form};
ghost use Rattle.faim_base.specs.declared.judgement.Refused.{Refused};
ghost use Rattle.faim_message.specs.Spelling.{Spells};
ghost use Rattle.faim_message.specs.Decoded.{decoded};
ghost use Rattle.faim_message.specs.Refusal.{StopsAt, Refuses};
ghost use Rattle.faim_message.specs.Stages.{Stage, Within, Returned, open_numbers, next, begun, after_tag, Ends, Fails};
ghost use Rattle.faim_message.specs.Partial.{form_of, Knows, PartOf, StandsAt, Follows, ReadsTag, Moves, HasRead, EndsWith};

use crate::allowed::{missing_number, open_numbers};
use crate::cutting::cut_tags;
use crate::message::message_of;
use crate::remaining::Remaining;
use crate::so_far::{BreakSoFar, breaks_with, takes_brace, takes_feed, takes_return};
use crate::{Breaks, Form, Message, Tags};
use faim_base::{NoMemory, Refused, TagNo, after};
use faim_tags::{TagPart, close_alike, go_on, go_on_alike};
use std::alloc::Global;

/// How far a message is read, without the bytes that were read: those for which it `HasRead`.
#[derive(Debug, Drop)]
pub struct MessagePart {
    form: Form,
    // A tag is whole.
    any: bool,
    remaining: Remaining,
    so_far: BreakSoFar,
    // The tag that is being read; none after the CR of a break.
    tag: Option<TagPart>,
}

impl MessagePart {
    /// Nothing is read of a message of the form. It takes no memory.
    pub fn new(form: Form) -> MessagePart
        ensures form { form_of result ≡ form }
        ensures nothing { HasRead result form [] }
    {
        MessagePart {
            form,
            any: false,
            remaining: Remaining::new(form),
            so_far: BreakSoFar::Unknown,
            tag: Some(TagPart::start()),
        }
    }

    /// Reads bytes as far as some message goes on with them, and answers how many. Where that isn't all of them, nothing
    /// can be read any more. It takes no memory, and the cost of a byte doesn't grow with what was read before.
    pub fn read(&mut self, piece: &[u8]) -> usize
        ensures form { form_of self.new ≡ form_of self.old }
        ensures within { result ≤ length piece.now }
        ensures read { (form : Form) (bytes : List ℕ) → HasRead self.old form bytes → result ≡ length piece.now
            → HasRead self.new form (bytes ++ piece.now) }
        ensures stops { (form : Form) (bytes : List ℕ) → HasRead self.old form bytes → result < length piece.now
            → StopsAt form (bytes ++ piece.now) (length bytes + result) }
    {
        if piece.len() != 1 {
            return self.read_piece(piece);
        }
        if self.read_byte(piece[0]) { 1 } else { 0 }
    }

    /// The answer of `decode` on the bytes, which are all that was read.
    pub fn message(&self, alloc: Global, bytes: &[u8]) -> Result<Message, Refused>
        requires { HasRead self.now (form_of self.now) bytes.now }
        ensures found { IfOk result (λ m. Spells m bytes.now × (m.form ≡ form_of self.now)) }
        ensures refused { IfErr result (λ e. Refuses (form_of self.now) bytes.now e) }
        ensures read { IfOk result (λ m. decoded (form_of self.now) bytes.now ≡ Some m) }
        ensures none_read { IfErr result (λ e. e ≢ Refused.NoMemory → decoded (form_of self.now) bytes.now ≡ None) }
    {
        let (tags, breaks) = match self.tags_in(alloc, bytes) {
            Ok(read) => read,
            Err(refused) => return Err(refused),
        };
        match missing_number(self.form, tags.as_slice()) {
            Some(number) => Err(lacking(number)),
            None => Ok(message_of(self.form, breaks, tags)),
        }
    }

    // The tags of the bytes that were read, all of the bytes, and their breaks.
    fn tags_in(&self, alloc: Global, bytes: &[u8]) -> Result<(Tags, Breaks), Refused>
        requires { HasRead self.now (form_of self.now) bytes.now }
        ensures { MatchResult result (λ r. Ends (form_of self.now) bytes.now r.0.items r.1) (λ e. Fails (form_of self.now) bytes.now e) }
    {
        let breaks = match self.end() {
            Some(breaks) => breaks,
            None => return Err(Refused::Cut),
        };
        match cut_tags(alloc, bytes) {
            Ok(tags) => Ok((tags, breaks)),
            Err(NoMemory) => Err(Refused::NoMemory),
        }
    }

    // The breaks, where a tag or a break is whole. None elsewhere.
    fn end(&self) -> Option<Breaks>
        ensures { (form : Form) (s : Stage) → StandsAt self.now form s → EndsWith result s }
    {
        match &self.tag {
            Some(tag) => {
                if tag.whole().is_some() {
                    Some(breaks_with(self.so_far, false))
                } else if tag.is_start() && self.any {
                    Some(breaks_with(self.so_far, true))
                } else {
                    None
                }
            }
            None => None,
        }
    }

    // As `read`, for a piece of any length.
    #[inline(never)]
    fn read_piece(&mut self, piece: &[u8]) -> usize
        ensures form { form_of self.new ≡ form_of self.old }
        ensures within { result ≤ length piece.now }
        ensures read { (form : Form) (bytes : List ℕ) → HasRead self.old form bytes → result ≡ length piece.now
            → HasRead self.new form (bytes ++ piece.now) }
        ensures stops { (form : Form) (bytes : List ℕ) → HasRead self.old form bytes → result < length piece.now
            → StopsAt form (bytes ++ piece.now) (length bytes + result) }
    {
        let mut count = 0;
        while count < piece.len() {
            let (length, on) = self.read_some(after(piece, count));
            count += length;
            if !on {
                return count;
            }
        }
        count
    }

    // Reads one byte, where some message goes on with it. Most bytes are those of elements, or that which a number is
    // expected to have next: their way is kept short.
    #[inline(never)]
    fn read_byte(&mut self, b: u8) -> bool
        ensures form { form_of self.new ≡ form_of self.old }
        ensures goes { (form : Form) (s : Stage) → StandsAt self.old form s → Follows self.new form result (next form s b) }
    {
        match &mut self.tag {
            Some(tag) => match tag {
                TagPart::Elements {
                    no,
                    fixed,
                    stars,
                    part,
                } => {
                    if go_on(*no, fixed, stars, part, b) {
                        return true;
                    }
                    self.step_past_alone(b)
                }
                TagPart::Number { like, count } => {
                    if go_on_alike(*like, count, b) {
                        return true;
                    }
                    if let Some(next) = close_alike(*like, *count, b) {
                        *tag = next;
                        return true;
                    }
                    self.read_byte_apart(b)
                }
            },
            None => self.read_byte_apart(b),
        }
    }

    // As `read_byte`, kept apart for the other bytes of a number and those of a break.
    #[inline(never)]
    fn read_byte_apart(&mut self, b: u8) -> bool
        ensures form { form_of self.new ≡ form_of self.old }
        ensures goes { (form : Form) (s : Stage) → StandsAt self.old form s → Follows self.new form result (next form s b) }
    {
        match self.tag_with(b) {
            Some(tag) => {
                self.tag = Some(tag);
                true
            }
            None => self.step_past_alone(b),
        }
    }

    // As `step_past`, where one byte comes alone: kept apart, since it is called once in a tag.
    #[inline(never)]
    fn step_past_alone(&mut self, b: u8) -> bool
        ensures form { form_of self.new ≡ form_of self.old }
        ensures tag { (form : Form) (tags : List Tag) (p : Progress) → Knows self.old form tags → PartOf (open_numbers form tags) self.old.tag p
            → Follows self.new form result (if may_end p then after_tag form (tags ++ tag_of p ∷ []) self.old.so_far b else None) }
        ensures returned { (form : Form) (tags : List Tag) → Knows self.old form tags → self.old.tag ≡ None
            → Follows self.new form result (next form (Returned tags) b) }
    {
        self.step_past(b)
    }

    // What the byte makes of the tag that is being read.
    fn tag_with(&self, b: u8) -> Option<TagPart>
        ensures tag { (form : Form) (tags : List Tag) (p : Progress) → Knows self.now form tags → PartOf (open_numbers form tags) self.now.tag p
            → BothStand (open_numbers form tags) result (step (open_numbers form tags) p b) }
        ensures none { self.now.tag ≡ None → result ≡ None }
    {
        match &self.tag {
            Some(tag) => tag.step(self.open(), b),
            None => None,
        }
    }

    // Reads the bytes of the tag that is being read and the one after them, and answers how many it read, and whether some
    // message went on with all that it looked at.
    fn read_some(&mut self, bytes: &[u8]) -> (usize, bool)
        requires { 0 < length bytes.now }
        ensures form { form_of self.new ≡ form_of self.old }
        ensures within { result.0 ≤ length bytes.now }
        ensures some { result.1 ≡ true → 0 < result.0 }
        ensures goes { (form : Form) (s : Stage) → StandsAt self.old form s → Moves self.new form s bytes.now result.0 result.1 }
    {
        let length = self.read_tag(bytes);
        if length == bytes.len() {
            (length, true)
        } else if self.step_past(bytes[length]) {
            (length + 1, true)
        } else {
            (length, false)
        }
    }

    // Reads the bytes of the tag that is being read.
    fn read_tag(&mut self, bytes: &[u8]) -> usize
        ensures form { form_of self.new ≡ form_of self.old }
        ensures within { result ≤ length bytes.now }
        ensures goes { (form : Form) (s : Stage) → StandsAt self.old form s → ReadsTag self.new form s bytes.now result }
    {
        match self.tag_after(bytes) {
            Some((tag, length)) => {
                self.tag = Some(tag);
                length
            }
            None => 0,
        }
    }

    // What the bytes make of the tag that is being read, and how many of them are its bytes.
    fn tag_after(&self, bytes: &[u8]) -> Option<(TagPart, usize)>
        ensures within { IfSome result (λ r. r.1 ≤ length bytes.now) }
        ensures tag { (form : Form) (tags : List Tag) (p : Progress) → Knows self.now form tags → PartOf (open_numbers form tags) self.now.tag p
            → MatchOption result ⊥ (λ r. Reaches (open_numbers form tags) p bytes.now r.1 r.0) }
        ensures none { self.now.tag ≡ None → result ≡ None }
    {
        match &self.tag {
            Some(tag) => Some(tag.read(self.open(), bytes)),
            None => None,
        }
    }

    // The number of the tag that may end here.
    #[inline(always)]
    fn whole_tag(&self) -> Option<TagNo>
        ensures tag { (numbers : List ℕ) (p : Progress) → PartOf numbers self.now.tag p → EndsAs result p }
        ensures none { self.now.tag ≡ None → result ≡ None }
    {
        match &self.tag {
            Some(tag) => tag.whole(),
            None => None,
        }
    }

    // Reads one byte with which no tag goes on.
    #[inline(always)]
    fn step_past(&mut self, b: u8) -> bool
        ensures form { form_of self.new ≡ form_of self.old }
        ensures tag { (form : Form) (tags : List Tag) (p : Progress) → Knows self.old form tags → PartOf (open_numbers form tags) self.old.tag p
            → Follows self.new form result (if may_end p then after_tag form (tags ++ tag_of p ∷ []) self.old.so_far b else None) }
        ensures returned { (form : Form) (tags : List Tag) → Knows self.old form tags → self.old.tag ≡ None
            → Follows self.new form result (next form (Returned tags) b) }
    {
        match self.whole_tag() {
            Some(no) => self.step_after(no, b),
            None => self.step_return(b),
        }
    }

    // Reads the byte after a whole tag with this number.
    #[inline(always)]
    fn step_after(&mut self, no: TagNo, b: u8) -> bool
        ensures form { form_of self.new ≡ form_of self.old }
        ensures goes { (form : Form) (tags : List Tag) (v : Tag) → Knows self.old form tags → no ≡ v.no
            → Follows self.new form result (after_tag form (tags ++ v ∷ []) self.old.so_far b) }
    {
        self.remaining.take_away(no.get());
        self.any = true;
        self.step_break(b)
    }

    // Reads the byte after a whole tag that is counted among the whole ones.
    #[inline(always)]
    fn step_break(&mut self, b: u8) -> bool
        ensures form { form_of self.new ≡ form_of self.old }
        ensures goes { (form : Form) (tags : List Tag) → Knows self.old form tags → Follows self.new form result (after_tag form tags self.old.so_far b) }
    {
        if b == b'\n' && takes_feed(self.so_far) {
            self.so_far = BreakSoFar::Feed;
            self.tag = Some(TagPart::start());
            true
        } else if b == b'\r' && takes_return(self.so_far) {
            self.tag = None;
            true
        } else if takes_brace(self.so_far) {
            self.step_bare(b)
        } else {
            false
        }
    }

    // Reads the first byte of a tag that stands right after another.
    #[inline(always)]
    fn step_bare(&mut self, b: u8) -> bool
        ensures form { form_of self.new ≡ form_of self.old }
        ensures goes { (form : Form) (tags : List Tag) → Knows self.old form tags → Follows self.new form result (begun form tags b) }
    {
        self.so_far = BreakSoFar::Bare;
        match TagPart::start().step(self.open(), b) {
            Some(tag) => {
                self.tag = Some(tag);
                true
            }
            None => false,
        }
    }

    // Reads the byte after a CR.
    fn step_return(&mut self, b: u8) -> bool
        ensures form { form_of self.new ≡ form_of self.old }
        ensures tag { (numbers : List ℕ) (p : Progress) → PartOf numbers self.old.tag p → result ≡ false }
        ensures returned { (form : Form) (tags : List Tag) → Knows self.old form tags → self.old.tag ≡ None
            → Follows self.new form result (next form (Returned tags) b) }
    {
        if self.tag.is_some() || b != b'\n' {
            return false;
        }
        self.so_far = BreakSoFar::ReturnFeed;
        self.tag = Some(TagPart::start());
        true
    }

    // The numbers that the next tag may have.
    fn open(&self) -> &[u16]
        ensures open { (form : Form) (tags : List Tag) → Knows self.now form tags → result.now ≡ open_numbers form tags }
        ensures listed { list_all is_tag_number result.now ≡ true }
    {
        open_numbers(self.form, self.any, self.remaining.as_slice())
    }
}

// The refusal where a number is missing.
fn lacking(number: u16) -> Refused
    requires { is_tag_number number ≡ true }
    ensures { result ≡ Refused.Missing number }
{
    Refused::Missing(TagNo::new(number).unwrap())
}
