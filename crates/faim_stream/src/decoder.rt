// A message that comes in pieces.
ghost use Rattle.std.specs.Prelude.{◌≡◌, ◌≢◌, ◌+◌, ◌<◌, ◌≤◌, ◌++◌, ◌∷◌, [], ℕ, List, length, Some, None, IfOk, IfErr, vec_len, vec_capacity};
ghost use Rattle.faim_base.specs.declared.judgement.Refused.{Refused};
ghost use Rattle.faim_message.specs.Spelling.{Spells};
ghost use Rattle.faim_message.specs.Refusal.{Refuses};
ghost use Rattle.faim_message.specs.Decoded.{decoded};
ghost use Rattle.faim_stream.specs.Fed.{IsFed, Judges};

use faim_base::{NoMemory, Refused};
use faim_message::{Form, Message, MessagePart};
use std::alloc::Global;
use std::marker::Model;

// How many bytes a decoder has room for. No message has so many.
const ROOM: usize = 8_192;

/// Decodes one message of a form from bytes that come in pieces. Contracts speak of all bytes that were fed, in order:
/// those for which it `IsFed`.
#[derive(Drop)]
pub struct Decoder {
    alloc: Global,
    form: Form,
    part: MessagePart,
    room: Vec<u8>,
    stop: Option<usize>,
}

impl Model for Decoder {
    ghost use Rattle.std.specs.Prelude.{◌≡◌, ◌≤◌, None, vec_capacity};
    ghost use Rattle.faim_message.specs.Partial.{form_of, HasRead};
    ghost use Rattle.faim_stream.specs.Fed.{Held};

    ghost Value = { Held };

    ghost view = { λ d. record { form = form_of d.part; bytes = d.room.items; stop = d.stop } };

    ghost invariant = { λ d. (8192 ≤ vec_capacity d.room) × (d.stop ≡ None → HasRead d.part (form_of d.part) d.room.items) × (d.form ≡ form_of d.part) };
}

impl Decoder {
    /// Nothing was fed. It reserves 8,192 bytes, and the feeding takes no more.
    pub fn new(alloc: Global, form: Form) -> Result<Decoder, NoMemory>
        ensures form { IfOk result (λ d. d.form ≡ form) }
        ensures fed { IfOk result (λ d. IsFed d []) }
    {
        Ok(Decoder {
            alloc,
            form,
            part: MessagePart::new(form),
            room: Vec::with_capacity(alloc, ROOM)?,
            stop: None,
        })
    }

    /// Takes the next piece, of any length. `Byte(p)` exactly where all bytes fed so far, this piece among them, have a
    /// longest beginning of a message of the form that has p bytes and is shorter than they are; each later call then
    /// answers the same. There is no other refusal. It takes no memory, and the cost of a byte doesn't grow with what was
    /// fed before (docs/FORMATS.md, "Messages").
    #[inline(always)]
    pub fn feed(&mut self, piece: &[u8]) -> Result<(), Refused>
        ensures form { self.new.form ≡ self.old.form }
        ensures fed { (fed : List ℕ) → IsFed self.old fed → IsFed self.new (fed ++ piece.now) }
        ensures judged { (fed : List ℕ) → IsFed self.old fed → Judges self.old.form (fed ++ piece.now) result }
    {
        if piece.len() == 1 {
            self.take(piece)
        } else {
            self.take_apart(piece)
        }
    }

    // As `feed`, kept apart for pieces that aren't one byte, so that the way of one byte stays short.
    fn take_apart(&mut self, piece: &[u8]) -> Result<(), Refused>
        ensures form { self.new.form ≡ self.old.form }
        ensures fed { (fed : List ℕ) → IsFed self.old fed → IsFed self.new (fed ++ piece.now) }
        ensures judged { (fed : List ℕ) → IsFed self.old fed → Judges self.old.form (fed ++ piece.now) result }
    {
        self.take(piece)
    }

    // As `feed`, for a piece of any length.
    #[inline(always)]
    fn take(&mut self, piece: &[u8]) -> Result<(), Refused>
        ensures form { self.new.form ≡ self.old.form }
        ensures fed { (fed : List ℕ) → IsFed self.old fed → IsFed self.new (fed ++ piece.now) }
        ensures judged { (fed : List ℕ) → IsFed self.old fed → Judges self.old.form (fed ++ piece.now) result }
    {
        if let Some(place) = self.stop {
            return Err(Refused::Byte(place));
        }
        let count = self.part.read(piece);
        let held = self.room.len();
        if count < piece.len() {
            self.stop = Some(held + count);
            return Err(Refused::Byte(held + count));
        }
        keep(&mut self.room, piece);
        Ok(())
    }

    /// The answer of `decode` on all bytes fed: the message that they spell, or why they spell none (docs/FORMATS.md,
    /// "Messages").
    pub fn finish(self) -> Result<Message, Refused>
        ensures found { (fed : List ℕ) → IsFed self fed → IfOk result (λ m. Spells m fed × (m.form ≡ self.form)) }
        ensures refused { (fed : List ℕ) → IsFed self fed → IfErr result (λ e. Refuses self.form fed e) }
        ensures read { (fed : List ℕ) → IsFed self fed → IfOk result (λ m. decoded self.form fed ≡ Some m) }
        ensures none_read { (fed : List ℕ) → IsFed self fed → IfErr result (λ e. e ≢ Refused.NoMemory → decoded self.form fed ≡ None) }
    {
        self.answer()
    }

    // As `finish`, of a decoder that stays as it is.
    fn answer(&self) -> Result<Message, Refused>
        ensures found { (fed : List ℕ) → IsFed self.now fed → IfOk result (λ m. Spells m fed × (m.form ≡ self.now.form)) }
        ensures refused { (fed : List ℕ) → IsFed self.now fed → IfErr result (λ e. Refuses self.now.form fed e) }
        ensures read { (fed : List ℕ) → IsFed self.now fed → IfOk result (λ m. decoded self.now.form fed ≡ Some m) }
        ensures none_read { (fed : List ℕ) → IsFed self.now fed → IfErr result (λ e. e ≢ Refused.NoMemory → decoded self.now.form fed ≡ None) }
    {
        match self.stop {
            Some(place) => Err(Refused::Byte(place)),
            None => self.part.message(self.alloc, self.room.as_slice()),
        }
    }

    /// The answer of `decode` on these bytes, which are read in the room of this decoder. Nothing was fed to it before, and
    /// nothing is fed to it afterwards: one decoder reads many messages, one after another. It takes memory for the message
    /// alone (docs/FORMATS.md, "Messages").
    pub fn decode(&mut self, bytes: &[u8]) -> Result<Message, Refused>
        requires { IsFed self.old [] }
        ensures form { self.new.form ≡ self.old.form }
        ensures nothing { IsFed self.new [] }
        ensures found { IfOk result (λ m. Spells m bytes.now × (m.form ≡ self.old.form)) }
        ensures refused { IfErr result (λ e. Refuses self.old.form bytes.now e) }
        ensures read { IfOk result (λ m. decoded self.old.form bytes.now ≡ Some m) }
        ensures none_read { IfErr result (λ e. e ≢ Refused.NoMemory → decoded self.old.form bytes.now ≡ None) }
    {
        // A refusal is answered again at the end.
        let _ = self.feed(bytes);
        self.finish_and_restart()
    }

    // As `finish`, and then nothing is fed: the room is kept for the next message.
    fn finish_and_restart(&mut self) -> Result<Message, Refused>
        ensures form { self.new.form ≡ self.old.form }
        ensures nothing { IsFed self.new [] }
        ensures found { (fed : List ℕ) → IsFed self.old fed → IfOk result (λ m. Spells m fed × (m.form ≡ self.old.form)) }
        ensures refused { (fed : List ℕ) → IsFed self.old fed → IfErr result (λ e. Refuses self.old.form fed e) }
        ensures read { (fed : List ℕ) → IsFed self.old fed → IfOk result (λ m. decoded self.old.form fed ≡ Some m) }
        ensures none_read { (fed : List ℕ) → IsFed self.old fed → IfErr result (λ e. e ≢ Refused.NoMemory → decoded self.old.form fed ≡ None) }
    {
        let answer = self.answer();
        self.part = MessagePart::new(self.form);
        self.room.clear();
        self.stop = None;
        answer
    }
}

// Appends a piece for which there is room.
fn keep(room: &mut Vec<u8>, piece: &[u8])
    requires { vec_len room.old + length piece.now ≤ vec_capacity room.old }
    ensures items { room.new.items ≡ room.old.items ++ piece.now }
    ensures capacity { vec_capacity room.old ≤ vec_capacity room.new }
{
    if piece.len() == 1 {
        return keep_byte(room, piece[0]);
    }
    match room.extend_from_slice(piece) {
        Ok(()) => {}
        Err(_) => unreachable!(),
    }
}

// As `keep`, for a byte that comes alone.
fn keep_byte(room: &mut Vec<u8>, b: u8)
    requires { vec_len room.old < vec_capacity room.old }
    ensures items { room.new.items ≡ room.old.items ++ b ∷ [] }
    ensures capacity { vec_capacity room.old ≤ vec_capacity room.new }
{
    match room.push(b) {
        Ok(()) => {}
        Err(_) => unreachable!(),
    }
}
