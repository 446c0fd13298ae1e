// Decodes a message from a source, piece by piece.
ghost use Rattle.std.specs.Prelude.{◌≡◌, ◌+◌, ◌<◌, ◌≤◌, ℕ, [], length, Ok, Err, IfOk, OnOk, IfSome};
ghost use Rattle.std.specs.Io.KnownBytes.{IsAtEnd};
ghost use Rattle.faim_base.specs.Limits.{longest_message};
ghost use Rattle.faim_message.specs.Spelling.{Spells};
ghost use Rattle.faim_stream.specs.Fed.{IsFed};
ghost use Rattle.faim_top.specs.Seen.{CountsFaults, LosesAtMost, seen};
ghost use Rattle.faim_top.specs.Sources.{FedAll, FeedsOn, RefusesSource, TakesLittleBeyond};

use crate::streams::CHUNK;
use faim_base::{LONGEST_MESSAGE, Refused};
use faim_message::{Form, Message, a_stop_stays, each_input_is_judged, spellings_are_short};
use faim_stream::Decoder;
use site_core::Source;
use std::alloc::Global;

// Why no message was read.
#[derive(Clone, Copy, Debug, PartialEq, Eq)]
pub(crate) enum Unread {
    Failed,
    Refused(Refused),
}

// The message that the source gives, which then has nothing left.
pub(crate) fn read_message<I: Source>(alloc: Global, input: &mut I) -> Result<Message, Unread>
    ensures form { IfOk result (λ m. m.form ≡ Form.Input) }
    ensures read { IfOk result (λ m. IfSome (I.left input.old) (Spells m)) }
    ensures end { IfOk result (λ _. IsAtEnd (I.left input.new)) }
    ensures refused { (why : Refused) → result ≡ Err (Unread.Refused why) → RefusesSource (seen I.left input.old input.new) why }
    ensures few { LosesAtMost (longest_message + 1) (seen I.left input.old input.new) }
    ensures beyond { TakesLittleBeyond (seen I.left input.old input.new) }
    ensures faults { CountsFaults (result ≡ Err Unread.Failed) (seen I.read_faults input.old input.new) }
{
    let mut decoder = match Decoder::new(alloc, Form::Input) {
        Ok(decoder) => decoder,
        Err(_) => return Err(Unread::Refused(Refused::NoMemory)),
    };
    match feed_all(input, &mut decoder) {
        Ok(_) => {}
        Err(end) => return Err(end),
    }
    match decoder.finish() {
        Ok(message) => Ok(message),
        Err(why) => Err(Unread::Refused(why)),
    }
}

// Feeds the decoder all that the source gives, and answers how many bytes that are. It reads no more once one is refused.
fn feed_all<I: Source>(input: &mut I, decoder: &mut Decoder) -> Result<usize, Unread>
    requires form { decoder.old.form ≡ Form.Input }
    requires new { IsFed decoder.old [] }
    ensures all { IfOk result (λ n. FedAll n (seen I.left input.old input.new) decoder.new) }
    ensures end { OnOk result (IsAtEnd (I.left input.new)) }
    ensures refused { (why : Refused) → result ≡ Err (Unread.Refused why) → RefusesSource (seen I.left input.old input.new) why }
    ensures few { LosesAtMost (longest_message + 1) (seen I.left input.old input.new) }
    ensures beyond { TakesLittleBeyond (seen I.left input.old input.new) }
    ensures faults { CountsFaults (result ≡ Err Unread.Failed) (seen I.read_faults input.old input.new) }
{
    each_input_is_judged();
    spellings_are_short();
    a_stop_stays();
    let mut buf = [0; CHUNK];
    let mut taken = 0;
    loop {
        let room = CHUNK.min(LONGEST_MESSAGE + 1 - taken);
        match feed_piece(input, &mut buf[..room], decoder) {
            Ok(0) => return Ok(taken),
            Ok(n) => taken += n,
            Err(end) => return Err(end),
        }
    }
}

// Feeds the decoder what the source gives next, and answers how many bytes that are: none at its end.
fn feed_piece<I: Source>(
    input: &mut I,
    buf: &mut [u8],
    decoder: &mut Decoder,
) -> Result<usize, Unread>
    requires { 0 < length buf.old }
    ensures form { decoder.new.form ≡ decoder.old.form }
    ensures fed { IfOk result (λ n. FeedsOn n (seen I.left input.old input.new) decoder.old decoder.new (Ok tt)) }
    ensures within { IfOk result (λ n. n ≤ length buf.old) }
    ensures end { result ≡ Ok 0 → IsAtEnd (I.left input.new) }
    ensures refused { (why : Refused) → result ≡ Err (Unread.Refused why)
        → (n : ℕ) × FeedsOn n (seen I.left input.old input.new) decoder.old decoder.new (Err why) }
    ensures few { LosesAtMost (length buf.old) (seen I.left input.old input.new) }
    ensures faults { CountsFaults (result ≡ Err Unread.Failed) (seen I.read_faults input.old input.new) }
{
    match input.read(buf) {
        Err(_) => Err(Unread::Failed),
        Ok(n) => match decoder.feed(&buf[..n]) {
            Ok(()) => Ok(n),
            Err(why) => Err(Unread::Refused(why)),
        },
    }
}
