// Reads an input, and writes all of an answer.
ghost use Rattle.std.specs.Prelude.{◌≡◌, ◌⊎◌, ◌+◌, ◌<◌, ◌≤◌, ◌++◌, take, length, Ok, Err, IsErr, IfOk, OnOk, OnErr};
ghost use Rattle.std.specs.Io.KnownBytes.{Appends, Consumes, IsAtEnd};
ghost use Rattle.faim_top.specs.Ends.{AppendsPart};
ghost use Rattle.faim_top.specs.Seen.{CountsFaults, LosesAtMost, seen};

use faim_base::{Bytes, Failed, NoMemory, after};
use site_core::{Sink, Source};
use std::alloc::Global;

// How many bytes are asked for at a time.
pub(crate) const CHUNK: usize = 4_096;

// Why the input was not read.
#[derive(Clone, Copy, Debug, PartialEq, Eq)]
pub(crate) enum ReadEnd {
    Failed,
    NoMemory,
}

impl From<NoMemory> for ReadEnd {
    ghost use Rattle.std.specs.Prelude.{◌≡◌};
    ghost use Rattle.faim_top.specs.declared.streams.ReadEnd.TheVariants as ends;

    ghost from_gives = { λ _ e. e ≡ ends.NoMemory };

    fn from(_: NoMemory) -> ReadEnd {
        ReadEnd::NoMemory
    }
}

// The bytes that the source gives until it ends, at most so many.
pub(crate) fn read_up_to<I: Source>(
    alloc: Global,
    input: &mut I,
    most: usize,
) -> Result<Bytes, ReadEnd>
    ensures all { IfOk result (λ b. Consumes (I.left input.old) (I.left input.new) b × (IsAtEnd (I.left input.new) ⊎ (length b ≡ most))) }
    ensures few { LosesAtMost most (seen I.left input.old input.new) }
    ensures asked { result ≡ Err ReadEnd.Failed → 0 < most }
    ensures faults { CountsFaults (result ≡ Err ReadEnd.Failed) (seen I.read_faults input.old input.new) }
{
    let mut all = Bytes::new(alloc);
    let mut buf = [0; CHUNK];
    while all.as_slice().len() < most {
        let room = CHUNK.min(most - all.as_slice().len());
        match read_piece(input, &mut buf[..room], &mut all) {
            Ok(0) => return Ok(all),
            Ok(_) => {}
            Err(end) => return Err(end),
        }
    }
    Ok(all)
}

// Appends what the source gives next, and answers how many bytes that are: none at its end.
fn read_piece<I: Source>(input: &mut I, buf: &mut [u8], all: &mut Bytes) -> Result<usize, ReadEnd>
    requires { 0 < length buf.old }
    ensures given { IfOk result (λ n. Consumes (I.left input.old) (I.left input.new) (take n buf.new) × (all.new ≡ all.old ++ take n buf.new) × (length (take n buf.new) ≡ n) × (n ≤ length buf.old)) }
    ensures end { result ≡ Ok 0 → IsAtEnd (I.left input.new) }
    ensures few { LosesAtMost (length buf.old) (seen I.left input.old input.new) }
    ensures faults { CountsFaults (result ≡ Err ReadEnd.Failed) (seen I.read_faults input.old input.new) }
{
    match input.read(buf) {
        Err(_) => Err(ReadEnd::Failed),
        Ok(n) => match all.extend(&buf[..n]) {
            Ok(()) => Ok(n),
            Err(_) => Err(ReadEnd::NoMemory),
        },
    }
}

// Writes all of the piece, or a part of it before a write that failed.
pub(crate) fn write_all<O: Sink>(out: &mut O, piece: &[u8]) -> Result<(), Failed>
    ensures all { OnOk result (Appends (O.written out.old) (O.written out.new) piece.now) }
    ensures part { OnErr result (AppendsPart (seen O.written out.old out.new) piece.now) }
    ensures faults { CountsFaults (IsErr result) (seen O.write_faults out.old out.new) }
{
    let mut done = 0;
    while done < piece.len() {
        match out.write(after(piece, done)) {
            Ok(n) => done += n,
            Err(fault) => return Err(fault),
        }
    }
    Ok(())
}
