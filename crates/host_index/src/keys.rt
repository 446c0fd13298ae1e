// The keys of the two tables.
ghost use Rattle.std.specs.Prelude.{◌≡◌};
ghost use Rattle.host_index.specs.Tables.{imad_of};

use faim_base::{Endpoint, Imad, OutPos};

// An IMAD as the table of IMADs has it.
#[derive(Clone, Copy, PartialEq, Eq, Hash)]
pub(crate) struct ImadKey {
    date: u32,
    source: [u8; 8],
    seq: u32,
}

// The number of an output among those of its endpoint, the first being 0.
#[derive(Clone, Copy, PartialEq, Eq, Hash)]
pub(crate) struct Slot {
    dest: [u8; 8],
    number: usize,
}

// An output: its position, and the place of the entry that gives it.
#[derive(Clone, Copy)]
pub(crate) struct Sent {
    pub(crate) at: OutPos,
    pub(crate) place: usize,
}

pub(crate) fn imad_key(imad: &Imad) -> ImadKey
    ensures { imad_of result ≡ imad.now }
{
    ImadKey {
        date: imad.date.get(),
        source: imad.source.bytes(),
        seq: imad.seq.get(),
    }
}

pub(crate) fn numbered(dest: &Endpoint, number: usize) -> Slot
    ensures dest { result.dest ≡ dest.now }
    ensures number { result.number ≡ number }
{
    Slot {
        dest: dest.bytes(),
        number,
    }
}
