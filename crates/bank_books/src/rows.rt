// What books keep of a draft beside their list.
ghost use Rattle.std.specs.Prelude.{◌≡◌};

use faim_base::Imad;

// A draft's IMAD, and the place of its entry.
#[derive(Clone, Copy, Debug, PartialEq, Eq)]
pub(crate) struct DraftAt {
    pub(crate) imad: Imad,
    pub(crate) entry: usize,
}

// The IMAD of a draft for which no verdict came, and its place among the drafts.
#[derive(Clone, Copy, Debug, PartialEq, Eq)]
pub(crate) struct OpenDraft {
    pub(crate) imad: Imad,
    pub(crate) place: usize,
}

impl DraftAt {
    pub(crate) fn new(imad: &Imad, entry: usize) -> DraftAt
        ensures { result ≡ record { imad = imad.now; entry = entry } }
    {
        DraftAt { imad: *imad, entry }
    }
}

impl OpenDraft {
    pub(crate) fn new(imad: &Imad, place: usize) -> OpenDraft
        ensures { result ≡ record { imad = imad.now; place = place } }
    {
        OpenDraft { imad: *imad, place }
    }
}
