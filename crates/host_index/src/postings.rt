// What an entry that posts a message puts into the tables.
ghost use Rattle.std.specs.Prelude.{◌≡◌, ◌≤◌, ◌<◌, ◌++◌, ◌∷◌, [], None, IsTrue, map};
ghost use Rattle.std.specs.Option.{option_to_list};
ghost use Rattle.indexmap.specs.IndexMap.{spare};
ghost use Rattle.host_index.specs.Index.{place_of, are_above, outputs_at, without_last};
ghost use Rattle.host_index.specs.Tables.{posted_of, AreNumbered, outputs_in};

use crate::keys::{ImadKey, Sent, Slot, imad_key};
use crate::outputs::put_all;
use faim_base::{Endpoint, Imad, OutPos};
use indexmap::IndexMap;
use std::hash::{BuildHasherDefault, DefaultHasher};

// The places of IMADs. The hash has no key of chance: an index must not ask for one.
pub(crate) type Imads = IndexMap<ImadKey, usize, BuildHasherDefault<DefaultHasher>>;

// Adds the place of an IMAD, for which there is room.
pub(crate) fn put_imad(posted: &mut Imads, imad: &Imad, place: usize)
    requires absent { place_of imad.now (map posted_of posted.old.entries) ≡ None }
    requires room { 0 < spare posted.old }
    ensures { map posted_of posted.new.entries ≡ map posted_of posted.old.entries ++ record { imad = imad.now; place = place } ∷ [] }
{
    posted.insert(imad_key(imad), place).unwrap();
}

// Adds the output that an entry gives, if it gives one, for which there is room.
pub(crate) fn put_one(
    outputs: &mut IndexMap<Slot, Sent>,
    to: Option<(Endpoint, OutPos)>,
    place: usize,
)
    requires numbered { AreNumbered outputs.old.entries }
    requires above { IsTrue (are_above place (option_to_list to) (outputs_in outputs.old.entries)) }
    requires room { 1 ≤ spare outputs.old }
    ensures numbered { AreNumbered outputs.new.entries }
    ensures outputs { outputs_in outputs.new.entries ≡ outputs_in outputs.old.entries ++ outputs_at place (option_to_list to) }
{
    match to {
        Some(end) => put_all(outputs, &[end], place),
        None => {}
    }
}

// Takes the last IMAD out.
pub(crate) fn take_imad(posted: &mut Imads)
    ensures { map posted_of posted.new.entries ≡ without_last 1 (map posted_of posted.old.entries) }
{
    let left = posted.len().saturating_sub(1);
    posted.truncate(left);
}
