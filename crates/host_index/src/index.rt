// The index.
ghost use Rattle.std.specs.Prelude.{◌≡◌, None, [], length, filter, IsTrue, IfOk, OnOk, OnErr};
ghost use Rattle.std.specs.Option.{option_to_list};
ghost use Rattle.host_index.specs.Index.{place_of, outputs_to, is_under, retrieved, places_of, are_above, after_posting, after_roll, EndsInPosting, EndsInRoll, before_posting, before_roll};

use crate::keys::{Sent, Slot, imad_key};
use crate::outputs::{count_all, count_under, places_from, put_all, take_back};
use crate::postings::{Imads, put_imad, put_one, take_imad};
use faim_base::{CycleDate, Endpoint, Imad, NoMemory, OutPos, Places};
use indexmap::IndexMap;
use std::alloc::Global;
use std::hash::BuildHasherDefault;
use std::marker::Model;

/// What stands at which place of a host's list: its IMADs, and what each endpoint was given. Places count from 0.
#[derive(Drop)]
pub struct HostIndex {
    alloc: Global,
    posted: Imads,
    outputs: IndexMap<Slot, Sent>,
}

impl Model for HostIndex {
    ghost use Rattle.std.specs.Prelude.{map};
    ghost use Rattle.host_index.specs.Index.{Index};

    ghost Value = { Index };

    ghost use Rattle.host_index.specs.Tables.{posted_of, outputs_in, AreNumbered};

    ghost view = { λ i. record { posted = map posted_of i.posted.entries; outputs = outputs_in i.outputs.entries } };

    ghost invariant = { λ i. AreNumbered i.outputs.entries };
}

impl HostIndex {
    /// The empty index. It takes no memory.
    pub fn new(alloc: Global) -> HostIndex
        ensures { result ≡ record { posted = []; outputs = [] } }
    {
        HostIndex {
            alloc,
            posted: IndexMap::with_hasher(alloc, BuildHasherDefault::new()),
            outputs: IndexMap::new(alloc),
        }
    }

    /// Adds an entry that posts a message, and the output that it gives, if any: to whom and at which position. The IMAD
    /// isn't there yet, and the position is above all that the endpoint has. `NoMemory` leaves the index as it was.
    pub fn add_posted(
        &mut self,
        imad: Imad,
        to: Option<(Endpoint, OutPos)>,
        place: usize,
    ) -> Result<(), NoMemory>
        requires absent { place_of imad self.old.posted ≡ None }
        requires above { IsTrue (are_above place (option_to_list to) self.old.outputs) }
        ensures ok { OnOk result (self.new ≡ after_posting imad to place self.old) }
        ensures err { OnErr result (self.new ≡ self.old) }
    {
        self.posted.reserve(1)?;
        self.outputs.reserve(1)?;
        put_one(&mut self.outputs, to, place);
        put_imad(&mut self.posted, &imad, place);
        Ok(())
    }

    /// Adds an entry that ends a cycle, and the outputs that it gives: to whom and at which position, each above all that
    /// its endpoint has by then. `NoMemory` leaves the index as it was.
    pub fn add_roll(&mut self, ends: &[(Endpoint, OutPos)], place: usize) -> Result<(), NoMemory>
        requires above { IsTrue (are_above place ends.now self.old.outputs) }
        ensures ok { OnOk result (self.new ≡ after_roll ends.now place self.old) }
        ensures err { OnErr result (self.new ≡ self.old) }
    {
        self.outputs.reserve(ends.len())?;
        put_all(&mut self.outputs, ends, place);
        Ok(())
    }

    /// Takes the last addition back, which posted this IMAD and gave an output to this endpoint, or none.
    pub fn drop_posted(&mut self, imad: Imad, dest: Option<Endpoint>)
        requires { EndsInPosting imad dest self.old }
        ensures { self.new ≡ before_posting dest self.old }
    {
        take_imad(&mut self.posted);
        take_back(&mut self.outputs, usize::from(dest.is_some()));
    }

    /// Takes the last addition back, which ended a cycle and gave an output to each of these endpoints in this order.
    pub fn drop_roll(&mut self, dests: &[Endpoint])
        requires { EndsInRoll dests.now self.old }
        ensures { self.new ≡ before_roll dests.now self.old }
    {
        take_back(&mut self.outputs, dests.len());
    }

    /// The place of the entry that posts an IMAD. None exactly where it isn't there.
    pub fn find(&self, imad: &Imad) -> Option<usize>
        ensures { result ≡ place_of imad.now self.now.posted }
    {
        self.posted.get(&imad_key(imad)).copied()
    }

    /// How many outputs an endpoint has under a date.
    pub fn count(&self, dest: Endpoint, date: CycleDate) -> u32
        ensures { result ≡ length (filter (is_under date) (outputs_to dest self.now.outputs)) }
    {
        count_under(&self.outputs, &dest, date)
    }

    /// How many outputs an endpoint has over all dates.
    pub fn total(&self, dest: Endpoint) -> usize
        ensures { result ≡ length (outputs_to dest self.now.outputs) }
    {
        count_all(&self.outputs, &dest)
    }

    /// The places of an endpoint's outputs at a position or after it, in order, at most the first 64. `NoMemory` leaves
    /// nothing.
    pub fn from(&self, dest: Endpoint, at: OutPos) -> Result<Places, NoMemory>
        ensures { IfOk result (λ places. places ≡ places_of (retrieved dest at self.now.outputs)) }
    {
        places_from(self.alloc, &self.outputs, &dest, &at)
    }
}
