// The table of outputs.
ghost use Rattle.std.specs.Prelude.{◌≡◌, ◌≤◌, ◌<◌, ◌+◌, ◌++◌, ◌∷◌, [], IsTrue, IfOk, length, filter};
ghost use Rattle.indexmap.specs.IndexMap.{spare};
ghost use Rattle.host_index.specs.Index.{is_above, are_above, outputs_at, outputs_to, is_under, retrieved, places_of, without_last};
ghost use Rattle.host_index.specs.Tables.{AreNumbered, outputs_in};

use crate::bisection::count_before;
use crate::keys::{Sent, Slot, numbered};
use crate::limits::Limit;
use faim_base::{CycleDate, Endpoint, NoMemory, OutPos, Places};
use indexmap::IndexMap;
use std::alloc::Global;

// How many outputs a retrieval gives at most.
const RETRIEVAL_LIMIT: usize = 64;

// Adds an output, for which there is room.
pub(crate) fn put(outputs: &mut IndexMap<Slot, Sent>, dest: &Endpoint, at: OutPos, place: usize)
    requires numbered { AreNumbered outputs.old.entries }
    requires above { IsTrue (is_above dest.now at (outputs_in outputs.old.entries)) }
    requires room { 0 < spare outputs.old }
    ensures numbered { AreNumbered outputs.new.entries }
    ensures outputs { outputs_in outputs.new.entries ≡ outputs_in outputs.old.entries ++ record { dest = dest.now; at = at; place = place } ∷ [] }
    ensures room { spare outputs.old ≤ spare outputs.new + 1 }
{
    // That numbers are in their range is what keeps the outputs of a date few.
    let _ = at.seq.get();
    let number = count_before(outputs, dest, &Limit::Never);
    outputs
        .insert(numbered(dest, number), Sent { at, place })
        .unwrap();
}

// Adds the outputs that one entry gives, for which there is room.
pub(crate) fn put_all(outputs: &mut IndexMap<Slot, Sent>, ends: &[(Endpoint, OutPos)], place: usize)
    requires numbered { AreNumbered outputs.old.entries }
    requires above { IsTrue (are_above place ends.now (outputs_in outputs.old.entries)) }
    requires room { length ends.now ≤ spare outputs.old }
    ensures numbered { AreNumbered outputs.new.entries }
    ensures outputs { outputs_in outputs.new.entries ≡ outputs_in outputs.old.entries ++ outputs_at place ends.now }
{
    for end in ends {
        put(outputs, &end.0, end.1, place);
    }
}

// Takes the last outputs out.
pub(crate) fn take_back(outputs: &mut IndexMap<Slot, Sent>, count: usize)
    requires { AreNumbered outputs.old.entries }
    ensures numbered { AreNumbered outputs.new.entries }
    ensures outputs { outputs_in outputs.new.entries ≡ without_last count (outputs_in outputs.old.entries) }
{
    let left = outputs.len().saturating_sub(count);
    outputs.truncate(left);
}

// How many outputs an endpoint has under a date.
#[tactic(auto, using(crate::proofs::Counted::under))]
pub(crate) fn count_under(outputs: &IndexMap<Slot, Sent>, dest: &Endpoint, date: CycleDate) -> u32
    requires { AreNumbered outputs.now.entries }
    ensures { result ≡ length (filter (is_under date) (outputs_to dest.now (outputs_in outputs.now.entries))) }
{
    let earlier = count_before(outputs, dest, &Limit::Date(date));
    let up_to = count_before(outputs, dest, &Limit::EndOf(date));
    let count = up_to - earlier;
    count as u32
}

// How many outputs an endpoint has.
pub(crate) fn count_all(outputs: &IndexMap<Slot, Sent>, dest: &Endpoint) -> usize
    requires { AreNumbered outputs.now.entries }
    ensures { result ≡ length (outputs_to dest.now (outputs_in outputs.now.entries)) }
{
    count_before(outputs, dest, &Limit::Never)
}

// The places of the first outputs of an endpoint at a position or after it.
pub(crate) fn places_from(
    alloc: Global,
    outputs: &IndexMap<Slot, Sent>,
    dest: &Endpoint,
    at: &OutPos,
) -> Result<Places, NoMemory>
    requires { AreNumbered outputs.now.entries }
    ensures { IfOk result (λ places. places ≡ places_of (retrieved dest.now at.now (outputs_in outputs.now.entries))) }
{
    let first = count_before(outputs, dest, &Limit::Position(*at));
    let mut places = Places::new(alloc);
    for step in 0..RETRIEVAL_LIMIT {
        match outputs.get(&numbered(dest, first + step)) {
            Some(sent) => places.push(sent.place)?,
            None => return Ok(places),
        }
    }
    Ok(places)
}
