// How many outputs of an endpoint stand before a limit. They stand first, since positions are in order.
ghost use Rattle.std.specs.Prelude.{◌≡◌, ◌<◌, ◌^◌, nat_lt, length};
ghost use Rattle.host_index.specs.Limits.{count_before};
ghost use Rattle.host_index.specs.Tables.{AreNumbered, outputs_in};

use crate::keys::{Sent, Slot, numbered};
use crate::limits::{Limit, is_within};
use faim_base::Endpoint;
use indexmap::IndexMap;

// Whether the endpoint's output of this number is there and stands before the limit.
fn reaches(outputs: &IndexMap<Slot, Sent>, dest: &Endpoint, number: usize, limit: &Limit) -> bool
    requires { AreNumbered outputs.now.entries }
    ensures { result ≡ nat_lt number (count_before limit.now dest.now (outputs_in outputs.now.entries)) }
{
    match outputs.get(&numbered(dest, number)) {
        Some(sent) => is_within(limit, &sent.at),
        None => false,
    }
}

pub(crate) fn count_before(outputs: &IndexMap<Slot, Sent>, dest: &Endpoint, limit: &Limit) -> usize
    requires { AreNumbered outputs.now.entries }
    ensures count { result ≡ count_before limit.now dest.now (outputs_in outputs.now.entries) }
    ensures small { result < 2 ^ 63 }
{
    let mut low = 0;
    let mut high = outputs.len();
    while low < high {
        let middle = low + (high - low) / 2;
        if reaches(outputs, dest, middle, limit) {
            low = middle + 1;
        } else {
            high = middle;
        }
    }
    low
}
