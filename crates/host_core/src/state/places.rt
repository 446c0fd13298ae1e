// The positions of what entries give.
ghost use Rattle.std.specs.Prelude.{◌≡◌, Some, ℕ, bytes_eq};
ghost use Rattle.std.specs.List.{list_any};
ghost use Rattle.faim_base.specs.Numbers.{IsSeq};
ghost use Rattle.host_ledger.specs.Accounts.{has_endpoint};
ghost use Rattle.host_ledger.specs.declared.entries.Entry.TheVariants.{Roll};
ghost use Rattle.faim_model.specs.Items.{position_at};
ghost use Rattle.faim_model.specs.Turns.{entry_at};
ghost use Rattle.host_core.specs.Kept.{position_by};

use super::HostState;
use faim_base::{Endpoint, Head, OutPos, Seq, Verdict};

impl HostState {
    // The position of the end of a cycle that the Roll at a place gives the endpoint: its number counts all that the
    // endpoint has under the date that ended.
    pub(super) fn end_at(&self, dest: Endpoint, place: usize) -> Option<OutPos>
        requires { (moment : ℕ) × (date : ℕ) × (entry_at self.now.entries place ≡ Some (Roll moment date)) }
        ensures { result ≡ position_at self.now.config self.now.entries dest place }
    {
        if !self.serves(&dest) {
            return None;
        }
        let date = self.cycles[place];
        Some(OutPos {
            date,
            seq: numbered(self.count(dest, date)),
        })
    }

    // Whether some account is served at the endpoint.
    fn serves(&self, dest: &Endpoint) -> bool
        ensures { result ≡ has_endpoint self.now.config.accounts dest.now }
    {
        is_among(self.endpoints.as_slice(), dest)
    }
}

// A number that a position may have.
pub(super) fn numbered(number: u32) -> Seq
    requires { IsSeq number }
    ensures { result ≡ number }
{
    Seq::new(number).unwrap()
}

fn is_among(endpoints: &[Endpoint], dest: &Endpoint) -> bool
    ensures { result ≡ list_any (λ e. bytes_eq e dest.now) endpoints.now }
{
    endpoints.iter().any(|endpoint| *endpoint == *dest)
}

// The position of what a message with this verdict gives the endpoint.
pub(super) fn position_by(head: &Head, verdict: &Verdict, dest: Endpoint) -> Option<OutPos>
    ensures { result ≡ position_by head.now verdict.now dest }
{
    match verdict {
        Verdict::Taken { dest: to, seq } if *to == dest => Some(OutPos {
            date: head.imad.date,
            seq: *seq,
        }),
        _ => None,
    }
}
