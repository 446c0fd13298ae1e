// What is new of a message, and the verdict on it.
ghost use Rattle.std.specs.Prelude.{◌≡◌, Some, None, IsSome, not};
ghost use Rattle.std.specs.Option.{option_map, option_map_or};
ghost use Rattle.faim_model.specs.declared.decisions.Decision.TheVariants.{New, Known, Differs};
ghost use Rattle.host_ledger.specs.Accounts.{account_of};
ghost use Rattle.host_ledger.specs.Ledgers.{account_refusal};
ghost use Rattle.host_ledger.specs.Sums.{is_below_floor};
ghost use Rattle.faim_model.specs.Outputs.{count_under, outputs};
ghost use Rattle.faim_model.specs.Verdicts.{has_body, has_imad, judged_new, place_of};

use super::HostState;
use crate::verdict::{is_customer, is_past, refused};
use faim_base::{Aba, CycleDate, Endpoint, Head, Imad, Moment, Reject, Seq, Verdict};
use faim_model::Decision;
use host_ledger::Entry;

// The last number of a cycle that a message may have; the next one is kept for the end of the cycle.
const LAST_NUMBER: u32 = 999_998;

impl HostState {
    // The place of the entry that posts an identifier.
    pub(super) fn find(&self, imad: &Imad) -> Option<usize>
        ensures { result ≡ place_of (has_imad imad.now) self.now.entries }
    {
        self.index.find(imad)
    }

    // The decision on a message whose identifier the entry at a place posts.
    pub(super) fn known(&self, place: usize, imad: &Imad, body: &[u8]) -> Decision
        requires { place_of (has_imad imad.now) self.now.entries ≡ Some place }
        ensures { result ≡ option_map_or Known (place_of (has_body imad.now body.now) self.now.entries) (Differs place) }
    {
        if posts_body(&self.entries[place], imad, body) {
            Decision::Known(place)
        } else {
            Decision::Differs(place)
        }
    }

    // The first refusal that holds of a message that is new, or the next number of the receiver's endpoint.
    pub(super) fn verdict_on(
        &self,
        line: Endpoint,
        head: &Head,
        edit: Option<Reject>,
        moment: Moment,
    ) -> Verdict
        ensures { New result ≡ judged_new self.now.config self.now.entries line moment head.now edit }
    {
        let cycle = self.cycle();
        if head.imad.date != cycle {
            return refused(b'H', 101);
        }
        if let Some(why) = edit {
            return Verdict::Refused(why);
        }
        if let Some(why) = self.account_refusal(line, head) {
            return Verdict::Refused(why);
        }
        if is_customer(head) && is_past(cycle, self.config.customer, moment) {
            return refused(b'W', 301);
        }
        if !is_customer(head) && is_past(cycle, self.config.bank, moment) {
            return refused(b'W', 302);
        }
        if !self.covers(head) {
            return refused(b'F', 401);
        }
        let dest = self.endpoint(&head.receiver).unwrap();
        let sent = self.count(dest, cycle);
        if sent >= LAST_NUMBER {
            return refused(b'I', 501);
        }
        Verdict::Taken {
            dest,
            seq: Seq::new(sent + 1).unwrap(),
        }
    }

    // The refusal of a message from a line for its accounts.
    fn account_refusal(&self, line: Endpoint, head: &Head) -> Option<Reject>
        ensures refusal { result ≡ account_refusal self.now.config line head.now }
        ensures both { result ≡ None → IsSome (account_of self.now.config head.now.sender) × IsSome (account_of self.now.config head.now.receiver) }
    {
        self.ledger.check(line, head)
    }

    // Whether the sender's account covers the message.
    fn covers(&self, head: &Head) -> bool
        requires { IsSome (account_of self.now.config head.now.sender) }
        ensures { result ≡ not (is_below_floor self.now.config self.now.entries head.now) }
    {
        self.ledger.covers(head)
    }

    // The endpoint that serves an account.
    fn endpoint(&self, aba: &Aba) -> Option<Endpoint>
        ensures { result ≡ option_map (λ a. a.endpoint) (account_of self.now.config aba.now) }
    {
        self.ledger.endpoint(aba)
    }

    // How many outputs the endpoint has under a date.
    pub(super) fn count(&self, dest: Endpoint, date: CycleDate) -> u32
        ensures { result ≡ count_under date (outputs self.now.config self.now.entries dest) }
    {
        self.index.count(dest, date)
    }
}

// Whether an entry posts a message with this identifier and this body.
fn posts_body(entry: &Entry, imad: &Imad, text: &[u8]) -> bool
    ensures { result ≡ has_body imad.now text.now entry.now }
{
    match entry {
        Entry::Posted { head, body, .. } => head.imad == *imad && body.as_slice() == text,
        Entry::Roll { .. } => false,
    }
}
