// Entries that are appended and taken back.
ghost use Rattle.std.specs.Prelude.{◌≡◌, ◌+◌, ◌∷◌, ◌<◌, ◌≤◌, length, drop, IfOk, OnOk, OnErr};
ghost use Rattle.host_ledger.specs.declared.entries.Entry.TheVariants.{Posted, Roll};
ghost use Rattle.host_ledger.specs.Sums.{cycle};
ghost use Rattle.faim_model.specs.Lawful.{PostFollows, RollFollows};
ghost use Rattle.faim_model.specs.Outputs.{sent_in_cycle};
ghost use Rattle.host_core.specs.Kept.{dest_by, ends_after, output_by};

use super::HostState;
use super::places::numbered;
use faim_base::{Bytes, CycleDate, Endpoint, Head, Moment, NoMemory, OutPos, Verdict};
use faim_model::cycles_have_a_number_left;
use host_ledger::{Entry, rolls_leave_ledgers};

impl HostState {
    // Appends a message with its verdict: all growth comes before the first change.
    pub(super) fn post(
        &mut self,
        head: Head,
        body: Bytes,
        resent: bool,
        moment: Moment,
        verdict: Verdict,
    ) -> Result<(), NoMemory>
        requires { PostFollows self.old.config self.old.entries head body resent moment verdict }
        ensures ok { OnOk result (self.new ≡ record { config = self.old.config; entries = Posted head body resent moment verdict ∷ self.old.entries }) }
        ensures err { OnErr result (self.new ≡ self.old) }
    {
        let cycle = self.cycle();
        let place = self.len();
        self.entries.reserve(1)?;
        self.cycles.reserve(1)?;
        self.index
            .add_posted(head.imad, output_by(&head, &verdict), place)?;
        self.ledger.apply(&head, &verdict);
        self.cycles.push(cycle).unwrap();
        let entry = Entry::Posted {
            head,
            body,
            resent,
            moment,
            verdict,
        };
        self.entries.push(entry).unwrap();
        Ok(())
    }

    // Ends the cycle of each endpoint and begins that of a date: all growth comes before the first change.
    pub(super) fn roll(&mut self, moment: Moment, date: CycleDate) -> Result<(), NoMemory>
        requires { RollFollows self.old.config self.old.entries moment date }
        ensures ok { OnOk result (self.new ≡ record { config = self.old.config; entries = Roll moment date ∷ self.old.entries }) }
        ensures err { OnErr result (self.new ≡ self.old) }
    {
        rolls_leave_ledgers();
        let place = self.len();
        let ends = self.ends()?;
        self.entries.reserve(1)?;
        self.cycles.reserve(1)?;
        self.index.add_roll(ends.as_slice(), place)?;
        self.cycles.push(date).unwrap();
        self.entries.push(Entry::Roll { moment, date }).unwrap();
        Ok(())
    }

    // The ends of the present cycle, one for each endpoint.
    fn ends(&self) -> Result<Vec<(Endpoint, OutPos)>, NoMemory>
        ensures { IfOk result (λ ends. ends.items ≡ ends_after self.now.config self.now.entries) }
    {
        cycles_have_a_number_left();
        let mut ends = Vec::new(self.alloc);
        for dest in self.endpoints.as_slice() {
            ends.push((*dest, self.next_end(*dest)))?;
        }
        Ok(ends)
    }

    // The end of the present cycle at an endpoint.
    fn next_end(&self, dest: Endpoint) -> OutPos
        requires { sent_in_cycle self.now.config self.now.entries dest ≤ 999_998 }
        ensures { result ≡ record { date = cycle self.now.config self.now.entries; seq = sent_in_cycle self.now.config self.now.entries dest + 1 } }
    {
        let date = self.cycle();
        OutPos {
            date,
            seq: numbered(self.count(dest, date) + 1),
        }
    }

    // Takes the last entry back.
    pub(super) fn take_back(&mut self)
        requires { 0 < length self.old.entries }
        ensures { self.new ≡ record { config = self.old.config; entries = drop 1 self.old.entries } }
    {
        let entry = self.entries.pop().unwrap();
        self.cycles.truncate(self.entries.as_slice().len() + 1);
        match &entry {
            Entry::Posted { head, verdict, .. } => {
                self.ledger.undo(head, verdict);
                self.index.drop_posted(head.imad, dest_by(verdict));
            }
            Entry::Roll { .. } => self.index.drop_roll(self.endpoints.as_slice()),
        }
    }
}

// The output that a message with this verdict gives, if any.
fn output_by(head: &Head, verdict: &Verdict) -> Option<(Endpoint, OutPos)>
    ensures { result ≡ output_by head.now verdict.now }
{
    match verdict {
        Verdict::Taken { dest, seq } => Some((
            *dest,
            OutPos {
                date: head.imad.date,
                seq: *seq,
            },
        )),
        Verdict::Refused(_) => None,
    }
}

// The endpoint that a message with this verdict goes to, if any.
fn dest_by(verdict: &Verdict) -> Option<Endpoint>
    ensures { result ≡ dest_by verdict.now }
{
    match verdict {
        Verdict::Taken { dest, .. } => Some(*dest),
        Verdict::Refused(_) => None,
    }
}
