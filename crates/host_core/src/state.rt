// The host's configuration and its list.
ghost use Rattle.std.specs.Prelude.{◌≡◌, ◌==◌, ◌∷◌, ◌-◌, [], length, drop, Some, None, IfOk, OnOk, OnErr, if◌then◌else◌, is_some};
ghost use Rattle.std.specs.Option.{option_copied};
ghost use Rattle.host_ledger.specs.Accounts.{account_of};
ghost use Rattle.host_ledger.specs.Soundness.{IsConfig};
ghost use Rattle.host_ledger.specs.Sums.{balance, cycle};
ghost use Rattle.faim_model.specs.Outputs.{outputs, retrieved, places_of};
ghost use Rattle.faim_model.specs.Items.{position_at};
ghost use Rattle.faim_model.specs.Verdicts.{judged};
ghost use Rattle.faim_model.specs.Lawful.{Follows, Lawful, moment_of};
ghost use Rattle.faim_model.specs.Turns.{effective, entry_at};
ghost use Rattle.host_core.specs.State.{roll_case};

mod changing;
mod judging;
mod places;

use crate::rolls::RollCase;
use faim_base::{
    Aba, CycleDate, Endpoint, Endpoints, Head, Moment, NoMemory, OutPos, Places, Reject,
};
use faim_model::Decision;
use host_index::HostIndex;
use host_ledger::{Config, Entry, Ledger, endpoints_of};
use places::position_by;
use std::alloc::Global;
use std::marker::Model;

/// A message as it is judged: its head; its body, which is its text with a blank as its mark; whether its mark was `P`;
/// and the first edit that it fails, where it fails one.
#[derive(Clone, Copy, Debug)]
pub struct Judged<'a> {
    pub head: Head,
    pub body: &'a [u8],
    pub resent: bool,
    pub edit: Option<Reject>,
}

/// What a host knows: its configuration and its list of entries. `new`, `push` and `retrieve` may want memory.
///
/// Beside the list stand the cycle date before each entry and after the last, the endpoints of the accounts, the running
/// balances and the index, so that no call searches the list.
#[derive(Drop)]
pub struct HostState {
    alloc: Global,
    config: Config,
    entries: Vec<Entry>,
    cycles: Vec<CycleDate>,
    endpoints: Endpoints,
    ledger: Ledger,
    index: HostIndex,
}

impl Model for HostState {
    ghost use Rattle.std.specs.Prelude.{reverse};
    ghost use Rattle.host_ledger.specs.Soundness.{IsConfig};
    ghost use Rattle.faim_model.specs.Lawful.{Lawful};
    ghost use Rattle.host_core.specs.Kept.{Kept};
    ghost use Rattle.host_core.specs.State.{State};

    ghost Value = { State };

    ghost view = { λ s. record { config = s.config; entries = reverse s.entries.items } };

    ghost invariant = { λ s. IsConfig s.config × Lawful s.config (reverse s.entries.items) × Kept s.config (reverse s.entries.items) s.ledger s.index s.cycles.items s.endpoints };
}

impl HostState {
    /// A host with a sound configuration (docs/FORMATS.md, "Configurations") and no entries yet. `NoMemory` leaves nothing.
    pub fn new(alloc: Global, config: Config) -> Result<HostState, NoMemory>
        requires { IsConfig config }
        ensures { IfOk result (λ s. s ≡ record { config = config; entries = [] }) }
    {
        let ledger = Ledger::new(alloc, &config)?;
        let endpoints = endpoints_of(alloc, config.accounts.as_slice())?;
        let mut cycles = Vec::new(alloc);
        cycles.push(config.date)?;
        Ok(HostState {
            alloc,
            config,
            entries: Vec::new(alloc),
            cycles,
            endpoints,
            ledger,
            index: HostIndex::new(alloc),
        })
    }

    /// The configuration. It is sound, and the entries are a lawful list under it (docs/MODEL.md, "Lists of entries").
    pub fn config(&self) -> &Config
        ensures value { result.now ≡ self.now.config }
        ensures sound { IsConfig self.now.config }
        ensures lawful { Lawful self.now.config self.now.entries }
    {
        &self.config
    }

    /// The effective moment: the later of the clock's reading and the last entry's moment (docs/FORMATS.md, "The order of
    /// verdicts").
    pub fn effective(&self, reading: Moment) -> Moment
        ensures { result ≡ effective self.now.entries reading }
    {
        match self.entries.as_slice().last() {
            Some(entry) if reading < moment_of(entry) => moment_of(entry),
            _ => reading,
        }
    }

    /// The decision on a message from a line at an effective moment (docs/FORMATS.md, "The order of verdicts"). It takes no
    /// memory and changes nothing.
    pub fn decide(&self, line: Endpoint, message: &Judged<'_>, moment: Moment) -> Decision
        ensures { result ≡ judged self.now.config self.now.entries line moment message.now.head message.now.body.now message.now.edit }
    {
        let head = &message.head;
        if head.imad.source != line {
            return Decision::WrongSource;
        }
        match self.find(&head.imad) {
            Some(place) => self.known(place, &head.imad, message.body),
            None => Decision::New(self.verdict_on(line, head, message.edit, moment)),
        }
    }

    /// What becomes of a Roll to a date: `NotLater` exactly where the date is at or before the present cycle date
    /// (docs/FORMATS.md, "The order of verdicts"). It takes no memory and changes nothing.
    pub fn roll_case(&self, date: CycleDate) -> RollCase
        ensures { result ≡ roll_case self.now.config self.now.entries date }
    {
        let current = self.cycle();
        if date <= current {
            RollCase::NotLater { current }
        } else {
            RollCase::Later
        }
    }

    /// Appends an entry that may come next. At `NoMemory` everything is as it was.
    pub fn push(&mut self, entry: Entry) -> Result<(), NoMemory>
        requires { Follows self.old.config self.old.entries entry }
        ensures ok { OnOk result (self.new ≡ record { config = self.old.config; entries = entry ∷ self.old.entries }) }
        ensures err { OnErr result (self.new ≡ self.old) }
    {
        match entry {
            Entry::Posted {
                head,
                body,
                resent,
                moment,
                verdict,
            } => self.post(head, body, resent, moment, verdict),
            Entry::Roll { moment, date } => self.roll(moment, date),
        }
    }

    /// Takes the entries back from the last one on, until no more than so many are left: the first ones. It takes no memory.
    pub fn cut(&mut self, len: usize)
        ensures { self.new ≡ record { config = self.old.config; entries = drop (length self.old.entries - len) self.old.entries } }
    {
        while len < self.len() {
            self.take_back();
        }
    }

    /// The present cycle date: the date of the last `Roll`, or the opening date.
    pub fn cycle(&self) -> CycleDate
        ensures { result ≡ cycle self.now.config self.now.entries }
    {
        let cycles = self.cycles.as_slice();
        cycles[self.entries.as_slice().len()]
    }

    /// How many entries there are.
    pub fn len(&self) -> usize
        ensures { result ≡ length self.now.entries }
    {
        self.entries.as_slice().len()
    }

    /// Whether there are no entries.
    pub fn is_empty(&self) -> bool
        ensures { result ≡ (length self.now.entries == 0) }
    {
        self.entries.as_slice().is_empty()
    }

    /// The entry at a place, counted from 0 at the oldest. None exactly where the place isn't below the length.
    #[tactic(auto, using(crate::proofs::Places::entry_found, crate::proofs::Places::entry_missing))]
    pub fn entry(&self, place: usize) -> Option<&Entry>
        ensures { option_copied result ≡ entry_at self.now.entries place }
    {
        let entries = self.entries.as_slice();
        if place < entries.len() {
            Some(&entries[place])
        } else {
            None
        }
    }

    /// The balance of an account in cents: its opening, plus what accepted messages moved in, minus what they moved out.
    /// None exactly where no account has that number.
    pub fn balance(&self, aba: &Aba) -> Option<i128>
        ensures { result ≡ (if is_some (account_of self.now.config aba.now) then Some (balance self.now.config self.now.entries aba.now) else None) }
    {
        self.ledger.balance(aba)
    }

    /// How many outputs the endpoint has, over all cycles.
    pub fn outputs(&self, dest: Endpoint) -> usize
        ensures { result ≡ length (outputs self.now.config self.now.entries dest) }
    {
        self.index.total(dest)
    }

    /// The position of the output that the entry at a place gives the endpoint. None exactly where it gives the endpoint
    /// none. It takes no memory and changes nothing.
    #[tactic(auto, using(crate::proofs::CycleEnds::message_at, crate::proofs::CycleEnds::nothing_there))]
    pub fn position(&self, dest: Endpoint, place: usize) -> Option<OutPos>
        ensures { result ≡ position_at self.now.config self.now.entries dest place }
    {
        match self.entry(place) {
            Some(Entry::Posted { head, verdict, .. }) => position_by(head, verdict, dest),
            Some(Entry::Roll { .. }) => self.end_at(dest, place),
            None => None,
        }
    }

    /// The places of the entries that give the endpoint its outputs at a position or after it, in order, at most the first
    /// 64 (docs/FORMATS.md, "The order of verdicts"). `NoMemory` changes nothing.
    pub fn retrieve(&self, dest: Endpoint, at: OutPos) -> Result<Places, NoMemory>
        ensures { IfOk result (λ places. places ≡ places_of (retrieved self.now.config self.now.entries dest at)) }
    {
        self.index.from(dest, at)
    }
}

fn moment_of(entry: &Entry) -> Moment
    ensures { result ≡ moment_of entry.now }
{
    match entry {
        Entry::Posted { moment, .. } | Entry::Roll { moment, .. } => *moment,
    }
}
