// A payload is written after the tail gate and made stable, and then the gate is opened.
ghost use Rattle.std.specs.Prelude.{◌≡◌, ◌-◌, ◌+◌, ◌<◌, ◌≤◌, ℕ, length, OnOk, OnErr, ◌↔◌};
ghost use Rattle.site_core.specs.Counts.{Rose, HasCause};
ghost use Rattle.site_core.specs.Told.{Goes, HasReason};
ghost use Rattle.site_core.specs.Told.Part.{Disk};
ghost use Rattle.torn_journal.specs.Append.{Secures, Adds, AppendCalls, Appends};
ghost use Rattle.torn_journal.specs.Journal.{IsFramed, payload_of};
ghost use Rattle.torn_journal.specs.Limits.{greatest_tail};

use crate::journal::OPEN_GATE;
use crate::limits::GREATEST_TAIL;
use crate::{AppendFault, Journal};
use faim_base::Failed;
use site_core::Site;

impl Journal {
    /// Adds a payload, which `frame_payload` framed, by four device calls (docs/FORMATS.md, "Journals"). After `Ok` each
    /// stop leaves it; before, a stop leaves the journal as it was or with the payload. It takes no memory.
    ///
    /// `SiteFault` comes after the device call that failed, and leaves the journal as it was or with the payload: it is
    /// resumed before it is used again. `JournalFull` comes exactly where the tail and the length of what is framed
    /// pass 1,073,741,824 together, and no device call was made then.
    pub fn append<S: Site>(&mut self, site: &mut S, framed: &[u8]) -> Result<(), AppendFault>
        requires { IsFramed framed.now }

        ensures moments { Goes (S.told site.old) (S.told site.new) (Appends result self.old self.new (payload_of framed.now)) }
        ensures calls { Goes (S.told site.old) (S.told site.new) (AppendCalls self.old framed.now result) }
        ensures full { (greatest_tail < self.old + length framed.now) ↔ (result ≡ Err (AppendFault.JournalFull self.old (length framed.now))) }
        ensures full_only { (tail need : ℕ) → result ≡ Err (AppendFault.JournalFull tail need) → (tail ≡ self.old) × (need ≡ length framed.now) }
        ensures untouched { greatest_tail < self.old + length framed.now → site.new ≡ site.old }
        ensures tail { OnOk result (self.new ≡ self.old + length framed.now) }
        ensures same { OnErr result (self.new ≡ self.old) }
        ensures later { S.disk_faults site.old ≤ S.disk_faults site.new }
        ensures kept { OnOk result (S.disk_faults site.new ≡ S.disk_faults site.old) }
        ensures cause { result ≡ Err AppendFault.SiteFault → Rose (S.disk_faults site.old) (S.disk_faults site.new) }
        ensures reason { result ≡ Err AppendFault.SiteFault → Goes (S.told site.old) (S.told site.new) (HasReason Disk) }
        ensures line { S.line_faults site.new ≡ S.line_faults site.old }
    {
        let need = framed.len() as u64;
        if need > GREATEST_TAIL - self.tail {
            return Err(AppendFault::JournalFull {
                tail: self.tail,
                need,
            });
        }
        add(site, self.tail, framed)?;
        self.tail += need;
        Ok(())
    }
}

// The record is stable before its gate is opened, so that no stop leaves an open gate over a part of it.
fn add<S: Site>(site: &mut S, tail: u64, framed: &[u8]) -> Result<(), Failed>
    requires { 1 ≤ tail }
    ensures told { Goes (S.told site.old) (S.told site.new) (Adds tail framed.now result) }
    ensures reason { OnErr result (Goes (S.told site.old) (S.told site.new) (HasReason Disk)) }
    ensures cause { HasCause (S.disk_faults site.old) (S.disk_faults site.new) result }
    ensures line { S.line_faults site.new ≡ S.line_faults site.old }
{
    secure(site, tail, framed)?;
    secure(site, tail - 1, &[OPEN_GATE])
}

pub(crate) fn secure<S: Site>(site: &mut S, at: u64, bytes: &[u8]) -> Result<(), Failed>
    ensures told { Goes (S.told site.old) (S.told site.new) (Secures at bytes.now result) }
    ensures reason { OnErr result (Goes (S.told site.old) (S.told site.new) (HasReason Disk)) }
    ensures cause { HasCause (S.disk_faults site.old) (S.disk_faults site.new) result }
    ensures line { S.line_faults site.new ≡ S.line_faults site.old }
{
    site.write_at(at, bytes)?;
    site.sync()
}
