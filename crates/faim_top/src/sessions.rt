// A session of the host or of the bank that a journal keeps (docs/FORMATS.md, "Commands").
ghost use Rattle.std.specs.Prelude.{◌≡◌, ◌≢◌, ◌+◌, List, ℕ, Option, IfSome};
ghost use Rattle.framed_input.specs.Limits.{greatest_input};
ghost use Rattle.bank_session.specs.BankKind.{bank_kind};
ghost use Rattle.host_session.specs.HostKind.{host_kind};
ghost use Rattle.faim_top.specs.Accords.{StaysInAccord};
ghost use Rattle.faim_top.specs.Seen.{CountsFaults, LosesAtMost, Seen, seen};
ghost use Rattle.faim_top.specs.Sessions.{SessionEnded, status_by};

use crate::{Reason, Status};
use bank_session::sessions_keep_accord;
use line_sessions::SessionEnd;
use site_core::{Clock, Site, Source};
use std::alloc::Global;

// Resumes the host that a site keeps, and handles the frames of a source.
pub(crate) fn serve_host<I: Source, S: Site, C: Clock>(
    alloc: Global,
    input: &mut I,
    site: &mut S,
    clock: &mut C,
) -> Status
    ensures ended { (written : Seen (Option (List ℕ))) → SessionEnded host_kind result (record { left = seen I.left input.old input.new; written = written; site = seen S.told site.old site.new; given = seen C.given clock.old clock.new }) }
    ensures few { LosesAtMost (greatest_input + 1) (seen I.left input.old input.new) }
    ensures input_faults { CountsFaults (result ≡ Status.ReadFault) (seen I.read_faults input.old input.new) }
    ensures disk_faults { CountsFaults (result ≡ Status.DiskFault) (seen S.disk_faults site.old site.new) }
    ensures line_faults { CountsFaults (result ≡ Status.LineFault) (seen S.line_faults site.old site.new) }
    ensures clock_faults { CountsFaults (result ≡ Status.ClockFault) (seen C.clock_faults clock.old clock.new) }
{
    match host_session::serve(alloc, input, site, clock) {
        Ok(()) => Status::Done,
        Err(end) => status_by(end),
    }
}

// Resumes the bank that a site keeps, and handles the frames of a source. It reads no clock.
pub(crate) fn serve_bank<I: Source, S: Site>(alloc: Global, input: &mut I, site: &mut S) -> Status
    ensures ended { (written : Seen (Option (List ℕ))) (given : Option (List ℕ)) → SessionEnded bank_kind result (record { left = seen I.left input.old input.new; written = written; site = seen S.told site.old site.new; given = record { before = given; after = given } }) }
    ensures accord { IfSome (I.left input.old) (λ whole. StaysInAccord whole (S.told site.old) (S.told site.new)) }
    ensures few { LosesAtMost (greatest_input + 1) (seen I.left input.old input.new) }
    ensures timeless { result ≢ Status.ClockFault }
    ensures input_faults { CountsFaults (result ≡ Status.ReadFault) (seen I.read_faults input.old input.new) }
    ensures disk_faults { CountsFaults (result ≡ Status.DiskFault) (seen S.disk_faults site.old site.new) }
    ensures line_faults { CountsFaults (result ≡ Status.LineFault) (seen S.line_faults site.old site.new) }
{
    sessions_keep_accord();
    match bank_session::serve(alloc, input, site) {
        Ok(()) => Status::Done,
        Err(end) => status_by(end),
    }
}

// The status that tells how a session ends.
fn status_by(end: SessionEnd) -> Status
    ensures { result ≡ status_by end }
{
    match end {
        SessionEnd::ReadFault => Status::ReadFault,
        SessionEnd::Frame(fault) => Status::Refused(Reason::Frame(fault)),
        SessionEnd::TooLong => Status::Refused(Reason::TooLong),
        SessionEnd::ClockFault => Status::ClockFault,
        SessionEnd::DiskFault => Status::DiskFault,
        SessionEnd::LineFault => Status::LineFault,
        SessionEnd::NoJournal => Status::NoJournal,
        SessionEnd::Damaged { place } => Status::Damaged { place },
        SessionEnd::JournalFull { tail, need } => Status::JournalFull { tail, need },
        SessionEnd::NoMemory => Status::NoMemory,
    }
}
