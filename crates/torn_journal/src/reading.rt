// What stands at a place of an image: a record, a tail gate, or neither.
ghost use Rattle.std.specs.Prelude.{◌≡◌, ◌<◌, ◌↔◌, ℕ, List, min, length, drop, take, is_ok, IsTrue, IfOk, IfErr, OnErr};
ghost use Rattle.site_core.specs.Counts.{HasCause};
ghost use Rattle.site_core.specs.Log.{reads};
ghost use Rattle.site_core.specs.Told.{Goes, HasReason};
ghost use Rattle.site_core.specs.Told.Part.{Disk};
ghost use Rattle.torn_journal.specs.Journal.{HasHeader, IsPayload, header};
ghost use Rattle.torn_journal.specs.Limits.{header_length, record_overhead, greatest_tail};
ghost use Rattle.torn_journal.specs.Reading.{Looks, HeadIs, NextIs, Holds, IsSized, IsReadFault};
ghost use Rattle.torn_journal.specs.Resume.{IsFaulty, no_fault};

use crate::ResumeFault;
use crate::journal::{HEADER, OPEN_GATE};
use crate::limits::{HEADER_LENGTH, LONGEST_PAYLOAD, RECORD_OVERHEAD};
use faim_base::Failed;
use site_core::Site;

/// What stands at a gate's place: a gate that isn't open, a payload of so many bytes, or neither.
#[derive(Clone, Copy, Debug, PartialEq, Eq)]
pub(crate) enum Next {
    Tail,
    Damage,
    Payload(usize),
}

pub(crate) fn has_header<S: Site>(site: &mut S) -> Result<bool, Failed>
    ensures told { Goes (S.told site.old) (S.told site.new) (λ old new. Looks (is_ok result) 1 old new × IfOk result (λ there. IsTrue there ↔ HasHeader (reads old.log))) }
    ensures reason { OnErr result (Goes (S.told site.old) (S.told site.new) (HasReason Disk)) }
    ensures cause { HasCause (S.disk_faults site.old) (S.disk_faults site.new) result }
    ensures line { S.line_faults site.new ≡ S.line_faults site.old }
{
    let mut head = [0; HEADER_LENGTH];
    let count = site.read_at(0, &mut head)?;
    Ok(is_header(&head, count))
}

fn is_header(head: &[u8; HEADER_LENGTH], count: usize) -> bool
    ensures { IsTrue result ↔ (count ≡ header_length) × (head.now ≡ header) }
{
    count == HEADER_LENGTH && *head == HEADER
}

pub(crate) fn next_at<S: Site>(
    site: &mut S,
    place: u64,
    buffer: &mut Vec<u8>,
) -> Result<Next, ResumeFault>
    requires { place < greatest_tail }
    ensures told { Goes (S.told site.old) (S.told site.new) (λ old new. Looks (no_fault result) 2 old new × IfOk result (NextIs (drop place (reads old.log)) buffer.new.items)) }
    ensures payload { IfOk result (λ next. (n : ℕ) → next ≡ Next.Payload n → IsPayload buffer.new.items) }
    ensures only { IfErr result IsReadFault }
    ensures faults { IsFaulty result (S.disk_faults site.old) (S.disk_faults site.new) }
    ensures reason { result ≡ Err ResumeFault.SiteFault → Goes (S.told site.old) (S.told site.new) (HasReason Disk) }
    ensures line { S.line_faults site.new ≡ S.line_faults site.old }
{
    let next = head_at(site, place)?;
    match next {
        Next::Payload(length) => {
            if payload_at(site, place + RECORD_OVERHEAD as u64, length, buffer)? {
                Ok(Next::Payload(length))
            } else {
                Ok(Next::Damage)
            }
        }
        Next::Tail => Ok(Next::Tail),
        Next::Damage => Ok(Next::Damage),
    }
}

fn head_at<S: Site>(site: &mut S, place: u64) -> Result<Next, Failed>
    ensures told { Goes (S.told site.old) (S.told site.new) (λ old new. Looks (is_ok result) 1 old new × IfOk result (HeadIs (drop place (reads old.log)))) }
    ensures sized { IfOk result IsSized }
    ensures reason { OnErr result (Goes (S.told site.old) (S.told site.new) (HasReason Disk)) }
    ensures cause { HasCause (S.disk_faults site.old) (S.disk_faults site.new) result }
    ensures line { S.line_faults site.new ≡ S.line_faults site.old }
{
    let mut head = [0; RECORD_OVERHEAD];
    let count = site.read_at(place, &mut head)?;
    Ok(judged(&head, count))
}

fn payload_at<S: Site>(
    site: &mut S,
    at: u64,
    count: usize,
    buffer: &mut Vec<u8>,
) -> Result<bool, ResumeFault>
    ensures told { Goes (S.told site.old) (S.told site.new) (λ old new. Looks (no_fault result) 1 old new × IfOk result (λ whole. Holds whole count buffer.new.items (drop at (reads old.log)))) }
    ensures long { IfOk result (λ _. length buffer.new.items ≡ count) }
    ensures only { IfErr result IsReadFault }
    ensures faults { IsFaulty result (S.disk_faults site.old) (S.disk_faults site.new) }
    ensures reason { result ≡ Err ResumeFault.SiteFault → Goes (S.told site.old) (S.told site.new) (HasReason Disk) }
    ensures line { S.line_faults site.new ≡ S.line_faults site.old }
{
    buffer.resize(count, 0)?;
    let whole = fill(site, at, buffer)?;
    Ok(whole)
}

fn fill<S: Site>(site: &mut S, at: u64, buffer: &mut [u8]) -> Result<bool, Failed>
    ensures told { Goes (S.told site.old) (S.told site.new) (λ old new. Looks (is_ok result) 1 old new × IfOk result (λ whole. Holds whole (length buffer.new) buffer.new (drop at (reads old.log)))) }
    ensures reason { OnErr result (Goes (S.told site.old) (S.told site.new) (HasReason Disk)) }
    ensures cause { HasCause (S.disk_faults site.old) (S.disk_faults site.new) result }
    ensures line { S.line_faults site.new ≡ S.line_faults site.old }
{
    let found = site.read_at(at, buffer)?;
    Ok(found >= buffer.len())
}

fn judged(head: &[u8], count: usize) -> Next
    requires { length head.now ≡ record_overhead }
    ensures head { (rest : List ℕ) → count ≡ min record_overhead (length rest) → take count head.now ≡ take count rest → HeadIs rest result }
    ensures sized { IsSized result }
{
    if count == 0 {
        return Next::Damage;
    }
    if head[0] != OPEN_GATE {
        return Next::Tail;
    }
    if count < RECORD_OVERHEAD {
        return Next::Damage;
    }
    let length = u32::from_be_bytes([head[1], head[2], head[3], head[4]]) as usize;
    if length == 0 || length > LONGEST_PAYLOAD {
        return Next::Damage;
    }
    Next::Payload(length)
}
