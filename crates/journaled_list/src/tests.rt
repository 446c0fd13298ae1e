// What no clause says of lists in journals: one of bytes that rise, over a site in memory.
ghost use Rattle.std.specs.Prelude.{◌≡◌, ◌≤◌, ◌<◌, ◌∷◌, [], ℕ, IfSome, codes, min, take, drop, slice_index};
ghost use Rattle.std.proofs.Common.{ap, le_refl};
ghost use Rattle.link_frames.specs.Frames.{frame_bytes};
ghost use Rattle.link_frames.specs.declared.frame.FrameKind.TheVariants.{Output};
ghost use Rattle.torn_journal.specs.Journal.{IsFramed, IsPayload};

use crate::{Journaled, Kept, OpenFault, init, resume};
use faim_base::{Endpoint, NoMemory, Places};
use link_frames::{Frame, FrameKind};
use site_core::{MemSite, Site, StopSite};
use std::alloc::Global;
use store_forward::Outbox;
use torn_journal::{VisitFault, create, frame_payload};

const ENDPOINT: [u8; 8] = *b"BANKA001";

/// Bytes that rise, none above the limit that its opening tells. The newest is the first.
#[derive(Debug, Drop)]
struct Rising {
    limit: u8,
    entries: Vec<u8>,
}

impl Journaled for Rising {
    type Reader = Global;

    ghost Opening = { ℕ };

    ghost Entry = { ℕ };

    ghost rules = { record {
      IsOpening = λ limit. limit < 256;
      opening_bytes = λ limit. limit ∷ [];
      entry_bytes = λ x. x ∷ [];
      MayFollow = λ limit older x. (slice_index older 0 < x) × (x ≤ limit);
    } };

    ghost list = { λ r. record { opening = r.limit; entries = r.entries.items } };

    ghost again = { λ list last. frame_bytes (record { kind = Output; endpoint = codes "BANKA001"; payload = take (min last 8) list.entries }) ∷ [] };

    fn open(reader: &mut Global, opening: &[u8]) -> Result<Rising, VisitFault> {
        if opening.len() != 1 {
            return Err(VisitFault::Bad);
        }
        Ok(Rising {
            limit: opening[0],
            entries: Vec::new(*reader),
        })
    }

    fn add(&mut self, _reader: &mut Global, bytes: &[u8]) -> Result<usize, VisitFault> {
        if bytes.is_empty() {
            return Err(VisitFault::Bad);
        }
        let newest = if self.entries.is_empty() {
            0
        } else {
            self.entries[0]
        };
        if bytes[0] <= newest || self.limit < bytes[0] {
            return Err(VisitFault::Bad);
        }
        match self.entries.insert(0, bytes[0]) {
            Ok(()) => Ok(1),
            Err(_) => Err(VisitFault::NoMemory),
        }
    }

    fn send_again(&self, last: usize, outbox: &mut Outbox) -> Result<(), NoMemory> {
        let endpoint = match Endpoint::read(&ENDPOINT) {
            Some(endpoint) => endpoint,
            None => unreachable!(),
        };
        let newest = &self.entries[..last.min(8)];
        outbox.push(&Frame::new(FrameKind::Output, endpoint, newest))
    }

    ghost read_once = { record {
      one_opening = λ a b p q same. ap (λ l. slice_index l 0) same;
      one_entry = λ limit older x y rest more p q same. (ap (λ l. slice_index l 0) same, ap (λ l. drop 1 l) same);
      some_bytes = λ limit older x p. le_refl 1;
    } };
}

// The payload, framed.
fn framed(alloc: Global, payload: &[u8]) -> Option<Vec<u8>>
    requires { IsPayload payload.now }
    ensures { IfSome result (λ framed. IsFramed framed.items) }
{
    let mut framed = Vec::new(alloc);
    match frame_payload(payload, &mut framed) {
        Ok(()) => Some(framed),
        Err(_) => None,
    }
}

// The list of a limit of 9, on an empty disk.
fn made(alloc: Global, site: &mut MemSite) -> Option<Kept<Rising>> {
    let list = Rising {
        limit: 9,
        entries: Vec::new(alloc),
    };
    init(alloc, site, list, &[9]).ok()
}

// Adds two bytes as one group, and sends nothing.
fn store(alloc: Global, kept: &mut Kept<Rising>, site: &mut MemSite, pair: [u8; 2]) -> Option<()> {
    let mut reader = alloc;
    kept.list.add(&mut reader, &pair[..1]).ok()?;
    kept.list.add(&mut reader, &pair[1..]).ok()?;
    let framed = framed(alloc, &pair)?;
    kept.store(site, 2, &framed, &Outbox::new(alloc)).ok()
}

// The bytes of the list that the site has, the newest first, and how many of them its last record has.
fn read_again(alloc: Global, site: &mut MemSite) -> Result<(Vec<u8>, usize), OpenFault> {
    let mut outbox = Outbox::new(alloc);
    let resumed: Result<Kept<Rising>, OpenFault> = resume(alloc, alloc, site, &mut outbox);
    match resumed {
        Ok(kept) => {
            let Kept { list, last, .. } = kept;
            let Rising { entries, .. } = list;
            Ok((entries, last))
        }
        Err(fault) => Err(fault),
    }
}

fn is_sent(site: &MemSite, number: u64, bytes: &[u8]) -> bool {
    match site.sent(number) {
        Some(frame) => frame == bytes,
        None => false,
    }
}

// Two groups are stored and read again, each time with a frame of the last.
fn grows(alloc: Global, site: &mut MemSite) -> Option<bool> {
    let mut kept = made(alloc, site)?;
    let (none, nothing) = read_again(alloc, site).ok()?;
    store(alloc, &mut kept, site, [1, 2])?;
    store(alloc, &mut kept, site, [5, 9])?;
    let (all, last) = read_again(alloc, site).ok()?;
    Some(
        none.is_empty()
            && nothing == 0
            && all.as_slice() == [9, 5, 2, 1].as_slice()
            && last == 2
            && kept.last == 2
            && kept.journal.tail() == 37
            && is_sent(site, 1, b"\0\0\0\x09\x04BANKA001")
            && is_sent(site, 2, b"\0\0\0\x0b\x04BANKA001\x09\x05")
            && site.sent_count() == 2,
    )
}

#[test]
fn a_list_is_read_as_it_was_stored(rt: HostRuntime) {
    let alloc = rt.alloc();
    let mut site = MemSite::new(alloc, Places::new(alloc));
    assert!(rt; grows(alloc, &mut site) == Some(true));
}

// What a journal of these payloads is read as: how many entries, or the fault.
fn read_of(alloc: Global, opening: &[u8], payload: &[u8]) -> Option<Result<usize, OpenFault>>
    requires opening { IsPayload opening.now }
    requires payload { IsPayload payload.now }
{
    let mut site = MemSite::new(alloc, Places::new(alloc));
    let mut journal = create(alloc, &mut site, opening).ok()?;
    let framed = framed(alloc, payload)?;
    journal.append(&mut site, &framed).ok()?;
    match read_again(alloc, &mut site) {
        Ok((entries, _)) => Some(Ok(entries.len())),
        Err(fault) => Some(Err(fault)),
    }
}

#[test]
fn what_may_not_come_is_damage_at_its_gate(rt: HostRuntime) {
    let alloc = rt.alloc();
    let at_second = Err(OpenFault::Damaged { place: 22 });
    for (opening, payload, answer) in [
        ([9], [1, 2], Ok(2)),
        ([9], [1, 9], Ok(2)),
        ([9], [1, 10], at_second),
        ([9], [0, 1], at_second),
        ([9], [2, 2], at_second),
        ([9], [2, 1], at_second),
        ([0], [1, 2], at_second),
    ] {
        assert!(rt; read_of(alloc, &opening, &payload) == Some(answer));
    }
    let at_first = Err(OpenFault::Damaged { place: 16 });
    assert!(rt; read_of(alloc, &[9, 9], &[1, 2]) == Some(at_first));
}

#[test]
fn an_empty_disk_has_no_list(rt: HostRuntime) {
    let alloc = rt.alloc();
    let mut site = MemSite::new(alloc, Places::new(alloc));
    assert!(rt; read_again(alloc, &mut site).err() == Some(OpenFault::NoHeader));
    assert!(rt; site.sent_count() == 0);
}
