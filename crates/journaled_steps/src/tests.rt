// What no clause says of steps: one of a list of bytes, over a site in memory.
ghost use Rattle.std.specs.Prelude.{◌≡◌, ◌≤◌, ◌<◌, ◌∷◌, [], ℕ, IfSome, List, take, drop, slice_index};
ghost use Rattle.std.proofs.Common.{ap, le_refl};
ghost use Rattle.torn_journal.specs.Journal.{IsFramed, IsPayload};

use crate::{StepFault, room_for, send_step, store_step};
use faim_base::{Endpoint, NoMemory, Places};
use journaled_list::{Journaled, Kept, OpenFault, init, resume};
use link_frames::{Frame, FrameKind};
use site_core::{MemSite, Site, StopSite};
use std::alloc::Global;
use store_forward::Outbox;
use torn_journal::{GREATEST_TAIL, VisitFault, frame_payload};

/// Bytes, the newest first, of which none is sent again.
#[derive(Debug, Drop)]
struct Bytes {
    first: u8,
    entries: Vec<u8>,
}

impl Journaled for Bytes {
    type Reader = Global;

    ghost Opening = { ℕ };

    ghost Entry = { ℕ };

    ghost rules = { record {
      IsOpening = λ first. first < 256;
      opening_bytes = λ first. first ∷ [];
      entry_bytes = λ x. x ∷ [];
      MayFollow = λ first older x. x < 256;
    } };

    ghost list = { λ b. record { opening = b.first; entries = b.entries.items } };

    ghost again = { λ list last. [] };

    fn open(reader: &mut Global, opening: &[u8]) -> Result<Bytes, VisitFault> {
        if opening.len() != 1 {
            return Err(VisitFault::Bad);
        }
        Ok(Bytes {
            first: opening[0],
            entries: Vec::new(*reader),
        })
    }

    fn add(&mut self, _reader: &mut Global, bytes: &[u8]) -> Result<usize, VisitFault> {
        if bytes.is_empty() {
            return Err(VisitFault::Bad);
        }
        match self.entries.insert(0, bytes[0]) {
            Ok(()) => Ok(1),
            Err(_) => Err(VisitFault::NoMemory),
        }
    }

    fn send_again(&self, _last: usize, _outbox: &mut Outbox) -> Result<(), NoMemory> {
        Ok(())
    }

    ghost read_once = { record {
      one_opening = λ a b p q same. ap (λ l. slice_index l 0) same;
      one_entry = λ first older x y rest more p q same. (ap (λ l. slice_index l 0) same, ap (λ l. drop 1 l) same);
      some_bytes = λ first older x p. le_refl 1;
    } };
}

// The payload, framed.
fn framed(alloc: Global, payload: &[u8]) -> Option<Vec<u8>>
    requires { IsPayload payload.now }
    ensures { IfSome result (λ framed. IsFramed framed.items) }
{
    let mut framed = Vec::new(alloc);
    match frame_payload(payload, &mut framed) {
        Ok(()) => Some(framed),
        Err(_) => None,
    }
}

// One frame to a bank.
fn one_frame(alloc: Global) -> Option<Outbox> {
    let endpoint = Endpoint::read(b"BANKA001")?;
    let mut outbox = Outbox::new(alloc);
    outbox
        .push(&Frame::new(FrameKind::Ack, endpoint, b"ok"))
        .ok()?;
    Some(outbox)
}

// The list without entries, on an empty disk.
fn made(alloc: Global, site: &mut MemSite) -> Option<Kept<Bytes>> {
    let list = Bytes {
        first: 9,
        entries: Vec::new(alloc),
    };
    init(alloc, site, list, &[9]).ok()
}

// A step that adds this byte, and has this outcome.
fn step(
    alloc: Global,
    kept: &mut Kept<Bytes>,
    site: &mut MemSite,
    byte: u8,
    outcome: u8,
) -> Option<Result<u8, StepFault>> {
    let framed = framed(alloc, &[byte])?;
    let outbox = one_frame(alloc)?;
    match room_for(kept, &framed) {
        Ok(()) => {
            let mut reader = alloc;
            kept.list.add(&mut reader, &[byte]).ok()?;
            Some(store_step(kept, site, &framed, &outbox, outcome))
        }
        Err(fault) => Some(Err(fault)),
    }
}

// The bytes of the list that the site has.
fn read_again(alloc: Global, site: &mut MemSite) -> Option<(Vec<u8>, usize)> {
    let mut outbox = Outbox::new(alloc);
    let resumed: Result<Kept<Bytes>, OpenFault> = resume(alloc, alloc, site, &mut outbox);
    match resumed {
        Ok(kept) => {
            let Kept { list, last, .. } = kept;
            let Bytes { entries, .. } = list;
            Some((entries, last))
        }
        Err(_) => None,
    }
}

// Two steps that add, and one that sends alone.
fn grows(alloc: Global, site: &mut MemSite) -> Option<bool> {
    let mut kept = made(alloc, site)?;
    let first = step(alloc, &mut kept, site, 3, 70)?;
    let second = step(alloc, &mut kept, site, 5, 71)?;
    let alone = send_step(&kept, site, &one_frame(alloc)?, 72u8);
    let (all, last) = read_again(alloc, site)?;
    Some(
        first == Ok(70)
            && second == Ok(71)
            && alone == Ok(72)
            && all.as_slice() == [5, 3].as_slice()
            && last == 1
            && kept.last == 1
            && site.sent_count() == 3,
    )
}

#[test]
fn steps_are_stored_and_read_again(rt: HostRuntime) {
    let alloc = rt.alloc();
    let mut site = MemSite::new(alloc, Places::new(alloc));
    assert!(rt; grows(alloc, &mut site) == Some(true));
}

// A step with a stop at this call: its answer, how many entries the list has after a restart, and how many frames were sent.
fn stopped_at(alloc: Global, call: u64, tear: u64) -> Option<(Result<u8, StepFault>, usize, u64)> {
    let mut site = MemSite::new(alloc, Places::new(alloc));
    let mut kept = made(alloc, &mut site)?;
    if site.stopped() {
        return None;
    }
    site.arm(call, tear);
    let answer = step(alloc, &mut kept, &mut site, 3, 70)?;
    site.restart();
    let (all, _) = read_again(alloc, &mut site)?;
    Some((answer, all.len(), site.sent_count()))
}

#[test]
fn a_stop_keeps_the_entry_before_its_frame(rt: HostRuntime) {
    let alloc = rt.alloc();
    let site_fault = Err(StepFault::SiteFault);
    let line_fault = Err(StepFault::LineFault);
    for (call, tear, answer, entries, sent) in [
        (1, 255, site_fault, 0, 0),
        (2, 255, site_fault, 0, 0),
        (3, 165, site_fault, 1, 0),
        (4, 0, site_fault, 0, 0),
        (4, 1, site_fault, 1, 0),
        (5, 0, line_fault, 1, 0),
        (5, 1, line_fault, 1, 1),
        (6, 0, Ok(70), 1, 1),
    ] {
        let left = stopped_at(alloc, call, tear);
        assert!(rt; left == Some((answer, entries, sent)), "at {call}, {tear}");
    }
}
