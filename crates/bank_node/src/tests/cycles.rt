// Outputs are kept one after another, over cycles.
use super::{DRAFT, REPEATED, Told, has_outcome, has_sent, made, position, resumed};
use faim_base::OutPos;
use link_frames::FrameKind;
use site_core::{MemSite, StopSite};
use std::alloc::Global;
use std::test::Fail;

// The first output under 2024-01-02, a payment of the other bank, and the same given again and sent again.
pub(super) const OUTPUT: &[u8] =
    b"{1100}30T N{1110}01020930FAIM{1120}20240102BANKB00100000101020930FAIM{1500}30USERREQ1T {1510}1000{1520}20240102BANKA001000001{2000}000000150000{3100}021000021ALPHA BANK*{3400}121042882BETA BANK*{3600}BTR";

const GIVEN_AGAIN: &[u8] =
    b"{1100}30TRN{1110}01020930FAIM{1120}20240102BANKB00100000101020930FAIM{1500}30USERREQ1T {1510}1000{1520}20240102BANKA001000001{2000}000000150000{3100}021000021ALPHA BANK*{3400}121042882BETA BANK*{3600}BTR";

const SENT_AGAIN: &[u8] =
    b"{1100}30TPN{1110}01020930FAIM{1120}20240102BANKB00100000101020930FAIM{1500}30USERREQ1T {1510}1000{1520}20240102BANKA001000001{2000}000000150000{3100}021000021ALPHA BANK*{3400}121042882BETA BANK*{3600}BTR";

// The end of the cycle as the second output, with the next date.
const END: &[u8] =
    b"{1100}30T E{1110}01020930FAIM{1120}20240102BANKB00100000201020930FAIM{9000}NEXT 20240103*";

// The draft under the next cycle date.
const SUBMITTED_NEXT: &[u8] =
    b"\0\0\0\x8f\x01BANKB001{1500}30USERREQ1T {1510}1000{1520}20240103BANKB001000001{2000}000000150000{3100}021000021ALPHA BANK*{3400}121042882BETA BANK*{3600}BTR";

fn takes(alloc: Global, site: &mut MemSite, payload: &[u8], want: Told) -> Result<bool, Fail> {
    has_outcome(alloc, site, FrameKind::Output, payload, want)
}

// Whether the bank that the site has keeps so many outputs, the first of which has a blank as its mark, and wants this one.
fn keeps(alloc: Global, site: &mut MemSite, count: usize, wanted: OutPos) -> Result<bool, Fail> {
    let bank = resumed(alloc, site)?;
    let books = bank.books();
    let first = match books.received(0) {
        Some(text) => text == OUTPUT,
        None => count == 0,
    };
    Ok(first && books.inbox() == count && books.wanted() == wanted)
}

#[test]
fn outputs_are_kept_in_their_order_with_a_blank_mark(rt: HostRuntime) -> Result<(), Fail> {
    let alloc = rt.alloc();
    for first in [OUTPUT, GIVEN_AGAIN, SENT_AGAIN] {
        let mut site = made(alloc, b"BANKB001", 0)?;
        let one = position(8_767, 1)?;
        assert!(rt; takes(alloc, &mut site, END, (b'G', 8_767, 1))?);
        assert!(rt; has_sent(&site, 0, &[b"\0\0\0\x17\x02BANKB00120240102000001"]));
        assert!(rt; keeps(alloc, &mut site, 0, one)?);
        assert!(rt; takes(alloc, &mut site, first, (b'I', 8_767, 1))?);
        assert!(rt; keeps(alloc, &mut site, 1, position(8_767, 2)?)?);
        assert!(rt; takes(alloc, &mut site, first, REPEATED)?);
        assert!(rt; has_sent(&site, 1, &[]));
    }
    Ok(())
}

#[test]
fn after_the_end_of_a_cycle_drafts_and_outputs_begin_at_one(rt: HostRuntime) -> Result<(), Fail> {
    let alloc = rt.alloc();
    let mut site = made(alloc, b"BANKB001", 0)?;
    assert!(rt; takes(alloc, &mut site, OUTPUT, (b'I', 8_767, 1))?);
    assert!(rt; takes(alloc, &mut site, END, (b'I', 8_767, 2))?);
    assert!(rt; keeps(alloc, &mut site, 2, position(8_768, 1)?)?);
    assert!(rt; has_outcome(alloc, &mut site, FrameKind::Draft, DRAFT, (b'D', 8_768, 1))?);
    assert!(rt; has_sent(&site, 0, &[SUBMITTED_NEXT]));
    assert!(rt; takes(alloc, &mut site, END, REPEATED)?);
    Ok(())
}
