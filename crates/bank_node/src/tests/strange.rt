// Frames that a bank takes nothing from.
use super::cycles::OUTPUT;
use super::drafts::{drafts, has_size};
use super::{
    DRAFT, NUMBERED, STRANGE, TAKEN, answers_on, bank, has_outcome, has_sent, made, resumed,
};
use link_frames::FrameKind;
use site_core::{MemSite, StopSite};
use std::alloc::Global;
use std::test::Fail;

// Whether a bank with its first draft finds this frame strange, and keeps and sends nothing for it.
fn is_strange(
    alloc: Global,
    site: &mut MemSite,
    kind: FrameKind,
    payload: &[u8],
) -> Result<bool, Fail> {
    let strange = has_outcome(alloc, site, kind, payload, STRANGE)?;
    Ok(strange && has_sent(site, 1, &[]) && has_size(site, 186))
}

#[test]
fn other_kinds_and_lines_are_strange(rt: HostRuntime) -> Result<(), Fail> {
    let alloc = rt.alloc();
    let mut site = made(alloc, b"BANKA001", 0)?;
    assert!(rt; drafts(alloc, &mut site)?);
    for (kind, payload) in [
        (FrameKind::Submit, NUMBERED),
        (FrameKind::Retrieve, &b"20240102000001"[..]),
        (FrameKind::Roll, &b"20240103"[..]),
    ] {
        assert!(rt; is_strange(alloc, &mut site, kind, payload)?);
    }
    for (kind, payload) in [
        (FrameKind::Draft, DRAFT),
        (FrameKind::Tick, &b""[..]),
        (FrameKind::Ack, TAKEN),
        (FrameKind::Output, OUTPUT),
    ] {
        assert!(rt; is_strange_on(alloc, &mut site, kind, payload)?);
    }
    Ok(())
}

// Whether a frame on another bank's line is strange.
fn is_strange_on(
    alloc: Global,
    site: &mut MemSite,
    kind: FrameKind,
    payload: &[u8],
) -> Result<bool, Fail> {
    let mut node = resumed(alloc, site)?;
    match answers_on(&mut node, site, bank(b"BANKB001")?, kind, payload)? {
        Ok(outcome) => Ok(outcome == STRANGE && has_sent(site, 1, &[])),
        Err(_) => Ok(false),
    }
}

#[test]
fn other_acknowledgements_are_strange(rt: HostRuntime) -> Result<(), Fail> {
    let alloc = rt.alloc();
    let texts: [&[u8]; 11] = [
        b"",
        OUTPUT,
        b"{1100}30P 2{1110}01020930FAIM{1120}20240102BANKB00100000101020930FAIM{1520}20240102BANKA001000001",
        b"{1100}30T 2{1110}01020930FAIM{1120}20240102BANKB00100000101020930FAIM",
        b"{1100}30T 2{1110}01020930FAIM{1120}20240102BANKB00100000101020930FAIM{1520}20240102BANKA001000000",
        b"{1100}30T 2{1110}01020930FAIM{1120}20240102BANKB00100000101020930FAIM{1520}20240102BANKB001000001",
        b"{1100}30T 2{1110}01020930FAIM{1520}20240102BANKA001000001",
        b"{1100}30T 2{1110}01020930FAIM{1120}20240102BANKB00100000101020930FAIM{1130}E161NO*{1520}20240102BANKA001000001",
        b"{1100}30T 2{1110}01020930FAIM{1120}20240103BANKB00100000101020930FAIM{1520}20240102BANKA001000001",
        b"{1100}30T 3{1110}01020930FAIM{1130}X201NO*{1520}20240102BANKA001000001",
        b"{1100}30T 2{1110}01020930FAIM{1120}20240102BANKB00100000101020930FAIM{1520}20240102BANKA001000002",
    ];
    for text in texts {
        let mut site = made(alloc, b"BANKA001", 0)?;
        assert!(rt; drafts(alloc, &mut site)?);
        assert!(rt; is_strange(alloc, &mut site, FrameKind::Ack, text)?);
    }
    Ok(())
}

#[test]
fn other_outputs_are_strange(rt: HostRuntime) -> Result<(), Fail> {
    let alloc = rt.alloc();
    let texts: [&[u8]; 9] = [
        b"",
        TAKEN,
        OUTPUT,
        b"{1100}30P E{1110}01020930FAIM{1120}20240102BANKA00100000101020930FAIM{9000}NEXT 20240103*",
        b"{1100}30TXE{1110}01020930FAIM{1120}20240102BANKA00100000101020930FAIM{9000}NEXT 20240103*",
        b"{1100}30T E{1110}01020930FAIM{1120}20240102BANKA00100000001020930FAIM{9000}NEXT 20240103*",
        b"{1100}30T E{1110}01020930FAIM{1120}20240102BANKA00100000101020930FAIM{9000}NEXT 20240102*",
        b"{1100}30T E{1110}01020930FAIM{1120}20240102BANKA00100000101020930FAIM{9000}NEXT 20240103*MORE*",
        b"{1100}30T E{1110}01020930FAIM{1120}20240102BANKA00100000101020930FAIM",
    ];
    for text in texts {
        let mut site = made(alloc, b"BANKA001", 0)?;
        assert!(rt; drafts(alloc, &mut site)?);
        assert!(rt; is_strange(alloc, &mut site, FrameKind::Output, text)?);
    }
    Ok(())
}
