// Images that stand for no bank.
use super::{RECORD, made, opening};
use crate::{BankNode, OpenFault};
use faim_base::Places;
use site_core::{MemSite, Site, StopSite};
use std::alloc::Global;
use std::test::Fail;

// The image of a bank with no entry, up to its gate.
const OPENED: &[u8; 35] = b"FAIMJRN1\0\0\0\0\0\0\0\0\xa5\0\0\0\x0eBBANKA001T\0\0\x22\x3f";

// Why no bank is resumed from these bytes, one behind the other; none where one is.
fn fault_of(alloc: Global, parts: &[&[u8]]) -> Result<Option<OpenFault>, Fail> {
    let mut site = MemSite::new(alloc, Places::new(alloc));
    let mut place = 0_u64;
    for part in parts {
        site.write_at(place, part)?;
        place = place.saturating_add(part.len() as u64);
    }
    match BankNode::resume(alloc, &mut site) {
        Ok(_) => Ok(None),
        Err(fault) => Ok(Some(fault)),
    }
}

#[test]
fn images_of_a_bank_are_read_and_others_are_damaged(rt: HostRuntime) -> Result<(), Fail> {
    let alloc = rt.alloc();
    let at = |place: u64| Some(OpenFault::Damaged { place });
    let closed: &[u8] = b"\0";
    let cases: [(&[&[u8]], Option<OpenFault>); 9] = [
        (&[], Some(OpenFault::NoHeader)),
        (&[b"FAIMJRN2\0\0\0\0\0\0\0\0\0"], Some(OpenFault::NoHeader)),
        (&[b"FAIMJRN1\0\0\0\0\0\0\0\0\0"], at(16)),
        (&[OPENED, closed], None),
        (&[OPENED, RECORD, closed], None),
        // The same draft twice.
        (&[OPENED, RECORD, RECORD, closed], at(185)),
        // A verdict for no draft.
        (
            &[
                OPENED,
                b"\xa5\0\0\0\x15A\0\0\x22\x3f\0\0\0\x01\x01BANKB001\0\0\0\x01",
                closed,
            ],
            at(35),
        ),
        // A draft without a text of its own.
        (
            &[
                OPENED,
                b"\xa5\0\0\0\x0cD\0\0\x22\x3f\0\0\0\x01\0\x01x",
                closed,
            ],
            at(35),
        ),
        // The draft under the second number.
        (
            &[
                OPENED,
                b"\xa5\0\0\0\x91D\0\0\x22\x3f\0\0\0\x02",
                &RECORD[14..],
                closed,
            ],
            at(35),
        ),
    ];
    for (parts, fault) in cases {
        assert_eq!(rt; fault_of(alloc, parts)?, fault);
    }
    Ok(())
}

#[test]
fn a_bank_is_made_once(rt: HostRuntime) -> Result<(), Fail> {
    let alloc = rt.alloc();
    let mut site = made(alloc, b"BANKA001", 0)?;
    assert_eq!(rt; site.size()?, 36);
    assert!(rt; !is_made(alloc, &mut site)?);
    assert_eq!(rt; site.size()?, 36);
    Ok(())
}

// Whether a bank is made on the site.
fn is_made(alloc: Global, site: &mut MemSite) -> Result<bool, Fail> {
    match BankNode::init(alloc, site, opening(b"BANKA001")?) {
        Ok(_) => Ok(true),
        Err(_) => Ok(false),
    }
}
