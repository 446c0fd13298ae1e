// A submission is recorded and answered once, and told again from then on.
use super::{
    ACK, ACK_AGAIN, OPENING, OUTPUT, OUTPUT_AGAIN, PAYMENT, RECORD, clock_of, has_payment,
    has_sent, has_size, made, served, source_of,
};
use crate::serve;
use site_core::{MemSite, Site};
use std::alloc::Global;
use std::test::Fail;

// Whether a session ends well that reads the payment in pieces of this size.
fn is_served(alloc: Global, site: &mut MemSite, size: usize) -> Result<bool, Fail> {
    let mut source = source_of(alloc, &[PAYMENT], size, &[])?;
    let mut clock = clock_of(alloc, &[])?;
    Ok(serve(alloc, &mut source, site, &mut clock).is_ok())
}

// Whether the image goes on with the payment's record.
fn has_record(site: &mut MemSite) -> bool {
    let mut record = [0; 207];
    match site.read_at(OPENING as u64, &mut record) {
        Ok(found) => found == 207 && record.as_slice() == RECORD,
        Err(_) => false,
    }
}

#[test]
fn a_payment_is_recorded_acknowledged_and_delivered(rt: HostRuntime) -> Result<(), Fail> {
    let alloc = rt.alloc();
    for size in [1, 2, 13, 147, 4_096] {
        let mut site = made(alloc, 0)?;
        assert!(rt; is_served(alloc, &mut site, size)?, "in pieces of {size}");
        assert!(rt; has_sent(&site, 0, &[ACK, OUTPUT]), "in pieces of {size}");
        assert!(rt; has_payment(&mut site) && has_record(&mut site));
    }
    Ok(())
}

#[test]
fn the_last_record_is_answered_again_by_a_session(rt: HostRuntime) -> Result<(), Fail> {
    let alloc = rt.alloc();
    let mut site = made(alloc, 0)?;
    assert_eq!(rt; served(alloc, &mut site, &[])?, Ok(()));
    assert!(rt; has_sent(&site, 0, &[]) && has_size(&mut site, 100));
    assert_eq!(rt; served(alloc, &mut site, &[PAYMENT, PAYMENT])?, Ok(()));
    assert!(rt; has_sent(&site, 0, &[ACK, OUTPUT, ACK_AGAIN]) && has_payment(&mut site));
    assert_eq!(rt; served(alloc, &mut site, &[])?, Ok(()));
    assert!(rt; has_sent(&site, 3, &[ACK_AGAIN, OUTPUT_AGAIN]) && has_payment(&mut site));
    Ok(())
}
