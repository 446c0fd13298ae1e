// What no clause says of a host on its site: each public call answers where there is memory.
ghost use Rattle.std.specs.Prelude.{IfOk};
ghost use Rattle.host_ledger.specs.Soundness.{IsConfig};

use crate::HostNode;
use faim_base::{Aba, CycleDate, Endpoint, Imad, Moment, Places, Seq, Verdict};
use faim_model::HostOutcome;
use host_ledger::{Account, Accounts, Config};
use link_frames::{Frame, FrameKind};
use site_core::{MemSite, StopSite};
use std::alloc::Global;
use std::test::Fail;

// 1,500.00 from the first bank to the second.
const PAYMENT: &[u8] =
    b"{1500}30USERREQ1T {1510}1000{1520}20240102BANKA001000001{2000}000000150000{3100}021000021ALPHA BANK*{3400}121042882BETA BANK*{3600}BTR";

fn account(number: &[u8; 9], name: &[u8; 8], opening: i64) -> Result<Account, Fail> {
    Ok(Account {
        aba: Aba::read(number).ok_or("an account")?,
        endpoint: Endpoint::read(name).ok_or("an endpoint")?,
        opening,
        floor: 0,
    })
}

// A test host on 2024-01-02, with cutoffs at 18:00 and 18:30, and two accounts.
fn config(alloc: Global) -> Result<Config, Fail>
    ensures { IfOk result IsConfig }
{
    let mut accounts = Accounts::new(alloc);
    accounts.push(account(b"021000021", b"BANKA001", 1_000_000)?)?;
    accounts.push(account(b"121042882", b"BANKB001", 0)?)?;
    let config = Config {
        env: b'T',
        date: CycleDate::new(8_767).ok_or("a date")?,
        customer: 1_080,
        bank: 1_110,
        accounts,
    };
    if !config.is_sound() {
        return Err(Fail::from("a sound configuration"));
    }
    Ok(config)
}

// Whether the payment was taken as the second bank's first output.
fn is_taken(outcome: HostOutcome) -> Result<bool, Fail> {
    let date = CycleDate::new(8_767).ok_or("a date")?;
    let source = Endpoint::read(b"BANKA001").ok_or("an endpoint")?;
    let dest = Endpoint::read(b"BANKB001").ok_or("an endpoint")?;
    let seq = Seq::new(1).ok_or("a number")?;
    let taken = HostOutcome::Recorded {
        imad: Imad { date, source, seq },
        verdict: Verdict::Taken { dest, seq },
    };
    Ok(outcome == taken)
}

// Whether a host with no entry takes the payment, at 09:30, and goes on.
fn takes(host: &mut HostNode, site: &mut MemSite) -> Result<bool, Fail> {
    let line = Endpoint::read(b"BANKA001").ok_or("an endpoint")?;
    let reading = Moment::new(12_625_050).ok_or("a moment")?;
    if !host.is_live() || !host.state().is_empty() {
        return Ok(false);
    }
    let frame = Frame::new(FrameKind::Submit, line, PAYMENT);
    match host.handle(site, &frame, reading) {
        Ok(outcome) => Ok(is_taken(outcome)? && host.is_live() && host.state().len() == 1),
        Err(_) => Ok(false),
    }
}

// Whether a host is made on an empty site, and takes the payment.
fn is_made(alloc: Global, site: &mut MemSite) -> Result<bool, Fail> {
    match HostNode::init(alloc, site, config(alloc)?) {
        Ok(mut host) => takes(&mut host, site),
        Err(_) => Ok(false),
    }
}

// Whether the host that the site has is live and has one entry.
fn is_resumed(alloc: Global, site: &mut MemSite) -> bool {
    match HostNode::resume(alloc, site) {
        Ok(host) => host.is_live() && host.state().len() == 1,
        Err(_) => false,
    }
}

#[test]
fn a_host_takes_a_payment_and_is_resumed_with_it(rt: HostRuntime) -> Result<(), Fail> {
    let alloc = rt.alloc();
    let mut site = MemSite::new(alloc, Places::new(alloc));
    assert!(rt; is_made(alloc, &mut site)?);
    assert_eq!(rt; site.sent_count(), 2);
    assert!(rt; is_resumed(alloc, &mut site));
    assert_eq!(rt; site.sent_count(), 4);
    Ok(())
}
