use crate::{
    Balances, Closing, Counts, Outcome, ScriptFault, Why, print_closing, print_fault,
    print_outcome, print_refused,
};
use faim_base::{Aba, CycleDate, Endpoint, Refused, Reject, TagNo};
use faim_model::HostOutcome;
use std::test::Fail;

#[test]
fn outcomes_have_their_lines(rt: HostRuntime) -> Result<(), Fail> {
    let why = Reject {
        category: b'X',
        code: 201,
    };
    let cycle = CycleDate::read(b"20240102").ok_or("a date")?;
    let mut out = Vec::new(rt.alloc());
    for (number, outcome) in [
        (12, HostOutcome::TurnedAway(why)),
        (13, HostOutcome::Rolled(cycle)),
        (14, HostOutcome::NotLater { current: cycle }),
        (15, HostOutcome::Strange),
    ] {
        print_outcome(rt.alloc(), number, &Outcome::Host(outcome), &mut out)?;
    }
    let want = b"12 turned X201\n13 rolled 20240102\n14 notlater 20240102\n15 strange\n";
    assert_eq!(rt; out.as_slice(), want.as_slice());
    Ok(())
}

#[test]
fn a_closing_is_printed_after_what_was_there(rt: HostRuntime) -> Result<(), Fail> {
    let mut balances = Balances::new(rt.alloc());
    let aba = Aba::read(b"021000021").ok_or("an account")?;
    balances.push((aba, -5))?;
    let mut outputs = Counts::new(rt.alloc());
    let endpoint = Endpoint::read(b"BANKA001").ok_or("an endpoint")?;
    outputs.push((endpoint, 7))?;
    let closing = Closing {
        cycle: CycleDate::read(b"20240102").ok_or("a date")?,
        balances,
        outputs,
    };
    let mut out = Vec::new(rt.alloc());
    out.push(b'\n')?;
    print_closing(rt.alloc(), &closing, &mut out)?;
    let want = b"\ncycle 20240102\nbalance 021000021 -5\noutputs BANKA001 7\nend\n";
    assert_eq!(rt; out.as_slice(), want.as_slice());
    Ok(())
}

#[test]
fn refusals_have_their_lines(rt: HostRuntime) -> Result<(), Fail> {
    let code = TagNo::new(3600).ok_or("the code's tag")?;
    let mut out = Vec::new(rt.alloc());
    for why in [Refused::Byte(160), Refused::Cut, Refused::Missing(code)] {
        print_refused(rt.alloc(), &why, &mut out)?;
    }
    for (line, why) in [(0, Why::Size), (1_026, Why::Limit), (3, Why::Twice)] {
        print_fault(rt.alloc(), &ScriptFault { line, why }, &mut out)?;
    }
    assert!(rt; print_refused(rt.alloc(), &Refused::NoMemory, &mut out).is_err());
    let want = b"byte 160\ncut\nmissing 3600\nline 0 size\nline 1026 limit\nline 3 twice\n";
    assert_eq!(rt; out.as_slice(), want.as_slice());
    Ok(())
}
