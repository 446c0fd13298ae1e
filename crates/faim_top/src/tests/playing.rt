use super::{ALPHA, BETA, FIRST, Ran, SECOND, THIRD, add_lines, replayed};
use crate::Status;
use faim_base::{Bytes, NoMemory};
use std::alloc::Global;
use std::test::Fail;

#[test]
fn a_message_is_posted(rt: HostRuntime) -> Result<(), Fail> {
    let script =
        b"host T 20240102 1800 1830\naccount 021000021 BANKA001 1000000 0\naccount 121042882 BANKB001 0 0\nbegin\nclock 20240102 0930\nsubmit BANKA001 {1500}30USERREQ1T {1510}1000{1520}20240102BANKA001000001{2000}000000150000{3100}021000021ALPHA BANK*{3400}121042882BETA BANK*{3600}BTR\n";
    let report =
        b"1 taken 20240102BANKB001000001\ncycle 20240102\nbalance 021000021 850000\nbalance 121042882 150000\noutputs BANKA001 0\noutputs BANKB001 1\nend\n";
    let ran = replayed(rt.alloc(), script)?;
    assert_eq!(rt; ran.status, Status::Done);
    assert_eq!(rt; ran.written.as_slice(), report.as_slice());
    Ok(())
}

// A day with cutoffs, on which the clock reads half past nine at first. Two accounts, what comes from their endpoints, and
// what is reported of it: a line for each event, the two balances in cents, and how many outputs the two endpoints have.
#[derive(Clone, Copy)]
struct Case {
    what: &'static str,
    accounts: [&'static str; 2],
    events: &'static [&'static str],
    outcomes: &'static [&'static str],
    balances: [i64; 2],
    outputs: [u64; 2],
}

const CASES: [Case; 23] = [
    Case {
        what: "repeats with the mark and without it",
        accounts: [ALPHA, BETA],
        events: &[
            FIRST,
            "submit BANKA001 {1500}30USERREQ1TP{1510}1000{1520}20240102BANKA001000001{2000}000000150000{3100}021000021ALPHA BANK*{3400}121042882BETA BANK*{3600}BTR",
            FIRST,
        ],
        outcomes: &[
            "1 taken 20240102BANKB001000001",
            "2 again taken 20240102BANKB001000001",
            "3 again taken 20240102BANKB001000001",
        ],
        balances: [850_000, 150_000],
        outputs: [0, 1],
    },
    Case {
        what: "a first submission with the mark",
        accounts: [ALPHA, BETA],
        events: &[
            "submit BANKA001 {1500}30USERREQ1TP{1510}1000{1520}20240102BANKA001000001{2000}000000150000{3100}021000021ALPHA BANK*{3400}121042882BETA BANK*{3600}BTR",
            FIRST,
        ],
        outcomes: &[
            "1 taken 20240102BANKB001000001",
            "2 again taken 20240102BANKB001000001",
        ],
        balances: [850_000, 150_000],
        outputs: [0, 1],
    },
    Case {
        what: "another amount between repeats",
        accounts: [ALPHA, BETA],
        events: &[
            FIRST,
            "submit BANKA001 {1500}30USERREQ1T {1510}1000{1520}20240102BANKA001000001{2000}000000150001{3100}021000021ALPHA BANK*{3400}121042882BETA BANK*{3600}BTR",
            FIRST,
        ],
        outcomes: &[
            "1 taken 20240102BANKB001000001",
            "2 turned X201",
            "3 again taken 20240102BANKB001000001",
        ],
        balances: [850_000, 150_000],
        outputs: [0, 1],
    },
    Case {
        what: "a refusal",
        accounts: [ALPHA, BETA],
        events: &[
            "submit BANKA001 {1500}30USERREQ1T {1510}1000{1520}20240103BANKA001000001{2000}000000150000{3100}021000021ALPHA BANK*{3400}121042882BETA BANK*{3600}BTR",
            "submit BANKA001 {1500}30USERREQ1T {1510}1000{1520}20240103BANKA001000001{2000}000000150000{3100}021000021ALPHA BANK*{3400}121042882BETA BANK*{3600}BTR",
        ],
        outcomes: &["1 refused H101", "2 again refused H101"],
        balances: [1_000_000, 0],
        outputs: [0, 0],
    },
    Case {
        what: "all of the balance",
        accounts: ["account 021000021 BANKA001 150000 0", BETA],
        events: &[FIRST],
        outcomes: &["1 taken 20240102BANKB001000001"],
        balances: [0, 150_000],
        outputs: [0, 1],
    },
    Case {
        what: "a cent too little",
        accounts: ["account 021000021 BANKA001 149999 0", BETA],
        events: &[FIRST],
        outcomes: &["1 refused F401"],
        balances: [149_999, 0],
        outputs: [0, 0],
    },
    Case {
        what: "down to a floor below zero",
        accounts: ["account 021000021 BANKA001 0 -150000", BETA],
        events: &[FIRST],
        outcomes: &["1 taken 20240102BANKB001000001"],
        balances: [-150_000, 150_000],
        outputs: [0, 1],
    },
    Case {
        what: "to the sender itself",
        accounts: ["account 021000021 BANKA001 150000 0", BETA],
        events: &[
            "submit BANKA001 {1500}30USERREQ1T {1510}1000{1520}20240102BANKA001000001{2000}000000150000{3100}021000021ALPHA BANK*{3400}021000021BETA BANK*{3600}BTR",
        ],
        outcomes: &["1 taken 20240102BANKA001000001"],
        balances: [150_000, 0],
        outputs: [1, 0],
    },
    Case {
        what: "the largest amount",
        accounts: ["account 021000021 BANKA001 999999999999 0", BETA],
        events: &[
            "submit BANKA001 {1500}30USERREQ1T {1510}1000{1520}20240102BANKA001000001{2000}999999999999{3100}021000021ALPHA BANK*{3400}121042882BETA BANK*{3600}BTR",
        ],
        outcomes: &["1 taken 20240102BANKB001000001"],
        balances: [0, 999_999_999_999],
        outputs: [0, 1],
    },
    Case {
        what: "the lowest balances that a script may have",
        accounts: [
            "account 021000021 BANKA001 -999999999999 -999999999999",
            "account 121042882 BANKB001 -1 999999999999",
        ],
        events: &[],
        outcomes: &[],
        balances: [-999_999_999_999, -1],
        outputs: [0, 0],
    },
    Case {
        what: "other lines and other words",
        accounts: [ALPHA, BETA],
        events: &[
            "submit BANKB001 {1500}30USERREQ1T {1510}1000{1520}20240102BANKA001000001{2000}000000150000{3100}021000021ALPHA BANK*{3400}121042882BETA BANK*{3600}BTR",
            "submit BANKA001 HELLO",
            "submit BANKB001 {1500}30USERREQ1T {1510}1000{1520}20240102BANKB001000001{2000}000000150000{3100}021000021ALPHA BANK*{3400}121042882BETA BANK*{3600}BTR",
            "retrieve BANKB001 20240102 000001",
        ],
        outcomes: &[
            "1 turned H102",
            "2 turned E001",
            "3 refused E161",
            "4 retrieved 0",
        ],
        balances: [1_000_000, 0],
        outputs: [0, 0],
    },
    Case {
        what: "an empty text",
        accounts: [ALPHA, BETA],
        events: &["submit BANKA001 "],
        outcomes: &["1 turned E001"],
        balances: [1_000_000, 0],
        outputs: [0, 0],
    },
    Case {
        what: "a receiver without an account",
        accounts: [ALPHA, BETA],
        events: &[
            "submit BANKA001 {1500}30USERREQ1T {1510}1000{1520}20240102BANKA001000001{2000}000000150000{3100}021000021ALPHA BANK*{3400}231380104BETA BANK*{3600}BTR",
        ],
        outcomes: &["1 refused E162"],
        balances: [1_000_000, 0],
        outputs: [0, 0],
    },
    Case {
        what: "a date that is none",
        accounts: [ALPHA, BETA],
        events: &[
            "submit BANKA001 {1500}30USERREQ1T {1510}1000{1520}20240230BANKA001000001{2000}000000150000{3100}021000021ALPHA BANK*{3400}121042882BETA BANK*{3600}BTR",
        ],
        outcomes: &["1 turned E002"],
        balances: [1_000_000, 0],
        outputs: [0, 0],
    },
    Case {
        what: "three outputs",
        accounts: [ALPHA, BETA],
        events: &[
            FIRST,
            SECOND,
            THIRD,
            "retrieve BANKB001 20240102 000002",
            "retrieve BANKB001 20240102 000004",
            "retrieve BANKB001 20240101 000009",
        ],
        outcomes: &[
            "1 taken 20240102BANKB001000001",
            "2 taken 20240102BANKB001000002",
            "3 taken 20240102BANKB001000003",
            "4 retrieved 2",
            "5 retrieved 0",
            "6 retrieved 3",
        ],
        balances: [550_000, 450_000],
        outputs: [0, 3],
    },
    Case {
        what: "a line of no account",
        accounts: [ALPHA, BETA],
        events: &[FIRST, "retrieve BANKC001 20240102 000001"],
        outcomes: &["1 taken 20240102BANKB001000001", "2 retrieved 0"],
        balances: [850_000, 150_000],
        outputs: [0, 1],
    },
    Case {
        what: "a check digit that doesn't hold",
        accounts: [ALPHA, BETA],
        events: &[
            "submit BANKA001 {1500}30USERREQ1T {1510}1000{1520}20240102BANKA001000001{2000}000000150000{3100}021000021ALPHA BANK*{3400}021000022BETA BANK*{3600}BTR",
        ],
        outcomes: &["1 refused E107"],
        balances: [1_000_000, 0],
        outputs: [0, 0],
    },
    Case {
        what: "a type that the code doesn't permit, and again with its mark",
        accounts: [ALPHA, BETA],
        events: &[
            "submit BANKA001 {1500}30USERREQ1T {1510}1031{1520}20240102BANKA001000001{2000}000000150000{3100}021000021ALPHA BANK*{3400}121042882BETA BANK*{3600}BTR",
            "submit BANKA001 {1500}30USERREQ1TP{1510}1031{1520}20240102BANKA001000001{2000}000000150000{3100}021000021ALPHA BANK*{3400}121042882BETA BANK*{3600}BTR",
        ],
        outcomes: &["1 refused E105", "2 again refused E105"],
        balances: [1_000_000, 0],
        outputs: [0, 0],
    },
    Case {
        what: "a service message, which moves nothing",
        accounts: [ALPHA, BETA],
        events: &[
            "submit BANKA001 {1500}30USERREQ1T {1510}1090{1520}20240102BANKA001000001{2000}000000000000{3100}021000021*{3400}121042882*{3600}SVC{9000}PLEASE CALL*",
        ],
        outcomes: &["1 taken 20240102BANKB001000001"],
        balances: [1_000_000, 0],
        outputs: [0, 1],
    },
    Case {
        what: "customers' cutoff, and a bank's transfer after it",
        accounts: [ALPHA, BETA],
        events: &[
            "clock 20240102 1759",
            "submit BANKA001 {1500}30USERREQ1T {1510}1000{1520}20240102BANKA001000001{2000}000000000100{3100}021000021*{3400}121042882*{3600}CTR{4200}D1*{5000}D2*",
            "clock 20240102 1800",
            "submit BANKA001 {1500}30USERREQ1T {1510}1000{1520}20240102BANKA001000002{2000}000000000100{3100}021000021*{3400}121042882*{3600}CTR{4200}D1*{5000}D2*",
            THIRD,
        ],
        outcomes: &[
            "1 taken 20240102BANKB001000001",
            "2 refused W301",
            "3 taken 20240102BANKB001000002",
        ],
        balances: [849_900, 150_100],
        outputs: [0, 2],
    },
    Case {
        what: "banks' cutoff, and a clock that goes back",
        accounts: [ALPHA, BETA],
        events: &[
            "clock 20240102 1829",
            FIRST,
            "clock 20240102 1830",
            SECOND,
            "clock 20240102 0000",
            THIRD,
            "retrieve BANKB001 20240102 000001",
        ],
        outcomes: &[
            "1 taken 20240102BANKB001000001",
            "2 refused W302",
            "3 refused W302",
            "4 retrieved 1",
        ],
        balances: [850_000, 150_000],
        outputs: [0, 1],
    },
    Case {
        what: "a message of another line than test",
        accounts: [ALPHA, BETA],
        events: &[
            "submit BANKA001 {1500}30USERREQ1P {1510}1000{1520}20240102BANKA001000001{2000}000000150000{3100}021000021ALPHA BANK*{3400}121042882BETA BANK*{3600}BTR",
        ],
        outcomes: &["1 refused E102"],
        balances: [1_000_000, 0],
        outputs: [0, 0],
    },
    Case {
        what: "no events",
        accounts: [ALPHA, BETA],
        events: &[],
        outcomes: &[],
        balances: [1_000_000, 0],
        outputs: [0, 0],
    },
];

// The script of a case.
fn script_of(alloc: Global, case: &Case) -> Result<Bytes, NoMemory> {
    let mut text = Bytes::new(alloc);
    add_lines(&mut text, &["host T 20240102 1800 1830"])?;
    add_lines(&mut text, &case.accounts)?;
    add_lines(&mut text, &["begin", "clock 20240102 0930"])?;
    add_lines(&mut text, case.events)?;
    Ok(text)
}

// The report that it is to have.
fn report_of(alloc: Global, case: &Case) -> Result<Bytes, NoMemory> {
    let [first, second] = case.balances;
    let [of_first, of_second] = case.outputs;
    let mut text = Bytes::new(alloc);
    add_lines(&mut text, case.outcomes)?;
    let closing = format!(in alloc;
        "cycle 20240102\nbalance 021000021 {first}\nbalance 121042882 {second}\noutputs BANKA001 {of_first}\noutputs BANKB001 {of_second}\nend\n"
    )?;
    text.extend(closing.as_bytes())?;
    Ok(text)
}

#[test]
fn scripts_have_their_reports(rt: HostRuntime) -> Result<(), Fail> {
    for case in &CASES {
        let script = script_of(rt.alloc(), case)?;
        let ran = replayed(rt.alloc(), script.as_slice())?;
        let report = report_of(rt.alloc(), case)?;
        assert_eq!(rt; ran.written.as_slice(), report.as_slice(), "{}", case.what);
        assert_eq!(rt; ran.status, Status::Done, "{}", case.what);
    }
    Ok(())
}

// Cutoffs of customers and of banks, what the clock reads, and what becomes of a bank's transfer.
#[test]
fn each_time_may_be_a_cutoff(rt: HostRuntime) -> Result<(), Fail> {
    let taken = "1 taken 20240102BANKB001000001";
    let cases = [
        ("0000 2400", "clock 20240102 0000", taken),
        ("0000 2400", "clock 20240102 2359", taken),
        ("0000 2400", "clock 20240103 0000", "1 refused W302"),
        ("2400 0000", "clock 20240101 2359", taken),
        ("2400 0000", "clock 20240102 0000", "1 refused W302"),
        ("2400 2359", "clock 20240102 2358", taken),
        ("2400 2359", "clock 20240102 2359", "1 refused W302"),
        ("0000 0001", FIRST, taken),
    ];
    for (cutoffs, clock, outcome) in cases {
        let ran = replayed_at(rt.alloc(), cutoffs, clock)?;
        let want = format!(in rt.alloc(); "{outcome}\n")?;
        assert!(rt;
            ran.written.as_slice().starts_with(want.as_bytes()),
            "{cutoffs} {clock}"
        );
    }
    Ok(())
}

// A bank's transfer under these cutoffs, after a line that sets the clock.
fn replayed_at(alloc: Global, cutoffs: &str, clock: &str) -> Result<Ran, NoMemory> {
    let host = format!(in alloc; "host T 20240102 {cutoffs}\n")?;
    let mut text = Bytes::new(alloc);
    text.extend(host.as_bytes())?;
    add_lines(&mut text, &[ALPHA, BETA, "begin", clock, FIRST])?;
    replayed(alloc, text.as_slice())
}
