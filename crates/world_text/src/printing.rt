// What is printed of outcomes, at the end of a report and of refusals (docs/FORMATS.md, "The report").
ghost use Rattle.std.specs.Prelude.{◌≡◌, ◌≢◌, ◌++◌, OnOk, OnErr};
ghost use Rattle.std.specs.Fmt.{signed_decimal};
ghost use Rattle.faim_base.specs.Calendar.{date_text};
ghost use Rattle.faim_base.specs.Digits.{padded};
ghost use Rattle.world_text.specs.Report.{reject_text, verdict_text, host_outcome_text, outcome_line, balance_line, closing_text, balance_lines, count_lines, why_text, fault_line, refusal_line};

use crate::outcome::{Closing, Outcome};
use crate::{ScriptFault, Why};
use faim_base::{Aba, CycleDate, Endpoint, Imad, NoMemory, Refused, Reject, Seq, Verdict, padded};
use faim_model::HostOutcome;
use std::alloc::Global;

/// Appends the line of an event's outcome, with the event's number. At `NoMemory` nothing was appended.
pub fn print_outcome(
    alloc: Global,
    number: u64,
    outcome: &Outcome,
    out: &mut Vec<u8>,
) -> Result<(), NoMemory>
    ensures ok { OnOk result (out.new.items ≡ out.old.items ++ outcome_line number outcome.now) }
    ensures err { OnErr result (out.new.items ≡ out.old.items) }
{
    let mut line = Vec::new(alloc);
    write_outcome(alloc, number, outcome, &mut line)?;
    out.extend_from_slice(line.as_slice())?;
    Ok(())
}

/// Appends the closing of a report. At `NoMemory` nothing was appended.
pub fn print_closing(alloc: Global, closing: &Closing, out: &mut Vec<u8>) -> Result<(), NoMemory>
    ensures ok { OnOk result (out.new.items ≡ out.old.items ++ closing_text closing.now) }
    ensures err { OnErr result (out.new.items ≡ out.old.items) }
{
    let mut text = Vec::new(alloc);
    write_closing(alloc, closing, &mut text)?;
    out.extend_from_slice(text.as_slice())?;
    Ok(())
}

/// Appends the line of a text that is no script, no configuration or no bank's text (docs/FORMATS.md, "Scripts"). At
/// `NoMemory` nothing was appended.
pub fn print_fault(alloc: Global, fault: &ScriptFault, out: &mut Vec<u8>) -> Result<(), NoMemory>
    ensures ok { OnOk result (out.new.items ≡ out.old.items ++ fault_line fault.now) }
    ensures err { OnErr result (out.new.items ≡ out.old.items) }
{
    let mut line = Vec::new(alloc);
    write_fault(alloc, fault, &mut line)?;
    out.extend_from_slice(line.as_slice())?;
    Ok(())
}

/// Appends the line of bytes that are no message for this reason (docs/FORMATS.md, "Checks"). `NoMemory` also where that
/// is the reason; then nothing was appended.
pub fn print_refused(alloc: Global, why: &Refused, out: &mut Vec<u8>) -> Result<(), NoMemory>
    ensures ok { OnOk result (out.new.items ≡ out.old.items ++ refusal_line why.now) }
    ensures judged { OnOk result (why.now ≢ Refused.NoMemory) }
    ensures err { OnErr result (out.new.items ≡ out.old.items) }
{
    let mut line = Vec::new(alloc);
    write_refused(alloc, why, &mut line)?;
    out.extend_from_slice(line.as_slice())?;
    Ok(())
}

fn write_fault(alloc: Global, fault: &ScriptFault, out: &mut Vec<u8>) -> Result<(), NoMemory>
    ensures { OnOk result (out.new.items ≡ out.old.items ++ fault_line fault.now) }
{
    out.extend_from_slice(b"line ")?;
    write_number(alloc, i128::from(fault.line), out)?;
    out.push(b' ')?;
    write_why(fault.why, out)?;
    out.push(b'\n')?;
    Ok(())
}

fn write_refused(alloc: Global, why: &Refused, out: &mut Vec<u8>) -> Result<(), NoMemory>
    ensures line { OnOk result (out.new.items ≡ out.old.items ++ refusal_line why.now) }
    ensures judged { OnOk result (why.now ≢ Refused.NoMemory) }
{
    match why {
        Refused::Byte(place) => {
            out.extend_from_slice(b"byte ")?;
            write_number(alloc, *place as i128, out)?;
        }
        Refused::Cut => out.extend_from_slice(b"cut")?,
        Refused::Missing(number) => {
            out.extend_from_slice(b"missing ")?;
            write_number(alloc, i128::from(number.get()), out)?;
        }
        Refused::NoMemory => return Err(NoMemory),
    }
    out.push(b'\n')?;
    Ok(())
}

fn write_why(why: Why, out: &mut Vec<u8>) -> Result<(), NoMemory>
    ensures { OnOk result (out.new.items ≡ out.old.items ++ why_text why) }
{
    match why {
        Why::Shape => out.extend_from_slice(b"shape")?,
        Why::Value => out.extend_from_slice(b"value")?,
        Why::Twice => out.extend_from_slice(b"twice")?,
        Why::Place => out.extend_from_slice(b"place")?,
        Why::Limit => out.extend_from_slice(b"limit")?,
        Why::Ended => out.extend_from_slice(b"ended")?,
        Why::Size => out.extend_from_slice(b"size")?,
    }
    Ok(())
}

fn write_outcome(
    alloc: Global,
    number: u64,
    outcome: &Outcome,
    out: &mut Vec<u8>,
) -> Result<(), NoMemory>
    ensures { OnOk result (out.new.items ≡ out.old.items ++ outcome_line number outcome.now) }
{
    let Outcome::Host(host) = outcome;
    write_number(alloc, i128::from(number), out)?;
    out.push(b' ')?;
    write_host_outcome(alloc, host, out)?;
    out.push(b'\n')?;
    Ok(())
}

fn write_host_outcome(
    alloc: Global,
    outcome: &HostOutcome,
    out: &mut Vec<u8>,
) -> Result<(), NoMemory>
    ensures { OnOk result (out.new.items ≡ out.old.items ++ host_outcome_text outcome.now) }
{
    match outcome {
        HostOutcome::Recorded { imad, verdict } => write_verdict(imad, verdict, out),
        HostOutcome::Known { imad, verdict } => {
            out.extend_from_slice(b"again ")?;
            write_verdict(imad, verdict, out)
        }
        HostOutcome::TurnedAway(why) => {
            out.extend_from_slice(b"turned ")?;
            write_reject(why, out)
        }
        HostOutcome::Retrieved(count) => {
            out.extend_from_slice(b"retrieved ")?;
            write_number(alloc, i128::from(*count), out)
        }
        HostOutcome::Rolled(date) => {
            out.extend_from_slice(b"rolled ")?;
            write_date(*date, out)
        }
        HostOutcome::NotLater { current } => {
            out.extend_from_slice(b"notlater ")?;
            write_date(*current, out)
        }
        HostOutcome::Strange => {
            out.extend_from_slice(b"strange")?;
            Ok(())
        }
    }
}

fn write_verdict(imad: &Imad, verdict: &Verdict, out: &mut Vec<u8>) -> Result<(), NoMemory>
    ensures { OnOk result (out.new.items ≡ out.old.items ++ verdict_text imad.now verdict.now) }
{
    match verdict {
        Verdict::Taken { dest, seq } => {
            out.extend_from_slice(b"taken ")?;
            write_date(imad.date, out)?;
            write_endpoint(dest, out)?;
            write_seq(*seq, out)
        }
        Verdict::Refused(why) => {
            out.extend_from_slice(b"refused ")?;
            write_reject(why, out)
        }
    }
}

// A refusal as its letter and the last three digits of its number, which has no more.
fn write_reject(why: &Reject, out: &mut Vec<u8>) -> Result<(), NoMemory>
    ensures { OnOk result (out.new.items ≡ out.old.items ++ reject_text why.now) }
{
    let mut text = [0; 3];
    padded(u64::from(why.code % 1_000), &mut text);
    out.push(why.category)?;
    out.extend_from_slice(&text)?;
    Ok(())
}

fn write_date(date: CycleDate, out: &mut Vec<u8>) -> Result<(), NoMemory>
    ensures { OnOk result (out.new.items ≡ out.old.items ++ date_text date) }
{
    let mut text = [0; 8];
    date.write(&mut text);
    out.extend_from_slice(&text)?;
    Ok(())
}

fn write_endpoint(endpoint: &Endpoint, out: &mut Vec<u8>) -> Result<(), NoMemory>
    ensures { OnOk result (out.new.items ≡ out.old.items ++ endpoint.now) }
{
    out.extend_from_slice(&endpoint.bytes())?;
    Ok(())
}

fn write_seq(seq: Seq, out: &mut Vec<u8>) -> Result<(), NoMemory>
    ensures { OnOk result (out.new.items ≡ out.old.items ++ padded 6 seq) }
{
    let mut text = [0; 6];
    padded(u64::from(seq.get()), &mut text);
    out.extend_from_slice(&text)?;
    Ok(())
}

fn write_number(alloc: Global, number: i128, out: &mut Vec<u8>) -> Result<(), NoMemory>
    ensures { OnOk result (out.new.items ≡ out.old.items ++ signed_decimal number) }
{
    let text = number.to_string(alloc)?;
    out.extend_from_slice(text.as_bytes())?;
    Ok(())
}

fn write_closing(alloc: Global, closing: &Closing, out: &mut Vec<u8>) -> Result<(), NoMemory>
    ensures { OnOk result (out.new.items ≡ out.old.items ++ closing_text closing.now) }
{
    out.extend_from_slice(b"cycle ")?;
    write_date(closing.cycle, out)?;
    out.push(b'\n')?;
    write_balances(alloc, closing.balances.as_slice(), out)?;
    write_counts(alloc, closing.outputs.as_slice(), out)?;
    out.extend_from_slice(b"end\n")?;
    Ok(())
}

fn write_balances(
    alloc: Global,
    balances: &[(Aba, i128)],
    out: &mut Vec<u8>,
) -> Result<(), NoMemory>
    ensures { OnOk result (out.new.items ≡ out.old.items ++ balance_lines balances.now) }
{
    for balance in balances {
        write_balance(alloc, &balance.0, balance.1, out)?;
    }
    Ok(())
}

fn write_balance(alloc: Global, aba: &Aba, cents: i128, out: &mut Vec<u8>) -> Result<(), NoMemory>
    ensures { OnOk result (out.new.items ≡ out.old.items ++ balance_line (aba.now, cents)) }
{
    out.extend_from_slice(b"balance ")?;
    out.extend_from_slice(&aba.bytes())?;
    out.push(b' ')?;
    write_number(alloc, cents, out)?;
    out.push(b'\n')?;
    Ok(())
}

fn write_counts(
    alloc: Global,
    counts: &[(Endpoint, u64)],
    out: &mut Vec<u8>,
) -> Result<(), NoMemory>
    ensures { OnOk result (out.new.items ≡ out.old.items ++ count_lines counts.now) }
{
    for (endpoint, count) in counts {
        out.extend_from_slice(b"outputs ")?;
        write_endpoint(endpoint, out)?;
        out.push(b' ')?;
        write_number(alloc, i128::from(*count), out)?;
        out.push(b'\n')?;
    }
    Ok(())
}
