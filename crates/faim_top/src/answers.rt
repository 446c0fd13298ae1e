// What a query answers to an input.
ghost use Rattle.std.specs.Prelude.{◌≡◌, ◌≢◌, ◌⊎◌, Err, IfOk};
ghost use Rattle.world_text.specs.Grammar.{script_of};
ghost use Rattle.faim_top.specs.Ends.{Reads, answer_text, answer_status, most_read};
ghost use Rattle.faim_top.specs.Seen.{CountsFaults, LosesAtMost, seen};
ghost use Rattle.faim_top.specs.Sources.{AnswersSource, TakesLittleBeyond};
ghost use Rattle.faim_top.specs.Checks.{accepted_text, env_of, failed_edit, edit_line, message_status, message_text};
ghost use Rattle.world_text.specs.Report.{refusal_line};
ghost use Rattle.faim_message.specs.Spelling.{message_spelling};
ghost use Rattle.faim_edits.specs.Printing.{table_text};

use crate::feeding::{Unread, read_message};
use crate::play::report;
use crate::streams::{ReadEnd, read_up_to};
use crate::{Query, Reason, Status};
use faim_base::{LONGEST_MESSAGE, NoMemory, Refused};
use faim_edits::{EditNo, first_failed, print_edit, print_table, test_or_production};
use faim_message::{Form, Message, encode};
use site_core::Source;
use std::alloc::Global;
use world_text::{SIZE_LIMIT, ScriptRefused, print_fault, print_refused, read_script};

// The line before a message that fails no edit.
const ACCEPTED: &[u8] = b"accepted\n";

// What is to be written of what a source gives, and the status once it is written.
#[tactic(auto, using(crate::proofs::WholeScripts::tabled, crate::proofs::WholeScripts::takes_none))]
pub(crate) fn answer_to<I: Source>(
    alloc: Global,
    query: Query,
    input: &mut I,
) -> Result<(Vec<u8>, Status), ReadEnd>
    ensures answer { IfOk result (λ a. AnswersSource query (seen I.left input.old input.new) a.1 a.0.items) }
    ensures few { LosesAtMost (most_read query) (seen I.left input.old input.new) }
    ensures table { query ≡ Query.Table → input.new ≡ input.old }
    ensures beyond { query ≡ Query.Check → TakesLittleBeyond (seen I.left input.old input.new) }
    ensures asked { result ≡ Err ReadEnd.Failed → Reads query }
    ensures faults { CountsFaults (result ≡ Err ReadEnd.Failed) (seen I.read_faults input.old input.new) }
{
    match query {
        Query::Check => check(alloc, input),
        Query::Table => Ok(table(alloc)?),
        Query::Replay => replay(alloc, input),
    }
}

// The message after a line, or the line that says which edit it fails or why the input is none.
fn check<I: Source>(alloc: Global, input: &mut I) -> Result<(Vec<u8>, Status), ReadEnd>
    ensures answer { IfOk result (λ a. AnswersSource Query.Check (seen I.left input.old input.new) a.1 a.0.items) }
    ensures few { LosesAtMost (most_read Query.Check) (seen I.left input.old input.new) }
    ensures beyond { TakesLittleBeyond (seen I.left input.old input.new) }
    ensures faults { CountsFaults (result ≡ Err ReadEnd.Failed) (seen I.read_faults input.old input.new) }
{
    match read_message(alloc, input) {
        Ok(message) => Ok(tried(alloc, &message)?),
        Err(Unread::Refused(why)) => Ok(refused(alloc, why)?),
        Err(Unread::Failed) => Err(ReadEnd::Failed),
    }
}

// A message is tried by the edits.
fn tried(alloc: Global, message: &Message) -> Result<(Vec<u8>, Status), NoMemory>
    requires { message.now.form ≡ Form.Input }
    ensures { IfOk result (λ a. (a.1 ≡ message_status (failed_edit message.now)) × (a.0.items ≡ message_text (failed_edit message.now) (message_spelling message.now))) }
{
    match first_failed(1, env_of(message), message) {
        Some(number) => failed(alloc, number),
        None => accepted(alloc, message),
    }
}

// The line on which a message is tried: production where it says so, and else test.
fn env_of(message: &Message) -> u8
    ensures value { result ≡ env_of message.now }
    ensures env { (result ≡ 84) ⊎ (result ≡ 80) }
{
    if test_or_production(message) == b'P' {
        b'P'
    } else {
        b'T'
    }
}

fn failed(alloc: Global, number: EditNo) -> Result<(Vec<u8>, Status), NoMemory>
    ensures { IfOk result (λ a. (a.1 ≡ Status.Refused (Reason.Edit number)) × (a.0.items ≡ edit_line number)) }
{
    let mut line = Vec::new(alloc);
    line.extend_from_slice(b"edit ")?;
    print_edit(number, &mut line)?;
    line.push(b'\n')?;
    Ok((line, Status::Refused(Reason::Edit(number))))
}

fn accepted(alloc: Global, message: &Message) -> Result<(Vec<u8>, Status), NoMemory>
    ensures { IfOk result (λ a. (a.1 ≡ Status.Done) × (a.0.items ≡ accepted_text (message_spelling message.now))) }
{
    let mut answer = Vec::with_capacity(alloc, ACCEPTED.len() + LONGEST_MESSAGE)?;
    answer.extend_from_slice(ACCEPTED)?;
    encode(message, &mut answer)?;
    Ok((answer, Status::Done))
}

fn refused(alloc: Global, why: Refused) -> Result<(Vec<u8>, Status), NoMemory>
    ensures { IfOk result (λ a. (a.1 ≡ Status.Refused (Reason.Text why)) × (a.0.items ≡ refusal_line why) × (why ≢ Refused.NoMemory)) }
{
    let mut line = Vec::new(alloc);
    print_refused(alloc, &why, &mut line)?;
    Ok((line, Status::Refused(Reason::Text(why))))
}

// The edit table in print.
fn table(alloc: Global) -> Result<(Vec<u8>, Status), NoMemory>
    ensures { IfOk result (λ a. (a.1 ≡ Status.Done) × (a.0.items ≡ table_text)) }
{
    Ok((print_table(alloc, 1)?, Status::Done))
}

// The report of the script that a source gives, or the line of its first fault.
fn replay<I: Source>(alloc: Global, input: &mut I) -> Result<(Vec<u8>, Status), ReadEnd>
    ensures answer { IfOk result (λ a. AnswersSource Query.Replay (seen I.left input.old input.new) a.1 a.0.items) }
    ensures few { LosesAtMost (most_read Query.Replay) (seen I.left input.old input.new) }
    ensures faults { CountsFaults (result ≡ Err ReadEnd.Failed) (seen I.read_faults input.old input.new) }
{
    let text = match read_up_to(alloc, input, SIZE_LIMIT + 1) {
        Ok(text) => text,
        Err(end) => return Err(end),
    };
    Ok(reported(alloc, text.as_slice())?)
}

fn reported(alloc: Global, text: &[u8]) -> Result<(Vec<u8>, Status), NoMemory>
    ensures { IfOk result (λ a. (a.1 ≡ answer_status (script_of text.now)) × (a.0.items ≡ answer_text (script_of text.now))) }
{
    match read_script(alloc, text) {
        Ok(script) => Ok((report(alloc, script)?, Status::Done)),
        Err(ScriptRefused::Fault(fault)) => {
            let mut line = Vec::new(alloc);
            print_fault(alloc, &fault, &mut line)?;
            Ok((line, Status::Refused(Reason::Script(fault))))
        }
        Err(ScriptRefused::NoMemory) => Err(NoMemory),
    }
}
