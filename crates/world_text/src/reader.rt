// Reads scripts and configurations, line by line (docs/FORMATS.md, "Scripts").
ghost use Rattle.std.specs.Prelude.{◌≡◌, ◌+◌, ◌*◌, [], ◌<◌, ◌≤◌, length, map, bytes_eq, Ok, Err, IfOk, MatchResult, if◌then◌else◌};
ghost use Rattle.host_ledger.specs.Soundness.{IsConfig};
ghost use Rattle.world_text.specs.declared.script.Why.TheVariants.{Shape};
ghost use Rattle.world_text.specs.Lines.{lines_of, words_of};
ghost use Rattle.world_text.specs.Grammar.{host_values, host_line, account_values, account_words, account_line, submit_values, retrieve_values, clock_values, submit_words, retrieve_words, clock_words, event_named, event_line, script_from, accounts_from, first_lines, script_after, script_of, config_after, config_of, size_limit, text_lines, is_begin};
ghost use Rattle.world_text.specs.Reading.{Opens, ReadsLine, ReadsText, TextFails};
ghost use Rattle.host_ledger.specs.Accounts.{endpoints_of};

use crate::accounts::stands_beside;
use crate::fields::{aba_in, cents_in, cutoff_in, date_in, endpoint_in, env_in, seq_in, time_in};
use crate::lines::{split_line, split_word, words};
use crate::script::LineRefused;
use crate::{
    Act, Event, Events, Script, ScriptRefused, Why, configurations_are_sound, scripts_are_sound,
};
use faim_base::{Bytes, CycleDate, Endpoint, Endpoints, Moment, OutPos};
use host_ledger::{Account, Accounts, Config, add_endpoint};
use std::alloc::Global;

/// What a text may have at most, in bytes.
pub const SIZE_LIMIT: usize = 67_108_864;

// What a submitted text may have at most, in bytes.
const TEXT_LIMIT: usize = 8_192;

// The configuration that the first lines of a text give, the number of the line after them, and what is left of the text.
#[derive(Debug, Drop)]
pub(crate) struct Opened<'a> {
    pub(crate) config: Config,
    pub(crate) next: u64,
    pub(crate) rest: &'a [u8],
}

/// The script that a text is, whose configuration is sound (docs/FORMATS.md, "Scripts"). `Fault` exactly where the text
/// is none, with the first line that isn't one of a script and the first reason that it has.
pub fn read_script(alloc: Global, text: &[u8]) -> Result<Script, ScriptRefused>
    ensures script { ReadsText result (script_of text.now) }
    ensures sound { IfOk result (λ s. IsConfig s.config) }
{
    scripts_are_sound();
    read_text(alloc, text)
}

/// The configuration that a text is, which is sound: the first lines of a script, and no line after its accounts
/// (docs/FORMATS.md, "Scripts"). `Fault` exactly where the text is none, with the first line that isn't one of a
/// configuration and the first reason that it has.
pub fn read_config_text(alloc: Global, text: &[u8]) -> Result<Config, ScriptRefused>
    ensures config { ReadsText result (config_of text.now) }
    ensures sound { IfOk result (λ c. IsConfig c) }
{
    configurations_are_sound();
    read_config(alloc, text)
}

// The script that a text is.
fn read_text(alloc: Global, text: &[u8]) -> Result<Script, ScriptRefused>
    ensures { ReadsText result (script_of text.now) }
{
    match read_first_lines(alloc, text) {
        Ok(opened) => script_after(alloc, opened.config, opened.next, opened.rest),
        Err(refused) => Err(refused),
    }
}

// The configuration that a text is.
fn read_config(alloc: Global, text: &[u8]) -> Result<Config, ScriptRefused>
    ensures { ReadsText result (config_of text.now) }
{
    match read_first_lines(alloc, text) {
        Ok(opened) => config_after(opened.config, opened.next, opened.rest),
        Err(refused) => Err(refused),
    }
}

// The script that has this configuration: `begin` and the events, from this line on.
fn script_after(
    alloc: Global,
    config: Config,
    next: u64,
    rest: &[u8],
) -> Result<Script, ScriptRefused>
    requires { next + length rest.now ≤ size_limit + 2 }
    ensures { ReadsText result (script_after config next (lines_of rest.now)) }
{
    if rest.is_empty() {
        return Err(LineRefused::Fault(Why::Ended).at(next));
    }
    let (_, after) = split_line(rest);
    read_events(alloc, config, next + 1, after)
}

// The configuration, where no line is left from this one on and there are accounts.
#[tactic(auto, using(crate::proofs::LinesLeft::line_left))]
fn config_after(config: Config, next: u64, rest: &[u8]) -> Result<Config, ScriptRefused>
    ensures { ReadsText result (config_after config next (lines_of rest.now)) }
{
    if !rest.is_empty() {
        return Err(LineRefused::Fault(Why::Shape).at(next));
    }
    if config.accounts.as_slice().is_empty() {
        return Err(LineRefused::Fault(Why::Ended).at(next));
    }
    Ok(config)
}

// The first lines of a text: a `host` line and accounts.
fn read_first_lines(alloc: Global, text: &[u8]) -> Result<Opened<'_>, ScriptRefused>
    ensures read { Opens result (first_lines text.now) }
    ensures room { IfOk result (λ o. o.next + length o.rest.now ≤ size_limit + 2) }
{
    let (line, rest) = first_line(text)?;
    match host_line(alloc, line) {
        Ok(config) => read_accounts(alloc, config, rest),
        Err(refused) => Err(refused.at(1)),
    }
}

// The first line of a text that has one and no more bytes than it may, and what stands after its end.
pub(crate) fn first_line(text: &[u8]) -> Result<(&[u8], &[u8]), ScriptRefused>
    ensures read { MatchResult result (λ p. text_lines text.now ≡ Ok (record { first = p.0.now; others = lines_of p.1.now })) (λ refused. TextFails refused (text_lines text.now)) }
    ensures room { IfOk result (λ p. length p.1.now ≤ size_limit) }
{
    if text.len() > SIZE_LIMIT {
        return Err(LineRefused::Fault(Why::Size).at(0));
    }
    if text.is_empty() {
        return Err(LineRefused::Fault(Why::Ended).at(1));
    }
    Ok(split_line(text))
}

// The accounts up to `begin` or to the end.
fn read_accounts(alloc: Global, config: Config, text: &[u8]) -> Result<Opened<'_>, ScriptRefused>
    requires { length text.now ≤ size_limit }
    ensures read { Opens result (accounts_from config [] 2 (lines_of text.now)) }
    ensures room { IfOk result (λ o. o.next + length o.rest.now ≤ size_limit + 2) }
{
    let mut accounts = Accounts::new(alloc);
    let mut endpoints = Endpoints::new(alloc);
    let mut next = 2;
    let mut rest = text;
    while !rest.is_empty() {
        let (line, after) = split_line(rest);
        if is_begin(accounts.as_slice(), line) {
            let config = Config { accounts, ..config };
            return Ok(Opened { config, next, rest });
        }
        match account_line(alloc, accounts.as_slice(), endpoints.as_slice(), line) {
            Ok(account) => {
                add_endpoint(&mut endpoints, accounts.as_slice(), &account)?;
                accounts.push(account)?;
            }
            Err(refused) => return Err(refused.at(next)),
        }
        next += 1;
        rest = after;
    }
    let config = Config { accounts, ..config };
    Ok(Opened { config, next, rest })
}

// The events on lines from this number on.
fn read_events(
    alloc: Global,
    config: Config,
    first: u64,
    text: &[u8],
) -> Result<Script, ScriptRefused>
    requires { first + length text.now ≤ size_limit + 3 }
    ensures { ReadsText result (script_from config first (lines_of text.now)) }
{
    let mut events = Events::new(alloc);
    let mut number = first;
    let mut rest = text;
    while !rest.is_empty() {
        let (line, after) = split_line(rest);
        match event_line(alloc, line) {
            Ok(event) => events.push(event)?,
            Err(refused) => return Err(refused.at(number)),
        }
        number += 1;
        rest = after;
    }
    Ok(Script { config, events })
}

fn is_begin(accounts: &[Account], line: &[u8]) -> bool
    ensures { result ≡ is_begin accounts.now line.now }
{
    !accounts.is_empty() && line == b"begin".as_slice()
}

// A `host` line.
#[tactic(auto, using(crate::proofs::WordCuts::host_count))]
fn host_line(alloc: Global, line: &[u8]) -> Result<Config, LineRefused>
    ensures { ReadsLine result (host_line line.now) }
{
    let words = words(alloc, line, 5)?;
    match words.as_slice() {
        [name, env, date, customer, bank] => {
            named(name, b"host")?;
            Ok(host_values(alloc, env, date, customer, bank)?)
        }
        _ => Err(LineRefused::Fault(Why::Shape)),
    }
}

fn host_values(
    alloc: Global,
    env: &[u8],
    date: &[u8],
    customer: &[u8],
    bank: &[u8],
) -> Result<Config, Why>
    ensures { result ≡ host_values env.now date.now customer.now bank.now }
{
    let env = env_in(env).ok_or(Why::Value)?;
    let date = date_in(date).ok_or(Why::Value)?;
    let customer = cutoff_in(customer).ok_or(Why::Value)?;
    let bank = cutoff_in(bank).ok_or(Why::Value)?;
    Ok(Config {
        env,
        date,
        customer,
        bank,
        accounts: Accounts::new(alloc),
    })
}

// An `account` line after these accounts.
fn account_line(
    alloc: Global,
    before: &[Account],
    endpoints: &[Endpoint],
    line: &[u8],
) -> Result<Account, LineRefused>
    requires { endpoints.now ≡ endpoints_of before.now }
    ensures { ReadsLine result (account_line before.now line.now) }
{
    let account = account_alone(alloc, line)?;
    stands_beside(before, endpoints, &account)?;
    Ok(account)
}

fn account_alone(alloc: Global, line: &[u8]) -> Result<Account, LineRefused>
    ensures { ReadsLine result (account_words (words_of 5 line.now)) }
{
    let words = words(alloc, line, 5)?;
    Ok(account_in(words.as_slice())?)
}

#[tactic(auto, using(crate::proofs::WordCuts::account_count, crate::proofs::WordCuts::account_five))]
fn account_in(words: &[&[u8]]) -> Result<Account, Why>
    ensures { result ≡ account_words (map (λ w. w.now) words.now) }
{
    if words.len() != 5 {
        return Err(Why::Shape);
    }
    named(words[0], b"account")?;
    account_values(words[1], words[2], words[3], words[4])
}

fn account_values(aba: &[u8], endpoint: &[u8], opening: &[u8], floor: &[u8]) -> Result<Account, Why>
    ensures { result ≡ account_values aba.now endpoint.now opening.now floor.now }
{
    Ok(Account {
        aba: aba_in(aba).ok_or(Why::Value)?,
        endpoint: endpoint_in(endpoint).ok_or(Why::Value)?,
        opening: cents_in(opening).ok_or(Why::Value)?,
        floor: cents_in(floor).ok_or(Why::Value)?,
    })
}

// The first word of a line that must be this one.
pub(crate) fn named(name: &[u8], wanted: &[u8]) -> Result<(), Why>
    ensures { result ≡ (if bytes_eq name.now wanted.now then Ok tt else Err Shape) }
{
    if name == wanted {
        Ok(())
    } else {
        Err(Why::Shape)
    }
}

// The line of an event.
fn event_line(alloc: Global, line: &[u8]) -> Result<Event, LineRefused>
    ensures { ReadsLine result (event_line line.now) }
{
    event_named(alloc, split_word(line).0, line)
}

fn event_named(alloc: Global, name: &[u8], line: &[u8]) -> Result<Event, LineRefused>
    ensures { ReadsLine result (event_named name.now line.now) }
{
    if name == b"submit".as_slice() {
        return submit_line(alloc, line);
    }
    if name == b"retrieve".as_slice() {
        return retrieve_line(alloc, line);
    }
    if name == b"clock".as_slice() {
        return clock_line(alloc, line);
    }
    Err(LineRefused::Fault(Why::Shape))
}

#[tactic(auto, using(crate::proofs::WordCuts::submit_count))]
fn submit_line(alloc: Global, line: &[u8]) -> Result<Event, LineRefused>
    ensures { ReadsLine result (submit_words (words_of 2 line.now)) }
{
    let words = words(alloc, line, 2)?;
    match words.as_slice() {
        [_, endpoint, text] => submit_values(alloc, endpoint, text),
        _ => Err(LineRefused::Fault(Why::Shape)),
    }
}

fn submit_values(alloc: Global, endpoint: &[u8], text: &[u8]) -> Result<Event, LineRefused>
    ensures { ReadsLine result (submit_values endpoint.now text.now) }
{
    let line = endpoint_in(endpoint).ok_or(Why::Value)?;
    if text.len() > TEXT_LIMIT {
        return Err(LineRefused::Fault(Why::Value));
    }
    let mut copy = Bytes::new(alloc);
    copy.extend(text)?;
    Ok(Event {
        act: Act::Submit { line, text: copy },
    })
}

#[tactic(auto, using(crate::proofs::WordCuts::retrieve_count))]
fn retrieve_line(alloc: Global, line: &[u8]) -> Result<Event, LineRefused>
    ensures { ReadsLine result (retrieve_words (words_of 4 line.now)) }
{
    let words = words(alloc, line, 4)?;
    match words.as_slice() {
        [_, endpoint, date, seq] => Ok(retrieve_values(endpoint, date, seq)?),
        _ => Err(LineRefused::Fault(Why::Shape)),
    }
}

fn retrieve_values(endpoint: &[u8], date: &[u8], seq: &[u8]) -> Result<Event, Why>
    ensures { result ≡ retrieve_values endpoint.now date.now seq.now }
{
    let line = endpoint_in(endpoint).ok_or(Why::Value)?;
    let date = date_in(date).ok_or(Why::Value)?;
    let seq = seq_in(seq).ok_or(Why::Value)?;
    Ok(Event {
        act: Act::Retrieve {
            line,
            at: OutPos { date, seq },
        },
    })
}

fn clock_line(alloc: Global, line: &[u8]) -> Result<Event, LineRefused>
    ensures { ReadsLine result (clock_words (words_of 3 line.now)) }
{
    let words = words(alloc, line, 3)?;
    Ok(clock_in(words.as_slice())?)
}

#[tactic(auto, using(crate::proofs::WordCuts::clock_count, crate::proofs::WordCuts::clock_three))]
fn clock_in(words: &[&[u8]]) -> Result<Event, Why>
    ensures { result ≡ clock_words (map (λ w. w.now) words.now) }
{
    if words.len() != 3 {
        return Err(Why::Shape);
    }
    clock_values(words[1], words[2])
}

fn clock_values(date: &[u8], time: &[u8]) -> Result<Event, Why>
    ensures { result ≡ clock_values date.now time.now }
{
    let date = date_in(date).ok_or(Why::Value)?;
    match time_in(time) {
        Some(minute) => Ok(Event {
            act: Act::Clock(moment_at(date, minute)),
        }),
        None => Err(Why::Value),
    }
}

// The moment at a minute of a day.
fn moment_at(date: CycleDate, minute: u16) -> Moment
    requires { minute < 1_440 }
    ensures { result ≡ 1440 * date + minute }
{
    Moment::new(1_440 * date.get() + u32::from(minute)).unwrap()
}
