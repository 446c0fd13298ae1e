// Plays a script against a host in memory (docs/FORMATS.md, "The report").
ghost use Rattle.std.specs.Prelude.{◌≡◌, ◌++◌, IfOk, OnOk};
ghost use Rattle.host_ledger.specs.Soundness.{IsConfig};
ghost use Rattle.faim_top.specs.Replay.{act_turn, after_turn, outcome_of, next_reading, entries_after, outcomes_of, outcome_lines, closing_of, balances_of, output_counts, opening_moment, report_of};

use faim_base::{Endpoint, Moment, NoMemory};
use faim_model::HostOutcome;
use host_core::HostState;
use host_ledger::{Account, Config, endpoints_of};
use host_turns::{retrieve, submit};
use std::alloc::Global;
use world_text::{
    Act, Balances, Closing, Counts, Event, Outcome, Script, print_closing, print_outcome,
};

// The report of a script.
pub(crate) fn report(alloc: Global, script: Script) -> Result<Vec<u8>, NoMemory>
    requires { IsConfig script.config }
    ensures { IfOk result (λ v. v.items ≡ report_of script) }
{
    let Script { config, events } = script;
    let mut state = HostState::new(alloc, config)?;
    let mut out = Vec::new(alloc);
    let opening = first_minute(state.config());
    play(alloc, &mut state, opening, events.as_slice(), &mut out)?;
    let closing = closing(alloc, &state)?;
    print_closing(alloc, &closing, &mut out)?;
    Ok(out)
}

// Plays the events in order, the clock reading this moment at first, and prints a line for each outcome.
fn play(
    alloc: Global,
    state: &mut HostState,
    opening: Moment,
    events: &[Event],
    out: &mut Vec<u8>,
) -> Result<(), NoMemory>
    ensures config { OnOk result (state.new.config ≡ state.old.config) }
    ensures entries { OnOk result (state.new.entries ≡ entries_after state.old.config state.old.entries opening events.now) }
    ensures lines { OnOk result (out.new.items ≡ out.old.items ++ outcome_lines 1 (outcomes_of state.old.config state.old.entries opening events.now)) }
{
    let mut reading = opening;
    let mut number = 1;
    for event in events {
        match act(alloc, state, reading, &event.act)? {
            Some(outcome) => {
                print_outcome(alloc, number, &Outcome::Host(outcome), out)?;
                number += 1;
            }
            None => {}
        }
        reading = next_reading(reading, &event.act);
    }
    Ok(())
}

// What one event brings about at the clock's reading: nothing where it sets the clock.
fn act(
    alloc: Global,
    state: &mut HostState,
    reading: Moment,
    act: &Act,
) -> Result<Option<HostOutcome>, NoMemory>
    ensures config { OnOk result (state.new.config ≡ state.old.config) }
    ensures outcome { IfOk result (λ x. x ≡ outcome_of (act_turn state.old.config state.old.entries reading act.now)) }
    ensures entries { OnOk result (state.new.entries ≡ after_turn (act_turn state.old.config state.old.entries reading act.now) state.old.entries) }
{
    match act {
        Act::Clock(_) => Ok(None),
        Act::Submit { line, text } => {
            let submitted = submit(alloc, state, *line, reading, text.as_slice())?;
            Ok(Some(submitted))
        }
        Act::Retrieve { line, at } => {
            let retrieved = retrieve(state, *line, *at)?;
            Ok(Some(retrieved))
        }
    }
}

// The clock's reading after an event.
fn next_reading(reading: Moment, act: &Act) -> Moment
    ensures { result ≡ next_reading reading act.now }
{
    match act {
        Act::Clock(moment) => *moment,
        Act::Submit { .. } => reading,
        Act::Retrieve { .. } => reading,
    }
}

// The first minute of the opening date.
fn first_minute(config: &Config) -> Moment
    ensures { result ≡ opening_moment config.now }
{
    Moment::new(1_440 * config.date.get()).unwrap()
}

// What stands at the end.
fn closing(alloc: Global, state: &HostState) -> Result<Closing, NoMemory>
    ensures { IfOk result (λ c. c ≡ closing_of state.now.config state.now.entries) }
{
    let accounts = state.config().accounts.as_slice();
    let balances = balances(alloc, state, accounts)?;
    let endpoints = endpoints_of(alloc, accounts)?;
    let outputs = output_counts(alloc, state, endpoints.as_slice())?;
    Ok(Closing {
        cycle: state.cycle(),
        balances,
        outputs,
    })
}

#[tactic(auto, using(crate::proofs::Served::is_served))]
fn balances(alloc: Global, state: &HostState, accounts: &[Account]) -> Result<Balances, NoMemory>
    requires { accounts.now ≡ state.now.config.accounts }
    ensures { IfOk result (λ b. b ≡ balances_of state.now.config state.now.entries accounts.now) }
{
    let mut balances = Balances::new(alloc);
    for account in accounts {
        balances.push((account.aba, state.balance(&account.aba).unwrap()))?;
    }
    Ok(balances)
}

fn output_counts(
    alloc: Global,
    state: &HostState,
    endpoints: &[Endpoint],
) -> Result<Counts, NoMemory>
    ensures { IfOk result (λ n. n ≡ output_counts state.now.config state.now.entries endpoints.now) }
{
    let mut counts = Counts::new(alloc);
    for endpoint in endpoints {
        counts.push((*endpoint, state.outputs(*endpoint) as u64))?;
    }
    Ok(counts)
}
