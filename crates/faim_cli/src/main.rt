//! The program: real objects for the top call, and its status as the exit status.
#![tactic(auto)]

ghost use Rattle.std.specs.Prelude.{◌≡◌};
ghost use Rattle.std.specs.Process.{exit_status};
ghost use Rattle.faim_top.specs.ExitCodes.{code_of};

mod adapters;
mod between;
mod faults;
mod file_site;
#[cfg(test)]
mod tests;
mod wall_clock;

use between::run_between;
use faim_base::{NoMemory, Places};
use faim_top::{Status, path_in, words_after_name};
use file_site::{FileSite, open_file};
use site_core::MemSite;
use std::alloc::Global;
use std::env;
use std::process::ExitCode;
use std::rt::Env;
use wall_clock::WallClock;

// How many sites the stage has.
const SITES: usize = 9;

fn main(rt: HostRuntime) -> ExitCode {
    let status = match all_words(&rt) {
        Ok(all) => run_on(&rt, words_after_name(all.as_slice())),
        Err(status) => status,
    };
    told(&rt, &status)
}

// The words of the command line, the program's name first, or how the run ends without them.
fn all_words<R: Env + AllocGlobal>(rt: &R) -> Result<Vec<String>, Status> {
    match env::args(rt) {
        Ok(all) => all.collect(rt.alloc()).map_err(|_| Status::NoMemory),
        Err(error) => Err(Status::without_words(error.kind())),
    }
}

// A run over the standard streams, the file that the words name, and the machine's clock. Where they name none, or it can't be
// opened, each call of the disk fails.
fn run_on(rt: &HostRuntime, words: &[String]) -> Status {
    let file = match path_in(words) {
        Some(path) => open_file(rt, path),
        None => None,
    };
    let mut site = FileSite::new(file, rt.stdout());
    let mut clock = WallClock::new(rt);
    let mut stage = match stage_of(rt.alloc()) {
        Ok(stage) => stage,
        Err(_) => return Status::NoMemory,
    };
    let ran = run_between(
        rt.alloc(),
        words,
        rt.stdin(),
        rt.stdout(),
        &mut site,
        &mut stage,
        &mut clock,
    );
    ran.status
}

// Nine empty sites in memory: of a host and of as many banks as a script may have.
fn stage_of(alloc: Global) -> Result<Vec<MemSite>, NoMemory> {
    let mut stage = Vec::with_capacity(alloc, SITES)?;
    for _ in 0..SITES {
        stage.push(MemSite::new(alloc, Places::new(alloc)))?;
    }
    Ok(stage)
}

// Tells on standard error how the run ended, where it isn't done, and gives the exit status.
fn told(rt: &impl Eprint, status: &Status) -> ExitCode
    ensures { exit_status result ≡ code_of status.now }
{
    if *status != Status::Done {
        let _ = rt.eprintln(*status);
    }
    ExitCode::from(status.code())
}
