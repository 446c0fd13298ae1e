// A run between a reader and a writer.
ghost use Rattle.std.specs.Prelude.{◌≡◌, ◌↔◌, Some, IsNone, IfSome, IfOk, false, true};
ghost use Rattle.faim_top.specs.declared.command.Command.{Command};
ghost use Rattle.faim_top.specs.declared.command.Command.TheVariants.{Answer};
ghost use Rattle.faim_top.specs.declared.query.Query.{Query};
ghost use Rattle.faim_top.specs.declared.status.Status.TheVariants as statuses;
ghost use Rattle.faim_top.specs.Commands.{Carried, makes_journal, most_taken, uses_clock, uses_site};
ghost use Rattle.faim_top.specs.Inits.{makes_no_call};
ghost use Rattle.faim_top.specs.Promises.{KeepsPromises};
ghost use Rattle.faim_top.specs.Seen.{LosesAtMost, seen};
ghost use Rattle.faim_top.specs.Sources.{TakesLittleBeyond};
ghost use Rattle.faim_top.specs.Words.{command_of, texts};
ghost use Rattle.world_text.specs.Grammar.{script_of};

use crate::adapters::{StdSink, StdSource};
use faim_top::{Status, run};
use site_core::{Clock, Site, StopSite};
use std::alloc::Global;
use std::io::{Read, Write};

/// How a run ended, and its reader and writer as it left them.
#[derive(Drop)]
pub struct Ran<R: Read, W: Write> {
    pub status: Status,
    pub reader: R,
    pub writer: W,
}

/// The top call over a reader and a writer, a site, a stage of sites and a clock. Where they tell what goes through them, its
/// clauses speak of that.
pub fn run_between<R: Read, W: Write, S: Site, M: StopSite, C: Clock>(
    alloc: Global,
    words: &[String],
    reader: R,
    writer: W,
    site: &mut S,
    stage: &mut Vec<M>,
    clock: &mut C,
) -> Ran<R, W>
    ensures usage { (result.status ≡ statuses.Usage) ↔ IsNone (command_of (texts words.now)) }
    ensures ended { IfSome (command_of (texts words.now)) (λ command. Carried command result.status (record {
      left = seen R.remaining reader result.reader;
      written = seen W.contents writer result.writer;
      site = seen S.told site.old site.new;
      given = seen C.given clock.old clock.new;
    })) }
    ensures site { uses_site (command_of (texts words.now)) ≡ false → site.new ≡ site.old }
    ensures stage { stage.new ≡ stage.old }
    ensures clock { uses_clock (command_of (texts words.now)) ≡ false → clock.new ≡ clock.old }
    ensures quiet { makes_journal (command_of (texts words.now)) ≡ true → makes_no_call result.status ≡ true → site.new ≡ site.old }
    ensures few { IfSome (command_of (texts words.now)) (λ command. LosesAtMost (most_taken command) (seen R.remaining reader result.reader)) }
    ensures stops { command_of (texts words.now) ≡ Some (Answer Query.Check) → TakesLittleBeyond (seen R.remaining reader result.reader) }
    ensures promises { command_of (texts words.now) ≡ Some (Answer Query.Replay) → result.status ≡ statuses.Done → IfSome (R.remaining reader) (λ text. IfOk (script_of text) KeepsPromises) }
{
    let mut input = StdSource::new(reader);
    let mut out = StdSink::new(writer);
    let status = run(alloc, words, &mut input, &mut out, site, stage, clock);
    Ran {
        status,
        reader: input.into_reader(),
        writer: out.into_writer(),
    }
}
