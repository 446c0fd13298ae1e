// The top call.
ghost use Rattle.std.specs.Prelude.{◌≡◌, ◌≢◌, ◌↔◌, Some, IsNone, IfSome, IfOk, true, false};
ghost use Rattle.site_core.specs.Counts.{Rose};
ghost use Rattle.faim_top.specs.Accords.{StaysInAccord};
ghost use Rattle.faim_top.specs.Commands.{Carried, Completed, makes_journal, most_taken, uses_clock, uses_input, uses_output, uses_site};
ghost use Rattle.faim_top.specs.Ends.{Ended, IsAnswered, input_of, most_read};
ghost use Rattle.faim_top.specs.Inits.{makes_no_call};
ghost use Rattle.faim_top.specs.Promises.{KeepsPromises};
ghost use Rattle.faim_top.specs.Seen.{CountsFaults, LosesAtMost, seen};
ghost use Rattle.faim_top.specs.Sources.{TakesLittleBeyond};
ghost use Rattle.faim_top.specs.Words.{command_of, texts};
ghost use Rattle.world_text.specs.Grammar.{script_of};

use crate::answers::answer_to;
use crate::inits::init;
use crate::sessions::{serve_bank, serve_host};
use crate::streams::{ReadEnd, write_all};
use crate::{Command, Query, Status, promises_kept};
use bank_books::BankOpening;
use host_ledger::Config;
use site_core::{Clock, Sink, Site, Source, StopSite};
use std::alloc::Global;
use world_text::scripts_are_sound;

/// Does all that the program does: what the words ask for, over its input and its output, the site of a journal and a line, a
/// stage of sites, and a clock (docs/FORMATS.md, "Commands").
pub fn run<I: Source, O: Sink, S: Site, M: StopSite, C: Clock>(
    alloc: Global,
    words: &[String],
    input: &mut I,
    out: &mut O,
    site: &mut S,
    stage: &mut Vec<M>,
    clock: &mut C,
) -> Status
    // Other words are no command.
    ensures usage { (result ≡ Status.Usage) ↔ IsNone (command_of (texts words.now)) }

    // What each status of a command says of what its objects tell.
    ensures ended { IfSome (command_of (texts words.now)) (λ command. Carried command result (record {
      left = seen I.left input.old input.new;
      written = seen O.written out.old out.new;
      site = seen S.told site.old site.new;
      given = seen C.given clock.old clock.new;
    })) }

    // A command leaves the objects that it doesn't use as they were, and words that are no command leave all.
    ensures input { uses_input (command_of (texts words.now)) ≡ false → input.new ≡ input.old }
    ensures output { uses_output (command_of (texts words.now)) ≡ false → out.new ≡ out.old }
    ensures site { uses_site (command_of (texts words.now)) ≡ false → site.new ≡ site.old }
    ensures clock { uses_clock (command_of (texts words.now)) ≡ false → clock.new ≡ clock.old }
    ensures stage { stage.new ≡ stage.old }

    // An init that is refused makes no device call.
    ensures quiet { makes_journal (command_of (texts words.now)) ≡ true → makes_no_call result ≡ true → site.new ≡ site.old }

    // No more is read than one byte beyond what the command takes.
    ensures few { IfSome (command_of (texts words.now)) (λ command. LosesAtMost (most_taken command) (seen I.left input.old input.new)) }

    // A check takes no more than 4,096 bytes beyond the first byte with which no message goes on, whatever the status.
    ensures stops { command_of (texts words.now) ≡ Some (Command.Answer Query.Check) → TakesLittleBeyond (seen I.left input.old input.new) }

    // Each object's fault comes exactly where it counted one in this call.
    ensures input_faults { CountsFaults (result ≡ Status.ReadFault) (seen I.read_faults input.old input.new) }
    ensures output_faults { CountsFaults (result ≡ Status.WriteFault) (seen O.write_faults out.old out.new) }
    ensures disk_faults { CountsFaults (result ≡ Status.DiskFault) (seen S.disk_faults site.old site.new) }
    ensures line_faults { CountsFaults (result ≡ Status.LineFault) (seen S.line_faults site.old site.new) }
    ensures clock_faults { CountsFaults (result ≡ Status.ClockFault) (seen C.clock_faults clock.old clock.new) }

    // Where none was counted and memory is there, the status is that of the command's answer to what its objects tell.
    ensures complete { (Rose (I.read_faults input.old) (I.read_faults input.new) → ⊥) → (Rose (O.write_faults out.old) (O.write_faults out.new) → ⊥)
        → (Rose (S.disk_faults site.old) (S.disk_faults site.new) → ⊥) → (Rose (S.line_faults site.old) (S.line_faults site.new) → ⊥)
        → (Rose (C.clock_faults clock.old) (C.clock_faults clock.new) → ⊥) → result ≢ Status.NoMemory
        → IfSome (command_of (texts words.now)) (λ command. Completed command result (record {
          left = seen I.left input.old input.new;
          written = seen O.written out.old out.new;
          site = seen S.told site.old site.new;
          given = seen C.given clock.old clock.new;
        })) }

    // Whatever host covers the acknowledgements and outputs that a bank reads, its verdicts and its inbox stay those of that host.
    ensures accord { command_of (texts words.now) ≡ Some Command.Bank → IfSome (I.left input.old) (λ whole. StaysInAccord whole (S.told site.old) (S.told site.new)) }

    // The list of entries, after each event of the script.
    ensures promises { command_of (texts words.now) ≡ Some (Command.Answer Query.Replay) → result ≡ Status.Done → IfSome (I.left input.old) (λ text. IfOk (script_of text) KeepsPromises) }
{
    promises_kept();
    scripts_are_sound();
    match Command::read(words) {
        None => Status::Usage,
        Some(Command::Answer(query)) => carry_out(alloc, query, input, out),
        Some(Command::HostInit) => init::<Config, I, O, S>(alloc, input, out, site),
        Some(Command::Host) => serve_host(alloc, input, site, clock),
        Some(Command::Bank) => serve_bank(alloc, input, site),
        Some(Command::BankInit) => init::<BankOpening, I, O, S>(alloc, input, out, site),
    }
}

// Writes the answer to a query's input.
fn carry_out<I: Source, O: Sink>(alloc: Global, query: Query, input: &mut I, out: &mut O) -> Status
    ensures ended { Ended query result (record { left = seen I.left input.old input.new; written = seen O.written out.old out.new }) }
    ensures few { LosesAtMost (most_read query) (seen I.left input.old input.new) }
    ensures table { query ≡ Query.Table → input.new ≡ input.old }
    ensures stops { query ≡ Query.Check → TakesLittleBeyond (seen I.left input.old input.new) }
    ensures input_faults { CountsFaults (result ≡ Status.ReadFault) (seen I.read_faults input.old input.new) }
    ensures output_faults { CountsFaults (result ≡ Status.WriteFault) (seen O.write_faults out.old out.new) }
    ensures complete { (Rose (I.read_faults input.old) (I.read_faults input.new) → ⊥) → (Rose (O.write_faults out.old) (O.write_faults out.new) → ⊥)
        → result ≢ Status.NoMemory → IfSome (input_of query (I.left input.old)) (IsAnswered query result) }
{
    let (answer, status) = match answer_to(alloc, query, input) {
        Ok(answer) => answer,
        Err(ReadEnd::Failed) => return Status::ReadFault,
        Err(ReadEnd::NoMemory) => return Status::NoMemory,
    };
    match write_all(out, answer.as_slice()) {
        Ok(()) => status,
        Err(_) => Status::WriteFault,
    }
}
