// A node's journal is made of a text (docs/FORMATS.md, "Commands").
ghost use Rattle.std.specs.Prelude.{◌≡◌, ◌≢◌, ◌+◌, List, ℕ, Option, Err, IfOk, IfSome, true};
ghost use Rattle.std.specs.Io.KnownBytes.{IsAtEnd};
ghost use Rattle.site_core.specs.Counts.{Rose};
ghost use Rattle.world_text.specs.declared.script.ScriptFault.{ScriptFault};
ghost use Rattle.world_text.specs.Grammar.{size_limit};
ghost use Rattle.faim_top.specs.Inits.{InitAnswer, InitEnded, IsTextOf, IsTextWith, MakesNode, RefusesText, makes_no_call};
ghost use Rattle.faim_top.specs.Seen.{CountsFaults, LosesAtMost, Seen, seen};

use crate::openings::Opening;
use crate::streams::{ReadEnd, read_up_to, write_all};
use crate::{Reason, Status};
use site_core::{Sink, Site, Source};
use std::alloc::Global;
use torn_journal::CreateFault;
use world_text::{SIZE_LIMIT, ScriptFault, ScriptRefused, print_fault};

// Why a source gives no opening.
enum NoOpening {
    Failed,
    Fault(ScriptFault),
    NoMemory,
}

// Makes the journal of a node whose opening a source gives, or writes why it gives none.
pub(crate) fn init<T: Opening, I: Source, O: Sink, S: Site>(
    alloc: Global,
    input: &mut I,
    out: &mut O,
    site: &mut S,
) -> Status
    ensures ended { (given : Seen (Option (List ℕ))) → InitEnded T.made result (record { left = seen I.left input.old input.new; written = seen O.written out.old out.new; site = seen S.told site.old site.new; given = given }) }
    ensures few { LosesAtMost (size_limit + 1) (seen I.left input.old input.new) }
    ensures quiet { makes_no_call result ≡ true → site.new ≡ site.old }
    ensures input_faults { CountsFaults (result ≡ Status.ReadFault) (seen I.read_faults input.old input.new) }
    ensures output_faults { CountsFaults (result ≡ Status.WriteFault) (seen O.write_faults out.old out.new) }
    ensures disk_faults { CountsFaults (result ≡ Status.DiskFault) (seen S.disk_faults site.old site.new) }
    ensures line_faults { S.line_faults site.new ≡ S.line_faults site.old }
    ensures complete { (Rose (I.read_faults input.old) (I.read_faults input.new) → ⊥) → (Rose (O.write_faults out.old) (O.write_faults out.new) → ⊥) → (Rose (S.disk_faults site.old) (S.disk_faults site.new) → ⊥)
        → result ≢ Status.NoMemory → IfSome (I.left input.old) (λ text. InitAnswer (T.made.opening_of text) (S.told site.old) result) }
{
    match opening_from::<T, I>(alloc, input) {
        Ok(opening) => make_node(alloc, site, opening),
        Err(NoOpening::Failed) => Status::ReadFault,
        Err(NoOpening::Fault(fault)) => refuse(alloc, out, &fault),
        Err(NoOpening::NoMemory) => Status::NoMemory,
    }
}

// The opening that all of a source is.
fn opening_from<T: Opening, I: Source>(alloc: Global, input: &mut I) -> Result<T, NoOpening>
    ensures opening { IfOk result (λ o. T.made.rules.IsOpening o × IsTextOf T.made (I.left input.old) o × IsAtEnd (I.left input.new)) }
    ensures fault { (f : ScriptFault) → result ≡ Err (NoOpening.Fault f) → IsTextWith T.made (I.left input.old) f }
    ensures few { LosesAtMost (size_limit + 1) (seen I.left input.old input.new) }
    ensures faults { CountsFaults (result ≡ Err NoOpening.Failed) (seen I.read_faults input.old input.new) }
{
    let text = match read_up_to(alloc, input, SIZE_LIMIT + 1) {
        Ok(text) => text,
        Err(ReadEnd::Failed) => return Err(NoOpening::Failed),
        Err(ReadEnd::NoMemory) => return Err(NoOpening::NoMemory),
    };
    match T::read(alloc, text.as_slice()) {
        Ok(opening) => Ok(opening),
        Err(ScriptRefused::Fault(fault)) => Err(NoOpening::Fault(fault)),
        Err(ScriptRefused::NoMemory) => Err(NoOpening::NoMemory),
    }
}

// Makes the node of an opening.
fn make_node<T: Opening, S: Site>(alloc: Global, site: &mut S, opening: T) -> Status
    requires { T.made.rules.IsOpening opening }
    ensures made { MakesNode T.made result opening (S.told site.old) (S.told site.new) }
    ensures quiet { makes_no_call result ≡ true → site.new ≡ site.old }
    ensures disk_faults { CountsFaults (result ≡ Status.DiskFault) (seen S.disk_faults site.old site.new) }
    ensures line_faults { S.line_faults site.new ≡ S.line_faults site.old }
{
    match opening.make(alloc, site) {
        Ok(_) => Status::Done,
        Err(CreateFault::SiteFault) => Status::DiskFault,
        Err(CreateFault::NotEmpty) => Status::NoJournal,
        Err(CreateFault::NoMemory) => Status::NoMemory,
    }
}

// Writes why a text is no opening.
fn refuse<O: Sink>(alloc: Global, out: &mut O, fault: &ScriptFault) -> Status
    ensures refuses { RefusesText result fault.now (seen O.written out.old out.new) }
    ensures output_faults { CountsFaults (result ≡ Status.WriteFault) (seen O.write_faults out.old out.new) }
{
    let mut line = Vec::new(alloc);
    match print_fault(alloc, fault, &mut line) {
        Ok(()) => match write_all(out, line.as_slice()) {
            Ok(()) => Status::Refused(Reason::Script(*fault)),
            Err(_) => Status::WriteFault,
        },
        Err(_) => Status::NoMemory,
    }
}
