// A bank is resumed, and handles the frames of its source one after another.
ghost use Rattle.std.specs.Prelude.{◌≡◌, ◌≢◌, ◌<◌, ℕ, List, Option, true, Ok, Err, IfOk, IfErr, IfSome, OnOk};
ghost use Rattle.site_core.specs.Log.{reads};
ghost use Rattle.site_core.specs.Told.{Counted, Goes};
ghost use Rattle.framed_input.specs.Counting.{CountsFault};
ghost use Rattle.link_frames.specs.Splits.{is_whole};
ghost use Rattle.node_session.specs.Ending.{AnswersImage, EndReason, Opens};
ghost use Rattle.node_session.specs.Going.{Going, HandlesNext, IsLaterEnd, IsStepEnd, TakesNext, end_of, still_to_come};
ghost use Rattle.node_session.specs.Serving.{Session};
ghost use Rattle.node_session.specs.Views.{View};
ghost use Rattle.bank_session.specs.BankKind.{bank_kind};

use bank_node::BankNode;
use framed_input::FrameReader;
use line_sessions::SessionEnd;
use node_session::{input_end, open_end, step_end};
use site_core::{Site, Source};
use std::alloc::Global;

/// A bank's session (docs/FORMATS.md, "Sessions"): it is resumed, and then for each frame in turn it reads on and handles the
/// frame, up to the end of the input or the first fault. It reads no clock, so `ClockFault` never comes. What each end leaves
/// stands at `SessionEnd`.
pub fn serve<I: Source, S: Site>(
    alloc: Global,
    input: &mut I,
    site: &mut S,
) -> Result<(), SessionEnd>
    // What came, how it ends, and each moment of the journal and of what was sent.
    ensures session { (given : Option (List ℕ)) → Session bank_kind result
        (record { left = I.left input.old; given = given; site = S.told site.old })
        (record { left = I.left input.new; given = given; site = S.told site.new }) }

    // What the answer says of the image, and what is answered to an image.
    ensures says { Goes (S.told site.old) (S.told site.new) (Opens bank_kind result) }
    ensures image { IfSome (S.told site.old) (λ told. AnswersImage bank_kind (reads told.log) result) }

    // Each object's fault comes exactly where it counted one in this call.
    ensures read_faults { CountsFault (result ≡ Err SessionEnd.ReadFault) (I.read_faults input.old) (I.read_faults input.new) }
    ensures timeless { result ≢ Err SessionEnd.ClockFault }
    ensures disk_faults { CountsFault (result ≡ Err SessionEnd.DiskFault) (S.disk_faults site.old) (S.disk_faults site.new) }
    ensures line_faults { CountsFault (result ≡ Err SessionEnd.LineFault) (S.line_faults site.old) (S.line_faults site.new) }
    ensures reason { Goes (S.told site.old) (S.told site.new) (EndReason result) }
{
    let mut reader = match FrameReader::new(alloc) {
        Ok(reader) => reader,
        Err(_) => return Err(SessionEnd::NoMemory),
    };
    let mut node = match BankNode::resume(alloc, site) {
        Ok(node) => node,
        Err(fault) => return Err(open_end(fault)),
    };
    loop {
        match take_next(&mut reader, &mut node, input, site) {
            Ok(true) => {}
            Ok(false) => return Ok(()),
            Err(end) => return Err(end),
        }
    }
}

// Reads on, and handles the next frame where one comes. Whether one came.
fn take_next<I: Source, S: Site>(
    reader: &mut FrameReader,
    node: &mut BankNode,
    input: &mut I,
    site: &mut S,
) -> Result<bool, SessionEnd>
    requires { node.old.live ≡ true }
    ensures live { result ≡ Ok true → node.new.live ≡ true }
    ensures fewer { result ≡ Ok true → still_to_come reader.new < still_to_come reader.old }
    ensures told { (start : View) (given : Option (List ℕ)) → Going bank_kind start reader.old node.old (record { left = I.left input.old; given = given; site = S.told site.old })
        → TakesNext bank_kind result start reader.new node.new (record { left = I.left input.new; given = given; site = S.told site.new }) }
    ensures never { IfErr result IsLaterEnd }
    ensures read_faults { CountsFault (result ≡ Err SessionEnd.ReadFault) (I.read_faults input.old) (I.read_faults input.new) }
    ensures timeless { result ≢ Err SessionEnd.ClockFault }
    ensures disk_faults { CountsFault (result ≡ Err SessionEnd.DiskFault) (S.disk_faults site.old) (S.disk_faults site.new) }
    ensures line_faults { CountsFault (result ≡ Err SessionEnd.LineFault) (S.line_faults site.old) (S.line_faults site.new) }
    ensures counted { Goes (S.told site.old) (S.told site.new) Counted }
    ensures reason { Goes (S.told site.old) (S.told site.new) (EndReason (end_of result)) }
{
    match reader.advance(input) {
        Ok(true) => match handle_front(reader, node, site) {
            Ok(()) => Ok(true),
            Err(end) => Err(end),
        },
        Ok(false) => Ok(false),
        Err(end) => Err(input_end(end)),
    }
}

// Handles the frame at the front.
fn handle_front<S: Site>(
    reader: &mut FrameReader,
    node: &mut BankNode,
    site: &mut S,
) -> Result<(), SessionEnd>
    requires whole { is_whole reader.old.held ≡ true }
    requires live { node.old.live ≡ true }
    ensures live { OnOk result (node.new.live ≡ true) }
    ensures fewer { OnOk result (still_to_come reader.new < still_to_come reader.old) }
    ensures told { (start : View) (left given : Option (List ℕ)) → Going bank_kind start reader.old node.old (record { left = left; given = given; site = S.told site.old })
        → HandlesNext bank_kind result start reader.new node.new (record { left = left; given = given; site = S.told site.new }) }
    ensures never { IfErr result IsStepEnd }
    ensures timeless { result ≢ Err SessionEnd.ClockFault }
    ensures disk_faults { CountsFault (result ≡ Err SessionEnd.DiskFault) (S.disk_faults site.old) (S.disk_faults site.new) }
    ensures line_faults { CountsFault (result ≡ Err SessionEnd.LineFault) (S.line_faults site.old) (S.line_faults site.new) }
    ensures counted { Goes (S.told site.old) (S.told site.new) Counted }
    ensures reason { Goes (S.told site.old) (S.told site.new) (EndReason result) }
{
    match reader.frame() {
        Some(frame) => {
            match node.handle(site, &frame) {
                Ok(_) => {}
                Err(fault) => return Err(step_end(fault)),
            }
        }
        None => unreachable!(),
    }
    reader.hand_out();
    Ok(())
}
