// A host is resumed, and handles the frames of its source one after another.
ghost use Rattle.std.specs.Prelude.{◌≡◌, ◌<◌, ℕ, List, Option, true, Ok, Err, IfOk, IfErr, IfSome, OnOk};
ghost use Rattle.site_core.specs.Log.{reads};
ghost use Rattle.site_core.specs.Told.{Counted, Goes};
ghost use Rattle.framed_input.specs.Counting.{CountsFault};
ghost use Rattle.link_frames.specs.Splits.{is_whole};
ghost use Rattle.node_session.specs.Ending.{AnswersImage, EndReason, Opens};
ghost use Rattle.node_session.specs.Going.{Going, HandlesNext, IsLaterEnd, IsStepEnd, TakesNext, end_of, still_to_come};
ghost use Rattle.node_session.specs.Serving.{Session};
ghost use Rattle.node_session.specs.Views.{View};
ghost use Rattle.host_session.specs.HostKind.{host_kind};

use framed_input::FrameReader;
use host_node::HostNode;
use line_sessions::SessionEnd;
use node_session::{input_end, open_end, step_end};
use site_core::{Clock, Site, Source};
use std::alloc::Global;

/// A host's session (docs/FORMATS.md, "Sessions"): it is resumed, and then for each frame in turn it reads on, reads its clock
/// once, and handles the frame, up to the end of the input or the first fault. What each end leaves stands at `SessionEnd`.
pub fn serve<I: Source, S: Site, C: Clock>(
    alloc: Global,
    input: &mut I,
    site: &mut S,
    clock: &mut C,
) -> Result<(), SessionEnd>
    // What came, how it ends, and each moment of the journal and of what was sent.
    ensures session { Session host_kind result
        (record { left = I.left input.old; given = C.given clock.old; site = S.told site.old })
        (record { left = I.left input.new; given = C.given clock.new; site = S.told site.new }) }

    // What the answer says of the image, and what is answered to an image.
    ensures says { Goes (S.told site.old) (S.told site.new) (Opens host_kind result) }
    ensures image { IfSome (S.told site.old) (λ told. AnswersImage host_kind (reads told.log) result) }

    // Each object's fault comes exactly where it counted one in this call.
    ensures read_faults { CountsFault (result ≡ Err SessionEnd.ReadFault) (I.read_faults input.old) (I.read_faults input.new) }
    ensures clock_faults { CountsFault (result ≡ Err SessionEnd.ClockFault) (C.clock_faults clock.old) (C.clock_faults clock.new) }
    ensures disk_faults { CountsFault (result ≡ Err SessionEnd.DiskFault) (S.disk_faults site.old) (S.disk_faults site.new) }
    ensures line_faults { CountsFault (result ≡ Err SessionEnd.LineFault) (S.line_faults site.old) (S.line_faults site.new) }
    ensures reason { Goes (S.told site.old) (S.told site.new) (EndReason result) }
{
    let mut reader = match FrameReader::new(alloc) {
        Ok(reader) => reader,
        Err(_) => return Err(SessionEnd::NoMemory),
    };
    let mut node = match HostNode::resume(alloc, site) {
        Ok(node) => node,
        Err(fault) => return Err(open_end(fault)),
    };
    loop {
        match take_next(&mut reader, &mut node, input, site, clock) {
            Ok(true) => {}
            Ok(false) => return Ok(()),
            Err(end) => return Err(end),
        }
    }
}

// Reads on, and handles the next frame where one comes. Whether one came.
fn take_next<I: Source, S: Site, C: Clock>(
    reader: &mut FrameReader,
    node: &mut HostNode,
    input: &mut I,
    site: &mut S,
    clock: &mut C,
) -> Result<bool, SessionEnd>
    requires { node.old.live ≡ true }
    ensures live { result ≡ Ok true → node.new.live ≡ true }
    ensures fewer { result ≡ Ok true → still_to_come reader.new < still_to_come reader.old }
    ensures told { (start : View) → Going host_kind start reader.old node.old (record { left = I.left input.old; given = C.given clock.old; site = S.told site.old })
        → TakesNext host_kind result start reader.new node.new (record { left = I.left input.new; given = C.given clock.new; site = S.told site.new }) }
    ensures never { IfErr result IsLaterEnd }
    ensures read_faults { CountsFault (result ≡ Err SessionEnd.ReadFault) (I.read_faults input.old) (I.read_faults input.new) }
    ensures clock_faults { CountsFault (result ≡ Err SessionEnd.ClockFault) (C.clock_faults clock.old) (C.clock_faults clock.new) }
    ensures disk_faults { CountsFault (result ≡ Err SessionEnd.DiskFault) (S.disk_faults site.old) (S.disk_faults site.new) }
    ensures line_faults { CountsFault (result ≡ Err SessionEnd.LineFault) (S.line_faults site.old) (S.line_faults site.new) }
    ensures counted { Goes (S.told site.old) (S.told site.new) Counted }
    ensures reason { Goes (S.told site.old) (S.told site.new) (EndReason (end_of result)) }
{
    match reader.advance(input) {
        Ok(true) => match handle_front(reader, node, site, clock) {
            Ok(()) => Ok(true),
            Err(end) => Err(end),
        },
        Ok(false) => Ok(false),
        Err(end) => Err(input_end(end)),
    }
}

// Handles the frame at the front at a reading of the clock.
fn handle_front<S: Site, C: Clock>(
    reader: &mut FrameReader,
    node: &mut HostNode,
    site: &mut S,
    clock: &mut C,
) -> Result<(), SessionEnd>
    requires whole { is_whole reader.old.held ≡ true }
    requires live { node.old.live ≡ true }
    ensures live { OnOk result (node.new.live ≡ true) }
    ensures fewer { OnOk result (still_to_come reader.new < still_to_come reader.old) }
    ensures told { (start : View) (left : Option (List ℕ)) → Going host_kind start reader.old node.old (record { left = left; given = C.given clock.old; site = S.told site.old })
        → HandlesNext host_kind result start reader.new node.new (record { left = left; given = C.given clock.new; site = S.told site.new }) }
    ensures never { IfErr result IsStepEnd }
    ensures clock_faults { CountsFault (result ≡ Err SessionEnd.ClockFault) (C.clock_faults clock.old) (C.clock_faults clock.new) }
    ensures disk_faults { CountsFault (result ≡ Err SessionEnd.DiskFault) (S.disk_faults site.old) (S.disk_faults site.new) }
    ensures line_faults { CountsFault (result ≡ Err SessionEnd.LineFault) (S.line_faults site.old) (S.line_faults site.new) }
    ensures counted { Goes (S.told site.old) (S.told site.new) Counted }
    ensures reason { Goes (S.told site.old) (S.told site.new) (EndReason result) }
{
    match reader.frame() {
        Some(frame) => {
            let reading = match clock.now() {
                Ok(reading) => reading,
                Err(_) => return Err(SessionEnd::ClockFault),
            };
            // Its range is known once its number is read.
            let _minutes = reading.get();
            match node.handle(site, &frame, reading) {
                Ok(_) => {}
                Err(fault) => return Err(step_end(fault)),
            }
        }
        None => unreachable!(),
    }
    reader.hand_out();
    Ok(())
}
