// A payload as it is written after a gate (docs/FORMATS.md, "Journals").
ghost use Rattle.std.specs.Prelude.{◌≡◌, ◌++◌, OnOk, OnErr};
ghost use Rattle.torn_journal.specs.Journal.{IsPayload, IsFramed, framed_of, payload_of};

use crate::journal::CLOSED_GATE;
use crate::limits::RECORD_OVERHEAD;
use faim_base::NoMemory;

/// Appends the length, the payload and a closed gate, five bytes beside the payload's 1 to 131,072, or changes nothing.
///
/// `NoMemory` leaves what stood before.
pub fn frame_payload(payload: &[u8], out: &mut Vec<u8>) -> Result<(), NoMemory>
    requires { IsPayload payload.now }
    ensures ok { OnOk result (out.new.items ≡ out.old.items ++ framed_of payload.now) }
    ensures framed { IsFramed (framed_of payload.now) }
    ensures payload { payload_of (framed_of payload.now) ≡ payload.now }
    ensures err { OnErr result (out.new.items ≡ out.old.items) }
{
    out.reserve(payload.len() + RECORD_OVERHEAD)?;
    out.extend_from_slice(&(payload.len() as u32).to_be_bytes())?;
    out.extend_from_slice(payload)?;
    out.push(CLOSED_GATE)?;
    Ok(())
}
