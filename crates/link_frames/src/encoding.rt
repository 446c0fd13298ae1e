// The bytes of a frame.
ghost use Rattle.std.specs.Prelude.{◌≡◌, ◌≤◌, ◌++◌, length, OnOk, OnErr};
ghost use Rattle.link_frames.specs.Frames.{IsFrame, content_of, frame_bytes, greatest_payload};

use crate::Frame;
use crate::limits::{COUNTED, HEAD};
use faim_base::NoMemory;

/// Appends the frame's bytes (docs/FORMATS.md, "Frames"). The payload has at most 8,192 bytes. `NoMemory` leaves `out`
/// as it was.
pub fn encode_frame(frame: &Frame<'_>, out: &mut Vec<u8>) -> Result<(), NoMemory>
    requires { length frame.now.payload.now ≤ greatest_payload }
    ensures ok { OnOk result (out.new.items ≡ out.old.items ++ frame_bytes (content_of frame.now)) }
    ensures frame { OnOk result (IsFrame (content_of frame.now)) }
    ensures err { OnErr result (out.new.items ≡ out.old.items) }
{
    out.reserve(HEAD + frame.payload.len())?;
    out.extend_from_slice(&((COUNTED + frame.payload.len()) as u32).to_be_bytes())?;
    out.push(frame.kind.byte())?;
    out.extend_from_slice(&frame.name)?;
    out.extend_from_slice(frame.payload)?;
    Ok(())
}
