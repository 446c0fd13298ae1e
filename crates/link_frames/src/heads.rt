// What the first bytes of a frame say.
ghost use Rattle.std.specs.Prelude.{◌≡◌, ◌≤◌, ◌↔◌, IsTrue, IsSome, IfSome, true, length, take};
ghost use Rattle.std.specs.List.{list_all};
ghost use Rattle.faim_base.specs.Text.{is_name_byte};
ghost use Rattle.link_frames.specs.Frames.{IsFrame, content_of, frame_bytes};
ghost use Rattle.link_frames.specs.Held.{is_held};
ghost use Rattle.link_frames.specs.Splits.{fault_at, is_whole, kind_fault, length_at, may_be_length};

use crate::limits::{COUNTED, GREATEST_PAYLOAD, HEAD, LENGTH};
use crate::{Frame, FrameFault, FrameKind};
use faim_base::{Endpoint, after, array_of, before, is_name_byte};

// The first fault that the bytes at a frame's place show.
pub(crate) fn fault_at(bytes: &[u8]) -> Option<FrameFault>
    ensures { result ≡ fault_at bytes.now }
{
    if bytes.len() < LENGTH {
        return None;
    }
    let length = length_at(bytes);
    if may_be_length(length) {
        kind_fault(after(bytes, LENGTH))
    } else {
        Some(FrameFault::BadLength(length))
    }
}

// The number that the first four bytes give.
pub(crate) fn length_at(bytes: &[u8]) -> u32
    requires { 4 ≤ length bytes.now }
    ensures { result ≡ length_at bytes.now }
{
    u32::from_be_bytes([bytes[0], bytes[1], bytes[2], bytes[3]])
}

fn may_be_length(length: u32) -> bool
    ensures { result ≡ may_be_length length }
{
    let length = length as usize;
    COUNTED <= length && length <= COUNTED + GREATEST_PAYLOAD
}

// What is wrong with the kind, or with as much of the endpoint as there is.
fn kind_fault(bytes: &[u8]) -> Option<FrameFault>
    ensures { result ≡ kind_fault bytes.now }
{
    match bytes {
        [] => None,
        [kind, rest @ ..] => {
            if FrameKind::read(*kind).is_none() {
                Some(FrameFault::BadKind(*kind))
            } else if is_name(first_eight(rest)) {
                None
            } else {
                Some(FrameFault::BadEndpoint)
            }
        }
    }
}

// The first eight bytes, or as many as there are.
fn first_eight(bytes: &[u8]) -> &[u8]
    ensures { result.now ≡ take 8 bytes.now }
{
    &bytes[..bytes.len().min(8)]
}

// Each byte may stand in an endpoint's name.
fn is_name(bytes: &[u8]) -> bool
    ensures { result ≡ list_all is_name_byte bytes.now }
{
    bytes.iter().all(|b| is_name_byte(*b))
}

// A whole frame stands at the front.
pub(crate) fn is_whole(bytes: &[u8]) -> bool
    ensures { result ≡ is_whole bytes.now }
{
    bytes.len() >= LENGTH
        && bytes.len() >= LENGTH + length_at(bytes) as usize
        && fault_at(bytes).is_none()
}

// The frame that the bytes are. None exactly where they are no whole one.
pub(crate) fn frame_in(bytes: &[u8]) -> Option<Frame<'_>>
    requires { IsTrue (is_held bytes.now) }
    ensures there { IsSome result ↔ (is_whole bytes.now ≡ true) }
    ensures frame { IfSome result (λ f. (frame_bytes (content_of f) ≡ bytes.now) × IsFrame (content_of f)) }
{
    if !is_whole(bytes) {
        return None;
    }
    let kind = FrameKind::read(bytes[4])?;
    let endpoint = Endpoint::read(&array_of(&bytes[5..HEAD])?)?;
    Some(Frame {
        kind,
        name: endpoint.bytes(),
        payload: after(bytes, HEAD),
    })
}
