// What goes over a line (docs/FORMATS.md, "Frames").
ghost use Rattle.std.specs.Prelude.{◌≡◌, IsTrue};
ghost use Rattle.faim_base.specs.Text.{is_endpoint};
ghost use Rattle.link_frames.specs.Kinds.{kind_byte, kind_of};

use faim_base::Endpoint;

/// What a frame is for, with its byte 1 to 7 (docs/FORMATS.md, "Frames").
#[derive(Clone, Copy, Debug, PartialEq, Eq)]
pub enum FrameKind {
    /// A submission, from a bank to its host.
    Submit,
    /// A position, from which on a bank asks for its outputs again.
    Retrieve,
    /// An acknowledgement, from the host to a bank.
    Ack,
    /// A delivery, from the host to a bank.
    Output,
    /// A new cycle date, from the operator to the host.
    Roll,
    /// A draft that a bank is to number and submit.
    Draft,
    /// A reminder that a bank is to send again what has no answer.
    Tick,
}

impl FrameKind {
    /// The byte of the kind.
    pub fn byte(self) -> u8
        ensures { result ≡ kind_byte self }
    {
        match self {
            FrameKind::Submit => 1,
            FrameKind::Retrieve => 2,
            FrameKind::Ack => 3,
            FrameKind::Output => 4,
            FrameKind::Roll => 5,
            FrameKind::Draft => 6,
            FrameKind::Tick => 7,
        }
    }

    /// The kind of the byte. None exactly where it isn't 1 to 7.
    pub fn read(byte: u8) -> Option<FrameKind>
        ensures { result ≡ kind_of byte }
    {
        match byte {
            1 => Some(FrameKind::Submit),
            2 => Some(FrameKind::Retrieve),
            3 => Some(FrameKind::Ack),
            4 => Some(FrameKind::Output),
            5 => Some(FrameKind::Roll),
            6 => Some(FrameKind::Draft),
            7 => Some(FrameKind::Tick),
            _ => None,
        }
    }
}

/// A frame: its kind, the endpoint whose line it goes over, and at most 8,192 bytes of payload.
#[derive(Clone, Copy, Debug)]
pub struct Frame<'a> {
    pub kind: FrameKind,
    pub(crate) name: [u8; 8],
    pub payload: &'a [u8],
    ghost named: { IsTrue (is_endpoint name) },
}

impl<'a> Frame<'a> {
    ghost use Rattle.link_frames.specs.Frames.{content_of};

    /// A frame of these parts.
    pub fn new(kind: FrameKind, endpoint: Endpoint, payload: &'a [u8]) -> Frame<'a>
        ensures { content_of result ≡ record { kind = kind; endpoint = endpoint; payload = payload.now } }
    {
        Frame {
            kind,
            name: endpoint.bytes(),
            payload,
        }
    }

    /// The endpoint whose line it goes over.
    pub fn endpoint(&self) -> Endpoint
        ensures { result ≡ (content_of self.now).endpoint }
    {
        match Endpoint::read(&self.name) {
            Some(endpoint) => endpoint,
            None => unreachable!(),
        }
    }
}
