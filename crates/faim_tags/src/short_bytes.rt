// A few bytes without memory of their own.
ghost use Rattle.std.specs.Prelude.{◌≡◌, ◌<◌, ◌↔◌, length, slice_set, IfOk};
ghost use Rattle.std.specs.Result.{IsErr};

use faim_base::NoMemory;
use std::marker::Model;

// The greatest length of a star element. The fixed elements of a tag have fewer bytes together.
const MOST: usize = 35;

/// At most 35 bytes, as many as the elements of a tag have. They take no memory beside the value's own.
#[derive(Debug, Drop)]
pub struct ShortBytes {
    bytes: [u8; MOST],
    count: u8,
}

impl Model for ShortBytes {
    ghost use Rattle.std.specs.Prelude.{◌≤◌, List, ℕ, take};

    ghost Value = { List ℕ };

    ghost view = { λ s. take s.count s.bytes };

    ghost invariant = { λ s. s.count ≤ 35 };
}

impl ShortBytes {
    /// The same bytes. `NoMemory` comes exactly where they are more than 35: no element of a tag is so long.
    pub fn copied(bytes: &[u8]) -> Result<ShortBytes, NoMemory>
        ensures ok { IfOk result (λ copy. copy ≡ bytes.now) }
        ensures long { IsErr result ↔ (35 < length bytes.now) }
    {
        if MOST < bytes.len() {
            return Err(NoMemory);
        }
        let mut copy = [0; MOST];
        copy[..bytes.len()].copy_from_slice(bytes);
        Ok(ShortBytes {
            bytes: copy,
            count: bytes.len() as u8,
        })
    }

    /// The bytes in order.
    pub fn as_slice(&self) -> &[u8]
        ensures { result.now ≡ self.now }
    {
        &self.bytes[..usize::from(self.count)]
    }

    /// Puts a byte in at a place, where there is one.
    pub fn set(&mut self, place: usize, byte: u8)
        ensures { self.new ≡ slice_set self.old place byte }
    {
        if place < usize::from(self.count) {
            self.bytes[place] = byte;
        }
    }
}
