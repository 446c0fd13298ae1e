// A sink in memory, which fails at the calls that a list names.
ghost use Rattle.std.specs.Prelude.{◌≡◌, ◌⊎◌, ◌<◌, ◌≤◌, ◌+◌, ◌-◌, ◌^◌, Some, [], min, length, Contains, IsErr, IfOk, OnOk};
ghost use Rattle.std.specs.Io.KnownBytes.{WriteAppends};
ghost use Rattle.site_core.specs.Counts.{HasCause, Rose};

use crate::Sink;
use crate::listed::fails_by_list;
use faim_base::{Bytes, Failed, Places};
use std::alloc::Global;

/// Bytes written to memory. A write takes the whole piece, or fails.
#[derive(Debug, Drop)]
pub struct MemSink {
    bytes: Bytes,
    fails: Places,
    calls: u64,
    faults: u64,
    lacks: u64,
}

impl MemSink {
    /// A sink that holds nothing yet. `fails` are the numbers, from 1, of the calls that fail.
    pub fn new(alloc: Global, fails: Places) -> MemSink
        ensures written { ⟦<MemSink as Sink>⟧.written result ≡ Some [] }
        ensures faults { ⟦<MemSink as Sink>⟧.write_faults result ≡ 0 }
        ensures lacks { result.lacks ≡ 0 }
        ensures fails { result.fails ≡ fails }
        ensures calls { result.calls ≡ 0 }
    {
        MemSink {
            bytes: Bytes::new(alloc),
            fails,
            calls: 0,
            faults: 0,
            lacks: 0,
        }
    }

    /// The bytes written so far.
    pub fn bytes(&self) -> &[u8]
        ensures { ⟦<MemSink as Sink>⟧.written self.now ≡ Some result.now }
    {
        self.bytes.as_slice()
    }

    /// How many writes failed because the sink found no memory. It rises at no other write, and never falls.
    pub fn lacks(&self) -> u64
        ensures { result ≡ self.now.lacks }
    {
        self.lacks
    }
}

impl Sink for MemSink {
    ghost written = { λ s. Some s.bytes };

    ghost write_faults = { λ s. s.faults };

    fn write(&mut self, piece: &[u8]) -> Result<usize, Failed>
        requires { 0 < length piece.now }
        ensures some { IfOk result (λ n. (0 < n) × (n ≤ length piece.now)) }
        ensures bytes { WriteAppends (Some self.old.bytes) (Some self.new.bytes) result piece.now }
        ensures cause { HasCause self.old.faults self.new.faults result }

        // It fails at the calls that are listed, where its count of calls is full, and else only where it finds no
        // memory; the count of these rises at such a call and at no other.
        ensures listed { Contains self.old.fails (self.old.calls + 1) ⊎ (self.old.calls ≡ 2 ^ 64 - 1) → IsErr result × (self.new.lacks ≡ self.old.lacks) }
        ensures fails { IsErr result → Contains self.old.fails (self.old.calls + 1) ⊎ ((self.old.calls ≡ 2 ^ 64 - 1) ⊎ Rose self.old.lacks self.new.lacks) }
        ensures whole { IfOk result (λ n. n ≡ length piece.now) }
        ensures calls { self.new.calls ≡ min (self.old.calls + 1) (2 ^ 64 - 1) }
        ensures lacks { self.old.lacks ≤ self.new.lacks }
        ensures no_lack { OnOk result (self.new.lacks ≡ self.old.lacks) }
    {
        if fails_by_list(self.fails.as_slice(), &mut self.calls, &mut self.faults) {
            return Err(Failed);
        }
        match self.bytes.extend(piece) {
            Ok(()) => Ok(piece.len()),
            Err(_) => {
                self.lacks = self.lacks.saturating_add(1);
                self.faults = self.faults.saturating_add(1);
                Err(Failed)
            }
        }
    }
}
