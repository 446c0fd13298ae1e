// Why bytes could not be read.
ghost use Rattle.std.specs.Prelude.{◌≡◌};
ghost use Rattle.entry_codec.specs.declared.fault.CodecFault.TheVariants as faults;

/// Why bytes could not be read.
#[derive(Clone, Copy, Debug, PartialEq, Eq)]
pub enum CodecFault {
    /// No spelling stands there.
    Damaged,
    /// Memory ran out.
    NoMemory,
}

impl From<faim_base::NoMemory> for CodecFault {
    ghost from_gives = { λ _ e. e ≡ faults.NoMemory };

    fn from(_: faim_base::NoMemory) -> CodecFault {
        CodecFault::NoMemory
    }
}
