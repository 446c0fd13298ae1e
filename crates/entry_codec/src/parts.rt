// The parts of entries and configurations, each read from the front of some bytes.
ghost use Rattle.std.specs.Prelude.{◌≡◌, Some, IfErr, MatchResult};
ghost use Rattle.std.specs.Int.{w16, w32, w64};
ghost use Rattle.entry_codec.specs.Reading.{Gives, Fails, piece_at, number_at, byte_at, date_at, moment_at, seq_at, cents_at, endpoint_at, aba_at, code_at, kind_at, flag_at};

use crate::CodecFault;
use faim_base::{Aba, Cents, CycleDate, Endpoint, Moment, Seq, are_text};

// Bytes that are read from their front on. Each call gives the value that stands there and leaves what is after it in
// `rest`, or it fails. Those of an opening's parts say that they want no memory.
#[derive(Drop)]
pub(crate) struct Front<'a> {
    pub(crate) rest: &'a [u8],
}

impl<'a> Front<'a> {
    pub(crate) fn piece(&mut self, count: usize) -> Result<&'a [u8], CodecFault>
        ensures gives { MatchResult result (λ piece. piece_at count self.old.rest.now ≡ Some (piece.now, self.new.rest.now)) (λ fault. Fails fault (piece_at count self.old.rest.now)) }
        ensures only { IfErr result (λ fault. fault ≡ CodecFault.Damaged) }
    {
        if self.rest.len() < count {
            return Err(CodecFault::Damaged);
        }
        let (piece, rest) = self.rest.split_at(count);
        self.rest = rest;
        Ok(piece)
    }

    pub(crate) fn array<const N: usize>(&mut self) -> Result<[u8; N], CodecFault>
        ensures gives { Gives result (piece_at N self.old.rest.now) self.new.rest.now }
        ensures only { IfErr result (λ fault. fault ≡ CodecFault.Damaged) }
    {
        let mut array = [0; N];
        array.copy_from_slice(self.piece(N)?);
        Ok(array)
    }

    pub(crate) fn byte(&mut self) -> Result<u8, CodecFault>
        ensures gives { Gives result (byte_at self.old.rest.now) self.new.rest.now }
        ensures only { IfErr result (λ fault. fault ≡ CodecFault.Damaged) }
    {
        match self.rest {
            [] => Err(CodecFault::Damaged),
            [first, rest @ ..] => {
                self.rest = rest;
                Ok(*first)
            }
        }
    }

    pub(crate) fn u16(&mut self) -> Result<u16, CodecFault>
        ensures { Gives result (number_at w16 self.old.rest.now) self.new.rest.now }
    {
        Ok(u16::from_be_bytes(self.array()?))
    }

    pub(crate) fn u32(&mut self) -> Result<u32, CodecFault>
        ensures gives { Gives result (number_at w32 self.old.rest.now) self.new.rest.now }
        ensures only { IfErr result (λ fault. fault ≡ CodecFault.Damaged) }
    {
        Ok(u32::from_be_bytes(self.array()?))
    }

    pub(crate) fn u64(&mut self) -> Result<u64, CodecFault>
        ensures { Gives result (number_at w64 self.old.rest.now) self.new.rest.now }
    {
        Ok(u64::from_be_bytes(self.array()?))
    }

    #[tactic(auto, unfolding(crate::specs::Reading::date_at))]
    pub(crate) fn date(&mut self) -> Result<CycleDate, CodecFault>
        ensures gives { Gives result (date_at self.old.rest.now) self.new.rest.now }
        ensures only { IfErr result (λ fault. fault ≡ CodecFault.Damaged) }
    {
        CycleDate::new(self.u32()?).ok_or(CodecFault::Damaged)
    }

    #[tactic(auto, unfolding(crate::specs::Reading::moment_at))]
    pub(crate) fn moment(&mut self) -> Result<Moment, CodecFault>
        ensures { Gives result (moment_at self.old.rest.now) self.new.rest.now }
    {
        Moment::new(self.u32()?).ok_or(CodecFault::Damaged)
    }

    #[tactic(auto, unfolding(crate::specs::Reading::seq_at))]
    pub(crate) fn seq(&mut self) -> Result<Seq, CodecFault>
        ensures { Gives result (seq_at self.old.rest.now) self.new.rest.now }
    {
        Seq::new(self.u32()?).ok_or(CodecFault::Damaged)
    }

    #[tactic(auto, unfolding(crate::specs::Reading::cents_at))]
    pub(crate) fn cents(&mut self) -> Result<Cents, CodecFault>
        ensures { Gives result (cents_at self.old.rest.now) self.new.rest.now }
    {
        Cents::new(self.u64()?).ok_or(CodecFault::Damaged)
    }

    #[tactic(auto, unfolding(crate::specs::Reading::endpoint_at))]
    pub(crate) fn endpoint(&mut self) -> Result<Endpoint, CodecFault>
        ensures gives { Gives result (endpoint_at self.old.rest.now) self.new.rest.now }
        ensures only { IfErr result (λ fault. fault ≡ CodecFault.Damaged) }
    {
        Endpoint::read(&self.array()?).ok_or(CodecFault::Damaged)
    }

    #[tactic(auto, unfolding(crate::specs::Reading::aba_at))]
    pub(crate) fn aba(&mut self) -> Result<Aba, CodecFault>
        ensures { Gives result (aba_at self.old.rest.now) self.new.rest.now }
    {
        Aba::read(&self.array()?).ok_or(CodecFault::Damaged)
    }

    #[tactic(auto, unfolding(crate::specs::Reading::kind_at))]
    pub(crate) fn kind(&mut self) -> Result<u8, CodecFault>
        ensures { Gives result (kind_at self.old.rest.now) self.new.rest.now }
    {
        let number = self.byte()?;
        if number > 99 {
            return Err(CodecFault::Damaged);
        }
        Ok(number)
    }

    #[tactic(auto, unfolding(crate::specs::Reading::flag_at))]
    pub(crate) fn flag(&mut self) -> Result<bool, CodecFault>
        ensures { Gives result (flag_at self.old.rest.now) self.new.rest.now }
    {
        match self.byte()? {
            0 => Ok(false),
            1 => Ok(true),
            _ => Err(CodecFault::Damaged),
        }
    }

    #[tactic(auto, unfolding(crate::specs::Reading::code_at))]
    pub(crate) fn code(&mut self) -> Result<[u8; 3], CodecFault>
        ensures { Gives result (code_at self.old.rest.now) self.new.rest.now }
    {
        let code = self.array()?;
        if !are_text(&code) {
            return Err(CodecFault::Damaged);
        }
        Ok(code)
    }
}
