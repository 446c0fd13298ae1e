// A journal is read from its first record on, and each payload is handed to a visitor.
ghost use Rattle.std.specs.Prelude.{◌≡◌, [], IfSome, OnErr};
ghost use Rattle.site_core.specs.Counts.{HasCause};
ghost use Rattle.site_core.specs.Log.{reads};
ghost use Rattle.site_core.specs.Told.{Goes, HasReason};
ghost use Rattle.site_core.specs.Told.Part.{Disk};
ghost use Rattle.torn_journal.specs.Resume.{Says, AnswersImage, IsFaulty, HasLooked, Opens, no_fault};

use crate::limits::{GREATEST_TAIL, HEADER_LENGTH, RECORD_OVERHEAD};
use crate::reading::{Next, has_header, next_at};
use crate::{Journal, ResumeFault, Visit, VisitFault};
use faim_base::Failed;
use site_core::Site;
use std::alloc::Global;

/// Reads a journal (docs/FORMATS.md, "Journals"), and hands its payloads in order to the visitor, which stands for none
/// before.
///
/// It begins with a sync, and asks the disk at most twice for each record and four times more. At `Ok` the visitor
/// stands for the payloads that the image has. `NoHeader` comes exactly where the first 16 bytes aren't the header.
/// `Damaged` names the place of a gate up to which the image is a journal, and which lies past the end or at
/// 1,073,741,824 or above, or is open over a length of 0, over 131,072 or past the end, or over a payload that the
/// visitor refuses. Neither comes for an image that `create` and `append` wrote, of payloads that follow one another.
/// After an error the visitor isn't used again. The image and what was sent stay as they were.
pub fn resume<S: Site, V: Visit>(
    alloc: Global,
    site: &mut S,
    visit: &mut V,
) -> Result<Journal, ResumeFault>
    requires { V.stands visit.old [] }

    ensures says { Says V.follows (V.stands visit.new) (S.told site.old) result }
    ensures image { IfSome (S.told site.old) (λ told. AnswersImage V.follows (V.stands visit.new) (reads told.log) result) }
    ensures told { Goes (S.told site.old) (S.told site.new) (HasLooked (no_fault result)) }
    ensures faults { IsFaulty result (S.disk_faults site.old) (S.disk_faults site.new) }
    ensures reason { result ≡ Err ResumeFault.SiteFault → Goes (S.told site.old) (S.told site.new) (HasReason Disk) }
    ensures line { S.line_faults site.new ≡ S.line_faults site.old }
{
    if !opens(site)? {
        return Err(ResumeFault::NoHeader);
    }
    let mut buffer = Vec::new(alloc);
    let mut place = HEADER_LENGTH as u64;
    while place < GREATEST_TAIL {
        match next_at(site, place, &mut buffer)? {
            Next::Tail => return Ok(Journal { tail: place + 1 }),
            Next::Damage => return Err(ResumeFault::Damaged { place }),
            Next::Payload(_) => {}
        }
        match visit.take(&buffer) {
            Ok(()) => {}
            Err(VisitFault::Bad) => return Err(ResumeFault::Damaged { place }),
            Err(VisitFault::NoMemory) => return Err(ResumeFault::NoMemory),
        }
        place += (RECORD_OVERHEAD + buffer.len()) as u64;
    }
    Err(ResumeFault::Damaged { place })
}

// Makes what was written stable, so that no later stop changes what is read. Does the image begin with the header?
fn opens<S: Site>(site: &mut S) -> Result<bool, Failed>
    ensures told { Goes (S.told site.old) (S.told site.new) (Opens result) }
    ensures reason { OnErr result (Goes (S.told site.old) (S.told site.new) (HasReason Disk)) }
    ensures cause { HasCause (S.disk_faults site.old) (S.disk_faults site.new) result }
    ensures line { S.line_faults site.new ≡ S.line_faults site.old }
{
    site.sync()?;
    has_header(site)
}
