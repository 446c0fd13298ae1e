// The journal of a list is read.
ghost use Rattle.std.specs.Prelude.{◌≡◌, ◌≢◌, IfSome, Err};
ghost use Rattle.site_core.specs.Log.{reads};
ghost use Rattle.site_core.specs.Told.{Goes};
ghost use Rattle.torn_journal.specs.Resume.{HasLooked};
ghost use Rattle.journaled_list.specs.Loading.{SaysOfImage, AnswersImage, found_in, no_disk_fault};
ghost use Rattle.journaled_list.specs.Faults.{OpenReason, OpenDiskCount};

use crate::reading::Loading;
use crate::{Journaled, Kept, OpenFault};
use site_core::Site;
use std::alloc::Global;
use torn_journal::ResumeFault;

// The place of the first gate.
const FIRST_GATE: u64 = 16;

// Reads the list that the image stands for.
pub(crate) fn load<S: Site, L: Journaled>(
    alloc: Global,
    reader: L::Reader,
    site: &mut S,
) -> Result<Kept<L>, OpenFault>
    ensures says { SaysOfImage L.rules (found_in L.list) (S.told site.old) result }
    ensures image { IfSome (S.told site.old) (λ told. AnswersImage L.rules (found_in L.list) (reads told.log) result) }
    ensures told { Goes (S.told site.old) (S.told site.new) (HasLooked (no_disk_fault result)) }
    ensures never { result ≢ Err OpenFault.LineFault }
    ensures reason { Goes (S.told site.old) (S.told site.new) (OpenReason result) }
    ensures disk { OpenDiskCount result (S.disk_faults site.old) (S.disk_faults site.new) }
    ensures line { S.line_faults site.new ≡ S.line_faults site.old }
{
    let mut loading: Loading<L> = Loading {
        reader,
        list: None,
        last: 0,
    };
    match torn_journal::resume(alloc, site, &mut loading) {
        Ok(journal) => {
            let Loading { list, last, .. } = loading;
            match list {
                Some(list) => Ok(Kept {
                    list,
                    journal,
                    last,
                }),
                None => Err(OpenFault::Damaged { place: FIRST_GATE }),
            }
        }
        Err(ResumeFault::SiteFault) => Err(OpenFault::SiteFault),
        Err(ResumeFault::NoHeader) => Err(OpenFault::NoHeader),
        Err(ResumeFault::Damaged { place }) => Err(OpenFault::Damaged { place }),
        Err(ResumeFault::NoMemory) => Err(OpenFault::NoMemory),
    }
}
