// A list is read from its journal, and what its last record gave is sent again.
ghost use Rattle.std.specs.Prelude.{◌≡◌, ◌≢◌, IfSome, IfOk, Err};
ghost use Rattle.site_core.specs.Log.{reads};
ghost use Rattle.site_core.specs.Told.{Goes};
ghost use Rattle.torn_journal.specs.Resume.{HasLooked};
ghost use Rattle.journaled_list.specs.Loading.{SaysOfImage, AnswersImage, found_in, no_disk_fault};
ghost use Rattle.journaled_list.specs.Faults.{OpenReason, OpenDiskCount, OpenLineCount};
ghost use Rattle.journaled_list.specs.Resuming.{ResumeCalls, ResumesAll, none_again};

use crate::loading::load;
use crate::{Journaled, Kept, OpenFault};
use site_core::Site;
use std::alloc::Global;
use store_forward::{Outbox, send_all};

/// Reads the list that a site's journal keeps, and then sends the frames of its last record again (docs/MODEL.md, "Lists in
/// journals"). The outbox is cleared, and at `Ok` has those frames.
///
/// It asks the disk at most twice for each record and five times more, and sends once for each frame. `NoHeader` comes
/// exactly where the first 16 bytes aren't the header, and `Damaged` exactly where the image stands for no list, with
/// the place of the gate from which on it doesn't: 16 where the first gate isn't open. `NoMemory` comes before the first
/// frame. After each answer the image reads as before.
pub fn resume<S: Site, L: Journaled>(
    alloc: Global,
    reader: L::Reader,
    site: &mut S,
    outbox: &mut Outbox,
) -> Result<Kept<L>, OpenFault>
    ensures says { SaysOfImage L.rules (found_in L.list) (S.told site.old) result }
    ensures image { IfSome (S.told site.old) (λ told. AnswersImage L.rules (found_in L.list) (reads told.log) result) }
    ensures calls { Goes (S.told site.old) (S.told site.new) (ResumeCalls L.rules (found_in L.list) L.again result) }
    ensures moments { Goes (S.told site.old) (S.told site.new) (ResumesAll L.rules (found_in L.list) L.again result) }
    ensures outbox { IfOk result (λ kept. outbox.new ≡ L.again (L.list kept.list) kept.last) }
    ensures reason { Goes (S.told site.old) (S.told site.new) (OpenReason result) }
    ensures disk { OpenDiskCount result (S.disk_faults site.old) (S.disk_faults site.new) }
    ensures line { OpenLineCount result (S.line_faults site.old) (S.line_faults site.new) }
{
    let loaded: Result<Kept<L>, OpenFault> = load(alloc, reader, site);
    match loaded {
        Ok(kept) => {
            outbox.clear();
            match kept.list.send_again(kept.last, outbox) {
                Ok(()) => match send_all(site, outbox) {
                    Ok(()) => Ok(kept),
                    Err(_) => Err(OpenFault::LineFault),
                },
                Err(_) => Err(OpenFault::NoMemory),
            }
        }
        Err(fault) => Err(fault),
    }
}

/// Reads the list that a site's journal keeps, and sends nothing (docs/MODEL.md, "Lists in journals"): `LineFault` never
/// comes.
///
/// It asks the disk at most twice for each record and five times more, and answers `NoHeader` and `Damaged` as `resume` does.
/// After each answer the image reads as before.
pub fn read_back<S: Site, L: Journaled>(
    alloc: Global,
    reader: L::Reader,
    site: &mut S,
) -> Result<Kept<L>, OpenFault>
    ensures says { SaysOfImage L.rules (found_in L.list) (S.told site.old) result }
    ensures image { IfSome (S.told site.old) (λ told. AnswersImage L.rules (found_in L.list) (reads told.log) result) }
    ensures calls { Goes (S.told site.old) (S.told site.new) (HasLooked (no_disk_fault result)) }
    ensures moments { Goes (S.told site.old) (S.told site.new) (ResumesAll L.rules (found_in L.list) none_again result) }
    ensures never { result ≢ Err OpenFault.LineFault }
    ensures reason { Goes (S.told site.old) (S.told site.new) (OpenReason result) }
    ensures disk { OpenDiskCount result (S.disk_faults site.old) (S.disk_faults site.new) }
    ensures line { S.line_faults site.new ≡ S.line_faults site.old }
{
    let loaded: Result<Kept<L>, OpenFault> = load(alloc, reader, site);
    match loaded {
        Ok(kept) => Ok(kept),
        Err(fault) => Err(fault),
    }
}
