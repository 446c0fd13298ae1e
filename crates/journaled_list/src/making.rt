// A list is made on an empty disk.
ghost use Rattle.std.specs.Prelude.{◌≡◌, ◌≤◌, [], Err, IfOk, OnOk};
ghost use Rattle.site_core.specs.Counts.{Rose};
ghost use Rattle.site_core.specs.Told.{Goes, HasReason};
ghost use Rattle.site_core.specs.Told.Part.{Disk};
ghost use Rattle.torn_journal.specs.Journal.{IsPayload};
ghost use Rattle.journaled_list.specs.Loading.{found_in};
ghost use Rattle.journaled_list.specs.Making.{Inits};

use crate::{Journaled, Kept};
use site_core::Site;
use std::alloc::Global;
use torn_journal::{CreateFault, create};

/// Makes the journal of a list without entries, whose opening is spelled, on an empty disk (docs/FORMATS.md, "Journals").
/// It makes the device calls of `torn_journal::create` and no others, and has its answers.
pub fn init<S: Site, L: Journaled>(
    alloc: Global,
    site: &mut S,
    list: L,
    opening: &[u8],
) -> Result<Kept<L>, CreateFault>
    requires opening { L.rules.IsOpening (L.list list).opening }
    requires spelled { opening.now ≡ L.rules.opening_bytes (L.list list).opening }
    requires empty { (L.list list).entries ≡ [] }
    requires payload { IsPayload opening.now }

    ensures told { Goes (S.told site.old) (S.told site.new) (Inits L.rules (found_in L.list) opening.now result) }
    ensures list { IfOk result (λ kept. (kept.list ≡ list) × (kept.last ≡ 0)) }
    ensures untouched { result ≡ Err CreateFault.NoMemory → site.new ≡ site.old }
    ensures later { S.disk_faults site.old ≤ S.disk_faults site.new }
    ensures kept { OnOk result (S.disk_faults site.new ≡ S.disk_faults site.old) }
    ensures not_empty { result ≡ Err CreateFault.NotEmpty → S.disk_faults site.new ≡ S.disk_faults site.old }
    ensures cause { result ≡ Err CreateFault.SiteFault → Rose (S.disk_faults site.old) (S.disk_faults site.new) }
    ensures reason { result ≡ Err CreateFault.SiteFault → Goes (S.told site.old) (S.told site.new) (HasReason Disk) }
    ensures line { S.line_faults site.new ≡ S.line_faults site.old }
{
    match create(alloc, site, opening) {
        Ok(journal) => Ok(Kept {
            list,
            journal,
            last: 0,
        }),
        Err(fault) => Err(fault),
    }
}
