// The first image of a journal: its header, the opening after an open gate, and a closed gate.
ghost use Rattle.std.specs.Prelude.{◌≡◌, ◌≤◌, ◌∷◌, [], IfOk, OnOk};
ghost use Rattle.site_core.specs.Counts.{Rose};
ghost use Rattle.site_core.specs.Told.{Goes, HasReason};
ghost use Rattle.site_core.specs.Told.Part.{Disk};
ghost use Rattle.torn_journal.specs.Create.{first_image, Creates};
ghost use Rattle.torn_journal.specs.Journal.{IsPayload, tail_of};

use crate::append::secure;
use crate::journal::{HEADER, OPEN_GATE};
use crate::{CreateFault, Journal, frame_payload};
use faim_base::NoMemory;
use site_core::Site;
use std::alloc::Global;

/// Makes a journal of one payload, of 1 to 131,072 bytes, on an empty disk (docs/FORMATS.md, "Journals"). After `Ok`
/// each stop leaves it. At most three device calls are made: the size, one write, a sync.
///
/// `NotEmpty` comes exactly where the size isn't 0, and leaves the image as it is. `NoMemory` comes before any device
/// call. After `SiteFault` the image may be anything that the write leaves when it is cut short.
pub fn create<S: Site>(alloc: Global, site: &mut S, opening: &[u8]) -> Result<Journal, CreateFault>
    requires { IsPayload opening.now }

    ensures told { Goes (S.told site.old) (S.told site.new) (Creates opening.now result) }
    ensures tail { IfOk result (λ journal. journal ≡ tail_of (opening.now ∷ [])) }
    ensures untouched { result ≡ Err CreateFault.NoMemory → site.new ≡ site.old }
    ensures later { S.disk_faults site.old ≤ S.disk_faults site.new }
    ensures kept { OnOk result (S.disk_faults site.new ≡ S.disk_faults site.old) }
    ensures not_empty { result ≡ Err CreateFault.NotEmpty → S.disk_faults site.new ≡ S.disk_faults site.old }
    ensures cause { result ≡ Err CreateFault.SiteFault → Rose (S.disk_faults site.old) (S.disk_faults site.new) }
    ensures reason { result ≡ Err CreateFault.SiteFault → Goes (S.told site.old) (S.told site.new) (HasReason Disk) }
    ensures line { S.line_faults site.new ≡ S.line_faults site.old }
{
    let image = image_of(alloc, opening)?;
    if site.size()? != 0 {
        return Err(CreateFault::NotEmpty);
    }
    secure(site, 0, &image)?;
    Ok(Journal {
        tail: image.len() as u64,
    })
}

fn image_of(alloc: Global, opening: &[u8]) -> Result<Vec<u8>, NoMemory>
    requires { IsPayload opening.now }
    ensures { IfOk result (λ image. image.items ≡ first_image opening.now) }
{
    let mut image = Vec::new(alloc);
    image.extend_from_slice(&HEADER)?;
    image.push(OPEN_GATE)?;
    frame_payload(opening, &mut image)?;
    Ok(image)
}
