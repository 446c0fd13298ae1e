// Frames are sent one after another, up to the first that fails.
ghost use Rattle.std.specs.Prelude.{◌≡◌, OnErr};
ghost use Rattle.site_core.specs.Counts.{HasCause};
ghost use Rattle.site_core.specs.Told.{Goes, HasReason};
ghost use Rattle.site_core.specs.Told.Part.{Line};
ghost use Rattle.store_forward.specs.Sending.{SendCalls, SendMoments};

use crate::Outbox;
use faim_base::Failed;
use site_core::Site;

/// Sends the frames in order, and none after one that failed. It makes no call of the disk.
///
/// After `Failed` the frames before the one that failed were sent, and that one was or it wasn't.
pub fn send_all<S: Site>(site: &mut S, outbox: &Outbox) -> Result<(), Failed>
    ensures told { Goes (S.told site.old) (S.told site.new) (SendCalls outbox.now result) }
    ensures moments { Goes (S.told site.old) (S.told site.new) (SendMoments outbox.now result) }
    ensures reason { OnErr result (Goes (S.told site.old) (S.told site.new) (HasReason Line)) }
    ensures cause { HasCause (S.line_faults site.old) (S.line_faults site.new) result }
    ensures disk { S.disk_faults site.new ≡ S.disk_faults site.old }
{
    for place in 0..outbox.len() {
        match site.send(outbox.frame(place)) {
            Ok(()) => {}
            Err(fault) => return Err(fault),
        }
    }
    Ok(())
}
