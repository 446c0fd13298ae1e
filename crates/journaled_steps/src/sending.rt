// A step that adds nothing: its frames are sent.
ghost use Rattle.std.specs.Prelude.{◌≡◌, ◌⊎◌, ℕ, Ok, Err, None, true};
ghost use Rattle.site_core.specs.Told.{Goes};
ghost use Rattle.journaled_steps.specs.Faults.{DiskCount, LineCount, FaultReason, IfUnchanged};
ghost use Rattle.journaled_steps.specs.Node.{Node};
ghost use Rattle.journaled_steps.specs.Steps.{HandlesAll, HasRoom, NodeAfter, StepCalls, StepSends, sends_only};

use crate::StepFault;
use journaled_list::{Journaled, Kept};
use site_core::Site;
use store_forward::{Outbox, send_all, sends_are_in_order};

/// Sends the frames of a step that adds nothing, with this outcome (docs/MODEL.md, "Steps of a node"). The list in its
/// journal tells by its type which lists are spoken of, and isn't looked at.
///
/// What each fault leaves stands at `StepFault`; only that of the line comes.
pub fn send_step<S: Site, L: Journaled, X: Copy>(
    _kept: &Kept<L>,
    site: &mut S,
    outbox: &Outbox,
    outcome: X,
) -> Result<X, StepFault>
    ensures node { (node : Node L.Opening L.Entry) → node.live ≡ true → NodeAfter L.rules result (sends_only outbox.now outcome) node node }
    ensures room { (tail : ℕ) → HasRoom L.rules result None tail }
    ensures calls { (tail : ℕ) → Goes (S.told site.old) (S.told site.new) (StepCalls L.rules None outbox.now tail result) }
    ensures sent { Goes (S.told site.old) (S.told site.new) (StepSends outbox.now result) }
    ensures moments { (node : Node L.Opening L.Entry) → Goes (S.told site.old) (S.told site.new) (HandlesAll L.rules result (sends_only outbox.now outcome) node node) }
    ensures answer { (result ≡ Ok outcome) ⊎ (result ≡ Err StepFault.LineFault) }
    ensures reason { Goes (S.told site.old) (S.told site.new) (FaultReason result) }
    ensures untouched { IfUnchanged result (site.new ≡ site.old) }
    ensures disk { DiskCount result (S.disk_faults site.old) (S.disk_faults site.new) }
    ensures line { LineCount result (S.line_faults site.old) (S.line_faults site.new) }
{
    sends_are_in_order();
    match send_all(site, outbox) {
        Ok(()) => return Ok(outcome),
        Err(_) => return Err(StepFault::LineFault),
    }
}
