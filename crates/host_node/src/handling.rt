// A frame is handled: what it adds is secured in a record of its own, and then the frames that answer it are sent.
ghost use Rattle.std.specs.Prelude.{◌≡◌, true};
ghost use Rattle.site_core.specs.Told.{Goes};
ghost use Rattle.link_frames.specs.Frames.{content_of};
ghost use Rattle.journaled_steps.specs.Faults.{DiskCount, LineCount, FaultReason, IfUnchanged};
ghost use Rattle.journaled_steps.specs.Steps.{HandlesAll, HasRoom, NodeAfter, StepCalls, StepSends};
ghost use Rattle.host_node.specs.HostList.{host_rules};
ghost use Rattle.host_node.specs.Stepping.{step_of};

use crate::preparing::prepare;
use crate::securing::secure;
use crate::{HostFault, HostNode};
use faim_base::Moment;
use faim_model::{HostOutcome, entries_that_follow_are_spelled, steps_stay_lawful};
use journaled_steps::{is_live_after, send_step};
use link_frames::Frame;
use site_core::Site;

impl HostNode {
    /// Handles a frame at a reading of the clock (docs/FORMATS.md, "The order of verdicts" and "What a host sends"): the
    /// host's step. An entry that it adds is secured in a record of its own before the first frame is sent. All memory is
    /// taken before the first device call. What each fault leaves stands at `HostFault`.
    pub fn handle<S: Site>(
        &mut self,
        site: &mut S,
        frame: &Frame<'_>,
        reading: Moment,
    ) -> Result<HostOutcome, HostFault>
        requires { self.old.live ≡ true }

        ensures node { NodeAfter host_rules result (step_of self.old.list (content_of frame.now) reading) self.old self.new }
        ensures room { HasRoom host_rules result (step_of self.old.list (content_of frame.now) reading).adds self.old.tail }
        ensures calls { Goes (S.told site.old) (S.told site.new) (StepCalls host_rules (step_of self.old.list (content_of frame.now) reading).adds (step_of self.old.list (content_of frame.now) reading).sends self.old.tail result) }
        ensures sent { Goes (S.told site.old) (S.told site.new) (StepSends (step_of self.old.list (content_of frame.now) reading).sends result) }
        ensures moments { Goes (S.told site.old) (S.told site.new) (HandlesAll host_rules result (step_of self.old.list (content_of frame.now) reading) self.old self.new) }
        ensures reason { Goes (S.told site.old) (S.told site.new) (FaultReason result) }
        ensures untouched { IfUnchanged result (site.new ≡ site.old) }
        ensures disk { DiskCount result (S.disk_faults site.old) (S.disk_faults site.new) }
        ensures line { LineCount result (S.line_faults site.old) (S.line_faults site.new) }
    {
        steps_stay_lawful();
        entries_that_follow_are_spelled();
        let alloc = self.kept.list.alloc;
        let _config = self.kept.list.state.config();
        let _minutes = self.kept.list.state.effective(reading).get();
        match prepare(
            alloc,
            &mut self.kept.list.state,
            frame,
            reading,
            &mut self.outbox,
        ) {
            Ok(prepared) => {
                if prepared.added {
                    let answer = secure(&mut self.kept, site, &self.outbox, prepared.outcome);
                    self.live = is_live_after(&answer);
                    answer
                } else {
                    send_step(&self.kept, site, &self.outbox, prepared.outcome)
                }
            }
            Err(_) => Err(HostFault::NoMemory),
        }
    }
}
