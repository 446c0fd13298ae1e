// A frame is handled: what it adds is secured in a record of its own, and then the frames that answer it are sent.
ghost use Rattle.std.specs.Prelude.{◌≡◌, true};
ghost use Rattle.site_core.specs.Told.{Goes};
ghost use Rattle.link_frames.specs.Frames.{content_of};
ghost use Rattle.journaled_steps.specs.Faults.{DiskCount, LineCount, FaultReason, IfUnchanged};
ghost use Rattle.journaled_steps.specs.Steps.{HandlesAll, HasRoom, NodeAfter, StepCalls, StepSends};
ghost use Rattle.bank_node.specs.BankRules.{bank_rules};
ghost use Rattle.bank_node.specs.Stepping.{step_of};

use crate::preparing::{Prepared, prepare};
use crate::securing::secure;
use crate::{BankFault, BankNode};
use bank_books::BankOutcome;
use bank_turns::steps_add_what_is_kept;
use journaled_steps::{is_live_after, send_step};
use link_frames::Frame;
use site_core::Site;

impl BankNode {
    /// Handles a frame (docs/FORMATS.md, "What a bank takes"): the bank's step. An entry that it adds is secured in a record
    /// of its own before the first frame is sent: so no draft is submitted that isn't kept. All memory is taken before the
    /// first device call. What each fault leaves stands at `BankFault`.
    pub fn handle<S: Site>(
        &mut self,
        site: &mut S,
        frame: &Frame<'_>,
    ) -> Result<BankOutcome, BankFault>
        requires { self.old.live ≡ true }

        ensures node { NodeAfter bank_rules result (step_of self.old.list (content_of frame.now)) self.old self.new }
        ensures room { HasRoom bank_rules result (step_of self.old.list (content_of frame.now)).adds self.old.tail }
        ensures calls { Goes (S.told site.old) (S.told site.new) (StepCalls bank_rules (step_of self.old.list (content_of frame.now)).adds (step_of self.old.list (content_of frame.now)).sends self.old.tail result) }
        ensures sent { Goes (S.told site.old) (S.told site.new) (StepSends (step_of self.old.list (content_of frame.now)).sends result) }
        ensures moments { Goes (S.told site.old) (S.told site.new) (HandlesAll bank_rules result (step_of self.old.list (content_of frame.now)) self.old self.new) }
        ensures reason { Goes (S.told site.old) (S.told site.new) (FaultReason result) }
        ensures untouched { IfUnchanged result (site.new ≡ site.old) }
        ensures disk { DiskCount result (S.disk_faults site.old) (S.disk_faults site.new) }
        ensures line { LineCount result (S.line_faults site.old) (S.line_faults site.new) }
    {
        steps_add_what_is_kept();
        let _books = self.kept.list.books();
        match prepare(&self.kept.list, frame, &mut self.outbox) {
            Ok(prepared) => {
                let Prepared { outcome, entry } = prepared;
                match entry {
                    Some(entry) => {
                        let answer = secure(&mut self.kept, site, entry, &self.outbox, outcome);
                        self.live = is_live_after(&answer);
                        answer
                    }
                    None => send_step(&self.kept, site, &self.outbox, outcome),
                }
            }
            Err(_) => Err(BankFault::NoMemory),
        }
    }
}
