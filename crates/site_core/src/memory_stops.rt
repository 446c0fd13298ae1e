// Stops and restarts of a site in memory.
ghost use Rattle.std.specs.Prelude.{◌≡◌, IsTrue, refl};
ghost use Rattle.site_core.specs.Choices.{told_by, ComesBack, KeepsChoices};
ghost use Rattle.site_core.specs.Told.{Restarts};

use crate::disk::come_back;
use crate::{MemSite, StopSite};

impl StopSite for MemSite {
    ghost always = { λ site. refl };

    fn arm(&mut self, call: u64, tear: u64)
        requires { IsTrue self.old.counts.stopped → ⊥ }
        ensures told { told_by self.new ≡ record (told_by self.old) { armed = call } }
        ensures disk { self.new.disk.all ≡ self.old.disk.all }
        ensures line { self.new.line.all ≡ self.old.line.all }
        ensures fails { self.new.fails ≡ self.old.fails }
        ensures tear { self.new.tear ≡ tear }
    {
        self.counts.armed = call;
        self.tear = tear;
    }

    fn stopped(&self) -> bool {
        self.counts.stopped
    }

    fn restart(&mut self)
        ensures told { Restarts (told_by self.old) (told_by self.new) }
        ensures disk { self.new.disk.all ≡ self.old.disk.all }
        ensures line { self.new.line.all ≡ self.old.line.all }
        ensures image { ComesBack self.old.tear (told_by self.old) (told_by self.new) }
        ensures keeps { KeepsChoices self.old self.new }
    {
        let tear = if self.counts.stopped { self.tear } else { 0 };
        self.counts.stopped = false;
        self.counts.armed = 0;
        come_back(&mut self.past, &mut self.image, &mut self.over, tear);
    }

    fn sent_count(&self) -> u64 {
        self.past.count() as u64
    }

    fn sent(&self, number: u64) -> Option<&[u8]> {
        if number == 0 {
            return None;
        }
        self.past.frame((number - 1) as usize)
    }

    fn lacks(&self) -> u64 {
        self.counts.lacks
    }
}
