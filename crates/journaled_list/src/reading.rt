// A reader of a journal's payloads.
ghost use Rattle.std.specs.Prelude.{◌≡◌, []};
ghost use Rattle.journaled_list.specs.Payloads.{MayCome};
ghost use Rattle.journaled_list.specs.Reading.{IsLoaded};

use crate::Journaled;
use crate::grouping::add_group;
use torn_journal::{Visit, VisitFault};

// The list that the payloads so far stand for, none before the first, and how many of its entries the last of them has.
#[derive(Drop)]
pub(crate) struct Loading<L: Journaled> {
    pub(crate) reader: L::Reader,
    pub(crate) list: Option<L>,
    pub(crate) last: usize,
}

impl<L: Journaled> Visit for Loading<L> {
    ghost stands = { λ v payloads. IsLoaded L.rules L.list v.list v.last payloads };

    ghost follows = { MayCome L.rules };

    fn take(&mut self, payload: &[u8]) -> Result<(), VisitFault> {
        match &mut self.list {
            Some(list) => match add_group(list, &mut self.reader, payload) {
                Ok(count) => {
                    self.last = count;
                    Ok(())
                }
                Err(VisitFault::Bad) => Err(VisitFault::Bad),
                Err(VisitFault::NoMemory) => Err(VisitFault::NoMemory),
            },
            None => match L::open(&mut self.reader, payload) {
                Ok(list) => {
                    self.list = Some(list);
                    self.last = 0;
                    Ok(())
                }
                Err(VisitFault::Bad) => Err(VisitFault::Bad),
                Err(VisitFault::NoMemory) => Err(VisitFault::NoMemory),
            },
        }
    }
}
