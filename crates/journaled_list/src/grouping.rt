// The entries that one payload spells.
ghost use Rattle.std.specs.Prelude.{◌≡◌};
ghost use Rattle.journaled_list.specs.Reading.{AddsGroup};

use crate::Journaled;
use faim_base::after;
use torn_journal::VisitFault;

// Adds the entries that the payload spells, at least one, and answers how many. `Bad` where it spells none that may come
// next, one after another.
pub(crate) fn add_group<L: Journaled>(
    list: &mut L,
    reader: &mut L::Reader,
    payload: &[u8],
) -> Result<usize, VisitFault>
    ensures { AddsGroup L.rules result (L.list list.old) (L.list list.new) payload.now }
{
    let mut rest = payload;
    let mut count: usize = 0;
    while !rest.is_empty() {
        match list.add(reader, rest) {
            Ok(size) => rest = after(rest, size),
            Err(VisitFault::Bad) => return Err(VisitFault::Bad),
            Err(VisitFault::NoMemory) => return Err(VisitFault::NoMemory),
        }
        count += 1;
    }
    if count == 0 {
        return Err(VisitFault::Bad);
    }
    Ok(count)
}
