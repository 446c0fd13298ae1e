// Which layout a tag has.
ghost use Rattle.std.specs.Prelude.{◌≡◌, ◌≤◌, length, slice_index};
ghost use Rattle.faim_tags.specs.Layouts.{classes, each_class, row_of, maxima};

use crate::table;
use crate::table::Layout;
use faim_base::TagNo;

/// The layout of a tag.
pub fn layout(no: TagNo) -> &'static Layout
    ensures fixed { result.now.fixed.now ≡ (row_of no).elements }
    ensures stars { result.now.stars.now ≡ (row_of no).most }
    ensures few { length result.now.fixed.now ≤ 100 }
{
    sized_layout(no)
}

// As `layout`, and the class of each byte of the fixed elements, one by one and in runs.
#[inline(always)]
#[tactic(auto, unfolding(crate::specs::Layouts::row_of))]
pub(crate) fn sized_layout(no: TagNo) -> &'static Layout
    ensures fixed { result.now.fixed.now ≡ (row_of no).elements }
    ensures stars { result.now.stars.now ≡ (row_of no).most }
    ensures few { length result.now.fixed.now ≤ 100 }
    ensures classes { result.now.classes.now ≡ classes no }
    ensures runs { each_class result.now.runs.now ≡ classes no }
    ensures few_runs { length result.now.runs.now ≤ 100 }
{
    match no.get() {
        1100 => &table::DISPOSITION,
        1110 => &table::RECEIPT,
        1120 => &table::OUTPUT_IDENTIFIER,
        1130 => &table::ERROR,
        1500 => &table::SENDER_SUPPLIED,
        1510 => &table::TYPE_AND_SUBTYPE,
        1520 => &table::INPUT_IDENTIFIER,
        2000 => &table::AMOUNT,
        3100 | 3400 => &table::BANK,
        3320 | 4320 => &table::REFERENCE,
        3500 => &table::PREVIOUS,
        3600 => &table::FUNCTION,
        4000 | 4100 | 4200 | 4400 | 5000 | 5100 | 5200 => &table::PARTY,
        5400 => &table::ACCOUNT,
        6000 => &table::FOUR_LINES,
        6100 | 6200 | 6300 | 6400 => &table::NOTICE,
        6110 | 6210 | 6310 | 6410 => &table::ADVICE,
        6420 => &table::METHOD,
        6500 => &table::SIX_LINES,
        9000 => &table::TWELVE_LINES,
        _ => unreachable!(),
    }
}

// The greatest length of the star element at a place, 0 where there is none.
pub(crate) fn greatest(no: TagNo, place: usize) -> u8
    ensures { result ≡ slice_index (maxima no) place }
{
    *sized_layout(no).stars.get(place).unwrap_or(&0)
}
