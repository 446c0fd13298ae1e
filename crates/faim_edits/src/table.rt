// The edits, row by row.
ghost use Rattle.std.specs.Prelude.{◌≡◌, ◌⊎◌, ◌==◌, ◌||◌, [], ◌∷◌, map, not, true, IsTrue, option_map};
ghost use Rattle.std.specs.List.{find, list_all};
ghost use Rattle.faim_base.specs.Tags.{is_tag_number};
ghost use Rattle.faim_tags.specs.Reading.{is_among};
ghost use Rattle.faim_message.specs.declared.form.Form.{Form};
ghost use Rattle.faim_message.specs.Edits.{edits, first_failed, amount, has, has_code, has_subtype, has_id_codes, id_code, ◌⇒◌};

use crate::EditNo;
use crate::kinds::{is_known, is_permitted};
use crate::parts::{
    amount, check_digit_holds, code, has, id_code, is_version_30, kind, mark, subtype,
    test_or_production,
};
use faim_message::Message;

// The codes that send or ask for a drawdown, and service messages.
const DRAWDOWN_OR_SERVICE: [[u8; 3]; 4] = [*b"DRB", *b"DRC", *b"DRW", *b"SVC"];

/// The first of the edits 101 to 117 that a submission fails, in the order of their numbers. None exactly where it fails
/// none. The table is 1, `env` is the host's code `T` or `P`, and the message has the form `Input`
/// (docs/FORMATS.md, "Edits").
pub fn first_failed(table: u8, env: u8, m: &Message) -> Option<EditNo>
    requires table { table ≡ 1 }
    requires env { (env ≡ 84) ⊎ (env ≡ 80) }
    requires form { m.now.form ≡ Form.Input }
    ensures { result ≡ first_failed env m.now }
{
    match first_that_fails(&outcomes(env, m)) {
        Some(number) => EditNo::new(number),
        None => None,
    }
}

// The number of the first edit whose condition isn't met.
fn first_that_fails(outcomes: &[(u16, bool)]) -> Option<u16>
    ensures { result ≡ option_map (λ r. r.0) (find (λ r. not r.1) outcomes.now) }
{
    outcomes.iter().find(|row| !row.1).map(|row| row.0)
}

// Each edit's number, and whether the message meets its condition.
#[tactic(auto, unfolding(faim_tags::specs::Layouts::row_of))]
fn outcomes(env: u8, m: &Message) -> [(u16, bool); 17]
    ensures { result ≡ map (λ e. (e.number, e.holds m.now)) (edits env) }
{
    [
        (101, is_version_30(m)),
        (102, test_or_production(m) == env),
        (103, b" P".contains(&mark(m))),
        (104, is_known(code(m))),
        (105, is_permitted(code(m), kind(m))),
        (106, check_digit_holds(m, 3100)),
        (107, check_digit_holds(m, 3400)),
        (108, has_amount(m)),
        (109, code_needs(m, &[*b"CTR"], 4200)),
        (110, code_needs(m, &[*b"CTR"], 5000)),
        (111, code_needs(m, &[*b"DRB", *b"DRC"], 4400)),
        (112, subtype_needs(m, &[1, 2, 7, 8], 3500)),
        (113, tag_needs(m, 9000, &[*b"SVC"])),
        (114, tag_needs(m, 4400, &DRAWDOWN_OR_SERVICE)),
        (115, tag_needs(m, 5400, &DRAWDOWN_OR_SERVICE)),
        (116, tag_needs(m, 6110, &DRAWDOWN_OR_SERVICE)),
        (
            117,
            has_id_codes(
                m,
                &[4000, 4100, 4200, 4400, 5000, 5100, 5200],
                b"123459BCDFTU ",
            ),
        ),
    ]
}

// Whether the business function code is one of these.
fn has_code(m: &Message, these: &[[u8; 3]]) -> bool
    ensures { result ≡ has_code these.now m.now }
{
    let code = code(m);
    these.iter().any(|c| c.as_slice() == code)
}

// Whether the subtype is one of these.
fn has_subtype(m: &Message, these: &[u8]) -> bool
    ensures { result ≡ has_subtype these.now m.now }
{
    these.contains(&subtype(m))
}

// Whether the amount isn't zero, or the subtype is one that may have none.
fn has_amount(m: &Message) -> bool
    ensures { result ≡ not (amount m.now == 0) || has_subtype (90 ∷ []) m.now }
{
    amount(m) != 0 || has_subtype(m, &[90])
}

// Whether the tag is there, where the code is one of these.
fn code_needs(m: &Message, these: &[[u8; 3]], number: u16) -> bool
    requires { IsTrue (is_tag_number number) }
    ensures { result ≡ (has_code these.now ⇒ has number) m.now }
{
    !has_code(m, these) || has(m, number)
}

// Whether the tag is there, where the subtype is one of these.
fn subtype_needs(m: &Message, these: &[u8], number: u16) -> bool
    requires { IsTrue (is_tag_number number) }
    ensures { result ≡ (has_subtype these.now ⇒ has number) m.now }
{
    !has_subtype(m, these) || has(m, number)
}

// Whether the code is one of these, where the tag is there.
fn tag_needs(m: &Message, number: u16, these: &[[u8; 3]]) -> bool
    requires { IsTrue (is_tag_number number) }
    ensures { result ≡ (has number ⇒ has_code these.now) m.now }
{
    !has(m, number) || has_code(m, these)
}

// Whether each of the tags that is there has an identification code among those.
fn has_id_codes(m: &Message, numbers: &[u16], those: &[u8]) -> bool
    requires { list_all is_tag_number numbers.now ≡ true }
    ensures { result ≡ has_id_codes numbers.now those.now m.now }
{
    for number in numbers {
        if !has_id_code(m, *number, those) {
            return false;
        }
    }
    true
}

fn has_id_code(m: &Message, number: u16, those: &[u8]) -> bool
    requires { IsTrue (is_tag_number number) }
    ensures { result ≡ (has number ⇒ λ w. is_among those.now (id_code number w)) m.now }
{
    !has(m, number) || those.contains(&id_code(m, number))
}
