// The texts of refusals.
ghost use Rattle.std.specs.Prelude.{◌≡◌};
ghost use Rattle.std.specs.List.{find};
ghost use Rattle.std.specs.Option.{option_copied};
ghost use Rattle.faim_base.specs.Refusals.{refusal};
ghost use Rattle.faim_edits.specs.Texts.{text_of, is_same};
ghost use Rattle.faim_edits.specs.Views.{listed_by};

use faim_base::Reject;

// All refusals that are listed, the edits first: category, code, text.
pub(crate) static LISTED: [(u8, u16, &[u8]); 28] = [
    (b'E', 101, b"FORMAT VERSION IS NOT 30"),
    (b'E', 102, b"TEST OR PRODUCTION CODE IS WRONG"),
    (b'E', 103, b"DUPLICATION CODE IS WRONG"),
    (b'E', 104, b"BUSINESS FUNCTION CODE UNKNOWN"),
    (b'E', 105, b"TYPE AND SUBTYPE NOT FOR CODE"),
    (b'E', 106, b"SENDER CHECK DIGIT IS WRONG"),
    (b'E', 107, b"RECEIVER CHECK DIGIT IS WRONG"),
    (b'E', 108, b"AMOUNT IS ZERO"),
    (b'E', 109, b"TAG 4200 IS MISSING"),
    (b'E', 110, b"TAG 5000 IS MISSING"),
    (b'E', 111, b"TAG 4400 IS MISSING"),
    (b'E', 112, b"TAG 3500 IS MISSING"),
    (b'E', 113, b"TAG 9000 NOT FOR CODE"),
    (b'E', 114, b"TAG 4400 NOT FOR CODE"),
    (b'E', 115, b"TAG 5400 NOT FOR CODE"),
    (b'E', 116, b"TAG 6110 NOT FOR CODE"),
    (b'E', 117, b"ID CODE IS NOT LISTED"),
    (b'E', 161, b"SENDER NOT SERVED ON THIS LINE"),
    (b'E', 162, b"RECEIVER IS NOT SERVED"),
    (b'E', 1, b"TEXT IS NOT A MESSAGE"),
    (b'E', 2, b"IMAD IS NOT VALID"),
    (b'F', 401, b"BALANCE BELOW FLOOR"),
    (b'H', 101, b"CYCLE DATE IS NOT CURRENT"),
    (b'H', 102, b"INPUT SOURCE IS NOT THIS LINE"),
    (b'I', 501, b"OUTPUT NUMBERS ARE USED UP"),
    (b'W', 301, b"CUSTOMER CUTOFF IS PAST"),
    (b'W', 302, b"BANK CUTOFF IS PAST"),
    (b'X', 201, b"IMAD IS KNOWN WITH OTHER TEXT"),
];

/// The text of a refusal, at most 35 text bytes. None exactly where the refusal isn't listed
/// (docs/FORMATS.md, "Refusals").
pub fn text_of(reject: Reject) -> Option<&'static [u8]>
    ensures { option_copied result ≡ text_of reject }
{
    match row_of(&LISTED, reject) {
        Some(row) => Some(row.2),
        None => None,
    }
}

// The row with the refusal.
fn row_of(
    rows: &'static [(u8, u16, &'static [u8])],
    reject: Reject,
) -> Option<&'static (u8, u16, &'static [u8])>
    ensures { option_copied result ≡ find (λ r. is_same reject (listed_by r).refusal) rows.now }
{
    rows.iter().find(|row| is_same(reject, row.0, row.1))
}

fn is_same(reject: Reject, category: u8, code: u16) -> bool
    ensures { result ≡ is_same reject (refusal category code) }
{
    reject.category == category && reject.code == code
}
