// Which types and subtypes a business function code permits.
ghost use Rattle.std.specs.Prelude.{◌≡◌, map, bytes_eq};
ghost use Rattle.std.specs.List.{list_any, find};
ghost use Rattle.std.specs.Option.{option_copied};
ghost use Rattle.faim_tags.specs.Reading.{is_among};
ghost use Rattle.faim_message.specs.Edits.{permitted_kinds, kinds_for};

// The ten codes, each with the types and subtypes that it permits, each read as one number of four digits
// (docs/FORMATS.md, "Edits").
pub(crate) static PERMITTED: [(&[u8], &[u16]); 10] = [
    (
        b"BTR",
        &[1000, 1002, 1008, 1500, 1502, 1508, 1600, 1602, 1608],
    ),
    (b"CKS", &[1600, 1602, 1608]),
    (
        b"CTR",
        &[1000, 1002, 1008, 1500, 1502, 1508, 1600, 1602, 1608],
    ),
    (b"DEP", &[1600, 1602, 1608]),
    (b"DRB", &[1031, 1631]),
    (b"DRC", &[1031, 1631]),
    (b"DRW", &[1032, 1632]),
    (b"FFR", &[1600, 1602, 1608]),
    (b"FFS", &[1600, 1602, 1608]),
    (
        b"SVC",
        &[
            1001, 1007, 1033, 1090, 1501, 1507, 1590, 1601, 1607, 1633, 1690,
        ],
    ),
];

// Whether the code is one of the ten.
pub(crate) fn is_known(code: &[u8]) -> bool
    ensures { result ≡ list_any (λ c. bytes_eq c code.now) (map (λ p. p.code) permitted_kinds) }
{
    row_of(&PERMITTED, code).is_some()
}

// Whether the code permits the type and subtype.
pub(crate) fn is_permitted(code: &[u8], kind: u16) -> bool
    ensures { result ≡ is_among (kinds_for code.now) kind }
{
    kinds_for(code).contains(&kind)
}

// What the code permits, nothing where it isn't one of the ten.
fn kinds_for(code: &[u8]) -> &'static [u16]
    ensures { result.now ≡ kinds_for code.now }
{
    match row_of(&PERMITTED, code) {
        Some(row) => row.1,
        None => &[],
    }
}

// The row with the code.
fn row_of(
    rows: &'static [(&'static [u8], &'static [u16])],
    code: &[u8],
) -> Option<&'static (&'static [u8], &'static [u16])>
    ensures { option_copied result ≡ find (λ r. bytes_eq r.0.now code.now) rows.now }
{
    rows.iter().find(|row| row.0 == code)
}
