// The layouts, one for each kind of tag (docs/FORMATS.md, "Tags").

/// What a tag holds. A pair of `fixed` is a class of bytes, `n` for digits or `t` for text bytes, and a length; `stars`
/// holds the greatest length of each star element.
pub struct Layout {
    pub fixed: &'static [(u8, u8)],
    // The class of each byte of the fixed elements.
    pub(crate) classes: &'static [u8],
    // The same as pairs of a class and a length, of which no two neighbours have one class.
    pub(crate) runs: &'static [(u8, u8)],
    pub stars: &'static [u8],
}

// Version, test or production, duplication, status.
pub(crate) static DISPOSITION: Layout = Layout {
    fixed: &[(b't', 2), (b't', 1), (b't', 1), (b't', 1)],
    classes: b"ttttt",
    runs: &[(b't', 5)],
    stars: &[],
};

// Month and day, hour and minute, application.
pub(crate) static RECEIPT: Layout = Layout {
    fixed: &[(b'n', 4), (b'n', 4), (b't', 4)],
    classes: b"nnnnnnnntttt",
    runs: &[(b'n', 8), (b't', 4)],
    stars: &[],
};

// Cycle date, destination, number, month and day, hour and minute, application.
pub(crate) static OUTPUT_IDENTIFIER: Layout = Layout {
    fixed: &[
        (b'n', 8),
        (b't', 8),
        (b'n', 6),
        (b'n', 4),
        (b'n', 4),
        (b't', 4),
    ],
    classes: b"nnnnnnnnttttttttnnnnnnnnnnnnnntttt",
    runs: &[(b'n', 8), (b't', 8), (b'n', 14), (b't', 4)],
    stars: &[],
};

// Category and code; description.
pub(crate) static ERROR: Layout = Layout {
    fixed: &[(b't', 1), (b'n', 3)],
    classes: b"tnnn",
    runs: &[(b't', 1), (b'n', 3)],
    stars: &[35],
};

// Version, correlation, test or production, duplication.
pub(crate) static SENDER_SUPPLIED: Layout = Layout {
    fixed: &[(b't', 2), (b't', 8), (b't', 1), (b't', 1)],
    classes: b"tttttttttttt",
    runs: &[(b't', 12)],
    stars: &[],
};

// Type, subtype.
pub(crate) static TYPE_AND_SUBTYPE: Layout = Layout {
    fixed: &[(b'n', 2), (b'n', 2)],
    classes: b"nnnn",
    runs: &[(b'n', 4)],
    stars: &[],
};

// Cycle date, source, number.
pub(crate) static INPUT_IDENTIFIER: Layout = Layout {
    fixed: &[(b'n', 8), (b't', 8), (b'n', 6)],
    classes: b"nnnnnnnnttttttttnnnnnn",
    runs: &[(b'n', 8), (b't', 8), (b'n', 6)],
    stars: &[],
};

// Cents.
pub(crate) static AMOUNT: Layout = Layout {
    fixed: &[(b'n', 12)],
    classes: b"nnnnnnnnnnnn",
    runs: &[(b'n', 12)],
    stars: &[],
};

// A bank's number; its short name.
pub(crate) static BANK: Layout = Layout {
    fixed: &[(b'n', 9)],
    classes: b"nnnnnnnnn",
    runs: &[(b'n', 9)],
    stars: &[18],
};

// A reference.
pub(crate) static REFERENCE: Layout = Layout {
    fixed: &[],
    classes: b"",
    runs: &[],
    stars: &[16],
};

// The identifier of an earlier message.
pub(crate) static PREVIOUS: Layout = Layout {
    fixed: &[],
    classes: b"",
    runs: &[],
    stars: &[22],
};

// Business function code; transaction type.
pub(crate) static FUNCTION: Layout = Layout {
    fixed: &[(b't', 3)],
    classes: b"ttt",
    runs: &[(b't', 3)],
    stars: &[3],
};

// Identification code; identifier, name, three lines.
pub(crate) static PARTY: Layout = Layout {
    fixed: &[(b't', 1)],
    classes: b"t",
    runs: &[(b't', 1)],
    stars: &[34, 35, 35, 35, 35],
};

// A bank's number.
pub(crate) static ACCOUNT: Layout = Layout {
    fixed: &[(b'n', 9)],
    classes: b"nnnnnnnnn",
    runs: &[(b'n', 9)],
    stars: &[],
};

// Free text.
pub(crate) static FOUR_LINES: Layout = Layout {
    fixed: &[],
    classes: b"",
    runs: &[],
    stars: &[35, 35, 35, 35],
};

// Information for one of the banks.
pub(crate) static NOTICE: Layout = Layout {
    fixed: &[],
    classes: b"",
    runs: &[],
    stars: &[30, 33, 33, 33, 33, 33],
};

// Advice code; lines.
pub(crate) static ADVICE: Layout = Layout {
    fixed: &[(b't', 3)],
    classes: b"ttt",
    runs: &[(b't', 3)],
    stars: &[26, 33, 33, 33, 33, 33],
};

// Method of payment; a line.
pub(crate) static METHOD: Layout = Layout {
    fixed: &[(b't', 5)],
    classes: b"ttttt",
    runs: &[(b't', 5)],
    stars: &[30],
};

// Free text.
pub(crate) static SIX_LINES: Layout = Layout {
    fixed: &[],
    classes: b"",
    runs: &[],
    stars: &[35, 35, 35, 35, 35, 35],
};

// Free text.
pub(crate) static TWELVE_LINES: Layout = Layout {
    fixed: &[],
    classes: b"",
    runs: &[],
    stars: &[35, 35, 35, 35, 35, 35, 35, 35, 35, 35, 35, 35],
};
