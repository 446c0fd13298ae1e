// Which refusals are kept as an entry (docs/FORMATS.md, "Refusals").
ghost use Rattle.std.specs.Prelude.{◌≡◌};
ghost use Rattle.faim_base.specs.Refusals.{is_recorded};

use faim_base::Reject;

/// Whether a message that is refused so is kept as an entry. All listed refusals are, but E001, E002, H102 and X201.
pub fn is_recorded(reject: Reject) -> bool
    ensures { result ≡ is_recorded reject }
{
    match (reject.category, reject.code) {
        (b'E', 101..=117) => true,
        (b'E', 161 | 162) => true,
        (b'F', 401) => true,
        (b'H', 101) => true,
        (b'I', 501) => true,
        (b'W', 301 | 302) => true,
        _ => false,
    }
}
