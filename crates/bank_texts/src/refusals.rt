// The refusals that acknowledgements tell.
ghost use Rattle.std.specs.Prelude.{◌≡◌, ◌≢◌, ◌<◌, None, Some, IfSome, IsTrue, if◌then◌else◌};
ghost use Rattle.faim_base.specs.declared.judgement.Reject.{Reject};
ghost use Rattle.faim_base.specs.declared.judgement.Verdict.TheVariants.{Refused};
ghost use Rattle.faim_base.specs.Refusals.{is_recorded};
ghost use Rattle.faim_edits.specs.Printing.{refusal_code};
ghost use Rattle.faim_model.specs.Readings.{refused_as};

use faim_base::{Reject, Verdict, after, digits};
use host_ledger::is_recorded;

// Refused, with the refusal of this letter and these digits, where an entry may keep it.
pub(crate) fn refused_as(code: &[u8]) -> Option<Verdict>
    ensures { result ≡ refused_as code.now }
{
    match reject_in(code) {
        Some(reject) => recorded(reject),
        None => None,
    }
}

// Refused, where an entry may keep the refusal.
fn recorded(reject: Reject) -> Option<Verdict>
    ensures { result ≡ (if is_recorded reject then Some (Refused reject) else None) }
{
    if is_recorded(reject) {
        Some(Verdict::Refused(reject))
    } else {
        None
    }
}

// The refusal that a letter and three digits name.
fn reject_in(code: &[u8]) -> Option<Reject>
    ensures named { IfSome result (λ r. refusal_code r ≡ code.now) }
    ensures small { IfSome result (λ r. r.code < 1000) }
    ensures none { result ≡ None → (r : Reject) → refusal_code r ≢ code.now }
{
    if code.len() != 4 {
        return None;
    }
    match digits(after(code, 1)) {
        Some(number) => Some(Reject {
            category: code[0],
            code: number as u16,
        }),
        None => None,
    }
}
