// Reads the text of a bank (docs/FORMATS.md, "Scripts").
ghost use Rattle.std.specs.Prelude.{◌≡◌, IfOk};
ghost use Rattle.bank_books.specs.Openings.{IsBankOpening};
ghost use Rattle.world_text.specs.BankText.{bank_after, bank_line, bank_of, bank_values};
ghost use Rattle.world_text.specs.Lines.{lines_of};
ghost use Rattle.world_text.specs.Reading.{ReadsLine, ReadsText};

use crate::fields::{date_in, endpoint_in, env_in};
use crate::lines::words;
use crate::reader::{first_line, named};
use crate::script::LineRefused;
use crate::{ScriptRefused, Why, bank_texts_are_sound};
use bank_books::BankOpening;
use std::alloc::Global;

/// The opening that a bank's text is, which is sound: one `bank` line and no other (docs/FORMATS.md, "Scripts"). `Fault`
/// exactly where the text is none, with the first line that isn't one of a bank's text and the first reason that it has.
pub fn read_bank_text(alloc: Global, text: &[u8]) -> Result<BankOpening, ScriptRefused>
    ensures opening { ReadsText result (bank_of text.now) }
    ensures sound { IfOk result (λ o. IsBankOpening o) }
{
    bank_texts_are_sound();
    read_bank(alloc, text)
}

// The opening that a text is.
fn read_bank(alloc: Global, text: &[u8]) -> Result<BankOpening, ScriptRefused>
    ensures { ReadsText result (bank_of text.now) }
{
    let (line, rest) = first_line(text)?;
    match bank_line(alloc, line) {
        Ok(opening) => bank_after(opening, rest),
        Err(refused) => Err(refused.at(1)),
    }
}

// The opening, where nothing stands after its line.
#[tactic(auto, using(crate::proofs::LinesLeft::second_line))]
fn bank_after(opening: BankOpening, rest: &[u8]) -> Result<BankOpening, ScriptRefused>
    ensures { ReadsText result (bank_after opening (lines_of rest.now)) }
{
    if !rest.is_empty() {
        return Err(LineRefused::Fault(Why::Shape).at(2));
    }
    Ok(opening)
}

// A `bank` line.
#[tactic(auto, using(crate::proofs::WordCuts::bank_count))]
fn bank_line(alloc: Global, line: &[u8]) -> Result<BankOpening, LineRefused>
    ensures { ReadsLine result (bank_line line.now) }
{
    let words = words(alloc, line, 4)?;
    match words.as_slice() {
        [name, endpoint, env, date] => {
            named(name, b"bank")?;
            Ok(bank_values(endpoint, env, date)?)
        }
        _ => Err(LineRefused::Fault(Why::Shape)),
    }
}

fn bank_values(endpoint: &[u8], env: &[u8], date: &[u8]) -> Result<BankOpening, Why>
    ensures { result ≡ bank_values endpoint.now env.now date.now }
{
    Ok(BankOpening {
        endpoint: endpoint_in(endpoint).ok_or(Why::Value)?,
        env: env_in(env).ok_or(Why::Value)?,
        date: date_in(date).ok_or(Why::Value)?,
    })
}
