// The edit table in print.
ghost use Rattle.std.specs.Prelude.{◌≡◌, ◌++◌, ◌∷◌, [], take, length, if◌then◌else◌, OnOk, OnErr, IfOk, Some, None};
ghost use Rattle.std.specs.List.{flat_map};
ghost use Rattle.std.specs.Option.{unwrap_or};
ghost use Rattle.faim_base.specs.Digits.{padded};
ghost use Rattle.faim_base.specs.Refusals.{edit, refusal};
ghost use Rattle.faim_message.specs.Edits.{permits};
ghost use Rattle.faim_edits.specs.Texts.{is_edit, says, text_of};
ghost use Rattle.faim_edits.specs.Printing.{refusal_code, refusal_with_text, kinds_line, edit_line, table_text};

use crate::EditNo;
use crate::kinds::PERMITTED;
use crate::texts::{LISTED, text_of};
use faim_base::{NoMemory, Reject, padded};
use std::alloc::Global;

/// Appends the edit's letter and three digits, a blank and its text, as `E108 AMOUNT IS ZERO`. `NoMemory` leaves `out`
/// as it was (docs/FORMATS.md, "Table").
pub fn print_edit(number: EditNo, out: &mut Vec<u8>) -> Result<(), NoMemory>
    ensures ok { OnOk result (out.new.items ≡ out.old.items ++ refusal_with_text (edit number)) }
    ensures err { OnErr result (out.new.items ≡ out.old.items) }
{
    let before = out.len();
    match write_edit(number, out) {
        Ok(()) => Ok(()),
        Err(fault) => {
            out.truncate(before);
            Err(fault)
        }
    }
}

/// The edit table in print: a line for each business function code with the types and subtypes that it permits, then a
/// line for each edit. The table is 1 (docs/FORMATS.md, "Table").
pub fn print_table(alloc: Global, table: u8) -> Result<Vec<u8>, NoMemory>
    requires { table ≡ 1 }
    ensures { IfOk result (λ text. text.items ≡ table_text) }
{
    let mut text = Vec::new(alloc);
    write_kinds(&PERMITTED, &mut text)?;
    write_edits(&LISTED, &mut text)?;
    Ok(text)
}

// A line for each code.
fn write_kinds(rows: &[(&[u8], &[u16])], out: &mut Vec<u8>) -> Result<(), NoMemory>
    ensures { OnOk result (out.new.items ≡ out.old.items ++ flat_map (λ r. kinds_line (permits r.0.now r.1.now)) rows.now) }
{
    for row in rows {
        write_kinds_line(row.0, row.1, out)?;
    }
    Ok(())
}

fn write_kinds_line(code: &[u8], kinds: &[u16], out: &mut Vec<u8>) -> Result<(), NoMemory>
    ensures { OnOk result (out.new.items ≡ out.old.items ++ kinds_line (permits code.now kinds.now)) }
{
    out.extend_from_slice(code)?;
    write_each_kind(kinds, out)?;
    out.push(b'\n')?;
    Ok(())
}

// A blank and four digits for each type and subtype.
fn write_each_kind(kinds: &[u16], out: &mut Vec<u8>) -> Result<(), NoMemory>
    ensures { OnOk result (out.new.items ≡ out.old.items ++ flat_map (λ k. 32 ∷ padded 4 k) kinds.now) }
{
    for kind in kinds {
        out.push(b' ')?;
        out.extend_from_slice(&four_digits(*kind))?;
    }
    Ok(())
}

// The last four digits, which are all that a type and subtype have.
fn four_digits(kind: u16) -> [u8; 4]
    ensures { result ≡ padded 4 kind }
{
    let mut text = [0; 4];
    padded(u64::from(kind % 10_000), &mut text);
    text
}

// A line for each refusal that is an edit's.
fn write_edits(rows: &[(u8, u16, &[u8])], out: &mut Vec<u8>) -> Result<(), NoMemory>
    ensures { OnOk result (out.new.items ≡ out.old.items ++ flat_map (λ r. edit_line (says (refusal r.0 r.1) r.2.now)) rows.now) }
{
    for row in rows {
        write_edit_line(row.0, row.1, out)?;
    }
    Ok(())
}

fn write_edit_line(category: u8, code: u16, out: &mut Vec<u8>) -> Result<(), NoMemory>
    ensures { OnOk result (out.new.items ≡ out.old.items ++ edit_line (says (refusal category code) [])) }
{
    match edit_in(category, code) {
        Some(number) => {
            print_edit(number, out)?;
            out.push(b'\n')?;
        }
        None => {}
    }
    Ok(())
}

// The edit of a refusal.
fn edit_in(category: u8, code: u16) -> Option<EditNo>
    ensures { result ≡ (if is_edit (refusal category code) then Some code else None) }
{
    if category == b'E' {
        EditNo::new(code)
    } else {
        None
    }
}

// Appends the edit with its text, or part of it where memory runs out.
fn write_edit(number: EditNo, out: &mut Vec<u8>) -> Result<(), NoMemory>
    ensures ok { OnOk result (out.new.items ≡ out.old.items ++ refusal_with_text (edit number)) }
    ensures kept { take (length out.old.items) out.new.items ≡ out.old.items }
{
    write_code(number, out)?;
    out.push(b' ')?;
    out.extend_from_slice(words_of(number.reject()))?;
    Ok(())
}

// Appends the edit's letter and digits, or part of them where memory runs out.
#[tactic(auto, using(crate::proofs::Widths::edit_has_three))]
fn write_code(number: EditNo, out: &mut Vec<u8>) -> Result<(), NoMemory>
    ensures ok { OnOk result (out.new.items ≡ out.old.items ++ refusal_code (edit number)) }
    ensures kept { take (length out.old.items) out.new.items ≡ out.old.items }
{
    let mut digits = [0; 3];
    padded(u64::from(number.get()), &mut digits);
    out.push(b'E')?;
    out.extend_from_slice(&digits)?;
    Ok(())
}

// The text of a refusal, empty where it isn't listed.
fn words_of(reject: Reject) -> &'static [u8]
    ensures { result.now ≡ unwrap_or (text_of reject) [] }
{
    match text_of(reject) {
        Some(text) => text,
        None => &[],
    }
}
