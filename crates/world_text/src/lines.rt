// The lines of a text, and the words of a line.
ghost use Rattle.std.specs.Prelude.{◌≡◌, ◌==◌, ◌∷◌, ◌<◌, length, map, IfOk};
ghost use Rattle.std.specs.Option.{option_copied};
ghost use Rattle.world_text.specs.Lines.{is_blank, until, after, lines_of, first_word, words_of};

use faim_base::NoMemory;
use std::alloc::Global;

// What stands before the first such byte, and what stands after it, if there is one.
fn split_at_byte(text: &[u8], byte: u8) -> (&[u8], Option<&[u8]>)
    ensures before { result.0.now ≡ until (λ b. b == byte) text.now }
    ensures after { option_copied result.1 ≡ after (λ b. b == byte) text.now }
{
    for (i, b) in text.iter().enumerate() {
        if *b == byte {
            return (&text[..i], Some(&text[i + 1..]));
        }
    }
    (text, None)
}

// The first line of a text that isn't empty, and what stands after its end.
#[tactic(auto, using(crate::proofs::LineCuts::cut_line, crate::proofs::LineCuts::last_line, crate::proofs::LineCuts::shorter_after))]
pub(crate) fn split_line(text: &[u8]) -> (&[u8], &[u8])
    requires { 0 < length text.now }
    ensures lines { lines_of text.now ≡ result.0.now ∷ lines_of result.1.now }
    ensures shorter { length result.1.now < length text.now }
{
    match split_at_byte(text, b'\n') {
        (line, Some(rest)) => (line, rest),
        (line, None) => (line, &[]),
    }
}

// The first word of a line, and what stands after its blank, if there is one.
pub(crate) fn split_word(line: &[u8]) -> (&[u8], Option<&[u8]>)
    ensures word { result.0.now ≡ first_word line.now }
    ensures rest { option_copied result.1 ≡ after is_blank line.now }
{
    split_at_byte(line, b' ')
}

// The words of a line; after so many words the next one is all that is left.
pub(crate) fn words<'a>(
    alloc: Global,
    line: &'a [u8],
    most: usize,
) -> Result<Vec<&'a [u8]>, NoMemory>
    ensures { IfOk result (λ v. map (λ w. w.now) v.items ≡ words_of most line.now) }
{
    let mut words = Vec::new(alloc);
    let mut rest = line;
    for _ in 0..most {
        let (word, after) = split_word(rest);
        words.push(word)?;
        match after {
            Some(next) => rest = next,
            None => return Ok(words),
        }
    }
    words.push(rest)?;
    Ok(words)
}
