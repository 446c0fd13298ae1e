// The tags that a host writes itself, as bytes (docs/FORMATS.md, "What a host sends"). Each call appends one or more tags;
// where memory runs out it appends a front part of them.
ghost use Rattle.std.specs.Prelude.{◌≡◌, ◌++◌, [], length, take, IsTrue, OnOk};
ghost use Rattle.std.specs.List.{flat_map};
ghost use Rattle.std.specs.Option.{unwrap_or};
ghost use Rattle.faim_base.specs.Digits.{padded};
ghost use Rattle.faim_base.specs.Ids.{imad_text, is_stamp, omad_text, stamp_text};
ghost use Rattle.faim_edits.specs.Texts.{text_of};
ghost use Rattle.faim_tags.specs.Spelling.{spelling};
ghost use Rattle.faim_message.specs.Numbering.{imad_tag};
ghost use Rattle.faim_model.specs.Deliveries.{next_tag};
ghost use Rattle.faim_model.specs.ServiceTags.{moment_tag, output_tag, refusal_tag, status_tag};
ghost use Rattle.host_turns.specs.HostTags.{tags_of};

use faim_base::{CycleDate, Endpoint, Imad, Moment, NoMemory, Omad, OutPos, Reject, Stamp, stamp};
use faim_edits::text_of;

// What the first three tags tell where they name an output: test or production, the mark, the status, the moment, and
// the output's position and endpoint.
#[derive(Clone, Copy)]
pub(crate) struct HostTags {
    pub(crate) env: u8,
    pub(crate) mark: u8,
    pub(crate) status: u8,
    pub(crate) moment: Moment,
    pub(crate) at: OutPos,
    pub(crate) dest: Endpoint,
}

// Appends the three tags, each followed by a break.
pub(crate) fn write_host_tags(
    tags: &HostTags,
    line_break: &[u8],
    out: &mut Vec<u8>,
) -> Result<(), NoMemory>
    ensures ok { OnOk result (out.new.items ≡ out.old.items ++ flat_map (λ t. spelling t ++ line_break.now) (tags_of tags.now)) }
    ensures kept { take (length out.old.items) out.new.items ≡ out.old.items }
{
    write_status(tags.env, tags.mark, tags.status, out)?;
    out.extend_from_slice(line_break)?;
    write_moment(tags.moment, out)?;
    out.extend_from_slice(line_break)?;
    write_output(&tags.at, tags.dest, tags.moment, out)?;
    out.extend_from_slice(line_break)?;
    Ok(())
}

// Appends the format's version, test or production, the mark and the status.
pub(crate) fn write_status(env: u8, mark: u8, status: u8, out: &mut Vec<u8>) -> Result<(), NoMemory>
    ensures ok { OnOk result (out.new.items ≡ out.old.items ++ spelling (status_tag env mark status)) }
    ensures kept { take (length out.old.items) out.new.items ≡ out.old.items }
{
    out.extend_from_slice(b"{1100}30")?;
    out.extend_from_slice(&[env, mark, status])?;
    Ok(())
}

// Appends the stamp of a moment and the application.
pub(crate) fn write_moment(moment: Moment, out: &mut Vec<u8>) -> Result<(), NoMemory>
    ensures ok { OnOk result (out.new.items ≡ out.old.items ++ spelling (moment_tag moment)) }
    ensures kept { take (length out.old.items) out.new.items ≡ out.old.items }
{
    out.extend_from_slice(b"{1110}")?;
    write_stamp(&stamp(moment), out)?;
    out.extend_from_slice(b"FAIM")?;
    Ok(())
}

// Appends the month, day, hour and minute, of two digits each.
fn write_stamp(stamp: &Stamp, out: &mut Vec<u8>) -> Result<(), NoMemory>
    ensures ok { OnOk result (out.new.items ≡ out.old.items ++ stamp_text stamp.now) }
    ensures kept { take (length out.old.items) out.new.items ≡ out.old.items }
{
    out.extend_from_slice(&two_digits(stamp.month))?;
    out.extend_from_slice(&two_digits(stamp.day))?;
    out.extend_from_slice(&two_digits(stamp.hour))?;
    out.extend_from_slice(&two_digits(stamp.minute))?;
    Ok(())
}

// Appends the output at a position to an endpoint, with the stamp of a moment.
fn write_output(
    at: &OutPos,
    dest: Endpoint,
    moment: Moment,
    out: &mut Vec<u8>,
) -> Result<(), NoMemory>
    ensures ok { OnOk result (out.new.items ≡ out.old.items ++ spelling (output_tag at.now dest moment)) }
    ensures kept { take (length out.old.items) out.new.items ≡ out.old.items }
{
    let omad = Omad {
        date: at.date,
        dest,
        seq: at.seq,
        stamp: stamp(moment),
    };
    out.extend_from_slice(b"{1120}")?;
    out.extend_from_slice(&omad_text(&omad))?;
    Ok(())
}

// The text of an output's identifier.
fn omad_text(omad: &Omad) -> [u8; 34]
    requires { IsTrue (is_stamp omad.now.stamp) }
    ensures { result ≡ omad_text omad.now }
{
    let mut text = [0; 34];
    omad.write(&mut text);
    text
}

// Appends a refusal and its text.
pub(crate) fn write_refusal(why: Reject, out: &mut Vec<u8>) -> Result<(), NoMemory>
    ensures ok { OnOk result (out.new.items ≡ out.old.items ++ spelling (refusal_tag why)) }
    ensures kept { take (length out.old.items) out.new.items ≡ out.old.items }
{
    out.extend_from_slice(b"{1130}")?;
    out.push(why.category)?;
    out.extend_from_slice(&three_digits(why.code))?;
    out.extend_from_slice(words_of(why))?;
    out.push(b'*')?;
    Ok(())
}

// The text of a refusal, empty where it isn't listed.
fn words_of(why: Reject) -> &'static [u8]
    ensures { result.now ≡ unwrap_or (text_of why) [] }
{
    match text_of(why) {
        Some(text) => text,
        None => &[],
    }
}

// Appends the identifier of a message.
pub(crate) fn write_imad(imad: &Imad, out: &mut Vec<u8>) -> Result<(), NoMemory>
    ensures ok { OnOk result (out.new.items ≡ out.old.items ++ spelling (imad_tag (imad_text imad.now))) }
    ensures kept { take (length out.old.items) out.new.items ≡ out.old.items }
{
    let mut text = [0; 22];
    imad.write(&mut text);
    out.extend_from_slice(b"{1520}")?;
    out.extend_from_slice(&text)?;
    Ok(())
}

// Appends the new date where a cycle ends.
pub(crate) fn write_next(date: CycleDate, out: &mut Vec<u8>) -> Result<(), NoMemory>
    ensures ok { OnOk result (out.new.items ≡ out.old.items ++ spelling (next_tag date)) }
    ensures kept { take (length out.old.items) out.new.items ≡ out.old.items }
{
    let mut text = [0; 8];
    date.write(&mut text);
    out.extend_from_slice(b"{9000}NEXT ")?;
    out.extend_from_slice(&text)?;
    out.push(b'*')?;
    Ok(())
}

// The last two digits of a number.
#[tactic(auto, unfolding(faim_base::specs::Digits::padded))]
fn two_digits(n: u8) -> [u8; 2]
    ensures { result ≡ padded 2 n }
{
    [b'0' + n / 10 % 10, b'0' + n % 10]
}

// The last three digits of a number.
#[tactic(auto, unfolding(faim_base::specs::Digits::padded))]
fn three_digits(n: u16) -> [u8; 3]
    ensures { result ≡ padded 3 n }
{
    [
        b'0' + (n / 10 / 10 % 10) as u8,
        b'0' + (n / 10 % 10) as u8,
        b'0' + (n % 10) as u8,
    ]
}
