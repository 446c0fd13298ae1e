use crate::*;
use faim_base::{LONGEST_MESSAGE, NoMemory, Refused, TagNo};
use std::alloc::Global;
use std::test::Fail;

// How many bytes are read, or why none are; what is read is spelled again.
fn read_again(alloc: Global, bytes: &[u8]) -> Result<Option<usize>, Refused> {
    let (value, length) = match read_tag(alloc, bytes) {
        Ok(found) => found,
        Err(refused) => return Err(refused),
    };
    let mut out = Vec::new(alloc);
    if spell(&value, &mut out).is_err() {
        return Err(Refused::NoMemory);
    }
    if length <= bytes.len() && out.as_slice() == &bytes[..length] {
        Ok(Some(length))
    } else {
        Ok(None)
    }
}

#[test]
fn whole_tags_are_read_up_to_their_end(rt: HostRuntime) {
    let cases: [(&[u8], usize); 8] = [
        (b"{1510}1000", 10),
        (b"{1510}1000{1520}", 10),
        (b"{3100}021000021ALPHA BANK*", 26),
        (b"{3100}021000021", 15),
        (b"{3600}BTR   \n", 12),
        (b"{3600}BTR   *\r\n", 13),
        (b"{6000}INVOICE 1*INVOICE 2*{9000}", 26),
        (b"{3100}021000021ABCDEFGHIJKLMNOPQR", 33),
    ];
    for (bytes, length) in cases {
        assert_eq!(rt; read_again(rt.alloc(), bytes), Ok(Some(length)));
    }
}

// What is cut off as a tag, of bytes that have one in front: how many bytes it has, how many star elements, and whether
// the last of them has its star.
fn cut_off(alloc: Global, bytes: &[u8]) -> Result<(usize, usize, bool), Refused> {
    let _found = match read_tag(alloc, bytes) {
        Ok(found) => found,
        Err(refused) => return Err(refused),
    };
    match cut_tag(alloc, bytes) {
        Ok((value, length)) => Ok((length, value.stars.as_slice().len(), value.closed)),
        Err(NoMemory) => Err(Refused::NoMemory),
    }
}

#[test]
fn a_tag_is_cut_off_with_its_star_elements(rt: HostRuntime) {
    let cases: [(&[u8], (usize, usize, bool)); 4] = [
        (b"{1510}1000{1520}", (10, 0, false)),
        (b"{3100}021000021ALPHA BANK*\r\n{3400}", (26, 1, true)),
        (b"{3100}021000021ABCDEFGHIJKLMNOPQR\n{3400}", (33, 1, false)),
        (b"{6420}CHECK*{6500}", (12, 1, true)),
    ];
    for (bytes, cut) in cases {
        assert_eq!(rt; cut_off(rt.alloc(), bytes), Ok(cut));
    }
}

#[test]
fn other_bytes_are_refused_at_their_first_wrong_byte(rt: HostRuntime) {
    let cases: [(&[u8], Refused); 9] = [
        (b"", Refused::Cut),
        (b"{15", Refused::Cut),
        (b"{3100}021000021ALPHA", Refused::Cut),
        (b"{6000}", Refused::Cut),
        (b"HELLO", Refused::Byte(0)),
        (b"{1530}", Refused::Byte(3)),
        (b"{2000}00000015000X", Refused::Byte(17)),
        (b"{3100}021000021ABCDEFGHIJKLMNOPQRS*", Refused::Byte(33)),
        (b"{3100}021000021ALPHA*BANK*", Refused::Byte(21)),
    ];
    for (bytes, refused) in cases {
        assert_eq!(rt; read_again(rt.alloc(), bytes), Err(refused));
    }
}

#[test]
fn only_the_numbers_asked_for_are_known(rt: HostRuntime) {
    let bytes = b"{1520}20240102BANKA001000001";
    assert!(rt; read_tag_among(rt.alloc(), bytes, &[1520, 2000]).is_ok());
    assert!(rt;
        matches!(
            read_tag_among(rt.alloc(), bytes, &[1510, 2000]),
            Err(Refused::Byte(3))
        )
    );
}

#[test]
fn a_layout_has_its_elements(rt: HostRuntime) -> Result<(), Fail> {
    let no = TagNo::new(6110).ok_or("6110 is a tag")?;
    assert_eq!(rt; layout(no).fixed, [(b't', 3)].as_slice());
    assert_eq!(rt; layout(no).stars, [26, 33, 33, 33, 33, 33].as_slice());
    Ok(())
}

// A row of the table: a tag's number in braces, the class and the length of each fixed element, and the greatest length
// of each star element.
type Row = (&'static [u8], &'static [(u8, usize)], &'static [usize]);

const ROWS: [Row; 34] = [
    (
        b"{1100}",
        &[(b't', 2), (b't', 1), (b't', 1), (b't', 1)],
        &[],
    ),
    (b"{1110}", &[(b'n', 4), (b'n', 4), (b't', 4)], &[]),
    (
        b"{1120}",
        &[
            (b'n', 8),
            (b't', 8),
            (b'n', 6),
            (b'n', 4),
            (b'n', 4),
            (b't', 4),
        ],
        &[],
    ),
    (b"{1130}", &[(b't', 1), (b'n', 3)], &[35]),
    (
        b"{1500}",
        &[(b't', 2), (b't', 8), (b't', 1), (b't', 1)],
        &[],
    ),
    (b"{1510}", &[(b'n', 2), (b'n', 2)], &[]),
    (b"{1520}", &[(b'n', 8), (b't', 8), (b'n', 6)], &[]),
    (b"{2000}", &[(b'n', 12)], &[]),
    (b"{3100}", &[(b'n', 9)], &[18]),
    (b"{3320}", &[], &[16]),
    (b"{3400}", &[(b'n', 9)], &[18]),
    (b"{3500}", &[], &[22]),
    (b"{3600}", &[(b't', 3)], &[3]),
    (b"{4000}", &[(b't', 1)], &[34, 35, 35, 35, 35]),
    (b"{4100}", &[(b't', 1)], &[34, 35, 35, 35, 35]),
    (b"{4200}", &[(b't', 1)], &[34, 35, 35, 35, 35]),
    (b"{4320}", &[], &[16]),
    (b"{4400}", &[(b't', 1)], &[34, 35, 35, 35, 35]),
    (b"{5000}", &[(b't', 1)], &[34, 35, 35, 35, 35]),
    (b"{5100}", &[(b't', 1)], &[34, 35, 35, 35, 35]),
    (b"{5200}", &[(b't', 1)], &[34, 35, 35, 35, 35]),
    (b"{5400}", &[(b'n', 9)], &[]),
    (b"{6000}", &[], &[35, 35, 35, 35]),
    (b"{6100}", &[], &[30, 33, 33, 33, 33, 33]),
    (b"{6110}", &[(b't', 3)], &[26, 33, 33, 33, 33, 33]),
    (b"{6200}", &[], &[30, 33, 33, 33, 33, 33]),
    (b"{6210}", &[(b't', 3)], &[26, 33, 33, 33, 33, 33]),
    (b"{6300}", &[], &[30, 33, 33, 33, 33, 33]),
    (b"{6310}", &[(b't', 3)], &[26, 33, 33, 33, 33, 33]),
    (b"{6400}", &[], &[30, 33, 33, 33, 33, 33]),
    (b"{6410}", &[(b't', 3)], &[26, 33, 33, 33, 33, 33]),
    (b"{6420}", &[(b't', 5)], &[30]),
    (b"{6500}", &[], &[35, 35, 35, 35, 35, 35]),
    (
        b"{9000}",
        &[],
        &[35, 35, 35, 35, 35, 35, 35, 35, 35, 35, 35, 35],
    ),
];

// How many bytes the tag in front has, or why there is none.
fn length_read(alloc: Global, bytes: &[u8]) -> Result<usize, Refused> {
    let (_value, length) = match read_tag(alloc, bytes) {
        Ok(found) => found,
        Err(refused) => return Err(refused),
    };
    Ok(length)
}

// The text is a whole tag.
fn is_whole(alloc: Global, text: &[u8]) -> bool {
    length_read(alloc, text) == Ok(text.len())
}

// No tag goes on from the text with this byte.
fn stops_at(alloc: Global, text: &mut Vec<u8>, next: u8) -> Result<bool, NoMemory> {
    let place = text.len();
    text.push(next)?;
    let read = length_read(alloc, text.as_slice());
    text.truncate(place);
    Ok(read == Err(Refused::Byte(place)))
}

// Appends so many bytes of a class. False where a tag is whole before one of them, or goes on with a byte of another
// class.
fn takes_class(
    alloc: Global,
    text: &mut Vec<u8>,
    class: u8,
    length: usize,
) -> Result<bool, NoMemory> {
    let (good, wrong) = if class == b'n' {
        (b'9', b'A')
    } else {
        (b'A', b'*')
    };
    let mut held = true;
    for _ in 0..length {
        held = held && length_read(alloc, text.as_slice()) == Err(Refused::Cut);
        held = held && stops_at(alloc, text, wrong)?;
        text.push(good)?;
    }
    Ok(held)
}

// Appends the fixed elements. False where one of them has other bytes.
fn takes_fixed(alloc: Global, text: &mut Vec<u8>, fixed: &[(u8, usize)]) -> Result<bool, NoMemory> {
    for (class, length) in fixed {
        if !takes_class(alloc, text, *class, *length)? {
            return Ok(false);
        }
    }
    Ok(true)
}

// Appends the star elements at their greatest lengths. False where one of them may be longer, or shorter without its
// star.
fn takes_stars(alloc: Global, text: &mut Vec<u8>, stars: &[usize]) -> Result<bool, NoMemory> {
    for most in stars {
        if !takes_star(alloc, text, *most)? {
            return Ok(false);
        }
    }
    Ok(true)
}

// The same for one star element.
fn takes_star(alloc: Global, text: &mut Vec<u8>, most: usize) -> Result<bool, NoMemory> {
    let mut held = true;
    for count in 1..=most {
        text.push(b'A')?;
        let want = if count < most {
            Err(Refused::Cut)
        } else {
            Ok(text.len())
        };
        held = held && length_read(alloc, text.as_slice()) == want;
    }
    held = held && stops_at(alloc, text, b'A')?;
    text.push(b'*')?;
    Ok(held && is_whole(alloc, text.as_slice()))
}

// Each tag is taken at the limits of its row, and refused one byte and one element past them.
#[test]
fn each_row_is_taken_up_to_its_limits(rt: HostRuntime) -> Result<(), Fail> {
    let alloc = rt.alloc();
    let mut all = 0_usize;
    for (number, fixed, stars) in ROWS {
        let mut text = Vec::new(alloc);
        text.extend_from_slice(number).ok().ok_or("memory")?;
        let fixed_held = takes_fixed(alloc, &mut text, fixed).ok().ok_or("memory")?;
        let stars_held = takes_stars(alloc, &mut text, stars).ok().ok_or("memory")?;
        assert!(rt; fixed_held && stars_held && is_whole(alloc, text.as_slice()));
        assert!(rt; stops_at(alloc, &mut text, b'A').ok().ok_or("memory")?);
        assert!(rt; stops_at(alloc, &mut text, b'*').ok().ok_or("memory")?);
        all = all.saturating_add(text.len() + 2);
    }
    assert_eq!(rt; all, 4_234);
    assert_eq!(rt; all, LONGEST_MESSAGE);
    Ok(())
}
