// What no clause says of an index: that its definitions are those of a plain search, and each answer once.
ghost use Rattle.std.specs.Prelude.{◌≡◌, IsTrue, IfOk, OnOk, true, map};
ghost use Rattle.std.specs.Option.{option_map, option_to_list};
ghost use Rattle.host_index.specs.Index.{are_above, after_posting, after_roll};

use crate::HostIndex;
use faim_base::{CycleDate, Endpoint, Imad, OutPos, Seq};
use std::alloc::Global;
use std::test::Fail;

const BANK_A: &[u8; 8] = b"BANKA001";

const BANK_B: &[u8; 8] = b"BANKB001";

const BANK_C: &[u8; 8] = b"BANKC001";

// A name, a date in days since 2000-01-01, and a number under that date.
#[derive(Clone, Copy)]
struct Numbered(&'static [u8; 8], u32, u32);

// A message by its IMAD, the output that it gives, and the outputs of a Roll after it.
#[derive(Clone, Copy)]
struct Written {
    message: Numbered,
    gives: Option<Numbered>,
    ends: &'static [Numbered],
}

// The same, read.
#[derive(Drop)]
struct Step {
    imad: Imad,
    to: Option<(Endpoint, OutPos)>,
    ends: Vec<(Endpoint, OutPos)>,
}

const STEPS: [Written; 7] = [
    Written {
        message: Numbered(BANK_A, 8767, 1),
        gives: Some(Numbered(BANK_B, 8767, 1)),
        ends: &[],
    },
    Written {
        message: Numbered(BANK_A, 8767, 2),
        gives: None,
        ends: &[],
    },
    Written {
        message: Numbered(BANK_B, 8767, 1),
        gives: Some(Numbered(BANK_A, 8767, 1)),
        ends: &[
            Numbered(BANK_A, 8767, 2),
            Numbered(BANK_B, 8767, 2),
            Numbered(BANK_C, 8767, 1),
        ],
    },
    Written {
        message: Numbered(BANK_A, 8768, 1),
        gives: Some(Numbered(BANK_A, 8768, 1)),
        ends: &[],
    },
    Written {
        message: Numbered(BANK_B, 8768, 2),
        gives: None,
        ends: &[Numbered(BANK_B, 8768, 1), Numbered(BANK_A, 8768, 2)],
    },
    Written {
        message: Numbered(BANK_C, 8770, 999_999),
        gives: Some(Numbered(BANK_B, 8770, 999_999)),
        ends: &[],
    },
    Written {
        message: Numbered(BANK_A, 8770, 3),
        gives: Some(Numbered(BANK_C, 8770, 1)),
        ends: &[],
    },
];

// IMADs of which some are never posted: another date, another source, another number.
const ASKED: [Numbered; 9] = [
    Numbered(BANK_A, 8767, 1),
    Numbered(BANK_A, 8767, 2),
    Numbered(BANK_A, 8767, 3),
    Numbered(BANK_B, 8767, 1),
    Numbered(BANK_C, 8767, 1),
    Numbered(BANK_A, 8768, 1),
    Numbered(BANK_B, 8768, 1),
    Numbered(BANK_C, 8770, 999_999),
    Numbered(BANK_A, 8770, 999_999),
];

// Positions from which outputs are asked for, of each endpoint.
const FROM: [(u32, u32); 7] = [
    (0, 1),
    (8767, 1),
    (8767, 2),
    (8767, 999_999),
    (8768, 2),
    (8770, 999_999),
    (2_921_939, 999_999),
];

// The lists that the index stands for, searched from their begin.
#[derive(Drop)]
struct Plain {
    posted: Vec<(Imad, usize)>,
    outputs: Vec<(Endpoint, OutPos, usize)>,
}

impl Plain {
    fn new(alloc: Global) -> Plain {
        Plain {
            posted: Vec::new(alloc),
            outputs: Vec::new(alloc),
        }
    }

    fn place_of(&self, imad: &Imad) -> Option<usize> {
        for own in self.posted.as_slice() {
            if own.0 == *imad {
                return Some(own.1);
            }
        }
        None
    }

    fn count(&self, dest: Endpoint, date: CycleDate) -> u32 {
        let mut count = 0_u32;
        for own in self.outputs.as_slice() {
            if own.0 == dest && own.1.date == date {
                count = count.saturating_add(1);
            }
        }
        count
    }

    fn total(&self, dest: Endpoint) -> usize {
        let mut count = 0_usize;
        for own in self.outputs.as_slice() {
            if own.0 == dest {
                count = count.saturating_add(1);
            }
        }
        count
    }

    fn from(&self, alloc: Global, dest: Endpoint, at: &OutPos) -> Result<Vec<usize>, Fail> {
        let mut places = Vec::new(alloc);
        for own in self.outputs.as_slice() {
            if own.0 == dest && own.1 >= *at && places.len() < 64 {
                places.push(own.2)?;
            }
        }
        Ok(places)
    }

    fn post(&mut self, step: &Step, place: usize) -> Result<(), Fail> {
        self.posted.push((step.imad, place))?;
        if let Some(end) = &step.to {
            self.outputs.push((end.0, end.1, place))?;
        }
        Ok(())
    }

    fn roll(&mut self, ends: &[(Endpoint, OutPos)], place: usize) -> Result<(), Fail> {
        for end in ends {
            self.outputs.push((end.0, end.1, place))?;
        }
        Ok(())
    }

    fn take_back(&mut self, posted: usize, outputs: usize) {
        self.posted
            .truncate(self.posted.len().saturating_sub(posted));
        self.outputs
            .truncate(self.outputs.len().saturating_sub(outputs));
    }
}

#[test]
fn an_index_answers_as_plain_lists_do(rt: HostRuntime) -> Result<(), Fail> {
    let mut index = HostIndex::new(rt.alloc());
    answers_as_plain_lists_do(rt.alloc(), &mut index)
}

fn answers_as_plain_lists_do(alloc: Global, index: &mut HostIndex) -> Result<(), Fail> {
    let mut plain = Plain::new(alloc);
    agree(alloc, index, &plain)?;
    let steps = steps(alloc)?;
    walk(alloc, index, &mut plain, steps.as_slice())
}

// Takes each step and all that follow it, takes them back, and then goes on without it: each choice of the steps is there
// once, and the index is asked after each addition and each drop.
fn walk(alloc: Global, index: &mut HostIndex, plain: &mut Plain, steps: &[Step]) -> Result<(), Fail>
    ensures { OnOk result (index.new ≡ index.old) }
{
    if steps.is_empty() {
        return Ok(());
    }
    let step = &steps[0];
    let rest = &steps[1..];
    let dests = dests(alloc, step.ends.as_slice())?;
    let place = steps.len();
    post(index, &step.imad, &step.to, place)?;
    plain.post(step, place)?;
    agree(alloc, index, plain)?;
    roll(index, step.ends.as_slice(), place)?;
    plain.roll(step.ends.as_slice(), place)?;
    agree(alloc, index, plain)?;
    walk(alloc, index, plain, rest)?;
    index.drop_roll(dests.as_slice());
    plain.take_back(0, dests.len());
    agree(alloc, index, plain)?;
    index.drop_posted(step.imad, dest(&step.to));
    plain.take_back(1, usize::from(step.to.is_some()));
    agree(alloc, index, plain)?;
    walk(alloc, index, plain, rest)
}

// Whether the index answers as the lists do.
fn agree(alloc: Global, index: &HostIndex, plain: &Plain) -> Result<(), Fail> {
    for asked in ASKED {
        agree_on_place(index, plain, asked)?;
    }
    for name in [BANK_A, BANK_B, BANK_C, b"NOBANK01"] {
        agree_on_endpoint(alloc, index, plain, name)?;
    }
    Ok(())
}

fn agree_on_place(index: &HostIndex, plain: &Plain, asked: Numbered) -> Result<(), Fail> {
    let imad = imad(asked)?;
    if index.find(&imad) != plain.place_of(&imad) {
        return Err(Fail::from("another place"));
    }
    Ok(())
}

fn agree_on_endpoint(
    alloc: Global,
    index: &HostIndex,
    plain: &Plain,
    name: &[u8; 8],
) -> Result<(), Fail> {
    let dest = Endpoint::read(name).ok_or("an endpoint")?;
    if index.total(dest) != plain.total(dest) {
        return Err(Fail::from("another total"));
    }
    agree_on_counts(index, plain, dest)?;
    agree_on_places(alloc, index, plain, dest)
}

fn agree_on_counts(index: &HostIndex, plain: &Plain, dest: Endpoint) -> Result<(), Fail> {
    for days in [0, 8766, 8767, 8768, 8769, 8770, 2_921_939] {
        let date = CycleDate::new(days).ok_or("a date")?;
        if index.count(dest, date) != plain.count(dest, date) {
            return Err(Fail::from("another count"));
        }
    }
    Ok(())
}

fn agree_on_places(
    alloc: Global,
    index: &HostIndex,
    plain: &Plain,
    dest: Endpoint,
) -> Result<(), Fail> {
    for (days, number) in FROM {
        let at = position(days, number)?;
        let wanted = plain.from(alloc, dest, &at)?;
        let found = index.from(dest, at)?;
        if found.as_slice() != wanted.as_slice() {
            return Err(Fail::from("other places"));
        }
    }
    Ok(())
}

#[test]
fn a_retrieval_gives_the_first_sixty_four(rt: HostRuntime) -> Result<(), Fail> {
    let mut index = HostIndex::new(rt.alloc());
    post_seventy(&mut index)?;
    gives_sixty_four(rt.alloc(), &index)
}

fn post_seventy(index: &mut HostIndex) -> Result<(), Fail> {
    for number in 1..71 {
        post_numbered(index, number)?;
    }
    Ok(())
}

// Posts the message with a number, whose output has that number too.
fn post_numbered(index: &mut HostIndex, number: u32) -> Result<(), Fail> {
    let imad = imad(Numbered(BANK_A, 8767, number))?;
    let to = output(Some(Numbered(BANK_B, 8767, number)))?;
    post(index, &imad, &to, 1000 + number as usize)
}

fn gives_sixty_four(alloc: Global, index: &HostIndex) -> Result<(), Fail> {
    has_total(index, BANK_B, 70)?;
    for (number, first, end) in [
        (1, 1001, 1065),
        (7, 1007, 1071),
        (8, 1008, 1071),
        (70, 1070, 1071),
    ] {
        gives_between(alloc, index, number, first, end)?;
    }
    Ok(())
}

// A retrieval from a number on gives the places from one up to another.
fn gives_between(
    alloc: Global,
    index: &HostIndex,
    number: u32,
    first: usize,
    end: usize,
) -> Result<(), Fail> {
    let mut wanted = Vec::new(alloc);
    for place in first..end {
        wanted.push(place)?;
    }
    gives(index, BANK_B, (8767, number), wanted.as_slice())
}

#[test]
fn an_empty_index_knows_nothing(rt: HostRuntime) -> Result<(), Fail> {
    let index = HostIndex::new(rt.alloc());
    knows_nothing(&index)
}

fn knows_nothing(index: &HostIndex) -> Result<(), Fail> {
    finds(index, Numbered(BANK_A, 8767, 1), None)?;
    has_count(index, BANK_A, 8767, 0)?;
    has_total(index, BANK_A, 0)?;
    gives(index, BANK_A, (0, 1), &[])
}

#[test]
fn each_call_answers_once(rt: HostRuntime) -> Result<(), Fail> {
    let mut index = HostIndex::new(rt.alloc());
    post_and_roll(rt.alloc(), &mut index)?;
    stands(&index)?;
    gives_both(&index)
}

// Posts a message, and ends the cycle of its receiver.
fn post_and_roll(alloc: Global, index: &mut HostIndex) -> Result<(), Fail> {
    let imad = imad(Numbered(BANK_A, 8767, 1))?;
    let to = output(Some(Numbered(BANK_B, 8767, 3)))?;
    let ends = outputs(alloc, &[Numbered(BANK_B, 8768, 1)])?;
    post(index, &imad, &to, 12)?;
    roll(index, ends.as_slice(), 13)
}

fn stands(index: &HostIndex) -> Result<(), Fail> {
    finds(index, Numbered(BANK_A, 8767, 1), Some(12))?;
    has_count(index, BANK_B, 8767, 1)?;
    has_total(index, BANK_B, 2)
}

fn gives_both(index: &HostIndex) -> Result<(), Fail> {
    let asked: [((u32, u32), &[usize]); 6] = [
        ((8767, 2), &[12, 13]),
        ((8767, 3), &[12, 13]),
        ((8767, 4), &[13]),
        ((8768, 1), &[13]),
        ((8768, 2), &[]),
        ((8769, 1), &[]),
    ];
    for (from, wanted) in asked {
        gives(index, BANK_B, from, wanted)?;
    }
    Ok(())
}

// The place of a message is this one.
fn finds(index: &HostIndex, message: Numbered, wanted: Option<usize>) -> Result<(), Fail> {
    if index.find(&imad(message)?) != wanted {
        return Err(Fail::from("another place"));
    }
    Ok(())
}

// An endpoint has so many outputs under a date.
fn has_count(index: &HostIndex, name: &[u8; 8], days: u32, wanted: u32) -> Result<(), Fail> {
    let dest = Endpoint::read(name).ok_or("an endpoint")?;
    let date = CycleDate::new(days).ok_or("a date")?;
    if index.count(dest, date) != wanted {
        return Err(Fail::from("another count"));
    }
    Ok(())
}

fn has_total(index: &HostIndex, name: &[u8; 8], wanted: usize) -> Result<(), Fail> {
    let dest = Endpoint::read(name).ok_or("an endpoint")?;
    if index.total(dest) != wanted {
        return Err(Fail::from("another total"));
    }
    Ok(())
}

// A retrieval of an endpoint from a date and a number on gives these places.
fn gives(
    index: &HostIndex,
    name: &[u8; 8],
    from: (u32, u32),
    wanted: &[usize],
) -> Result<(), Fail> {
    let dest = Endpoint::read(name).ok_or("an endpoint")?;
    let found = index.from(dest, position(from.0, from.1)?)?;
    if found.as_slice() != wanted {
        return Err(Fail::from("other places"));
    }
    Ok(())
}

// Posts a message that may be posted.
fn post(
    index: &mut HostIndex,
    imad: &Imad,
    to: &Option<(Endpoint, OutPos)>,
    place: usize,
) -> Result<(), Fail>
    ensures { OnOk result (index.new ≡ after_posting imad.now to.now place index.old) }
{
    if index.find(imad).is_some() {
        return Err(Fail::from("a new IMAD"));
    }
    if !may_give(index, to, place)? {
        return Err(Fail::from("a position above"));
    }
    index.add_posted(*imad, *to, place)?;
    Ok(())
}

// Ends a cycle that may be ended.
fn roll(index: &mut HostIndex, ends: &[(Endpoint, OutPos)], place: usize) -> Result<(), Fail>
    ensures { OnOk result (index.new ≡ after_roll ends.now place index.old) }
{
    if !may_end(index, ends, place)? {
        return Err(Fail::from("positions above"));
    }
    index.add_roll(ends, place)?;
    Ok(())
}

// Whether the position is above all that its endpoint has.
fn may_give(
    index: &mut HostIndex,
    to: &Option<(Endpoint, OutPos)>,
    place: usize,
) -> Result<bool, Fail>
    ensures kept { OnOk result (index.new ≡ index.old) }
    ensures above { IfOk result (λ may. may ≡ true → IsTrue (are_above place (option_to_list to.now) index.old.outputs)) }
{
    match to {
        Some(end) => may_end(index, &[*end], place),
        None => Ok(true),
    }
}

// Whether each position is above all that its endpoint has by then: adds the outputs one by one, and takes them back.
fn may_end(index: &mut HostIndex, ends: &[(Endpoint, OutPos)], place: usize) -> Result<bool, Fail>
    ensures kept { OnOk result (index.new ≡ index.old) }
    ensures above { IfOk result (λ may. may ≡ true → IsTrue (are_above place ends.now index.old.outputs)) }
{
    if ends.is_empty() {
        return Ok(true);
    }
    let end = ends[0];
    if !index.from(end.0, end.1)?.as_slice().is_empty() {
        return Ok(false);
    }
    index.add_roll(&[end], place)?;
    let may = may_end(index, &ends[1..], place)?;
    index.drop_roll(&[end.0]);
    Ok(may)
}

// The endpoint of an output.
fn dest(to: &Option<(Endpoint, OutPos)>) -> Option<Endpoint>
    ensures { result ≡ option_map (λ end. end.0) to.now }
{
    match to {
        Some(end) => Some(end.0),
        None => None,
    }
}

// The endpoints of outputs.
fn dests(alloc: Global, ends: &[(Endpoint, OutPos)]) -> Result<Vec<Endpoint>, Fail>
    ensures { IfOk result (λ dests. dests.items ≡ map (λ end. end.0) ends.now) }
{
    let mut dests = Vec::new(alloc);
    for end in ends {
        dests.push(end.0)?;
    }
    Ok(dests)
}

fn steps(alloc: Global) -> Result<Vec<Step>, Fail> {
    let mut steps = Vec::new(alloc);
    for step in &STEPS {
        steps.push(Step {
            imad: imad(step.message)?,
            to: output(step.gives)?,
            ends: outputs(alloc, step.ends)?,
        })?;
    }
    Ok(steps)
}

fn imad(message: Numbered) -> Result<Imad, Fail> {
    Ok(Imad {
        date: CycleDate::new(message.1).ok_or("a date")?,
        source: Endpoint::read(message.0).ok_or("an endpoint")?,
        seq: Seq::new(message.2).ok_or("a number")?,
    })
}

fn position(days: u32, number: u32) -> Result<OutPos, Fail> {
    Ok(OutPos {
        date: CycleDate::new(days).ok_or("a date")?,
        seq: Seq::new(number).ok_or("a number")?,
    })
}

fn end_of(output: Numbered) -> Result<(Endpoint, OutPos), Fail> {
    let dest = Endpoint::read(output.0).ok_or("an endpoint")?;
    Ok((dest, position(output.1, output.2)?))
}

fn output(gives: Option<Numbered>) -> Result<Option<(Endpoint, OutPos)>, Fail> {
    match gives {
        Some(output) => Ok(Some(end_of(output)?)),
        None => Ok(None),
    }
}

fn outputs(alloc: Global, ends: &[Numbered]) -> Result<Vec<(Endpoint, OutPos)>, Fail> {
    let mut outputs = Vec::new(alloc);
    for end in ends {
        outputs.push(end_of(*end)?)?;
    }
    Ok(outputs)
}
