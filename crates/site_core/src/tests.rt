// The forms in memory, at literal bytes.
use crate::{Clock, MemClock, MemSink, MemSite, MemSource, Sink, Site, Source, StopSite};
use faim_base::{Bytes, Failed, Moment, Moments, NoMemory, Places};
use std::alloc::Global;

fn bytes(alloc: Global, text: &[u8]) -> Result<Bytes, NoMemory> {
    let mut bytes = Bytes::new(alloc);
    bytes.extend(text)?;
    Ok(bytes)
}

fn places(alloc: Global, numbers: &[usize]) -> Result<Places, NoMemory> {
    let mut places = Places::new(alloc);
    places.extend(numbers)?;
    Ok(places)
}

#[test]
fn a_source_stops_at_its_cuts_and_fails_where_it_is_told(rt: HostRuntime) {
    let alloc = rt.alloc();
    let text = bytes(alloc, b"payment").expect(&rt, "memory");
    let cuts = places(alloc, &[1, 3]).expect(&rt, "memory");
    let fails = places(alloc, &[2]).expect(&rt, "memory");
    let mut source = MemSource::new(text, cuts, fails);
    let wanted = [Ok(1), Err(Failed), Ok(2), Ok(4), Ok(0)];
    for count in wanted {
        let mut buf = [0; 8];
        assert_eq!(rt; source.read(&mut buf), count);
    }
}

#[test]
fn a_source_gives_its_bytes_in_order(rt: HostRuntime) {
    let alloc = rt.alloc();
    let text = bytes(alloc, b"payment").expect(&rt, "memory");
    let mut source = MemSource::new(text, Places::new(alloc), Places::new(alloc));
    let mut buf = [0; 4];
    assert_eq!(rt; source.read(&mut buf), Ok(4));
    assert_eq!(rt; buf, *b"paym");
    assert_eq!(rt; source.read(&mut buf), Ok(3));
    assert_eq!(rt; buf, *b"entm");
}

#[test]
fn a_sink_keeps_what_was_written_and_fails_where_it_is_told(rt: HostRuntime) {
    let alloc = rt.alloc();
    let fails = places(alloc, &[2]).expect(&rt, "memory");
    let mut sink = MemSink::new(alloc, fails);
    assert_eq!(rt; sink.write(b"pay"), Ok(3));
    assert_eq!(rt; sink.write(b"lost"), Err(Failed));
    assert_eq!(rt; sink.write(b"ment"), Ok(4));
    assert_eq!(rt; sink.bytes(), b"payment".as_slice());
    assert_eq!(rt; sink.lacks(), 0);
}

fn three_readings(alloc: Global, fails: &[usize]) -> Option<MemClock> {
    let mut readings = Moments::new(alloc);
    let minutes = [Moment::new(5)?, Moment::new(3)?, Moment::new(9)?];
    readings.extend(&minutes).ok()?;
    Some(MemClock::new(readings, places(alloc, fails).ok()?))
}

#[test]
fn a_clock_gives_its_last_reading_again_and_uses_none_up_where_it_fails(rt: HostRuntime) {
    let mut clock = three_readings(rt.alloc(), &[3]).expect(&rt, "memory");
    for wanted in [Ok(5), Ok(3), Err(Failed), Ok(9), Ok(9), Ok(9)] {
        assert_eq!(rt; clock.now().map(|moment| moment.get()), wanted);
    }
}

// Three bytes are stable; two more stand after a gap, and one is written over as the site stops.
#[test]
fn a_stop_leaves_the_image_that_the_tear_chooses(rt: HostRuntime) {
    let alloc = rt.alloc();
    let images = [
        (0, 3, *b"abc\0\0\0\0\0"),
        (1, 7, *b"aqc\0\0xy\0"),
        (255, 7, [97, 255, 99, 255, 255, 255, 255, 0]),
    ];
    for (tear, size, image) in images {
        let mut site = MemSite::new(alloc, Places::new(alloc));
        assert_eq!(rt; site.write_at(0, b"abc"), Ok(()));
        assert_eq!(rt; site.sync(), Ok(()));
        assert_eq!(rt; site.write_at(5, b"xy"), Ok(()));
        assert!(rt; !site.stopped());
        site.arm(1, tear);
        assert_eq!(rt; site.write_at(1, b"q"), Err(Failed));
        site.restart();
        let mut buf = [0; 8];
        assert_eq!(rt; site.read_at(0, &mut buf), Ok(size), "tear {tear}");
        assert_eq!(rt; buf, image, "tear {tear}");
    }
}

fn has_sent(site: &MemSite, number: u64, wanted: &[u8]) -> bool {
    match site.sent(number) {
        Some(frame) => frame == wanted,
        None => false,
    }
}

#[test]
fn a_stopped_send_is_in_where_the_tear_is_odd(rt: HostRuntime) {
    let alloc = rt.alloc();
    for (tear, count) in [(0, 1), (1, 2)] {
        let mut site = MemSite::new(alloc, Places::new(alloc));
        assert_eq!(rt; site.send(b"one"), Ok(()));
        assert!(rt; !site.stopped());
        site.arm(2, tear);
        assert_eq!(rt; site.size(), Ok(0));
        assert_eq!(rt; site.send(b"two"), Err(Failed));
        assert_eq!(rt; site.send(b"three"), Err(Failed));
        assert_eq!(rt; site.sent_count(), count);
        assert!(rt; has_sent(&site, 1, b"one"));
        assert_eq!(rt; has_sent(&site, 2, b"two"), count == 2);
        assert!(rt; !has_sent(&site, 3, b"three"));
    }
}

#[test]
fn a_listed_call_fails_once(rt: HostRuntime) {
    let alloc = rt.alloc();
    let fails = places(alloc, &[2]).expect(&rt, "memory");
    let mut site = MemSite::new(alloc, fails);
    assert_eq!(rt; site.write_at(0, b"abc"), Ok(()));
    assert_eq!(rt; site.write_at(0, b"xyz"), Err(Failed));
    assert_eq!(rt; site.size(), Ok(3));
    let mut buf = [0; 3];
    assert_eq!(rt; site.read_at(0, &mut buf), Ok(3));
    assert_eq!(rt; buf, *b"abc");
    assert_eq!(rt; site.lacks(), 0);
}
