// Files of the system as disks, and files that only play one.
use crate::file_site::{FileSite, open_file};
use faim_base::Failed;
use site_core::Site;
use std::fs::{self, File, Metadata, OpenFile};
use std::io::{self, BufWriter, ErrorKind};
use std::os::unix::fs::FileExt;
use std::test::Fail;

fn site_at(rt: &HostRuntime, path: &str) -> FileSite<File, Vec<u8>> {
    FileSite::new(open_file(rt, path), Vec::new(rt.alloc()))
}

fn write_and_sync(rt: &HostRuntime, path: &str) -> Result<(), Failed> {
    let mut site = site_at(rt, path);
    site.write_at(3, b"payment")?;
    site.write_at(5, b"w")?;
    site.sync()
}

#[test]
fn a_file_has_what_was_written_after_it_is_opened_again(rt: HostRuntime) {
    let path = "faim_cli_written.journal";
    let _ = fs::remove_file(&rt, path);
    assert_eq!(rt; write_and_sync(&rt, path), Ok(()));
    let mut site = site_at(&rt, path);
    let mut buf = [9; 5];
    assert_eq!(rt; site.read_at(2, &mut buf), Ok(5));
    assert_eq!(rt; buf, *b"\0pawm");
    assert_eq!(rt; site.read_at(8, &mut buf), Ok(2));
    assert_eq!(rt; buf, *b"ntawm");
    assert_eq!(rt; site.size(), Ok(10));
    assert!(rt; fs::remove_file(&rt, path).is_ok());
}

#[test]
fn a_file_that_is_not_there_is_made_empty(rt: HostRuntime) {
    let path = "faim_cli_made.journal";
    let _ = fs::remove_file(&rt, path);
    let mut site = site_at(&rt, path);
    assert!(rt; fs::metadata(&rt, path).is_ok());
    assert_eq!(rt; site.size(), Ok(0));
    assert_eq!(rt; site.read_at(0, &mut [9]), Ok(0));
    assert!(rt; fs::remove_file(&rt, path).is_ok());
}

// At a folder, below a file that isn't there, and where there is no path.
#[test]
fn a_site_without_a_file_fails_each_call_of_the_disk(rt: HostRuntime) {
    for file in [
        open_file(&rt, "."),
        open_file(&rt, "faim_cli_nowhere/journal"),
        None,
    ] {
        let mut site = FileSite::new(file, Vec::new(rt.alloc()));
        let mut buf = [0; 4];
        assert_eq!(rt; site.size(), Err(Failed));
        assert_eq!(rt; site.read_at(0, &mut buf), Err(Failed));
        assert_eq!(rt; site.write_at(0, b"payment"), Err(Failed));
        assert_eq!(rt; site.sync(), Err(Failed));
        assert_eq!(rt; site.disk_faults, 4);
        assert_eq!(rt; site.send(b"frame"), Ok(()));
        assert_eq!(rt; site.line_faults, 0);
    }
}

#[test]
fn a_frame_is_out_before_send_answers(rt: HostRuntime) -> Result<(), Fail> {
    let line = BufWriter::new(rt.alloc(), Vec::new(rt.alloc()))?;
    let mut site = FileSite::new(None::<File>, line);
    assert_eq!(rt; site.send(b"frame"), Ok(()));
    assert_eq!(rt; site.line.get_ref().as_slice(), b"frame".as_slice());
    Ok(())
}

#[test]
fn nothing_follows_a_frame_that_was_cut(rt: HostRuntime) {
    let mut room = [0; 6];
    let mut site = FileSite::new(None::<File>, room.as_mut_slice());
    assert_eq!(rt; site.send(b"one"), Ok(()));
    assert_eq!(rt; site.send(b"three"), Err(Failed));
    assert_eq!(rt; site.send(b""), Err(Failed));
    assert_eq!(rt; site.line_faults, 2);
    drop(site);
    assert_eq!(rt; room, *b"onethr");
}

// Four bytes, which are read one by one. What is written is not taken, and a sync fails.
#[derive(Drop)]
struct Worn;

impl FileExt for Worn {
    fn read_at(&self, buf: &mut [u8], offset: u64) -> io::Result<usize> {
        match (b"worn".get(offset as usize), buf.first_mut()) {
            (Some(byte), Some(first)) => {
                *first = *byte;
                Ok(1)
            }
            _ => Ok(0),
        }
    }

    fn write_at(&self, _buf: &[u8], _offset: u64) -> io::Result<usize> {
        Ok(0)
    }
}

impl OpenFile for Worn {
    fn metadata(&self) -> io::Result<Metadata> {
        Ok(Metadata::of_file(4))
    }

    fn set_len(&self, _size: u64) -> io::Result<()> {
        Ok(())
    }

    fn sync_all(&self) -> io::Result<()> {
        Ok(())
    }

    fn sync_data(&self) -> io::Result<()> {
        Err(io::Error::from(ErrorKind::Other))
    }
}

#[test]
fn short_reads_are_joined_and_a_write_of_nothing_fails(rt: HostRuntime) {
    let mut site = FileSite::new(Some(Worn), Vec::new(rt.alloc()));
    let mut buf = [0; 3];
    assert_eq!(rt; site.read_at(0, &mut buf), Ok(3));
    assert_eq!(rt; buf, *b"wor");
    assert_eq!(rt; site.read_at(2, &mut buf), Ok(2));
    assert_eq!(rt; buf, *b"rnr");
    assert_eq!(rt; site.write_at(0, b"new"), Err(Failed));
    assert_eq!(rt; site.disk_faults, 1);
}

#[test]
fn after_a_sync_that_failed_each_call_of_the_disk_fails(rt: HostRuntime) {
    let mut site = FileSite::new(Some(Worn), Vec::new(rt.alloc()));
    assert_eq!(rt; site.size(), Ok(4));
    assert_eq!(rt; site.sync(), Err(Failed));
    assert_eq!(rt; site.size(), Err(Failed));
    assert_eq!(rt; site.sync(), Err(Failed));
    assert_eq!(rt; site.disk_faults, 3);
}
