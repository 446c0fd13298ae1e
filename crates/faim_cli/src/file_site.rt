// A file and a writer as a site. It tells nothing: what a file holds is the system's to say.
ghost use Rattle.std.specs.Prelude.{◌≡◌, ◌<◌, None, IsNone, IsErr, OnOk, OnErr};
ghost use Rattle.std.specs.Io.{ReadsAtMost};
ghost use Rattle.std.specs.Io.KnownBytes.{Appends};
ghost use Rattle.site_core.specs.Counts.{HasCause};

use crate::faults::counted;
use faim_base::Failed;
use site_core::Site;
use std::fs::{self, File, OpenFile, OpenOptions};
use std::io::{self, ErrorKind, Write};
use std::os::fd::AsRawFd;
use std::os::unix::fs::FileExt;

/// A file as the disk, and a writer as the line. Where there is no file, each disk call fails.
#[derive(Drop)]
pub struct FileSite<F: FileExt + OpenFile + Drop, W: Write> {
    pub(crate) file: Option<F>,
    pub(crate) line: W,
    pub(crate) disk_faults: u64,
    pub(crate) line_faults: u64,
}

impl<F: FileExt + OpenFile + Drop, W: Write> FileSite<F, W> {
    /// The site of an open file, as `open_file` gives it, and of what takes the frames. No call has failed.
    pub fn new(file: Option<F>, line: W) -> FileSite<F, W>
        ensures { result ≡ record { file = file; line = line; disk_faults = 0; line_faults = 0 } }
    {
        FileSite {
            file,
            line,
            disk_faults: 0,
            line_faults: 0,
        }
    }
}

impl<F: FileExt + OpenFile + Drop, W: Write> Site for FileSite<F, W> {
    ghost told = { λ _. None };

    ghost disk_faults = { λ s. s.disk_faults };

    ghost line_faults = { λ s. s.line_faults };

    fn size(&mut self) -> Result<u64, Failed>
        ensures cause { HasCause self.old.disk_faults self.new.disk_faults result }
        ensures others { self.new ≡ record self.old { disk_faults = self.new.disk_faults } }
        ensures gone { IsNone self.old.file → IsErr result }
    {
        let answer = size_of(&self.file);
        counted(&mut self.disk_faults, answer)
    }

    fn read_at(&mut self, at: u64, buf: &mut [u8]) -> Result<usize, Failed>
        ensures bound { ReadsAtMost result buf.new }
        ensures cause { HasCause self.old.disk_faults self.new.disk_faults result }
        ensures others { self.new ≡ record self.old { disk_faults = self.new.disk_faults } }
        ensures gone { IsNone self.old.file → IsErr result }
    {
        let answer = read_from(&self.file, at, buf);
        counted(&mut self.disk_faults, answer)
    }

    fn write_at(&mut self, at: u64, bytes: &[u8]) -> Result<(), Failed>
        ensures cause { HasCause self.old.disk_faults self.new.disk_faults result }
        ensures others { self.new ≡ record self.old { disk_faults = self.new.disk_faults } }
        ensures gone { IsNone self.old.file → IsErr result }
    {
        let answer = write_to(&self.file, at, bytes);
        counted(&mut self.disk_faults, answer)
    }

    fn sync(&mut self) -> Result<(), Failed>
        ensures cause { HasCause self.old.disk_faults self.new.disk_faults result }
        ensures others { self.new ≡ record self.old { file = self.new.file; disk_faults = self.new.disk_faults } }
        ensures gone { IsNone self.old.file → IsErr result }
        ensures kept { OnOk result (self.new.file ≡ self.old.file) }
        ensures closed { OnErr result (IsNone self.new.file) }
    {
        let answer = sync_or_close(&mut self.file);
        counted(&mut self.disk_faults, answer)
    }

    fn send(&mut self, frame: &[u8]) -> Result<(), Failed>
        ensures cause { HasCause self.old.line_faults self.new.line_faults result }
        ensures others { self.new ≡ record self.old { line = self.new.line; line_faults = self.new.line_faults } }
        ensures cut { 0 < self.old.line_faults → IsErr result × (self.new.line ≡ self.old.line) }
        ensures bytes { OnOk result (Appends (W.contents self.old.line) (W.contents self.new.line) frame.now) }
    {
        let answer = put_out(&mut self.line, self.line_faults, frame);
        counted(&mut self.line_faults, answer)
    }
}

fn size_of<F: OpenFile>(file: &Option<F>) -> Result<u64, Failed>
    ensures gone { IsNone file.now → IsErr result }
{
    match file {
        Some(file) => file.metadata().map(|data| data.len()).map_err(|_| Failed),
        None => Err(Failed),
    }
}

fn read_from<F: FileExt>(file: &Option<F>, at: u64, buf: &mut [u8]) -> Result<usize, Failed>
    ensures gone { IsNone file.now → IsErr result }
    ensures bound { ReadsAtMost result buf.new }
{
    match file {
        Some(file) => read_on(file, at, buf),
        None => Err(Failed),
    }
}

// Reads until the buffer is full or the file ends. One read of the system may give less than there is.
fn read_on<F: FileExt>(file: &F, at: u64, buf: &mut [u8]) -> Result<usize, Failed>
    ensures bound { ReadsAtMost result buf.new }
{
    let mut count = 0;
    for _ in 0..u64::MAX {
        if count == buf.len() {
            return Ok(count);
        }
        match file.read_at(&mut buf[count..], at.saturating_add(count as u64)) {
            Ok(0) => return Ok(count),
            Ok(more) => count += more,
            Err(error) if error.kind() == ErrorKind::Interrupted => {}
            Err(_) => return Err(Failed),
        }
    }
    Err(Failed)
}

fn write_to<F: FileExt>(file: &Option<F>, at: u64, bytes: &[u8]) -> Result<(), Failed>
    ensures gone { IsNone file.now → IsErr result }
{
    match file {
        Some(file) => file.write_all_at(bytes, at).map_err(|_| Failed),
        None => Err(Failed),
    }
}

// After a sync that failed the system may answer the next one with success although bytes were lost, so the file is
// closed, and each later call fails too.
fn sync_or_close<F: OpenFile + Drop>(file: &mut Option<F>) -> Result<(), Failed>
    ensures gone { IsNone file.old → IsErr result }
    ensures kept { OnOk result (file.new ≡ file.old) }
    ensures closed { OnErr result (IsNone file.new) }
{
    let synced = match file {
        Some(file) => file.sync_data().is_ok(),
        None => false,
    };
    if synced {
        return Ok(());
    }
    *file = None;
    Err(Failed)
}

// Writes a frame and flushes it. After a send that failed a part of its frame may be out, so nothing follows it.
fn put_out<W: Write>(line: &mut W, faults: u64, frame: &[u8]) -> Result<(), Failed>
    ensures cut { 0 < faults → IsErr result × (line.new ≡ line.old) }
    ensures bytes { OnOk result (Appends (W.contents line.old) (W.contents line.new) frame.now) }
{
    if faults > 0 {
        return Err(Failed);
    }
    match line.write_all(frame) {
        Ok(()) => line.flush().map_err(|_| Failed),
        Err(_) => Err(Failed),
    }
}

/// The file at a path, open for reading and writing; where nothing is there, an empty file is made. None where that
/// can't be done, as at a folder.
pub fn open_file(rt: &HostRuntime, path: &str) -> Option<File> {
    let opened = OpenOptions::new()
        .read(true)
        .write(true)
        .create(true)
        .open(rt, path)
        .ok()?;
    let file = beside_streams(opened)?;
    // A file without bytes may be a new one.
    if file.metadata().ok()?.len() == 0 {
        keep_name(rt, path).ok()?;
    }
    Some(file)
}

// The file under a number that belongs to no standard stream: where one of these is closed, the file gets its number,
// and what goes over the stream would go into the file.
fn beside_streams(file: File) -> Option<File> {
    if file.as_raw_fd() > 2 {
        Some(file)
    } else {
        file.try_clone().ok()
    }
}

// Makes the name of a file stable, which stands in its folder.
fn keep_name(rt: &HostRuntime, path: &str) -> io::Result<()> {
    let mut folder = fs::canonicalize(rt, path)?;
    folder.pop();
    File::open(rt, folder.as_str())?.sync_all()
}
