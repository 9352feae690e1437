//! The calls of the system on one file, which may be missing: each once, and again where a signal broke it off.

ghost use Rattle.std.specs.Prelude.{◌<◌, ◌≤◌, ◌^◌, IfSome, length};
ghost use Rattle.lnbd_store.specs.Answers.{part_len};

use lnbd_store::StorePart;
use std::fs::{File, Files, OpenFile, OpenOptions};
use std::io::ErrorKind;
use std::os::fd::AsRawFd;
use std::os::unix::fs::{FileExt, MetadataExt};

/// What lseek of Linux looks for, from its offset on: the next data, and the next hole.
const SEEK_DATA: i32 = 3;

const SEEK_HOLE: i32 = 4;

/// The error that it leaves where the file has no more data.
const ENXIO: i32 = 6;

/// What is told where nothing is known: all may be bytes.
const UNKNOWN: StorePart = StorePart::Bytes(u64::MAX);

/// The file at a path. For writing, a missing one is made, and one that is there keeps its bytes. What is there and is no regular file is
/// not opened: a pipe would wait for its other end.
pub(crate) fn open<R: Files<File = File>>(files: &R, path: &str, write: bool) -> Option<File> {
    if matches!(files.metadata(path), Ok(told) if !told.is_file()) {
        return None;
    }
    let mut options = OpenOptions::new();
    if write {
        options.write(true).create(true);
    } else {
        options.read(true);
    }
    options.open(files, path).ok()
}

/// Whether both are one file of the system, whatever its names. Where that can't be told it counts as so.
pub(crate) fn is_same(one: &File, other: &File) -> bool {
    match (one.metadata(), other.metadata()) {
        (Ok(one), Ok(other)) => one.dev() == other.dev() && one.ino() == other.ino(),
        _ => true,
    }
}

/// How many bytes the file has, below 2^63 as the system's own offsets. A folder, a pipe or a device has no such length.
pub(crate) fn length_of(file: Option<&File>) -> Option<u64>
    ensures { IfSome result (λ n. n < 2 ^ 63) }
{
    match file?.metadata() {
        Ok(told) if told.is_file() && told.len() <= i64::MAX as u64 => Some(told.len()),
        _ => None,
    }
}

/// How many bytes were read.
pub(crate) fn read(file: Option<&File>, offset: u64, into: &mut [u8]) -> Option<usize>
    ensures { IfSome result (λ n. n ≤ length into.old) }
{
    let file = file?;
    for _ in 0..u64::MAX {
        match file.read_at(into, offset) {
            Ok(n) => return Some(n),
            Err(error) if error.kind() == ErrorKind::Interrupted => {}
            Err(_) => return None,
        }
    }
    None
}

/// How many bytes were taken.
pub(crate) fn write(file: Option<&File>, offset: u64, from: &[u8]) -> Option<usize>
    ensures { IfSome result (λ n. n ≤ length from.now) }
{
    let file = file?;
    for _ in 0..u64::MAX {
        match file.write_at(from, offset) {
            Ok(n) => return Some(n),
            Err(error) if error.kind() == ErrorKind::Interrupted => {}
            Err(_) => return None,
        }
    }
    None
}

/// Whether the file has so many bytes now.
pub(crate) fn cut(file: Option<&File>, length: u64) -> Option<()> {
    file?.set_len(length).ok()
}

/// Whether the file has reached the medium.
pub(crate) fn sync(file: Option<&File>) -> Option<()> {
    file?.sync_all().ok()
}

/// Where the system finds the next data or the next hole, at the offset or behind it. The descriptor's own position moves with it, which no
/// call here reads from or writes at.
fn seek(file: &File, offset: i64, whence: i32) -> Option<u64> {
    u64::try_from(libc::lseek(file.as_raw_fd(), offset, whence)).ok()
}

/// What lies in the file from the offset on: a hole is zeros. Bytes where its file system knows of no holes, or where nothing is told; and also
/// where the file ends at or before the offset: then a read tells so.
pub(crate) fn part(file: Option<&File>, offset: u64) -> StorePart
    ensures { 0 < part_len result }
{
    let (Some(file), Ok(place)) = (file, i64::try_from(offset)) else {
        return UNKNOWN;
    };
    match seek(file, place, SEEK_DATA) {
        Some(data) if data > offset => StorePart::Zeros(data - offset),
        Some(_) => match seek(file, place, SEEK_HOLE) {
            Some(hole) if hole > offset => StorePart::Bytes(hole - offset),
            _ => UNKNOWN,
        },
        None if os::errno() == ENXIO => match seek(file, 0, libc::SEEK_END) {
            Some(end) if end > offset => StorePart::Zeros(end - offset),
            _ => UNKNOWN,
        },
        None => UNKNOWN,
    }
}
