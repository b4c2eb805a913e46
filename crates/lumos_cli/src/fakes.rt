// A system in memory: files, a reader and writers, of whose calls one goes wrong.
ghost use Rattle.std.specs.Prelude.{◌≤◌, IfOk};

use std::alloc::{Allocator, Global};
use std::cell::{Cell, RefCell};
use std::fs::{Files, Metadata, OpenFile, OpenOptions};
use std::io;
use std::io::{ErrorKind, Read, Seek, SeekFrom, Write};
use std::os::unix::fs::FileExt;

// How a call goes wrong: it fails, moves about half of what it could, or is interrupted.
#[derive(Clone, Copy, Debug, PartialEq, Eq, Drop)]
pub enum Wrong {
    Fails,
    IsShort,
    IsInterrupted,
}

#[derive(Clone, Copy, Debug, PartialEq, Eq, Drop)]
pub enum Part {
    Input,
    Disk,
    Out,
    Err,
}

// The calls of all parts are numbered from 1. The call `at` goes wrong, and its part is noted. The bytes that all calls
// moved are counted.
#[derive(Drop)]
pub struct Plan {
    pub at: u32,
    pub how: Wrong,
    pub calls: Cell<u32>,
    pub moved: Cell<usize>,
    pub hit: Cell<Option<Part>>,
}

impl Plan {
    pub fn new(at: u32, how: Wrong) -> Plan {
        Plan {
            at,
            how,
            calls: Cell::new(0),
            moved: Cell::new(0),
            hit: Cell::new(None),
        }
    }

    // How the next call goes wrong, if it does.
    fn turn(&self, part: Part) -> Option<Wrong> {
        let call = self.calls.get().saturating_add(1);
        self.calls.set(call);
        if call != self.at {
            return None;
        }
        self.hit.set(Some(part));
        Some(self.how)
    }

    // How many bytes of so many the next call moves.
    fn moves(&self, part: Part, most: usize) -> io::Result<usize>
        ensures { IfOk result (λ n. n ≤ most) }
    {
        let count = match self.turn(part) {
            None => most,
            Some(Wrong::IsShort) => most - most / 2,
            Some(Wrong::IsInterrupted) => return Err(io::Error::from(ErrorKind::Interrupted)),
            Some(Wrong::Fails) => return Err(io::Error::from(ErrorKind::Other)),
        };
        self.moved.set(self.moved.get().saturating_add(count));
        Ok(count)
    }

    // A call that moves nothing, and that the system itself makes again where it is interrupted.
    fn passes(&self, part: Part) -> io::Result<()> {
        match self.turn(part) {
            Some(Wrong::Fails) => Err(io::Error::from(ErrorKind::Other)),
            _ => Ok(()),
        }
    }
}

// A file of the disk.
#[derive(Drop)]
pub struct Entry {
    pub name: String,
    pub bytes: Vec<u8>,
}

// The files of a disk, of which those are there that were made.
#[derive(Drop)]
pub struct Disk {
    alloc: Global,
    entries: RefCell<Vec<Entry>>,
}

impl Disk {
    pub fn new(alloc: Global) -> Disk {
        Disk {
            alloc,
            entries: RefCell::new(Vec::new(alloc)),
        }
    }

    // The files in the order in which they were made.
    pub fn into_entries(self) -> Vec<Entry> {
        self.entries.into_inner()
    }
}

// The disk, as the calls of the plan reach it. Its directory is `.`.
#[derive(Clone, Copy, Drop)]
pub struct Mount<'a> {
    pub plan: &'a Plan,
    pub disk: &'a Disk,
}

// What isn't called, or can't be.
fn unsupported() -> io::Error {
    io::Error::from(ErrorKind::Unsupported)
}

fn place_of(entries: &[Entry], path: &str) -> Option<usize> {
    entries.iter().position(|entry| entry.name.as_str() == path)
}

impl<'a> Files for Mount<'a> {
    type File = DiskFile<'a>;

    type Dir = io::Empty;

    fn open_file(&self, how: &OpenOptions, path: &str) -> io::Result<DiskFile<'a>> {
        self.plan.passes(Part::Disk)?;
        let Ok(mut entries) = self.disk.entries.try_borrow_mut() else {
            return Err(unsupported());
        };
        let index = match place_of(&entries, path) {
            Some(index) => index,
            None => {
                if !how.asks_create() {
                    return Err(io::Error::from(ErrorKind::NotFound));
                }
                let name = String::from_str(self.disk.alloc, path)?;
                let bytes = Vec::new(self.disk.alloc);
                let index = entries.len();
                entries.push(Entry { name, bytes })?;
                index
            }
        };
        Ok(DiskFile {
            mount: *self,
            index,
        })
    }

    fn metadata(&self, path: &str) -> io::Result<Metadata> {
        self.plan.passes(Part::Disk)?;
        if path == "." {
            Ok(Metadata::of_dir())
        } else {
            Err(io::Error::from(ErrorKind::NotFound))
        }
    }

    fn open_dir(&self, _path: &str) -> io::Result<io::Empty> {
        Err(unsupported())
    }

    fn symlink_metadata(&self, _path: &str) -> io::Result<Metadata> {
        Err(unsupported())
    }

    fn copy(&self, _from: &str, _to: &str) -> io::Result<u64> {
        Err(unsupported())
    }

    fn rename(&self, _from: &str, _to: &str) -> io::Result<()> {
        Err(unsupported())
    }

    fn remove_file(&self, _path: &str) -> io::Result<()> {
        Err(unsupported())
    }

    fn create_dir(&self, _path: &str) -> io::Result<()> {
        Err(unsupported())
    }

    fn remove_dir(&self, _path: &str) -> io::Result<()> {
        Err(unsupported())
    }

    fn remove_dir_all<B: Allocator>(&self, _alloc: B, _path: &str) -> io::Result<()> {
        Err(unsupported())
    }
}

// An open file of the disk.
#[derive(Drop)]
pub struct DiskFile<'a> {
    mount: Mount<'a>,
    index: usize,
}

// Copies the bytes from a place on, as many as there are and have room.
fn copy_from(bytes: &[u8], place: u64, buf: &mut [u8]) {
    let rest = bytes.get(place as usize..).unwrap_or(&[]);
    let count = rest.len().min(buf.len());
    buf[..count].copy_from_slice(&rest[..count]);
}

// Puts bytes at a place, behind zeros where the others end before it.
fn put_at(bytes: &mut Vec<u8>, place: u64, piece: &[u8]) -> io::Result<()> {
    let start = place as usize;
    let Some(end) = start.checked_add(piece.len()) else {
        return Err(unsupported());
    };
    if bytes.len() < end {
        bytes.resize(end, 0)?;
    }
    bytes[start..end].copy_from_slice(piece);
    Ok(())
}

impl FileExt for DiskFile<'_> {
    fn read_at(&self, buf: &mut [u8], offset: u64) -> io::Result<usize> {
        let Ok(entries) = self.mount.disk.entries.try_borrow() else {
            return Err(unsupported());
        };
        let Some(entry) = entries.get(self.index) else {
            return Err(unsupported());
        };
        let left = (entry.bytes.len() as u64).saturating_sub(offset) as usize;
        let count = self.mount.plan.moves(Part::Disk, left.min(buf.len()))?;
        copy_from(&entry.bytes, offset, &mut buf[..count]);
        Ok(count)
    }

    fn write_at(&self, buf: &[u8], offset: u64) -> io::Result<usize> {
        let Ok(mut entries) = self.mount.disk.entries.try_borrow_mut() else {
            return Err(unsupported());
        };
        let Some(entry) = entries.get_mut(self.index) else {
            return Err(unsupported());
        };
        let count = self.mount.plan.moves(Part::Disk, buf.len())?;
        put_at(&mut entry.bytes, offset, &buf[..count])?;
        Ok(count)
    }
}

impl OpenFile for DiskFile<'_> {
    fn metadata(&self) -> io::Result<Metadata> {
        self.mount.plan.moves(Part::Disk, 0)?;
        let Ok(entries) = self.mount.disk.entries.try_borrow() else {
            return Err(unsupported());
        };
        match entries.get(self.index) {
            Some(entry) => Ok(Metadata::of_file(entry.bytes.len() as u64)),
            None => Err(unsupported()),
        }
    }

    fn set_len(&self, size: u64) -> io::Result<()> {
        self.mount.plan.passes(Part::Disk)?;
        let Ok(mut entries) = self.mount.disk.entries.try_borrow_mut() else {
            return Err(unsupported());
        };
        if let Some(entry) = entries.get_mut(self.index) {
            entry.bytes.resize(size as usize, 0)?;
        }
        Ok(())
    }

    fn sync_all(&self) -> io::Result<()> {
        Err(unsupported())
    }

    fn sync_data(&self) -> io::Result<()> {
        Err(unsupported())
    }
}

impl Read for DiskFile<'_> {
    fn read(&mut self, _buf: &mut [u8]) -> io::Result<usize> {
        Err(unsupported())
    }
}

impl Write for DiskFile<'_> {
    fn write(&mut self, _buf: &[u8]) -> io::Result<usize> {
        Err(unsupported())
    }

    fn flush(&mut self) -> io::Result<()> {
        Err(unsupported())
    }
}

impl Seek for DiskFile<'_> {
    fn seek(&mut self, _to: SeekFrom) -> io::Result<u64> {
        Err(unsupported())
    }
}

// A reader of bytes.
#[derive(Drop)]
pub struct Reader<'a> {
    pub plan: &'a Plan,
    pub bytes: &'a [u8],
}

impl Read for Reader<'_> {
    fn read(&mut self, buf: &mut [u8]) -> io::Result<usize> {
        let most = self.bytes.len().min(buf.len());
        let count = self.plan.moves(Part::Input, most)?;
        let (given, rest) = self.bytes.split_at(count);
        buf[..count].copy_from_slice(given);
        self.bytes = rest;
        Ok(count)
    }
}

// A writer into bytes.
#[derive(Drop)]
pub struct Writer<'a> {
    pub plan: &'a Plan,
    pub part: Part,
    pub bytes: &'a RefCell<Vec<u8>>,
}

impl Write for Writer<'_> {
    fn write(&mut self, buf: &[u8]) -> io::Result<usize> {
        let Ok(mut bytes) = self.bytes.try_borrow_mut() else {
            return Err(unsupported());
        };
        let count = self.plan.moves(self.part, buf.len())?;
        bytes.extend_from_slice(&buf[..count])?;
        Ok(count)
    }

    fn flush(&mut self) -> io::Result<()> {
        self.plan.moves(self.part, 0)?;
        Ok(())
    }
}
