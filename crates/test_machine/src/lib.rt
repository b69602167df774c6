//! A machine in memory: its words, files and standard input, and writers that may fail. Tests run
//! the program on it.
#![tactic(auto)]

mod expected;

pub use expected::Expected;
use std::alloc::{Allocator, Global};
use std::cell::Cell;
use std::convert::AsSlice;
use std::env::FillError;
use std::fs::{Metadata, OpenFile, OpenOptions};
use std::io;
use std::io::{BufRead, ErrorKind, Lines, Read, Seek, SeekFrom, Write};
use std::rt::{Env, Files};

/// What a program is started with.
#[derive(Drop)]
pub struct Machine<'a, W> {
    pub alloc: Global,
    /// The words of the command line, the first of which names the program.
    pub words: &'a [W],
    /// The files that can be opened, by their names.
    pub files: &'a [(&'a str, &'a [u8])],
    /// The names that can be opened, though every read behind them fails.
    pub folders: &'a [&'a str],
    pub standard_input: Given<'a>,
    /// The most bytes that one read of a file gives.
    pub most: usize,
}

/// The bytes that a reader gives.
#[derive(Clone, Copy, Drop)]
pub struct Given<'a> {
    /// How many NUL bytes come first.
    pub nuls: usize,
    /// The bytes that come then.
    pub rest: &'a [u8],
    /// The most bytes that one read gives.
    pub most: usize,
    /// Whether reading fails where the bytes end.
    pub fails: bool,
    /// The bytes that come behind an error, if one read alone fails.
    pub behind: Option<&'a [u8]>,
    /// Which error it is.
    pub error: ErrorKind,
    /// Counts the reads.
    pub reads: Option<&'a Cell<u32>>,
}

impl<'a> Given<'a> {
    /// These bytes, as many at a time as are asked for.
    pub fn new(bytes: &'a [u8]) -> Self {
        Given {
            nuls: 0,
            rest: bytes,
            most: usize::MAX,
            fails: false,
            behind: None,
            error: ErrorKind::Unsupported,
            reads: None,
        }
    }

    /// These bytes, and then an error at every read.
    pub fn failing(bytes: &'a [u8]) -> Self {
        Given {
            fails: true,
            ..Given::new(bytes)
        }
    }

    /// These bytes, an error, and then others.
    pub fn failing_once(bytes: &'a [u8], error: ErrorKind, behind: &'a [u8]) -> Self {
        Given {
            behind: Some(behind),
            error,
            ..Given::new(bytes)
        }
    }
}

impl Read for Given<'_> {
    fn read(&mut self, buf: &mut [u8]) -> io::Result<usize> {
        if let Some(reads) = self.reads {
            reads.set(reads.get().saturating_add(1));
        }
        if self.nuls > 0 {
            let count = buf.len().min(self.nuls);
            buf[..count].fill(0);
            self.nuls -= count;
            return Ok(count);
        }
        if self.rest.is_empty() {
            if let Some(behind) = self.behind {
                self.rest = behind;
                self.behind = None;
                return Err(io::Error::from(self.error));
            }
            if self.fails {
                return Err(io::Error::from(self.error));
            }
        }
        let count = buf.len().min(self.most).min(self.rest.len());
        buf[..count].copy_from_slice(&self.rest[..count]);
        self.rest = &self.rest[count..];
        Ok(count)
    }
}

fn unsupported() -> io::Error {
    io::Error::from(ErrorKind::Unsupported)
}

impl BufRead for Given<'_> {
    fn fill_buf(&mut self) -> io::Result<&[u8]> {
        Ok(self.rest)
    }

    fn consume(&mut self, amount: usize) {
        let count = amount.min(self.rest.len());
        self.rest = &self.rest[count..];
    }
}

impl Write for Given<'_> {
    fn write(&mut self, _buf: &[u8]) -> io::Result<usize> {
        Err(unsupported())
    }

    fn flush(&mut self) -> io::Result<()> {
        Err(unsupported())
    }
}

impl Seek for Given<'_> {
    fn seek(&mut self, _to: SeekFrom) -> io::Result<u64> {
        Err(unsupported())
    }
}

impl OpenFile for Given<'_> {
    fn metadata(&self) -> io::Result<Metadata> {
        Err(unsupported())
    }

    fn set_len(&self, _size: u64) -> io::Result<()> {
        Err(unsupported())
    }

    fn sync_all(&self) -> io::Result<()> {
        Err(unsupported())
    }

    fn sync_data(&self) -> io::Result<()> {
        Err(unsupported())
    }
}

impl<W> Alloc for Machine<'_, W> {
    type A = Global;

    fn alloc(&self) -> Global {
        self.alloc
    }
}

impl<W: AsSlice<u8>> Env for Machine<'_, W> {
    fn arg(&self, i: usize, buf: &mut [u8]) -> Result<usize, FillError> {
        let Some(word) = self.words.get(i) else {
            return Err(FillError::NotPresent);
        };
        let word = word.as_slice();
        if buf.len() < word.len() {
            return Err(FillError::TooLong);
        }
        buf[..word.len()].copy_from_slice(word);
        Ok(word.len())
    }

    fn var(&self, _name: &str, _buf: &mut [u8]) -> Result<usize, FillError> {
        Err(FillError::NotPresent)
    }

    fn var_at(&self, _i: usize, _buf: &mut [u8]) -> Result<usize, FillError> {
        Err(FillError::NotPresent)
    }
}

impl<'a, W> Input for Machine<'a, W> {
    type Reader = Given<'a>;

    fn read_line<A: Allocator + Clone>(&self, buf: &mut String<A>) -> io::Result<usize> {
        self.reader().read_line(buf)
    }

    fn lines<A: Allocator>(&self, alloc: A) -> Lines<Given<'a>, A> {
        self.reader().lines(alloc)
    }

    fn reader(&self) -> Given<'a> {
        self.standard_input
    }
}

impl<'a, W> Files for Machine<'a, W> {
    type File = Given<'a>;

    type Dir = Given<'a>;

    fn open_file(&self, _how: &OpenOptions, path: &str) -> io::Result<Given<'a>> {
        if self.folders.iter().any(|name| *name == path) {
            return Ok(Given::failing(&[]));
        }
        match self.files.iter().find(|file| file.0 == path) {
            Some(file) => Ok(Given {
                most: self.most,
                ..Given::new(file.1)
            }),
            None => Err(io::Error::from(ErrorKind::NotFound)),
        }
    }

    fn open_dir(&self, _path: &str) -> io::Result<Given<'a>> {
        Err(unsupported())
    }

    fn metadata(&self, _path: &str) -> io::Result<Metadata> {
        Err(unsupported())
    }

    fn symlink_metadata(&self, _path: &str) -> io::Result<Metadata> {
        Err(unsupported())
    }

    fn copy(&self, _from: &str, _to: &str) -> io::Result<u64> {
        Err(unsupported())
    }

    fn rename(&self, _from: &str, _to: &str) -> io::Result<()> {
        Err(unsupported())
    }

    fn remove_file(&self, _path: &str) -> io::Result<()> {
        Err(unsupported())
    }

    fn create_dir(&self, _path: &str) -> io::Result<()> {
        Err(unsupported())
    }

    fn remove_dir(&self, _path: &str) -> io::Result<()> {
        Err(unsupported())
    }

    fn remove_dir_all<B: Allocator>(&self, _alloc: B, _path: &str) -> io::Result<()> {
        Err(unsupported())
    }
}

/// A writer that keeps what it is given.
#[derive(Drop)]
pub struct Paper {
    pub kept: Vec<u8>,
    /// How many bytes it takes in all. Behind them every write fails.
    pub room: usize,
    /// The most bytes that one write takes.
    pub most: usize,
    /// Behind how many bytes one write fails, and later ones don't.
    pub fails_once_at: Option<usize>,
    /// Which error that is.
    pub error: ErrorKind,
    /// Whether a flush fails.
    pub flush_fails: bool,
}

impl Paper {
    /// A writer that takes all that it is given.
    pub fn new(alloc: Global) -> Self {
        Paper {
            kept: Vec::new(alloc),
            room: usize::MAX,
            most: usize::MAX,
            fails_once_at: None,
            error: ErrorKind::StorageFull,
            flush_fails: false,
        }
    }
}

impl Write for Paper {
    fn write(&mut self, buf: &[u8]) -> io::Result<usize> {
        let end = match self.fails_once_at {
            Some(end) => end.min(self.room),
            None => self.room,
        };
        let count = buf
            .len()
            .min(self.most)
            .min(end.saturating_sub(self.kept.len()));
        if count == 0 && !buf.is_empty() {
            self.fails_once_at = None;
            return Err(io::Error::from(self.error));
        }
        self.kept.extend_from_slice(&buf[..count])?;
        Ok(count)
    }

    fn flush(&mut self) -> io::Result<()> {
        if self.flush_fails {
            return Err(io::Error::from(self.error));
        }
        Ok(())
    }
}
