//! Devices of which one call fails.

use std::alloc::Allocator;
use std::cell::Cell;
use std::fs::{Metadata, OpenFile, OpenOptions};
use std::io;
use std::io::{ErrorKind, Read, Seek, SeekFrom, Write};
use std::rt::Files;

/// A device, or a file system with the files that it opens, of which one call fails that would else
/// succeed; those before it and after it are the device's own.
#[derive(Drop)]
pub struct FailsOnce<'a, D> {
    device: D,
    left: &'a Cell<u32>,
}

impl<'a, D> FailsOnce<'a, D> {
    /// The call with the number that `left` begins with fails, from 1 on; none for 0. It counts
    /// down with each call: an opening of a file or a look at it, and a read or a write, of an
    /// opened file too.
    pub fn new(device: D, left: &'a Cell<u32>) -> FailsOnce<'a, D> {
        FailsOnce { device, left }
    }

    fn call(&self) -> io::Result<()> {
        let left = self.left.get();
        self.left.set(left.saturating_sub(1));
        if left == 1 {
            return Err(io::Error::from(ErrorKind::TimedOut));
        }
        Ok(())
    }
}

impl<'a, D: Read> Read for FailsOnce<'a, D> {
    fn read(&mut self, buf: &mut [u8]) -> io::Result<usize> {
        self.call()?;
        self.device.read(buf)
    }
}

impl<'a, D: Write> Write for FailsOnce<'a, D> {
    fn write(&mut self, buf: &[u8]) -> io::Result<usize> {
        self.call()?;
        self.device.write(buf)
    }

    fn flush(&mut self) -> io::Result<()> {
        self.device.flush()
    }
}

impl<'a, D: Seek> Seek for FailsOnce<'a, D> {
    fn seek(&mut self, to: SeekFrom) -> io::Result<u64> {
        self.device.seek(to)
    }
}

impl<'a, D: OpenFile> OpenFile for FailsOnce<'a, D> {
    fn metadata(&self) -> io::Result<Metadata> {
        self.device.metadata()
    }

    fn set_len(&self, size: u64) -> io::Result<()> {
        self.device.set_len(size)
    }

    fn sync_all(&self) -> io::Result<()> {
        self.device.sync_all()
    }

    fn sync_data(&self) -> io::Result<()> {
        self.device.sync_data()
    }
}

impl<'a, D: Files> Files for FailsOnce<'a, D> {
    type File = FailsOnce<'a, D::File>;

    type Dir = D::Dir;

    fn open_file(&self, how: &OpenOptions, path: &str) -> io::Result<FailsOnce<'a, D::File>> {
        self.call()?;
        let file = self.device.open_file(how, path)?;
        Ok(FailsOnce::new(file, self.left))
    }

    fn open_dir(&self, path: &str) -> io::Result<D::Dir> {
        self.device.open_dir(path)
    }

    fn metadata(&self, path: &str) -> io::Result<Metadata> {
        self.call()?;
        self.device.metadata(path)
    }

    fn symlink_metadata(&self, path: &str) -> io::Result<Metadata> {
        self.device.symlink_metadata(path)
    }

    fn copy(&self, from: &str, to: &str) -> io::Result<u64> {
        self.device.copy(from, to)
    }

    fn rename(&self, from: &str, to: &str) -> io::Result<()> {
        self.device.rename(from, to)
    }

    fn remove_file(&self, path: &str) -> io::Result<()> {
        self.device.remove_file(path)
    }

    fn create_dir(&self, path: &str) -> io::Result<()> {
        self.device.create_dir(path)
    }

    fn remove_dir(&self, path: &str) -> io::Result<()> {
        self.device.remove_dir(path)
    }

    fn remove_dir_all<B: Allocator>(&self, alloc: B, path: &str) -> io::Result<()> {
        self.device.remove_dir_all(alloc, path)
    }
}
