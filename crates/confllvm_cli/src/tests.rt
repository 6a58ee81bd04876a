//! Files written and read back, and streams that fail.

use crate::files::FileStore;
use crate::pieces::read_all;
use crate::streams::Stream;
use cv_io::{Sink, SinkError, Store, StoreError};
use std::test::Fail;
use std::{fs, io};

#[test]
fn files_come_back(rt: HostRuntime) -> Result<(), Fail> {
    let mut store = FileStore::new(rt);
    let name = "confllvm_cli_files_come_back";
    let long = vec![in rt.alloc(); 7u8; 100_000]?;
    let cases: [&[u8]; 3] = [&[1, 2, 3], long.as_slice(), &[]];
    for bytes in cases {
        store.save(name, bytes)?;
        assert_eq!(rt; store.load(rt.alloc(), name)?.as_slice(), bytes);
    }
    fs::remove_file(&rt, name)?;
    let missing = store.load(rt.alloc(), name).err();
    assert_eq!(rt; missing, Some(StoreError::Failed));
    assert_eq!(rt; store.save("", &[1]).err(), Some(StoreError::Failed));
    Ok(())
}

/// Takes so many bytes, at most 2 at a time, and then none.
#[derive(Drop)]
struct Narrow {
    room: usize,
}

impl io::Write for Narrow {
    fn write(&mut self, buf: &[u8]) -> io::Result<usize> {
        let count = buf.len().min(2).min(self.room);
        self.room -= count;
        Ok(count)
    }

    fn flush(&mut self) -> io::Result<()> {
        Ok(())
    }
}

#[test]
fn a_write_that_takes_nothing_fails(rt: HostRuntime) -> Result<(), Fail> {
    let mut stream = Stream::new(Narrow { room: 5 });
    assert_eq!(rt; stream.put(b"abc"), Ok(()));
    assert_eq!(rt; stream.put(b""), Ok(()));
    assert_eq!(rt; stream.put(b"def"), Err(SinkError::Failed));
    Ok(())
}

/// Gives so many bytes, one at a time, and then fails.
#[derive(Drop)]
struct Broken {
    left: usize,
}

impl io::Read for Broken {
    fn read(&mut self, buf: &mut [u8]) -> io::Result<usize> {
        if self.left == 0 {
            return Err(io::ErrorKind::BrokenPipe.into());
        }
        if buf.is_empty() {
            return Ok(0);
        }
        self.left -= 1;
        buf[0] = 7;
        Ok(1)
    }
}

#[test]
fn a_read_that_fails_behind_some_bytes_fails(rt: HostRuntime) -> Result<(), Fail> {
    for left in 0..4 {
        let read = read_all(rt.alloc(), Broken { left }, 8).err();
        assert_eq!(rt; read, Some(StoreError::Failed));
    }
    Ok(())
}
