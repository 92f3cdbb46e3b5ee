//! Readers and writers that fail, accept few bytes or are interrupted.
use crate::assertions::{assert_same, assert_that};
use mm_value::{Watched, put_all};
use std::alloc::Global;
use std::io;
use std::io::{Read, Write};
use std::process::Abort;
use std::test::Fail;

// Accepts up to 3 bytes per call and 4 in all, and then fails, or accepts 0 bytes if `silent`.
#[derive(Drop)]
struct Narrow {
    taken: Vec<u8>,
    is_silent: bool,
}

impl Write for Narrow {
    fn write(&mut self, buf: &[u8]) -> io::Result<usize> {
        let most = buf
            .len()
            .min(3)
            .min(4usize.saturating_sub(self.taken.len()));
        if most == 0 && !self.is_silent {
            return Err(io::Error::from(io::ErrorKind::BrokenPipe));
        }
        self.taken.extend_from_slice(&buf[..most])?;
        Ok(most)
    }

    fn flush(&mut self) -> io::Result<()> {
        Err(io::Error::from(io::ErrorKind::BrokenPipe))
    }
}

fn narrow_device(alloc: Global, is_silent: bool) -> Narrow {
    Narrow {
        taken: Vec::new(alloc),
        is_silent,
    }
}

/// Asserts that a failing device accepted a prefix of the bytes passed to it.
fn assert_takes_a_front(rt: &impl Abort, device: &mut Narrow) {
    let mut writer = Watched::new(device);
    assert_that(rt, put_all(&mut writer, b"abcdefgh").is_err());
    assert_that(rt, writer.failed());
}

#[test]
fn a_fault_leaves_a_front(rt: HostRuntime) {
    for is_silent in [false, true] {
        let mut device = narrow_device(rt.alloc(), is_silent);
        assert_takes_a_front(&rt, &mut device);
        assert_same(&rt, device.taken.as_slice(), b"abcd".as_slice());
    }
}

#[test]
fn the_last_call_counts(rt: HostRuntime) {
    let mut writer = Watched::new(narrow_device(rt.alloc(), true));
    assert_that(&rt, put_all(&mut writer, b"abcd").is_ok());
    assert_that(&rt, !writer.failed());
    assert_that(&rt, writer.flush().is_err());
    assert_that(&rt, writer.failed());
    assert_that(&rt, writer.write(b"").is_ok());
    assert_that(&rt, !writer.failed());
    assert_that(&rt, writer.write(b"e").is_ok());
    assert_that(&rt, writer.failed());
}

#[test]
fn readers_are_watched(rt: HostRuntime) -> Result<(), Fail> {
    let mut reader = Watched::new(b"ab".as_slice());
    let mut buf = [0u8; 4];
    assert_same(&rt, reader.read(&mut buf)?, 2);
    assert_same(&rt, buf, [b'a', b'b', 0, 0]);
    assert_that(&rt, !reader.failed());
    Ok(())
}

// Accepts two bytes per call, after `times` interruptions in a row.
#[derive(Drop)]
struct Hesitant {
    taken: Vec<u8>,
    times: u32,
    so_far: u32,
}

impl Write for Hesitant {
    fn write(&mut self, buf: &[u8]) -> io::Result<usize> {
        if self.so_far < self.times {
            self.so_far += 1;
            return Err(io::Error::from(io::ErrorKind::Interrupted));
        }
        self.so_far = 0;
        let most = buf.len().min(2);
        self.taken.extend_from_slice(&buf[..most])?;
        Ok(most)
    }

    fn flush(&mut self) -> io::Result<()> {
        Ok(())
    }
}

fn hesitant_device(alloc: Global, times: u32) -> Hesitant {
    Hesitant {
        taken: Vec::new(alloc),
        times,
        so_far: 0,
    }
}

/// Asserts that eight bytes are written to a device unless it is interrupted 17 times.
fn assert_put(rt: &impl Abort, device: &mut Hesitant, times: u32) {
    let mut writer = Watched::new(device);
    let put = put_all(&mut writer, b"abcdefgh");
    assert_same(rt, put.is_err(), times == 17);
    assert_same(rt, writer.failed(), times == 17);
}

#[test]
fn interrupted_writes_are_made_again(rt: HostRuntime) {
    for (times, taken) in [(16, b"abcdefgh".as_slice()), (17, b"")] {
        let mut device = hesitant_device(rt.alloc(), times);
        assert_put(&rt, &mut device, times);
        assert_same(&rt, device.taken.as_slice(), taken);
    }
}
