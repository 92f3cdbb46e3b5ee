//! Bytes of the input that were read and not yet processed.
ghost use Rattle.std.specs.Prelude.{◌≡◌, ◌-◌, ◌<◌, ◌≤◌, [], length, take, drop, false, true, IfOk, OnOk, OnErr};
ghost use Rattle.std.specs.Io.KnownBytes.{Keeps};
ghost use Rattle.mm_value.specs.Watched.{inner_of, has_failed};
ghost use Rattle.mmdb_core.specs.steps.Taken.{Takes};

use arrayvec::ArrayVec;
use mm_value::Watched;
use std::io;
use std::io::Read;
use std::marker::Model;

/// The capacity of a window, in bytes.
const WINDOW_BYTES: usize = 16384;

/// The most bytes per read. The window always has capacity for them.
const CHUNK_BYTES: usize = 4096;

/// Bytes that were read and not yet processed, in a vector of fixed capacity.
#[derive(Drop)]
pub(crate) struct Window {
    taken: ArrayVec<u8, WINDOW_BYTES>,
    // The number of bytes at the front that were processed.
    start: usize,
    // The buffer of the reader.
    chunk: [u8; CHUNK_BYTES],
}

impl Model for Window {
    ghost use Rattle.std.specs.Prelude.{drop, length, ◌-◌, ◌≤◌};
    ghost use Rattle.mmdb_core.specs.steps.Window.{Held};

    ghost Value = { Held };

    ghost view = { λ w. record { bytes = drop w.start w.taken.items; room = 16384 - length w.taken.items } };

    ghost invariant = { λ w. (w.start ≤ length w.taken.items) × (length w.taken.items ≤ 16384) };
}

impl Window {
    /// Returns an empty window.
    pub(crate) fn new() -> Window
        ensures { result.bytes ≡ [] }
    {
        Window {
            taken: ArrayVec::new(),
            start: 0,
            chunk: [0; CHUNK_BYTES],
        }
    }

    /// Returns the bytes that were read and not dropped since, in order.
    pub(crate) fn as_slice(&self) -> &[u8]
        ensures { result.now ≡ self.now.bytes }
    {
        &self.taken.as_slice()[self.start..]
    }

    /// Drops the first n bytes.
    pub(crate) fn skip(&mut self, n: usize)
        requires { n ≤ length self.old.bytes }
        ensures { self.new.bytes ≡ drop n self.old.bytes }
    {
        self.start += n;
    }

    /// Drops the last byte.
    pub(crate) fn drop_last(&mut self)
        requires { 0 < length self.old.bytes }
        ensures { self.new.bytes ≡ take (length self.old.bytes - 1) self.old.bytes }
    {
        self.taken.truncate(self.taken.len() - 1);
    }

    /// Reads at most `most` more bytes. Returns 0 only at the end of the input.
    pub(crate) fn fill<R: Read>(
        &mut self,
        reader: &mut Watched<R>,
        most: usize,
    ) -> io::Result<usize>
        requires short { length self.old.bytes < 8192 }
        requires some { 0 < most }
        ensures ok { IfOk result (λ n. Takes R.remaining reader.old reader.new self.old.bytes self.new.bytes n) }
        ensures most { IfOk result (λ n. n ≤ most) }
        ensures unfailed { OnOk result (has_failed reader.new ≡ false) }
        ensures err { OnErr result (self.new.bytes ≡ self.old.bytes) }
        ensures kept { OnErr result (Keeps (R.remaining (inner_of reader.old)) (R.remaining (inner_of reader.new))) }
        ensures failed { OnErr result (has_failed reader.new ≡ true) }
    {
        self.make_room();
        self.take_chunk(reader, most)
    }

    /// Moves the bytes to the front if less than a chunk fits after them.
    fn make_room(&mut self)
        requires { length self.old.bytes < 8192 }
        ensures same { self.new.bytes ≡ self.old.bytes }
        ensures room { 4096 ≤ self.new.room }
    {
        if WINDOW_BYTES - self.taken.len() < CHUNK_BYTES {
            self.taken.drain(..self.start);
            self.start = 0;
        }
    }

    /// Reads at most `most` bytes, and at most a chunk.
    fn take_chunk<R: Read>(&mut self, reader: &mut Watched<R>, most: usize) -> io::Result<usize>
        requires room { 4096 ≤ self.old.room }
        requires some { 0 < most }
        ensures ok { IfOk result (λ n. Takes R.remaining reader.old reader.new self.old.bytes self.new.bytes n) }
        ensures most { IfOk result (λ n. n ≤ most) }
        ensures unfailed { OnOk result (has_failed reader.new ≡ false) }
        ensures err { OnErr result (self.new.bytes ≡ self.old.bytes) }
        ensures kept { OnErr result (Keeps (R.remaining (inner_of reader.old)) (R.remaining (inner_of reader.new))) }
        ensures failed { OnErr result (has_failed reader.new ≡ true) }
    {
        let n = reader.read(&mut self.chunk[..most.min(CHUNK_BYTES)])?;
        self.taken.try_extend_from_slice(&self.chunk[..n]).unwrap();
        Ok(n)
    }
}
