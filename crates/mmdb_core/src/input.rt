//! The input, line by line.
ghost use Rattle.std.specs.Prelude.{◌≡◌, ◌+◌, ◌^◌, ◌<◌, ◌≤◌, [], drop, length, true, false, IfOk, OnOk, IfErr, OnErr, MatchOption};
ghost use Rattle.mm_lang.specs.Lines.{HasNoFeed};
ghost use Rattle.mmdb_core.specs.steps.Input.{fills_to_come, Advances, Comes, Finds, IsFault, StopsInLine};
ghost use Rattle.mmdb_core.specs.steps.Feeds.{EndsLine, EndsWith, LooksLike};

use crate::limits::Limits;
use crate::run_error::RunError;
use crate::window::Window;
use bstr::ByteSlice;
use mm_lang::MAX_LINE_BYTES;
use mm_value::Watched;
use std::io::Read;

/// The input of a run: the bytes that were read and not yet processed, and the number of bytes that may still be read.
#[derive(Drop)]
pub(crate) struct Input {
    window: Window,
    // One more than the limit leaves. If that last byte is read, the input is too long, and the byte is dropped.
    still: u64,
    // The reader returned no more bytes, and is not read again.
    is_ended: bool,
}

/// The next item of an input.
#[derive(Clone, Copy, Debug)]
pub(crate) enum Next {
    /// A line of `len` bytes at the front of the window. The next line begins after `step` bytes.
    Line { len: usize, step: usize },
    /// A line that was too long, and was dropped.
    Long,
    /// The end of the input.
    End,
}

/// Returns the length of the first line of some bytes, without its line feed, or `None` if there is no line feed.
fn line_end(bytes: &[u8]) -> Option<usize>
    ensures { MatchOption result (HasNoFeed bytes.now) (EndsLine bytes.now) }
{
    bytes.find_byte(b'\n')
}

/// Returns what the bytes of a window begin with, a whole line or a line that is too long, or `None` if the bytes alone do not determine
/// it.
fn look(bytes: &[u8]) -> Option<Next>
    ensures { LooksLike bytes.now result }
{
    if let Some(len) = line_end(bytes) {
        return Some(Next::Line { len, step: len + 1 });
    }
    if bytes.len() > MAX_LINE_BYTES + 1 {
        return Some(Next::Long);
    }
    None
}

impl Input {
    /// Returns an input from which nothing was read.
    pub(crate) fn new(limits: Limits) -> Input
        ensures window { result.window.bytes ≡ [] }
        ensures still { result.still ≡ limits + 1 }
        ensures bound { result.still ≤ 2 ^ 40 + 1 }
        ensures going { result.is_ended ≡ false }
    {
        Input {
            window: Window::new(),
            still: limits.max_input() + 1,
            is_ended: false,
        }
    }

    /// Returns the bytes that were read and not yet processed.
    pub(crate) fn taken(&self) -> &[u8]
        ensures { result.now ≡ self.now.window.bytes }
    {
        self.window.as_slice()
    }

    /// Reads more bytes, or notes the end of the input.
    fn fill<R: Read>(&mut self, reader: &mut Watched<R>) -> Result<(), RunError>
        requires short { length self.old.window.bytes < 8192 }
        requires some { 0 < self.old.still }
        requires going { self.old.is_ended ≡ false }
        ensures advances { Advances R.remaining reader.old reader.new self.old self.new [] }
        ensures nearer { OnOk result (fills_to_come self.new < fills_to_come self.old) }
        ensures fault { IfErr result (IsFault self.new reader.new) }
        ensures same { OnErr result (self.new.window.bytes ≡ self.old.window.bytes) }
    {
        let Ok(n) = self.window.fill(reader, self.still as usize) else {
            return Err(RunError::Read);
        };
        self.still -= n as u64;
        self.is_ended = n == 0;
        if self.still == 0 {
            self.window.drop_last();
        }
        Ok(())
    }

    /// Returns the next item. After a `Line` the caller processes it, and then drops it by `skip`. Fails with `Read` if the reader fails,
    /// and with `TooLong` if it returns more bytes than the limit; in both cases after all whole lines within the limit.
    pub(crate) fn next<R: Read>(&mut self, reader: &mut Watched<R>) -> Result<Next, RunError>
        ensures comes { IfOk result (Comes R.remaining reader.old reader.new self.old self.new) }
        ensures stops { IfErr result (StopsInLine R.remaining reader.old reader.new self.old self.new) }
    {
        let next = self.find_line(reader)?;
        if let Next::Long = next {
            self.skip_line(reader)?;
        }
        Ok(next)
    }

    /// Drops the first `step` bytes of those that were read.
    pub(crate) fn skip(&mut self, step: usize)
        requires { step ≤ length self.old.window.bytes }
        ensures window { self.new.window.bytes ≡ drop step self.old.window.bytes }
        ensures still { self.new.still ≡ self.old.still }
        ensures ended { self.new.is_ended ≡ self.old.is_ended }
    {
        self.window.skip(step);
    }

    /// Reads until the next item is known. A line that is too long remains in the window.
    fn find_line<R: Read>(&mut self, reader: &mut Watched<R>) -> Result<Next, RunError>
        ensures advances { Advances R.remaining reader.old reader.new self.old self.new [] }
        ensures finds { IfOk result (Finds self.new) }
        ensures fault { IfErr result (IsFault self.new reader.new) }
        ensures no_feed { OnErr result (HasNoFeed self.new.window.bytes) }
    {
        loop {
            if let Some(next) = look(self.taken()) {
                return Ok(next);
            }
            if self.is_ended {
                return Ok(self.last_line());
            }
            if self.still == 0 {
                return Err(RunError::TooLong);
            }
            self.fill(reader)?;
        }
    }

    /// Returns the next item if the rest of the input is in the window and has no line feed.
    fn last_line(&self) -> Next
        requires { HasNoFeed self.now.window.bytes }
        ensures { EndsWith self.now.window.bytes result }
    {
        match self.taken().len() {
            0 => Next::End,
            len => Next::Line { len, step: len },
        }
    }

    /// Drops the rest of a line that is too long. The window has more bytes of the line than a line may have.
    fn skip_line<R: Read>(&mut self, reader: &mut Watched<R>) -> Result<(), RunError>
        requires no_feed { HasNoFeed self.old.window.bytes }
        requires long { 4097 < length self.old.window.bytes }
        ensures gone { OnOk result (Comes R.remaining reader.old reader.new self.old self.new Next.Long) }
        ensures stops { IfErr result (StopsInLine R.remaining reader.old reader.new self.old self.new) }
    {
        self.clear();
        while !self.is_ended {
            if self.still == 0 {
                return Err(RunError::TooLong);
            }
            self.fill(reader)?;
            if let Some(len) = line_end(self.taken()) {
                self.skip(len + 1);
                return Ok(());
            }
            self.clear();
        }
        Ok(())
    }

    /// Drops all bytes that were read.
    fn clear(&mut self)
        ensures window { self.new.window.bytes ≡ [] }
        ensures still { self.new.still ≡ self.old.still }
        ensures ended { self.new.is_ended ≡ self.old.is_ended }
    {
        self.skip(self.taken().len());
    }
}
