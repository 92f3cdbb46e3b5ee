//! Runs, for what no contract states: worked runs with their replies, devices that fail or accept little, and that ample memory never
//! fails.
use crate::assertions::{assert_same, assert_that};
use mm_value::Watched;
use mmdb_core::{Limits, MAX_MAX_INPUT, RunError, Totals, exit_status, run};
use std::alloc::Global;
use std::io;
use std::io::{Read, Write};
use std::process::Abort;
use std::test::Fail;

// Returns at most `step` bytes per call, and after the last one an error if it `breaks`.
#[derive(Drop)]
struct Source<'a> {
    left: &'a [u8],
    step: usize,
    breaks: bool,
}

impl Read for Source<'_> {
    fn read(&mut self, buf: &mut [u8]) -> io::Result<usize> {
        if self.left.is_empty() && self.breaks {
            return Err(io::Error::from(io::ErrorKind::BrokenPipe));
        }
        let most = buf.len().min(self.step).min(self.left.len());
        let (given, left) = self.left.split_at(most);
        buf[..most].copy_from_slice(given);
        self.left = left;
        Ok(most)
    }
}

// Accepts at most `step` bytes per call and `room` in all. After that, returns an error, or 0 if it `is_silent`.
#[derive(Drop)]
struct Sink {
    taken: Vec<u8>,
    step: usize,
    room: usize,
    is_silent: bool,
    flushed: usize,
    flushes: usize,
}

impl Write for Sink {
    fn write(&mut self, buf: &[u8]) -> io::Result<usize> {
        let room = self.room.saturating_sub(self.taken.len());
        let most = buf.len().min(self.step).min(room);
        if most == 0 && !self.is_silent {
            return Err(io::Error::from(io::ErrorKind::BrokenPipe));
        }
        self.taken.extend_from_slice(&buf[..most])?;
        Ok(most)
    }

    fn flush(&mut self) -> io::Result<()> {
        self.flushed = self.taken.len();
        self.flushes = self.flushes.saturating_add(1);
        Ok(())
    }
}

// Interrupts each read or write `calls` times in a row, and each flush `flushes` times, before it succeeds.
#[derive(Drop)]
struct Interrupted<D> {
    device: D,
    calls: u32,
    flushes: u32,
    so_far: u32,
}

impl<D> Interrupted<D> {
    fn new(device: D, calls: u32, flushes: u32) -> Interrupted<D> {
        Interrupted {
            device,
            calls,
            flushes,
            so_far: 0,
        }
    }

    fn interrupt(&mut self, times: u32) -> io::Result<()> {
        if self.so_far >= times {
            self.so_far = 0;
            return Ok(());
        }
        self.so_far += 1;
        Err(io::Error::from(io::ErrorKind::Interrupted))
    }
}

impl<R: Read> Read for Interrupted<R> {
    fn read(&mut self, buf: &mut [u8]) -> io::Result<usize> {
        self.interrupt(self.calls)?;
        self.device.read(buf)
    }
}

impl<W: Write> Write for Interrupted<W> {
    fn write(&mut self, buf: &[u8]) -> io::Result<usize> {
        self.interrupt(self.calls)?;
        self.device.write(buf)
    }

    fn flush(&mut self) -> io::Result<()> {
        self.interrupt(self.flushes)?;
        self.device.flush()
    }
}

// A step within which each script of these tests is read at once.
const WHOLE: usize = 1_000_000;

const NO_RUN: &str = "no such limit";

// The end of a run, and the contents of its writer then.
#[derive(Drop)]
struct Ran {
    ended: Result<Totals, RunError>,
    sink: Sink,
}

impl Ran {
    fn wrote(&self, replies: &[u8]) -> bool {
        self.sink.taken.as_slice() == replies
    }

    fn flushed_each_of(&self, replies: usize) -> bool {
        self.sink.flushes == replies && self.sink.flushed == self.sink.taken.len()
    }

    fn counted(&self, lines: u64, refused: u64) -> bool {
        match self.ended {
            Ok(totals) => totals == Totals { lines, refused },
            Err(_) => false,
        }
    }

    fn failed_reading(&self) -> bool {
        matches!(self.ended, Err(RunError::Read))
    }

    fn failed_writing(&self) -> bool {
        matches!(self.ended, Err(RunError::Write))
    }
}

// Runs a source with a writer that accepts as many bytes per call as the reader returns.
fn run_source(alloc: Global, source: Source, room: usize, max_input: u64) -> Option<Ran> {
    let limits = Limits::new(max_input)?;
    let mut sink = Sink {
        taken: Vec::new(alloc),
        step: source.step,
        room,
        is_silent: false,
        flushed: 0,
        flushes: 0,
    };
    let mut reader = Watched::new(source);
    let mut writer = Watched::new(&mut sink);
    let ended = run(alloc, &mut reader, &mut writer, limits);
    Some(Ran { ended, sink })
}

fn run_input(alloc: Global, left: &[u8], step: usize, max_input: u64) -> Option<Ran> {
    let breaks = false;
    run_source(alloc, Source { left, step, breaks }, WHOLE, max_input)
}

// Inputs with their replies, the number of lines of each, and how many of them are refused.
const ANSWERED: [(&[u8], &[u8], u64, u64); 6] = [
    (b"", b"", 0, 0),
    (
        b"TABLE t (id INT KEY, k INT)\nINSERT t (2, 5), (1, 5)\nSCAN t\n",
        b"ok\nok 2\n(1, 5)\n(2, 5)\nrows 2\n",
        3,
        0,
    ),
    (
        b"TABLE t (id INT KEY)\nINSERT t (2)\nINSERT t (1), (2)\nSCAN t\n",
        b"ok\nok 1\nerror 40 duplicate key\n(2)\nrows 1\n",
        4,
        1,
    ),
    (
        b"TABLE t (id INT KEY)\nTABLE u (k INT, id INT KEY)\nINSERT u (1, 9), (2, 8)\nSCAN u\nSCAN t\n",
        b"ok\nok\nok 2\n(2, 8)\n(1, 9)\nrows 2\nrows 0\n",
        5,
        0,
    ),
    (
        b"TABLE t (id INT KEY)\nBEGIN\nSAVEPOINT s\nINSERT t (1)\nROLLBACK TO s\nROLLBACK TO z\nSCAN t\n",
        b"ok\nok\nok\nok 1\nok\nerror 53 no such savepoint\nrows 0\n",
        7,
        1,
    ),
    (
        b"TABLE t (id INT KEY)\r\nSCAN t\x00\n\n-- x\nSCAN t",
        b"ok\nerror 11 syntax\nrows 0\n",
        5,
        1,
    ),
];

// Asserts the output and the counts of a run of an input.
fn expect_answers(
    rt: &(impl Abort + AllocGlobal),
    input: &[u8],
    step: usize,
    replies: &[u8],
    lines: u64,
    refused: u64,
) -> Result<(), Fail> {
    let ran = run_input(rt.alloc(), input, step, MAX_MAX_INPUT).ok_or(NO_RUN)?;
    assert!(rt; ran.wrote(replies), "at {input:?}");
    assert!(rt; ran.counted(lines, refused), "at {input:?}");
    assert_same(rt, exit_status(&ran.ended), 0);
    Ok(())
}

#[test]
fn each_line_is_answered(rt: HostRuntime) -> Result<(), Fail> {
    for (input, replies, lines, refused) in ANSWERED {
        expect_answers(&rt, input, 1, replies, lines, refused)?;
        expect_answers(&rt, input, WHOLE, replies, lines, refused)?;
    }
    Ok(())
}

#[test]
fn each_reply_is_flushed(rt: HostRuntime) -> Result<(), Fail> {
    let input = b"TABLE t (id INT KEY)\nINSERT t (2), (1)\n\nSCAN t\nSCAN u\n";
    for step in [1, WHOLE] {
        let ran = run_input(rt.alloc(), input, step, 1_000).ok_or(NO_RUN)?;
        assert_that(&rt, ran.flushed_each_of(4));
    }
    Ok(())
}

// Fills an input with a first line of `blanks` blanks and an end, and a line that creates a table.
fn fill(input: &mut Vec<u8>, blanks: usize, end: &[u8]) -> Result<(), Fail> {
    input.resize(blanks, b' ')?;
    input.extend_from_slice(end)?;
    input.extend_from_slice(b"TABLE t (id INT KEY)\n")?;
    Ok(())
}

// Asserts the output and the counts of a run of an input with a line of `blanks` blanks.
fn expect_long_line(
    rt: &(impl Abort + AllocGlobal),
    input: &[u8],
    step: usize,
    blanks: usize,
    refused: u64,
    replies: &[u8],
) -> Result<(), Fail> {
    let ran = run_input(rt.alloc(), input, step, 30_000).ok_or(NO_RUN)?;
    assert!(rt; ran.wrote(replies), "at {blanks}");
    assert!(rt; ran.counted(2, refused), "at {blanks}");
    Ok(())
}

// Asserts the same for a line of that many blanks and an end.
fn expect_long_line_with(
    rt: &(impl Abort + AllocGlobal),
    blanks: usize,
    end: &[u8],
    refused: u64,
    replies: &[u8],
) -> Result<(), Fail> {
    let mut input = Vec::new(rt.alloc());
    fill(&mut input, blanks, end)?;
    expect_long_line(rt, &input, 1, blanks, refused, replies)?;
    expect_long_line(rt, &input, WHOLE, blanks, refused, replies)
}

#[test]
fn long_lines_are_refused(rt: HostRuntime) -> Result<(), Fail> {
    let refusal = b"error 10 line too long\nok\n";
    expect_long_line_with(&rt, 4096, b"\r\n", 0, b"ok\n")?;
    expect_long_line_with(&rt, 4097, b"\n", 1, refusal)?;
    expect_long_line_with(&rt, 20_000, b"SCAN t\r\n", 1, refusal)
}

#[test]
fn a_failed_writer_ends_a_run(rt: HostRuntime) -> Result<(), Fail> {
    for step in [1, WHOLE] {
        let source = Source {
            left: b"TABLE t (id INT KEY, k INT)\nINSERT t (2, 5), (1, 5)\n",
            step,
            breaks: false,
        };
        let ran = run_source(rt.alloc(), source, 4, 1_000).ok_or(NO_RUN)?;
        assert_that(&rt, ran.wrote(b"ok\no"));
        assert_that(&rt, ran.failed_writing());
        assert_same(&rt, exit_status(&ran.ended), 2);
    }
    Ok(())
}

#[test]
fn a_failed_reader_ends_a_run(rt: HostRuntime) -> Result<(), Fail> {
    for step in [1, WHOLE] {
        let source = Source {
            left: b"SCAN nope\nSCAN\nSCA",
            step,
            breaks: true,
        };
        let ran = run_source(rt.alloc(), source, WHOLE, 1_000).ok_or(NO_RUN)?;
        assert_that(&rt, ran.wrote(b"error 20 no such table\nerror 11 syntax\n"));
        // So both were answered and flushed before the call that failed.
        assert_that(&rt, ran.flushed_each_of(2));
        assert_that(&rt, ran.failed_reading());
        assert_same(&rt, exit_status(&ran.ended), 2);
    }
    Ok(())
}

// A script of 21, 18 and 7 bytes a line, and its output.
const SCRIPT: &[u8] = b"TABLE t (id INT KEY)\nINSERT t (2), (1)\nSCAN t\n";

const OUTPUT: &[u8] = b"ok\nok 2\n(1)\n(2)\nrows 2\n";

// Returns the replies to the whole lines in the first `given` bytes of the script.
fn replies_to(given: usize) -> &'static [u8] {
    match given {
        0..=20 => b"",
        21..=38 => b"ok\n",
        39..=45 => b"ok\nok 2\n",
        _ => OUTPUT,
    }
}

// Asserts the result of a run whose reader fails after this many bytes of the script.
fn expect_read_fault(
    rt: &(impl Abort + AllocGlobal),
    given: usize,
    step: usize,
) -> Result<(), Fail> {
    let left = SCRIPT.get(..given).ok_or("too far")?;
    let breaks = true;
    let source = Source { left, step, breaks };
    let ran = run_source(rt.alloc(), source, WHOLE, 1_000).ok_or(NO_RUN)?;
    assert!(rt; ran.wrote(replies_to(given)), "at {given}");
    assert!(rt; ran.failed_reading(), "at {given}");
    assert_same(rt, exit_status(&ran.ended), 2);
    Ok(())
}

#[test]
fn a_read_fault_leaves_the_replies_of_whole_lines(rt: HostRuntime) -> Result<(), Fail> {
    for given in 0..=46 {
        expect_read_fault(&rt, given, 1)?;
        expect_read_fault(&rt, given, WHOLE)?;
    }
    Ok(())
}

// Asserts the result of a run whose writer fails after this many bytes of the output.
fn expect_write_fault(
    rt: &(impl Abort + AllocGlobal),
    room: usize,
    step: usize,
) -> Result<(), Fail> {
    let front = OUTPUT.get(..room).ok_or("too far")?;
    let source = Source {
        left: SCRIPT,
        step,
        breaks: false,
    };
    let ran = run_source(rt.alloc(), source, room, 1_000).ok_or(NO_RUN)?;
    assert!(rt; ran.wrote(front), "at {room}");
    assert!(rt; ran.failed_writing(), "at {room}");
    assert_same(rt, exit_status(&ran.ended), 2);
    Ok(())
}

#[test]
fn a_write_fault_leaves_a_front_of_the_replies(rt: HostRuntime) -> Result<(), Fail> {
    for room in 0..23 {
        expect_write_fault(&rt, room, 1)?;
        expect_write_fault(&rt, room, WHOLE)?;
    }
    Ok(())
}

#[test]
fn a_writer_that_takes_nothing_ends_a_run(rt: HostRuntime) -> Result<(), Fail> {
    let mut sink = Sink {
        taken: Vec::new(rt.alloc()),
        step: WHOLE,
        room: 4,
        is_silent: true,
        flushed: 0,
        flushes: 0,
    };
    let limits = Limits::new(1_000).ok_or(NO_RUN)?;
    let mut reader = Watched::new(SCRIPT);
    let mut writer = Watched::new(&mut sink);
    let ended = run(rt.alloc(), &mut reader, &mut writer, limits);
    assert_that(&rt, matches!(ended, Err(RunError::Write)));
    assert_same(&rt, sink.taken.as_slice(), b"ok\no".as_slice());
    Ok(())
}

// Runs the script with reads, writes and flushes that are each interrupted this many times in a row.
fn run_interrupted(alloc: Global, reads: u32, writes: u32, flushes: u32) -> Option<Ran> {
    let limits = Limits::new(1_000)?;
    let mut sink = Sink {
        taken: Vec::new(alloc),
        step: 2,
        room: WHOLE,
        is_silent: false,
        flushed: 0,
        flushes: 0,
    };
    let mut reader = Watched::new(Interrupted::new(SCRIPT, reads, 0));
    let mut writer = Watched::new(Interrupted::new(&mut sink, writes, flushes));
    let ended = run(alloc, &mut reader, &mut writer, limits);
    Some(Ran { ended, sink })
}

// Asserts that sixteen interrupts in a row of each call change nothing.
fn expect_borne(rt: &(impl Abort + AllocGlobal)) -> Result<(), Fail> {
    let borne = run_interrupted(rt.alloc(), 16, 16, 16).ok_or(NO_RUN)?;
    assert_that(rt, borne.wrote(OUTPUT));
    assert_that(rt, borne.counted(3, 0));
    Ok(())
}

// Asserts that seventeen interrupts in a row of a read end a run.
fn expect_unread(rt: &(impl Abort + AllocGlobal)) -> Result<(), Fail> {
    let unread = run_interrupted(rt.alloc(), 17, 0, 0).ok_or(NO_RUN)?;
    assert_that(rt, unread.wrote(b""));
    assert_that(rt, unread.failed_reading());
    Ok(())
}

// Asserts that this many interrupts in a row of writes and of flushes end a run after these replies.
fn expect_unwritten(
    rt: &(impl Abort + AllocGlobal),
    writes: u32,
    flushes: u32,
    replies: &[u8],
) -> Result<(), Fail> {
    let unwritten = run_interrupted(rt.alloc(), 0, writes, flushes).ok_or(NO_RUN)?;
    assert_that(rt, unwritten.wrote(replies));
    assert_that(rt, unwritten.failed_writing());
    Ok(())
}

#[test]
fn interrupted_calls_are_made_again(rt: HostRuntime) -> Result<(), Fail> {
    expect_borne(&rt)?;
    expect_unread(&rt)?;
    expect_unwritten(&rt, 17, 0, b"")?;
    expect_unwritten(&rt, 0, 17, b"ok\n")
}

// Two lines of 7 bytes each, which are refused.
const TWO_SCANS: &[u8] = b"SCAN t\nSCAN t\n";

// Asserts that a limit between two lines ends a run.
fn expect_cut(rt: &(impl Abort + AllocGlobal), step: usize) -> Result<(), Fail> {
    let cut = run_input(rt.alloc(), TWO_SCANS, step, 10).ok_or(NO_RUN)?;
    assert_that(rt, cut.wrote(b"error 20 no such table\n"));
    assert_that(rt, matches!(cut.ended, Err(RunError::TooLong)));
    assert_same(rt, exit_status(&cut.ended), 3);
    Ok(())
}

// Asserts that a limit at the end of an input does not end a run.
fn expect_whole(rt: &(impl Abort + AllocGlobal), step: usize) -> Result<(), Fail> {
    let whole = run_input(rt.alloc(), TWO_SCANS, step, 14).ok_or(NO_RUN)?;
    assert_that(
        rt,
        whole.wrote(b"error 20 no such table\nerror 20 no such table\n"),
    );
    assert_that(rt, whole.counted(2, 2));
    Ok(())
}

#[test]
fn a_limit_ends_a_run(rt: HostRuntime) -> Result<(), Fail> {
    for step in [1, WHOLE] {
        expect_cut(&rt, step)?;
        expect_whole(&rt, step)?;
    }
    Ok(())
}

#[test]
fn limits_have_a_bound(rt: HostRuntime) -> Result<(), Fail> {
    let most = Limits::new(1_099_511_627_776).ok_or(NO_RUN)?;
    assert_same(&rt, most.max_input(), MAX_MAX_INPUT);
    assert_that(&rt, Limits::new(1_099_511_627_777).is_none());
    Ok(())
}
