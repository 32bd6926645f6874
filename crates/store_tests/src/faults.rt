//! What a reader or a writer that fails leaves in a store and in a world. tests/io-faults tests what the program then writes.
use change_list::Config;
use front::{replay, session};
use interval_class::{Interval, Intervals};
use key_class::{Fault, Refusal};
use mailbox::Tray;
use std::io::{self, ErrorKind, Read, Write};
use std::test::Fail;
use store::Store;
use world::World;

const CONFIG: Config = Config {
    fan: 4,
    least: 2,
    pages: 65_536,
    commits: 16_777_216,
};

/// A reader of a few bytes at a time, which fails once it was called so often.
#[derive(Drop)]
struct Breaking<'a> {
    rest: &'a [u8],
    at_once: usize,
    calls: usize,
}

impl<'a> Read for Breaking<'a> {
    fn read(&mut self, buf: &mut [u8]) -> io::Result<usize> {
        if self.calls == 0 {
            return Err(ErrorKind::BrokenPipe.into());
        }
        self.calls -= 1;
        let count = self.at_once.min(self.rest.len()).min(buf.len());
        let (given, rest) = self.rest.split_at(count);
        buf[..count].copy_from_slice(given);
        self.rest = rest;
        Ok(count)
    }
}

/// A writer that takes a few bytes at a time, and fails once it was called so often.
#[derive(Drop)]
struct Stopping {
    kept: Vec<u8>,
    at_once: usize,
    calls: usize,
}

impl Write for Stopping {
    fn write(&mut self, buf: &[u8]) -> io::Result<usize> {
        if self.calls == 0 {
            return Err(ErrorKind::BrokenPipe.into());
        }
        self.calls -= 1;
        let count = self.at_once.min(buf.len());
        match self.kept.extend_from_slice(&buf[..count]) {
            Ok(()) => Ok(count),
            Err(_) => Err(ErrorKind::OutOfMemory.into()),
        }
    }

    fn flush(&mut self) -> io::Result<()> {
        Ok(())
    }
}

/// Lines, and what is due once some of them were read.
struct Lines {
    is_replay: bool,
    input: &'static [u8],
    answers: &'static [u8],
    /// How many bytes answer the first lines, and how many commits they make.
    due: [(usize, u64); 4],
}

static COMMANDS: Lines = Lines {
    is_replay: false,
    input: b"insert (5 5) 0\nfind overlaps(5 5)\ninsert (6 6) 1\n",
    answers: b"committed 1\nfound 1\nrow 1 (5 5) 0\ncommitted 2\n",
    due: [(0, 0), (12, 1), (34, 1), (46, 2)],
};

static EVENTS: Lines = Lines {
    is_replay: true,
    input: b"place 0 (5 5) 0\nopen 4 overlaps(5 5)\nplace 0 (6 6) 1\n",
    answers: b"committed 1\nopened 1\ncommitted 2\n",
    due: [(0, 0), (12, 1), (21, 1), (33, 2)],
};

/// How a run ended, and how many commits there were then.
type RunEnd = (Result<(), Fault>, u64);

/// A session over a new store.
fn serve<R: Read, W: Write>(
    rt: HostRuntime,
    reader: &mut R,
    writer: &mut W,
) -> Result<RunEnd, Refusal> {
    let mut store = Store::<Intervals>::new(rt.alloc(), CONFIG)?;
    let result = session(rt.alloc(), reader, writer, &mut store);
    Ok((result, store.commits()))
}

/// A replay over a new world.
fn carry_out<R: Read, W: Write>(
    rt: HostRuntime,
    reader: &mut R,
    writer: &mut W,
) -> Result<RunEnd, Refusal> {
    let mut world = World::<Intervals, Tray<Interval>>::new(rt.alloc(), CONFIG)?;
    let result = replay(rt.alloc(), reader, writer, &mut world);
    Ok((result, world.commits()))
}

/// Carries out lines that are read and written by so many bytes at once, in so many calls.
fn run(
    rt: HostRuntime,
    lines: &Lines,
    at_once: usize,
    reads: usize,
    writer: &mut Stopping,
) -> Result<RunEnd, Refusal> {
    let mut reader = Breaking {
        rest: lines.input,
        at_once,
        calls: reads,
    };
    if lines.is_replay {
        carry_out(rt, &mut reader, writer)
    } else {
        serve(rt, &mut reader, writer)
    }
}

/// Whether the bytes are the first `count` bytes of a text, or all of it.
fn is_start(text: &[u8], bytes: &[u8], count: usize) -> bool {
    bytes == &text[..text.len().min(count)]
}

/// Whether a writer that fails before it has everything is reported as a fault, and keeps what was written before; the
/// commits whose answers it doesn't get were made.
fn stops(rt: HostRuntime, lines: &Lines, at_once: usize, calls: usize) -> Result<bool, Refusal> {
    let mut writer = Stopping {
        kept: Vec::new(rt.alloc()),
        at_once,
        calls,
    };
    let (result, commits) = run(rt, lines, 4_096, 9, &mut writer)?;
    let count = at_once.saturating_mul(calls);
    let is_due = match result {
        Ok(()) => count >= lines.answers.len(),
        Err(Fault::Write) => count < lines.answers.len(),
        Err(_) => false,
    };
    Ok(is_due && commits == 2 && is_start(lines.answers, writer.kept.as_slice(), count))
}

#[test]
fn writer_that_fails(rt: HostRuntime) -> Result<(), Fail> {
    for lines in [&COMMANDS, &EVENTS] {
        for at_once in [1, 3, 7, 20, 100] {
            for calls in 0..55 {
                assert!(rt; stops(rt, lines, at_once, calls)?, "{at_once} {calls}");
            }
        }
    }
    Ok(())
}

/// How many bytes answer the lines that end among the first `count` bytes, and how many commits they make.
fn due(lines: &Lines, count: usize) -> (usize, u64) {
    let given = &lines.input[..lines.input.len().min(count)];
    let whole = given.iter().filter(|byte| **byte == b'\n').count();
    *lines.due.get(whole).unwrap_or(&(0, 0))
}

/// Whether a reader that fails is reported as a fault: the lines that were read whole are answered, and no other.
fn breaks(rt: HostRuntime, lines: &Lines, at_once: usize, calls: usize) -> Result<bool, Refusal> {
    let mut writer = Stopping {
        kept: Vec::new(rt.alloc()),
        at_once: 4_096,
        calls: 99,
    };
    let (result, commits) = run(rt, lines, at_once, calls, &mut writer)?;
    let count = at_once.saturating_mul(calls);
    let is_due = match result {
        Ok(()) => count >= lines.input.len(),
        Err(Fault::Read) => count < lines.input.len().saturating_add(at_once),
        Err(_) => false,
    };
    let (bytes, due_commits) = due(lines, count);
    Ok(is_due && commits == due_commits && is_start(lines.answers, writer.kept.as_slice(), bytes))
}

#[test]
fn reader_that_fails(rt: HostRuntime) -> Result<(), Fail> {
    for lines in [&COMMANDS, &EVENTS] {
        for at_once in [1, 3, 7, 24, 100] {
            for calls in 0..55 {
                assert!(rt; breaks(rt, lines, at_once, calls)?, "{at_once} {calls}");
            }
        }
    }
    Ok(())
}
