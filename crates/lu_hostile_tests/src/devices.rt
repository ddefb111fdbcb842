//! Readers and writers that fail, or are slow.

ghost use Rattle.std.specs.Prelude.{◌≡◌, IfOk};

use lu_cli::{Counted, run};
use std::io;
use std::io::{Read, Write};
use std::process::Abort;
use std::sync::Wait;
use std::test::Fail;
use std::thread::Threads;

/// How a call of a device fails.
#[derive(Clone, Copy)]
enum DeviceFailure {
    /// By an error.
    Breaks,

    /// By the error of a call that was interrupted.
    IsInterrupted,

    /// A write that takes none of the bytes that it is given.
    TakesNone,
}

impl DeviceFailure {
    /// What the call returns.
    fn count(self) -> io::Result<usize>
        ensures { IfOk result (λ count. count ≡ 0) }
    {
        match self {
            DeviceFailure::Breaks => Err(io::Error::from(io::ErrorKind::Other)),
            DeviceFailure::IsInterrupted => Err(io::Error::from(io::ErrorKind::Interrupted)),
            DeviceFailure::TakesNone => Ok(0),
        }
    }
}

/// A reader over memory that gives one byte a read, and fails at one of its reads.
#[derive(Drop)]
struct FailingReader<'a> {
    left: &'a [u8],
    until: u32,
    failure: DeviceFailure,
}

impl Read for FailingReader<'_> {
    fn read(&mut self, buf: &mut [u8]) -> io::Result<usize> {
        if self.until == 0 {
            return self.failure.count();
        }
        self.until -= 1;
        let count = self.left.len().min(buf.len()).min(1);
        let (taken, left) = self.left.split_at(count);
        buf[..count].copy_from_slice(taken);
        self.left = left;
        Ok(count)
    }
}

/// A writer over memory that takes one byte a write, and fails at one of its writes.
#[derive(Drop)]
struct FailingWriter {
    taken: Vec<u8>,
    until: u32,
    failure: DeviceFailure,
}

impl Write for FailingWriter {
    fn write(&mut self, buf: &[u8]) -> io::Result<usize> {
        if self.until == 0 {
            return self.failure.count();
        }
        self.until -= 1;
        let count = buf.len().min(1);
        self.taken.extend_from_slice(&buf[..count])?;
        Ok(count)
    }

    fn flush(&mut self) -> io::Result<()> {
        Ok(())
    }
}

/// A command with its input, and what it writes where nothing fails.
struct ExpectedRun<'a> {
    words: &'a [&'a str],
    input: &'a [u8],
    output: &'a [u8],
    status: u8,
}

const COMMANDS: [ExpectedRun<'static>; 10] = [
    ExpectedRun {
        words: &["replay"],
        input: b"component c\nop f 0\nreturn 7\nend\n---\nthread f\n---\nschedule 0 0\n",
        output: b"replay complete\ncall 0 0\nreturn 0 0 ret 7\n",
        status: 0,
    },
    ExpectedRun {
        words: &["trace"],
        input: b"component c\nop f 0\nreturn 7\nend\n---\nthread f\n---\nschedule 0 0\n",
        output: b"trace complete\n   0 T0 call f\n   1 T0 return 7  # ret 7\n",
        status: 0,
    },
    ExpectedRun {
        words: &["check"],
        input: b"component c\nlock m\nop f 0\nlock m\nreturn 0\nend\n---\nthread f;f\n",
        output: b"lineup report 1\nbound 40\nserial 40\npass\ncomplete 0\nstuck 1\ncut 0\n",
        status: 0,
    },
    ExpectedRun {
        words: &["check", "--workers", "2"],
        input: b"component c\nop f 0\npick r0 2\nreturn r0\nend\n---\nthread f\n",
        output: b"lineup report 1\nbound 40\nserial 40\nnondeterministic\nschedule 0 0:1 0\nbefore 0\nearlier ret 0\n",
        status: 1,
    },
    ExpectedRun {
        words: &["check", "--spec"],
        input: b"component c\nop f 0\npick r0 2\nreturn r0\nend\n---\nthread f\n---\nlineup spec 1\nhistory 0=0\n",
        output: b"lineup report 3\nbound 40\nlocal 0\nfail complete\nschedule 0 0:1 0\n",
        status: 1,
    },
    ExpectedRun {
        words: &["serial"],
        input: b"component c\nop f 0\nreturn 7\nend\n---\nthread f\n",
        output: b"lineup spec 1\nhistory 0=7\n",
        status: 0,
    },
    ExpectedRun {
        words: &["serial", "--serial", "1"],
        input: b"component c\nop f 0\na: jump a\nend\n---\nthread f\n",
        output: b"lineup report 1\nbound 40\nserial 1\nserial-cut\nschedule 0 0\n",
        status: 3,
    },
    ExpectedRun {
        words: &["shrink"],
        input: b"component c\nop f 0\npick r0 2\nreturn r0\nend\n---\nthread f;f\n",
        output: b"thread f\n---\nlineup report 1\nbound 40\nserial 40\nnondeterministic\nschedule 0 0:1 0\nbefore 0\nearlier ret 0\n",
        status: 1,
    },
    ExpectedRun {
        words: &["refute"],
        input: b"component c\nop f 0\npick r0 2\nreturn r0\nend\n---\nthread f\n---\nlineup report 1\nbound 40\nserial 40\n\
nondeterministic\nschedule 0 0:1 0\nbefore 0\nearlier ret 0\n---\nlineup spec 1\nhistory 0=0\n",
        output: b"thread f\n---\nschedule 0 0:1 0\n",
        status: 1,
    },
    ExpectedRun {
        words: &["campaign"],
        input: b"component c\nop f 0\nreturn 7\nend\n---\nthread f\n",
        output: b"campaign pass 1\n",
        status: 0,
    },
];

/// What came of a run.
#[derive(Drop)]
struct Ran {
    status: u8,
    taken: Vec<u8>,
    failed_reads: u64,
    failed_writes: u64,
}

/// What came of a run with this status and this many failed reads.
fn ran_with(status: u8, failed_reads: u64, output: Counted<FailingWriter>) -> Ran {
    Ran {
        status,
        failed_reads,
        failed_writes: output.failures(),
        taken: output.into_inner().taken,
    }
}

fn run_command<X: AllocGlobal + Abort + Threads + Wait>(
    rt: &X,
    command: &ExpectedRun<'_>,
    reads: u32,
    writes: u32,
    failure: DeviceFailure,
) -> Ran {
    let mut input = Counted::new(FailingReader {
        left: command.input,
        until: reads,
        failure,
    });
    let mut output = Counted::new(FailingWriter {
        taken: Vec::new(rt.alloc()),
        until: writes,
        failure,
    });
    let status = run(rt, command.words, &mut input, &mut output);
    ran_with(status, input.failures(), output)
}

/// The run wrote the command's answer.
fn assert_answered(rt: &impl Abort, command: &ExpectedRun<'_>, ran: &Ran) {
    assert_eq!(rt; ran.taken.as_slice(), command.output);
    assert_eq!(rt; ran.status, command.status);
}

/// The run blamed the device.
fn assert_blamed(rt: &impl Abort, ran: &Ran) {
    assert_eq!(rt; ran.taken.as_slice(), b"refused device\n".as_slice());
    assert_eq!(rt; ran.status, 4);
}

/// The run wrote the first bytes of the command's answer, this many.
fn assert_begun(rt: &impl Abort, command: &ExpectedRun<'_>, ran: &Ran, count: usize) {
    assert_eq!(rt; ran.status, 4);
    assert_eq!(rt; ran.taken.len(), count);
    assert!(rt; command.output.starts_with(ran.taken.as_slice()));
}

/// More reads and writes than a run makes.
const MANY: u32 = 10_000;

/// How many reads a run makes before it meets no failure: the first, the second and so on fails.
fn reads_before<X: AllocGlobal + Abort + Threads + Wait>(
    rt: &X,
    command: &ExpectedRun<'_>,
    failure: DeviceFailure,
) -> usize {
    for reads in 0..MANY {
        let ran = run_command(rt, command, reads, MANY, failure);
        if ran.failed_reads == 0 {
            assert_answered(rt, command, &ran);
            return reads as usize;
        }
        assert_blamed(rt, &ran);
    }
    panic!(rt; "each run failed")
}

/// Reads fail in turn. There is one for each byte, and one that sees the end.
fn reads_of_command_fail<X: AllocGlobal + Abort + Threads + Wait>(
    rt: &X,
    command: &ExpectedRun<'_>,
    failure: DeviceFailure,
) {
    let reads = reads_before(rt, command, failure);
    assert_eq!(rt; reads, command.input.len().saturating_add(1));
}

fn reads_fail<X: AllocGlobal + Abort + Threads + Wait>(rt: &X, failure: DeviceFailure) {
    for command in &COMMANDS {
        reads_of_command_fail(rt, command, failure);
    }
}

/// The same of writes: what went out before is as much of the answer as was taken.
fn writes_before<X: AllocGlobal + Abort + Threads + Wait>(
    rt: &X,
    command: &ExpectedRun<'_>,
    failure: DeviceFailure,
) -> usize {
    for writes in 0..MANY {
        let ran = run_command(rt, command, MANY, writes, failure);
        assert_eq!(rt; ran.failed_reads, 0);
        if ran.failed_writes == 0 {
            assert_answered(rt, command, &ran);
            return writes as usize;
        }
        assert_begun(rt, command, &ran, writes as usize);
    }
    panic!(rt; "each run failed")
}

/// Writes fail in turn. There is one for each byte.
fn writes_of_command_fail<X: AllocGlobal + Abort + Threads + Wait>(
    rt: &X,
    command: &ExpectedRun<'_>,
    failure: DeviceFailure,
) {
    let writes = writes_before(rt, command, failure);
    assert_eq!(rt; writes, command.output.len());
}

fn writes_fail<X: AllocGlobal + Abort + Threads + Wait>(rt: &X, failure: DeviceFailure) {
    for command in &COMMANDS {
        writes_of_command_fail(rt, command, failure);
    }
}

/// An interrupted read is not tried again.
#[test]
fn a_read_that_fails_is_blamed_on_the_device(rt: HostRuntime) {
    for failure in [DeviceFailure::Breaks, DeviceFailure::IsInterrupted] {
        reads_fail(&rt, failure);
    }
}

/// Neither is an interrupted write, nor one that takes nothing.
#[test]
fn a_write_that_fails_shows_in_the_status(rt: HostRuntime) {
    for failure in [
        DeviceFailure::Breaks,
        DeviceFailure::IsInterrupted,
        DeviceFailure::TakesNone,
    ] {
        writes_fail(&rt, failure);
    }
}
