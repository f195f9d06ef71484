//! Scripts that are refused, and devices that fail.
ghost use Rattle.std.specs.Prelude.{◌≡◌, false};

use crate::program::running::refuses;
use crate::program::whole_runs::FIRST_SCRIPT;
use std::alloc::Global;
use std::io;
use std::io::{Error, ErrorKind, Read, Write};
use std::process::Abort;
use std::thread::Threads;
use thp_run::{NoGate, Report, RunFault, Settings, Watched, check_run, run};

/// A reader whose first read fails.
#[derive(Drop)]
struct NoReads;

impl Read for NoReads {
    fn read(&mut self, _buf: &mut [u8]) -> io::Result<usize> {
        Err(Error::from(ErrorKind::Other))
    }
}

/// A writer that takes this many bytes, then fails; it may fail when it is flushed, too.
#[derive(Drop)]
struct Takes {
    room: usize,
    held: Vec<u8>,
    can_flush: bool,
}

impl Write for Takes {
    fn write(&mut self, buf: &[u8]) -> io::Result<usize> {
        if self.room == 0 {
            return Err(Error::from(ErrorKind::Other));
        }
        let count = buf.len().min(self.room);
        if self.held.extend_from_slice(&buf[..count]).is_err() {
            return Err(Error::from(ErrorKind::OutOfMemory));
        }
        self.room -= count;
        Ok(count)
    }

    fn flush(&mut self) -> io::Result<()> {
        if self.can_flush {
            Ok(())
        } else {
            Err(Error::from(ErrorKind::Other))
        }
    }
}

/// Scripts with their first error.
const SCRIPT_FAULTS: &[(&[u8], &str)] = &[
    (b"alloc 0\n", "line 1: bad-order"),
    (b"setup\nalloc 00\n", "line 2: bad-number"),
    (b"setup\nalloc 0", "line 2: cut"),
    (b"setup\nscan 0 129\n", "line 2: bad-number"),
    (b"setup\nfly 0\n", "line 2: bad-word"),
    (b"setup\nalloc\n", "line 2: bad-count"),
    (b"worker 2\n", "line 1: bad-number"),
    (b"setup\nsetup\n", "line 2: bad-order"),
    (b"setup\nalloc  0\n", "line 2: bad-word"),
    (b"setup\n#\x00\n", "line 2: bad-byte"),
    // errors in the words of commands
    (b"setup\nmapwhole 0\n", "line 2: bad-count"),
    (b"setup\nunmapwhole 0 0 0\n", "line 2: bad-count"),
    (b"setup\nmap 0 0 0\n", "line 2: bad-count"),
    (b"setup\npin 0\n", "line 2: bad-count"),
    (b"setup\nclose 0 0\n", "line 2: bad-count"),
    (b"setup\nclose 1\n", "line 2: bad-number"),
    (b"setup\nmap 0 0 65536 1\n", "line 2: bad-number"),
    (b"setup\nmap 0 0 0 65536\n", "line 2: bad-number"),
    (
        b"setup\nunpin 0 18446744073709551616\n",
        "line 2: bad-number",
    ),
    (b"setup\npin 0 -1\n", "line 2: bad-number"),
    (b"setup\nMap 0 0 0 1\n", "line 2: bad-word"),
    (b"setup\nmapwhol 0 0\n", "line 2: bad-word"),
    (b"setup\nmapwhole 0 0 \n", "line 2: bad-word"),
    (b"pin 0 0\n", "line 1: bad-order"),
];

#[test]
fn script_faults(rt: HostRuntime) {
    for row in SCRIPT_FAULTS {
        let (script, reported) = *row;
        assert!(rt; refuses(&rt, rt.alloc(), script, reported), "{reported}");
    }
}

/// A watched writer that takes this many bytes.
fn writer_of(alloc: Global, room: usize, can_flush: bool) -> Watched<Takes>
    ensures { result.failed ≡ false }
{
    Watched::new(Takes {
        room,
        held: Vec::new(alloc),
        can_flush,
    })
}

/// The writer took these bytes.
fn expect_held(rt: &impl Abort, writer: Watched<Takes>, bytes: &[u8]) {
    assert!(rt; writer.into_inner().held.as_slice() == bytes);
}

/// The result of a run with totals on these devices.
fn run_on<T: Threads + Abort + Sync, R: Read, W: Write>(
    rt: &T,
    alloc: Global,
    reader: &mut Watched<R>,
    writer: &mut Watched<W>,
) -> Result<(), RunFault>
    requires reader { reader.old.failed ≡ false }
    requires writer { writer.old.failed ≡ false }
{
    let settings = Settings::new(1, 16, 1, Report::Totals).expect(rt, "within the limits");
    run(rt, alloc, &settings, reader, writer, &NoGate)
}

/// A run of a script whose writer fails.
fn expect_failing_run<T: Threads + Abort + Sync>(rt: &T, alloc: Global, writer: &mut Watched<Takes>)
    requires { writer.old.failed ≡ false }
{
    let done = run_on(rt, alloc, &mut Watched::new(FIRST_SCRIPT), writer);
    assert!(rt; matches!(done, Err(RunFault::Write)));
}

#[test]
fn failing_writer(rt: HostRuntime) {
    let mut writer = writer_of(rt.alloc(), 5, true);
    expect_failing_run(&rt, rt.alloc(), &mut writer);
    assert!(&rt; writer.failed());
    expect_held(&rt, writer, b"node ");
}

#[test]
fn failing_flush(rt: HostRuntime) {
    expect_failing_run(&rt, rt.alloc(), &mut writer_of(rt.alloc(), 4096, false));
}

fn expect_no_reads<T: Threads + Abort + Sync>(rt: &T, alloc: Global, writer: &mut Watched<Vec<u8>>)
    requires { writer.old.failed ≡ false }
{
    let mut reader = Watched::new(NoReads);
    let done = run_on(rt, alloc, &mut reader, writer);
    assert!(rt; matches!(done, Err(RunFault::Read)));
    assert!(rt; reader.failed());
}

#[test]
fn failing_reader(rt: HostRuntime) {
    let mut writer: Watched<Vec<u8>> = Watched::new(Vec::new(rt.alloc()));
    expect_no_reads(&rt, rt.alloc(), &mut writer);
    assert!(&rt; writer.into_inner().is_empty());
}

const JOURNAL: &[u8] = b"thp-journal 1\nnode 0 blocks 16\n0 alloc 0\nend\n";

fn expect_read_fault(rt: &impl Abort, alloc: Global) {
    let mut writer: Watched<Vec<u8>> = Watched::new(Vec::new(alloc));
    let done = check_run(alloc, &mut Watched::new(NoReads), &mut writer);
    assert!(rt; matches!(done, Err(RunFault::Read)));
}

fn expect_write_fault(rt: &impl Abort, alloc: Global, writer: &mut Watched<Takes>)
    requires { writer.old.failed ≡ false }
{
    let done = check_run(alloc, &mut Watched::new(JOURNAL), writer);
    assert!(rt; matches!(done, Err(RunFault::Write)));
}

#[test]
fn failing_devices_of_a_check(rt: HostRuntime) {
    expect_read_fault(&rt, rt.alloc());
    let mut writer = writer_of(rt.alloc(), 3, true);
    expect_write_fault(&rt, rt.alloc(), &mut writer);
    expect_held(&rt, writer, b"leg");
}
