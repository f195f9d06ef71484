//! Texts passed through runs and checks on devices of all behaviours.
ghost use Rattle.std.specs.Prelude.{◌≡◌, false};

use crate::devices::{LARGE, Manner, Sink, Source};
use std::alloc::Global;
use std::thread::Threads;
use thp_run::{NoGate, Report, RunFault, Settings, Watched, check_run, run};

/// A text and its use: a script whose run is reported, or a journal that is checked.
#[derive(Clone, Copy)]
pub(crate) struct Work {
    pub(crate) text: &'static [u8],
    pub(crate) report: Option<Report>,
}

impl Work {
    /// The settings of the run, if the text is a script.
    pub(crate) fn settings(self) -> Option<Settings> {
        Settings::new(2, 16, 2, self.report?)
    }
}

/// Scripts with each report, and a legal and an illegal journal.
pub(crate) const WORKS: [Work; 6] = [
    Work {
        text: FIRST_SCRIPT,
        report: Some(Report::Totals),
    },
    Work {
        text: FIRST_SCRIPT,
        report: Some(Report::Journal),
    },
    Work {
        text: TWO_WORKERS,
        report: Some(Report::Answers),
    },
    Work {
        text: b"",
        report: Some(Report::Totals),
    },
    Work {
        text: JOURNAL,
        report: None,
    },
    Work {
        text: b"thp-journal 1\nnode 0 blocks 1\n0 pin 0\nend\n",
        report: None,
    },
];

pub(crate) const FIRST_SCRIPT: &[u8] = b"setup\nalloc 0\nsplitpmd 0 0\nunmap 0 0 0 256\nscan 0 8\n";

const TWO_WORKERS: &[u8] =
    b"setup\nalloc 0\nalloc 1\nworker 1\nsplitpmd 0 0\nunmap 0 0 0 8\ntake 0 1\nworker 2\npin 1 0\nunmapwhole 1 0\n";

pub(crate) const JOURNAL: &[u8] =
    b"thp-journal 1\nnode 0 blocks 16\n0 alloc 0\n0 splitpmd 0\n0 unmapsub 0 0 256 queued -\n0 taken 0\n0 split 0 0-255\nend\n";

/// How a run or a check ended, its calls of its devices, the number of bytes it read, which of its devices it knows to have
/// failed, and what was written.
#[derive(Drop)]
pub(crate) struct Passed {
    pub(crate) ended: Result<(), RunFault>,
    pub(crate) reads: u32,
    pub(crate) given: usize,
    pub(crate) writes: u32,
    pub(crate) failed: (bool, bool),
    pub(crate) held: Vec<u8>,
}

/// How a run with the settings ends, or a check if there are none.
fn ended<T: Threads + Sync>(
    rt: &T,
    alloc: Global,
    settings: Option<Settings>,
    reader: &mut Watched<Source>,
    writer: &mut Watched<Sink>,
) -> Result<(), RunFault>
    requires reader { reader.old.failed ≡ false }
    requires writer { writer.old.failed ≡ false }
{
    match settings {
        Some(settings) => run(rt, alloc, &settings, reader, writer, &NoGate),
        None => match check_run(alloc, reader, writer) {
            Ok(_) => Ok(()),
            Err(fault) => Err(fault),
        },
    }
}

/// Runs a script with the settings, or checks a journal if there are none.
pub(crate) fn pass<T: Threads + Sync>(
    rt: &T,
    alloc: Global,
    settings: Option<Settings>,
    source: Source,
    writes: Manner,
) -> Passed {
    let mut reader = Watched::new(source);
    let mut writer = Watched::new(Sink::new(alloc, writes));
    let ended = ended(rt, alloc, settings, &mut reader, &mut writer);
    let failed = (reader.failed(), writer.failed());
    let source = reader.into_inner();
    let sink = writer.into_inner();
    Passed {
        ended,
        reads: source.calls,
        given: source.given,
        writes: sink.calls,
        failed,
        held: sink.held,
    }
}

/// The work done on devices of these behaviours.
pub(crate) fn done<T: Threads + Sync>(
    rt: &T,
    alloc: Global,
    work: &Work,
    reads: Manner,
    writes: Manner,
) -> Passed {
    let source = Source::new(work.text, 0, reads);
    pass(rt, alloc, work.settings(), source, writes)
}

/// The text written if no device has a mishap.
pub(crate) fn whole<T: Threads + Sync>(rt: &T, alloc: Global, work: &Work) -> Option<Vec<u8>> {
    let passed = done(rt, alloc, work, LARGE, LARGE);
    if passed.ended.is_ok() && passed.failed == (false, false) {
        Some(passed.held)
    } else {
        None
    }
}
