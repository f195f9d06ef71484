//! A section of a holder of callers, and the report of its answers.
ghost use Rattle.std.specs.Prelude.{◌<◌, ◌^◌, All, length};
ghost use Rattle.thp_run.specs.Prelude.{Fronts, HasNoBatch, HoldsCaller, IsWorkFor, WorksOn};

use crate::equal::expect_equal;
use std::alloc::{AllocError, Global};
use std::process::Abort;
use thp_model::{PageId, Refusal};
use thp_run::{
    Answer, Command, NoGate, Reply, Report, Rest, ScanReply, Section, Settings, Steps, Worked,
    report_text, work, work_rest,
};

// The answers of a section of caller 1, for any implementation of its steps.
pub fn worked_by<S: Steps>(
    alloc: Global,
    commands: &[Command],
    steps: &mut S,
) -> Result<Worked, AllocError>
    requires caller { HoldsCaller (S.fronts steps.old) 1 }
    requires few { length commands.now < 2 ^ 32 }
    requires commands { All (IsWorkFor (S.fronts steps.old).nodes) commands.now }
    requires shut { HasNoBatch 1 (S.fronts steps.old) }
{
    work(alloc, commands, 1, steps, &NoGate)
}

// The rest of it.
pub fn rest_by<S: Steps>(
    alloc: Global,
    commands: &[Command],
    worked: Worked,
    steps: &mut S,
) -> Result<Worked, AllocError>
    requires caller { HoldsCaller (S.fronts steps.old) 1 }
    requires few { length commands.now < 2 ^ 32 }
    requires commands { All (IsWorkFor (S.fronts steps.old).nodes) commands.now }
    requires worked { (old : Fronts) × WorksOn 1 old (S.fronts steps.old) commands.now worked }
{
    work_rest(alloc, commands, 1, worked, steps)
}

// Two answers of worker 1.
fn section(alloc: Global) -> Result<Section, AllocError> {
    let page = Answer {
        command: 0,
        node: 0,
        reply: Ok(Reply::Page(PageId(7))),
    };
    let refused = Answer {
        command: 1,
        node: 0,
        reply: Err(Refusal::NoPage),
    };
    let answers = vec![in alloc; page, refused]?;
    Ok(Section { worker: 1, answers })
}

// The result of a section with these answers, which is finished or has a rest.
fn worked(alloc: Global, rest: Option<Rest>) -> Result<Worked, AllocError> {
    let Section { worker: _, answers } = section(alloc)?;
    Ok(Worked { answers, rest })
}

// Their report.
fn report_of(rt: &impl Abort, alloc: Global) -> Result<Vec<u8>, AllocError> {
    let settings = Settings::new(1, 4, 1, Report::Answers).expect(rt, "settings");
    let section = section(alloc)?;
    let sections = vec![in alloc; section]?;
    report_text(alloc, &settings, &[], sections.as_slice())
}

#[test]
fn answers_in_vectors(rt: HostRuntime) {
    let report = report_of(&rt, rt.alloc());
    let want = b"1 1 page 7\n1 2 refused no-page\n".as_slice();
    assert!(rt; matches!(&report, Ok(text) if text.as_slice() == want));
}

// Whether another section with the same answers is the same.
fn is_same_again(rt: &impl Abort, alloc: Global, one: &Section) -> bool {
    let other = section(alloc).expect(rt, "room");
    let is_same = *one == other;
    drop(other);
    is_same
}

fn expect_compared(rt: &impl Abort, alloc: Global, one: &Section) {
    let none = Section {
        worker: 1,
        answers: Vec::new(alloc),
    };
    expect_equal(rt, *one != none, true);
    drop(none);
    expect_equal(rt, is_same_again(rt, alloc, one), true);
}

#[test]
fn sections_compare(rt: HostRuntime) {
    let one = section(rt.alloc()).expect(&rt, "room");
    expect_compared(&rt, rt.alloc(), &one);
    drop(one);
}

// Whether this is the result of a section that is finished, or has this rest.
fn is_result(rt: &impl Abort, alloc: Global, done: &Worked, rest: Option<Rest>) -> bool {
    let other = worked(alloc, rest).expect(rt, "room");
    let is_same = *done == other;
    drop(other);
    is_same
}

#[test]
fn what_became_of_sections_compares(rt: HostRuntime) {
    let alloc = rt.alloc();
    let rest = Rest {
        command: 2,
        steps: 0,
        so_far: ScanReply {
            taken: 0,
            split: 0,
            pinned: 0,
            back: 0,
            dropped: 0,
            used: 0,
        },
    };
    let done = worked(alloc, None).expect(&rt, "room");
    expect_equal(&rt, is_result(&rt, alloc, &done, None), true);
    expect_equal(&rt, is_result(&rt, alloc, &done, Some(rest)), false);
    drop(done);
}
