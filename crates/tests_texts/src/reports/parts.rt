//! The text of answers in parts.
use crate::reports::answers::{Section, done, sections_of};
use crate::reports::nodes::{EMPTY, nodes_of};
use std::alloc::Global;
use std::process::Abort;
use thp_history::{Outcome, PageId, Refusal, SubSet};
use thp_node::{Node, Recorder};
use thp_run::{AnswerParts, answers_text};
use thp_worker::{Reply, SectionLog};

// A part isn't full before it has so many bytes, and no line is longer than the room after them.
const FULL_PART: usize = 65_536;

const MAX_LINE: usize = 4_145;

// What is left of a text after its next part: nothing unless the part is full.
fn rest_after<'a>(rt: &impl Abort, text: &'a [u8], part: &[u8]) -> &'a [u8] {
    let Some(rest) = text.strip_prefix(part) else {
        panic!(rt; "a part that isn't next");
    };
    assert!(rt; part.len() >= FULL_PART || rest.is_empty());
    rest
}

// How many parts there are: each but the last is full, and they make the whole text.
fn count_parts<R: Recorder>(rt: &impl Abort, parts: &mut AnswerParts<R>, whole: &[u8]) -> usize {
    let mut rest = whole;
    for count in 0..100usize {
        parts.fill();
        let part = parts.part();
        assert!(rt; part.len() < FULL_PART + MAX_LINE);
        if part.is_empty() {
            assert!(rt; rest.is_empty());
            return count;
        }
        rest = rest_after(rt, rest, part);
    }
    panic!(rt; "too many parts")
}

fn count_parts_of(
    rt: &impl Abort,
    alloc: Global,
    nodes: &[Node],
    sections: &[SectionLog],
    whole: &[u8],
) -> usize {
    let mut parts = AnswerParts::new(alloc, nodes, sections).expect(rt, "memory for a part");
    count_parts(rt, &mut parts, whole)
}

fn count_parts_of_text(
    rt: &impl Abort,
    alloc: Global,
    nodes: &[Node],
    sections: &[SectionLog],
) -> usize {
    let whole = answers_text(alloc, nodes, sections).expect(rt, "memory for a text");
    count_parts_of(rt, alloc, nodes, sections, whole.as_slice())
}

// The text of the sections, which are on a node without a call, has so many parts.
fn expect_parts(rt: &impl Abort, alloc: Global, sections: &[Section<'_>], parts: usize) {
    let nodes = nodes_of(rt, alloc, &[EMPTY]);
    let sections = sections_of(rt, alloc, sections);
    assert!(rt; count_parts_of_text(rt, alloc, &nodes, &sections) == parts);
    drop(sections);
    drop(nodes);
}

// The answers to a worker's commands on the node.
fn section_of(worker: u32, replies: &[Result<Reply, Refusal>]) -> Section<'_> {
    Section {
        worker,
        node: 0,
        replies,
    }
}

// Every second subpage.
fn every_second() -> SubSet {
    let mut set = SubSet::empty();
    for i in 0..256u32 {
        set.insert(2 * i);
    }
    set
}

#[test]
fn no_answer_has_no_part(rt: HostRuntime) {
    let sections = [section_of(0, &[]), section_of(1, &[])];
    expect_parts(&rt, rt.alloc(), &sections, 0);
    expect_parts(&rt, rt.alloc(), &[], 0);
}

#[test]
fn a_few_answers_are_one_part(rt: HostRuntime) {
    let sections = [
        section_of(0, &[Ok(Reply::Page(PageId(0)))]),
        section_of(1, &[]),
        section_of(2, &[Err(Refusal::Gone)]),
    ];
    expect_parts(&rt, rt.alloc(), &sections, 1);
}

// 3 sections of 5,000 answers each: 261,679 bytes, so that parts end within sections and continue after their ends.
#[test]
fn many_answers_are_several_parts(rt: HostRuntime) {
    let replies = [Ok(Reply::Unit); 5000];
    let pages = [Ok(Reply::Page(PageId(u64::MAX))); 5000];
    let sections = [
        section_of(0, &replies),
        section_of(1, &pages),
        section_of(2, &replies),
    ];
    expect_parts(&rt, rt.alloc(), &sections, 4);
}

// The longest lines, of some 1,000 bytes each.
#[test]
fn long_lines_stand_in_one_part(rt: HostRuntime) {
    let replies = [done(Outcome::Freed, every_second()); 300];
    expect_parts(&rt, rt.alloc(), &[section_of(63, &replies)], 5);
}
