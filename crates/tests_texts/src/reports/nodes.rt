//! Nodes on which a row was run, and what is expected of a report on them.
use crate::reports::answers::{Section, sections_of};
use std::alloc::Global;
use std::process::Abort;
use thp_history::{PageId, Shape};
use thp_node::Node;
use thp_run::report_of_logs;
use thp_script::{Report, Settings};
use thp_worker::SectionLog;

// A call of caller 0, which succeeds. Pages are plain numbers, since a constant can lend no `PageId`.
#[derive(Clone, Copy)]
enum Step {
    Alloc,
    // of so many subpages of page 0 from the first on
    Write(u32),
    SplitPmd,
    // of page 0: the first subpage, and how many
    Unmap(u32, u32),
    Pin(u64),
    Scan,
}

// The shape of a node and the calls on it.
#[derive(Clone, Copy)]
pub(crate) struct Story {
    shape: Shape,
    steps: &'static [Step],
}

// 16 blocks of order 9; the shrinker looks for partly mapped pages alone.
const LARGE: Shape = Shape {
    blocks: 16,
    order: 9,
    underused: None,
};

// 4 blocks of order 2; the shrinker splits pages with more than one zero-filled subpage.
const SMALL: Shape = Shape {
    blocks: 4,
    order: 2,
    underused: Some(1),
};

// A node without a call.
pub(crate) const EMPTY: Story = Story {
    shape: LARGE,
    steps: &[],
};

pub(crate) const EMPTY_SMALL: Story = Story {
    shape: SMALL,
    steps: &[],
};

// Page 0 lost half of its mappings and was split.
pub(crate) const FIRST_RUN: Story = Story {
    shape: LARGE,
    steps: &[Step::Alloc, Step::SplitPmd, Step::Unmap(0, 256), Step::Scan],
};

// Page 0 was found in use, then lost a mapping, and was split with its other subpage that no one wrote.
pub(crate) const UNDERUSED_SCAN: Story = Story {
    shape: SMALL,
    steps: &[
        Step::Alloc,
        Step::Write(3),
        Step::Scan,
        Step::SplitPmd,
        Step::Unmap(0, 1),
        Step::Scan,
        Step::Unmap(3, 1),
        Step::Unmap(1, 2),
    ],
};

// Of two pages that no one unmapped the pinned one was dropped, and the underused one was split.
pub(crate) const UNDERUSED_PINNED: Story = Story {
    shape: SMALL,
    steps: &[
        Step::Alloc,
        Step::Alloc,
        Step::Write(2),
        Step::Pin(1),
        Step::Scan,
    ],
};

const PAGE: PageId = PageId(0);

// Makes a call, and returns whether it succeeds.
fn is_made(node: &mut Node, step: Step) -> bool {
    match step {
        Step::Alloc => node.alloc_page(0).is_ok(),
        Step::Write(count) => node.write(0, PAGE, 0, count).is_ok(),
        Step::SplitPmd => node.split_pmd(0, PAGE).is_ok(),
        Step::Unmap(first, count) => node.unmap_sub(0, PAGE, first, count).is_ok(),
        Step::Pin(page) => node.pin(0, PageId(page)).is_ok(),
        Step::Scan => node.scan(0, 8).is_ok(),
    }
}

fn make_all(rt: &impl Abort, node: &mut Node, steps: &[Step]) {
    for step in steps {
        assert!(rt; is_made(node, *step));
    }
}

fn node_of(rt: &impl Abort, alloc: Global, story: Story) -> Node {
    let mut node = Node::new(alloc, story.shape).expect(rt, "a node of this shape");
    make_all(rt, &mut node, story.steps);
    node
}

// The nodes of these stories.
pub(crate) fn nodes_of(rt: &impl Abort, alloc: Global, stories: &[Story]) -> Vec<Node> {
    let mut nodes = Vec::new(alloc);
    for story in stories {
        nodes.push(node_of(rt, alloc, *story)).expect(rt, "memory");
    }
    nodes
}

fn settings_of(rt: &impl Abort, nodes: &[Node], report: Report) -> Settings {
    let count = u32::try_from(nodes.len()).expect(rt, "a few nodes");
    Settings::new(count, 16, 63, report).expect(rt, "settings of these nodes")
}

fn expect_text(rt: &impl Abort, text: &[u8], want: &str) {
    let reported = str::from_utf8(text).expect(rt, "a report of text");
    assert!(rt; reported == want);
}

fn expect_report(
    rt: &impl Abort,
    alloc: Global,
    report: Report,
    nodes: &[Node],
    sections: &[SectionLog],
    want: &str,
) {
    let settings = settings_of(rt, nodes, report);
    let text = report_of_logs(alloc, &settings, nodes, sections).expect(rt, "memory for a report");
    expect_text(rt, text.as_slice(), want);
}

// The report on nodes of these stories and on these sections is this text.
pub(crate) fn expect(
    rt: &impl Abort,
    alloc: Global,
    report: Report,
    stories: &[Story],
    sections: &[Section<'_>],
    want: &str,
) {
    let nodes = nodes_of(rt, alloc, stories);
    let sections = sections_of(rt, alloc, sections);
    expect_report(rt, alloc, report, &nodes, &sections, want);
    drop(sections);
    drop(nodes);
}
