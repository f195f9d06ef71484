//! Tables of nodes.
use crate::drawing::nodes::{LARGE, PAGE, drawn_first_run, followed};
use std::alloc::Global;
use std::process::Abort;
use thp_drawing::{DrawnNode, IllegalEvent, put_table};
use thp_history::{Event, What};

// The output of a plain external program for the same events.
const TABLE: &[u8] =
    b"#node\tnode\tblocks\torder\tunderused\tlegal\twidth\tqueue-last\tin-batches-last\theld-last\tgiven-last\t\
splits-last\tunderused-splits-last\tpinned-tries-last\twait-last\tallocated-last\tpartly-mapped-last\tqueued-last\t\
in-batch-last\tsplit-last\tillegal-line\tillegal-event\n\
#column\tnode\tfirst\tlast\tqueue-least\tqueue-greatest\tin-batches-least\tin-batches-greatest\theld-least\t\
held-greatest\tgiven-least\tgiven-greatest\tsplits-least\tsplits-greatest\tunderused-splits-least\t\
underused-splits-greatest\tpinned-tries-least\tpinned-tries-greatest\twait-least\twait-greatest\t\
allocated-sum\tpartly-mapped-sum\tqueued-sum\tin-batch-sum\tsplit-sum\tstages\tcallers\n\
#stuck\tnode\tpage\tfinds\tsince\n\
node\t0\t16\t9\toff\t5\t1\t0\t0\t256\t256\t1\t0\t0\t0\t0\t0\t0\t0\t1\t-\t-\n\
column\t0\t0\t0\t0\t0\t0\t0\t0\t0\t0\t0\t0\t0\t0\t0\t0\t0\t0\t0\t0\t0\t0\t0\t0\t\
------------------------------------------------------------\t-\n\
column\t0\t1\t1\t0\t0\t0\t0\t512\t512\t0\t0\t0\t0\t0\t0\t0\t0\t0\t0\t1\t0\t0\t0\t0\t\
a-----------------------------------------------------------\t-\n\
column\t0\t2\t2\t0\t0\t0\t0\t512\t512\t0\t0\t0\t0\t0\t0\t0\t0\t0\t0\t1\t0\t0\t0\t0\t\
a-----------------------------------------------------------\t-\n\
column\t0\t3\t3\t1\t1\t0\t0\t512\t512\t0\t0\t0\t0\t0\t0\t0\t0\t1\t1\t0\t0\t1\t0\t0\t\
q-----------------------------------------------------------\t-\n\
column\t0\t4\t4\t0\t0\t1\t1\t512\t512\t0\t0\t0\t0\t0\t0\t0\t0\t2\t2\t0\t0\t0\t1\t0\t\
b-----------------------------------------------------------\t0\n\
column\t0\t5\t5\t0\t0\t0\t0\t256\t256\t256\t256\t1\t1\t0\t0\t0\t0\t0\t0\t0\t0\t0\t0\t1\t\
s-----------------------------------------------------------\t-\n";

fn table_of(rt: &impl Abort, alloc: Global, nodes: &[DrawnNode]) -> Vec<u8> {
    let mut text = Vec::new(alloc);
    put_table(&mut text, nodes).expect(rt, "memory");
    text
}

#[test]
fn table_of_the_first_run(rt: HostRuntime) {
    let text = table_of(&rt, rt.alloc(), &[drawn_first_run(&rt, rt.alloc())]);
    assert!(rt; text.as_slice() == TABLE);
}

// The lines of a node whose first event, in line 3, takes a page that was never allocated.
const ILLEGAL: &[u8] =
    b"node\t0\t16\t9\toff\t0\t1\t0\t0\t0\t0\t0\t0\t0\t0\t0\t0\t0\t0\t0\t3\t0 taken 0\n\
column\t0\t0\t0\t0\t0\t0\t0\t0\t0\t0\t0\t0\t0\t0\t0\t0\t0\t0\t0\t0\t0\t0\t0\t0\t\
------------------------------------------------------------\t-\n";

// What is drawn of that node.
fn illegal_node(rt: &impl Abort, alloc: Global) -> DrawnNode {
    let node = followed(rt, alloc, &[]);
    let numbers = node.numbers();
    let illegal = IllegalEvent {
        line: 3,
        event: Event {
            caller: 0,
            what: What::Taken { page: PAGE },
        },
    };
    DrawnNode::from_columns(
        LARGE,
        node.into_columns(),
        numbers,
        Some(illegal),
        Vec::new(alloc),
    )
}

#[test]
fn table_reports_the_illegal_event(rt: HostRuntime) {
    let text = table_of(&rt, rt.alloc(), &[illegal_node(&rt, rt.alloc())]);
    assert!(rt; text.as_slice().ends_with(ILLEGAL));
}
