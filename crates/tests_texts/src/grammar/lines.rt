//! Settings, words of a command line, and lists.
use std::alloc::Global;
use std::process::Abort;
use thp_cli::{Line, read_line};
use thp_script::{Command, Op, Report, Sequence, Settings, read_orders, read_underused};

// Whether there are settings of this many nodes, blocks and workers.
fn are_settings(nodes: u32, blocks: u32, workers: u32) -> bool {
    Settings::new(nodes, blocks, workers, Report::Totals).is_some()
}

// The request of these words, if they are accepted.
fn line_of<'a>(alloc: Global, words: &'a [&'a str]) -> Option<Line<'a>> {
    read_line(alloc, words).ok()
}

// Whether these words leave all defaults.
fn is_default(alloc: Global, words: &[&str]) -> bool {
    matches!(
        line_of(alloc, words),
        Some(Line {
            nodes: 1,
            blocks: 16,
            workers: 1,
            report: Report::Totals,
            orders: None,
            underused: None,
            check: false,
        })
    )
}

#[test]
fn limits_and_constructors(rt: HostRuntime) {
    for (nodes, blocks, workers, are) in [
        (9, 16, 1, false),
        (1, 0, 1, false),
        (1, 4097, 1, false),
        (1, 16, 64, false),
        (1, 16, 0, false),
        (0, 16, 1, false),
        (1, 4096, 1, true),
    ] {
        assert!(rt;
            are_settings(nodes, blocks, workers) == are,
            "{nodes} {blocks} {workers}"
        );
    }
    assert!(rt; is_default(rt.alloc(), ["thpsplit"].as_slice()));
}

// The settings with these orders, if they are valid.
fn with_orders(settings: Settings, orders: &[u32]) -> Option<Settings> {
    settings.with_orders(orders)
}

// The settings with these thresholds, if they are valid.
fn with_underused(settings: Settings, thresholds: &[Option<u32>]) -> Option<Settings> {
    settings.with_underused(thresholds)
}

#[test]
fn orders_and_thresholds_of_two_nodes(rt: HostRuntime) {
    let two = Settings::new(2, 16, 63, Report::Totals).expect(&rt, "within the limits");
    let orders: [(&[u32], bool); 4] = [
        (&[2, 9], true),
        (&[2], false),
        (&[2, 10], false),
        (&[1, 9], false),
    ];
    for (list, fits) in orders {
        assert!(rt; with_orders(two, list).is_some() == fits);
    }
    let thresholds: [(&[Option<u32>], bool); 3] = [
        (&[Some(511), None], true),
        (&[Some(512), None], false),
        (&[None], false),
    ];
    for (list, fits) in thresholds {
        assert!(rt; with_underused(two, list).is_some() == fits);
    }
    let low = with_underused(two, [None, Some(4)].as_slice()).expect(&rt, "low thresholds");
    assert!(rt; with_orders(low, [2, 3].as_slice()).is_some());
    assert!(rt; with_orders(low, [2, 2].as_slice()).is_none());
}

// Whether these words set the largest number of blocks and a report of journals.
fn sets_blocks_and_report(alloc: Global, words: &[&str]) -> bool {
    matches!(
        line_of(alloc, words),
        Some(Line {
            blocks: 4096,
            report: Report::Journal,
            ..
        })
    )
}

// Whether these words set the largest numbers of nodes and workers, both lists and the check.
fn sets_nodes_and_lists(alloc: Global, words: &[&str]) -> bool {
    matches!(
        line_of(alloc, words),
        Some(Line {
            nodes: 8,
            workers: 63,
            orders: Some("2,9"),
            underused: Some("off"),
            check: true,
            ..
        })
    )
}

fn expect_refused(rt: &impl Abort, alloc: Global) {
    let refused: [&[&str]; 5] = [
        &["thpsplit", "--blocks", "4097"],
        &["thpsplit", "--nodes", "9"],
        &["thpsplit", "--workers", "64"],
        &["thpsplit", "--report", "none"],
        &["thpsplit", "--check", "x"],
    ];
    for words in refused {
        assert!(rt; line_of(alloc, words).is_none());
    }
}

#[test]
fn words_of_a_line(rt: HostRuntime) {
    let alloc = rt.alloc();
    let words = ["thpsplit", "--blocks", "4096", "--report=journal"];
    assert!(rt; sets_blocks_and_report(alloc, words.as_slice()));
    expect_refused(&rt, alloc);
    let words = [
        "thpsplit",
        "--nodes",
        "8",
        "--workers",
        "63",
        "--orders",
        "2,9",
        "--underused=off",
        "--check",
    ];
    assert!(rt; sets_nodes_and_lists(alloc, words.as_slice()));
}

#[test]
fn sequence_of_a_vector(rt: HostRuntime) {
    let mut commands: Sequence<Command> = Sequence::from_vec(Vec::new(rt.alloc()));
    let pushed = commands.push(Command {
        node: 0,
        op: Op::Alloc,
    });
    assert!(rt; pushed.is_ok());
    assert!(rt; commands.into_vec().len() == 1);
}

// Whether this is a list of orders.
fn are_orders(text: &str) -> bool {
    read_orders(text).is_some()
}

// Whether this is a list of thresholds.
fn are_thresholds(text: &str) -> bool {
    read_underused(text).is_some()
}

#[test]
fn lists_of_orders(rt: HostRuntime) {
    let read = read_orders("2,9");
    assert!(rt; matches!(&read, Some(orders) if orders.as_slice() == [2, 9].as_slice()));
    for (text, are) in [
        ("", false),
        (",", false),
        ("2,", false),
        (",2", false),
        ("2,,9", false),
        ("02", false),
        ("2 9", false),
        ("x", false),
        ("1,1,1,1,1,1,1,1,1", false),
        ("4294967296", false),
        ("1,1,1,1,1,1,1,1", true),
        ("4294967295", true),
    ] {
        assert!(rt; are_orders(text) == are, "{text}");
    }
}

#[test]
fn lists_of_thresholds(rt: HostRuntime) {
    let read = read_underused("off,0,511");
    let wanted = [None, Some(0), Some(511)];
    assert!(rt; matches!(&read, Some(list) if list.as_slice() == wanted.as_slice()));
    for text in ["", "of", "off,", "offf", "OFF", "-1", "0x1", "off off"] {
        assert!(rt; !are_thresholds(text), "{text}");
    }
}
