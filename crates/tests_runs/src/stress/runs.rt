//! Runs of generated scripts, whose workers may take turns.
use crate::stress::scripts::{ORDERS, Plan, UNDERUSED, script};
use std::alloc::Global;
use std::process::Abort;
use std::sync::atomic::{AtomicU32, Ordering};
use std::thread;
use std::thread::Threads;
use std::time::{Clock, Duration};
use thp_run::{RunResult, Script, read_script, run_script};
use thp_script::{Report, Settings};
use thp_worker::Gate;

// Lets workers execute their commands one at a time, at most two in a row before another's, if they take turns at all. A worker
// that waits long continues.
#[derive(Drop)]
struct Turns<'r, R> {
    rt: &'r R,
    take_turns: bool,
    // of each worker
    commands: u32,
    // whose turn it is, 0 for nobody's
    turn: AtomicU32,
}

impl<R: Clock> Turns<'_, R> {
    fn rest(&self) {
        thread::sleep(self.rt, Duration::from_micros(1));
    }

    fn await_turn(&self, worker: u32) {
        for _ in 0..100u32 {
            let taken = self
                .turn
                .compare_exchange(0, worker, Ordering::SeqCst, Ordering::SeqCst);
            if taken.is_ok() {
                return;
            }
            self.rest();
        }
        self.turn.store(worker, Ordering::SeqCst);
    }
}

impl<R: Clock> Gate for Turns<'_, R> {
    fn pass(&self, worker: u32, index: u32) {
        if !self.take_turns {
            return;
        }
        if self.turn.load(Ordering::SeqCst) == worker {
            self.turn.store(0, Ordering::SeqCst);
        }
        if index % 2 == 0 {
            self.rest();
        }
        if index < self.commands {
            self.await_turn(worker);
        }
    }
}

// The nodes, blocks and workers of a plan.
pub(crate) fn settings_of(rt: &impl Abort, plan: &Plan) -> Settings {
    let settings = Settings::new(8, plan.blocks, plan.workers, Report::Answers);
    let settings = settings.expect(rt, "within the limits");
    let settings = settings.with_orders(ORDERS.as_slice()).expect(rt, "orders");
    settings
        .with_underused(UNDERUSED.as_slice())
        .expect(rt, "thresholds")
}

// The script of a plan, and the result of its run.
pub(crate) fn ran<R: Threads + Clock + Abort + Sync>(
    rt: &R,
    alloc: Global,
    plan: &Plan,
    settings: &Settings,
) -> (Script, RunResult) {
    let text = script(alloc, plan).expect(rt, "room");
    let commands = read_script(alloc, settings, text.as_bytes()).expect(rt, "a script");
    let script = read_script(alloc, settings, text.as_bytes()).expect(rt, "a script");
    let gate = Turns {
        rt,
        take_turns: plan.take_turns,
        commands: plan.commands,
        turn: AtomicU32::new(0),
    };
    let ran = run_script(rt, alloc, settings, script, &gate).expect(rt, "memory");
    (commands, ran)
}
