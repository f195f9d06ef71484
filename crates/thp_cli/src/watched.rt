//! A reader or a writer that records whether it failed.
ghost use Rattle.std.specs.Prelude.{◌≡◌, ◌++◌, ◌∷◌, [], length, true, false, is_some, IfSome, IfNone};
ghost use Rattle.std.specs.Io.KnownBytes.{Keeps};
ghost use Rattle.thp_cli.specs.Devices.{Reads, Writes};
ghost use Rattle.thp_cli.specs.declared.calls.DeviceCall.TheVariants as call;

use crate::calls::DeviceCall;
use std::io::{Read, Write};
use std::marker::Model;
use thp_history::Trace;

/// A reader or a writer, with a flag that is set after a call of it has failed. Contracts also see its calls.
#[derive(Drop)]
pub struct Watched<D> {
    device: D,
    failed: bool,
    // has no bytes
    calls: Trace<DeviceCall>,
}

impl<D> Model for Watched<D> {
    ghost use Rattle.thp_cli.specs.Watch.{Watch};

    ghost Value = { Watch D };

    ghost view = { λ w. record { device = w.device; failed = w.failed; calls = w.calls } };
}

impl<D> Watched<D> {
    /// Wraps a device that has not failed.
    pub fn new(device: D) -> Watched<D>
        ensures { result ≡ record { device = device; failed = false; calls = [] } }
    {
        Watched {
            device,
            failed: false,
            calls: Trace::new(),
        }
    }

    /// Returns the device.
    pub fn into_inner(self) -> D
        ensures { result ≡ self.device }
    {
        self.device
    }

    /// Returns whether a call of the device has failed.
    pub fn failed(&self) -> bool
        ensures { result ≡ self.now.failed }
    {
        self.failed
    }
}

impl<D> Watched<D> {
    /// Records the result of a call, and sets the flag if it failed.
    fn seen<A>(&mut self, answer: Option<A>, call: DeviceCall) -> Option<A>
        ensures answer { result ≡ answer }
        ensures device { self.new.device ≡ self.old.device }
        ensures calls { self.new.calls ≡ self.old.calls ++ call ∷ [] }
        ensures failed { IfNone result (self.new.failed ≡ true) }
        ensures flag_stays { IfSome result (λ _. self.new.failed ≡ self.old.failed) }
    {
        self.calls.push(&call);
        if answer.is_none() {
            self.failed = true;
        }
        answer
    }
}

impl<D: Read> Watched<D> {
    /// Reads once from the device, and returns the number of bytes. `None`, with the flag set, exactly if the read failed.
    pub fn read(&mut self, buf: &mut [u8]) -> Option<usize>
        ensures bytes { Reads (D.remaining self.old.device) (D.remaining self.new.device) result buf.new }
        ensures calls { self.new.calls ≡ self.old.calls ++ call.Read (length buf.new) result ∷ [] }
        ensures failed { IfNone result (self.new.failed ≡ true) }
        ensures flag_stays { IfSome result (λ _. self.new.failed ≡ self.old.failed) }
    {
        let count = self.device.read(buf).ok();
        self.seen(
            count,
            DeviceCall::Read {
                room: buf.len(),
                given: count,
            },
        )
    }
}

impl<D: Write> Watched<D> {
    /// Writes once to the device, and returns the number of bytes taken. `None`, with the flag set, exactly if the write failed
    /// or took no byte.
    pub fn write(&mut self, buf: &[u8]) -> Option<usize>
        ensures bytes { Writes (D.contents self.old.device) (D.contents self.new.device) result buf.now }
        ensures calls { self.new.calls ≡ self.old.calls ++ call.Write (length buf.now) result ∷ [] }
        ensures failed { IfNone result (self.new.failed ≡ true) }
        ensures flag_stays { IfSome result (λ _. self.new.failed ≡ self.old.failed) }
    {
        let count = match self.device.write(buf) {
            Ok(count) if count > 0 => Some(count),
            _ => None,
        };
        self.seen(
            count,
            DeviceCall::Write {
                offered: buf.len(),
                taken: count,
            },
        )
    }

    /// Flushes the device once. `None`, with the flag set, exactly if it failed.
    pub fn flush(&mut self) -> Option<()>
        ensures bytes { Keeps (D.contents self.old.device) (D.contents self.new.device) }
        ensures calls { self.new.calls ≡ self.old.calls ++ call.Flush (is_some result) ∷ [] }
        ensures failed { IfNone result (self.new.failed ≡ true) }
        ensures flag_stays { IfSome result (λ _. self.new.failed ≡ self.old.failed) }
    {
        let flushed = self.device.flush().ok();
        self.seen(flushed, DeviceCall::Flush(flushed.is_some()))
    }
}
