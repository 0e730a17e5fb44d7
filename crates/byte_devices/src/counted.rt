//! A reader or a writer with three counts: its calls, those that failed, and the bytes.
//!
//! A call that can answer `Device` (68) takes one of these, so that the counts show afterwards
//! whether the device failed. The counts assume nothing of the device inside.

ghost use Rattle.std.specs.{Prelude.{◌≡◌, IfSome, None}, Io.{ReadsAtMost, WritesAtMost}};
ghost use Rattle.std.specs.Io.KnownBytes.{ReadConsumes, WriteAppends};
ghost use Rattle.byte_devices.specs.Device.{device_of, calls_of, faults_of, passed_of, counted_on};
ghost use Rattle.byte_devices.specs.{Device.{seen}, Reading.{HasLent}};
ghost use Rattle.byte_devices.specs.Device.{faults_after_read, faults_after_write, passed_after};

use crate::lends::Lends;
use std::io;
use std::io::{Read, Write};

/// A reader or a writer around another one, `device`. Its counts begin at 0 and stop at 2^64 - 1.
#[derive(Drop)]
pub struct Counted<T> {
    device: T,
    calls: u64,
    faults: u64,
    passed: u64,
}

// Adds to a count, which stops at its greatest value.
fn count_up(count: &mut u64, by: u64)
    ensures { count.new ≡ counted_on count.old by }
{
    *count = count.saturating_add(by);
}

impl<T> Counted<T> {
    /// Wraps a device, with all counts at 0. Takes no memory.
    pub fn new(device: T) -> Counted<T>
        ensures device { device_of result ≡ device }
        ensures calls { calls_of result ≡ 0 }
        ensures faults { faults_of result ≡ 0 }
        ensures passed { passed_of result ≡ 0 }
    {
        Counted {
            device,
            calls: 0,
            faults: 0,
            passed: 0,
        }
    }

    /// How many calls of `read` or `write` were made, including those that failed. Takes no memory.
    pub fn calls(&self) -> u64
        ensures { result ≡ calls_of self.now }
    {
        self.calls
    }

    /// How many calls answered an error, or were given bytes to write and took none. Takes no
    /// memory.
    pub fn faults(&self) -> u64
        ensures { result ≡ faults_of self.now }
    {
        self.faults
    }

    /// How many bytes were read or written. Takes no memory.
    pub fn passed(&self) -> u64
        ensures { result ≡ passed_of self.now }
    {
        self.passed
    }

    /// The device inside. A call on it is not counted.
    pub fn device(&self) -> &T
        ensures { result.now ≡ device_of self.now }
    {
        &self.device
    }

    /// Gives the device back and drops the counts.
    pub fn into_inner(self) -> T
        ensures { result ≡ device_of self }
    {
        let Counted { device, .. } = self;
        device
    }
}

impl<R: Read> Counted<R> {
    /// Calls `read` of the device once, and answers what it answers: the number of bytes that it
    /// put at the front of `buf`, or its error. An error counts as a fault; the bytes count as
    /// passed.
    pub fn read(&mut self, buf: &mut [u8]) -> io::Result<usize>
        // What every reader ensures for a read.
        ensures bound { ReadsAtMost result buf.new }
        ensures bytes { ReadConsumes (R.remaining (device_of self.old))
            (R.remaining (device_of self.new)) result buf.new }

        ensures calls { calls_of self.new ≡ counted_on (calls_of self.old) 1 }
        ensures faults { faults_of self.new ≡ faults_after_read (faults_of self.old) result }
        ensures passed { passed_of self.new ≡ passed_after (passed_of self.old) result }
    {
        count_up(&mut self.calls, 1);
        let answer = self.device.read(buf);
        match answer {
            Ok(n) => count_up(&mut self.passed, n as u64),
            Err(_) => count_up(&mut self.faults, 1),
        }
        answer
    }
}

impl<R: Lends> Counted<R> {
    /// Asks the device for the next `count` bytes, lent for as long as the process lives, and
    /// answers what it answers. The bytes count as passed. `None` if the device does not lend them;
    /// nothing has changed then. No call and no fault is counted. Takes no memory of its own.
    pub fn lend(&mut self, count: u64) -> Option<&'static [u8]>
        ensures lent { IfSome result
            (λ bytes. HasLent (seen (R.remaining (device_of self.old)) self.old) count
            (seen (R.remaining (device_of self.new)) self.new) bytes.now) }
        ensures none { result ≡ None → self.new ≡ self.old }
    {
        let bytes = self.device.lend(count)?;
        count_up(&mut self.passed, count);
        Some(bytes)
    }
}

impl<W: Write> Counted<W> {
    /// Calls `write` of the device once, and answers what it answers: the number of bytes that it
    /// took from the front of `buf`, or its error. An error counts as a fault, and so does a write
    /// that is given bytes and takes none. The bytes that it took count as passed.
    pub fn write(&mut self, buf: &[u8]) -> io::Result<usize>
        // What every writer ensures for a write.
        ensures bound { WritesAtMost result buf.now }
        ensures bytes { WriteAppends (W.contents (device_of self.old))
            (W.contents (device_of self.new)) result buf.now }

        ensures calls { calls_of self.new ≡ counted_on (calls_of self.old) 1 }
        ensures faults { faults_of self.new
            ≡ faults_after_write (faults_of self.old) buf.now result }
        ensures passed { passed_of self.new ≡ passed_after (passed_of self.old) result }
    {
        count_up(&mut self.calls, 1);
        let answer = self.device.write(buf);
        match answer {
            Ok(n) => {
                count_up(&mut self.passed, n as u64);
                if n == 0 && !buf.is_empty() {
                    count_up(&mut self.faults, 1);
                }
            }
            Err(_) => count_up(&mut self.faults, 1),
        }
        answer
    }
}
