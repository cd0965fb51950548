// Reading and writing whole buffers. A signal loses nothing, and a stream that does not block is waited for.
ghost use Rattle.std.specs.Prelude.{◌<◌, length, take, IfOk, OnOk, IsTrue, IsErr};
ghost use Rattle.std.specs.Io.{ReadsAtMost};
ghost use Rattle.std.specs.Io.KnownBytes.{Appends, Consumes, IsAtEnd};

use std::io::{Error, ErrorKind, Read, Result, Write};
use std::rt::Clock;
use std::thread;
use std::time::Duration;

// How long a stream that does not block is left alone.
const PAUSE_MILLIS: u64 = 1;

// Whether a call is made again: it failed, and a signal came first or there is nothing to be had yet.
fn again(clock: &impl Clock, call: &Result<usize>) -> bool
    ensures { IsTrue result → IsErr call.now }
{
    match call.as_ref().map_err(Error::kind) {
        Err(ErrorKind::Interrupted) => true,
        Err(ErrorKind::WouldBlock) => {
            thread::sleep(clock, Duration::from_millis(PAUSE_MILLIS));
            true
        }
        _ => false,
    }
}

fn gave_up() -> Error {
    Error::new(ErrorKind::TimedOut, "gave up after 2^64 tries")
}

// A stream, and the clock by which it is waited for.
#[derive(Drop)]
pub(crate) struct Waited<'c, C, S> {
    pub clock: &'c C,
    pub stream: S,
}

impl<C: Clock, R: Read> Read for Waited<'_, C, R> {
    ghost remaining = { λ w. R.remaining w.stream };

    // One read that moves bytes, ends or fails. It counts its tries, so that it ends, as `conceal_all` counts records.
    fn read(&mut self, part: &mut [u8]) -> Result<usize> {
        for _ in 0..u64::MAX {
            let call = self.stream.read(part);
            if !again(self.clock, &call) {
                return call;
            }
        }
        Err(gave_up())
    }
}

impl<C: Clock, W: Write> Write for Waited<'_, C, W> {
    ghost contents = { λ w. W.contents w.stream };

    // One write that moves bytes or fails. Twice the loop: of a stream that a closure borrows and changes its caller learns nothing.
    fn write(&mut self, part: &[u8]) -> Result<usize> {
        // By count, as in `read`.
        for _ in 0..u64::MAX {
            let call = self.stream.write(part);
            if !again(self.clock, &call) {
                return call;
            }
        }
        Err(gave_up())
    }

    fn flush(&mut self) -> Result<()> {
        self.stream.flush()
    }
}

// Reads until buf is full or the input ends; how many bytes came, which the library's `read_exact` does not say.
pub(crate) fn fill<R: Read>(input: &mut R, buf: &mut [u8]) -> Result<usize>
    ensures bound { ReadsAtMost result buf.new }
    ensures bytes { IfOk result (λ n. Consumes (R.remaining input.old) (R.remaining input.new) (take n buf.new)) }
    ensures end { IfOk result (λ n. n < length buf.old → IsAtEnd (R.remaining input.new)) }
{
    let n = buf.len();
    let mut done: usize = 0;
    // By count: how many bytes came is the answer.
    while done < n {
        let more = input.read(&mut buf[done..])?;
        if more == 0 {
            return Ok(done);
        }
        done += more;
    }
    Ok(done)
}

// Writes all of buf. Beside the library's own: where the output takes nothing, its error would say so in other words.
pub(crate) fn write_all<W: Write>(output: &mut W, buf: &[u8]) -> Result<()>
    ensures { OnOk result (Appends (W.contents output.old) (W.contents output.new) buf.now) }
{
    let mut rest = buf;
    // What is left, and no iterator: how much of it a call takes, the call says.
    while !rest.is_empty() {
        let more = output.write(rest)?;
        if more == 0 {
            return Err(Error::from(ErrorKind::WriteZero));
        }
        rest = &rest[more..];
    }
    Ok(())
}
