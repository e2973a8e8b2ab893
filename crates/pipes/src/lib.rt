// Pipes: bytes read and written in full, over std's readers and writers. What would block is waited for, what a signal interrupts is tried again, and any
// other failure is an error, told apart from the end of the input.
//
// Where the bytes that a reader has left are known, a contract says which were read; those here also say how much of a buffer may be looked at afterwards. A
// proved loop has to end, and nothing says that bytes ever move: tries are counted, up to a number that no run uses up.
#![tactic(auto)]

mod again;

ghost use Rattle.std.specs.Prelude.{◌≤◌, length, ◌≡◌, IfOk, IsOk};
ghost use Rattle.std.specs.Io.{ReadsAtMost};
ghost use Rattle.std.specs.Io.KnownBytes.{ReadConsumes};
ghost use Rattle.pipes.specs.Filled.{Filled};

use std::io;
use std::io::{ErrorKind, Read, Write};
use std::rt::Clock;

// A read that failed before the buffer was full, and how many bytes had come by then.
#[derive(Clone, Copy, Debug, PartialEq, Eq)]
pub struct Short {
    pub count: usize,
}

// Reads what there is, once there is something: no byte means that the input has ended.
pub fn some<C: Clock, R: Read>(clock: &C, input: &mut R, buf: &mut [u8]) -> io::Result<usize>
    ensures counts { ReadsAtMost result buf.new }
    ensures bytes { ReadConsumes (R.remaining input.old) (R.remaining input.new) result buf.new }
{
    for _read in 0..u64::MAX {
        let got = input.read(buf);
        if !again::worth(clock, got) {
            return got;
        }
    }
    Err(io::Error::from(ErrorKind::WouldBlock))
}

// Reads until the buffer is full, the input ends or a read fails. `done` goes on by what a read gave, so that no `for` counts it.
pub fn take<C: Clock, R: Read>(clock: &C, input: &mut R, buf: &mut [u8]) -> Result<usize, Short>
    ensures { Filled result buf.new }
{
    let mut done: usize = 0;
    while done < buf.len() {
        let Ok(count) = some(clock, input, &mut buf[done..]) else {
            return Err(Short { count: done });
        };
        if count == 0 {
            return Ok(done);
        }
        done += count;
    }
    Ok(done)
}

// Writes all of the bytes; where that fails, some may have been written.
pub fn give<C: Clock, W: Write>(clock: &C, output: &mut W, bytes: &[u8]) -> io::Result<()>
    ensures { length bytes.now ≡ 0 → IsOk result }
{
    let mut rest = bytes;
    while !rest.is_empty() {
        let n = part(clock, output, rest)?;
        if n == 0 {
            return Err(io::Error::from(ErrorKind::WriteZero));
        }
        rest = &rest[n..];
    }
    Ok(())
}

// Writes as much as is taken, once something is. The tries are those of `some`: one function for both would take a closure that lends a stream and bytes, and
// be no shorter.
fn part<C: Clock, W: Write>(clock: &C, output: &mut W, bytes: &[u8]) -> io::Result<usize>
    ensures { IfOk result (λ n. n ≤ length bytes.now) }
{
    for _write in 0..u64::MAX {
        let put = output.write(bytes);
        if !again::worth(clock, put) {
            return put;
        }
    }
    Err(io::Error::from(ErrorKind::WouldBlock))
}
