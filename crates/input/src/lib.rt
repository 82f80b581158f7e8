// A program from bytes to bytes: standard input, read until it ends, so that a read that fails is not taken for the end, and what is made of it.

#![tactic(auto)]

ghost use Rattle.std.specs.Prelude.{◌≡◌, ◌≤◌, ◌⊎◌, IfOk, length};
ghost use Rattle.std.specs.Io.{ReadsAtMost};

use std::io::{ErrorKind, Read, Write};
use std::{fmt, io};

// One read, tried again where a signal interrupted it before a byte came. A proved loop has to end, so it counts down, from a number that
// no run uses up.
fn read_some<R: Read>(reader: &mut R, buffer: &mut [u8]) -> io::Result<usize>
    ensures { ReadsAtMost result buffer.new }
{
    for _ in 0..u64::MAX {
        match reader.read(buffer) {
            Err(e) if e.kind() == ErrorKind::Interrupted => {}
            answer => return answer,
        }
    }
    Err(ErrorKind::Interrupted.into())
}

// Reads until the input ends, the buffer is full or a read fails: how many bytes were read.
pub fn read_input<R: Read>(reader: &mut R, buffer: &mut [u8]) -> io::Result<usize>
    ensures { IfOk result (λ n. n ≤ length buffer.old) }
{
    let mut done: usize = 0;
    // No index counted by hand: a read takes as many bytes as there are.
    while done < buffer.len() {
        let more = read_some(reader, &mut buffer[done..])?;
        if more == 0 {
            break;
        }
        done += more;
    }
    Ok(done)
}

// Why a program has not handed over its answer.
#[derive(Clone, Copy)]
enum Failure {
    Unread,
    Unwritten,
}

impl fmt::Display for Failure {
    fn fmt<W: fmt::Write>(&self, f: &mut fmt::Formatter<W>) -> fmt::Result {
        match self {
            Failure::Unread => write!(f, "standard input cannot be read"),
            Failure::Unwritten => write!(f, "standard output cannot be written"),
        }
    }
}

// Reads into the buffer, and hands what was read to `work`, which writes its answer: not where a read fails.
fn answer<R: Read, W: Write, F: FnOnce(&mut [u8], &mut W) -> io::Result<()>>(
    buffer: &mut [u8],
    input: &mut R,
    output: &mut W,
    work: F,
) -> Result<(), Failure>
    requires { F.IsAlwaysCallable work }
    ensures { (output.new ≡ output.old) ⊎ ((x : _) × (y : _) × (r : _) × (x' : _) × (y' : _)
        × (length x.now ≤ length buffer.old) × (y.now ≡ output.old) × (y'.now ≡ output.new) × F.post work x y r x' y') }
{
    let n = read_input(input, buffer).map_err(|_| Failure::Unread)?;
    work(&mut buffer[..n], output).map_err(|_| Failure::Unwritten)
}

// A failure's line, in one write, so that what another process tells there does not come between. What passes 80 bytes is cut off.
fn tell<E: Write>(name: &str, failure: Failure, errors: &mut E) -> io::Result<()> {
    let mut line = [0u8; 80];
    let mut free = &mut line[..];
    let _ = writeln!(free, "{name}: {failure}");
    let told = 80usize.saturating_sub(free.len());
    errors.write_all(&line[..told])
}

// The whole program; a failure is told on the third stream.
pub fn run<R: Read, W: Write, E: Write, F: FnOnce(&mut [u8], &mut W) -> io::Result<()>>(
    name: &str,
    buffer: &mut [u8],
    input: &mut R,
    output: &mut W,
    errors: &mut E,
    work: F,
)
    requires { F.IsAlwaysCallable work }
    ensures { (output.new ≡ output.old) ⊎ ((x : _) × (y : _) × (r : _) × (x' : _) × (y' : _)
        × (length x.now ≤ length buffer.old) × (y.now ≡ output.old) × (y'.now ≡ output.new) × F.post work x y r x' y') }
{
    if let Err(failure) = answer(buffer, input, output, work) {
        drop(tell(name, failure, errors));
    }
}
