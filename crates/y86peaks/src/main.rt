// The program for filed peaks (#114): reads a line and a raw image from standard input, and hands over the day, which `dayreport` makes.

#![tactic(auto)]

use std::io;
use std::io::Write;

// The day of any line and image. What differs from `y86run`, the sizes and the work, is here; the rest is in `input`.
fn hand_over<W: Write>(bytes: &mut [u8], to: &mut W) -> io::Result<()> {
    let mut out = [0u8; 144];
    let n = dayreport::report_input(bytes, &mut out);
    to.write_all(&out[..n])
}

// The longest first line, 63 bytes, and one byte more than the longest image are read, so that a longer one is seen to be too long.
fn main(rt: HostRuntime) {
    input::run(
        "y86peaks",
        &mut [0u8; 4160],
        &mut rt.stdin(),
        &mut rt.stdout(),
        &mut rt.stderr(),
        hand_over,
    );
}
