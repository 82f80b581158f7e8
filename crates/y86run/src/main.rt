// The program: reads a raw image from standard input, and hands over its report, which `report` makes.

#![tactic(auto)]

use std::io;
use std::io::Write;

// Any image's report. What differs from `y86peaks`, the sizes and the work, is here; the rest is in `input`.
fn hand_over<W: Write>(image: &mut [u8], to: &mut W) -> io::Result<()> {
    let mut out = [0u8; 652];
    let n = report::report_image(image, &mut out);
    to.write_all(&out[..n])
}

// One byte more than the longest image is read, so that a longer one is seen to be too long.
fn main(rt: HostRuntime) {
    input::run(
        "y86run",
        &mut [0u8; 4097],
        &mut rt.stdin(),
        &mut rt.stdout(),
        &mut rt.stderr(),
        hand_over,
    );
}
