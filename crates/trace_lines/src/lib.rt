// A line of a trace: what is its target, how it is written, and whether a text begins with it.

#![tactic(auto)]

ghost use Rattle.std.specs.Prelude.{◌≡◌, List, ℕ};
ghost use Rattle.text.specs.Decimal.{decimal};
ghost use Rattle.text.specs.Put.{Put, written};
ghost use Rattle.report_lines.specs.Lines.{line};
ghost use Rattle.trace.specs.Line.{target_of, target_text, trace_line};
ghost use Rattle.trace.specs.Verdict.{begins as begins_of};

use isa::decoding::{is_bad, loaded_target, result_target};
use machine::{Accessed, NONE};
use register_lines::put_named;
use report_lines::put_number;
use text::Writer;

// The loaded word's target goes before the result's; 15 for none.
#[tactic(auto, using(crate::proofs::Ways::loaded))]
pub fn target_of(w: Accessed) -> u8
    ensures { result ≡ target_of w }
{
    let i = w.instruction;
    let status = w.status;
    if is_bad(status) {
        return NONE;
    }
    let loaded = loaded_target(i);
    if loaded < NONE {
        return loaded;
    }
    result_target(i, w.holds)
}

// A line of the trace: which instruction, from 1, where it stands, the cycle of its end, its target, and the target's value afterwards.
#[derive(Clone, Copy)]
pub struct Line {
    pub number: u64,
    pub address: u64,
    pub cycle: u64,
    pub target: u8,
    pub value: u64,
}

// The target's name, or a dash, and its value.
fn put_target(out: &mut Writer<'_>, target: u8, value: u64)
    ensures { Put (line (target_text target) (decimal value)) out.old out.new }
{
    if target < NONE {
        put_named(out, usize::from(target), value);
    } else {
        put_number(out, b"-", value);
    }
}

pub fn put_line(out: &mut Writer<'_>, line: Line)
    ensures { Put (trace_line line.number line.address line.cycle line.target line.value) out.old out.new }
{
    out.field(line.number, b'\t');
    out.field(line.address, b'\t');
    out.field(line.cycle, b'\t');
    put_target(out, line.target, line.value);
}

// No line is longer than 88 bytes, so that it always fits.
pub fn write_line(line: Line, out: &mut [u8; 88]) -> usize
    ensures { ◌≡◌ {A = ℕ × List ℕ} (result, out.new)
        (written (trace_line line.number line.address line.cycle line.target line.value) out.old) }
{
    let mut writer = Writer::new(out);
    put_line(&mut writer, line);
    writer.length()
}

// The text begins with the line: the library's test, by the definition's name.
pub fn begins(line: &[u8], text: &[u8]) -> bool
    ensures { result ≡ begins_of line.now text.now }
{
    text.starts_with(line)
}
