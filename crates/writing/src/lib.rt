// Writing listings: one instruction a line, with its notation as the remark (#104).

#![tactic(auto)]

mod hexes;
mod lines;
mod reaching;
mod remarks;
mod words;

ghost use Rattle.std.specs.Prelude.{◌^◌, ◌<◌, ◌≤◌, length};
ghost use Rattle.machine.specs.Memory.{lent};
ghost use Rattle.text.specs.Put.{Put};
ghost use Rattle.writing.specs.Text.{listing_of};

use crate::lines::put_line;
use crate::reaching::reach;
use text::Writer;

// The lines from a start up to an end, not itself written. No line is longer than 90 bytes, so that the length is a word.
pub fn put_listing(out: &mut Writer<'_>, memory: &[u8], start: u64, end: u64)
    requires { (end ≤ length memory.now) × (length memory.now ≤ 65536) }
    ensures put { Put (listing_of (lent memory.now) start end) out.old out.new }
    ensures short { length (listing_of (lent memory.now) start end) < 2 ^ 64 }
{
    let mut at = start;
    let mut cut = false;
    // No index counted by hand: a line takes as many bytes as its instruction.
    while at < end {
        let next = reach(memory, at, end, cut);
        put_line(out, memory, at, next.count, next.whole);
        cut = next.crosses;
        at += next.count;
    }
}
