// A line of a listing.
ghost use Rattle.std.specs.Prelude.{◌≡◌, true, [], ◌∷◌, ◌++◌, ◌+◌, ◌≤◌, length, take, drop};
ghost use Rattle.machine.specs.Fetch.{size_at};
ghost use Rattle.machine.specs.Memory.{lent};
ghost use Rattle.listing.specs.Grammar.{remarked, line};
ghost use Rattle.text.specs.Parts.{line_feed};
ghost use Rattle.text.specs.Put.{Put};
ghost use Rattle.writing.specs.Text.{noted, line_of};
ghost use Rattle.writing.specs.There.{there_at};

use crate::hexes::{put_hex, put_pairs};
use crate::remarks::put_remark;
use text::Writer;
use text::parts::{LINE_FEED, TAB};

// The remark, where the line is an instruction.
fn put_note(out: &mut Writer<'_>, memory: &[u8], address: u64, whole: bool)
    requires { (whole ≡ true → address + size_at (lent memory.now) address ≤ length memory.now) × (length memory.now ≤ 65536) }
    ensures { Put (remarked (noted whole (there_at (lent memory.now) address))) out.old out.new }
{
    if whole {
        out.byte(TAB);
        put_remark(out, memory, address);
    }
}

// So many bytes from an address on, with their line feed.
pub fn put_line(out: &mut Writer<'_>, memory: &[u8], address: u64, count: u64, whole: bool)
    requires { (address + count ≤ length memory.now) × (whole ≡ true → address + size_at (lent memory.now) address ≤ length memory.now)
        × (length memory.now ≤ 65536) }
    ensures { Put (line (line_of address (take count (drop address memory.now)) (noted whole (there_at (lent memory.now) address))) ++ line_feed ∷ [])
        out.old out.new }
{
    let from = address as usize;
    let to = from + count as usize;
    put_hex(out, address);
    out.byte(TAB);
    put_pairs(out, &memory[from..to]);
    put_note(out, memory, address, whole);
    out.byte(LINE_FEED);
}
