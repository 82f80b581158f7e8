// What a line takes in.
ghost use Rattle.std.specs.Prelude.{◌≡◌, ◌≤◌, ◌<◌, length, get_or};
ghost use Rattle.machine.specs.Memory.{lent};
ghost use Rattle.machine.specs.Fetch.{size_at};
ghost use Rattle.writing.specs.Text.{starts_at, whole, crosses, line_bytes};

use encoding::Fields;
use lookup::size_of;

// A byte of memory, or 0 behind it.
pub fn byte_at(memory: &[u8], at: usize) -> u8
    ensures { result ≡ get_or memory.now at 0 }
{
    if at < memory.len() { memory[at] } else { 0 }
}

// The table length of the instruction at an address.
fn size_at(memory: &[u8], address: u64) -> u64
    requires { address < length memory.now }
    ensures { (result ≡ size_at (lent memory.now) address) × (result < 256) }
{
    let at = address as usize;
    let first = memory[at];
    u64::from(size_of(first / 16))
}

// An instruction starts at an address: its bytes are there, and an encoder would take what they say. The clock's fetch is not called: with two callers
// it would not be compiled in place in the clock.
fn starts(memory: &[u8], address: u64, size: u64) -> bool
    requires { (address < length memory.now) × (size ≡ size_at (lent memory.now) address) × (length memory.now ≤ 65536) }
    ensures { result ≡ starts_at (lent memory.now) address }
{
    let at = address as usize;
    let first = byte_at(memory, at);
    let pair = byte_at(memory, at + 1);
    let there = size <= memory.len() as u64 - address;
    let said = Fields {
        code: u64::from(first / 16),
        function: u64::from(first % 16),
        ra: u64::from(pair / 16),
        rb: u64::from(pair % 16),
        constant: 0,
    };
    there & !said.refused()
}

// What the line at an address takes in: an instruction or a single byte, how many bytes, and whether the rest of the range is single bytes.
#[derive(Clone, Copy)]
pub struct Extent {
    pub whole: bool,
    pub count: u64,
    pub crosses: bool,
}

pub fn reach(memory: &[u8], address: u64, end: u64, cut: bool) -> Extent
    requires { (address < end) × (end ≤ length memory.now) × (length memory.now ≤ 65536) }
    ensures { (result.whole ≡ whole cut (lent memory.now) address end) × (result.count ≡ line_bytes cut (lent memory.now) address end)
        × (result.crosses ≡ crosses cut (lent memory.now) address end) }
{
    let size = size_at(memory, address);
    let started = starts(memory, address, size);
    let whole = !cut & (started & (address + size <= end));
    Extent {
        whole,
        count: if whole { size } else { 1 },
        crosses: cut | (started & !(address + size <= end)),
    }
}
