// Instructions and listings written at the edge: a number, the bytes, and their length as a word.

#![tactic(auto)]

ghost use Rattle.std.specs.Prelude.{◌≡◌, ◌≤◌, length};
ghost use Rattle.machine.specs.Memory.{lent};
ghost use Rattle.answers.specs.Numbers.{number_of};
ghost use Rattle.writing.specs.Text.{listing_of};
ghost use Rattle.writing_edge.specs.Writings.{written, encode_refusal, encoded, range_refused, list_refusal, listing_written};

use answers::Refusal;
use block::write_words;
use encoding::Fields;
use text::Writer;
use writing::put_listing;

// The lowest refusal that applies before the length is known.
#[tactic(auto, unfolding(crate::specs::Writings::encode_refusal, machine::specs::Runs::lowest))]
fn admit_instruction(told: usize, i: Fields) -> Result<(), Refusal>
    ensures { number_of result ≡ encode_refusal told i }
{
    if told != 8 {
        return Err(Refusal::ShortBlock);
    }
    if i.refused() {
        return Err(Refusal::BadRecord);
    }
    Ok(())
}

fn try_encode(bytes: &mut [u8], told: &mut [u8], i: Fields) -> Result<(), Refusal>
    ensures { written (number_of result) bytes.new told.new ≡ encoded bytes.old told.old i }
{
    admit_instruction(told.len(), i)?;
    let needed = i.length();
    write_words(told, &[needed as u64]);
    if bytes.len() < needed {
        return Err(Refusal::NoRoom);
    }
    let mut out = Writer::new(bytes);
    i.put(&mut out);
    Ok(())
}

// The bytes of an instruction. The answer is a number, as the C interface has it.
pub fn encode(bytes: &mut [u8], told: &mut [u8], i: Fields) -> u64
    ensures { written result bytes.new told.new ≡ encoded bytes.old told.old i }
{
    try_encode(bytes, told, i).err().map_or(0, u64::from)
}

// Refusal 7: the range goes backwards, or past memory.
#[tactic(auto, unfolding(crate::specs::Writings::range_refused))]
fn range_refused(size: usize, start: u64, end: u64) -> bool
    ensures { result ≡ range_refused size start end }
{
    (end < start) | ((size as u64) < end)
}

// The lowest refusal that applies before the length is known.
#[tactic(auto, unfolding(crate::specs::Writings::list_refusal, machine::specs::Runs::lowest))]
fn admit_listing(size: usize, block: usize, start: u64, end: u64) -> Result<(), Refusal>
    ensures { number_of result ≡ list_refusal size block start end }
{
    if answers::size_refused(size) {
        return Err(Refusal::MemorySize);
    }
    if block != 8 {
        return Err(Refusal::ShortBlock);
    }
    if range_refused(size, start, end) {
        return Err(Refusal::BadRange);
    }
    Ok(())
}

// The length of the listing: it is put where there is no place, and only counted.
fn listing_length(memory: &[u8], start: u64, end: u64) -> usize
    requires { (end ≤ length memory.now) × (length memory.now ≤ 65536) }
    ensures { result ≡ length (listing_of (lent memory.now) start end) }
{
    let mut nothing = [0u8; 0];
    let mut out = Writer::new(&mut nothing);
    put_listing(&mut out, memory, start, end);
    out.length()
}

fn try_write_listing(
    memory: &[u8],
    text: &mut [u8],
    told: &mut [u8],
    start: u64,
    end: u64,
) -> Result<(), Refusal>
    ensures { written (number_of result) text.new told.new
        ≡ listing_written memory.now text.old told.old start end }
{
    admit_listing(memory.len(), told.len(), start, end)?;
    let needed = listing_length(memory, start, end);
    write_words(told, &[needed as u64]);
    if text.len() < needed {
        return Err(Refusal::NoRoom);
    }
    let mut out = Writer::new(text);
    put_listing(&mut out, memory, start, end);
    Ok(())
}

// The listing of memory from a start up to an end. The answer is a number, as the C interface has it.
pub fn write_listing(memory: &[u8], text: &mut [u8], told: &mut [u8], start: u64, end: u64) -> u64
    ensures { written result text.new told.new
        ≡ listing_written memory.now text.old told.old start end }
{
    try_write_listing(memory, text, told, start, end)
        .err()
        .map_or(0, u64::from)
}
