// The image of a text that was judged to be a listing.
ghost use Rattle.std.specs.Prelude.{◌≡◌, [], ◌∷◌, ◌+◌, ◌/◌, ◌≤◌, length};
ghost use Rattle.std.proofs.lemmas.List.Edits.{sets};
ghost use Rattle.text.specs.Parts.{lines};
ghost use Rattle.text.specs.Hex.{hex_bytes};
ghost use Rattle.listing.specs.Grammar.{end_of, laid};
ghost use Rattle.listing.specs.Reading.{good, record_of, records, verdict};

use crate::ending::unended;
use text::{hex, parts};

// The bytes of these digits, from an address on.
fn put(memory: &mut [u8], at: usize, digits: &[u8])
    requires { at + length digits.now / 2 ≤ length memory.old }
    ensures { memory.new ≡ sets memory.old at (hex_bytes digits.now) }
{
    for (k, pair) in digits.chunks_exact(2).enumerate() {
        memory[at + k] = hex::byte(pair[0], pair[1]);
    }
}

// A line that fits, without its line feed.
#[tactic(auto, using(text::specs::HexLaws::hex_bytes_length), unfolding(crate::specs::Reading::record_of, crate::specs::Grammar::laid, crate::specs::Grammar::address_of, crate::specs::Grammar::bytes_of, crate::specs::Grammar::end_of))]
fn lay_line(line: &[u8], memory: &mut [u8])
    requires { (length (record_of line.now).address ≤ 16) × (end_of (record_of line.now) ≤ length memory.old) }
    ensures { memory.new ≡ laid (record_of line.now ∷ []) memory.old }
{
    let address = parts::part_before(line, parts::TAB);
    let rest = parts::part_behind(line, parts::TAB);
    let digits = parts::part_before(rest, parts::TAB);
    put(memory, hex::number(address) as usize, digits);
}

// Line by line.
pub fn lay(text: &[u8], memory: &mut [u8])
    requires { verdict (length memory.old) text.now ≡ good }
    ensures { memory.new ≡ laid (records (lines text.now)) memory.old }
{
    for line in text.split_inclusive(|b| *b == parts::LINE_FEED) {
        lay_line(unended(line), memory);
    }
}
