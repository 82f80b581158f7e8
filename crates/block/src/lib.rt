// What the exported functions share: words in lent blocks.

#![tactic(auto)]

ghost use Rattle.std.specs.Prelude.{◌≡◌, ◌*◌, ◌≤◌, length};
ghost use Rattle.block.specs.Block.{words_in, with_words};

use machine::REGISTERS;

// The fifteen words of a register block.
pub fn read_registers(block: &[u8]) -> [u64; REGISTERS]
    requires { length block.now ≡ 120 }
    ensures { result ≡ words_in 15 block.now 0 }
{
    std::array::from_fn(|k| word::load(block, 8 * k as u64))
}

// The words into a block, from its first byte on.
pub fn write_words(block: &mut [u8], words: &[u64])
    requires { 8 * length words.now ≤ length block.old }
    ensures { block.new ≡ with_words words.now block.old 0 }
{
    for (k, word) in words.iter().enumerate() {
        word::store(block, 8 * k as u64, *word);
    }
}
