// Words of 64 bits: in memory "8 bytes, least first", their wrapped sums and differences, and the signed overflow of these.

#![tactic(auto)]

ghost use Rattle.std.specs.Prelude.{◌≡◌, true, false, ltb, ◌+◌, MatchOption, take, drop, pos, ◌+ℤ◌, ◌-ℤ◌, int_lt};
ghost use Rattle.std.specs.Int.{w64};
ghost use Rattle.machine.specs.Memory.{lent, inside as inside_of, load as load_of, store as store_of};
ghost use Rattle.machine.specs.Words.{difference as difference_of, outside, signed, sum as sum_of};

// The eight bytes from `at` on, if they are inside.
#[tactic(auto, using(crate::proofs::Bytes::none_left))]
fn eight_at(memory: &[u8], at: u64) -> Option<&[u8; 8]>
    ensures { MatchOption result
        (inside_of (lent memory.now) at ≡ false)
        (λ bytes. (inside_of (lent memory.now) at ≡ true) × (bytes.now ≡ take 8 (drop at memory.now))) }
{
    memory.get(at as usize..)?.first_chunk()
}

// "inside exactly when a + 7, without wrapping, is below N"
pub fn inside(memory: &[u8], at: u64) -> bool
    ensures { result ≡ inside_of (lent memory.now) at }
{
    eight_at(memory, at).is_some()
}

// The word at a reaches the address or goes past it; no sum is made that could wrap.
pub fn reaches(a: u64, address: u64) -> bool
    ensures { result ≡ ltb address (a + 8) }
{
    if address < a {
        return true;
    }
    address - a < 8
}

// The word at `at`: "A load outside memory reads 0".
#[tactic(auto, using(crate::proofs::Bytes::number_is), unfolding(machine::specs::Memory::load))]
pub fn load(memory: &[u8], at: u64) -> u64
    ensures { result ≡ load_of (lent memory.now) at }
{
    match eight_at(memory, at) {
        Some(bytes) => u64::from_le_bytes(*bytes),
        None => 0,
    }
}

// The word v to `at`: "a store outside writes nothing".
#[tactic(auto, using(crate::proofs::Bytes::inside_room, crate::proofs::Bytes::placed_is), unfolding(machine::specs::Memory::store))]
pub fn store(memory: &mut [u8], at: u64, v: u64)
    ensures { lent memory.new ≡ store_of (lent memory.old) at v }
{
    if inside(memory, at) {
        let at = at as usize;
        memory[at..at + 8].copy_from_slice(&v.to_le_bytes());
    }
}

#[tactic(auto, unfolding(machine::specs::Words::sum))]
pub fn sum(b: u64, a: u64) -> u64
    ensures { result ≡ sum_of b a }
{
    b.wrapping_add(a)
}

#[tactic(auto, unfolding(machine::specs::Words::difference))]
pub fn difference(b: u64, a: u64) -> u64
    ensures { result ≡ difference_of b a }
{
    b.wrapping_sub(a)
}

#[tactic(auto, unfolding(machine::specs::Words::signed))]
pub fn negative(x: u64) -> bool
    ensures { result ≡ int_lt (signed x) (pos 0) }
{
    x.cast_signed() < 0
}

#[tactic(auto, using(crate::proofs::Overflow::outside_is), unfolding(machine::specs::Words::signed))]
pub fn sum_outside(b: u64, a: u64) -> bool
    ensures { result ≡ outside w64 (signed b +ℤ signed a) }
{
    b.cast_signed().overflowing_add(a.cast_signed()).1
}

#[tactic(auto, using(crate::proofs::Overflow::outside_is), unfolding(machine::specs::Words::signed))]
pub fn difference_outside(b: u64, a: u64) -> bool
    ensures { result ≡ outside w64 (signed b -ℤ signed a) }
{
    b.cast_signed().overflowing_sub(a.cast_signed()).1
}
