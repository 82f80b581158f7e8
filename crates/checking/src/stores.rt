// The stores of the three instructions before one, and whether one of them wrote into it.
ghost use Rattle.std.specs.Prelude.{◌≡◌, ◌≤◌, length};
ghost use Rattle.machine.specs.Memory.{lent};
ghost use Rattle.checking.specs.Stores.{store_by, hits as hits_of, touched_by, written_by};

use lookup::{accesses_of, size_of};
use machine::{Executed, Window};

// The addresses of the words that the three instructions before stored, the last one first.
#[derive(Clone, Copy)]
pub struct Stores {
    pub first: Option<u64>,
    pub second: Option<u64>,
    pub third: Option<u64>,
}

// A store outside memory writes nothing.
#[tactic(auto, unfolding(crate::specs::Stores::store_by, machine::specs::Stages::stores))]
pub fn store_of(x: Executed, memory: &[u8]) -> Option<u64>
    ensures { result ≡ store_by x (lent memory.now) }
{
    let stores = accesses_of(x.instruction.code).stores();
    (stores & word::inside(memory, x.result)).then_some(x.result)
}

// A byte of the word stored is one from the address up to the end, below n.
#[tactic(auto, unfolding(crate::specs::Stores::hits))]
fn hits(store: Option<u64>, address: u64, end: u64, n: u64) -> bool
    ensures { result ≡ hits_of store address end n }
{
    match store {
        None => false,
        Some(at) => (at < end) & (word::reaches(at, address) & ((at < n) & (address < n))),
    }
}

// One of the three wrote a byte of the instruction at the address. Memory is a lent slice, whose size `check` asks for once.
#[tactic(auto, using(crate::proofs::Ways::outside), unfolding(crate::specs::Stores::touched_by, machine::specs::Fetch::size_at))]
fn touched(stores: Stores, memory: &[u8], address: u64) -> bool
    requires { length memory.now ≤ 65536 }
    ensures { result ≡ touched_by stores (lent memory.now) address }
{
    let n = memory.len() as u64;
    if n <= address {
        return false;
    }
    let at = address as usize;
    let end = address + size_of(memory[at] / 16) as u64;
    hits(stores.first, address, end, n)
        | (hits(stores.second, address, end, n) | hits(stores.third, address, end, n))
}

// With a window set it is not asked.
#[tactic(auto, unfolding(crate::specs::Stores::written_by, machine::specs::Types::is_set))]
pub fn written_into(window: Window, stores: Stores, memory: &[u8], address: u64) -> bool
    requires { length memory.now ≤ 65536 }
    ensures { result ≡ written_by window stores (lent memory.now) address }
{
    match window {
        None => touched(stores, memory, address),
        Some(_) => false,
    }
}
