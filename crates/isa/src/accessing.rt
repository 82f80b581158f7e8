// The memory stage.
ghost use Rattle.std.specs.Prelude.{◌≡◌, cond, not, ◌&&◌};
ghost use Rattle.machine.specs.Types.{is_bad};
ghost use Rattle.machine.specs.Memory.{lent, through, load as load_of};
ghost use Rattle.machine.specs.Table.{row_of};
ghost use Rattle.machine.specs.Stages.{loads, stores as stores_of, access_address, stored_word, access_status, meets_window, access as access_of, new_memory};
ghost use Rattle.lookup.specs.Kinds.{accesses_meant};
ghost use Rattle.isa.specs.Decisions.{accessed_with};

use crate::decoding::is_bad;
use lookup::accesses_of;
use lookup::kinds::Accesses;
use machine::{Accessed, Executed, Status, Window};

// An executed instruction with the kind of its access, for which the table is read once.
#[derive(Clone, Copy)]
struct MemoryAccess {
    kind: Accesses,
    of: Executed,
    ghost of_its_row: { accesses_meant kind ≡ (row_of of.instruction.code).accesses },
}

impl MemoryAccess {
    fn new(x: Executed) -> MemoryAccess
        ensures { result.of ≡ x }
    {
        MemoryAccess {
            kind: accesses_of(x.instruction.code),
            of: x,
        }
    }

    // popq and ret load from the old rsp.
    fn address(self) -> u64
        ensures { result ≡ access_address self.of }
    {
        let x = self.of;
        match self.kind {
            Accesses::LoadsAtA => x.a,
            _ => x.result,
        }
    }

    // call stores the next address.
    fn stored_word(self) -> u64
        ensures { result ≡ stored_word self.of }
    {
        let x = self.of;
        let kept = x.a;
        match self.kind {
            Accesses::StoresNext => x.instruction.next,
            _ => kept,
        }
    }

    // An access outside memory is ADR, whatever the status was.
    fn status(self, memory: &[u8]) -> Status
        ensures { result ≡ access_status self.of (lent memory.now) }
    {
        let accesses = self.kind.loads() | self.kind.stores();
        if accesses & !word::inside(memory, self.address()) {
            return Status::Adr;
        }
        self.of.instruction.status
    }

    // The word loaded, 0 where none is.
    fn loaded_word(self, memory: &[u8]) -> u64
        ensures { result ≡ cond (loads self.of.instruction) (load_of (lent memory.now) (access_address self.of)) 0 }
    {
        if self.kind.loads() {
            word::load(memory, self.address())
        } else {
            0
        }
    }

    // A store that succeeds and writes a byte of the window.
    fn patches(self, status: Status, window: Window) -> bool
        ensures { result ≡ (stores_of self.of.instruction && (not (is_bad status) && meets_window window (access_address self.of))) }
    {
        self.kind.stores() & (!is_bad(status) & meets_window(window, self.address()))
    }
}

// A byte of the word at a lies in the window: without one the answer is there at once.
fn meets_window(window: Window, a: u64) -> bool
    ensures { result ≡ meets_window window a }
{
    match window {
        None => false,
        Some((first, end)) => (first < end) & ((a < end) & word::reaches(a, first)),
    }
}

fn accessed(x: Executed, word: u64, status: Status, patched: bool) -> Accessed
    ensures { result ≡ accessed_with x word status patched }
{
    Accessed {
        instruction: x.instruction,
        result: x.result,
        holds: x.holds,
        word,
        status,
        patched,
    }
}

pub fn access(x: Executed, window: Window, memory: &[u8]) -> Accessed
    ensures { result ≡ access_of x (through window (lent memory.now)) }
{
    let access = MemoryAccess::new(x);
    let word = access.loaded_word(memory);
    let status = access.status(memory);
    accessed(x, word, status, access.patches(status, window))
}

// The step's write.
pub fn update(x: Executed, memory: &mut [u8])
    ensures { lent memory.new ≡ new_memory x (lent memory.old) }
{
    let access = MemoryAccess::new(x);
    if access.kind.stores() {
        word::store(memory, access.address(), access.stored_word());
    }
}

// The clock's access and write in one, so that the table is read and the address tested once; most instructions have no access.
pub fn access_and_update(x: Executed, window: Window, memory: &mut [u8]) -> Accessed
    ensures { (result ≡ access_of x (through window (lent memory.old)))
        × (through window (lent memory.new) ≡ new_memory x (through window (lent memory.old))) }
{
    let access = MemoryAccess::new(x);
    let status = x.instruction.status;
    match access.kind {
        Accesses::NoAccess => accessed(x, 0, status, false),
        _ => {
            let at = access.address();
            if word::inside(memory, at) {
                if access.kind.loads() {
                    let word = word::load(memory, at);
                    accessed(x, word, status, false)
                } else {
                    word::store(memory, at, access.stored_word());
                    accessed(x, 0, status, !is_bad(status) & meets_window(window, at))
                }
            } else {
                accessed(x, 0, Status::Adr, false)
            }
        }
    }
}
