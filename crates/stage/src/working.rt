// The work of E, M and W in a clock.
ghost use Rattle.std.specs.Prelude.{◌≡◌};
ghost use Rattle.machine.specs.Memory.{lent, through};
ghost use Rattle.clocked.specs.Prediction.{core_of};
ghost use Rattle.clocked.specs.Pipeline.{after_e, after_m, handed_a, handed, codes_after, memory_after};
ghost use Rattle.stage.specs.Forwarding.{written_by};

use crate::forwarding::{Targets, result_in, word_w};
use crate::signals::{meets, takes_late};
use clocked::{Settings, StageE, StageM, StageW};
use isa::accessing::access_and_update;
use isa::decoding::{loaded_target, source_a, write};
use isa::executing::{execute, new_codes};
use machine::{Codes, Decoded, REGISTERS, Window};

// valA of E's instruction, or for a store the word that M loads, where that comes late.
#[tactic(auto, unfolding(clocked::specs::Pipeline::handed_a))]
fn handed_a(settings: Settings, w: StageW, x: Decoded) -> u64
    ensures { result ≡ handed_a (core_of settings) w x }
{
    let i = x.instruction;
    match w {
        Some(y) if takes_late(settings, i) && meets(loaded_target(y.instruction), source_a(i)) =>
            y.word,
        _ => x.a,
    }
}

// E's instruction after execution, on the codes as the clock began; w is M's after its access.
#[tactic(auto, unfolding(clocked::specs::Pipeline::after_e, clocked::specs::Pipeline::handed))]
pub fn after_e(settings: Settings, w: StageW, e: StageE, codes: Codes) -> StageM
    ensures { result ≡ after_e (handed (core_of settings) w e) codes }
{
    e.map(|x| {
        let given = Decoded {
            a: handed_a(settings, w, x),
            ..x
        };
        execute(given, codes)
    })
}

// M's instruction after its access, and the clock's write: nothing else reads memory from here on.
#[tactic(auto, unfolding(clocked::specs::Pipeline::after_m, clocked::specs::Pipeline::memory_after))]
pub fn after_m(window: Window, m: StageM, memory: &mut [u8]) -> StageW
    ensures { (result ≡ after_m m (through window (lent memory.old)))
        × (through window (lent memory.new) ≡ memory_after m (through window (lent memory.old))) }
{
    // Not `map`, which does not say that what it does not call leaves memory as it was.
    match m {
        None => None,
        Some(x) => Some(access_and_update(x, window, memory)),
    }
}

#[tactic(auto, unfolding(clocked::specs::Pipeline::codes_after))]
pub fn codes_after(e: StageE, codes: Codes) -> Codes
    ensures { result ≡ codes_after e codes }
{
    e.map_or(codes, |x| new_codes(x, codes))
}

// W's write, to the targets that it carries: the result, and then the loaded word.
#[tactic(auto, unfolding(crate::specs::Forwarding::written_by, crate::specs::Forwarding::result_w))]
pub fn registers_after(targets: Targets, w: StageW, registers: &mut [u64; REGISTERS])
    ensures { registers.new ≡ written_by targets w registers.old }
{
    write(registers, targets.result, result_in(w));
    write(registers, targets.loaded, word_w(w));
}
