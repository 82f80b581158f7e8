// The signals that the controls go by.
ghost use Rattle.std.specs.Prelude.{◌≡◌, ◌||◌};
ghost use Rattle.clocked.specs.Prediction.{core_of, guess as guess_of, meets as meets_of, mispredicted as mispredicted_of, takes_late};
ghost use Rattle.clocked.specs.Pipeline.{wrong as wrong_of, ret_in, ret_in_d, ret_in_e, ret_in_m, bad_in_w, patched_in_w};

use clocked::{Carries, Settings, StageD, StageE, StageM, StageW};
use isa::decoding::is_bad;
use machine::{Instruction, JUMP, NONE, RET};

// The rules that do not guess every jump taken (#105): numbers, since a record may come with any, and one above 2 is refused.
const NEVER: u8 = 1;

const BACKWARD: u8 = 2;

// The stores whose data may come late (#106).
const RMMOVQ: u8 = 4;

const PUSHQ: u8 = 10;

// Register 15 as a source matches nothing.
#[tactic(auto, unfolding(clocked::specs::Prediction::meets))]
pub fn meets(target: u8, source: u8) -> bool
    ensures { result ≡ meets_of target source }
{
    (source < NONE) & (target == source)
}
// With late store data rmmovq and pushq do not wait for the word that they store.
#[tactic(auto, unfolding(clocked::specs::Prediction::takes_late, machine::specs::Table::is))]
pub fn takes_late(settings: Settings, i: Instruction) -> bool
    ensures { result ≡ takes_late (core_of settings) i }
{
    settings.late & ((i.code == RMMOVQ) | (i.code == PUSHQ))
}

// Load-use: a loaded register is among the sources a and b of another instruction.
pub fn meets_either(loaded: u8, a: u8, b: u8) -> bool
    ensures { result ≡ (meets_of loaded a || meets_of loaded b) }
{
    meets(loaded, a) | meets(loaded, b)
}

// Whether a jump is guessed to go to C, by the number of the rule; the unconditional one always is.
#[tactic(auto, unfolding(clocked::specs::Prediction::guess, clocked::specs::Prediction::rule))]
pub fn guess(settings: Settings, i: Instruction) -> bool
    ensures { result ≡ guess_of (core_of settings) i }
{
    let always = i.function == 0;
    let rule = settings.rule;
    match rule {
        NEVER => always,
        BACKWARD => always | (i.constant < i.next),
        _ => true,
    }
}

// A jump whose condition came out otherwise than guessed.
#[tactic(auto, unfolding(clocked::specs::Prediction::mispredicted, machine::specs::Table::is))]
pub fn mispredicted(settings: Settings, i: Instruction, holds: bool) -> bool
    ensures { result ≡ mispredicted_of (core_of settings) i holds }
{
    let guessed = guess(settings, i);
    (i.code == JUMP) & (holds != guessed)
}

// An executed jump that was guessed wrongly.
#[tactic(auto, unfolding(clocked::specs::Pipeline::wrong))]
pub fn wrong(settings: Settings, m: StageM) -> bool
    ensures { result ≡ wrong_of (core_of settings) m }
{
    m.is_some_and(|x| mispredicted(settings, x.instruction, x.holds))
}

#[tactic(auto, unfolding(clocked::specs::Pipeline::ret_in, machine::specs::Table::is))]
fn is_ret_in<T: Carries>(stage: Option<T>) -> bool
    ensures { result ≡ ret_in T.instruction_of stage }
{
    stage.is_some_and(|x| x.instruction().code == RET)
}

// ret in D, E or M.
#[tactic(auto, unfolding(clocked::specs::Pipeline::ret_in_d, clocked::specs::Pipeline::ret_in_e, clocked::specs::Pipeline::ret_in_m))]
pub fn ret_on_the_way(d: StageD, e: StageE, m: StageM) -> bool
    ensures { result ≡ (ret_in_d d || (ret_in_e e || ret_in_m m)) }
{
    is_ret_in(d) | (is_ret_in(e) | is_ret_in(m))
}

// Bad status in W, or in M after its access.
#[tactic(auto, unfolding(clocked::specs::Pipeline::bad_in_w))]
pub fn bad_in_w(w: StageW) -> bool
    ensures { result ≡ bad_in_w w }
{
    w.is_some_and(|x| is_bad(x.status))
}

// A store into the window: in W, or in M after its access.
#[tactic(auto, unfolding(clocked::specs::Pipeline::patched_in_w))]
pub fn patched_in_w(w: StageW) -> bool
    ensures { result ≡ patched_in_w w }
{
    w.is_some_and(|x| x.patched)
}
