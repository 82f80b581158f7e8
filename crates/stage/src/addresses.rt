// Where the next instruction is fetched from, and where the one after it is expected.
ghost use Rattle.std.specs.Prelude.{◌≡◌};
ghost use Rattle.clocked.specs.Prediction.{core_of, predicted_next};
ghost use Rattle.clocked.specs.Pipeline.{returned_to, restart as restart_of};
ghost use Rattle.stage.specs.Addresses.{mended_by};

use crate::signals::guess;
use clocked::{Settings, StageM, StageW};
use isa::executing::{straight, turned};
use machine::{Instruction, JUMP, RET};

// The word that ret in W read, else the predicted address.
#[tactic(auto, unfolding(clocked::specs::Pipeline::returned_to, machine::specs::Table::is))]
fn returned_to(w: StageW, predicted: u64) -> u64
    ensures { result ≡ returned_to w predicted }
{
    match w {
        None => predicted,
        Some(x) => match x.instruction.code {
            RET => x.word,
            _ => predicted,
        },
    }
}

// The wrongly guessed jump in M goes before all else: wrong, found in E, says that M holds one.
#[tactic(auto, unfolding(crate::specs::Addresses::mended_by))]
fn mended(wrong: bool, m: StageM, otherwise: u64) -> u64
    ensures { result ≡ mended_by wrong m otherwise }
{
    match m {
        Some(x) if wrong => turned(x.instruction, x.holds),
        _ => otherwise,
    }
}

pub fn fetch_address(wrong: bool, m: StageM, w: StageW, predicted: u64) -> u64
    ensures { result ≡ mended_by wrong m (returned_to w predicted) }
{
    mended(wrong, m, returned_to(w, predicted))
}

// Behind a store into the window fetch restarts at the instruction that follows the store.
#[tactic(auto, unfolding(clocked::specs::Pipeline::restart))]
pub fn restart(m: StageM, otherwise: u64) -> u64
    ensures { result ≡ restart_of m otherwise }
{
    m.map_or(otherwise, |x| straight(x.instruction))
}

#[tactic(auto, unfolding(clocked::specs::Prediction::predicted_next, machine::specs::Table::is))]
pub fn predicted_next(settings: Settings, i: Instruction) -> u64
    ensures { result ≡ predicted_next (core_of settings) i }
{
    if i.code == JUMP {
        turned(i, guess(settings, i))
    } else {
        straight(i)
    }
}
