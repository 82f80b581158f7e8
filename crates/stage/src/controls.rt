// The controls at the end of a clock: each stage is held, given a bubble, or goes on.
ghost use Rattle.std.specs.Prelude.{◌≡◌, cond, None};
ghost use Rattle.stage.specs.Types.{bubble_d, in_d, bubble_e, bubble_m};
ghost use Rattle.stage.specs.Forwarding.{no_targets};
ghost use Rattle.clocked.specs.Prediction.{core_of, predicted_next};
ghost use Rattle.clocked.specs.Pipeline.{codes_after, restart as restart_of};

use crate::addresses::{predicted_next, restart};
use crate::forwarding::{NO_TARGETS, Targets};
use crate::working::codes_after;
use clocked::{Settings, StageD, StageE, StageM};
use machine::{Codes, Instruction};

// F restarts behind a store into the window, before it is held for load-use and for ret.
pub fn next_f(
    settings: Settings,
    cancels: bool,
    m: StageM,
    held: bool,
    predicted: u64,
    fetched: Instruction,
) -> u64
    ensures { result ≡ cond cancels (restart_of m predicted) (cond held predicted (predicted_next (core_of settings) fetched)) }
{
    if cancels {
        return restart(m, predicted);
    }
    if held {
        predicted
    } else {
        predicted_next(settings, fetched)
    }
}

// Field by field, as it was measured (docs/BENCH.md): two branches that each hand on a whole struct are compiled to one copy of it in memory.
pub fn afresh(i: Instruction) -> Instruction
    ensures { result ≡ i }
{
    let status = i.status;
    let fault = i.fault;
    Instruction {
        address: i.address,
        status,
        code: i.code,
        function: i.function,
        ra: i.ra,
        rb: i.rb,
        constant: i.constant,
        next: i.next,
        fault,
    }
}

// By hand for the same measured reason.
fn held_d(d: StageD) -> StageD
    ensures { result ≡ d }
{
    match d {
        None => None,
        Some(i) => Some(afresh(i)),
    }
}

// Misprediction and a store into the window cancel what would go into D. Load-use holds D before ret can put a bubble there, so that a ret that waits is not lost.
pub fn next_d(
    cancelled: bool,
    waits: bool,
    returns: bool,
    d: StageD,
    fetched: Instruction,
) -> StageD
    ensures { result ≡ cond cancelled bubble_d (cond waits d (cond returns bubble_d (in_d fetched))) }
{
    if cancelled {
        return None;
    }
    if waits {
        return held_d(d);
    }
    if returns { None } else { Some(afresh(fetched)) }
}

// What goes on into a stage, or a bubble in its place. E has one behind a store into the window, for misprediction and for load-use;
// M has one behind a bad status in M, and behind a store into the window.
pub fn next_stage<T: Drop>(emptied: bool, stage: Option<T>) -> Option<T>
    ensures { result ≡ cond emptied None stage }
{
    if emptied { None } else { stage }
}

// The targets of what goes into M, beside it: they are no Option, since 15 already says none.
pub fn next_targets(emptied: bool, executed: Targets) -> Targets
    ensures { result ≡ cond emptied no_targets executed }
{
    if emptied { NO_TARGETS } else { executed }
}

// OPq behind a bad status in M, or behind a store into the window, sets no codes.
pub fn next_codes(emptied: bool, e: StageE, codes: Codes) -> Codes
    ensures { result ≡ cond emptied codes (codes_after e codes) }
{
    if emptied {
        codes
    } else {
        codes_after(e, codes)
    }
}
