// Retirement: the counts, the last address, the charges by kind, and the instruction kept for its follower's charge.

#![tactic(auto)]

ghost use Rattle.std.specs.Prelude.{◌≡◌, ◌<◌};
ghost use Rattle.clocked.specs.Prediction.{core_of};
ghost use Rattle.clocked.specs.Charges.{reason_behind, reason_from, counted as counted_of};
ghost use Rattle.retiring.specs.Retiring.{kept_by, retires as retires_of, status_after, tally_after, Small};

use clocked::{Kept, Kinds, Reason, Retired, Settings, StageW};
use isa::decoding::{is_bad, loaded_target, source_b};
use machine::{Accessed, Instruction, RET, Status};
use stage::controls::afresh;
use stage::forwarding::awaited_a;
use stage::signals::{meets_either, mispredicted};

// What a clock counts, and what it is counted by.
#[derive(Clone, Copy)]
pub struct Tally {
    pub last: u64,
    pub retired: u64,
    pub cycles: u64,
    pub kinds: Kinds,
    pub kept: Kept,
}

// Why an instruction is charged, by its predecessor.
#[tactic(auto, unfolding(clocked::specs::Charges::reason_behind, clocked::specs::Prediction::load_use, machine::specs::Table::is))]
fn reason_behind(settings: Settings, k: Retired, j: Instruction) -> Option<Reason>
    ensures { result ≡ reason_behind (core_of settings) k j }
{
    let i = k.instruction;
    if k.patched {
        return Some(Reason::Patched);
    }
    if meets_either(loaded_target(i), awaited_a(settings, j), source_b(j)) {
        return Some(Reason::Waited);
    }
    if mispredicted(settings, i, k.holds) & (i.function != 0) {
        return Some(Reason::WronglyGuessed);
    }
    if i.code == RET {
        return Some(Reason::Returned);
    }
    None
}

// With none kept the charge is 0.
#[tactic(auto, unfolding(clocked::specs::Charges::reason_from))]
pub fn reason_from(settings: Settings, kept: Kept, j: Instruction) -> Option<Reason>
    ensures { result ≡ reason_from (core_of settings) kept j }
{
    kept.and_then(|k| reason_behind(settings, k, j))
}

// "The cycle counts kept by kind sum the charges."
#[tactic(auto, unfolding(clocked::specs::Charges::counted))]
fn count(kinds: Kinds, reason: Option<Reason>) -> Kinds
    requires { (kinds.loaduse < 2000000) × (kinds.mispredict < 2000000) × (kinds.returned < 2000000) × (kinds.patched < 2000000) }
    ensures { result ≡ counted_of kinds reason }
{
    match reason {
        None => kinds,
        Some(Reason::Waited) => Kinds {
            loaduse: kinds.loaduse + 1,
            ..kinds
        },
        Some(Reason::WronglyGuessed) => Kinds {
            mispredict: kinds.mispredict + 2,
            ..kinds
        },
        Some(Reason::Returned) => Kinds {
            returned: kinds.returned + 3,
            ..kinds
        },
        Some(Reason::Patched) => Kinds {
            patched: kinds.patched + 3,
            ..kinds
        },
    }
}

// Built afresh on every way on which it stays, by hand as it was measured (docs/BENCH.md).
fn still_kept(kept: Kept) -> Kept
    ensures { result ≡ kept }
{
    match kept {
        None => None,
        Some(k) => Some(Retired {
            instruction: afresh(k.instruction),
            holds: k.holds,
            patched: k.patched,
        }),
    }
}

// What is kept is retired with AOK: a stop leaves it as it was.
#[tactic(auto, unfolding(crate::specs::Retiring::kept_by, clocked::specs::Charges::retired_of))]
fn kept_by(x: Accessed, kept: Kept) -> Kept
    ensures { result ≡ kept_by x kept }
{
    let i = x.instruction;
    let status = x.status;
    if is_bad(status) {
        return still_kept(kept);
    }
    Some(Retired {
        instruction: afresh(i),
        holds: x.holds,
        patched: x.patched,
    })
}

#[tactic(auto, unfolding(crate::specs::Retiring::retires))]
pub fn retires(w: StageW) -> bool
    ensures { result ≡ retires_of w }
{
    w.is_some()
}

// AOK, or why the instruction in W stops the machine.
#[tactic(auto, unfolding(crate::specs::Retiring::status_after))]
pub fn status_after(w: StageW) -> Status
    ensures { result ≡ status_after w }
{
    w.map_or(Status::Aok, |x| x.status)
}

#[tactic(auto, unfolding(crate::specs::Retiring::tally_after, clocked::specs::Pipeline::last_after, clocked::specs::Pipeline::retired_after, clocked::specs::Pipeline::kinds_after, clocked::specs::Pipeline::kept_after, clocked::specs::Pipeline::bad_in_w, crate::specs::Retiring::kept_by))]
pub fn counted(settings: Settings, t: Tally, w: StageW) -> Tally
    requires { Small 2000000 t }
    ensures { result ≡ tally_after (core_of settings) t w }
{
    let kinds = t.kinds;
    let kept = t.kept;
    match w {
        None => Tally {
            last: t.last,
            retired: t.retired,
            cycles: t.cycles + 1,
            kinds,
            kept: still_kept(kept),
        },
        Some(x) => {
            let i = x.instruction;
            Tally {
                last: i.address,
                retired: t.retired + 1,
                cycles: t.cycles + 1,
                kinds: count(kinds, reason_from(settings, kept, i)),
                kept: kept_by(x, kept),
            }
        }
    }
}
