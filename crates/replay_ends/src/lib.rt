// Both ends of a replay: what it is refused for, and the words that it leaves.

#![tactic(auto)]

pub mod settings;

ghost use Rattle.std.specs.Prelude.{◌≡◌, IfOk, Some, is_none};
ghost use Rattle.answers.specs.Numbers.{number_of};
ghost use Rattle.replay_ends.specs.Ends.{replay_refusal, result_words, full_words};

use answers::Refusal;
use clocked::{PIPE_LIMIT, Pipeline};

// The block of fifteen registers, and the greatest number that codes have.
pub const REGISTER_BYTES: usize = 120;

pub const MOST_CODES: u64 = 7;

// What a replay is asked for by three numbers: from which address, with which codes, and for how many cycles.
#[derive(Clone, Copy)]
pub struct Request {
    pub start: u64,
    pub codes: u64,
    pub budget: u64,
}

// The lowest refusal that applies, where the result block has so many bytes; else what is chosen, which is nothing where it is out of its range.
#[tactic(auto, unfolding(crate::specs::Ends::replay_refusal, machine::specs::Runs::lowest, answers::specs::Numbers::number_of, answers::specs::Numbers::refusal_number))]
pub fn let_in<S: Drop>(
    block: usize,
    chosen: Option<S>,
    memory: usize,
    registers: usize,
    res: usize,
    asked: Request,
) -> Result<S, Refusal>
    ensures number { number_of result
        ≡ replay_refusal block (is_none chosen) memory registers res asked.start asked.codes asked.budget }
    ensures chosen { IfOk result (λ s. chosen ≡ Some s) }
{
    if answers::size_refused(memory) {
        return Err(Refusal::MemorySize);
    }
    if registers != REGISTER_BYTES {
        return Err(Refusal::RegisterBlock);
    }
    if answers::budget_refused(PIPE_LIMIT, 0, asked.budget) {
        return Err(Refusal::Budget);
    }
    if res != block {
        return Err(Refusal::ShortBlock);
    }
    if MOST_CODES < asked.codes {
        return Err(Refusal::BadRecord);
    }
    let settled = chosen.ok_or(Refusal::BadRecord)?;
    if answers::start_refused(memory, asked.start) {
        return Err(Refusal::StartOutside);
    }
    Ok(settled)
}

// The five result words.
#[tactic(auto, unfolding(crate::specs::Ends::result_words))]
pub fn result_words(end: Pipeline) -> [u64; 5]
    ensures { result ≡ result_words end }
{
    [
        u64::from(end.status),
        end.last,
        u64::from(end.codes),
        end.retired,
        end.cycles,
    ]
}

// All eleven: with them the cycles by kind, and what a bad fetch is blamed on.
#[tactic(auto, unfolding(crate::specs::Ends::full_words, crate::specs::Ends::result_words, machine::specs::Types::fault_number))]
pub fn full_words(end: Pipeline) -> [u64; 11]
    ensures { result ≡ full_words end }
{
    let [status, last, codes, retired, cycles] = result_words(end);
    let kinds = end.kinds;
    let blame = end.blame;
    [
        status,
        last,
        codes,
        retired,
        cycles,
        kinds.loaduse,
        kinds.mispredict,
        kinds.returned,
        kinds.patched,
        blame.fault.map_or(0, u64::from),
        blame.address,
    ]
}
