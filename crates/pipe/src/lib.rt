// The pipelined engine: a fresh start, one clock, and a run with a cycle budget and two lent logs.

#![tactic(auto)]

mod refusing;
mod running;

ghost use Rattle.std.specs.Prelude.{◌≡◌, [], ℕ};
ghost use Rattle.machine.specs.Memory.{lent};
ghost use Rattle.clocked.specs.declared.Pipeline.{Pipeline as PipelineOf};
ghost use Rattle.clocked.specs.Prediction.{as_in_01};
ghost use Rattle.clocked.specs.PipeRuns.{pipe_started, pipe_answer, pipe_run, pipe_run_unlogged, pipe_clock};
ghost use Rattle.answers.specs.Numbers.{number_in, record_in};
ghost use Rattle.pipe.specs.Parts.{answer_by};

use crate::refusing::{refusal, start_refusal};
use crate::running::looped;
use answers::Refused;
use clocked::{Kinds, Pipeline, Settings};
use machine::{Blame, Codes, REGISTERS, Status};

// Document 01's own settings.
pub fn as_in_01() -> Settings
    ensures { result ≡ as_in_01 }
{
    Settings {
        rule: 0,
        late: false,
        window: None,
    }
}

// A fresh start in memory of that size; refused, it hands back the record that was asked for.
#[tactic(auto, unfolding(clocked::specs::PipeRuns::pipe_started, clocked::specs::Pipeline::pipe_start, clocked::specs::Charges::no_kinds, machine::specs::Fetch::no_blame))]
pub fn start(
    settings: Settings,
    size: usize,
    registers: [u64; REGISTERS],
    codes: Codes,
    address: u64,
) -> Result<Pipeline, Refused<Pipeline>>
    ensures { ◌≡◌ {A = ℕ × PipelineOf} (number_in result, record_in result) (pipe_started settings size registers codes address) }
{
    let fresh = Pipeline {
        settings,
        predicted: address,
        d: None,
        e: None,
        m: None,
        w: None,
        registers,
        codes,
        status: Status::Aok,
        last: address,
        retired: 0,
        cycles: 0,
        kinds: Kinds {
            loaduse: 0,
            mispredict: 0,
            returned: 0,
            patched: 0,
        },
        kept: None,
        blame: Blame {
            fault: None,
            address: 0,
        },
    };
    match start_refusal(settings, size, address) {
        Ok(()) => Ok(fresh),
        Err(why) => Err(Refused { why, given: fresh }),
    }
}

// What the entries share: short says that a lent log is shorter than the budget, and empty logs mean none.
fn perform(
    pipeline: Pipeline,
    memory: &mut [u8],
    budget: u64,
    short: bool,
    addresses: &mut [u64],
    cycles: &mut [u64],
) -> Result<Pipeline, Refused<Pipeline>>
    ensures { pipe_answer (number_in result) (record_in result) (lent memory.new) addresses.new cycles.new
        ≡ answer_by short pipeline (lent memory.old) budget addresses.old cycles.old }
{
    match refusal(pipeline, memory.len(), budget, short) {
        Ok(()) => Ok(looped(pipeline, memory, budget, addresses, cycles)),
        Err(why) => Err(Refused {
            why,
            given: pipeline,
        }),
    }
}

// A run with both logs.
pub fn run(
    pipeline: Pipeline,
    memory: &mut [u8],
    budget: u64,
    addresses: &mut [u64],
    cycles: &mut [u64],
) -> Result<Pipeline, Refused<Pipeline>>
    ensures { pipe_answer (number_in result) (record_in result) (lent memory.new) addresses.new cycles.new
        ≡ pipe_run pipeline (lent memory.old) budget addresses.old cycles.old }
{
    let short = ((addresses.len() as u64) < budget) | ((cycles.len() as u64) < budget);
    perform(pipeline, memory, budget, short, addresses, cycles)
}

// A run without logs.
pub fn run_unlogged(
    pipeline: Pipeline,
    memory: &mut [u8],
    budget: u64,
) -> Result<Pipeline, Refused<Pipeline>>
    ensures { pipe_answer (number_in result) (record_in result) (lent memory.new) [] []
        ≡ pipe_run_unlogged pipeline (lent memory.old) budget }
{
    let mut addresses = [0u64; 1];
    let mut cycles = [0u64; 1];
    perform(
        pipeline,
        memory,
        budget,
        false,
        &mut addresses[..0],
        &mut cycles[..0],
    )
}

// A clock is a run of 1 without logs.
pub fn clock(pipeline: Pipeline, memory: &mut [u8]) -> Result<Pipeline, Refused<Pipeline>>
    ensures { pipe_answer (number_in result) (record_in result) (lent memory.new) [] [] ≡ pipe_clock pipeline (lent memory.old) }
{
    run_unlogged(pipeline, memory, 1)
}
