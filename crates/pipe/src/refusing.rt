// The refusals, of which the lowest number wins.
ghost use Rattle.std.specs.Prelude.{◌≡◌};
ghost use Rattle.clocked.specs.PipeRuns.{instruction_refused, refused_in};
ghost use Rattle.clocked.specs.PipeRuns.{counts_refused, settings_refused, record_refused, pipe_start_refusal};
ghost use Rattle.answers.specs.Numbers.{number_of};
ghost use Rattle.pipe.specs.Parts.{refusal_by};

use answers::{Refusal, budget_refused, size_refused, start_refused, window_refused};
use clocked::{Carries, LAST_RULE, PIPE_LIMIT, Pipeline, Settings};
use lookup::functions_of;
use machine::{CMOV, Instruction, JUMP, NONE, OPERATION};

// A register over 15, a code without functions, a move, jump or OPq function that the table has not.
#[tactic(auto, unfolding(clocked::specs::PipeRuns::instruction_refused, machine::specs::Table::is))]
fn instruction_refused(i: Instruction) -> bool
    ensures { result ≡ instruction_refused i }
{
    let functions = functions_of(i.code);
    let tested = (i.code == CMOV) | ((i.code == JUMP) | (i.code == OPERATION));
    (NONE < i.ra) | ((NONE < i.rb) | ((functions == 0) | (tested & (functions <= i.function))))
}

// Of what stands in a stage, and of what is kept.
#[tactic(auto, unfolding(clocked::specs::PipeRuns::refused_in))]
fn refused_in<T: Carries>(stage: Option<T>) -> bool
    ensures { result ≡ refused_in T.instruction_of stage }
{
    stage.is_some_and(|x| instruction_refused(x.instruction()))
}

// Retired or a kind's count above cycles.
#[tactic(auto, unfolding(clocked::specs::PipeRuns::counts_refused))]
fn counts_refused(pipeline: Pipeline) -> bool
    ensures { result ≡ counts_refused pipeline }
{
    let kinds = pipeline.kinds;
    let cycles = pipeline.cycles;
    (cycles < pipeline.retired)
        | ((cycles < kinds.loaduse)
            | ((cycles < kinds.mispredict)
                | ((cycles < kinds.returned) | (cycles < kinds.patched))))
}

#[tactic(auto, unfolding(clocked::specs::PipeRuns::settings_refused))]
fn settings_refused(settings: Settings) -> bool
    ensures { result ≡ settings_refused settings }
{
    LAST_RULE < settings.rule
}

#[tactic(auto, unfolding(clocked::specs::PipeRuns::record_refused, clocked::specs::PipeRuns::refused_in_d, clocked::specs::PipeRuns::refused_in_e, clocked::specs::PipeRuns::refused_in_m, clocked::specs::PipeRuns::refused_in_w, clocked::specs::PipeRuns::refused_kept))]
fn record_refused(p: Pipeline) -> bool
    ensures { result ≡ record_refused p }
{
    settings_refused(p.settings)
        | (refused_in(p.d)
            | (refused_in(p.e)
                | (refused_in(p.m) | (refused_in(p.w) | (refused_in(p.kept) | counts_refused(p))))))
}

// The lowest refusal of a fresh start.
#[tactic(auto, unfolding(clocked::specs::PipeRuns::pipe_start_refusal, machine::specs::Runs::lowest))]
pub fn start_refusal(settings: Settings, size: usize, address: u64) -> Result<(), Refusal>
    ensures { number_of result ≡ pipe_start_refusal settings size address }
{
    if size_refused(size) {
        return Err(Refusal::MemorySize);
    }
    if settings_refused(settings) | window_refused(settings.window, size) {
        return Err(Refusal::BadRecord);
    }
    if start_refused(size, address) {
        return Err(Refusal::StartOutside);
    }
    Ok(())
}

// The lowest refusal of a run; short says that a lent log is shorter than the budget.
#[tactic(auto, unfolding(crate::specs::Parts::refusal_by, machine::specs::Runs::lowest))]
pub fn refusal(pipeline: Pipeline, size: usize, budget: u64, short: bool) -> Result<(), Refusal>
    ensures { number_of result ≡ refusal_by short pipeline size budget }
{
    if size_refused(size) {
        return Err(Refusal::MemorySize);
    }
    if budget_refused(PIPE_LIMIT, pipeline.cycles, budget) {
        return Err(Refusal::Budget);
    }
    if short {
        return Err(Refusal::ShortBlock);
    }
    if record_refused(pipeline) | window_refused(pipeline.settings.window, size) {
        return Err(Refusal::BadRecord);
    }
    Ok(())
}
