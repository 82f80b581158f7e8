// Both engines from one start, for a caller who wants to compare them.

#![tactic(auto)]

ghost use Rattle.std.specs.Prelude.{◌≡◌};
ghost use Rattle.machine.specs.Memory.{lent};
ghost use Rattle.machine.specs.Runs.{plain_answer};
ghost use Rattle.clocked.specs.PipeRuns.{pipe_answer};
ghost use Rattle.answers.specs.Numbers.{number_in, record_in};
ghost use Rattle.together.specs.Both.{start_of, plain_fresh, pipe_fresh, both_answer, RunsBoth};

use answers::Refused;
use clocked::{Pipeline, Settings};
use machine::{Codes, Machine, REGISTERS, Window};

// What each engine answers.
#[derive(Clone, Copy)]
pub struct Both {
    pub plain: Result<Machine, Refused<Machine>>,
    pub pipe: Result<Pipeline, Refused<Pipeline>>,
}

// The plain engine from a fresh start, which is not run where it is refused.
fn run_plain(
    window: Window,
    registers: [u64; REGISTERS],
    codes: Codes,
    address: u64,
    memory: &mut [u8],
    budget: u64,
    log: &mut [u64],
) -> Result<Machine, Refused<Machine>>
    ensures { plain_answer (number_in result) (record_in result) (lent memory.new) log.new
        ≡ plain_fresh window registers codes address (lent memory.old) budget log.old }
{
    let machine = plain::start(window, memory.len(), registers, codes, address)?;
    plain::run(machine, memory, budget, log)
}

// The pipeline in the same way.
fn run_pipe(
    settings: Settings,
    registers: [u64; REGISTERS],
    codes: Codes,
    address: u64,
    memory: &mut [u8],
    budget: u64,
    addresses: &mut [u64],
    cycles: &mut [u64],
) -> Result<Pipeline, Refused<Pipeline>>
    ensures { pipe_answer (number_in result) (record_in result) (lent memory.new) addresses.new cycles.new
        ≡ pipe_fresh settings registers codes address (lent memory.old) budget addresses.old cycles.old }
{
    let pipeline = pipe::start(settings, memory.len(), registers, codes, address)?;
    pipe::run(pipeline, memory, budget, addresses, cycles)
}

// Both engines started alike and run: the plain engine in memory, the pipeline in a copy of it. A refusal of one leaves the other alone.
pub fn run_both(
    settings: Settings,
    registers: [u64; REGISTERS],
    codes: Codes,
    address: u64,
    memory: &mut [u8],
    copy: &mut [u8],
    budget: u64,
    clocked: u64,
    log: &mut [u64],
    addresses: &mut [u64],
    cycles: &mut [u64],
) -> Both
    ensures { RunsBoth (start_of settings registers codes address (lent memory.old)) (lent copy.old) budget clocked
        log.old addresses.old cycles.old
        (both_answer (plain_answer (number_in result.plain) (record_in result.plain) (lent memory.new) log.new)
        (pipe_answer (number_in result.pipe) (record_in result.pipe) (lent copy.new) addresses.new cycles.new)) }
{
    let window = settings.window;
    let plain = run_plain(window, registers, codes, address, memory, budget, log);
    let pipe = run_pipe(
        settings, registers, codes, address, copy, clocked, addresses, cycles,
    );
    Both { plain, pipe }
}
