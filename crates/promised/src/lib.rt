// The code meets the promises that the crate cases speaks of: each open operation, called, fits its own. A contract of theirs that said less
// would fail here. They are alike, since each has to call its operation by name.

#![tactic(auto)]

ghost use Rattle.std.specs.Prelude.{[]};
ghost use Rattle.machine.specs.Memory.{lent};
ghost use Rattle.machine.specs.Runs.{fetched_as, plain_answer};
ghost use Rattle.clocked.specs.PipeRuns.{pipe_answer};
ghost use Rattle.listing.specs.Reading.{answered};
ghost use Rattle.day_edge.specs.Days.{day_at};
ghost use Rattle.encoding.specs.Encode.{fields};
ghost use Rattle.writing_edge.specs.Writings.{written};
ghost use Rattle.edge.specs.Edge.{edge};
ghost use Rattle.replay_ends.specs.Ends.{numbers};
ghost use Rattle.listing_edge.specs.Listings.{listing_edge};
ghost use Rattle.together.specs.Both.{start_of, both_answer};
ghost use Rattle.answers.specs.Numbers.{number_in, record_in};
ghost use Rattle.cases.specs.Promises.{Fits, fetching, plain_start_operation, plain_step_operation, plain_run_operation};
ghost use Rattle.cases.specs.Listings.{listing_read_lem, edge_listing};
ghost use Rattle.cases.specs.Program.{report_image, image_run_lem, write_report};
ghost use Rattle.cases.specs.Promises.{pipe_start_operation, pipe_clock_operation, pipe_run_operation, pipe_run_unlogged_operation, host_edge, replay_set, run_both};
ghost use Rattle.cases.specs.Promises.{day_judged, day_exported, instruction_encoded, listing_written_lem, input_reported};

use answers::Refused;
use clocked::{Pipeline, Settings};
use machine::{Codes, Fetched, Machine, REGISTERS, Window};

fn fetch(memory: &[u8], address: u64) -> Result<Fetched, Refused<Fetched>>
    ensures { Fits fetching (lent memory.now, address) (fetched_as (number_in result) (record_in result)) }
{
    fetching::fetch(memory, address)
}

fn plain_start(
    window: Window,
    size: usize,
    registers: [u64; REGISTERS],
    codes: Codes,
    address: u64,
) -> Result<Machine, Refused<Machine>>
    ensures { Fits plain_start_operation (window, size, registers, codes, address) (number_in result, record_in result) }
{
    plain::start(window, size, registers, codes, address)
}

fn plain_step(machine: Machine, memory: &mut [u8]) -> Result<Machine, Refused<Machine>>
    ensures { Fits plain_step_operation (machine, lent memory.old) (plain_answer (number_in result) (record_in result) (lent memory.new) []) }
{
    plain::step(machine, memory)
}

fn plain_run(
    machine: Machine,
    memory: &mut [u8],
    budget: u64,
    log: &mut [u64],
) -> Result<Machine, Refused<Machine>>
    ensures { Fits plain_run_operation (machine, lent memory.old, budget, log.old)
        (plain_answer (number_in result) (record_in result) (lent memory.new) log.new) }
{
    plain::run(machine, memory, budget, log)
}

fn pipe_start(
    settings: Settings,
    size: usize,
    registers: [u64; REGISTERS],
    codes: Codes,
    address: u64,
) -> Result<Pipeline, Refused<Pipeline>>
    ensures { Fits pipe_start_operation (settings, size, registers, codes, address) (number_in result, record_in result) }
{
    pipe::start(settings, size, registers, codes, address)
}

fn pipe_clock(pipeline: Pipeline, memory: &mut [u8]) -> Result<Pipeline, Refused<Pipeline>>
    ensures { Fits pipe_clock_operation (pipeline, lent memory.old) (pipe_answer (number_in result) (record_in result) (lent memory.new) [] []) }
{
    pipe::clock(pipeline, memory)
}

fn pipe_run(
    pipeline: Pipeline,
    memory: &mut [u8],
    budget: u64,
    addresses: &mut [u64],
    cycles: &mut [u64],
) -> Result<Pipeline, Refused<Pipeline>>
    ensures { Fits pipe_run_operation (pipeline, lent memory.old, budget, addresses.old, cycles.old)
        (pipe_answer (number_in result) (record_in result) (lent memory.new) addresses.new cycles.new) }
{
    pipe::run(pipeline, memory, budget, addresses, cycles)
}

fn pipe_run_unlogged(
    pipeline: Pipeline,
    memory: &mut [u8],
    budget: u64,
) -> Result<Pipeline, Refused<Pipeline>>
    ensures { Fits pipe_run_unlogged_operation (pipeline, lent memory.old, budget)
        (pipe_answer (number_in result) (record_in result) (lent memory.new) [] []) }
{
    pipe::run_unlogged(pipeline, memory, budget)
}

fn host_edge(
    memory: &mut [u8],
    registers: &mut [u8],
    res: &mut [u8],
    start: u64,
    codes: u64,
    budget: u64,
) -> u64
    ensures { Fits host_edge (memory.old, registers.old, res.old, start, codes, budget)
        (edge result memory.new registers.new res.new) }
{
    edge::y86_replay(memory, registers, res, start, codes, budget)
}

fn replay_set(
    memory: &mut [u8],
    registers: &mut [u8],
    res: &mut [u8],
    start: u64,
    codes: u64,
    budget: u64,
    rule: u64,
    late: u64,
    windowed: u64,
    first: u64,
    end: u64,
) -> u64
    ensures { Fits replay_set (numbers rule late windowed first end, memory.old, registers.old, res.old, start, codes, budget)
        (edge result memory.new registers.new res.new) }
{
    edge::replay_set(
        memory, registers, res, start, codes, budget, rule, late, windowed, first, end,
    )
}

fn both(
    settings: Settings,
    registers: [u64; REGISTERS],
    codes: Codes,
    address: u64,
    memory: &mut [u8],
    copy: &mut [u8],
    budget: u64,
    clocked: u64,
    log: &mut [u64],
    addresses: &mut [u64],
    cycles: &mut [u64],
) -> together::Both
    ensures { Fits run_both (
      start_of settings registers codes address (lent memory.old),
      lent copy.old,
      budget,
      clocked,
      log.old,
      addresses.old,
      cycles.old,
    )
        (both_answer (plain_answer (number_in result.plain) (record_in result.plain) (lent memory.new) log.new)
        (pipe_answer (number_in result.pipe) (record_in result.pipe) (lent copy.new) addresses.new cycles.new)) }
{
    together::run_both(
        settings, registers, codes, address, memory, copy, budget, clocked, log, addresses, cycles,
    )
}

fn report_image(image: &mut [u8], out: &mut [u8; 652]) -> usize
    ensures { Fits report_image (image.old, out.old) (result, out.new, image.new) }
{
    report::report_image(image, out)
}

fn run_image(image: &mut [u8]) -> Result<Pipeline, Refused<Pipeline>>
    ensures { Fits image_run_lem image.old (pipe_answer (number_in result) (record_in result) (lent image.new) [] []) }
{
    report::run_image(image)
}

fn write_report(number: u64, end: Pipeline, out: &mut [u8; 652]) -> usize
    ensures { Fits write_report (number, end, out.old) (result, out.new) }
{
    report::write_report(number, end, out)
}

fn listing_read(text: &[u8], memory: &mut [u8]) -> Result<(), listing::Unread>
    ensures { Fits listing_read_lem (text.now, memory.old) (answered result memory.new) }
{
    listing::read(text, memory)
}

fn edge_listing(text: &[u8], memory: &mut [u8], fault: &mut [u8]) -> u64
    ensures { Fits edge_listing (text.now, memory.old, fault.old)
        (listing_edge result memory.new fault.new) }
{
    edge::y86_read_listing(text, memory, fault)
}

fn day_judged(
    memory: &[u8],
    table: u64,
    length: u64,
    filed: u64,
) -> Result<peaks::Day, peaks::Refusal>
    ensures { Fits day_judged (lent memory.now, table, length, filed) result }
{
    peaks::judge(memory, table, length, filed)
}

fn day_exported(memory: &[u8], res: &mut [u8], table: u64, length: u64, filed: u64) -> u64
    ensures { Fits day_exported (memory.now, res.old, table, length, filed) (day_at result res.new) }
{
    edge::y86_peaks(memory, res, table, length, filed)
}

fn instruction_encoded(
    bytes: &mut [u8],
    length: &mut [u8],
    code: u64,
    function: u64,
    ra: u64,
    rb: u64,
    constant: u64,
) -> u64
    ensures { Fits instruction_encoded (bytes.old, length.old, fields code function ra rb constant)
        (written result bytes.new length.new) }
{
    edge::y86_encode(bytes, length, code, function, ra, rb, constant)
}

fn listing_written(memory: &[u8], text: &mut [u8], length: &mut [u8], start: u64, end: u64) -> u64
    ensures { Fits listing_written_lem (memory.now, text.old, length.old, start, end)
        (written result text.new length.new) }
{
    edge::y86_write_listing(memory, text, length, start, end)
}

fn input_reported(input: &mut [u8], out: &mut [u8; 144]) -> usize
    ensures { Fits input_reported (input.old, out.old) (result, out.new, input.new) }
{
    dayreport::report_input(input, out)
}
