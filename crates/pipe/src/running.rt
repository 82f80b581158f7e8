// The loop of every entry, with the record taken apart for its length.
ghost use Rattle.std.specs.Prelude.{◌≡◌, false, ◌+◌, ◌≤◌};
ghost use Rattle.machine.specs.Memory.{lent, through};
ghost use Rattle.clocked.specs.Prediction.{core_of};
ghost use Rattle.clocked.specs.Pipeline.{piped_of, clocks};
ghost use Rattle.clocked.specs.PipeRuns.{pipe_limit, pipe_answer, pipe_done, counts_refused};
ghost use Rattle.pipe.specs.Parts.{flow_of, tally_of, whole, blame_in, noted};

use clocked::{Pipeline, Settings, StageW};
use fetching::blame_of;
use flow::{Ahead, Flow, advance};
use isa::decoding::is_bad;
use machine::{Blame, Fault, REGISTERS, Status};
use retiring::{Tally, counted, retires, status_after};
use stage::forwarding::targets_in;
use stage::signals::{bad_in_w, wrong};

// What a clock moves.
#[tactic(auto, unfolding(crate::specs::Parts::flow_of, stage::specs::Forwarding::targets_m, stage::specs::Forwarding::targets_w, flow::specs::Moving::ahead_of))]
fn flow_of(p: Pipeline) -> Flow
    ensures { result ≡ flow_of p }
{
    let ahead = Ahead {
        m: targets_in(p.m),
        w: targets_in(p.w),
        wrong: wrong(p.settings, p.m),
    };
    Flow {
        predicted: p.predicted,
        d: p.d,
        e: p.e,
        m: p.m,
        w: p.w,
        codes: p.codes,
        ahead,
    }
}

// What a clock counts.
#[tactic(auto, unfolding(crate::specs::Parts::tally_of))]
fn tally_of(p: Pipeline) -> Tally
    ensures { result ≡ tally_of p }
{
    Tally {
        last: p.last,
        retired: p.retired,
        cycles: p.cycles,
        kinds: p.kinds,
        kept: p.kept,
    }
}

#[tactic(auto, unfolding(crate::specs::Parts::whole))]
fn put_together(
    settings: Settings,
    flow: Flow,
    tally: Tally,
    status: Status,
    registers: [u64; REGISTERS],
    blame: Blame,
) -> Pipeline
    ensures { result ≡ whole settings flow tally status registers blame }
{
    Pipeline {
        settings,
        predicted: flow.predicted,
        d: flow.d,
        e: flow.e,
        m: flow.m,
        w: flow.w,
        registers,
        codes: flow.codes,
        status,
        last: tally.last,
        retired: tally.retired,
        cycles: tally.cycles,
        kinds: tally.kinds,
        kept: tally.kept,
        blame,
    }
}

// What the instruction in W is blamed on, if it stops the machine.
#[tactic(auto, unfolding(crate::specs::Parts::blame_in, machine::specs::Fetch::no_blame))]
fn blame_in(settings: Settings, w: StageW, memory: &[u8]) -> Blame
    ensures { result ≡ blame_in w (through settings.window (lent memory.now)) }
{
    let none = Blame {
        fault: None,
        address: 0,
    };
    w.map_or(none, |x| blame_of(settings.window, memory, x.instruction))
}

// A retirement goes to its place in a log; a log that is not lent has none.
#[tactic(auto, unfolding(crate::specs::Parts::noted))]
fn note(retired: bool, place: u64, x: u64, log: &mut [u64])
    ensures { log.new ≡ noted retired place x log.old }
{
    if retired {
        answers::note(log, place, x);
    }
}

// Flow, counts and status are locals of their own, and a stop leaves at once: no two branches hand on a flow, which would pin it in memory.
pub fn looped(
    pipeline: Pipeline,
    memory: &mut [u8],
    budget: u64,
    addresses: &mut [u64],
    cycles: &mut [u64],
) -> Pipeline
    requires { (pipeline.cycles + budget ≤ pipe_limit) × (counts_refused pipeline ≡ false) }
    ensures { pipe_answer 0 result (lent memory.new) addresses.new cycles.new
        ≡ pipe_done (clocks (core_of pipeline.settings) (piped_of pipeline (lent memory.old)) budget) addresses.old cycles.old }
{
    let settings = pipeline.settings;
    let first = pipeline.retired;
    let mut registers = pipeline.registers;
    let mut flow = flow_of(pipeline);
    let mut tally = tally_of(pipeline);
    let mut status = pipeline.status;
    let mut blame = pipeline.blame;
    for _done in 0..budget {
        if is_bad(status) {
            break;
        }
        let place = tally.retired - first;
        let w = flow.w;
        let retired = retires(w);
        tally = counted(settings, tally, w);
        status = status_after(w);
        note(retired, place, tally.last, addresses);
        note(retired, place, tally.cycles, cycles);
        if bad_in_w(w) {
            blame = blame_in(settings, w, memory);
            break; // everything else stays as it stood
        }
        flow = advance(settings, flow, &mut registers, memory);
    }
    put_together(settings, flow, tally, status, registers, blame)
}
