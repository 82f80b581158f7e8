// One clock of the stages: what stands in F to W, and the codes, with registers and memory beside them.

#![tactic(auto)]

ghost use Rattle.std.specs.Prelude.{◌≡◌, length};
ghost use Rattle.machine.specs.Memory.{lent, through};
ghost use Rattle.machine.specs.Fetch.{fetch as fetch_of};
ghost use Rattle.clocked.specs.Prediction.{core_of};
ghost use Rattle.clocked.specs.Pipeline.{memory_after, registers_after, returned_to};
ghost use Rattle.stage.specs.Addresses.{mended_by};
ghost use Rattle.stage.specs.Forwarding.{sources_d, targets_m, targets_w};
ghost use Rattle.flow.specs.Moving.{ahead_of, signals_by, decoded_in, flow_after};

use clocked::{Settings, StageD, StageE, StageM, StageW};
use fetching::instruction_at;
use machine::{Codes, Instruction, REGISTERS, Window};
use stage::addresses::fetch_address;
use stage::controls::{next_codes, next_d, next_f, next_stage, next_targets};
use stage::forwarding::{Sources, Targets, awaited, decode_d, sources_d, targets_in};
use stage::signals::{bad_in_w, meets_either, patched_in_w, ret_on_the_way, wrong};
use stage::working::{after_e, after_m, registers_after};

// F to W with the codes: what a clock works on, without registers and counts.
#[derive(Clone, Copy)]
pub struct Flow {
    pub predicted: u64,
    pub d: StageD,
    pub e: StageE,
    pub m: StageM,
    pub w: StageW,
    pub codes: Codes,
    pub ahead: Ahead,
}

// What is worked out in E and carried on from there: the targets of what stands in M and in W, and whether M holds a wrongly guessed jump.
#[derive(Clone, Copy)]
pub struct Ahead {
    pub m: Targets,
    pub w: Targets,
    pub wrong: bool,
}

// What the controls go by.
#[derive(Clone, Copy)]
pub struct Signals {
    pub waits: bool,
    pub mispredicts: bool,
    pub returns: bool,
    pub fails: bool,
    pub cancels: bool,
}

// The stages come one by one: a struct of them would be made for this call alone.
#[tactic(auto, unfolding(crate::specs::Moving::signals_by, crate::specs::Moving::signals_with))]
fn signals_now(
    settings: Settings,
    sources: Sources,
    targets: Targets,
    d: StageD,
    e: StageE,
    m: StageM,
    executed: StageM,
    accessed: StageW,
) -> Signals
    ensures { result ≡ signals_by (core_of settings) sources targets d e m executed accessed }
{
    Signals {
        waits: meets_either(targets.loaded, awaited(settings, d, sources.a), sources.b),
        mispredicts: wrong(settings, executed),
        returns: ret_on_the_way(d, e, m),
        fails: bad_in_w(accessed),
        cancels: patched_in_w(accessed),
    }
}

// What is fetched; wrong says that the jump in M was guessed wrongly.
fn fetch_now(
    window: Window,
    wrong: bool,
    m: StageM,
    w: StageW,
    predicted: u64,
    memory: &[u8],
) -> Instruction
    ensures { result ≡ fetch_of (through window (lent memory.now)) (mended_by wrong m (returned_to w predicted)) }
{
    instruction_at(window, memory, fetch_address(wrong, m, w, predicted))
}

// W writes its registers before decode reads them, so that nothing of W's has to be forwarded.
#[tactic(auto, using(crate::proofs::Ways::registers_are, crate::proofs::Ways::decoded_now))]
fn write_and_decode(
    d: StageD,
    sources: Sources,
    targets: Targets,
    executed: StageM,
    accessed: StageW,
    w: StageW,
    ahead: Ahead,
    registers: &mut [u64; REGISTERS],
) -> StageE
    requires { (length registers.old ≡ 15) × (sources ≡ sources_d d) × (targets ≡ targets_m executed)
        × (ahead.m ≡ targets_w accessed) × (ahead.w ≡ targets_w w) }
    ensures { (result ≡ decoded_in d executed accessed w registers.old) × (registers.new ≡ registers_after w registers.old) }
{
    let in_m = ahead.m;
    let in_w = ahead.w;
    registers_after(in_w, w, registers);
    decode_d(d, sources, targets, executed, in_m, accessed, registers)
}

// A clock in which no bad status stands in W: fetch reads memory before the clock's write.
pub fn advance(
    settings: Settings,
    flow: Flow,
    registers: &mut [u64; REGISTERS],
    memory: &mut [u8],
) -> Flow
    requires { (length registers.old ≡ 15) × (flow.ahead ≡ ahead_of (core_of settings) flow.m flow.w) }
    ensures { (result ≡ flow_after (core_of settings) flow registers.old (through settings.window (lent memory.old)))
        × (registers.new ≡ registers_after flow.w registers.old)
        × (through settings.window (lent memory.new) ≡ memory_after flow.m (through settings.window (lent memory.old))) }
{
    let d = flow.d;
    let e = flow.e;
    let m = flow.m;
    let w = flow.w;
    let codes = flow.codes;
    let ahead = flow.ahead;
    let in_m = ahead.m;
    let window = settings.window;
    let fetched = fetch_now(window, ahead.wrong, m, w, flow.predicted, memory);
    let accessed = after_m(window, m, memory);
    let executed = after_e(settings, accessed, e, codes);
    let targets = targets_in(executed);
    let sources = sources_d(d);
    let decoded = write_and_decode(d, sources, targets, executed, accessed, w, ahead, registers);
    let s = signals_now(settings, sources, targets, d, e, m, executed, accessed);
    let emptied = s.cancels | s.fails;
    let carried = Ahead {
        m: next_targets(emptied, targets),
        w: in_m,
        wrong: s.mispredicts & !emptied,
    };
    let held = s.waits | s.returns;
    Flow {
        predicted: next_f(settings, s.cancels, m, held, flow.predicted, fetched),
        d: next_d(s.cancels | s.mispredicts, s.waits, s.returns, d, fetched),
        e: next_stage(s.cancels | (s.mispredicts | s.waits), decoded),
        m: next_stage(emptied, executed),
        w: accessed,
        codes: next_codes(emptied, e, codes),
        ahead: carried,
    }
}
