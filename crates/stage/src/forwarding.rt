// Sources and targets, and decode with what is forwarded to it.
ghost use Rattle.std.specs.Prelude.{◌≡◌};
ghost use Rattle.clocked.specs.Prediction.{core_of, awaited_a};
ghost use Rattle.stage.specs.Forwarding.{targets_in, value_in, sources_d, word_w, source_by, decoded_by, awaited_by};

use crate::signals::takes_late;
use clocked::{Finished, Settings, StageD, StageE, StageM, StageW};
use isa::decoding::{loaded_target, result_target, source_a, source_b};
use machine::{Decoded, Instruction, NONE, REGISTERS};

// The registers that an instruction writes, 15 for none, which is document 01's own number: worked out in E, and carried on from there.
#[derive(Clone, Copy)]
pub struct Targets {
    pub result: u8,
    pub loaded: u8,
}

// The registers that D's instruction reads, 15 for none, which is document 01's own number.
#[derive(Clone, Copy)]
pub struct Sources {
    pub a: u8,
    pub b: u8,
}

#[tactic(auto, unfolding(crate::specs::Forwarding::sources_d))]
pub fn sources_d(d: StageD) -> Sources
    ensures { result ≡ sources_d d }
{
    d.map_or(
        Sources { a: NONE, b: NONE },
        |i| Sources {
            a: source_a(i),
            b: source_b(i),
        },
    )
}

// Of D's sources the one that may come late is not waited for.
#[tactic(auto, unfolding(crate::specs::Forwarding::awaited_by))]
pub fn awaited(settings: Settings, d: StageD, a: u8) -> u8
    ensures { result ≡ awaited_by (core_of settings) d a }
{
    if d.is_some_and(|i| takes_late(settings, i)) {
        NONE
    } else {
        a
    }
}

// The same of an instruction.
#[tactic(auto, unfolding(clocked::specs::Prediction::awaited_a))]
pub fn awaited_a(settings: Settings, i: Instruction) -> u8
    ensures { result ≡ awaited_a (core_of settings) i }
{
    if takes_late(settings, i) {
        NONE
    } else {
        source_a(i)
    }
}

// A bubble's.
pub const NO_TARGETS: Targets = Targets {
    result: NONE,
    loaded: NONE,
};

// Of what stands in a stage, if it has been executed.
#[tactic(auto, unfolding(crate::specs::Forwarding::targets_in, crate::specs::Forwarding::targets_of))]
pub fn targets_in<T: Finished + Copy>(stage: Option<T>) -> Targets
    ensures { result ≡ targets_in T.instruction_of T.holds_of stage }
{
    stage.map_or(
        NO_TARGETS,
        |x| Targets {
            result: result_target(x.instruction(), x.holds()),
            loaded: loaded_target(x.instruction()),
        },
    )
}

#[tactic(auto, unfolding(crate::specs::Forwarding::value_in))]
pub fn result_in<T: Finished>(stage: Option<T>) -> u64
    ensures { result ≡ value_in T.result_of stage }
{
    stage.map_or(0, |x| x.result())
}

#[tactic(auto, unfolding(crate::specs::Forwarding::word_w))]
pub fn word_w(w: StageW) -> u64
    ensures { result ≡ word_w w }
{
    w.map_or(0, |x| x.word)
}

// "the first match of: result in E, word loaded in M, result in M", then the register file, which W has written by now.
#[tactic(auto, unfolding(crate::specs::Forwarding::source_by, crate::specs::Forwarding::result_m, crate::specs::Forwarding::result_w, machine::specs::Memory::value))]
fn source(
    t: Targets,
    executed: StageM,
    u: Targets,
    accessed: StageW,
    registers: &[u64; REGISTERS],
    q: u8,
) -> u64
    ensures { result ≡ source_by t executed u accessed registers.now q }
{
    if NONE <= q {
        return 0; // matches nothing
    }
    if t.result == q {
        return result_in(executed);
    }
    if u.loaded == q {
        return word_w(accessed);
    }
    if u.result == q {
        return result_in(accessed);
    }
    let k = q as usize;
    registers[k]
}

// t and u are the targets of what stood in E and in M.
#[tactic(auto, unfolding(crate::specs::Forwarding::decoded_by))]
pub fn decode_d(
    d: StageD,
    s: Sources,
    t: Targets,
    executed: StageM,
    u: Targets,
    accessed: StageW,
    registers: &[u64; REGISTERS],
) -> StageE
    ensures { result ≡ decoded_by s t executed u accessed registers.now d }
{
    d.map(|instruction| Decoded {
        instruction,
        a: source(t, executed, u, accessed, registers, s.a),
        b: source(t, executed, u, accessed, registers, s.b),
    })
}
