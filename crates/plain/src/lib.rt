// The plain engine: one instruction at a time.

#![tactic(auto)]

ghost use Rattle.std.specs.Prelude.{◌≡◌, false, [], ◌∷◌, ℕ, ◌+◌, ◌≤◌, ◌<◌};
ghost use Rattle.machine.specs.declared.Machine.{Machine as MachineOf};
ghost use Rattle.machine.specs.Types.{no_window};
ghost use Rattle.machine.specs.Types.{is_bad};
ghost use Rattle.machine.specs.Memory.{lent, through, value as value_of};
ghost use Rattle.machine.specs.Stages.{decode};
ghost use Rattle.machine.specs.Plain.{plain_of, step as step_of};
ghost use Rattle.machine.specs.Runs.{plain_started, plain_limit, plain_refusal, plain_answer, plain_run, plain_step};
ghost use Rattle.answers.specs.Numbers.{number_of, number_in, record_in};
ghost use Rattle.plain.specs.Records.{with_register, after_performed, after_stop, RunsTo};

use answers::{Refusal, Refused};
use fetching::{blame_of, instruction_at};
use isa::accessing::{access, update};
use isa::decoding::{is_bad, loaded_target, result_target, source_a, source_b, value, write};
use isa::executing::{execute, new_codes, next_address};
use machine::{
    Accessed, Blame, Codes, Decoded, Instruction, Machine, PLAIN_LIMIT, REGISTERS, Status, Window,
};

// A fresh start in memory of that size; refused, it hands back the record that was asked for.
#[tactic(auto, unfolding(machine::specs::Runs::plain_started, machine::specs::Plain::plain_start, machine::specs::Fetch::no_blame))]
pub fn start(
    window: Window,
    size: usize,
    registers: [u64; REGISTERS],
    codes: Codes,
    address: u64,
) -> Result<Machine, Refused<Machine>>
    ensures { ◌≡◌ {A = ℕ × MachineOf} (number_in result, record_in result) (plain_started window size registers codes address) }
{
    let fresh = Machine {
        registers,
        codes,
        address,
        status: Status::Aok,
        last: address,
        count: 0,
        blame: Blame {
            fault: None,
            address: 0,
        },
        window,
    };
    match answers::start_refusal(window, size, address) {
        Ok(()) => Ok(fresh),
        Err(why) => Err(Refused { why, given: fresh }),
    }
}

// The record with one register changed, returned as document 01 has it: 15 changes nothing.
#[tactic(auto, unfolding(crate::specs::Records::with_register))]
fn with_register(m: Machine, q: u8, v: u64) -> Machine
    ensures { result ≡ with_register m q v }
{
    let mut next = m;
    write(&mut next.registers, q, v);
    next
}

#[tactic(auto, unfolding(machine::specs::Stages::decode))]
fn decoded(m: Machine, i: Instruction) -> Decoded
    ensures { result ≡ decode i (value_of m.registers) }
{
    Decoded {
        instruction: i,
        a: value(&m.registers, source_a(i)),
        b: value(&m.registers, source_b(i)),
    }
}

// The record after an instruction with AOK: the result is written first, and then the loaded word.
#[tactic(auto, unfolding(crate::specs::Records::after_performed, crate::specs::Records::with_register, machine::specs::Stages::new_registers))]
fn after_performed(m: Machine, x: Decoded, w: Accessed) -> Machine
    requires { m.count < plain_limit }
    ensures { result ≡ after_performed m x w }
{
    let i = w.instruction;
    let target = result_target(i, w.holds);
    let loaded = loaded_target(i);
    let one = with_register(m, target, w.result);
    let both = with_register(one, loaded, w.word);
    Machine {
        codes: new_codes(x, m.codes),
        address: next_address(w),
        status: Status::Aok,
        last: m.address,
        count: m.count + 1,
        ..both
    }
}

// The record after the stopping instruction.
#[tactic(auto, unfolding(crate::specs::Records::after_stop))]
fn after_stop(m: Machine, status: Status, blame: Blame) -> Machine
    requires { m.count < plain_limit }
    ensures { result ≡ after_stop m status blame }
{
    Machine {
        status,
        last: m.address,
        count: m.count + 1,
        blame,
        ..m
    }
}

// One instruction of a machine that runs.
fn advance(m: Machine, memory: &mut [u8]) -> Machine
    requires { (m.count < plain_limit) × (is_bad m.status ≡ false) }
    ensures { (result ≡ (step_of (plain_of m (lent memory.old))).machine)
        × (lent memory.new ≡ through no_window (step_of (plain_of m (lent memory.old))).memory) }
{
    let i = instruction_at(m.window, memory, m.address);
    let x = decoded(m, i);
    let e = execute(x, m.codes);
    let w = access(e, m.window, memory);
    if is_bad(w.status) {
        return after_stop(m, w.status, blame_of(m.window, memory, i));
    }
    update(e, memory);
    after_performed(m, x, w)
}

// One instruction after another, up to a stop. That the count stays below the limit is asked and no invariant of the record, which a caller may make by hand.
// Not put into `run`: there the record was copied byte by byte at each instruction (docs/DESIGN-PASS.md).
#[inline(never)]
fn run_on(m: Machine, memory: &mut [u8], budget: u64, log: &mut [u64]) -> Machine
    requires { m.count + budget ≤ plain_limit }
    ensures { RunsTo m (lent memory.old) budget log.old result (lent memory.new) log.new }
{
    let mut s = m;
    for done in 0..budget {
        if s.status != Status::Aok {
            break;
        }
        answers::note(log, done, s.address);
        s = advance(s, memory);
    }
    s
}

// The lowest refusal of a run.
#[tactic(auto, unfolding(machine::specs::Runs::plain_refusal, machine::specs::Runs::lowest, machine::specs::Runs::log_refused))]
fn refusal(m: Machine, size: usize, budget: u64, log: usize) -> Result<(), Refusal>
    ensures { number_of result ≡ plain_refusal m.window size m.count budget (log ∷ []) }
{
    if answers::size_refused(size) {
        return Err(Refusal::MemorySize);
    }
    if answers::budget_refused(PLAIN_LIMIT, m.count, budget) {
        return Err(Refusal::Budget);
    }
    if (log as u64) < budget {
        return Err(Refusal::ShortBlock);
    }
    if answers::window_refused(m.window, size) {
        return Err(Refusal::BadRecord);
    }
    Ok(())
}

// A run with an instruction budget and a lent log of addresses; refused, it hands the record back as it was.
pub fn run(
    machine: Machine,
    memory: &mut [u8],
    budget: u64,
    log: &mut [u64],
) -> Result<Machine, Refused<Machine>>
    ensures { plain_answer (number_in result) (record_in result) (lent memory.new) log.new
        ≡ plain_run machine (lent memory.old) budget log.old }
{
    match refusal(machine, memory.len(), budget, log.len()) {
        Ok(()) => Ok(run_on(machine, memory, budget, log)),
        Err(why) => Err(Refused {
            why,
            given: machine,
        }),
    }
}

// A step is a run of 1 without a log: it lends one of its own.
pub fn step(machine: Machine, memory: &mut [u8]) -> Result<Machine, Refused<Machine>>
    ensures { plain_answer (number_in result) (record_in result) (lent memory.new) [] ≡ plain_step machine (lent memory.old) }
{
    run(machine, memory, 1, &mut [0u64; 1])
}
