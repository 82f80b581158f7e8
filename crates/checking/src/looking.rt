// The next instruction as the plain engine will perform it, and the line that is due for it.
ghost use Rattle.std.specs.Prelude.{◌≡◌, None, Some, cond, ◌+◌, ◌≤◌, length, drop};
ghost use Rattle.machine.specs.Memory.{lent, value as value_of};
ghost use Rattle.machine.specs.Stages.{new_registers};
ghost use Rattle.machine.specs.Plain.{plain_of, executed};
ghost use Rattle.clocked.specs.Charges.{amount};
ghost use Rattle.trace.specs.Line.{trace_line};
ghost use Rattle.trace.specs.Verdict.{begins as begins_of};

use clocked::Reason;
use fetching::instruction_at;
use isa::decoding::{loaded_target, result_target, source_a, source_b, value, write};
use isa::executing::execute;
use machine::{Accessed, Decoded, Executed, Machine, REGISTERS};
use trace_lines::{Line, begins, write_line};

// The next instruction after execution, before any of it is done.
#[tactic(auto, unfolding(machine::specs::Plain::executed, machine::specs::Plain::decoded, machine::specs::Plain::fetched, machine::specs::Stages::decode))]
pub fn executed_at(m: Machine, memory: &[u8]) -> Executed
    ensures { result ≡ executed (plain_of m (lent memory.now)) }
{
    let i = instruction_at(m.window, memory, m.address);
    let x = Decoded {
        instruction: i,
        a: value(&m.registers, source_a(i)),
        b: value(&m.registers, source_b(i)),
    };
    execute(x, m.codes)
}

// A register's value once the instruction has written: its result first, and then the loaded word.
#[tactic(auto, unfolding(machine::specs::Stages::new_registers))]
pub fn value_after(registers: [u64; REGISTERS], w: Accessed, q: u8) -> u64
    ensures { result ≡ value_of (new_registers w registers) q }
{
    let i = w.instruction;
    let mut after = registers;
    write(&mut after, result_target(i, w.holds), w.result);
    write(&mut after, loaded_target(i), w.word);
    value(&after, q)
}

// Document 01's decision by kind; no conversion, since two kinds have one number.
#[tactic(auto, unfolding(clocked::specs::Charges::amount))]
pub fn charge_of(reason: Option<Reason>) -> u64
    ensures { (result ≡ amount reason) × (result ≤ 3) }
{
    match reason {
        None => 0,
        Some(Reason::Waited) => 1,
        Some(Reason::WronglyGuessed) => 2,
        Some(Reason::Returned) => 3,
        Some(Reason::Patched) => 3,
    }
}

// The place behind the line, where the text has it at this place.
pub fn passed(text: &[u8], at: usize, line: Line) -> Option<usize>
    requires { at ≤ length text.now }
    ensures { result ≡ cond (begins_of (trace_line line.number line.address line.cycle line.target line.value) (drop at text.now))
        (Some (at + length (trace_line line.number line.address line.cycle line.target line.value))) None }
{
    let mut buffer = [0u8; 88];
    let length = write_line(line, &mut buffer);
    begins(&buffer[..length], &text[at..]).then_some(at + length)
}
