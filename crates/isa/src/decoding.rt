// Sources, targets, and the register file.
ghost use Rattle.std.specs.Prelude.{◌≡◌, cond};
ghost use Rattle.machine.specs.Types.{is_bad};
ghost use Rattle.machine.specs.Memory.{value as value_of, written as written_of};
ghost use Rattle.machine.specs.Stages.{register as register_of, source_a, source_b, result_target, loaded_target};
ghost use Rattle.lookup.specs.Kinds.{which_meant};

use lookup::kinds::Which;
use lookup::{a_from, b_from, loaded_of, target_of};
use machine::{CMOV, Instruction, NONE, REGISTERS, RSP, Status};

// By its own name, since the contracts say `is_bad`; the comparison is the derived one.
#[tactic(auto, unfolding(machine::specs::Types::is_bad))]
pub fn is_bad(status: Status) -> bool
    ensures { result ≡ is_bad status }
{
    status != Status::Aok
}

// The register that a table's entry names.
#[tactic(auto, unfolding(lookup::specs::Kinds::which_meant, machine::specs::Stages::register))]
fn register(which: Which, i: Instruction) -> u8
    ensures { result ≡ register_of (which_meant which) i }
{
    match which {
        Which::None => NONE,
        Which::Ra => i.ra,
        Which::Rb => i.rb,
        Which::Rsp => RSP,
    }
}

// The register that a value comes from, 15 for none: a bad instruction reads none.
fn source(which: Which, i: Instruction) -> u8
    ensures { result ≡ cond (is_bad i.status) 15 (register_of (which_meant which) i) }
{
    if is_bad(i.status) {
        NONE
    } else {
        register(which, i)
    }
}

// Sources and targets are a line each, by another column of the table.
// The register that valA comes from.
#[tactic(auto, unfolding(machine::specs::Stages::source_a))]
pub fn source_a(i: Instruction) -> u8
    ensures { result ≡ source_a i }
{
    source(a_from(i.code), i)
}

// The register that valB comes from.
#[tactic(auto, unfolding(machine::specs::Stages::source_b))]
pub fn source_b(i: Instruction) -> u8
    ensures { result ≡ source_b i }
{
    source(b_from(i.code), i)
}

// Where valE goes: a false cmov has no target.
pub fn result_target(i: Instruction, holds: bool) -> u8
    ensures { result ≡ result_target i holds }
{
    if (i.code == CMOV) & !holds {
        NONE
    } else {
        register(target_of(i.code), i)
    }
}

// Where valM goes.
#[tactic(auto, unfolding(machine::specs::Stages::loaded_target))]
pub fn loaded_target(i: Instruction) -> u8
    ensures { result ≡ loaded_target i }
{
    register(loaded_of(i.code), i)
}

// A register's value: 15 reads 0.
pub fn value(registers: &[u64; REGISTERS], q: u8) -> u64
    ensures { result ≡ value_of registers.now q }
{
    if q < NONE {
        let k = q as usize;
        registers[k]
    } else {
        0
    }
}

// One register changed: 15 writes nothing.
pub fn write(registers: &mut [u64; REGISTERS], q: u8, v: u64)
    ensures { registers.new ≡ written_of registers.old q v }
{
    if q < NONE {
        let k = q as usize;
        registers[k] = v;
    }
}
