// The remark of a line: the instruction in CS:APP's notation, constants in unsigned decimal and never left out.
ghost use Rattle.std.specs.Prelude.{◌≡◌, cond, ◌++◌, ◌+◌, ◌-◌, ◌≤◌, ltb, length, get_or};
ghost use Rattle.machine.specs.declared.Status.TheVariants.{Aok as aok};
ghost use Rattle.machine.specs.Fetch.{size_at};
ghost use Rattle.machine.specs.Memory.{lent};
ghost use Rattle.machine.specs.Words.{number};
ghost use Rattle.text.specs.Decimal.{decimal};
ghost use Rattle.text.specs.Put.{Put};
ghost use Rattle.writing.specs.Remark.{operands_of, nothing, operands, register, remark};
ghost use Rattle.writing.specs.There.{there_at};

use crate::reaching::byte_at;
use crate::words::{put_mnemonic, put_register};
use lookup::size_of;
use text::Writer;

// A register behind a text.
fn put_then_register(out: &mut Writer<'_>, text: &[u8], number: u8)
    ensures { Put (text.now ++ register number) out.old out.new }
{
    out.text(text);
    put_register(out, number);
}

// A constant behind it.
fn put_then_constant(out: &mut Writer<'_>, text: &[u8], constant: u64)
    ensures { Put (text.now ++ decimal constant) out.old out.new }
{
    out.text(text);
    out.decimal(constant);
}

// What stands behind the name: nothing; rA and rB; C and rB; rA to memory; memory to rA; C; rA.
#[derive(Clone, Copy)]
pub enum Operands {
    Nothing,
    Pair,
    Immediate,
    Store,
    Load,
    Target,
    Single,
}

// By code.
const OPERANDS: [Operands; 13] = [
    Operands::Nothing, // halt
    Operands::Nothing, // nop
    Operands::Pair, // cmovXX
    Operands::Immediate, // irmovq
    Operands::Store, // rmmovq
    Operands::Load, // mrmovq
    Operands::Pair, // OPq
    Operands::Target, // jXX
    Operands::Target, // call
    Operands::Nothing, // ret
    Operands::Single, // pushq
    Operands::Single, // popq
    Operands::Immediate, // iaddq
];

// A code past the last instruction has none.
#[tactic(auto, unfolding(crate::specs::Remark::operands_of))]
fn operands_of(code: u8) -> Operands
    ensures { result ≡ get_or operands_of code nothing }
{
    let row = code as usize;
    if row < 13 {
        OPERANDS[row]
    } else {
        Operands::Nothing
    }
}

fn put_operands(out: &mut Writer<'_>, code: u8, ra: u8, rb: u8, constant: u64)
    ensures { Put (operands (get_or operands_of code nothing) ra rb constant) out.old out.new }
{
    match operands_of(code) {
        Operands::Nothing => {}
        Operands::Pair => {
            put_then_register(out, b" ", ra);
            put_then_register(out, b", ", rb);
        }
        Operands::Immediate => {
            put_then_constant(out, b" $", constant);
            put_then_register(out, b", ", rb);
        }
        Operands::Store => {
            put_then_register(out, b" ", ra);
            put_then_constant(out, b", ", constant);
            put_then_register(out, b"(", rb);
            out.byte(b')');
        }
        Operands::Load => {
            put_then_constant(out, b" ", constant);
            put_then_register(out, b"(", rb);
            put_then_register(out, b"), ", ra);
        }
        Operands::Target => put_then_constant(out, b" ", constant),
        Operands::Single => put_then_register(out, b" ", ra),
    }
}

// The last eight bytes of an instruction that is longer than that.
fn constant_at(memory: &[u8], address: u64, size: u8) -> u64
    requires { address + size ≤ length memory.now }
    ensures { result ≡ cond (ltb 8 size) (number 8 memory.now (address + (size - 8))) 0 }
{
    if 8 < size {
        return word::load(memory, address + (size - 8) as u64);
    }
    0
}

// An instruction that is fetched; a half of the register byte that names none is not shown, and a halt has its name as all others.
pub fn put_remark(out: &mut Writer<'_>, memory: &[u8], address: u64)
    requires { (address + size_at (lent memory.now) address ≤ length memory.now) × (length memory.now ≤ 65536) }
    ensures { Put (remark aok (there_at (lent memory.now) address)) out.old out.new }
{
    let first = byte_at(memory, address as usize);
    let pair = byte_at(memory, address as usize + 1);
    let code = first / 16;
    let constant = constant_at(memory, address, size_of(code));
    put_mnemonic(out, code, first % 16);
    put_operands(out, code, pair / 16, pair % 16, constant);
}
