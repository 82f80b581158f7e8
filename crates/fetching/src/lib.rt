// Fetch: document 01's checks in their order.

#![tactic(auto)]

ghost use Rattle.std.specs.Prelude.{◌≡◌, cond, ◌+◌, ◌-◌, ◌≤◌, ◌<◌, eqb, ltb, length, get_or};
ghost use Rattle.machine.specs.Memory.{lent, through, seen_to};
ghost use Rattle.machine.specs.Words.{number};
ghost use Rattle.machine.specs.Types.{faulty};
ghost use Rattle.machine.specs.declared.Fault.TheVariants.{NoCode as no_code, NoFunction as no_function};
ghost use Rattle.machine.specs.Fetch.{fetch as fetch_of, stopping as stopping_of, misnamed as misnamed_of, fault_at, blame_of};
ghost use Rattle.machine.specs.Runs.{fetch_answer, fetched_as};
ghost use Rattle.machine.specs.Table.{no_byte};
ghost use Rattle.answers.specs.Numbers.{number_in, record_in};
ghost use Rattle.lookup.specs.Kinds.{byte_meant};
ghost use Rattle.fetching.specs.Halves.{filled as filled_of};

use answers::{Refusal, Refused, size_refused};
use lookup::kinds::RegisterByte;
use lookup::{byte_of, functions_of, size_of};
use machine::{Blame, Fault, Fetched, HALT, Instruction, NONE, NOP, Status, Window};

// An instruction fetched with a bad status travels as a nop with that status and its reason.
fn stopping(address: u64, status: Status, fault: Option<Fault>) -> Instruction
    ensures { result ≡ stopping_of address status fault }
{
    Instruction {
        address,
        status,
        code: NOP,
        function: 0,
        ra: NONE,
        rb: NONE,
        constant: 0,
        next: address,
        fault,
    }
}

// Of a code without functions the code is at fault, of any other the function.
fn not_in_table(functions: u8) -> Option<Fault>
    ensures { result ≡ cond (eqb functions 0) (faulty no_code) (faulty no_function) }
{
    if functions == 0 {
        return Some(Fault::NoCode);
    }
    Some(Fault::NoFunction)
}

// A named register that is 15.
fn misnamed(byte: RegisterByte, a: u8, b: u8) -> bool
    ensures { result ≡ misnamed_of (byte_meant byte) a b }
{
    match byte {
        RegisterByte::NoByte => false,
        RegisterByte::BothNamed => (a == NONE) | (b == NONE),
        RegisterByte::OnlyB => b == NONE,
        RegisterByte::OnlyA => a == NONE,
    }
}

// F:F, which names no register.
const NONE_NAMED: u8 = 255;

// The register byte with F in place of its filler.
#[tactic(auto, unfolding(lookup::specs::Kinds::byte_meant, crate::specs::Halves::filled))]
fn filled(byte: RegisterByte, pair: u8) -> u8
    ensures { result ≡ filled_of (byte_meant byte) pair }
{
    match byte {
        RegisterByte::NoByte => NONE_NAMED,
        RegisterByte::BothNamed => pair,
        RegisterByte::OnlyB => 240 + pair % 16,
        RegisterByte::OnlyA => pair / 16 * 16 + 15,
    }
}

// The register byte where there is one, its filler not looked at, else one that names none.
#[tactic(auto, unfolding(lookup::specs::Kinds::byte_meant, crate::specs::Halves::filled))]
fn register_byte(memory: &[u8], at: usize, byte: RegisterByte) -> u8
    requires { (byte_meant byte ≡ no_byte → ⊥) → at + 1 < length memory.now }
    ensures { result ≡ filled_of (byte_meant byte) (get_or memory.now (at + 1) 0) }
{
    match byte {
        RegisterByte::NoByte => NONE_NAMED,
        _ => filled(byte, memory[at + 1]),
    }
}

// The constant, the last eight bytes of an instruction that is longer than that.
fn constant_of(memory: &[u8], at: usize, size: u8) -> u64
    requires { at + size ≤ length memory.now }
    ensures { result ≡ cond (ltb 8 size) (number 8 memory.now (at + (size - 8))) 0 }
{
    if 8 < size {
        word::load(memory, (at + (size - 8) as usize) as u64)
    } else {
        0
    }
}

// Where the bytes end that an instruction at this address may have, in memory of that size.
pub fn code_end(window: Window, size: u64, address: u64) -> u64
    ensures { result ≡ seen_to window size address }
{
    match window {
        None => size,
        Some((first, end)) => {
            if address < first {
                address.min(size)
            } else {
                end.min(size)
            }
        }
    }
}

// For the engines, which have tested the size of memory.
pub fn instruction_at(window: Window, memory: &[u8], address: u64) -> Instruction
    ensures { result ≡ fetch_of (through window (lent memory.now)) address }
{
    let n = code_end(window, memory.len() as u64, address);
    if n <= address {
        return stopping(address, Status::Adr, Some(Fault::FirstMissing));
    }
    let at = address as usize;
    let first = memory[at];
    let code = first / 16;
    let function = first % 16;
    let functions = functions_of(code);
    let known = function < functions;
    let size = size_of(code);
    let whole = size as u64 <= n - address;
    let unknown = not_in_table(functions);
    if !known {
        return stopping(address, Status::Ins, unknown);
    }
    if !whole {
        return stopping(address, Status::Adr, Some(Fault::LaterMissing));
    }
    let byte = byte_of(code);
    let pair = register_byte(memory, at, byte);
    let ra = pair / 16;
    let rb = pair % 16;
    if misnamed(byte, ra, rb) {
        return stopping(address, Status::Ins, Some(Fault::NoRegister));
    }
    if code == HALT {
        return stopping(address, Status::Hlt, None);
    }
    Instruction {
        address,
        status: Status::Aok,
        code,
        function,
        ra,
        rb,
        constant: constant_of(memory, at, size),
        next: word::sum(address, size as u64),
        fault: None,
    }
}

// The byte at fault: the lowest missing address, the first byte, or the register byte.
fn fault_at(window: Window, memory: &[u8], address: u64, fault: Option<Fault>) -> u64
    ensures { result ≡ fault_at (through window (lent memory.now)) address fault }
{
    match fault {
        None => 0,
        Some(Fault::FirstMissing) => address,
        Some(Fault::NoCode) => address,
        Some(Fault::NoFunction) => address,
        Some(Fault::LaterMissing) => code_end(window, memory.len() as u64, address),
        Some(Fault::NoRegister) => word::sum(address, 1),
    }
}

// What a bad fetch is blamed on, worked out where it stops: only the reason travels with the instruction.
pub fn blame_of(window: Window, memory: &[u8], i: Instruction) -> Blame
    ensures { result ≡ blame_of (through window (lent memory.now)) i }
{
    let fault = i.fault;
    Blame {
        fault,
        address: fault_at(window, memory, i.address, fault),
    }
}

// The open entry: the instruction, or refusal 1, which gives back the nop that a fetch outside memory gives.
#[tactic(auto, unfolding(machine::specs::Runs::fetch_answer, machine::specs::Runs::lowest))]
pub fn fetch(memory: &[u8], address: u64) -> Result<Fetched, Refused<Fetched>>
    ensures { fetched_as (number_in result) (record_in result) ≡ fetch_answer (lent memory.now) address }
{
    if size_refused(memory.len()) {
        let why = Refusal::MemorySize;
        let missing = stopping(address, Status::Adr, Some(Fault::FirstMissing));
        let given = Fetched {
            instruction: missing,
            blame: blame_of(None, memory, missing),
        };
        return Err(Refused { why, given });
    }
    let instruction = instruction_at(None, memory, address);
    Ok(Fetched {
        instruction,
        blame: blame_of(None, memory, instruction),
    })
}
