// Execute: arithmetic with codes, conditions, and where an instruction leads.
ghost use Rattle.std.specs.Prelude.{◌≡◌};
ghost use Rattle.machine.specs.Stages.{operated as operated_of, overflows as overflows_of, operated_codes, new_codes, condition as condition_of};
ghost use Rattle.machine.specs.Stages.{computed as computed_of, result as result_of, outcome as outcome_of, execute as execute_of};
ghost use Rattle.machine.specs.Stages.{turned as turned_of, straight as straight_of, next_address};
ghost use Rattle.lookup.specs.Kinds.{computes_meant};

use lookup::computes_of;
use lookup::kinds::Computes;
use machine::{
    Accessed, CALL, CMOV, Codes, Decoded, Executed, IADDQ, Instruction, JUMP, OPERATION, RET,
};

// The functions of OPq, and the conditions of cmovXX and jXX. They stay numbers: document 01 wants a match on the copied function number, and a
// record made by hand may hold any.
const ADD: u8 = 0;

const SUBTRACT: u8 = 1;

const AND: u8 = 2;

const XOR: u8 = 3;

const ALWAYS: u8 = 0;

const IF_LE: u8 = 1;

const IF_L: u8 = 2;

const IF_E: u8 = 3;

const IF_NE: u8 = 4;

const IF_GE: u8 = 5;

const IF_G: u8 = 6;

// rB add, subtract, and, xor rA.
fn operated(function: u8, a: u64, b: u64) -> u64
    ensures { result ≡ operated_of function a b }
{
    match function {
        ADD => word::sum(b, a),
        SUBTRACT => word::difference(b, a),
        AND => b & a,
        XOR => b ^ a,
        _ => 0,
    }
}

// The true signed result of add and subtract does not fit.
fn overflows(function: u8, a: u64, b: u64) -> bool
    ensures { result ≡ overflows_of function a b }
{
    match function {
        ADD => word::sum_outside(b, a),
        SUBTRACT => word::difference_outside(b, a),
        _ => false,
    }
}

fn codes_of(function: u8, a: u64, b: u64) -> Codes
    ensures { result ≡ operated_codes function a b }
{
    let v = operated(function, a, b);
    Codes {
        zf: v == 0,
        sf: word::negative(v),
        of: overflows(function, a, b),
    }
}

// Only OPq sets codes, by its function, and iaddq, as addq does: what the rows say, by code.
pub fn new_codes(x: Decoded, codes: Codes) -> Codes
    ensures { result ≡ new_codes x codes }
{
    let i = x.instruction;
    match i.code {
        OPERATION => codes_of(i.function, x.a, x.b),
        IADDQ => codes_of(ADD, i.constant, x.b),
        _ => codes,
    }
}

// The condition is a decision over the seven function numbers.
fn condition(function: u8, c: Codes) -> bool
    ensures { result ≡ condition_of function c }
{
    let ge = c.sf == c.of;
    let e = c.zf;
    match function {
        ALWAYS => true,
        IF_LE => !ge | e,
        IF_L => !ge,
        IF_E => e,
        IF_NE => !e,
        IF_GE => ge,
        IF_G => ge & !e,
        _ => false,
    }
}

// valE, by what the row computes.
#[tactic(auto, unfolding(lookup::specs::Kinds::computes_meant, machine::specs::Stages::computed))]
fn computed(kind: Computes, x: Decoded) -> u64
    ensures { result ≡ computed_of (computes_meant kind) x }
{
    let i = x.instruction;
    match kind {
        Computes::Nothing => 0,
        Computes::BOpA => operated(i.function, x.a, x.b),
        Computes::JustA => x.a,
        Computes::JustC => i.constant,
        Computes::BPlusC => word::sum(x.b, i.constant),
        Computes::BLess8 => word::difference(x.b, 8),
        Computes::BPlus8 => word::sum(x.b, 8),
    }
}

#[tactic(auto, unfolding(machine::specs::Stages::result))]
fn result(x: Decoded) -> u64
    ensures { result ≡ result_of x }
{
    computed(computes_of(x.instruction.code), x)
}

// Cnd: the condition of cmovXX and jXX.
fn outcome(i: Instruction, codes: Codes) -> bool
    ensures { result ≡ outcome_of i codes }
{
    match i.code {
        CMOV | JUMP => condition(i.function, codes),
        _ => true,
    }
}

pub fn execute(x: Decoded, codes: Codes) -> Executed
    ensures { result ≡ execute_of x codes }
{
    let i = x.instruction;
    Executed {
        instruction: i,
        a: x.a,
        result: result(x),
        holds: outcome(i, codes),
    }
}

// Where a jump goes.
pub fn turned(i: Instruction, taken: bool) -> u64
    ensures { result ≡ turned_of i taken }
{
    if taken { i.constant } else { i.next }
}

// Where any other but ret goes.
pub fn straight(i: Instruction) -> u64
    ensures { result ≡ straight_of i }
{
    match i.code {
        CALL => i.constant,
        _ => i.next,
    }
}

pub fn next_address(w: Accessed) -> u64
    ensures { result ≡ next_address w }
{
    let i = w.instruction;
    match i.code {
        RET => w.word,
        JUMP => turned(i, w.holds),
        _ => straight(i),
    }
}
