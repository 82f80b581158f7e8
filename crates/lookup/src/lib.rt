// The table's entries by code. Each column has its function, one call of `entry`: they answer different kinds, and a generic one would only move the names
// to its callers.

#![tactic(auto)]

mod columns;
pub mod kinds;

ghost use Rattle.std.specs.Prelude.{◌≡◌, cond, ltb, get_or};
ghost use Rattle.machine.specs.Table.{row_of};
ghost use Rattle.lookup.specs.Kinds.{byte_meant, which_meant, computes_meant, accesses_meant};

use crate::columns::{
    A_FROM, ACCESSES, B_FROM, BYTES, COMPUTES, FUNCTIONS, LOADED, SIZES, TARGETS,
};
use crate::kinds::{Accesses, Computes, RegisterByte, Which};

// A row for each code that half a byte can hold.
pub const ROWS: usize = 16;

// A code of 16 or above, which only a record made by hand has, has the entry of a code without a row.
fn entry<T: Copy>(column: &[T; ROWS], code: u8, otherwise: T) -> T
    ensures { result ≡ get_or column.now code otherwise }
{
    let k = code as usize;
    if k < ROWS { column[k] } else { otherwise }
}

pub fn size_of(code: u8) -> u8
    ensures { result ≡ (row_of code).size }
{
    entry(&SIZES, code, 1)
}

// How many functions there are, from 0 on.
pub fn functions_of(code: u8) -> u8
    ensures { result ≡ (row_of code).functions }
{
    entry(&FUNCTIONS, code, 0)
}

pub fn byte_of(code: u8) -> RegisterByte
    ensures { byte_meant result ≡ (row_of code).byte }
{
    entry(&BYTES, code, RegisterByte::NoByte)
}

pub fn a_from(code: u8) -> Which
    ensures { which_meant result ≡ (row_of code).a }
{
    entry(&A_FROM, code, Which::None)
}

pub fn b_from(code: u8) -> Which
    ensures { which_meant result ≡ (row_of code).b }
{
    entry(&B_FROM, code, Which::None)
}

pub fn computes_of(code: u8) -> Computes
    ensures { computes_meant result ≡ (row_of code).computes }
{
    entry(&COMPUTES, code, Computes::Nothing)
}

pub fn accesses_of(code: u8) -> Accesses
    ensures { accesses_meant result ≡ (row_of code).accesses }
{
    entry(&ACCESSES, code, Accesses::NoAccess)
}

pub fn target_of(code: u8) -> Which
    ensures { which_meant result ≡ (row_of code).target }
{
    entry(&TARGETS, code, Which::None)
}

pub fn loaded_of(code: u8) -> Which
    ensures { which_meant result ≡ (row_of code).loaded }
{
    entry(&LOADED, code, Which::None)
}
