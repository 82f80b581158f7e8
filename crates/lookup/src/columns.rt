// The table of sixteen rows, a constant array for each column. The definitions' table has the same rows, and names the same entries.
// One array of rows, each a struct, is not taken: the clock, which looks up single columns, is slower with it.
use crate::ROWS;
use crate::kinds::{Accesses, Computes, RegisterByte, Which};

// The length.
pub const SIZES: [u8; ROWS] = [
    1, // halt
    1, // nop
    2, // cmovXX
    10, // irmovq
    10, // rmmovq
    10, // mrmovq
    2, // OPq
    9, // jXX
    9, // call
    1, // ret
    2, // pushq
    2, // popq
    10, // iaddq
    1, // D
    1, // E
    1, // F
];

// How many functions there are, from 0 on.
pub const FUNCTIONS: [u8; ROWS] = [
    1, // halt
    1, // nop
    7, // cmovXX
    1, // irmovq
    1, // rmmovq
    1, // mrmovq
    4, // OPq
    7, // jXX
    1, // call
    1, // ret
    1, // pushq
    1, // popq
    1, // iaddq
    0, // D
    0, // E
    0, // F
];

// The register byte.
pub const BYTES: [RegisterByte; ROWS] = [
    RegisterByte::NoByte, // halt
    RegisterByte::NoByte, // nop
    RegisterByte::BothNamed, // cmovXX
    RegisterByte::OnlyB, // irmovq
    RegisterByte::BothNamed, // rmmovq
    RegisterByte::BothNamed, // mrmovq
    RegisterByte::BothNamed, // OPq
    RegisterByte::NoByte, // jXX
    RegisterByte::NoByte, // call
    RegisterByte::NoByte, // ret
    RegisterByte::OnlyA, // pushq
    RegisterByte::OnlyA, // popq
    RegisterByte::OnlyB, // iaddq
    RegisterByte::NoByte, // D
    RegisterByte::NoByte, // E
    RegisterByte::NoByte, // F
];

// Where valA comes from.
pub const A_FROM: [Which; ROWS] = [
    Which::None, // halt
    Which::None, // nop
    Which::Ra, // cmovXX
    Which::None, // irmovq
    Which::Ra, // rmmovq
    Which::None, // mrmovq
    Which::Ra, // OPq
    Which::None, // jXX
    Which::None, // call
    Which::Rsp, // ret
    Which::Ra, // pushq
    Which::Rsp, // popq
    Which::None, // iaddq
    Which::None, // D
    Which::None, // E
    Which::None, // F
];

// Where valB comes from.
pub const B_FROM: [Which; ROWS] = [
    Which::None, // halt
    Which::None, // nop
    Which::None, // cmovXX
    Which::None, // irmovq
    Which::Rb, // rmmovq
    Which::Rb, // mrmovq
    Which::Rb, // OPq
    Which::None, // jXX
    Which::Rsp, // call
    Which::Rsp, // ret
    Which::Rsp, // pushq
    Which::Rsp, // popq
    Which::Rb, // iaddq
    Which::None, // D
    Which::None, // E
    Which::None, // F
];

// What valE is.
pub const COMPUTES: [Computes; ROWS] = [
    Computes::Nothing, // halt
    Computes::Nothing, // nop
    Computes::JustA, // cmovXX
    Computes::JustC, // irmovq
    Computes::BPlusC, // rmmovq
    Computes::BPlusC, // mrmovq
    Computes::BOpA, // OPq
    Computes::Nothing, // jXX
    Computes::BLess8, // call
    Computes::BPlus8, // ret
    Computes::BLess8, // pushq
    Computes::BPlus8, // popq
    Computes::BPlusC, // iaddq
    Computes::Nothing, // D
    Computes::Nothing, // E
    Computes::Nothing, // F
];

// What the memory stage does.
pub const ACCESSES: [Accesses; ROWS] = [
    Accesses::NoAccess, // halt
    Accesses::NoAccess, // nop
    Accesses::NoAccess, // cmovXX
    Accesses::NoAccess, // irmovq
    Accesses::StoresA, // rmmovq
    Accesses::LoadsAtE, // mrmovq
    Accesses::NoAccess, // OPq
    Accesses::NoAccess, // jXX
    Accesses::StoresNext, // call
    Accesses::LoadsAtA, // ret
    Accesses::StoresA, // pushq
    Accesses::LoadsAtA, // popq
    Accesses::NoAccess, // iaddq
    Accesses::NoAccess, // D
    Accesses::NoAccess, // E
    Accesses::NoAccess, // F
];

// Where valE goes.
pub const TARGETS: [Which; ROWS] = [
    Which::None, // halt
    Which::None, // nop
    Which::Rb, // cmovXX
    Which::Rb, // irmovq
    Which::None, // rmmovq
    Which::None, // mrmovq
    Which::Rb, // OPq
    Which::None, // jXX
    Which::Rsp, // call
    Which::Rsp, // ret
    Which::Rsp, // pushq
    Which::Rsp, // popq
    Which::Rb, // iaddq
    Which::None, // D
    Which::None, // E
    Which::None, // F
];

// Where valM goes.
pub const LOADED: [Which; ROWS] = [
    Which::None, // halt
    Which::None, // nop
    Which::None, // cmovXX
    Which::None, // irmovq
    Which::None, // rmmovq
    Which::Ra, // mrmovq
    Which::None, // OPq
    Which::None, // jXX
    Which::None, // call
    Which::None, // ret
    Which::None, // pushq
    Which::Ra, // popq
    Which::None, // iaddq
    Which::None, // D
    Which::None, // E
    Which::None, // F
];
