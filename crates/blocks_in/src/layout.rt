// The places of the blocks' words, as the table at the head of the crate has them.

// In an instruction's part. A stage's own words follow the instruction's.
pub const MARK: u64 = 0;

pub const ADDRESS: u64 = 1;

pub const STATUS: u64 = 2;

pub const CODE: u64 = 3;

pub const FUNCTION: u64 = 4;

pub const RA: u64 = 5;

pub const RB: u64 = 6;

pub const CONSTANT: u64 = 7;

pub const NEXT: u64 = 8;

pub const FAULT: u64 = 9;

pub const E_A: u64 = 10;

pub const E_B: u64 = 11;

pub const M_A: u64 = 10;

pub const M_RESULT: u64 = 11;

pub const M_HOLDS: u64 = 12;

pub const W_RESULT: u64 = 10;

pub const W_HOLDS: u64 = 11;

pub const W_WORD: u64 = 12;

pub const W_STATUS: u64 = 13;

pub const W_PATCHED: u64 = 14;

pub const KEPT_HOLDS: u64 = 10;

pub const KEPT_PATCHED: u64 = 11;

// In a state part, behind the registers.
pub const ZF: u64 = 15;

pub const SF: u64 = 16;

pub const OF: u64 = 17;

pub const STATE_STATUS: u64 = 18;

pub const LAST: u64 = 19;

pub const STATE_FAULT: u64 = 20;

pub const FAULT_ADDRESS: u64 = 21;

// In a machine block, which begins with the state.
pub const PROGRAM_ADDRESS: u64 = 22;

pub const COUNT: u64 = 23;

pub const MACHINE_WINDOW: u64 = 24;

// In a pipeline block.
pub const PREDICTED: u64 = 0;

pub const D: u64 = 1;

pub const E: u64 = 11;

pub const M: u64 = 23;

pub const W: u64 = 36;

pub const STATE: u64 = 51;

pub const RETIRED: u64 = 73;

pub const CYCLES: u64 = 74;

pub const LOADUSE: u64 = 75;

pub const MISPREDICT: u64 = 76;

pub const RETURNED: u64 = 77;

pub const PATCHED: u64 = 78;

pub const KEPT: u64 = 79;

pub const RULE: u64 = 91;

pub const LATE: u64 = 92;

pub const SETTINGS_WINDOW: u64 = 93;

// In a window's part: whether there is one, its first address and its end.
pub const WINDOWED: u64 = 0;

pub const FIRST: u64 = 1;

pub const END: u64 = 2;
