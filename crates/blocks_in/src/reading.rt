// Records from the words of a block. Blocks, parts and places, and functions alike by stage, are the C interface of `trial`.
use crate::layout::{
    ADDRESS, CODE, CONSTANT, COUNT, CYCLES, D, E, E_A, E_B, END, FAULT, FAULT_ADDRESS, FIRST,
    FUNCTION, KEPT, KEPT_HOLDS, KEPT_PATCHED, LAST, LATE, LOADUSE, M, M_A, M_HOLDS, M_RESULT,
    MACHINE_WINDOW, MARK, MISPREDICT, NEXT, OF, PATCHED, PREDICTED, PROGRAM_ADDRESS, RA, RB,
    RETIRED, RETURNED, RULE, SETTINGS_WINDOW, SF, STATE, STATE_FAULT, STATE_STATUS, STATUS, W,
    W_HOLDS, W_PATCHED, W_RESULT, W_STATUS, W_WORD, WINDOWED, ZF,
};
use clocked::{Kept, Kinds, Pipeline, Retired, Settings, StageD, StageE, StageM, StageW};
use machine::{
    Accessed, Blame, Codes, Decoded, Executed, Fault, Instruction, Machine, REGISTERS, Status,
    Window,
};
use std::array;

// The word at a place of a part; one that the block lacks reads 0.
fn word_at(block: &[u64], part: u64, place: u64) -> u64 {
    let at = part.wrapping_add(place) as usize;
    block.get(at).copied().unwrap_or(0)
}

fn byte_at(block: &[u64], part: u64, place: u64) -> u8 {
    (word_at(block, part, place) % 256) as u8
}

fn truth_at(block: &[u64], part: u64, place: u64) -> bool {
    word_at(block, part, place) % 2 == 1
}

const STOPPED: [Status; 3] = [Status::Hlt, Status::Adr, Status::Ins];

const FAULTS: [Fault; 5] = [
    Fault::FirstMissing,
    Fault::NoCode,
    Fault::NoFunction,
    Fault::LaterMissing,
    Fault::NoRegister,
];

// The status whose number the word is; any other word reads AOK, so that no TryFrom would do.
fn status_at(block: &[u64], part: u64, place: u64) -> Status {
    let number = word_at(block, part, place);
    STOPPED
        .iter()
        .copied()
        .find(|s| u64::from(*s) == number)
        .unwrap_or(Status::Aok)
}

// The fault whose number the word is; any other word reads none.
fn fault_at(block: &[u64], part: u64, place: u64) -> Option<Fault> {
    let number = word_at(block, part, place);
    FAULTS.iter().copied().find(|f| u64::from(*f) == number)
}

fn blame_in(block: &[u64], state: u64) -> Blame {
    Blame {
        fault: fault_at(block, state, STATE_FAULT),
        address: word_at(block, state, FAULT_ADDRESS),
    }
}

fn is_marked(block: &[u64], part: u64) -> bool {
    word_at(block, part, MARK) != 0
}

fn instruction_in(block: &[u64], part: u64) -> Instruction {
    Instruction {
        address: word_at(block, part, ADDRESS),
        status: status_at(block, part, STATUS),
        code: byte_at(block, part, CODE),
        function: byte_at(block, part, FUNCTION),
        ra: byte_at(block, part, RA),
        rb: byte_at(block, part, RB),
        constant: word_at(block, part, CONSTANT),
        next: word_at(block, part, NEXT),
        fault: fault_at(block, part, FAULT),
    }
}

fn d_in(block: &[u64]) -> StageD {
    is_marked(block, D).then(|| instruction_in(block, D))
}

fn e_in(block: &[u64]) -> StageE {
    is_marked(block, E).then(|| Decoded {
        instruction: instruction_in(block, E),
        a: word_at(block, E, E_A),
        b: word_at(block, E, E_B),
    })
}

fn m_in(block: &[u64]) -> StageM {
    is_marked(block, M).then(|| Executed {
        instruction: instruction_in(block, M),
        a: word_at(block, M, M_A),
        result: word_at(block, M, M_RESULT),
        holds: truth_at(block, M, M_HOLDS),
    })
}

fn w_in(block: &[u64]) -> StageW {
    is_marked(block, W).then(|| Accessed {
        instruction: instruction_in(block, W),
        result: word_at(block, W, W_RESULT),
        holds: truth_at(block, W, W_HOLDS),
        word: word_at(block, W, W_WORD),
        status: status_at(block, W, W_STATUS),
        patched: truth_at(block, W, W_PATCHED),
    })
}

fn kept_in(block: &[u64]) -> Kept {
    is_marked(block, KEPT).then(|| Retired {
        instruction: instruction_in(block, KEPT),
        holds: truth_at(block, KEPT, KEPT_HOLDS),
        patched: truth_at(block, KEPT, KEPT_PATCHED),
    })
}

fn kinds_in(block: &[u64]) -> Kinds {
    Kinds {
        loaduse: word_at(block, LOADUSE, 0),
        mispredict: word_at(block, MISPREDICT, 0),
        returned: word_at(block, RETURNED, 0),
        patched: word_at(block, PATCHED, 0),
    }
}

// The registers of a state part, which begins with them.
pub fn registers_in(block: &[u64], state: u64) -> [u64; REGISTERS] {
    array::from_fn(|q| word_at(block, state, q as u64))
}

pub fn codes_in(block: &[u64], state: u64) -> Codes {
    Codes {
        zf: truth_at(block, state, ZF),
        sf: truth_at(block, state, SF),
        of: truth_at(block, state, OF),
    }
}

pub fn window_in(block: &[u64], part: u64) -> Window {
    truth_at(block, part, WINDOWED).then(|| {
        (word_at(block, part, FIRST), word_at(block, part, END))
    })
}

pub fn machine_in(block: &[u64]) -> Machine {
    Machine {
        registers: registers_in(block, 0),
        codes: codes_in(block, 0),
        address: word_at(block, PROGRAM_ADDRESS, 0),
        status: status_at(block, 0, STATE_STATUS),
        last: word_at(block, 0, LAST),
        count: word_at(block, COUNT, 0),
        blame: blame_in(block, 0),
        window: window_in(block, MACHINE_WINDOW),
    }
}

pub fn settings_in(block: &[u64]) -> Settings {
    Settings {
        rule: byte_at(block, RULE, 0),
        late: truth_at(block, LATE, 0),
        window: window_in(block, SETTINGS_WINDOW),
    }
}

pub fn pipeline_in(block: &[u64]) -> Pipeline {
    Pipeline {
        settings: settings_in(block),
        predicted: word_at(block, PREDICTED, 0),
        d: d_in(block),
        e: e_in(block),
        m: m_in(block),
        w: w_in(block),
        registers: registers_in(block, STATE),
        codes: codes_in(block, STATE),
        status: status_at(block, STATE, STATE_STATUS),
        last: word_at(block, STATE, LAST),
        retired: word_at(block, RETIRED, 0),
        cycles: word_at(block, CYCLES, 0),
        kinds: kinds_in(block),
        kept: kept_in(block),
        blame: blame_in(block, STATE),
    }
}
