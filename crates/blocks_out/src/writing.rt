// Records into the words of a block. Blocks, parts and places, and functions alike by stage, are the C interface of `trial`.
use blocks_in::layout::{
    ADDRESS, CODE, CONSTANT, COUNT, CYCLES, D, E, E_A, E_B, END, FAULT, FAULT_ADDRESS, FIRST,
    FUNCTION, KEPT, KEPT_HOLDS, KEPT_PATCHED, LAST, LATE, LOADUSE, M, M_A, M_HOLDS, M_RESULT,
    MACHINE_WINDOW, MARK, MISPREDICT, NEXT, OF, PATCHED, PREDICTED, PROGRAM_ADDRESS, RA, RB,
    RETIRED, RETURNED, RULE, SETTINGS_WINDOW, SF, STATE, STATE_FAULT, STATE_STATUS, STATUS, W,
    W_HOLDS, W_PATCHED, W_RESULT, W_STATUS, W_WORD, WINDOWED, ZF,
};
use clocked::{Kept, Kinds, Pipeline, StageE, StageM, StageW};
use machine::{Blame, Codes, Fault, Instruction, Machine, REGISTERS, Status, Window};

// A word to a place of a part; a place that the block lacks takes nothing.
fn put(block: &mut [u64], part: u64, place: u64, word: u64) {
    let at = part.wrapping_add(place) as usize;
    if let Some(slot) = block.get_mut(at) {
        *slot = word;
    }
}

fn put_truth(block: &mut [u64], part: u64, place: u64, truth: bool) {
    put(block, part, place, u64::from(truth));
}

fn put_status(block: &mut [u64], part: u64, place: u64, status: Status) {
    put(block, part, place, u64::from(status));
}

fn put_fault(block: &mut [u64], part: u64, place: u64, fault: Option<Fault>) {
    put(block, part, place, fault.map_or(0, u64::from));
}

// What a bad fetch is blamed on, behind its instruction: of the answer of a fetch.
pub fn put_fault_address(block: &mut [u64], blame: Blame) {
    put(block, FAULT, 1, blame.address);
}

pub fn put_instruction(block: &mut [u64], part: u64, i: Instruction) {
    put(block, part, MARK, 1);
    put(block, part, ADDRESS, i.address);
    put_status(block, part, STATUS, i.status);
    put(block, part, CODE, u64::from(i.code));
    put(block, part, FUNCTION, u64::from(i.function));
    put(block, part, RA, u64::from(i.ra));
    put(block, part, RB, u64::from(i.rb));
    put(block, part, CONSTANT, i.constant);
    put(block, part, NEXT, i.next);
    put_fault(block, part, FAULT, i.fault);
}

// What a stage holds, or the mark of a bubble.
fn put_held(block: &mut [u64], part: u64, held: Option<Instruction>) {
    match held {
        None => put(block, part, MARK, 0),
        Some(i) => put_instruction(block, part, i),
    }
}

fn put_e(block: &mut [u64], e: StageE) {
    put_held(block, E, e.map(|x| x.instruction));
    if let Some(x) = e {
        put(block, E, E_A, x.a);
        put(block, E, E_B, x.b);
    }
}

fn put_m(block: &mut [u64], m: StageM) {
    put_held(block, M, m.map(|x| x.instruction));
    if let Some(x) = m {
        put(block, M, M_A, x.a);
        put(block, M, M_RESULT, x.result);
        put_truth(block, M, M_HOLDS, x.holds);
    }
}

fn put_w(block: &mut [u64], w: StageW) {
    put_held(block, W, w.map(|x| x.instruction));
    if let Some(x) = w {
        put(block, W, W_RESULT, x.result);
        put_truth(block, W, W_HOLDS, x.holds);
        put(block, W, W_WORD, x.word);
        put_status(block, W, W_STATUS, x.status);
        put_truth(block, W, W_PATCHED, x.patched);
    }
}

fn put_kept(block: &mut [u64], kept: Kept) {
    put_held(block, KEPT, kept.map(|x| x.instruction));
    if let Some(x) = kept {
        put_truth(block, KEPT, KEPT_HOLDS, x.holds);
        put_truth(block, KEPT, KEPT_PATCHED, x.patched);
    }
}

fn put_registers(block: &mut [u64], state: u64, registers: [u64; REGISTERS]) {
    for (q, word) in registers.iter().enumerate() {
        put(block, state, q as u64, *word);
    }
}

fn put_codes(block: &mut [u64], state: u64, codes: Codes) {
    put_truth(block, state, ZF, codes.zf);
    put_truth(block, state, SF, codes.sf);
    put_truth(block, state, OF, codes.of);
}

fn put_kinds(block: &mut [u64], kinds: Kinds) {
    put(block, LOADUSE, 0, kinds.loaduse);
    put(block, MISPREDICT, 0, kinds.mispredict);
    put(block, RETURNED, 0, kinds.returned);
    put(block, PATCHED, 0, kinds.patched);
}

fn put_state(
    block: &mut [u64],
    state: u64,
    registers: [u64; REGISTERS],
    codes: Codes,
    status: Status,
    last: u64,
    blame: Blame,
) {
    put_registers(block, state, registers);
    put_codes(block, state, codes);
    put_status(block, state, STATE_STATUS, status);
    put(block, state, LAST, last);
    put_fault(block, state, STATE_FAULT, blame.fault);
    put(block, state, FAULT_ADDRESS, blame.address);
}

fn put_window(block: &mut [u64], part: u64, window: Window) {
    put_truth(block, part, WINDOWED, window.is_some());
    if let Some((first, end)) = window {
        put(block, part, FIRST, first);
        put(block, part, END, end);
    }
}

pub fn put_pipeline(block: &mut [u64], p: Pipeline) {
    put(block, PREDICTED, 0, p.predicted);
    put_held(block, D, p.d);
    put_e(block, p.e);
    put_m(block, p.m);
    put_w(block, p.w);
    put_state(
        block,
        STATE,
        p.registers,
        p.codes,
        p.status,
        p.last,
        p.blame,
    );
    put(block, RETIRED, 0, p.retired);
    put(block, CYCLES, 0, p.cycles);
    put_kinds(block, p.kinds);
    put_kept(block, p.kept);
    let settings = p.settings;
    put(block, RULE, 0, u64::from(settings.rule));
    put_truth(block, LATE, 0, settings.late);
    put_window(block, SETTINGS_WINDOW, settings.window);
}

pub fn put_machine(block: &mut [u64], m: Machine) {
    put_state(block, 0, m.registers, m.codes, m.status, m.last, m.blame);
    put(block, PROGRAM_ADDRESS, 0, m.address);
    put(block, COUNT, 0, m.count);
    put_window(block, MACHINE_WINDOW, m.window);
}
