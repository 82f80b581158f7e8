// For tests only: every entry of both engines with C linkage, on whole records in lent words, so that a test written in
// another language can give any record, hand-made ones too, and read back the whole answer. It is no part of the
// product: nothing that is shipped links it, and it decides nothing. Its functions are alike, and take
// what they take, because that is the C interface. Each answer is matched in place, so that no record is copied once more. What a block holds is said in `blocks_in`.
//
// Its functions have no contract. They are proved to stay inside what they are lent and to return; what they answer is
// compared with the second program, word for word, and a word read from or written to a wrong place shows there.

#![tactic(auto)]

use blocks_in::layout::{MACHINE_WINDOW, STATE};
use blocks_in::reading::{codes_in, machine_in, pipeline_in, registers_in, settings_in, window_in};
use blocks_out::writing::{put_fault_address, put_instruction, put_machine, put_pipeline};
use machine::Fetched;

// The instruction at an address, into a block for one.
#[unsafe(no_mangle)]
pub extern "C" fn trial_fetch(memory: &mut [u8], address: u64, block: &mut [u64]) -> u64 {
    match fetching::fetch(memory, address) {
        Ok(fetched) => {
            put_fetched(block, fetched);
            0
        }
        Err(refused) => {
            put_fetched(block, refused.given);
            u64::from(refused.why)
        }
    }
}

fn put_fetched(block: &mut [u64], fetched: Fetched) {
    put_instruction(block, 0, fetched.instruction);
    put_fault_address(block, fetched.blame);
}

// A fresh machine record in memory of that size, with the window, registers and codes that the block holds; refused, the block stays.
#[unsafe(no_mangle)]
pub extern "C" fn trial_plain_start(block: &mut [u64], size: u64, address: u64) -> u64 {
    let answer = plain::start(
        window_in(block, MACHINE_WINDOW),
        size as usize,
        registers_in(block, 0),
        codes_in(block, 0),
        address,
    );
    match answer {
        Ok(fresh) => {
            put_machine(block, fresh);
            0
        }
        Err(refused) => u64::from(refused.why),
    }
}

#[unsafe(no_mangle)]
pub extern "C" fn trial_plain_step(block: &mut [u64], memory: &mut [u8]) -> u64 {
    match plain::step(machine_in(block), memory) {
        Ok(after) => {
            put_machine(block, after);
            0
        }
        Err(refused) => {
            put_machine(block, refused.given);
            u64::from(refused.why)
        }
    }
}

#[unsafe(no_mangle)]
pub extern "C" fn trial_plain_run(
    block: &mut [u64],
    memory: &mut [u8],
    budget: u64,
    log: &mut [u64],
) -> u64 {
    match plain::run(machine_in(block), memory, budget, log) {
        Ok(after) => {
            put_machine(block, after);
            0
        }
        Err(refused) => {
            put_machine(block, refused.given);
            u64::from(refused.why)
        }
    }
}

// A fresh pipeline record in memory of that size, with the settings, registers and codes that the block
// holds; refused, the block stays.
#[unsafe(no_mangle)]
pub extern "C" fn trial_pipe_start(block: &mut [u64], size: u64, address: u64) -> u64 {
    let answer = pipe::start(
        settings_in(block),
        size as usize,
        registers_in(block, STATE),
        codes_in(block, STATE),
        address,
    );
    match answer {
        Ok(fresh) => {
            put_pipeline(block, fresh);
            0
        }
        Err(refused) => u64::from(refused.why),
    }
}

#[unsafe(no_mangle)]
pub extern "C" fn trial_pipe_clock(block: &mut [u64], memory: &mut [u8]) -> u64 {
    match pipe::clock(pipeline_in(block), memory) {
        Ok(after) => {
            put_pipeline(block, after);
            0
        }
        Err(refused) => {
            put_pipeline(block, refused.given);
            u64::from(refused.why)
        }
    }
}

#[unsafe(no_mangle)]
pub extern "C" fn trial_pipe_run_unlogged(
    block: &mut [u64],
    memory: &mut [u8],
    budget: u64,
) -> u64 {
    match pipe::run_unlogged(pipeline_in(block), memory, budget) {
        Ok(after) => {
            put_pipeline(block, after);
            0
        }
        Err(refused) => {
            put_pipeline(block, refused.given);
            u64::from(refused.why)
        }
    }
}

#[unsafe(no_mangle)]
pub extern "C" fn trial_pipe_run(
    block: &mut [u64],
    memory: &mut [u8],
    budget: u64,
    addresses: &mut [u64],
    cycles: &mut [u64],
) -> u64 {
    match pipe::run(pipeline_in(block), memory, budget, addresses, cycles) {
        Ok(after) => {
            put_pipeline(block, after);
            0
        }
        Err(refused) => {
            put_pipeline(block, refused.given);
            u64::from(refused.why)
        }
    }
}
