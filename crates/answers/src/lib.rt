// Budgets, logs, answers: what the entries of both engines and of the host edge share.

#![tactic(auto)]

ghost use Rattle.std.specs.Prelude.{◌≡◌, cond, ◌≤◌, set};
ghost use Rattle.machine.specs.Runs.{size_refused, budget_refused, start_refused, window_refused, start_refusal};
ghost use Rattle.answers.specs.Numbers.{refusal_number, number_of, number_in, record_in};

use machine::{MEMORY_LIMIT, Window};

// Why an entry refuses: the tables of documents 01 and 02, in the order of their numbers.
#[derive(Clone, Copy, PartialEq, Eq)]
pub enum Refusal {
    MemorySize,
    RegisterBlock,
    Budget,
    ShortBlock,
    BadRecord,
    StartOutside,
    BadRange,
    NoRoom,
}

// The refusals' numbers.
impl From<Refusal> for u64 {
    ghost from_gives = { λ r n. n ≡ refusal_number r };

    fn from(refusal: Refusal) -> u64 {
        match refusal {
            Refusal::MemorySize => 1,
            Refusal::RegisterBlock => 2,
            Refusal::Budget => 3,
            Refusal::ShortBlock => 4,
            Refusal::BadRecord => 5,
            Refusal::StartOutside => 6,
            Refusal::BadRange => 7,
            Refusal::NoRoom => 8,
        }
    }
}

// A refusal that hands the record back, as it was given.
#[derive(Clone, Copy)]
pub struct Refused<R> {
    pub why: Refusal,
    pub given: R,
}

// The record of an answer, refused or not.
pub fn record_of<R: Copy>(answer: Result<R, Refused<R>>) -> R
    ensures { result ≡ record_in answer }
{
    match answer {
        Ok(record) => record,
        Err(refused) => refused.given,
    }
}

// The number of an answer, 0 or that of the refusal.
pub fn number_of<R: Copy>(answer: Result<R, Refused<R>>) -> u64
    ensures { result ≡ number_in answer }
{
    match answer {
        Ok(_) => 0,
        Err(refused) => u64::from(refused.why),
    }
}

// Refusal 1: no memory, or more than 65,536 bytes.
#[tactic(auto, unfolding(machine::specs::Runs::size_refused))]
pub fn size_refused(size: usize) -> bool
    ensures { result ≡ size_refused size }
{
    (size == 0) | (MEMORY_LIMIT < size)
}

// Refusal 6: a fresh start's address is not below N.
#[tactic(auto, unfolding(machine::specs::Runs::start_refused))]
pub fn start_refused(size: usize, address: u64) -> bool
    ensures { result ≡ start_refused size address }
{
    size as u64 <= address
}

// Refusal 5: a window that reaches past memory, or whose end is below its first address.
#[tactic(auto, unfolding(machine::specs::Runs::window_refused))]
pub fn window_refused(window: Window, size: usize) -> bool
    ensures { result ≡ window_refused window size }
{
    let n = size as u64;
    match window {
        None => false,
        Some((first, end)) => (n < first) | ((n < end) | (end < first)),
    }
}

// The lowest refusal of a fresh start.
#[tactic(auto, unfolding(machine::specs::Runs::start_refusal, machine::specs::Runs::lowest))]
pub fn start_refusal(window: Window, size: usize, address: u64) -> Result<(), Refusal>
    ensures { number_of result ≡ start_refusal window size address }
{
    if size_refused(size) {
        return Err(Refusal::MemorySize);
    }
    if window_refused(window, size) {
        return Err(Refusal::BadRecord);
    }
    if start_refused(size, address) {
        return Err(Refusal::StartOutside);
    }
    Ok(())
}

// Refusal 3: no budget, or one that passes the limit; a sum that would wrap passes it.
#[tactic(auto, unfolding(machine::specs::Runs::budget_refused))]
pub fn budget_refused(limit: u64, count: u64, budget: u64) -> bool
    ensures { result ≡ budget_refused limit count budget }
{
    match count.checked_add(budget) {
        None => true,
        Some(sum) => (budget == 0) | (limit < sum),
    }
}

// Place k of a lent log takes x, where the log has that place. The place is tested, for a slice's `get_mut` promises no element afterwards.
pub fn note(log: &mut [u64], k: u64, x: u64)
    ensures { log.new ≡ set log.old k x }
{
    let at = k as usize;
    if at < log.len() {
        log[at] = x;
    }
}
