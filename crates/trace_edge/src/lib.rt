// A trace checked at the edge: the refusals, and the verdict's words.

#![tactic(auto)]

ghost use Rattle.std.specs.Prelude.{◌≡◌, IfOk, Some, is_none};
ghost use Rattle.answers.specs.Numbers.{number_of};
ghost use Rattle.replay_ends.specs.Ends.{numbers};
ghost use Rattle.trace_edge.specs.Checks.{check, check_refusal, checked};

use answers::{Refusal, record_of};
use block::{read_registers, write_words};
use machine::Codes;
use replay_ends::settings::Numbers;
use replay_ends::{MOST_CODES, REGISTER_BYTES};

const VERDICT_BYTES: usize = 16;

// The lowest refusal that applies; else what is chosen, which is nothing where it is out of its range.
#[tactic(auto, unfolding(crate::specs::Checks::check_refusal, machine::specs::Runs::lowest, answers::specs::Numbers::number_of, answers::specs::Numbers::refusal_number))]
fn let_in<S: Drop>(
    image: usize,
    registers: usize,
    copy: usize,
    verdict: usize,
    start: u64,
    codes: u64,
    chosen: Option<S>,
) -> Result<S, Refusal>
    ensures number { number_of result ≡ check_refusal image registers copy verdict start codes (is_none chosen) }
    ensures chosen { IfOk result (λ s. chosen ≡ Some s) }
{
    if answers::size_refused(image) {
        return Err(Refusal::MemorySize);
    }
    if registers != REGISTER_BYTES {
        return Err(Refusal::RegisterBlock);
    }
    if (copy != image) | (verdict != VERDICT_BYTES) {
        return Err(Refusal::ShortBlock);
    }
    if MOST_CODES < codes {
        return Err(Refusal::BadRecord);
    }
    let settled = chosen.ok_or(Refusal::BadRecord)?;
    if answers::start_refused(image, start) {
        return Err(Refusal::StartOutside);
    }
    Ok(settled)
}

// The trace checked with these settings, or why it is refused. The image is only read: the engine runs in the copy.
fn checked(
    image: &[u8],
    registers: &[u8],
    trace: &[u8],
    copy: &mut [u8],
    verdict: &mut [u8],
    start: u64,
    codes: u64,
    chosen: Numbers,
) -> Result<(), Refusal>
    ensures { check (number_of result) copy.new verdict.new
        ≡ checked image.now registers.now trace.now copy.old verdict.old start codes chosen }
{
    let size = image.len();
    let settings = let_in(
        size,
        registers.len(),
        copy.len(),
        verdict.len(),
        start,
        codes,
        chosen.settings(size),
    )?;
    let started = plain::start(
        settings.window,
        size,
        read_registers(registers),
        Codes::from(codes),
        start,
    );
    copy.copy_from_slice(image);
    let machine = record_of(started);
    let found = checking::check(settings, machine, trace, copy);
    let words = [found.line, found.kind.map_or(0, u64::from)];
    write_words(verdict, &words);
    Ok(())
}

// A station's trace, checked from a fresh start (#108). The answer is a number, as the C interface has it.
pub fn check_trace(
    image: &[u8],
    registers: &[u8],
    trace: &[u8],
    copy: &mut [u8],
    verdict: &mut [u8],
    start: u64,
    codes: u64,
    rule: u64,
    late: u64,
    windowed: u64,
    first: u64,
    end: u64,
) -> u64
    ensures { check result copy.new verdict.new
        ≡ checked image.now registers.now trace.now copy.old verdict.old start codes (numbers rule late windowed first end) }
{
    let chosen = Numbers {
        rule,
        late,
        windowed,
        first,
        end,
    };
    checked(image, registers, trace, copy, verdict, start, codes, chosen)
        .err()
        .map_or(0, u64::from)
}
