// A day's samples against the filed peak (#114), for the host edge.

#![tactic(auto)]

ghost use Rattle.std.specs.Prelude.{◌≡◌, length};
ghost use Rattle.block.specs.Block.{with_words};
ghost use Rattle.day_edge.specs.Days.{day_words, day_at, day_answer};

use block::write_words;
use peaks::Day;

// The seven result words.
#[tactic(auto, unfolding(crate::specs::Days::day_words, crate::specs::Days::words_of))]
fn day_words(day: Day) -> [u64; 7]
    ensures { result ≡ day_words day }
{
    match day.found {
        None => [day.good, 0, 0, day.failed, day.sum, 0, 0],
        Some(raw) => [
            day.good,
            raw.peak,
            raw.place,
            day.failed,
            day.sum,
            raw.mean_bits(),
            raw.filed.into(),
        ],
    }
}

// The day of the table at an address in a final memory, and the peak filed at another. The answer is a number, as the C interface has it.
#[tactic(auto, unfolding(crate::specs::Days::day_answer, crate::specs::Days::answered))]
pub fn judge_day(memory: &[u8], res: &mut [u8], table: u64, length: u64, filed: u64) -> u64
    ensures { day_at result res.new ≡ day_answer memory.now res.old table length filed }
{
    match peaks::judge(memory, table, length, filed) {
        Err(refusal) => refusal.into(),
        Ok(day) => {
            if res.len() != 56 {
                return 4;
            }
            write_words(res, &day_words(day));
            0
        }
    }
}
