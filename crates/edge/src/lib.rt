// The host edge: functions on byte slices and numbers, which edge_c exports. They answer a number, and take what a C caller can give, since that is the C
// interface; inside, refusals are Results.

#![tactic(auto)]

mod replaying;

ghost use Rattle.std.specs.Prelude.{◌≡◌};
ghost use Rattle.answers.specs.Numbers.{number_of};
ghost use Rattle.day_edge.specs.Days.{day_at, day_answer};
ghost use Rattle.listing_edge.specs.Listings.{listing_edge, listing_read};
ghost use Rattle.encoding.specs.Encode.{fields};
ghost use Rattle.writing_edge.specs.Writings.{written, encoded, listing_written};
ghost use Rattle.edge.specs.Edge.{edge, replayed, replayed_set};
ghost use Rattle.replay_ends.specs.Ends.{numbers};

use crate::replaying::replay;
use answers::Refusal;
use block::write_words;
use encoding::Fields;
use replay_ends::settings::Numbers;
use replay_ends::{Request, full_words, result_words};

// The result blocks: five words, and all eleven.
const RESULT_BYTES: usize = 40;

const FULL_BYTES: usize = 88;

// One pipelined run without logs from a fresh start, with document 01's settings, or why it is refused.
fn replayed(
    memory: &mut [u8],
    registers: &mut [u8],
    res: &mut [u8],
    asked: Request,
) -> Result<(), Refusal>
    ensures { edge (number_of result) memory.new registers.new res.new
        ≡ replayed memory.old registers.old res.old asked.start asked.codes asked.budget }
{
    replay_ends::let_in(
        RESULT_BYTES,
        Some(()),
        memory.len(),
        registers.len(),
        res.len(),
        asked,
    )?;
    let end = replay(pipe::as_in_01(), memory, registers, asked);
    write_words(res, &result_words(end));
    Ok(())
}

// The same with settings by their numbers, and all eleven result words.
fn replayed_set(
    memory: &mut [u8],
    registers: &mut [u8],
    res: &mut [u8],
    asked: Request,
    chosen: Numbers,
) -> Result<(), Refusal>
    ensures { edge (number_of result) memory.new registers.new res.new
        ≡ replayed_set chosen memory.old registers.old res.old asked.start asked.codes asked.budget }
{
    let settings = replay_ends::let_in(
        FULL_BYTES,
        chosen.settings(memory.len()),
        memory.len(),
        registers.len(),
        res.len(),
        asked,
    )?;
    let end = replay(settings, memory, registers, asked);
    write_words(res, &full_words(end));
    Ok(())
}

// One pipelined run without logs from a fresh start.
pub fn y86_replay(
    memory: &mut [u8],
    registers: &mut [u8],
    res: &mut [u8],
    start: u64,
    codes: u64,
    budget: u64,
) -> u64
    ensures { edge result memory.new registers.new res.new
        ≡ replayed memory.old registers.old res.old start codes budget }
{
    let asked = Request {
        start,
        codes,
        budget,
    };
    replayed(memory, registers, res, asked)
        .err()
        .map_or(0, u64::from)
}

// The same with settings by their numbers, and all eleven result words (#105, #106, #107, #113). Not exported yet: with a second caller in the archive the
// clock's loop is compiled for settings that are not known, and takes 1.6 times the instructions (docs/BENCH.md).
pub fn replay_set(
    memory: &mut [u8],
    registers: &mut [u8],
    res: &mut [u8],
    start: u64,
    codes: u64,
    budget: u64,
    rule: u64,
    late: u64,
    windowed: u64,
    first: u64,
    end: u64,
) -> u64
    ensures { edge result memory.new registers.new res.new
        ≡ replayed_set (numbers rule late windowed first end) memory.old registers.old res.old start codes budget }
{
    let asked = Request {
        start,
        codes,
        budget,
    };
    let chosen = Numbers {
        rule,
        late,
        windowed,
        first,
        end,
    };
    replayed_set(memory, registers, res, asked, chosen)
        .err()
        .map_or(0, u64::from)
}

// Memory becomes the image of the listing (#103).
pub fn y86_read_listing(text: &[u8], memory: &mut [u8], fault: &mut [u8]) -> u64
    ensures { listing_edge result memory.new fault.new ≡ listing_read text.now memory.old fault.old }
{
    listing_edge::read_listing(text, memory, fault)
}

// The day of the table at an address in a final memory, and the peak filed at another (#114).
pub fn y86_peaks(memory: &[u8], res: &mut [u8], table: u64, length: u64, filed: u64) -> u64
    ensures { day_at result res.new ≡ day_answer memory.now res.old table length filed }
{
    day_edge::judge_day(memory, res, table, length, filed)
}

// The bytes of an instruction, its one form (#104).
pub fn y86_encode(
    bytes: &mut [u8],
    length: &mut [u8],
    code: u64,
    function: u64,
    ra: u64,
    rb: u64,
    constant: u64,
) -> u64
    ensures { written result bytes.new length.new
        ≡ encoded bytes.old length.old (fields code function ra rb constant) }
{
    let said = Fields {
        code,
        function,
        ra,
        rb,
        constant,
    };
    writing_edge::encode(bytes, length, said)
}

// The listing of memory from a start up to an end, one instruction a line (#104).
pub fn y86_write_listing(
    memory: &[u8],
    text: &mut [u8],
    length: &mut [u8],
    start: u64,
    end: u64,
) -> u64
    ensures { written result text.new length.new
        ≡ listing_written memory.now text.old length.old start end }
{
    writing_edge::write_listing(memory, text, length, start, end)
}
