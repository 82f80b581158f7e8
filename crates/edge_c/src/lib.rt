// The host edge's functions under their C names: the static library that C and Rust callers link. Each is one call of edge's,
// since the C interface wants each by its name.

#![tactic(auto)]

ghost use Rattle.std.specs.Prelude.{◌≡◌};
ghost use Rattle.day_edge.specs.Days.{day_at, day_answer};
ghost use Rattle.edge.specs.Edge.{edge, replayed};
ghost use Rattle.encoding.specs.Encode.{fields};
ghost use Rattle.listing_edge.specs.Listings.{listing_edge, listing_read};
ghost use Rattle.writing_edge.specs.Writings.{written, encoded, listing_written};

// One pipelined run without logs from a fresh start.
#[unsafe(no_mangle)]
pub extern "C" fn y86_replay(
    memory: &mut [u8],
    registers: &mut [u8],
    res: &mut [u8],
    start: u64,
    codes: u64,
    budget: u64,
) -> u64
    ensures { edge result memory.new registers.new res.new
        ≡ replayed memory.old registers.old res.old start codes budget }
{
    edge::y86_replay(memory, registers, res, start, codes, budget)
}

// Memory becomes the image of the listing (#103).
#[unsafe(no_mangle)]
pub extern "C" fn y86_read_listing(text: &[u8], memory: &mut [u8], fault: &mut [u8]) -> u64
    ensures { listing_edge result memory.new fault.new ≡ listing_read text.now memory.old fault.old }
{
    edge::y86_read_listing(text, memory, fault)
}

// The day of the table at an address in a final memory, and the peak filed at another (#114).
#[unsafe(no_mangle)]
pub extern "C" fn y86_peaks(
    memory: &[u8],
    res: &mut [u8],
    table: u64,
    length: u64,
    filed: u64,
) -> u64
    ensures { day_at result res.new ≡ day_answer memory.now res.old table length filed }
{
    edge::y86_peaks(memory, res, table, length, filed)
}

// The bytes of an instruction, its one form (#104).
#[unsafe(no_mangle)]
pub extern "C" fn y86_encode(
    bytes: &mut [u8],
    length: &mut [u8],
    code: u64,
    function: u64,
    ra: u64,
    rb: u64,
    constant: u64,
) -> u64
    ensures { written result bytes.new length.new
        ≡ encoded bytes.old length.old (fields code function ra rb constant) }
{
    edge::y86_encode(bytes, length, code, function, ra, rb, constant)
}

// The listing of memory from a start up to an end, one instruction a line (#104).
#[unsafe(no_mangle)]
pub extern "C" fn y86_write_listing(
    memory: &[u8],
    text: &mut [u8],
    length: &mut [u8],
    start: u64,
    end: u64,
) -> u64
    ensures { written result text.new length.new
        ≡ listing_written memory.now text.old length.old start end }
{
    edge::y86_write_listing(memory, text, length, start, end)
}
