// The first line: table address, length and peak address, tab-parted.
ghost use Rattle.std.specs.Prelude.{◌≡◌};
ghost use Rattle.dayreport.specs.Line.{first_line};

use text::read_field;

// What is asked for, and the place behind the line, where the image begins.
#[derive(Clone, Copy)]
pub struct Request {
    pub table: u64,
    pub length: u64,
    pub filed: u64,
    pub image: usize,
}

// None is a bad first line.
#[tactic(auto, unfolding(crate::specs::Line::first_line, crate::specs::Line::first_of, crate::specs::Line::second_of, crate::specs::Line::third_of))]
pub fn read_line(input: &[u8]) -> Option<Request>
    ensures { result ≡ first_line input.now }
{
    let (table, a) = read_field(input, 0, b'\t')?;
    let (length, b) = read_field(input, a, b'\t')?;
    let (filed, image) = read_field(input, b, b'\n')?;
    Some(Request {
        table,
        length,
        filed,
        image,
    })
}
