// The program `y86peaks` (#114) from the bytes read to the bytes written: its first line, the replay of the image behind it, and the lines of the day.

#![tactic(auto)]

mod line;
mod lines;

ghost use Rattle.std.specs.Prelude.{◌≡◌, List, ℕ};
ghost use Rattle.report_lines.specs.Lines.{number_line};
ghost use Rattle.text.specs.Put.{written};
ghost use Rattle.dayreport.specs.Lines.{day_lines, answer_lines};
ghost use Rattle.dayreport.specs.Program.{requested, answered_input};

use crate::line::{Request, read_line};
use crate::lines::put_day;
use peaks::{Day, Refusal};
use report_lines::put_number;
use text::Writer;

// No answer is longer than 144 bytes, so that it always fits.
fn write_refusal(number: u64, out: &mut [u8; 144]) -> usize
    ensures { ◌≡◌ {A = ℕ × List ℕ} (result, out.new) (written (number_line "refused" number) out.old) }
{
    let mut writer = Writer::new(out);
    put_number(&mut writer, b"refused", number);
    writer.length()
}

// As short as a function over what is put would be.
fn write_day(day: Day, out: &mut [u8; 144]) -> usize
    ensures { ◌≡◌ {A = ℕ × List ℕ} (result, out.new) (written (day_lines day) out.old) }
{
    let mut writer = Writer::new(out);
    put_day(&mut writer, day);
    writer.length()
}

fn write_answer(answer: Result<Day, Refusal>, out: &mut [u8; 144]) -> usize
    ensures { ◌≡◌ {A = ℕ × List ℕ} (result, out.new) (written (answer_lines answer) out.old) }
{
    match answer {
        Err(refusal) => write_refusal(refusal.into(), out),
        Ok(day) => write_day(day, out),
    }
}

// The image, which stands behind the first line, and the day that is asked for.
fn report_request(request: Request, image: &mut [u8], out: &mut [u8; 144]) -> usize
    ensures { ◌≡◌ {A = ℕ × List ℕ × List ℕ} (result, out.new, image.new) (requested request image.old out.old) }
{
    // 5 and 4 are numbers of document 02's program alone (#114), written as such.
    if report::image_refused(image.len()) {
        return write_refusal(5, out);
    }
    // "replays it as the first program does": the day is read from the memory that this leaves
    let _ = report::run_image(image);
    write_answer(
        peaks::judge(image, request.table, request.length, request.filed),
        out,
    )
}

// Whatever bytes were read: how many bytes are written, these, and what is left of the bytes read.
pub fn report_input(input: &mut [u8], out: &mut [u8; 144]) -> usize
    ensures { ◌≡◌ {A = ℕ × List ℕ × List ℕ} (result, out.new, input.new) (answered_input input.old out.old) }
{
    match read_line(input) {
        None => write_refusal(4, out),
        Some(request) => report_request(request, &mut input[request.image..], out),
    }
}
