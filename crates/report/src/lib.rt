// The report of a run: document 01's lines, made from the answer of the run.

#![tactic(auto)]

ghost use Rattle.std.specs.Prelude.{◌≡◌, List, [], ℕ};
ghost use Rattle.text.specs.Put.{Put, written};
ghost use Rattle.machine.specs.Memory.{lent};
ghost use Rattle.clocked.specs.PipeRuns.{pipe_answer};
ghost use Rattle.answers.specs.Numbers.{number_in, record_in};
ghost use Rattle.report.specs.Report.{end_lines, report, image_refused, image_run, replayed};

use answers::{Refusal, Refused, number_of, record_of};
use clocked::Pipeline;
use machine::Codes;
use register_lines::put_registers;
use report_lines::{put_counts, put_kinds, put_number, put_status};
use text::Writer;

// The lines of a run that was not refused, behind the first.
fn put_end(out: &mut Writer<'_>, end: Pipeline)
    ensures { Put (end_lines end) out.old out.new }
{
    let status = end.status;
    let kinds = end.kinds;
    let registers = end.registers;
    put_status(out, status);
    put_counts(out, end);
    put_kinds(out, kinds);
    put_registers(out, registers);
}

fn put_report(out: &mut Writer<'_>, number: u64, end: Pipeline)
    ensures { Put (report number end) out.old out.new }
{
    out.text(b"y86run\t1\n");
    if number == 0 {
        put_end(out, end);
    } else {
        put_number(out, b"refused", number);
    }
}

// No report is longer than 652 bytes, so that it always fits. It takes any number, not only an engine's.
pub fn write_report(number: u64, end: Pipeline, out: &mut [u8; 652]) -> usize
    ensures { ◌≡◌ {A = ℕ × List ℕ} (result, out.new) (written (report number end) out.old) }
{
    let mut writer = Writer::new(out);
    put_report(&mut writer, number, end);
    writer.length()
}

// The program holds at most 4,096 bytes, whatever the engines take: a test as short as `answers::size_refused`, and of another document's number.
#[tactic(auto, unfolding(crate::specs::Report::image_refused))]
pub fn image_refused(size: usize) -> bool
    ensures { result ≡ image_refused size }
{
    (size == 0) | (4096 < size)
}

// Registers 0, codes ZF=1, start 0, budget 4,000 cycles.
pub fn run_image(image: &mut [u8]) -> Result<Pipeline, Refused<Pipeline>>
    ensures { pipe_answer (number_in result) (record_in result) (lent image.new) [] [] ≡ image_run image.old }
{
    let codes = Codes {
        zf: true,
        sf: false,
        of: false,
    };
    let started = pipe::start(pipe::as_in_01(), image.len(), [0u64; 15], codes, 0);
    let fresh = record_of(started);
    if image_refused(image.len()) {
        return Err(Refused {
            why: Refusal::MemorySize,
            given: fresh,
        });
    }
    pipe::run_unlogged(fresh, image, 4000)
}

// Document 01's program from the image read to the bytes written.
pub fn report_image(image: &mut [u8], out: &mut [u8; 652]) -> usize
    ensures { ◌≡◌ {A = ℕ × List ℕ × List ℕ} (result, out.new, image.new) (replayed image.old out.old) }
{
    let answer = run_image(image);
    write_report(number_of(answer), record_of(answer), out)
}
