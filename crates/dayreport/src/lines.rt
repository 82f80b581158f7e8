// The six lines of a day. Functions of one shape are no twins here: each has its own words.
ghost use Rattle.std.specs.Prelude.{◌≤◌, length};
ghost use Rattle.text.specs.Put.{Put};
ghost use Rattle.dayreport.specs.Lines.{filed_line, peak_lines, total_lines, found_lines, missing_lines, day_lines};

use peaks::{Comparison, Day, Raw};
use report_lines::put_number;
use text::Writer;

fn put_filed(out: &mut Writer<'_>, c: Comparison)
    ensures { Put (filed_line c) out.old out.new }
{
    match c {
        Comparison::Below => out.text(b"filed\tbelow\n"),
        Comparison::At => out.text(b"filed\tat\n"),
        Comparison::Above => out.text(b"filed\tabove\n"),
        Comparison::NotComparable => out.text(b"filed\t-\n"),
    }
}

fn put_peak(out: &mut Writer<'_>, raw: Raw)
    ensures { Put (peak_lines raw) out.old out.new }
{
    put_number(out, b"peak", raw.peak);
    put_number(out, b"place", raw.place);
}

fn put_totals(out: &mut Writer<'_>, day: Day)
    ensures { Put (total_lines day) out.old out.new }
{
    put_number(out, b"failed", day.failed);
    put_number(out, b"sum", day.sum);
}

// The mean's bits are a word, so that the lines are short.
fn put_found(out: &mut Writer<'_>, day: Day, raw: Raw)
    ensures put { Put (found_lines day raw) out.old out.new }
    ensures short { length (found_lines day raw) ≤ 144 }
{
    put_peak(out, raw);
    put_totals(out, day);
    put_number(out, b"mean", raw.mean_bits());
    put_filed(out, raw.filed);
}

// A dash for what is missing.
fn put_missing(out: &mut Writer<'_>, day: Day)
    ensures { Put (missing_lines day) out.old out.new }
{
    out.text(b"peak\t-\nplace\t-\n");
    put_totals(out, day);
    out.text(b"mean\t-\nfiled\t-\n");
}

pub fn put_day(out: &mut Writer<'_>, day: Day)
    ensures put { Put (day_lines day) out.old out.new }
    ensures short { length (day_lines day) ≤ 144 }
{
    match day.found {
        None => put_missing(out, day),
        Some(raw) => put_found(out, day, raw),
    }
}
