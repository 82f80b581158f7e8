// The lines of a report, each put into a writer's buffer.

#![tactic(auto)]

ghost use Rattle.text.specs.Decimal.{decimal};
ghost use Rattle.text.specs.Put.{Put};
ghost use Rattle.report_lines.specs.Lines.{line, status_line, count_lines, kind_lines};

use clocked::{Kinds, Pipeline};
use machine::Status;
use text::Writer;

pub fn put_number(out: &mut Writer<'_>, name: &[u8], v: u64)
    ensures { Put (line name.now (decimal v)) out.old out.new }
{
    out.text(name);
    out.byte(b'\t');
    out.field(v, b'\n');
}

// One line for each status. Not by Display, whose writer may fail.
pub fn put_status(out: &mut Writer<'_>, status: Status)
    ensures { Put (status_line status) out.old out.new }
{
    match status {
        Status::Aok => out.text(b"stat\tAOK\n"),
        Status::Hlt => out.text(b"stat\tHLT\n"),
        Status::Adr => out.text(b"stat\tADR\n"),
        Status::Ins => out.text(b"stat\tINS\n"),
    }
}

pub fn put_counts(out: &mut Writer<'_>, end: Pipeline)
    ensures { Put (count_lines end) out.old out.new }
{
    let codes = end.codes;
    put_number(out, b"last", end.last);
    put_number(out, b"codes", u64::from(codes));
    put_number(out, b"retired", end.retired);
    put_number(out, b"cycles", end.cycles);
}

pub fn put_kinds(out: &mut Writer<'_>, kinds: Kinds)
    ensures { Put (kind_lines kinds) out.old out.new }
{
    put_number(out, b"loaduse", kinds.loaduse);
    put_number(out, b"mispredict", kinds.mispredict);
    put_number(out, b"return", kinds.returned);
}
