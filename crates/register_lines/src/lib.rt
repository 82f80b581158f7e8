// The registers' lines of a report.

#![tactic(auto)]

ghost use Rattle.std.specs.Prelude.{◌≡◌};
ghost use Rattle.text.specs.Bytes.{bytes};
ghost use Rattle.text.specs.Put.{Put};
ghost use Rattle.report_lines.specs.Lines.{number_line};
ghost use Rattle.register_lines.specs.Registers.{register_name, register_line, register_lines};

use report_lines::put_number;
use text::Writer;

const NAMES: [&[u8]; 15] = [
    b"rax", b"rcx", b"rdx", b"rbx", b"rsp", b"rbp", b"rsi", b"rdi", b"r8", b"r9", b"r10", b"r11",
    b"r12", b"r13", b"r14",
];

// A register's name; 15 and above have none.
pub fn name_of(k: usize) -> &'static [u8]
    ensures { result.now ≡ bytes (register_name k) }
{
    if k < 15 { NAMES[k] } else { b"" }
}

// A register's name and value.
pub fn put_named(out: &mut Writer<'_>, k: usize, v: u64)
    ensures { Put (number_line (register_name k) v) out.old out.new }
{
    put_number(out, name_of(k), v);
}

// A register that is not 0 has a line.
#[tactic(auto, using(crate::specs::Registers::no_line))]
fn put_register(out: &mut Writer<'_>, k: usize, v: u64)
    ensures { Put (register_line k v) out.old out.new }
{
    if v == 0 {
        return;
    }
    out.text(b"reg\t");
    put_named(out, k, v);
}

pub fn put_registers(out: &mut Writer<'_>, registers: [u64; 15])
    ensures { Put (register_lines 15 registers) out.old out.new }
{
    for (k, v) in registers.iter().enumerate() {
        put_register(out, k, *v);
    }
}
