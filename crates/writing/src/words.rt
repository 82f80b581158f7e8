// The words of a remark: the instructions' names, and the registers' with their sign.
ghost use Rattle.std.specs.Prelude.{◌≡◌, [], map, get_or};
ghost use Rattle.text.specs.Bytes.{bytes, texts};
ghost use Rattle.text.specs.Put.{Put};
ghost use Rattle.writing.specs.Remark.{mnemonics, mnemonic, register};

use register_lines::name_of;
use text::Writer;

// By code and function.
const MNEMONICS: [&[&str]; 13] = [
    &["halt"],
    &["nop"],
    &[
        "rrmovq", "cmovle", "cmovl", "cmove", "cmovne", "cmovge", "cmovg",
    ],
    &["irmovq"],
    &["rmmovq"],
    &["mrmovq"],
    &["addq", "subq", "andq", "xorq"],
    &["jmp", "jle", "jl", "je", "jne", "jge", "jg"],
    &["call"],
    &["ret"],
    &["pushq"],
    &["popq"],
    &["iaddq"],
];

// The names of a code's functions; a code past the last instruction has none.
fn names_of(code: usize) -> &'static [&'static str]
    ensures { texts result.now ≡ map bytes (get_or mnemonics code []) }
{
    if code < 13 { MNEMONICS[code] } else { &[] }
}

// An instruction's name; a function that is not in the table has none.
fn mnemonic_of(code: usize, function: usize) -> &'static str
    ensures { result.now ≡ mnemonic code function }
{
    let names = names_of(code);
    if function < names.len() {
        names[function]
    } else {
        ""
    }
}

pub fn put_mnemonic(out: &mut Writer<'_>, code: u8, function: u8)
    ensures { Put (mnemonic code function) out.old out.new }
{
    out.text(mnemonic_of(code as usize, function as usize).as_bytes());
}

// A register's name, with its sign; 15 and above have none.
pub fn put_register(out: &mut Writer<'_>, number: u8)
    ensures { Put (register number) out.old out.new }
{
    out.byte(b'%');
    out.text(name_of(number as usize));
}
