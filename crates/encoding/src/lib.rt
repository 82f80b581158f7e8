// Encoding instructions: each has one form, with F in place of a filler (#104).

#![tactic(auto)]

ghost use Rattle.std.specs.Prelude.{◌≡◌, false, length};
ghost use Rattle.machine.specs.Fetch.{half as half_of};
ghost use Rattle.machine.specs.Table.{row_of};
ghost use Rattle.text.specs.Put.{Put};
ghost use Rattle.encoding.specs.Encode.{encode_refused, pair, form};

use lookup::{ROWS, byte_of, functions_of, size_of};
use machine::NONE;
use text::Writer;

// A register where one is named, else the filler.
fn half(named: bool, register: u64) -> u64
    ensures { result ≡ half_of named register }
{
    if named { register } else { u64::from(NONE) }
}

// What an instruction says, wherever it stands.
#[derive(Clone, Copy)]
pub struct Fields {
    pub code: u64,
    pub function: u64,
    pub ra: u64,
    pub rb: u64,
    pub constant: u64,
}

impl Fields {
    // 5: a named register over 14, or a function not in the table.
    pub fn refused(self) -> bool
        ensures { result ≡ encode_refused self }
    {
        if ROWS as u64 <= self.code {
            return true;
        }
        let row = self.code as u8;
        if u64::from(functions_of(row)) <= self.function {
            return true;
        }
        let byte = byte_of(row);
        (byte.names_a() & (14 < self.ra)) | (byte.names_b() & (14 < self.rb))
    }

    // The register byte, where there is one.
    fn put_pair(self, out: &mut Writer<'_>)
        requires { encode_refused self ≡ false }
        ensures { Put (pair (row_of self.code).byte self.ra self.rb) out.old out.new }
    {
        let byte = byte_of(self.code as u8);
        let a = byte.names_a();
        let b = byte.names_b();
        if a | b {
            let high = half(a, self.ra);
            let low = half(b, self.rb);
            out.byte((16 * high + low) as u8);
        }
    }

    // The instruction's bytes.
    pub fn put(self, out: &mut Writer<'_>)
        requires { encode_refused self ≡ false }
        ensures { Put (form self) out.old out.new }
    {
        out.byte((16 * self.code + self.function) as u8);
        self.put_pair(out);
        if 8 < size_of(self.code as u8) {
            out.text(&self.constant.to_le_bytes());
        }
    }

    // How many bytes these are.
    pub fn length(self) -> usize
        requires { encode_refused self ≡ false }
        ensures { result ≡ length (form self) }
    {
        size_of(self.code as u8) as usize
    }
}
