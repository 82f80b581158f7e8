// Hex in lower case.
ghost use Rattle.std.specs.Prelude.{[], ◌∷◌, ◌<◌};
ghost use Rattle.text.specs.Put.{Put};
ghost use Rattle.writing.specs.HexText.{hex_digit, hex_digits, hex_text, hex_pairs};

use text::Writer;

fn put_digit(out: &mut Writer<'_>, digit: u8)
    requires { digit < 16 }
    ensures { Put (hex_digit digit ∷ []) out.old out.new }
{
    if digit < 10 {
        out.byte(b'0' + digit);
    } else {
        out.byte(87 + digit);
    }
}

// The digits of the sixteenth, and the last digit behind them.
#[tactic(auto, using(crate::proofs::Digits::one_hex))]
fn put_digits(out: &mut Writer<'_>, left: usize, n: u64)
    ensures { Put (hex_digits left n) out.old out.new }
{
    let last = (n % 16) as u8;
    if left == 0 {
        return put_digit(out, last);
    }
    if n < 16 {
        return put_digit(out, last);
    }
    put_digits(out, left - 1, n / 16);
    put_digit(out, last);
}

// An address.
pub fn put_hex(out: &mut Writer<'_>, n: u64)
    ensures { Put (hex_text n) out.old out.new }
{
    put_digits(out, 15, n);
}

// Two digits for each byte.
pub fn put_pairs(out: &mut Writer<'_>, bytes: &[u8])
    ensures { Put (hex_pairs bytes.now) out.old out.new }
{
    for byte in bytes {
        put_digit(out, *byte / 16);
        put_digit(out, *byte % 16);
    }
}
