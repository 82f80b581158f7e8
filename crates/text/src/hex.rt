// Hex digits, "of either case".
ghost use Rattle.std.specs.Prelude.{◌≡◌, ◌+◌, ◌*◌, ◌≤◌, ◌<◌, length};
ghost use Rattle.text.specs.Hex.{is_hex, hex_value, all_hex, hex_number};

// By its own name, since the definitions have it.
#[tactic(auto, unfolding(crate::specs::Hex::is_hex))]
pub fn is_digit(c: u8) -> bool
    ensures { result ≡ is_hex c }
{
    c.is_ascii_hexdigit()
}

// The value of a digit; 0 for a byte that is none.
#[tactic(auto, unfolding(crate::specs::Hex::hex_value))]
pub fn value(c: u8) -> u8
    ensures { (result ≡ hex_value c) × (result < 16) }
{
    match c {
        b'0'..=b'9' => c - b'0',
        b'A'..=b'F' => c - b'A' + 10,
        b'a'..=b'f' => c - b'a' + 10,
        _ => 0,
    }
}

// The byte of two digits, the higher first.
pub fn byte(high: u8, low: u8) -> u8
    ensures { result ≡ 16 * hex_value high + hex_value low }
{
    16 * value(high) + value(low)
}

pub fn all_digits(s: &[u8]) -> bool
    ensures { result ≡ all_hex s.now }
{
    s.iter().all(|&c| is_digit(c))
}

// The number of up to sixteen digits, the highest first.
pub fn number(s: &[u8]) -> u64
    requires { length s.now ≤ 16 }
    ensures { result ≡ hex_number s.now }
{
    let mut n: u64 = 0;
    for &c in s {
        n = 16 * n + u64::from(value(c));
    }
    n
}
