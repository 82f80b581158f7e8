// Unsigned decimal fields, read as they are written: no sign, no leading zero, below 2^64.
ghost use Rattle.std.specs.Prelude.{◌≡◌, ◌≤◌, ◌<◌, length, drop};
ghost use Rattle.text.specs.Field.{starts_number, read_on, field_at, field_ended};

// A digit stands there, and no zero with a digit behind it.
#[tactic(auto, unfolding(crate::specs::Field::starts_number))]
fn starts_number(text: &[u8], at: usize) -> bool
    ensures { result ≡ starts_number text.now at }
{
    match text.get(at) {
        Some(b'0') => text.get(at + 1).is_none_or(|b| !b.is_ascii_digit()),
        Some(first) => first.is_ascii_digit(),
        None => false,
    }
}

// The number that the digits from `at` on say, and the place behind them.
fn read_digits(text: &[u8], at: usize) -> Option<(u64, usize)>
    requires { at ≤ length text.now }
    ensures { result ≡ read_on 0 at (drop at text.now) }
{
    let mut v: u64 = 0;
    for (i, &b) in text[at..].iter().enumerate() {
        if !b.is_ascii_digit() {
            return Some((v, at + i));
        }
        v = v.checked_mul(10)?.checked_add(u64::from(b - 48))?;
    }
    Some((v, text.len()))
}

// A number and the place behind it, or none.
#[tactic(auto, using(crate::proofs::Fields::starts_inside), unfolding(crate::specs::Field::field_at))]
pub fn read_decimal(text: &[u8], at: usize) -> Option<(u64, usize)>
    ensures { result ≡ field_at text.now at }
{
    if !starts_number(text, at) {
        return None;
    }
    read_digits(text, at)
}

// A decimal field with the byte that ends it; the place is the one behind that byte.
#[tactic(auto, unfolding(crate::specs::Field::field_ended, crate::specs::Field::ended_by))]
pub fn read_field(text: &[u8], at: usize, end: u8) -> Option<(u64, usize)>
    ensures { result ≡ field_ended text.now at end }
{
    let (value, next) = read_decimal(text, at)?;
    if text.get(next) == Some(&end) {
        Some((value, next + 1))
    } else {
        None
    }
}
