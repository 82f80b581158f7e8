// A text parted by a byte: lines by line feeds, fields by tabs.
ghost use Rattle.std.specs.Prelude.{◌≡◌, ◌+◌, ◌≤◌, length, drop};
ghost use Rattle.text.specs.Parts.{before, behind};

pub const TAB: u8 = 9;

pub const LINE_FEED: u8 = 10;

// The place of the first c, or the length where there is none.
pub fn place(s: &[u8], c: u8) -> usize
    ensures { result ≡ length (before c s.now) }
{
    s.iter().position(|&x| x == c).unwrap_or(s.len())
}

// The place of the first c from a place on, or the length. No reader of ours asks it now; it stays, for no other function states its promise.
pub fn place_from(s: &[u8], at: usize, c: u8) -> usize
    requires { at ≤ length s.now }
    ensures { (result ≡ at + length (before c (drop at s.now))) × (result ≤ length s.now) }
{
    at + place(&s[at..], c)
}

// The part before the first c.
#[tactic(auto, using(crate::proofs::Places::within, crate::proofs::Places::taken))]
pub fn part_before(s: &[u8], c: u8) -> &[u8]
    ensures { result.now ≡ before c s.now }
{
    let at = place(s, c);
    &s[..at]
}

// The part behind the first c; an empty one where there is none.
#[tactic(auto, using(crate::proofs::Places::behind_it, crate::proofs::Places::behind_nothing))]
pub fn part_behind(s: &[u8], c: u8) -> &[u8]
    ensures { result.now ≡ behind c s.now }
{
    let at = place(s, c);
    if at < s.len() { &s[at + 1..] } else { &[] }
}
