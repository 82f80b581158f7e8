// The first faulty line of a text, and its kind.
ghost use Rattle.std.specs.Prelude.{◌≡◌, ◌+◌};
ghost use Rattle.text.specs.PartsLaws.{FedLast};
ghost use Rattle.listing.specs.Reading.{missing, lowest_kind, in_place, fault, checked, record_of, verdict};

use super::{Fault, Kind};
use crate::ending::end_of;
use text::{hex, parts};

// A field that is missing, or not hex.
#[tactic(auto, unfolding(crate::specs::Reading::missing))]
fn is_missing(field: &[u8]) -> bool
    ensures { result ≡ missing field.now }
{
    field.is_empty() || !hex::all_digits(field)
}

// Kinds 3 and 4: the address beside the first one that is free, and the end beside the size; or the first address behind its bytes.
#[tactic(auto, unfolding(crate::specs::Reading::lowest_kind, crate::specs::Reading::in_place))]
fn in_place(address: u64, count: u64, free: u64, size: u64) -> Result<u64, Kind>
    ensures { result ≡ lowest_kind (in_place size free address (address + count)) (address + count) }
{
    if address < free {
        return Err(Kind::Order);
    }
    match address.checked_add(count) {
        Some(next) if next <= size => Ok(next),
        _ => Err(Kind::Beyond),
    }
}

// A line, without its line feed.
#[tactic(auto, using(text::specs::HexLaws::hex_bytes_length), unfolding(crate::specs::Reading::fault, crate::specs::Reading::lowest_kind, crate::specs::Reading::malformed, crate::specs::Reading::miscounted, crate::specs::Reading::record_of, crate::specs::Grammar::address_of, crate::specs::Grammar::bytes_of, crate::specs::Grammar::end_of))]
fn check(line: &[u8], free: u64, size: u64) -> Result<u64, Kind>
    ensures { result ≡ fault size free (record_of line.now) }
{
    let address = parts::part_before(line, parts::TAB);
    let rest = parts::part_behind(line, parts::TAB);
    let bytes = parts::part_before(rest, parts::TAB);
    if is_missing(address) || is_missing(bytes) || 16 < address.len() {
        return Err(Kind::Form);
    }
    if bytes.len() % 2 == 1 || 32 < bytes.len() {
        return Err(Kind::Count);
    }
    in_place(hex::number(address), (bytes.len() / 2) as u64, free, size)
}

// A line with its line feed, which the last may lack.
#[tactic(auto, using(crate::proofs::Judgement::not_ended, crate::proofs::Judgement::is_ended, text::proofs::Places::taken), unfolding(crate::specs::Reading::checked))]
fn check_ended(line: &[u8], free: u64, size: u64) -> Result<u64, Kind>
    requires { FedLast line.now }
    ensures { result ≡ checked size free line.now }
{
    let end = end_of(line);
    if line.len() <= end {
        return Err(Kind::Form);
    }
    check(&line[..end], free, size)
}

// Line by line; free is the first address behind the last byte given.
pub fn judge(text: &[u8], size: u64) -> Result<(), Fault>
    ensures { result ≡ verdict size text.now }
{
    let mut free: u64 = 0;
    for (passed, line) in text.split_inclusive(|b| *b == parts::LINE_FEED).enumerate() {
        let number = passed as u64 + 1;
        free = check_ended(line, free, size).map_err(|kind| Fault { line: number, kind })?;
    }
    Ok(())
}
