// The end of a line as `split_inclusive` gives it.
ghost use Rattle.std.specs.Prelude.{◌≡◌, length};
ghost use Rattle.text.specs.Parts.{before, line_feed};
ghost use Rattle.text.specs.PartsLaws.{FedLast};

use text::parts;

// The place of the line feed, or the length. It can only be the last byte, so that no line is searched a second time.
#[tactic(auto, using(crate::proofs::Judgement::end_empty, crate::proofs::Judgement::end_fed, crate::proofs::Judgement::end_unfed))]
pub fn end_of(line: &[u8]) -> usize
    requires { FedLast line.now }
    ensures { result ≡ length (before line_feed line.now) }
{
    let n = line.len();
    if n == 0 {
        return n;
    }
    if line[n - 1] == parts::LINE_FEED {
        return n - 1;
    }
    n
}

// The line without its line feed.
#[tactic(auto, using(text::proofs::Places::within, text::proofs::Places::taken))]
pub fn unended(line: &[u8]) -> &[u8]
    requires { FedLast line.now }
    ensures { result.now ≡ before line_feed line.now }
{
    let end = end_of(line);
    &line[..end]
}
