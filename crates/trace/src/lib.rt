// A station's trace: its lines, and what a checker of one answers: definitions in specs/, theorems in specs/ and proofs/.

#![tactic(auto)]

ghost use Rattle.std.specs.Prelude.{◌≡◌, Some};
ghost use Rattle.trace.specs.Verdict.{kind_number};

// Why a line is wrong: it is not the one that is due, or its instruction was written into.
#[derive(Clone, Copy, PartialEq, Eq)]
pub enum Kind {
    NotDue,
    Overwritten,
}

// The kinds' numbers.
impl From<Kind> for u64 {
    ghost from_gives = { λ k n. n ≡ kind_number (Some k) };

    #[tactic(auto, unfolding(crate::specs::Verdict::kind_number))]
    fn from(kind: Kind) -> u64 {
        match kind {
            Kind::NotDue => 1,
            Kind::Overwritten => 2,
        }
    }
}

// The number of the first wrong line, from 1, with its kind, or 0 and none; and how many lines were found right.
#[derive(Clone, Copy)]
pub struct Verdict {
    pub line: u64,
    pub kind: Option<Kind>,
    pub right: u64,
}
