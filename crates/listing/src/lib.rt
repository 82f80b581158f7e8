// Listings: images received as text, read into lent memory. What a listing is and means is in specs/.

#![tactic(auto)]

mod ending;
mod judging;
mod laying;

ghost use Rattle.std.specs.Prelude.{◌≡◌};
ghost use Rattle.listing.specs.Reading.{kind_number, faulted, answered, listed};

// The kinds of a faulty line, in document 02's order.
#[derive(Clone, Copy, PartialEq, Eq)]
pub enum Kind {
    Form,
    Count,
    Order,
    Beyond,
}

// Document 02's numbers for the kinds.
impl From<Kind> for u64 {
    ghost from_gives = { λ kind n. n ≡ kind_number kind };

    #[tactic(auto, unfolding(crate::specs::Reading::kind_number))]
    fn from(kind: Kind) -> u64 {
        match kind {
            Kind::Form => 1,
            Kind::Count => 2,
            Kind::Order => 3,
            Kind::Beyond => 4,
        }
    }
}

// The first faulty line of a text, by its number from 1 and its kind.
#[derive(Clone, Copy, PartialEq, Eq)]
pub struct Fault {
    pub line: u64,
    pub kind: Kind,
}

// Why a text is not read: refusal 1, by the size of memory; or its first faulty line.
#[derive(Clone, Copy, PartialEq, Eq)]
pub enum Unread {
    Refused,
    Faulty(Fault),
}

impl From<Fault> for Unread {
    ghost from_gives = { λ fault unread. unread ≡ faulted fault };

    fn from(fault: Fault) -> Unread {
        Unread::Faulty(fault)
    }
}

// Reads the text fully; only then, where it is a listing, memory becomes its image.
#[tactic(auto, unfolding(crate::specs::Reading::listed, crate::specs::Reading::done, crate::specs::Grammar::image_of))]
pub fn read(text: &[u8], memory: &mut [u8]) -> Result<(), Unread>
    ensures { answered result memory.new ≡ listed text.now memory.old }
{
    if answers::size_refused(memory.len()) {
        return Err(Unread::Refused);
    }
    judging::judge(text, memory.len() as u64)?;
    memory.fill(0);
    laying::lay(text, memory);
    Ok(())
}
