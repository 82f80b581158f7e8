// Listings read at the edge: what the reader answers, as a number and a block of two words.

#![tactic(auto)]

ghost use Rattle.std.specs.Prelude.{◌≡◌, length};
ghost use Rattle.answers.specs.Numbers.{number_of};
ghost use Rattle.listing_edge.specs.Listings.{listing_refusal, told, listing_edge, listing_read};

use answers::Refusal;
use block::write_words;
use listing::Unread;

// The text may be read; or the lowest refusal that applies.
#[tactic(auto, unfolding(crate::specs::Listings::listing_refusal, machine::specs::Runs::lowest))]
fn admit(memory: usize, fault: usize) -> Result<(), Refusal>
    ensures { number_of result ≡ listing_refusal memory fault }
{
    if answers::size_refused(memory) {
        return Err(Refusal::MemorySize);
    }
    if fault != 16 {
        return Err(Refusal::ShortBlock);
    }
    Ok(())
}

// The answer's number; the fault's block takes the faulty line's number and kind.
#[tactic(auto, unfolding(crate::specs::Listings::told))]
fn tell(answer: Result<(), Unread>, fault: &mut [u8]) -> u64
    requires { length fault.old ≡ 16 }
    ensures { told answer fault.old ≡ (result, fault.new) }
{
    match answer {
        Ok(()) => 0,
        Err(Unread::Refused) => u64::from(Refusal::MemorySize),
        Err(Unread::Faulty(found)) => {
            write_words(fault, &[found.line, u64::from(found.kind)]);
            9
        }
    }
}

// Memory becomes the image of the listing. The answer is a number, as the C interface has it.
#[tactic(auto, using(crate::proofs::Faults::not_0, crate::proofs::Faults::block_of_16), unfolding(crate::specs::Listings::listing_read, crate::specs::Listings::told_of))]
pub fn read_listing(text: &[u8], memory: &mut [u8], fault: &mut [u8]) -> u64
    ensures { listing_edge result memory.new fault.new ≡ listing_read text.now memory.old fault.old }
{
    match admit(memory.len(), fault.len()) {
        Err(refusal) => u64::from(refusal),
        Ok(()) => tell(listing::read(text, memory), fault),
    }
}
