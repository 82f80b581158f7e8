// A text put into a lent buffer, from its front on. What has no room is cut off and yet counted, so that a writer over an empty buffer tells
// the length of its text; nothing can overflow, since the count stays at the highest word.
ghost use Rattle.std.specs.Prelude.{◌≡◌, [], ◌∷◌};
ghost use Rattle.text.specs.Put.{Begun, Put};

// It has no `fmt::Write`: what `write!` puts may fail by its contract, and nothing fails here.
#[derive(Drop)]
pub struct Writer<'a> {
    buffer: &'a mut [u8],
    // the length of the text so far
    at: usize,
}

impl<'a> Writer<'a> {
    pub fn new(buffer: &'a mut [u8]) -> Writer<'a>
        ensures { Begun buffer.entry result }
    {
        Writer { buffer, at: 0 }
    }

    // The length of the text so far.
    pub fn length(&self) -> usize
        ensures { result ≡ self.now.at }
    {
        self.at
    }

    pub fn byte(&mut self, byte: u8)
        ensures { Put (byte ∷ []) self.old self.new }
    {
        if self.at < self.buffer.len() {
            self.buffer[self.at] = byte;
        }
        self.at = self.at.saturating_add(1);
    }

    pub fn text(&mut self, text: &[u8])
        ensures { Put text.now self.old self.new }
    {
        for byte in text {
            self.byte(*byte);
        }
    }
}
