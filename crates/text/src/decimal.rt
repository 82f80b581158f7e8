// Unsigned decimal numbers.
ghost use Rattle.std.specs.Prelude.{[], ◌∷◌, ◌++◌};
ghost use Rattle.text.specs.Decimal.{decimal};
ghost use Rattle.text.specs.Put.{Put};

use crate::putting::Writer;

impl Writer<'_> {
    // The digits of the tenth, and the last digit behind them.
    #[tactic(auto, using(crate::specs::Decimal::decimal_one))]
    pub fn decimal(&mut self, n: u64)
        ensures { Put (decimal n) self.old self.new }
    {
        if n < 10 {
            return self.byte(b'0' + n as u8);
        }
        self.decimal(n / 10);
        self.byte(b'0' + (n % 10) as u8);
    }

    // A decimal field with the byte that ends it.
    pub fn field(&mut self, n: u64, end: u8)
        ensures { Put (decimal n ++ end ∷ []) self.old self.new }
    {
        self.decimal(n);
        self.byte(end);
    }
}
