// The numbers that come next, of constants and of functions. They are handed on by value, as the project asks: drawing hands them back.
ghost use Rattle.std.specs.Prelude.{◌≡◌};
ghost use Rattle.skolem.specs.Counting.{above};

#[derive(Drop)]
pub struct Counters {
    pub constants: u64,
    pub functions: u64,
}

// The next number; one that is past the last stays.
fn next(number: u64) -> u64
    ensures { result ≡ above number }
{
    if number > Counters::LAST {
        number
    } else {
        number + 1
    }
}

impl Counters {
    // The last number that a name is made of: five digits, so that a name has at most seven bytes.
    pub const LAST: u64 = 65535;

    // Both counts start at 0.
    pub fn start() -> Counters
        ensures { result ≡ record { constants = 0; functions = 0 } }
    {
        Counters {
            constants: 0,
            functions: 0,
        }
    }

    // Draws a constant's number, and gives the counters then. One that is past the last is no number of a name.
    pub fn constant(mut self) -> (u64, Counters)
        ensures { result ≡ (self.constants, record { constants = above self.constants; functions = self.functions }) }
    {
        let number = self.constants;
        self.constants = next(number);
        (number, self)
    }

    // Draws a function's number, likewise.
    pub fn function(mut self) -> (u64, Counters)
        ensures { result ≡ (self.functions, record { constants = self.constants; functions = above self.functions }) }
    {
        let number = self.functions;
        self.functions = next(number);
        (number, self)
    }
}
