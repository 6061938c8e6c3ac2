// Why a store refuses, and at which address. specs/Refusals.antt has the numbers.
ghost use Rattle.std.specs.Prelude.{◌≡◌};
ghost use Rattle.memory.specs.Refusals.{told};

#[derive(Clone, Copy, PartialEq, Eq, Debug)]
pub enum StoreFault {
    Outside(u32),
    Protected(u32),
}

impl StoreFault {
    // By a match, since the cases hold addresses and no cast gives their numbers.
    pub fn number(self) -> u8
        ensures { result ≡ (told self).number }
    {
        match self {
            StoreFault::Outside(_) => 41,
            StoreFault::Protected(_) => 42,
        }
    }

    pub fn address(self) -> u32
        ensures { result ≡ (told self).address }
    {
        match self {
            StoreFault::Outside(address) | StoreFault::Protected(address) => address,
        }
    }
}
