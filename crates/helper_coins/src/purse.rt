// Coins by value: neither copied nor dropped, so that each is spent once.
ghost use Rattle.std.specs.Prelude.{◌≡◌, ◌-◌, ◌/◌};

// Coins in hand.
pub(crate) struct Coins {
    count: u64,
}

impl Coins {
    pub(crate) fn of(count: u64) -> Coins
        ensures { result.count ≡ count }
    {
        Coins { count }
    }

    // Splits them: what is kept, and the smaller half, which is given on.
    pub(crate) fn split(self) -> (Coins, Coins)
        ensures kept { result.0.count ≡ self.count - self.count / 2 }
        ensures given { result.1.count ≡ self.count / 2 }
    {
        let Coins { count } = self;
        let half = count / 2;
        (
            Coins {
                count: count - half,
            },
            Coins { count: half },
        )
    }

    // Hands the coins back as a count.
    pub(crate) fn counted(self) -> u64
        ensures { result ≡ self.count }
    {
        let Coins { count } = self;
        count
    }
}
