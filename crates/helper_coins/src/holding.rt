// A helper's state of one letter.
ghost use Rattle.std.specs.Prelude.{◌≡◌, ◌+◌, ◌-◌, ◌/◌, ◌<◌};
ghost use Rattle.coins.specs.Limits.{limit};
ghost use Rattle.helper_coins.specs.Holdings.{idle, took, kept, waiting, answered, waits};

use crate::purse::Coins;

// A helper's state of a letter: whether it is at work on it, how many coins of it it has, and whether it
// asked for more and has no answer yet.
#[derive(Clone, Copy, Debug, PartialEq, Eq)]
pub struct Holding {
    pub coins: u64,
    pub working: bool,
    pub asked: bool,
}

impl Holding {
    // Not at work, and without coins.
    pub fn idle() -> Holding
        ensures { result ≡ idle }
    {
        Holding {
            working: false,
            coins: 0,
            asked: false,
        }
    }

    // Coins that wait for a place on the way to the boss.
    pub fn is_waiting(self) -> bool
        ensures { result ≡ waits self }
    {
        self.waits()
    }

    // The same, of a holding where it lies: a search by value loads each one whole, in twice the instructions.
    pub(crate) fn waits(&self) -> bool
        ensures { result ≡ waits self.now }
    {
        !self.working && self.coins > 0
    }

    // Work has come, with coins.
    pub(crate) fn take(self, coins: u64) -> Holding
        requires { self.coins + coins < limit }
        ensures { result ≡ took self coins }
    {
        Holding {
            working: true,
            coins: self.coins + coins,
            ..self
        }
    }

    // Gives the smaller half on, and keeps the rest.
    pub(crate) fn split(self) -> (Holding, u64)
        ensures rest { result.0 ≡ kept self }
        ensures half { result.1 ≡ self.coins / 2 }
    {
        let (rest, half) = Coins::of(self.coins).split();
        let coins = rest.counted();
        (Holding { coins, ..self }, half.counted())
    }

    // It has asked for more.
    pub(crate) fn ask(self) -> Holding
        ensures { result ≡ waiting self }
    {
        Holding {
            asked: true,
            ..self
        }
    }

    // An answer has come to its asking, with so many coins.
    pub(crate) fn answer(self, coins: u64) -> Holding
        requires { self.coins + coins < limit }
        ensures { result ≡ answered self coins }
    {
        Holding {
            coins: self.coins + coins,
            asked: false,
            ..self
        }
    }
}
