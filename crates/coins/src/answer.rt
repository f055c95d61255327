// What a call answers, and why it refuses.
ghost use Rattle.std.specs.Prelude.{◌≡◌};
ghost use Rattle.coins.specs.Refusals.{refusal_number};

// Why a call or a message is refused.
#[derive(Clone, Copy, Debug, PartialEq, Eq)]
pub enum Refusal {
    // a helper above 255, no coins where coins belong, a kind that does not go that way, or coins that can't be
    Malformed,
    // not the next number of its line
    NotNext,
    // an answer for more than was sent
    NotSent,
    // no such letter, or it is done
    NoLetter,
    // not all coins are back
    CoinsOut,
    // the helper is not at work on the letter
    NotWorking,
    // one coin can't be shared
    OneCoin,
    // the boss's count would reach its limit
    CountsUsed,
    // 64 letters are not done
    LettersFull,
    // as many messages wait for that receiver as may
    NoPlace,
}

impl Refusal {
    // The number by which a refusal is told. Some share one, so it is no conversion.
    pub fn number(self) -> u8
        ensures { result ≡ refusal_number self }
    {
        match self {
            Refusal::Malformed => 1,
            Refusal::NotNext => 2,
            Refusal::NotSent => 2,
            Refusal::NoLetter => 3,
            Refusal::CoinsOut => 3,
            Refusal::NotWorking => 4,
            Refusal::OneCoin => 5,
            Refusal::CountsUsed => 6,
            Refusal::LettersFull => 6,
            Refusal::NoPlace => 6,
        }
    }
}

// What a call answers. It is no Result: the project asks for the enum of a refusal inside that of an answer.
#[derive(Clone, Copy, Debug, PartialEq, Eq)]
pub enum Answer {
    Fine,
    // the boss says that the letter is done
    Done,
    Refused(Refusal),
}
