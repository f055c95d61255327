// What boss and helpers send each other.
ghost use Rattle.std.specs.Prelude.{◌≡◌, None};
ghost use Rattle.coins.specs.Mails.{kind_number, coins_in};
ghost use Rattle.coins.specs.declared.mail.Untaken.TheVariants.{Refused};

use crate::answer::{Answer, Refusal};
use crate::ids::{LetterId, NodeId};

// What a message is, with its coins.
#[derive(Clone, Copy, Debug, PartialEq, Eq)]
pub enum Kind {
    // work for a helper, and coins that make it count
    Work(u64),
    // coins alone, for a helper that asked
    More(u64),
    // coins that go back to the boss
    Back(u64),
    // the boss's answer to a helper that asked, when there are no coins to give
    NoMore,
    // a helper asks the boss for more coins
    Ask,
}

impl Kind {
    // The number that stands for the kind in a message. Two share one, so it is no conversion.
    pub fn number(self) -> u8
        ensures { result ≡ kind_number self }
    {
        match self {
            Kind::Work(_) => 1,
            Kind::More(_) => 2,
            Kind::Back(_) => 3,
            Kind::NoMore => 3,
            Kind::Ask => 4,
        }
    }

    // The coins that travel with it.
    pub fn coins(self) -> u64
        ensures { result ≡ coins_in self }
    {
        match self {
            Kind::Work(coins) => coins,
            Kind::More(coins) => coins,
            Kind::Back(coins) => coins,
            Kind::NoMore => 0,
            Kind::Ask => 0,
        }
    }
}

// A message of a letter.
#[derive(Clone, Copy, Debug, PartialEq, Eq)]
pub struct Mail {
    pub sender: NodeId,
    pub receiver: NodeId,
    pub letter: LetterId,
    pub kind: Kind,
}

// What a call answers and sends: at most one message.
#[derive(Clone, Copy, Debug, PartialEq, Eq)]
pub struct Outcome {
    pub answer: Answer,
    pub post: Option<Mail>,
}

// Why a message that came is not taken.
#[derive(Clone, Copy, Debug, PartialEq, Eq)]
pub enum Untaken {
    // there is no place for its answer: it comes again
    Later,
    Refused(Refusal),
}

impl From<Refusal> for Untaken {
    ghost from_gives = { λ why untaken. untaken ≡ Refused why };

    fn from(why: Refusal) -> Untaken {
        Untaken::Refused(why)
    }
}

// What becomes of a message that came: it is taken, and this is sent; or it is not.
pub type Taking = Result<Option<Mail>, Untaken>;

impl Outcome {
    pub fn refused(why: Refusal) -> Outcome
        ensures { result ≡ record { answer = Answer.Refused why; post = None } }
    {
        Outcome {
            answer: Answer::Refused(why),
            post: None,
        }
    }

    pub fn fine(post: Option<Mail>) -> Outcome
        ensures { result ≡ record { answer = Answer.Fine; post = post } }
    {
        Outcome {
            answer: Answer::Fine,
            post,
        }
    }
}
