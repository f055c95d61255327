// What becomes of bytes that come.
ghost use Rattle.std.specs.Prelude.{◌≡◌};
ghost use Rattle.nodes.specs.Receipts.{reply_of};

use coins::answer::{Answer, Refusal};

// The enum of a refusal stands inside it, as the project asks of an answer.
#[derive(Clone, Copy, Debug, PartialEq, Eq)]
pub enum Receipt {
    // the next message: taken, and answered for
    Took,
    // taken before: passed over, and answered for again
    Old,
    // further ahead: passed over
    Ahead,
    // the next message, with no place for its answer: passed over, and not answered for
    Later,
    // an answer: what it answers for is kept no more
    Released,
    Refused(Refusal),
}

impl Receipt {
    // What a person is told: what is passed over is refused by number too.
    pub fn reply(self) -> Answer
        ensures { result ≡ reply_of self }
    {
        match self {
            Receipt::Took | Receipt::Released => Answer::Fine,
            Receipt::Old | Receipt::Ahead => Answer::Refused(Refusal::NotNext),
            Receipt::Later => Answer::Refused(Refusal::NoPlace),
            Receipt::Refused(why) => Answer::Refused(why),
        }
    }
}
