// What becomes of bytes that come over a line, where they are not refused.
use coins::mail::Mail;
use wire::message::SequenceNumber;

#[derive(Clone, Copy, Debug, PartialEq, Eq)]
pub enum Heard {
    // the next message of the line, to be taken
    Next { mail: Mail, number: SequenceNumber },
    // a message that was taken before: it is passed over, and answered for again
    Old,
    // a message further ahead: it is passed over
    Ahead,
    // an answer: what it answers for is kept no more
    Released,
}
