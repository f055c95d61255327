// What goes over a line.
use coins::ids::{LetterId, NodeId};
use coins::mail::Kind;

// The number of a message among those from its sender to its receiver, from 1.
#[derive(Clone, Copy, PartialEq, Eq, PartialOrd, Ord, Debug)]
pub struct SequenceNumber {
    pub number: u64,
}

// What a message is for.
#[derive(Clone, Copy, Debug, PartialEq, Eq)]
pub enum Body {
    // it has that number
    Numbered(Kind),
    // all messages up to that number were taken
    Taken,
}

// A message whose bytes of work lie elsewhere.
#[derive(Clone, Copy)]
pub struct Message<'a> {
    pub letter: LetterId,
    pub sender: NodeId,
    pub receiver: NodeId,
    pub number: SequenceNumber,
    pub body: Body,
    pub work: &'a [u8],
}
