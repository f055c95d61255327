// One end of a line: what a node keeps of what it sent to a peer, and how far it took what the peer sent.
ghost use Rattle.std.specs.Prelude.{◌≡◌, ◌+◌, ◌<◌, ◌≤◌, true, vec_len};
ghost use Rattle.lines.specs.Fits.{all_fit};

use coins::parcel::Parcel;
use wire::message::SequenceNumber;

// How the number of a message stands to the last that was taken.
#[derive(Clone, Copy, Debug, PartialEq, Eq)]
pub enum Standing {
    // at or below the last: it was taken before
    Old,
    Next,
    // further ahead: one before it is missing
    Ahead,
}

// Why a message is not kept: there is no place, or no memory was made ready for it.
#[derive(Clone, Copy, Debug, PartialEq, Eq)]
pub struct Full;

// At most 1,024 messages wait, and sequence numbers stay far below the end of their type.
// Clauses see an end by `end_of` and `spare`. The value of a Model would hold both of them, and be no plainer.
#[derive(Drop)]
pub struct LineEnd {
    // the number up to which the peer has answered
    pub(crate) answered: SequenceNumber,
    // what was sent with the numbers after that, the oldest first
    pub(crate) waiting: Vec<Parcel>,
    // the last number that was taken from the peer
    pub(crate) taken: SequenceNumber,
    ghost few: { vec_len waiting ≤ 1024 },
    ghost low: { answered.number + vec_len waiting ≤ 9223372036854775808 },
    ghost high: { taken.number < 18446744073709551616 },
    ghost fit: { all_fit waiting.items ≡ true },
}
