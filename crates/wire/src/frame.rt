// The bytes of one message on a line.
use coins::bytes::Bytes;

// The longest message has this many bytes.
pub const ROOM: usize = 283;

// The bytes of one message.
pub type Frame = Bytes<ROOM>;
