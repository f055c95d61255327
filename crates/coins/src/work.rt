// The bytes of a piece of work.
use crate::bytes::Bytes;

// At most this many bytes go with work.
pub const LONGEST: usize = 256;

// The bytes of a piece of work.
pub type Work = Bytes<LONGEST>;
