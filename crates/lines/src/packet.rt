// The bytes of one message on their way over a line.
use coins::ids::NodeId;
use wire::frame::Frame;

// From whom and to whom the line goes, and the bytes.
#[derive(Clone, Copy)]
pub struct Packet {
    pub sender: NodeId,
    pub receiver: NodeId,
    pub frame: Frame,
}
