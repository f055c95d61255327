// Looking along the packets.
ghost use Rattle.std.specs.Prelude.{◌≡◌, ◌<◌, length, MatchOption};
ghost use Rattle.scenes.specs.Plays.{goes_on, seek_packet};

use coins::ids::NodeId;
use lines::packet::Packet;
use scenes::command::Pick;

// Whether a packet goes from one to another.
fn goes_on(packet: &Packet, sender: NodeId, receiver: NodeId) -> bool
    ensures { result ≡ goes_on sender receiver packet.now }
{
    packet.sender == sender && packet.receiver == receiver
}

// The packet with so many others of its line before it.
pub(crate) fn seek(packets: &[Packet], pick: Pick) -> Option<usize>
    ensures { MatchOption result (seek_packet packets.now pick.sender pick.receiver pick.before ≡ length packets.now) (λ j. (j ≡ seek_packet packets.now pick.sender pick.receiver pick.before) × (j < length packets.now)) }
{
    packets
        .iter()
        .enumerate()
        .filter(|(_, packet)| goes_on(packet, pick.sender, pick.receiver))
        .nth(pick.before)
        .map(|(j, _)| j)
}
