// Sending again what waits for an answer.
ghost use Rattle.std.specs.Prelude.{◌≡◌, ◌+◌, ◌≤◌, ◌++◌, length, OnOk};
ghost use Rattle.lines.specs.Packets.{resent, resent_all, peer_at, Grew};
ghost use Rattle.lines.specs.Viewed.{end_of, ends_of};

use crate::end::LineEnd;
use crate::ends::LineEnds;
use crate::packet::Packet;
use coins::ids::NodeId;
use coins::parcel::Parcel;
use std::alloc::AllocError;
use wire::message::SequenceNumber;
use wire::write::numbered;

// Puts what waits for one receiver behind what goes out, with the numbers after `answered`: all of it, or as much
// as there is memory for.
fn put_frames(
    waiting: &[Parcel],
    me: NodeId,
    peer: NodeId,
    answered: SequenceNumber,
    out: &mut Vec<Packet>,
) -> Result<(), AllocError>
    requires { answered.number + length waiting.now ≤ 9223372036854775808 }
    ensures all { OnOk result (out.new.items ≡ out.old.items ++ resent me peer answered.number waiting.now) }
    ensures some { Grew out.old.items out.new.items }
{
    for (k, parcel) in waiting.iter().enumerate() {
        let number = SequenceNumber {
            number: answered.number + k as u64 + 1,
        };
        out.push(Packet {
            sender: me,
            receiver: peer,
            frame: numbered(parcel, number),
        })?;
    }
    Ok(())
}

// The peer at a place among the ends.
fn peer_at(i: usize) -> NodeId
    ensures { result ≡ peer_at i }
{
    if i < 256 {
        NodeId { number: i as u16 }
    } else {
        NodeId::boss()
    }
}

impl LineEnd {
    // Sends again all that waits for the peer's answer, or as much as there is memory for.
    pub fn resend(&self, me: NodeId, peer: NodeId, out: &mut Vec<Packet>) -> Result<(), AllocError>
        ensures all { OnOk result (out.new.items ≡ out.old.items ++ resent me peer (end_of self.now).answered (end_of self.now).waiting) }
        ensures some { Grew out.old.items out.new.items }
    {
        put_frames(self.waiting.as_slice(), me, peer, self.answered, out)
    }
}

impl LineEnds {
    // Sends again all that waits for an answer, by the peers' places, or as much as there is memory for.
    pub fn resend(&self, me: NodeId, out: &mut Vec<Packet>) -> Result<(), AllocError>
        ensures all { OnOk result (out.new.items ≡ out.old.items ++ resent_all me 0 (ends_of self.now)) }
        ensures some { Grew out.old.items out.new.items }
    {
        for (i, end) in self.ends.iter().enumerate() {
            end.resend(me, peer_at(i), out)?;
        }
        Ok(())
    }
}
