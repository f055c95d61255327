// What goes out over lines, and what becomes of what comes.
ghost use Rattle.std.specs.Prelude.{◌≡◌, ◌++◌, if◌then◌else◌, is_ok, Some, None, MatchResult};
ghost use Rattle.lines.specs.Ends.{slot, end_at, standing};
ghost use Rattle.lines.specs.Packets.{answer_of, kept_for, out_for};
ghost use Rattle.wire.specs.Bytes.{decode};
ghost use Rattle.wire.specs.Messages.{view};
ghost use Rattle.lines.specs.Hearing.{own_message, hears, by_standing, mail_of};
ghost use Rattle.lines.specs.Viewed.{ends_of, can_send};

use crate::end::{Full, Standing};
use crate::ends::LineEnds;
use crate::heard::Heard;
use crate::packet::Packet;
use coins::answer::Refusal;
use coins::ids::NodeId;
use coins::mail::{Kind, Mail};
use coins::parcel::Parcel;
use coins::work::Work;
use wire::message::{Body, Message, SequenceNumber};
use wire::read::read;
use wire::write::{acknowledgement, numbered};

// The answer to a peer for all up to a number. Here and below a node is told beside its peer: it has the one and looks
// for the other, so a struct of both would be made anew at each call.
pub fn answer_for(me: NodeId, peer: NodeId, number: SequenceNumber) -> Packet
    ensures { result ≡ answer_of me peer number.number }
{
    Packet {
        sender: me,
        receiver: peer,
        frame: acknowledgement(me, peer, number),
    }
}

// The message that bytes are, if it is one from the peer to me.
fn own_message(me: NodeId, peer: NodeId, bytes: &[u8]) -> Result<Message<'_>, Refusal>
    ensures { MatchResult result (λ m. own_message me peer (decode bytes.now) ≡ Some (view m)) (λ why. (own_message me peer (decode bytes.now) ≡ None) × (why ≡ Refusal.Malformed)) }
{
    let message = read(bytes).ok_or(Refusal::Malformed)?;
    if message.sender == peer && message.receiver == me {
        Ok(message)
    } else {
        Err(Refusal::Malformed)
    }
}

impl LineEnds {
    // Keeps what a step sends, and puts it behind what goes out; or nothing changes.
    pub fn send(
        &mut self,
        me: NodeId,
        post: Option<Mail>,
        work: Work,
        out: &mut Vec<Packet>,
    ) -> Result<(), Full>
        ensures done { is_ok result ≡ can_send post self.old out.old }
        ensures ends { ends_of self.new ≡ (if is_ok result then kept_for post work (ends_of self.old) else ends_of self.old) }
        ensures out { out.new.items ≡ (if is_ok result then out.old.items ++ out_for me post work (ends_of self.old) else out.old.items) }
    {
        let Some(mail) = post else {
            return Ok(());
        };
        if out.len() >= out.capacity() {
            return Err(Full);
        }
        let parcel = Parcel::new(mail, work);
        let number = SequenceNumber {
            number: self.last_sent(mail.receiver).number + 1,
        };
        self.keep(mail.receiver, mail, work)?;
        out.push_reserved(Packet {
            sender: me,
            receiver: mail.receiver,
            frame: numbered(&parcel, number),
        });
        Ok(())
    }

    // The answer to a peer for all that was taken from it.
    pub fn answer(&self, me: NodeId, peer: NodeId) -> Packet
        ensures { result ≡ answer_of me peer (end_at (ends_of self.now) (slot peer.number)).taken }
    {
        answer_for(me, peer, self.taken(peer))
    }

    // What would be heard of bytes from a peer.
    pub fn listen(&self, me: NodeId, peer: NodeId, bytes: &[u8]) -> Result<Heard, Refusal>
        ensures { result ≡ (hears me peer (ends_of self.now) bytes.now).heard }
    {
        let message = own_message(me, peer, bytes)?;
        match message.body {
            Body::Numbered(kind) => Ok(self.hear_numbered(me, peer, message, kind)),
            Body::Taken => if message.number <= self.last_sent(peer) {
                Ok(Heard::Released)
            } else {
                Err(Refusal::NotSent)
            },
        }
    }

    // A peer's message with a number has come.
    fn hear_numbered(&self, me: NodeId, peer: NodeId, message: Message<'_>, kind: Kind) -> Heard
        ensures { result ≡ by_standing (mail_of me peer (view message.entry) kind) message.entry.number.number (standing (end_at (ends_of self.now) (slot peer.number)) message.entry.number.number) }
    {
        match self.standing(peer, message.number) {
            Standing::Old => Heard::Old,
            Standing::Next => Heard::Next {
                mail: Mail {
                    sender: peer,
                    receiver: me,
                    letter: message.letter,
                    kind,
                },
                number: message.number,
            },
            Standing::Ahead => Heard::Ahead,
        }
    }

    // Bytes have come from a peer, whatever they are.
    pub fn hear(&mut self, me: NodeId, peer: NodeId, bytes: &[u8]) -> Result<Heard, Refusal>
        ensures { hears me peer (ends_of self.old) bytes.now ≡ record { ends = ends_of self.new; heard = result } }
    {
        let message = own_message(me, peer, bytes)?;
        match message.body {
            Body::Numbered(kind) => Ok(self.hear_numbered(me, peer, message, kind)),
            Body::Taken => {
                self.release(peer, message.number)?;
                Ok(Heard::Released)
            }
        }
    }
}
