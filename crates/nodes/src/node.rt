// One that takes part in the protocol above, with its ends of the lines: what is the same for boss and helper.
ghost use Rattle.std.specs.Prelude.{◌≡◌, ◌+◌, ◌≤◌, true, ◌++◌, vec_len, vec_capacity, replicate, IfOk, MatchResult};
ghost use Rattle.lines.specs.Ends.{fresh_end};
ghost use Rattle.lines.specs.Packets.{kept_for, out_for};
ghost use Rattle.lines.specs.Viewed.{ends_of, can_send};
ghost use Rattle.nodes.specs.Arrivals.{Happens, takes, receives, resends};
ghost use Rattle.nodes.specs.Viewed.{node_of};

use crate::member::Member;
use crate::receipt::Receipt;
use coins::ids::NodeId;
use coins::mail::{Mail, Untaken};
use coins::work::Work;
use lines::ends::LineEnds;
use lines::heard::Heard;
use lines::packet::Packet;
use lines::post::answer_for;
use std::alloc::{AllocError, Global};
use wire::message::SequenceNumber;

// It has no model: `ends` promises the ends themselves with their spare memory, and a model as `node_of` would hide it.
#[derive(Drop)]
pub struct Node<M> {
    pub(crate) member: M,
    pub(crate) ends: LineEnds,
}

impl<M: Member> Node<M> {
    // With new ends.
    pub(crate) fn with(heap: Global, member: M) -> Result<Node<M>, AllocError>
        ensures { IfOk result (λ n. node_of n ≡ record { state = member; ends = replicate 257 fresh_end }) }
    {
        let ends = LineEnds::new(heap)?;
        Ok(Node { member, ends })
    }

    // Its ends of the lines.
    pub fn ends(&self) -> &LineEnds
        ensures { result.now ≡ self.now.ends }
    {
        &self.ends
    }

    // What a step sends is kept, and goes out. There are a place and memory for it.
    pub(crate) fn send(&mut self, me: NodeId, post: Option<Mail>, work: Work, out: &mut Vec<Packet>)
        requires { can_send post self.old.ends out.old ≡ true }
        ensures node { node_of self.new ≡ record { state = self.old.member; ends = kept_for post work (ends_of self.old.ends) } }
        ensures out { out.new.items ≡ out.old.items ++ out_for me post work (ends_of self.old.ends) }
    {
        let _ = self.ends.send(me, post, work, out);
    }

    // The next message of a line comes.
    fn take(
        &mut self,
        mail: Mail,
        number: SequenceNumber,
        out: &mut Vec<Packet>,
    ) -> Result<Receipt, AllocError>
        requires memory { vec_len out.old + 2 ≤ vec_capacity out.old }
        ensures { Happens (λ n sent. takes M.protocol n sent mail number.number) (node_of self.old) out.old.items (node_of self.new) out.new.items result }
    {
        let to = self.member.replies_to(mail.sender);
        self.ends.reserve(to)?;
        let me = self.member.id();
        match self.member.arrive(mail, self.ends.room(to)) {
            Ok(post) => {
                self.ends.take(mail.sender, number);
                out.push_reserved(answer_for(me, mail.sender, number));
                self.send(me, post, Work::empty(), out);
                Ok(Receipt::Took)
            }
            Err(Untaken::Later) => Ok(Receipt::Later),
            Err(Untaken::Refused(why)) => Ok(Receipt::Refused(why)),
        }
    }

    // Bytes come from a peer, whatever they are; what is sent goes behind `out`.
    pub fn receive(
        &mut self,
        peer: NodeId,
        bytes: &[u8],
        out: &mut Vec<Packet>,
    ) -> Result<Receipt, AllocError>
        ensures { Happens (λ n sent. receives M.protocol n sent peer bytes.now) (node_of self.old) out.old.items (node_of self.new) out.new.items result }
    {
        out.reserve(2)?;
        let me = self.member.id();
        match self.ends.hear(me, peer, bytes) {
            Ok(Heard::Next { mail, number }) => self.take(mail, number, out),
            Ok(Heard::Old) => {
                out.push_reserved(self.ends.answer(me, peer));
                Ok(Receipt::Old)
            }
            Ok(Heard::Ahead) => Ok(Receipt::Ahead),
            Ok(Heard::Released) => Ok(Receipt::Released),
            Err(why) => Ok(Receipt::Refused(why)),
        }
    }

    // All that waits for an answer is sent again, behind `out`.
    pub(crate) fn resend(&self, out: &mut Vec<Packet>) -> Result<(), AllocError>
        ensures { MatchResult result (λ _. out.new.items ≡ resends M.protocol (node_of self.now) out.old.items) (λ _. out.new.items ≡ out.old.items) }
    {
        let before = out.len();
        let resent = self.ends.resend(self.member.id(), out);
        if resent.is_err() {
            out.truncate(before);
        }
        resent
    }
}
