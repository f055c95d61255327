// A helper with its lines.
ghost use Rattle.std.specs.Prelude.{◌≡◌, IfOk};
ghost use Rattle.nodes.specs.Arrivals.{Happens};
ghost use Rattle.nodes.specs.HelperSteps.{new_helper_node, share_node, rest_node, flush_node, helper_ticks};
ghost use Rattle.nodes.specs.Viewed.{node_of};

use crate::member::Member;
use crate::node::Node;
use coins::answer::Answer;
use coins::ids::{LetterId, NodeId};
use coins::mail::{Mail, Taking};
use coins::work::Work;
use helper_coins::helper::Helper;
use lines::packet::Packet;
use std::alloc::{AllocError, Global};

impl Member for Helper {
    ghost use Rattle.nodes.specs.HelperSteps.{helper_protocol};

    ghost protocol = { helper_protocol };

    fn id(&self) -> NodeId {
        Helper::id(self)
    }

    fn replies_to(&self, _peer: NodeId) -> NodeId {
        NodeId::boss()
    }

    fn arrive(&mut self, mail: Mail, room: usize) -> Taking {
        Helper::arrive(self, mail, room)
    }
}

pub type HelperNode = Node<Helper>;

impl Node<Helper> {
    pub fn new(heap: Global, me: NodeId) -> Result<Node<Helper>, AllocError>
        ensures { IfOk result (λ n. node_of n ≡ new_helper_node me) }
    {
        Node::with(heap, Helper::new(me))
    }

    // The helper's coins of all letters.
    pub fn helper(&self) -> &Helper
        ensures { result.now ≡ (node_of self.now).state }
    {
        &self.member
    }

    // Gives work of a letter on to a helper; what is sent goes behind `out`.
    pub fn share(
        &mut self,
        letter: LetterId,
        to: NodeId,
        work: Work,
        out: &mut Vec<Packet>,
    ) -> Result<Answer, AllocError>
        ensures { Happens (λ n sent. share_node n sent letter to work) (node_of self.old) out.old.items (node_of self.new) out.new.items result }
    {
        self.ends.reserve(to)?;
        self.ends.reserve(NodeId::boss())?;
        out.reserve(1)?;
        let peer = self.ends.room(to);
        let boss = self.ends.room(NodeId::boss());
        let me = self.member.id();
        let done = self.member.share(letter, to, peer, boss);
        self.send(me, done.post, work, out);
        Ok(done.answer)
    }

    // It has finished a letter: all its coins of it go back.
    pub fn rest(&mut self, letter: LetterId, out: &mut Vec<Packet>) -> Result<Answer, AllocError>
        ensures { Happens (λ n sent. rest_node n sent letter) (node_of self.old) out.old.items (node_of self.new) out.new.items result }
    {
        self.ends.reserve(NodeId::boss())?;
        out.reserve(1)?;
        let boss = self.ends.room(NodeId::boss());
        let me = self.member.id();
        let done = self.member.rest(letter, boss);
        self.send(me, done.post, Work::empty(), out);
        Ok(done.answer)
    }

    // Coins that waited for a place are sent, of one letter, if there is one.
    fn flush(&mut self, out: &mut Vec<Packet>) -> Result<Answer, AllocError>
        ensures { Happens flush_node (node_of self.old) out.old.items (node_of self.new) out.new.items result }
    {
        self.ends.reserve(NodeId::boss())?;
        out.reserve(1)?;
        let boss = self.ends.room(NodeId::boss());
        let me = self.member.id();
        let post = self.member.flush(boss);
        self.send(me, post, Work::empty(), out);
        Ok(Answer::Fine)
    }

    // A tick: all that waits for an answer is sent again, behind `out`; then coins that waited for a place are sent.
    pub fn tick(&mut self, out: &mut Vec<Packet>) -> Result<Answer, AllocError>
        ensures { Happens helper_ticks (node_of self.old) out.old.items (node_of self.new) out.new.items result }
    {
        let before = out.len();
        self.resend(out)?;
        let flushed = self.flush(out);
        if flushed.is_err() {
            out.truncate(before);
        }
        flushed
    }
}
