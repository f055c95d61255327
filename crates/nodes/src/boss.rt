// The boss with its lines.
ghost use Rattle.std.specs.Prelude.{◌≡◌, [], IfOk};
ghost use Rattle.nodes.specs.Arrivals.{Happens};
ghost use Rattle.nodes.specs.BossSteps.{new_boss_node, give_node, say_node, boss_ticks};
ghost use Rattle.nodes.specs.Viewed.{node_of};

use crate::member::Member;
use crate::node::Node;
use boss_coins::boss::Boss;
use coins::answer::Answer;
use coins::ids::{LetterId, NodeId};
use coins::mail::{Mail, Taking};
use coins::work::Work;
use lines::packet::Packet;
use std::alloc::{AllocError, Global};

impl Member for Boss {
    ghost use Rattle.nodes.specs.BossSteps.{boss_protocol};

    ghost protocol = { boss_protocol };

    fn id(&self) -> NodeId {
        NodeId::boss()
    }

    fn replies_to(&self, peer: NodeId) -> NodeId {
        peer
    }

    fn arrive(&mut self, mail: Mail, room: usize) -> Taking {
        Boss::arrive(self, mail, room)
    }
}

pub type BossNode = Node<Boss>;

impl Node<Boss> {
    pub fn new(heap: Global) -> Result<Node<Boss>, AllocError>
        ensures { IfOk result (λ n. node_of n ≡ new_boss_node) }
    {
        Node::with(heap, Boss::new())
    }

    // The boss's coins of all letters.
    pub fn boss(&self) -> &Boss
        ensures { result.now ≡ (node_of self.now).state }
    {
        &self.member
    }

    // Gives work of a letter to a helper; what is sent goes behind `out`.
    pub fn give(
        &mut self,
        letter: LetterId,
        to: NodeId,
        work: Work,
        out: &mut Vec<Packet>,
    ) -> Result<Answer, AllocError>
        ensures { Happens (λ n sent. give_node n sent letter to work) (node_of self.old) out.old.items (node_of self.new) out.new.items result }
    {
        self.ends.reserve(to)?;
        out.reserve(1)?;
        let done = self.member.give(letter, to, self.ends.room(to));
        self.send(NodeId::boss(), done.post, work, out);
        Ok(done.answer)
    }

    // Says that a letter is done, if all its coins came back.
    pub fn say(&mut self, letter: LetterId) -> Answer
        ensures { say_node (node_of self.old) [] letter ≡ record { node = node_of self.new; out = []; reply = result } }
    {
        self.member.say(letter)
    }

    // A tick: all that waits for an answer is sent again, behind `out`.
    pub fn tick(&mut self, out: &mut Vec<Packet>) -> Result<Answer, AllocError>
        ensures { Happens boss_ticks (node_of self.old) out.old.items (node_of self.new) out.new.items result }
    {
        self.resend(out)?;
        Ok(Answer::Fine)
    }
}
