// What each command does.
ghost use Rattle.std.specs.Prelude.{◌≡◌, ◌<◌, ◌≤◌, true, IfOk, vec_len};
ghost use Rattle.scenes.specs.Scenes.{opening};
ghost use Rattle.scenes.specs.Plays.{is_there, play_give, play_say, play_share, play_rest, play_tick, bytes_come};
ghost use Rattle.lossy_stage.specs.Outcomes.{Outcome};
ghost use Rattle.lossy_stage.specs.Tables.{scene};

use crate::table::Table;
use coins::answer::{Answer, Refusal};
use coins::ids::{LetterId, NodeId};
use coins::work::Work;
use nodes::boss::BossNode;
use nodes::helper::HelperNode;
use scenes::command::Response;
use std::alloc::{AllocError, Global};

pub(crate) fn refused(why: Refusal) -> Response
    ensures { result ≡ Response.Answered (Answer.Refused why) }
{
    Response::Answered(Answer::Refused(why))
}

impl Table {
    #[tactic(auto, using(crate::proofs::Told::staff_more), unfolding(crate::specs::Tables::helpers_in, scenes::specs::Scenes::staff))]
    pub(crate) fn new(heap: Global, n: u16) -> Result<Table, AllocError>
        requires { n ≤ 256 }
        ensures { IfOk result (λ t. scene t ≡ opening n) }
    {
        let mut helpers = Vec::new(heap);
        for i in 0..n {
            let helper = HelperNode::new(heap, NodeId { number: i })?;
            helpers.push(helper)?;
        }
        Ok(Table {
            boss: BossNode::new(heap)?,
            helpers,
            net: Vec::new(heap),
        })
    }

    // Whether there is such a helper.
    #[tactic(auto, using(crate::proofs::Told::long))]
    pub(crate) fn is_there(&self, helper: NodeId) -> bool
        ensures value { result ≡ is_there (scene self.now) helper }
        ensures inside { result ≡ true → helper.number < vec_len self.now.helpers }
    {
        (helper.number as usize) < self.helpers.len()
    }

    pub(crate) fn give(
        &mut self,
        letter: LetterId,
        to: NodeId,
        work: Work,
    ) -> Result<Response, AllocError>
        ensures { Outcome (play_give (scene self.old) letter to work) (scene self.old) (scene self.new) result }
    {
        if !self.is_there(to) {
            return Ok(refused(Refusal::Malformed));
        }
        self.boss
            .give(letter, to, work, &mut self.net)
            .map(Response::Answered)
    }

    pub(crate) fn say(&mut self, letter: LetterId) -> Response
        ensures { play_say (scene self.old) letter ≡ record { scene = scene self.new; response = result } }
    {
        Response::Answered(self.boss.say(letter))
    }

    pub(crate) fn share(
        &mut self,
        by: NodeId,
        letter: LetterId,
        to: NodeId,
        work: Work,
    ) -> Result<Response, AllocError>
        ensures { Outcome (play_share (scene self.old) by letter to work) (scene self.old) (scene self.new) result }
    {
        if !self.is_there(by) || !self.is_there(to) {
            return Ok(refused(Refusal::Malformed));
        }
        let i = by.number as usize;
        self.helpers[i]
            .share(letter, to, work, &mut self.net)
            .map(Response::Answered)
    }

    pub(crate) fn rest(&mut self, by: NodeId, letter: LetterId) -> Result<Response, AllocError>
        ensures { Outcome (play_rest (scene self.old) by letter) (scene self.old) (scene self.new) result }
    {
        if !self.is_there(by) {
            return Ok(refused(Refusal::Malformed));
        }
        let i = by.number as usize;
        self.helpers[i]
            .rest(letter, &mut self.net)
            .map(Response::Answered)
    }

    // Time passes for a node.
    pub(crate) fn tick(&mut self, by: NodeId) -> Result<Response, AllocError>
        ensures { Outcome (play_tick (scene self.old) by) (scene self.old) (scene self.new) result }
    {
        if self.is_there(by) {
            let i = by.number as usize;
            return self.helpers[i].tick(&mut self.net).map(Response::Answered);
        }
        if by.is_boss() {
            return self.boss.tick(&mut self.net).map(Response::Answered);
        }
        Ok(refused(Refusal::Malformed))
    }

    // Bytes come to a node from a peer.
    pub(crate) fn bytes_come(
        &mut self,
        peer: NodeId,
        to: NodeId,
        bytes: &[u8],
    ) -> Result<Response, AllocError>
        ensures { Outcome (bytes_come (scene self.old) peer to bytes.now) (scene self.old) (scene self.new) result }
    {
        if self.is_there(to) {
            let i = to.number as usize;
            return self.helpers[i]
                .receive(peer, bytes, &mut self.net)
                .map(Response::Came);
        }
        if to.is_boss() {
            return self
                .boss
                .receive(peer, bytes, &mut self.net)
                .map(Response::Came);
        }
        Ok(refused(Refusal::Malformed))
    }
}
