// Boss, helpers and messages, and what each command does.
ghost use Rattle.std.specs.Prelude.{◌≡◌, ◌<◌, IfOk, OnErr, vec_len, vec_capacity};
ghost use Rattle.stage.specs.Scenes.{opening, sent_on};
ghost use Rattle.stage.specs.Plays.{taken, to_helper, to_boss, play_give, play_share, play_rest, play_say, play_flush, play_pass, plays, Sends, Outcome, next};
ghost use Rattle.stage.specs.Tables.{scene};

use crate::command::Command;
use crate::lines::{first_holder, first_to_helper, head, room};
use boss_coins::boss::Boss;
use coins::answer::{Answer, Refusal};
use coins::ids::{LetterId, NodeId};
use coins::mail::{Mail, Taking, Untaken};
use coins::parcel::Parcel;
use coins::work::Work;
use helper_coins::helper::Helper;
use std::alloc::{AllocError, Global};

// Seen as a scene by `scene`, and by no Model: that would hide the memory that is ready for a message.
#[derive(Drop)]
pub(crate) struct Table {
    pub(crate) boss: Boss,
    pub(crate) helpers: Vec<Helper>,
    pub(crate) post: Vec<Parcel>,
}

impl Table {
    pub(crate) fn new(heap: Global, n: u16) -> Result<Table, AllocError>
        ensures { IfOk result (λ t. scene t ≡ opening n) }
    {
        let mut helpers = Vec::new(heap);
        for i in 0..n {
            helpers.push(Helper::new(NodeId { number: i }))?;
        }
        Ok(Table {
            boss: Boss::new(),
            helpers,
            post: Vec::new(heap),
        })
    }

    // Puts what a step sends behind the others, with the bytes of its work. There is memory for it.
    fn send(&mut self, post: Option<Mail>, work: Work)
        requires { vec_len self.old.post < vec_capacity self.old.post }
        ensures { scene self.new ≡ record { boss = self.old.boss; helpers = self.old.helpers.items; parcels = sent_on post work self.old.post.items } }
    {
        if let Some(mail) = post {
            self.post.push_reserved(Parcel::new(mail, work));
        }
    }

    fn give(&mut self, letter: LetterId, to: NodeId, work: Work) -> Result<Answer, AllocError>
        ensures { Outcome (play_give (scene self.old) letter to work) (scene self.old) (scene self.new) result }
    {
        if to.number as usize >= self.helpers.len() {
            return Ok(Answer::Refused(Refusal::Malformed));
        }
        let places = room(&self.post, NodeId::boss(), to);
        self.post.reserve(1)?;
        let done = self.boss.give(letter, to, places);
        self.send(done.post, work);
        Ok(done.answer)
    }

    fn say(&mut self, letter: LetterId) -> Answer
        ensures { play_say (scene self.old) letter ≡ record { scene = scene self.new; answer = result } }
    {
        self.boss.say(letter)
    }

    fn share(
        &mut self,
        by: NodeId,
        letter: LetterId,
        to: NodeId,
        work: Work,
    ) -> Result<Answer, AllocError>
        ensures { Outcome (play_share (scene self.old) by letter to work) (scene self.old) (scene self.new) result }
    {
        let i = by.number as usize;
        if i >= self.helpers.len() || to.number as usize >= self.helpers.len() {
            return Ok(Answer::Refused(Refusal::Malformed));
        }
        let peer = room(&self.post, by, to);
        let boss = room(&self.post, by, NodeId::boss());
        self.post.reserve(1)?;
        let done = self.helpers[i].share(letter, to, peer, boss);
        self.send(done.post, work);
        Ok(done.answer)
    }

    fn rest(&mut self, by: NodeId, letter: LetterId) -> Result<Answer, AllocError>
        ensures { Outcome (play_rest (scene self.old) by letter) (scene self.old) (scene self.new) result }
    {
        let i = by.number as usize;
        if i >= self.helpers.len() {
            return Ok(Answer::Refused(Refusal::Malformed));
        }
        let boss = room(&self.post, by, NodeId::boss());
        self.post.reserve(1)?;
        let done = self.helpers[i].rest(letter, boss);
        self.send(done.post, Work::empty());
        Ok(done.answer)
    }

    fn flush(&mut self, by: NodeId) -> Result<Answer, AllocError>
        ensures { Outcome (play_flush (scene self.old) by) (scene self.old) (scene self.new) result }
    {
        let i = by.number as usize;
        if i >= self.helpers.len() {
            return Ok(Answer::Refused(Refusal::Malformed));
        }
        let boss = room(&self.post, by, NodeId::boss());
        self.post.reserve(1)?;
        let post = self.helpers[i].flush(boss);
        self.send(post, Work::empty());
        Ok(Answer::Fine)
    }

    // What came is gone from its line if it was taken, and what is sent for it goes behind the others.
    fn settle(&mut self, k: usize, taking: Taking) -> Answer
        requires { k < vec_len self.old.post }
        ensures { taken (scene self.old) k taking ≡ record { scene = scene self.new; answer = result } }
    {
        match taking {
            Ok(post) => {
                let _ = self.post.remove(k);
                self.send(post, Work::empty());
                Answer::Fine
            }
            Err(Untaken::Later) => Answer::Refused(Refusal::NoPlace),
            Err(Untaken::Refused(why)) => Answer::Refused(why),
        }
    }

    // The k-th message comes to a helper.
    fn to_helper(&mut self, k: usize, mail: Mail) -> Answer
        requires message { k < vec_len self.old.post }
        requires helper { mail.receiver.number < vec_len self.old.helpers }
        ensures { to_helper (scene self.old) k mail.receiver mail ≡ record { scene = scene self.new; answer = result } }
    {
        let boss = room(&self.post, mail.receiver, NodeId::boss());
        let taking = self.helpers[mail.receiver.number as usize].arrive(mail, boss);
        self.settle(k, taking)
    }

    // The k-th message comes to the boss.
    fn to_boss(&mut self, k: usize, mail: Mail) -> Answer
        requires { k < vec_len self.old.post }
        ensures { to_boss (scene self.old) k mail.sender mail.receiver mail ≡ record { scene = scene self.new; answer = result } }
    {
        let places = room(&self.post, mail.receiver, mail.sender);
        let taking = self.boss.arrive(mail, places);
        self.settle(k, taking)
    }

    // The next message on a line comes.
    fn pass(&mut self, sender: NodeId, receiver: NodeId) -> Answer
        ensures { play_pass (scene self.old) sender receiver ≡ record { scene = scene self.new; answer = result } }
    {
        let Some(k) = head(&self.post, sender, receiver) else {
            return Answer::Refused(Refusal::Malformed);
        };
        let mail = self.post[k].mail;
        if (mail.receiver.number as usize) < self.helpers.len() {
            self.to_helper(k, mail)
        } else {
            self.to_boss(k, mail)
        }
    }

    pub(crate) fn play(&mut self, command: Command, work: Work) -> Result<Answer, AllocError>
        ensures does { Outcome (plays (scene self.old) command work) (scene self.old) (scene self.new) result }
        ensures memory { OnErr result (Sends command) }
    {
        match command {
            Command::Give { letter, to } => self.give(letter, to, work),
            Command::Share { by, letter, to } => self.share(by, letter, to, work),
            Command::Rest { by, letter } => self.rest(by, letter),
            Command::Say { letter } => Ok(self.say(letter)),
            Command::Pass { sender, receiver } => Ok(self.pass(sender, receiver)),
            Command::Flush { by } => self.flush(by),
        }
    }

    // What comes to pass by itself: a message for a helper; else one for the boss; else coins that waited go.
    pub(crate) fn next(&self) -> Option<Command>
        ensures { result ≡ next (scene self.now) }
    {
        if let Some(k) = first_to_helper(&self.post, self.helpers.len()) {
            return Some(Command::passing(self.post[k].mail));
        }
        if let Some(parcel) = self.post.first() {
            return Some(Command::passing(parcel.mail));
        }
        let i = first_holder(&self.helpers)?;
        Some(Command::Flush {
            by: self.helpers[i].id(),
        })
    }
}
