// A boss and two helpers work on a letter: each call succeeds where there is memory.
use crate::boss::BossNode;
use crate::helper::HelperNode;
use crate::receipt::Receipt;
use coins::answer::{Answer, Refusal};
use coins::ids::{LetterId, NodeId};
use coins::work::Work;
use lines::packet::Packet;
use std::alloc::{AllocError, Global};
use std::test::Fail;

const LETTER: LetterId = LetterId { number: 1 };

const FIRST: NodeId = NodeId { number: 0 };

const SECOND: NodeId = NodeId { number: 1 };

#[derive(Clone, Copy)]
enum Call {
    Give,
    Say,
    Share,
    RestOfFirst,
    RestOfSecond,
    TickOfBoss,
    TickOfSecond,
}

// Each call in its turn; whether what it sends is lost; its answer; and what becomes of the packets that come.
const CALLS: [(Call, bool, Answer, &[Receipt]); 9] = [
    (Call::Give, true, Answer::Fine, &[]),
    (
        Call::TickOfBoss,
        false,
        Answer::Fine,
        &[Receipt::Took, Receipt::Released],
    ),
    (Call::Say, false, Answer::Refused(Refusal::CoinsOut), &[]),
    (
        Call::Share,
        false,
        Answer::Fine,
        &[Receipt::Took, Receipt::Released],
    ),
    (
        Call::RestOfFirst,
        false,
        Answer::Fine,
        &[Receipt::Took, Receipt::Released],
    ),
    (Call::RestOfSecond, true, Answer::Fine, &[]),
    (
        Call::TickOfSecond,
        false,
        Answer::Fine,
        &[Receipt::Took, Receipt::Released],
    ),
    (Call::TickOfBoss, false, Answer::Fine, &[]),
    (Call::Say, false, Answer::Done, &[]),
];

#[derive(Drop)]
struct Table {
    boss: BossNode,
    first: HelperNode,
    second: HelperNode,
    net: Vec<Packet>,
}

impl Table {
    fn new(heap: Global) -> Result<Table, AllocError> {
        Ok(Table {
            boss: BossNode::new(heap)?,
            first: HelperNode::new(heap, FIRST)?,
            second: HelperNode::new(heap, SECOND)?,
            net: Vec::new(heap),
        })
    }

    fn call(&mut self, call: Call) -> Result<Answer, AllocError> {
        let net = &mut self.net;
        match call {
            Call::Give => self.boss.give(LETTER, FIRST, Work::empty(), net),
            Call::Say => Ok(self.boss.say(LETTER)),
            Call::Share => self.first.share(LETTER, SECOND, Work::empty(), net),
            Call::RestOfFirst => self.first.rest(LETTER, net),
            Call::RestOfSecond => self.second.rest(LETTER, net),
            Call::TickOfBoss => self.boss.tick(net),
            Call::TickOfSecond => self.second.tick(net),
        }
    }

    // The next packet comes, if there is one.
    fn pass(&mut self) -> Result<Option<Receipt>, AllocError> {
        if self.net.is_empty() {
            return Ok(None);
        }
        let packet = self.net.remove(0);
        let net = &mut self.net;
        let bytes = packet.frame.as_slice();
        let receipt = if packet.receiver == FIRST {
            self.first.receive(packet.sender, bytes, net)?
        } else if packet.receiver == SECOND {
            self.second.receive(packet.sender, bytes, net)?
        } else {
            self.boss.receive(packet.sender, bytes, net)?
        };
        Ok(Some(receipt))
    }
}

#[test]
fn a_letter_is_done(rt: HostRuntime) -> Result<(), Fail> {
    let mut table = Table::new(rt.alloc())?;
    for (call, lost, answer, receipts) in CALLS {
        assert_eq!(rt; table.call(call)?, answer);
        if lost {
            table.net.clear();
        }
        for receipt in receipts {
            assert_eq!(rt; table.pass()?, Some(*receipt));
        }
        assert!(rt; table.net.is_empty());
    }
    Ok(())
}
