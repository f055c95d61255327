// Counts near their limit, over a table.
use crate::boss::Boss;
use coins::answer::Answer;
use coins::ids::{LetterId, NodeId};
use coins::mail::{Kind, Mail, Taking};

// What was given before; the number that a give is refused with, or 0; and the coins that an ask gets.
const GIVEN: [(u64, u8, u64); 5] = [
    (0, 0, 1 << 20),
    ((1 << 62) - (1 << 20) - 1, 0, 1 << 20),
    ((1 << 62) - (1 << 20), 6, 0),
    ((1 << 62) - 1, 6, 0),
    ((1 << 62) - (1 << 21), 0, 1 << 20),
];

fn number_of(answer: Answer) -> u8 {
    match answer {
        Answer::Refused(why) => why.number(),
        Answer::Fine | Answer::Done => 0,
    }
}

fn coins_of(taking: Taking) -> u64 {
    match taking {
        Ok(Some(mail)) => mail.kind.coins(),
        Ok(None) | Err(_) => 0,
    }
}

#[test]
fn a_boss_stays_below_its_limit(rt: HostRuntime) {
    let letter = LetterId { number: 1 };
    let helper = NodeId { number: 0 };
    for (given, refused, more) in GIVEN {
        let mut boss = Boss::given_before(letter, given);
        assert_eq!(rt; number_of(boss.give(letter, helper, 1).answer), refused);
        let mut boss = Boss::given_before(letter, given);
        let ask = Mail {
            sender: helper,
            receiver: NodeId::boss(),
            letter,
            kind: Kind::Ask,
        };
        assert_eq!(rt; coins_of(boss.arrive(ask, 1)), more);
    }
}
