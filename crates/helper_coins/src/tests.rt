// Coins near their limit, over a table.
use crate::helper::Helper;
use coins::ids::{LetterId, NodeId};
use coins::mail::{Kind, Mail, Taking, Untaken};

// What a helper has, and what comes with work; the number that it is refused with, or 0.
const HELD: [(u64, u64, u8); 5] = [
    ((1 << 62) - 2, 1, 0),
    ((1 << 62) - 2, 2, 1),
    (1, (1 << 62) - 2, 0),
    (1, (1 << 62) - 1, 1),
    (1, 0, 1),
];

fn turned(taking: Taking) -> u8 {
    match taking {
        Err(Untaken::Refused(why)) => why.number(),
        Ok(_) | Err(Untaken::Later) => 0,
    }
}

// Work that comes from the boss.
fn work(letter: LetterId, coins: u64) -> Mail {
    Mail {
        sender: NodeId::boss(),
        receiver: NodeId { number: 0 },
        letter,
        kind: Kind::Work(coins),
    }
}

#[test]
fn a_helper_stays_below_its_limit(rt: HostRuntime) {
    let letter = LetterId { number: 1 };
    for (held, come, refused) in HELD {
        let mut helper = Helper::new(NodeId { number: 0 });
        assert_eq!(rt; turned(helper.arrive(work(letter, held), 1)), 0);
        assert_eq!(rt; turned(helper.arrive(work(letter, come), 1)), refused);
    }
}
