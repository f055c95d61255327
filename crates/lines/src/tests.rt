// That messages are kept, and go out again, where there is memory.
use crate::ends::LineEnds;
use coins::ids::{LetterId, NodeId};
use coins::mail::{Kind, Mail};
use coins::work::Work;
use std::alloc::AllocError;

// To whom so many messages are sent, and how many of them there is a place for.
const SENT: [(u16, usize, usize); 3] = [(0, 1, 1), (255, 3, 3), (65535, 1025, 1024)];

#[test]
fn what_is_sent_is_kept(rt: HostRuntime) -> Result<(), AllocError> {
    let me = NodeId { number: 7 };
    for (receiver, messages, kept) in SENT {
        let mail = Mail {
            sender: me,
            receiver: NodeId { number: receiver },
            letter: LetterId { number: 1 },
            kind: Kind::Ask,
        };
        let mut ends = LineEnds::new(rt.alloc())?;
        let mut sent = Vec::new(rt.alloc());
        for _ in 0..messages {
            ends.reserve(mail.receiver)?;
            sent.reserve(1)?;
            let _ = ends.send(me, Some(mail), Work::empty(), &mut sent);
        }
        assert_eq!(rt; sent.len(), kept, "sent to {receiver}");
        let mut again = Vec::new(rt.alloc());
        ends.resend(me, &mut again)?;
        assert_eq!(rt; again.len(), kept, "sent again to {receiver}");
    }
    Ok(())
}
