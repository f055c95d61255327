// The protocol above the lines, as far as they need to know of it.
ghost use Rattle.std.specs.Prelude.{◌≡◌, IfOk};
ghost use Rattle.nodes.specs.Arrivals.{Protocol, HasPlace};

use coins::ids::NodeId;
use coins::mail::{Mail, Taking};

// One that takes part in the protocol: the boss, or a helper.
pub trait Member: Drop {
    ghost protocol: { Protocol Self };

    // Its number.
    fn id(&self) -> NodeId
        ensures { result ≡ protocol.id self.now };

    // To whom it sends, if at all, when a message of a peer comes.
    fn replies_to(&self, peer: NodeId) -> NodeId
        ensures { result ≡ protocol.replies_to self.now peer };

    // A message has come, with so many places towards that one; what is sent for it has one of them.
    fn arrive(&mut self, mail: Mail, room: usize) -> Taking
        ensures does { protocol.makes self.old mail room ≡ record { state = self.new; taking = result } }
        ensures fits { IfOk result (HasPlace (protocol.replies_to self.old mail.sender) room) };
}
