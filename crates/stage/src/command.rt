// What can be played on a stage.
ghost use Rattle.std.specs.Prelude.{◌≡◌};

use coins::ids::{LetterId, NodeId};
use coins::mail::Mail;

#[derive(Clone, Copy, Debug, PartialEq, Eq)]
pub enum Command {
    // the boss gives work of a letter to a helper
    Give {
        letter: LetterId,
        to: NodeId,
    },
    // a helper gives work on to another
    Share {
        by: NodeId,
        letter: LetterId,
        to: NodeId,
    },
    // a helper has finished
    Rest {
        by: NodeId,
        letter: LetterId,
    },
    // the boss says done
    Say {
        letter: LetterId,
    },
    // the next message on a line comes
    Pass {
        sender: NodeId,
        receiver: NodeId,
    },
    // a helper sends coins that waited for a place
    Flush {
        by: NodeId,
    },
}

impl Command {
    // The next message on the line of this one comes.
    pub(crate) fn passing(mail: Mail) -> Command
        ensures { result ≡ Command.Pass mail.sender mail.receiver }
    {
        Command::Pass {
            sender: mail.sender,
            receiver: mail.receiver,
        }
    }
}
