// What can be played, and what is replied.
use coins::answer::Answer;
use coins::ids::{LetterId, NodeId};
use nodes::receipt::Receipt;

// A packet on its way: the one with so many others of its line before it.
#[derive(Clone, Copy, Debug, PartialEq, Eq)]
pub struct Pick {
    pub sender: NodeId,
    pub receiver: NodeId,
    pub before: usize,
}

// The first four stand among the stage's commands too. One enum of them inside both would be no plainer: each match
// goes over all, and gives each its own meaning.
#[derive(Clone, Copy, Debug, PartialEq, Eq)]
pub enum Command {
    // the boss gives work of a letter to a helper
    Give {
        letter: LetterId,
        to: NodeId,
    },
    // a helper gives work on to another
    Share {
        by: NodeId,
        letter: LetterId,
        to: NodeId,
    },
    // a helper has finished
    Rest {
        by: NodeId,
        letter: LetterId,
    },
    // the boss says done
    Say {
        letter: LetterId,
    },
    // time passes for a node: it sends again what waits for an answer
    Tick {
        by: NodeId,
    },
    // a packet on its way comes
    Pass(Pick),
    // it is lost
    Lose(Pick),
    // it is doubled
    Twice(Pick),
    // all other packets overtake it
    Late(Pick),
    // what a line keeps comes through: the next message is sent again and comes, or where all were taken the answer
    Come {
        sender: NodeId,
        receiver: NodeId,
    },
}

#[derive(Clone, Copy, Debug, PartialEq, Eq)]
pub enum Response {
    // to a call
    Answered(Answer),
    // to a packet that came
    Came(Receipt),
}
