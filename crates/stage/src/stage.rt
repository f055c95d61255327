// The stage: a boss, helpers and messages whose world is one that is reached from the start.
ghost use Rattle.std.specs.Prelude.{◌≡◌, ◌<◌, ◌≤◌, length, IfOk, OnOk, OnErr, None, Ok, Err, ◌≢◌};
ghost use Rattle.helper_coins.specs.Helpers.{holding_of};
ghost use Rattle.runs.specs.System.{Reach, Runs, helper_at};
ghost use Rattle.runs.specs.Promise.{Promised};
ghost use Rattle.stage.specs.Scenes.{opening, world};
ghost use Rattle.stage.specs.Plays.{plays, Sends, Outcome, Onward, Said, next, Lets, Settled, Calmed};

use crate::command::Command;
use crate::table::Table;
use boss_coins::boss::Boss;
use coins::answer::Answer;
use coins::ids::{LetterId, NodeId};
use coins::parcel::Parcel;
use coins::work::Work;
use helper_coins::holding::Holding;
use std::alloc::{AllocError, Global};
use std::marker::Model;

// Why there is no stage.
#[derive(Clone, Copy, Debug, PartialEq, Eq)]
pub enum Unstaged {
    // more than 256 helpers
    TooMany,
    NoMemory,
}

impl From<AllocError> for Unstaged {
    ghost use Rattle.std.specs.Prelude.{◌≡◌};
    ghost use Rattle.stage.specs.declared.stage.Unstaged.TheVariants.{NoMemory};

    ghost from_gives = { λ _ why. why ≡ NoMemory };

    fn from(_e: AllocError) -> Unstaged {
        Unstaged::NoMemory
    }
}

// Seen as the scene that is on it.
#[derive(Drop)]
pub struct Stage {
    table: Table,
}

impl Model for Stage {
    ghost use Rattle.stage.specs.Scenes.{Scene, world};

    ghost Value = { Scene };

    ghost use Rattle.runs.specs.System.{Reach};
    ghost use Rattle.stage.specs.Tables.{scene};

    ghost view = { λ s. scene s.table };

    ghost invariant = { λ s. ∥ Reach (world (scene s.table)) ∥₁ };
}

impl Stage {
    // A stage with so many helpers, up to 256, on which nothing has happened.
    pub fn new(heap: Global, n: u16) -> Result<Stage, Unstaged>
        ensures made { IfOk result (λ s. s ≡ opening n) }
        ensures reached { IfOk result (λ s. ∥ Reach (world s) ∥₁) }
        ensures few { 256 < n → result ≡ Err Unstaged.TooMany }
        ensures memory { n ≤ 256 → result ≢ Err Unstaged.TooMany }
    {
        if n > 256 {
            return Err(Unstaged::TooMany);
        }
        let table = Table::new(heap, n)?;
        Ok(Stage { table })
    }

    // Plays a command; `work` are the bytes that go with work. What happens is a step of the system, and an answer
    // of done means that nobody is at work on the letter and no work of it is under way.
    pub fn play(&mut self, command: Command, work: Work) -> Result<Answer, AllocError>
        ensures does { Outcome (plays self.old command work) self.old self.new result }
        ensures memory { OnErr result (Sends command) }
        ensures reached { ∥ Reach (world self.new) ∥₁ }
        ensures goes { Onward (world self.old) (world self.new) }
        ensures promised { Promised (world self.new) }
        ensures done { result ≡ Ok Answer.Done → Said command (world self.new) }
    {
        self.table.play(command, work)
    }

    // Lets messages come until none is left. Of what is quiet all coins are back then, so that say answers done.
    pub fn settle(&mut self) -> Result<(), AllocError>
        ensures does { OnOk result (Lets self.old self.new × (next self.new ≡ None)) }
        ensures reached { ∥ Reach (world self.new) ∥₁ }
        ensures goes { Runs (world self.old) (world self.new) }
        ensures promised { Promised (world self.new) }
        ensures settled { OnOk result (Settled (world self.new)) }
        ensures calmed { OnOk result (Calmed (world self.old) (world self.new)) }
    {
        while let Some(command) = self.table.next() {
            self.play(command, Work::empty())?;
        }
        Ok(())
    }

    // How many helpers there are; and of any stage, that its world is one that is reached.
    pub fn helpers(&self) -> usize
        ensures value { result ≡ length self.now.helpers }
        ensures reached { ∥ Reach (world self.now) ∥₁ }
    {
        self.table.helpers.len()
    }

    pub fn boss(&self) -> &Boss
        ensures { result.now ≡ self.now.boss }
    {
        &self.table.boss
    }

    // A helper's state of a letter.
    pub fn holding(&self, helper: NodeId, letter: LetterId) -> Holding
        ensures { helper.number < length self.now.helpers → result ≡ holding_of (helper_at self.now.helpers helper.number) letter.number }
    {
        self.table
            .helpers
            .get(helper.number as usize)
            .map_or(Holding::idle(), |helper| helper.holding(letter))
    }

    // What is under way, the oldest first.
    pub fn parcels(&self) -> &[Parcel]
        ensures { result.now ≡ self.now.parcels }
    {
        self.table.post.as_slice()
    }
}
