// A rehearsal: a stage on which a script is played, line by line.
ghost use Rattle.std.specs.Prelude.{◌≡◌, true, false, IfOk, string_bytes, MatchOption, MatchResult, OnOk};
ghost use Rattle.script.specs.Lines.{is_line, line_in, play, settle, show, new};
ghost use Rattle.text.specs.Hex.{bytes_of};
ghost use Rattle.coins.specs.Works.{no_work, bytes_of as work_bytes};
ghost use Rattle.runs.specs.System.{Reach, Runs, start};
ghost use Rattle.stage.specs.Scenes.{opening, world};
ghost use Rattle.stage.specs.Plays.{plays, Said};
ghost use Rattle.rehearsal.specs.Steps.{follows, Acts, is_work, Plays, Does, Turns};

use crate::answer::push_answer;
use crate::show::push_stage;
use coins::answer::{Answer, Refusal};
use coins::ids::NodeId;
use coins::work::Work;
use script::line::{HELPERS, Line};
use script::read::read;
use stage::command::Command;
use stage::stage::Stage;
use std::alloc::{AllocError, Global};
use std::marker::Model;
use text::hex::{HexFault, unhex};

// A stage on which commands and lines are played. Seen as the scene that is on it.
#[derive(Drop)]
struct Playing {
    heap: Global,
    stage: Stage,
}

impl Model for Playing {
    ghost use Rattle.stage.specs.Scenes.{Scene};

    ghost Value = { Scene };

    ghost use Rattle.stage.specs.Scenes.{world};
    ghost use Rattle.runs.specs.System.{Reach};

    ghost view = { λ p. p.stage };

    ghost invariant = { λ p. ∥ Reach (world p.stage) ∥₁ };
}

// Seen as the scene that is on its stage. What a line says is put together in `said`, whose memory serves the next line.
#[derive(Drop)]
pub struct Rehearsal {
    playing: Playing,
    said: String,
}

impl Model for Rehearsal {
    ghost use Rattle.stage.specs.Scenes.{Scene};

    ghost Value = { Scene };

    ghost use Rattle.stage.specs.Scenes.{world};
    ghost use Rattle.runs.specs.System.{Reach};

    ghost view = { λ r. r.playing };

    ghost invariant = { λ r. ∥ Reach (world r.playing) ∥₁ };
}

// A match, since through `map_err` the check does not see what is on the stage.
fn staged(heap: Global, helpers: u16) -> Result<Stage, AllocError>
    ensures reached { IfOk result (λ s. ∥ Reach (world s) ∥₁) }
    ensures opens { IfOk result (λ s. s ≡ opening helpers) }
    ensures starts { IfOk result (λ s. world s ≡ start helpers) }
{
    match Stage::new(heap, helpers) {
        Ok(stage) => Ok(stage),
        Err(_) => Err(AllocError),
    }
}

impl Playing {
    // Coins that waited for a place go, where there is one.
    fn flush(&mut self, by: NodeId) -> Result<(), AllocError>
        ensures does { OnOk result (self.new ≡ (plays self.old (Command.Flush by) no_work).scene) }
        ensures goes { Runs (world self.old) (world self.new) }
    {
        self.stage.play(Command::Flush { by }, Work::empty())?;
        Ok(())
    }

    // The work whose bytes are given in hexadecimal, if they are and are not too many. A match, since `ok` copies the
    // work once more: a tenth of a refused line's time.
    fn work(&self, hex: &[u8]) -> Result<Option<Work>, AllocError>
        ensures { IfOk result (λ o. MatchOption o (is_work hex.now ≡ false) (λ w. (is_work hex.now ≡ true) × (work_bytes w ≡ bytes_of hex.now))) }
    {
        match unhex(self.heap, hex) {
            Ok(bytes) => match Work::try_from(bytes.as_slice()) {
                Ok(work) => Ok(Some(work)),
                Err(_) => Ok(None),
            },
            Err(HexFault::NotHex) => Ok(None),
            Err(HexFault::NoMemory) => Err(AllocError),
        }
    }

    // Where a helper's message came, there is a place for coins that waited.
    fn follow(&mut self, command: Command, answer: Answer) -> Result<(), AllocError>
        ensures does { OnOk result (self.new ≡ follows command answer self.old) }
        ensures goes { Runs (world self.old) (world self.new) }
        ensures done { answer ≡ Answer.Done → world self.new ≡ world self.old }
    {
        let Command::Pass { sender, .. } = command else {
            return Ok(());
        };
        let Answer::Fine = answer else {
            return Ok(());
        };
        if sender == NodeId::boss() {
            return Ok(());
        }
        self.flush(sender)
    }

    // Plays a command, and what follows it.
    fn act(&mut self, command: Command, work: Work) -> Result<Answer, AllocError>
        ensures does { IfOk result (λ a. Acts self.old command work self.new a) }
        ensures goes { Runs (world self.old) (world self.new) }
        ensures done { IfOk result (λ a. a ≡ Answer.Done → Said command (world self.new)) }
    {
        let answer = self.stage.play(command, work)?;
        self.follow(command, answer)?;
        Ok(answer)
    }

    // Plays a command of a line, with the hexadecimal of its work.
    fn play(&mut self, command: Command, hex: &[u8]) -> Result<Answer, AllocError>
        ensures does { IfOk result (λ a. Plays self.old command hex.now self.new a) }
        ensures goes { Runs (world self.old) (world self.new) }
        ensures done { IfOk result (λ a. a ≡ Answer.Done → Said command (world self.new)) }
    {
        let Some(work) = self.work(hex)? else {
            return Ok(Answer::Refused(Refusal::Malformed));
        };
        self.act(command, work)
    }

    // Plays a command of a line, and puts its answer behind what is there.
    fn tell(&mut self, command: Command, hex: &[u8], out: &mut String) -> Result<(), AllocError>
        ensures does { OnOk result (Does true (play command hex.now) self.old self.new (string_bytes out.old) (string_bytes out.new)) }
        ensures goes { Runs (world self.old) (world self.new) }
    {
        let answer = self.play(command, hex)?;
        push_answer(out, answer)
    }

    // Messages come until none is left.
    fn settle(&mut self, out: &mut String) -> Result<(), AllocError>
        ensures does { OnOk result (Does true settle self.old self.new (string_bytes out.old) (string_bytes out.new)) }
        ensures goes { Runs (world self.old) (world self.new) }
    {
        self.stage.settle()?;
        push_answer(out, Answer::Fine)
    }

    fn restart(&mut self, helpers: u16, out: &mut String) -> Result<(), AllocError>
        ensures starts { OnOk result (world self.new ≡ start helpers) }
        ensures does { OnOk result (Does true (new helpers) self.old self.new (string_bytes out.old) (string_bytes out.new)) }
    {
        self.stage = staged(self.heap, helpers)?;
        push_answer(out, Answer::Fine)
    }

    fn show(&self, out: &mut String) -> Result<(), AllocError>
        ensures { OnOk result (Does true show self.now self.now (string_bytes out.old) (string_bytes out.new)) }
    {
        push_stage(self.heap, out, &self.stage)?;
        push_answer(out, Answer::Fine)
    }

    // Plays a line, and puts what is shown and answered behind what is there.
    fn say(&mut self, line: &[u8], out: &mut String) -> Result<(), AllocError>
        ensures does { OnOk result (Does (is_line line.now) (line_in line.now) self.old self.new (string_bytes out.old) (string_bytes out.new)) }
        ensures turns { OnOk result (Turns (is_line line.now) (line_in line.now) (world self.old) (world self.new)) }
    {
        match read(line) {
            Some(Line::Empty) => Ok(()),
            Some(Line::Play { command, hex }) => self.tell(command, hex, out),
            Some(Line::Settle) => self.settle(out),
            Some(Line::Show) => self.show(out),
            Some(Line::New { helpers }) => self.restart(helpers, out),
            None => push_answer(out, Answer::Refused(Refusal::Malformed)),
        }
    }

    // The same; and whatever came of it, the world on the stage is one that is reached, as a look at the stage tells.
    fn step(&mut self, line: &[u8], out: &mut String) -> Result<(), AllocError>
        ensures reached { ∥ Reach (world self.new) ∥₁ }
        ensures does { OnOk result (Does (is_line line.now) (line_in line.now) self.old self.new (string_bytes out.old) (string_bytes out.new)) }
        ensures turns { OnOk result (Turns (is_line line.now) (line_in line.now) (world self.old) (world self.new)) }
    {
        let told = self.say(line, out);
        let _stage = &self.stage;
        told
    }
}

impl Rehearsal {
    // A rehearsal with eight helpers, on which nothing has happened.
    pub fn new(heap: Global) -> Result<Rehearsal, AllocError>
        ensures opens { IfOk result (λ x. x ≡ opening 8) }
        ensures reached { IfOk result (λ x. ∥ Reach (world x) ∥₁) }
    {
        let stage = staged(heap, HELPERS)?;
        Ok(Rehearsal {
            playing: Playing { heap, stage },
            said: String::new(heap),
        })
    }

    // Plays a line, and puts what is shown and answered behind what is there, whatever bytes that is.
    pub fn step(&mut self, line: &[u8], out: &mut Vec<u8>) -> Result<(), AllocError>
        ensures before { ∥ Reach (world self.old) ∥₁ }
        ensures reached { ∥ Reach (world self.new) ∥₁ }
        ensures does { OnOk result (Does (is_line line.now) (line_in line.now) self.old self.new out.old.items out.new.items) }
        ensures turns { OnOk result (Turns (is_line line.now) (line_in line.now) (world self.old) (world self.new)) }
    {
        self.said.clear();
        self.playing.step(line, &mut self.said)?;
        if self.said.is_empty() {
            return Ok(());
        }
        out.extend_from_slice(self.said.as_bytes())?;
        Ok(())
    }
}
