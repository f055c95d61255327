// A helper: what it does with work and coins of all its letters.
ghost use Rattle.std.specs.Prelude.{◌≡◌, ◌<◌, ◌≤◌, MatchOption, Some, nat_lt, slice_index, if◌then◌else◌};
ghost use Rattle.helper_coins.specs.Holdings.{idle};
ghost use Rattle.coins.specs.Letters.{place};
ghost use Rattle.helper_coins.specs.Helpers.{new_helper, at, holding_of, slot_for, write, store, clear, to_boss, counted, seek_waiting, share_step, ask_at, rest_step, vacated, flush_step, work_step, more_step, no_more_step, arrive_step};

use crate::holding::Holding;
use crate::slot::{Slot, find, first_free, first_waiting};
use coins::answer::{Answer, Refusal};
use coins::ids::{LetterId, NodeId};
use coins::limits::fits;
use coins::mail::{Kind, Mail, Outcome, Taking, Untaken};
use std::marker::Model;

// A helper's state of up to 64 letters. Seen as a list of their numbers, 0 where a place is free, and a list of
// what it has of each.
#[derive(Drop)]
pub struct Helper {
    me: NodeId,
    slots: [Slot; 64],
}

impl Model for Helper {
    ghost use Rattle.helper_coins.specs.Shown.{Shown};

    ghost Value = { Shown };

    ghost use Rattle.std.specs.List.{All};
    ghost use Rattle.helper_coins.specs.Slots.{numbers, holdings, Tidy};

    ghost view = { λ h. record { me = h.me; letters = numbers h.slots; holdings = holdings h.slots } };

    ghost invariant = { λ h. All Tidy h.slots };
}

impl Helper {
    pub fn new(me: NodeId) -> Helper
        ensures { result ≡ new_helper me }
    {
        Helper {
            me,
            slots: [Slot::free(); 64],
        }
    }

    // Its number.
    pub fn id(&self) -> NodeId
        ensures { result ≡ self.now.me }
    {
        self.me
    }

    // Its state of a letter.
    pub fn holding(&self, letter: LetterId) -> Holding
        ensures { result ≡ holding_of self.now letter.number }
    {
        find(&self.slots, letter).map_or(Holding::idle(), |i| self.held(i))
    }

    // What it has of the letter at a place.
    fn held(&self, i: usize) -> Holding
        requires { i < 64 }
        ensures { result ≡ at self.now.holdings i }
    {
        self.slots[i].holding
    }

    // Whether coins of some letter wait for a place.
    pub fn is_waiting(&self) -> bool
        ensures { result ≡ nat_lt (seek_waiting self.now.holdings) 64 }
    {
        first_waiting(&self.slots).is_some()
    }

    // The place that the letter has, or else a free one.
    fn slot_for(&self, letter: LetterId) -> Option<usize>
        ensures { MatchOption result (64 ≤ slot_for self.now letter.number) (λ i. (i ≡ slot_for self.now letter.number) × (i < 64)) }
    {
        find(&self.slots, letter).or_else(|| first_free(&self.slots))
    }

    // Gives a place to a letter, with what it has of it.
    #[tactic(auto, using(crate::proofs::Places::stored))]
    fn write(&mut self, i: usize, letter: LetterId, holding: Holding)
        requires place { i < 64 }
        requires numbered { 0 < letter.number }
        ensures { self.new ≡ write self.old i letter.number holding }
    {
        self.slots[i] = Slot { letter, holding };
    }

    // Changes what it has of the letter at a place, if a letter has the place.
    #[tactic(auto, using(crate::proofs::Places::stored))]
    fn store(&mut self, i: usize, holding: Holding)
        requires { i < 64 }
        ensures { self.new ≡ (if nat_lt 0 (slice_index self.old.letters i) then store self.old i holding else self.old) }
    {
        if self.slots[i].letter.number > 0 {
            self.slots[i].holding = holding;
        }
    }

    // Takes a place from its letter.
    #[tactic(auto, using(crate::proofs::Places::stored))]
    fn free(&mut self, i: usize)
        requires { i < 64 }
        ensures { self.new ≡ write self.old i 0 idle }
    {
        self.slots[i] = Slot::free();
    }

    // Frees the place of a letter, where it has one.
    fn clear(&mut self, letter: LetterId)
        ensures { self.new ≡ clear self.old (place self.old.letters letter.number) }
    {
        if let Some(i) = find(&self.slots, letter) {
            self.free(i);
        }
    }

    // A message to the boss.
    fn to_boss(&self, letter: LetterId, kind: Kind) -> Mail
        ensures { result ≡ to_boss self.now letter kind }
    {
        Mail {
            sender: self.me,
            receiver: NodeId::boss(),
            letter,
            kind,
        }
    }

    // Gives work on to a helper, with the smaller half of the coins. `peer` and `boss` are the places that
    // there are towards that helper and towards the boss.
    #[tactic(auto, using(crate::proofs::Places::stored))]
    pub fn share(&mut self, letter: LetterId, to: NodeId, peer: usize, boss: usize) -> Outcome
        ensures { share_step self.old letter to peer boss ≡ record { helper = self.new; outcome = result } }
    {
        if !to.is_helper() {
            return Outcome::refused(Refusal::Malformed);
        }
        let Some(i) = find(&self.slots, letter) else {
            return Outcome::refused(Refusal::NoLetter);
        };
        let holding = self.held(i);
        if !holding.working {
            return Outcome::refused(Refusal::NotWorking);
        }
        if holding.coins < 2 {
            return self.ask(letter, i, holding, boss);
        }
        if to == self.me {
            return Outcome::fine(None);
        }
        if peer == 0 {
            return Outcome::refused(Refusal::NoPlace);
        }
        let (rest, half) = holding.split();
        self.store(i, rest);
        Outcome::fine(Some(Mail {
            sender: self.me,
            receiver: to,
            letter,
            kind: Kind::Work(half),
        }))
    }

    // One coin can't be shared: asks for more, if it hasn't and there is a place.
    fn ask(&mut self, letter: LetterId, i: usize, holding: Holding, boss: usize) -> Outcome
        requires place { i < 64 }
        requires taken { 0 < slice_index self.old.letters i }
        ensures { ask_at self.old letter i holding boss ≡ record { helper = self.new; outcome = result } }
    {
        if holding.asked || boss == 0 {
            return Outcome::refused(Refusal::OneCoin);
        }
        self.store(i, holding.ask());
        Outcome {
            answer: Answer::Refused(Refusal::OneCoin),
            post: Some(self.to_boss(letter, Kind::Ask)),
        }
    }

    // It has finished: all its coins go back to the boss, towards whom there are so many places.
    pub fn rest(&mut self, letter: LetterId, boss: usize) -> Outcome
        ensures { rest_step self.old letter boss ≡ record { helper = self.new; outcome = result } }
    {
        let Some(i) = find(&self.slots, letter) else {
            return Outcome::refused(Refusal::NoLetter);
        };
        let holding = self.held(i);
        if !holding.working {
            return Outcome::refused(Refusal::NotWorking);
        }
        if boss == 0 {
            return Outcome::refused(Refusal::NoPlace);
        }
        self.clear(letter);
        Outcome::fine(Some(self.to_boss(letter, Kind::Back(holding.coins))))
    }

    // Sends coins back that waited for a place: of the first such letter, if there is a place now.
    pub fn flush(&mut self, boss: usize) -> Option<Mail>
        ensures { flush_step self.old boss ≡ record { helper = self.new; post = result } }
    {
        match first_waiting(&self.slots) {
            Some(i) if boss > 0 => Some(self.vacate(i)),
            _ => None,
        }
    }

    // The coins of a place go back, and it is free.
    fn vacate(&mut self, i: usize) -> Mail
        requires { i < 64 }
        ensures { vacated self.old i ≡ record { helper = self.new; post = Some result } }
    {
        let Slot { letter, holding } = self.slots[i];
        self.free(i);
        self.to_boss(letter, Kind::Back(holding.coins))
    }

    // What it has of a letter that coins have come of, if they can be: some, and few enough, of a letter.
    fn counted(&self, letter: LetterId, coins: u64) -> Result<Holding, Refusal>
        ensures { result ≡ counted self.now letter coins }
    {
        let holding = self.holding(letter);
        if coins == 0 || !fits(holding.coins, coins) {
            return Err(Refusal::Malformed);
        }
        if letter.number == 0 {
            return Err(Refusal::NoLetter);
        }
        Ok(holding)
    }

    // Work has come.
    fn work(&mut self, letter: LetterId, coins: u64) -> Taking
        ensures { work_step self.old letter coins ≡ record { helper = self.new; taking = result } }
    {
        let holding = self.counted(letter, coins)?;
        let i = self.slot_for(letter).ok_or(Refusal::LettersFull)?;
        self.write(i, letter, holding.take(coins));
        Ok(None)
    }

    // Coins alone have come: for who is at work they join the others, and else they go back.
    fn more(&mut self, letter: LetterId, coins: u64, boss: usize) -> Taking
        ensures { more_step self.old letter coins boss ≡ record { helper = self.new; taking = result } }
    {
        let holding = self.counted(letter, coins)?;
        if !holding.working && boss > 0 {
            self.clear(letter);
            return Ok(Some(self.to_boss(letter, Kind::Back(holding.coins + coins))));
        }
        let i = self.slot_for(letter).ok_or(Untaken::Later)?;
        self.write(i, letter, holding.answer(coins));
        Ok(None)
    }

    // The boss has no coins to give.
    #[tactic(auto, using(crate::proofs::Places::stored))]
    fn no_more(&mut self, letter: LetterId) -> Taking
        ensures { no_more_step self.old letter ≡ record { helper = self.new; taking = result } }
    {
        if let Some(i) = find(&self.slots, letter) {
            let holding = self.held(i);
            self.store(
                i,
                Holding {
                    asked: false,
                    ..holding
                },
            );
        }
        Ok(None)
    }

    // A message has come; `boss` are the places that there are towards the boss.
    pub fn arrive(&mut self, mail: Mail, boss: usize) -> Taking
        ensures { arrive_step self.old mail.letter mail.kind boss ≡ record { helper = self.new; taking = result } }
    {
        match mail.kind {
            Kind::Work(coins) => self.work(mail.letter, coins),
            Kind::More(coins) => self.more(mail.letter, coins, boss),
            Kind::NoMore => self.no_more(mail.letter),
            Kind::Back(_) | Kind::Ask => Err(Untaken::Refused(Refusal::Malformed)),
        }
    }
}
