// The boss: what it gives out, what comes back, and when it says that a letter is done.
ghost use Rattle.std.specs.Prelude.{◌≡◌, ◌+◌, ◌<◌, None};
ghost use Rattle.boss_coins.specs.Bosses.{new_boss, given_of, back_of, is_open, send, give_step, give_open, give_new, say_step, back_step, ask_step, receive_step};

use crate::counts::add;
use coins::answer::{Answer, Refusal};
use coins::ids::{LetterId, NodeId};
use coins::letters::{find, first};
use coins::limits::fits;
use coins::mail::{Kind, Mail, Outcome, Taking, Untaken};

// The coins that go with work from the boss, and to who asks for more.
pub const GRANT: u32 = 1 << 20;

// The boss's state: the highest letter ever opened, and for each of up to 64 letters that are not done its
// number, 0 where the place is free, how many coins were ever given out, and how many came back. These are arrays of
// their own, since the project asks for counts in a lent slice of words; the numbers lie beside them as they do.
#[derive(Drop)]
pub struct Boss {
    highest: u32,
    letters: [u32; 64],
    given: [u64; 64],
    back: [u64; 64],
}

impl Boss {
    pub fn new() -> Boss
        ensures { result ≡ new_boss }
    {
        Boss {
            highest: 0,
            letters: [0; 64],
            given: [0; 64],
            back: [0; 64],
        }
    }

    // The numbers of the letters that are open, 0 at each place that is free.
    pub fn letters(&self) -> &[u32]
        ensures { result.now ≡ self.now.letters }
    {
        &self.letters
    }

    // Whether the letter is open: it was given, and is not done.
    pub fn is_open(&self, letter: LetterId) -> bool
        ensures { result ≡ is_open self.now letter.number }
    {
        find(&self.letters, letter).is_some()
    }

    // How many coins of an open letter were ever given out.
    pub fn given(&self, letter: LetterId) -> u64
        ensures { result ≡ given_of self.now letter.number }
    {
        find(&self.letters, letter).map_or(0, |i| self.given[i])
    }

    // How many of them came back.
    pub fn back(&self, letter: LetterId) -> u64
        ensures { result ≡ back_of self.now letter.number }
    {
        find(&self.letters, letter).map_or(0, |i| self.back[i])
    }

    // A message to a helper.
    fn mail(to: NodeId, letter: LetterId, kind: Kind) -> Mail
        ensures { result ≡ send to letter kind }
    {
        Mail {
            sender: NodeId::boss(),
            receiver: to,
            letter,
            kind,
        }
    }

    // Gives work of a letter to a helper, towards whom there are so many places. The first opens the letter.
    pub fn give(&mut self, letter: LetterId, to: NodeId, room: usize) -> Outcome
        ensures { give_step self.old letter to room ≡ record { boss = self.new; outcome = result } }
    {
        if !to.is_helper() {
            return Outcome::refused(Refusal::Malformed);
        }
        match find(&self.letters, letter) {
            Some(i) => self.give_open(letter, to, room, i),
            None => self.give_new(letter, to, room),
        }
    }

    fn give_open(&mut self, letter: LetterId, to: NodeId, room: usize, i: usize) -> Outcome
        requires { i < 64 }
        ensures { give_open self.old letter to room i ≡ record { boss = self.new; outcome = result } }
    {
        if !fits(self.given[i], GRANT as u64) {
            return Outcome::refused(Refusal::CountsUsed);
        }
        if room == 0 {
            return Outcome::refused(Refusal::NoPlace);
        }
        add(&mut self.given, i, GRANT as u64);
        Outcome::fine(Some(Boss::mail(to, letter, Kind::Work(GRANT as u64))))
    }

    fn give_new(&mut self, letter: LetterId, to: NodeId, room: usize) -> Outcome
        ensures { give_new self.old letter to room ≡ record { boss = self.new; outcome = result } }
    {
        if letter.number <= self.highest {
            return Outcome::refused(Refusal::NoLetter);
        }
        let Some(i) = first(&self.letters, 0) else {
            return Outcome::refused(Refusal::LettersFull);
        };
        if room == 0 {
            return Outcome::refused(Refusal::NoPlace);
        }
        self.highest = letter.number;
        self.letters[i] = letter.number;
        self.given[i] = GRANT as u64;
        self.back[i] = 0;
        Outcome::fine(Some(Boss::mail(to, letter, Kind::Work(GRANT as u64))))
    }

    // Says that a letter is done, if all its coins came back.
    pub fn say(&mut self, letter: LetterId) -> Answer
        ensures { say_step self.old letter ≡ record { boss = self.new; outcome = record { answer = result; post = None } } }
    {
        let Some(i) = find(&self.letters, letter) else {
            return Answer::Refused(Refusal::NoLetter);
        };
        if self.given[i] != self.back[i] {
            return Answer::Refused(Refusal::CoinsOut);
        }
        self.letters[i] = 0;
        self.given[i] = 0;
        self.back[i] = 0;
        Answer::Done
    }

    // Coins have come back.
    fn take_back(&mut self, letter: LetterId, coins: u64) -> Taking
        ensures { back_step self.old letter coins ≡ record { boss = self.new; taking = result } }
    {
        let i = find(&self.letters, letter).ok_or(Refusal::Malformed)?;
        let given = self.given[i];
        let back = self.back[i];
        if coins == 0 || given.saturating_sub(back) < coins {
            return Err(Untaken::Refused(Refusal::Malformed));
        }
        self.back[i] = back + coins;
        Ok(None)
    }

    // A helper asks for more coins: it gets as many as work gets, or the answer that there are none.
    fn asked(&mut self, sender: NodeId, letter: LetterId, room: usize) -> Taking
        ensures { ask_step self.old sender letter room ≡ record { boss = self.new; taking = result } }
    {
        if room == 0 {
            return Err(Untaken::Later);
        }
        match find(&self.letters, letter) {
            Some(i) if fits(self.given[i], GRANT as u64) => {
                add(&mut self.given, i, GRANT as u64);
                Ok(Some(Boss::mail(sender, letter, Kind::More(GRANT as u64))))
            }
            _ => Ok(Some(Boss::mail(sender, letter, Kind::NoMore))),
        }
    }

    // A message has come from a helper, towards whom there are so many places.
    pub fn arrive(&mut self, mail: Mail, room: usize) -> Taking
        ensures { receive_step self.old mail.sender mail.letter mail.kind room ≡ record { boss = self.new; taking = result } }
    {
        match mail.kind {
            Kind::Back(coins) => self.take_back(mail.letter, coins),
            Kind::Ask => self.asked(mail.sender, mail.letter, room),
            Kind::Work(_) | Kind::More(_) | Kind::NoMore => {
                Err(Untaken::Refused(Refusal::Malformed))
            }
        }
    }

    // A boss that gave so many coins of one letter before.
    #[cfg(test)]
    pub(crate) fn given_before(letter: LetterId, given: u64) -> Boss {
        let mut boss = Boss::new();
        boss.highest = letter.number;
        boss.letters[0] = letter.number;
        boss.given[0] = given;
        boss
    }
}
