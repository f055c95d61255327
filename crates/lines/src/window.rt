// What one end of a line does: it keeps what is sent until it is answered for, and takes each number once, in order.
#![tactic(auto, using(crate::proofs::Fitting::fitting))]

ghost use Rattle.std.specs.Prelude.{◌≡◌, ◌≤◌, true, ◌&&◌, OnOk, if◌then◌else◌, is_ok, nat_le, nat_lt};
ghost use Rattle.std.specs.Result.{IsOkUnless};
ghost use Rattle.coins.specs.Parcels.{parcel_of};
ghost use Rattle.lines.specs.Ends.{fresh_end, last_sent, room_of, keeping, answered_up_to, taking, standing};
ghost use Rattle.lines.specs.Viewed.{end_of, spare};

use crate::end::{Full, LineEnd, Standing};
use coins::answer::Refusal;
use coins::mail::Mail;
use coins::parcel::Parcel;
use coins::work::Work;
use std::alloc::{AllocError, Global};
use std::cmp::Ordering;
use wire::message::SequenceNumber;

// At most so many messages to one receiver may be unanswered.
pub const WINDOW: usize = 1024;

// No message is sent once the numbers up to this are answered for.
const NUMBERS: u64 = 1 << 62;

impl LineEnd {
    pub fn new(heap: Global) -> LineEnd
        ensures { end_of result ≡ fresh_end }
    {
        LineEnd {
            answered: SequenceNumber { number: 0 },
            waiting: Vec::new(heap),
            taken: SequenceNumber { number: 0 },
        }
    }

    // The last number that was taken from the peer.
    pub fn taken(&self) -> SequenceNumber
        ensures { result ≡ record { number = (end_of self.now).taken } }
    {
        self.taken
    }

    // The number of the last message that was sent to the peer.
    pub fn last_sent(&self) -> SequenceNumber
        ensures value { result ≡ record { number = last_sent (end_of self.now) } }
        ensures low { result.number ≤ 9223372036854775808 }
    {
        SequenceNumber {
            number: self.answered.number + self.waiting.len() as u64,
        }
    }

    // The places that there are for messages to the peer.
    pub fn room(&self) -> usize
        ensures { result ≡ room_of (end_of self.now) }
    {
        if self.answered.number < NUMBERS {
            WINDOW - self.waiting.len()
        } else {
            0
        }
    }

    // Makes memory ready for one message more.
    pub fn reserve(&mut self) -> Result<(), AllocError>
        ensures same { end_of self.new ≡ end_of self.old }
        ensures ready { OnOk result (spare self.new ≡ true) }
        ensures memory { spare self.old ≡ true → spare self.new ≡ true }
    {
        self.waiting.reserve(1)?;
        Ok(())
    }

    // Keeps a message that is sent, until it is answered for; or nothing changes. A parcel made elsewhere might have
    // bytes beside mail that has none, so it is made here.
    pub fn keep(&mut self, mail: Mail, work: Work) -> Result<(), Full>
        ensures done { is_ok result ≡ nat_lt 0 (room_of (end_of self.old)) && spare self.old }
        ensures after { end_of self.new ≡ (if is_ok result then keeping (end_of self.old) (parcel_of mail work) else end_of self.old) }
    {
        if self.room() == 0 || self.waiting.len() >= self.waiting.capacity() {
            return Err(Full);
        }
        self.waiting.push_reserved(Parcel::new(mail, work));
        Ok(())
    }

    // How the number of a message that came stands to the last that was taken.
    pub fn standing(&self, number: SequenceNumber) -> Standing
        ensures { result ≡ standing (end_of self.now) number.number }
    {
        match number.cmp(&self.taken) {
            Ordering::Less | Ordering::Equal => Standing::Old,
            Ordering::Greater => if number.number - 1 == self.taken.number {
                Standing::Next
            } else {
                Standing::Ahead
            },
        }
    }

    // The message with this number was taken.
    pub fn take(&mut self, number: SequenceNumber)
        ensures after { end_of self.new ≡ taking (end_of self.old) number.number }
        ensures memory { spare self.new ≡ spare self.old }
    {
        self.taken = number;
    }

    // The peer has answered up to this number: what waits up to it is kept no more. Where it answers for more
    // than was sent, nothing changes.
    pub fn release(&mut self, upto: SequenceNumber) -> Result<(), Refusal>
        ensures known { is_ok result ≡ nat_le upto.number (last_sent (end_of self.old)) }
        ensures why { IsOkUnless result Refusal.NotSent }
        ensures after { end_of self.new ≡ answered_up_to (end_of self.old) upto.number }
    {
        let n = self.waiting.len();
        let count = upto.number.saturating_sub(self.answered.number);
        if count > n as u64 {
            return Err(Refusal::NotSent);
        }
        // A drain would turn round what it drops.
        self.waiting.rotate_left(count as usize);
        self.waiting.truncate(n - count as usize);
        self.answered.number += count;
        Ok(())
    }
}
