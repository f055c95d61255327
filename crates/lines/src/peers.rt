// What a node does at its end of the line to each peer.
#![tactic(auto, using(crate::proofs::Slots::there))]

ghost use Rattle.std.specs.Prelude.{◌≡◌, ℕ, ◌≤◌, true, ◌&&◌, replicate, IfOk, OnOk, if◌then◌else◌, is_ok, nat_le, nat_lt, slice_set};
ghost use Rattle.std.specs.Result.{IsOkUnless};
ghost use Rattle.coins.specs.Parcels.{parcel_of};
ghost use Rattle.lines.specs.Ends.{fresh_end, slot, end_at, last_sent, room_of, keeping, answered_up_to, taking, standing};
ghost use Rattle.lines.specs.Viewed.{ends_of, spares_of, ready};

use crate::end::{Full, LineEnd, Standing};
use crate::ends::LineEnds;
use coins::answer::Refusal;
use coins::ids::NodeId;
use coins::mail::Mail;
use coins::work::Work;
use std::alloc::{AllocError, Global};
use wire::message::SequenceNumber;

// The boss has the last place, behind the helpers.
const BOSS_SLOT: usize = 256;

const SLOTS: usize = 257;

// The place of a peer among the ends.
pub fn slot(peer: NodeId) -> usize
    ensures { result ≡ slot peer.number }
{
    if peer.is_helper() {
        peer.number as usize
    } else {
        BOSS_SLOT
    }
}

impl LineEnds {
    pub fn new(heap: Global) -> Result<LineEnds, AllocError>
        ensures { IfOk result (λ e. ends_of e ≡ replicate 257 fresh_end) }
    {
        let ends = (0..SLOTS).map(|_| LineEnd::new(heap)).collect(heap)?;
        Ok(LineEnds { ends })
    }

    // The last number that was taken from a peer.
    pub fn taken(&self, peer: NodeId) -> SequenceNumber
        ensures { result ≡ record { number = (end_at (ends_of self.now) (slot peer.number)).taken } }
    {
        self.ends[slot(peer)].taken()
    }

    // The number of the last message that was sent to a peer.
    pub fn last_sent(&self, peer: NodeId) -> SequenceNumber
        ensures value { result ≡ record { number = last_sent (end_at (ends_of self.now) (slot peer.number)) } }
        ensures low { result.number ≤ 9223372036854775808 }
    {
        self.ends[slot(peer)].last_sent()
    }

    // The places that there are for messages to a peer.
    pub fn room(&self, peer: NodeId) -> usize
        ensures { result ≡ room_of (end_at (ends_of self.now) (slot peer.number)) }
    {
        self.ends[slot(peer)].room()
    }

    // Makes memory ready for one message more to a peer.
    pub fn reserve(&mut self, peer: NodeId) -> Result<(), AllocError>
        ensures same { ends_of self.new ≡ ends_of self.old }
        ensures ready { OnOk result (ready self.new (slot peer.number) ≡ true) }
        ensures memory { (i : ℕ) → ready self.old i ≡ true → ready self.new i ≡ true }
    {
        self.ends[slot(peer)].reserve()
    }

    // Keeps a message that is sent to a peer; or nothing changes.
    pub fn keep(&mut self, peer: NodeId, mail: Mail, work: Work) -> Result<(), Full>
        ensures done { is_ok result ≡ nat_lt 0 (room_of (end_at (ends_of self.old) (slot peer.number))) && ready self.old (slot peer.number) }
        ensures after { ends_of self.new ≡ (if is_ok result then slice_set (ends_of self.old) (slot peer.number) (keeping (end_at (ends_of self.old) (slot peer.number)) (parcel_of mail work)) else ends_of self.old) }
    {
        self.ends[slot(peer)].keep(mail, work)
    }

    // How the number of a message from a peer stands to the last that was taken.
    pub fn standing(&self, peer: NodeId, number: SequenceNumber) -> Standing
        ensures { result ≡ standing (end_at (ends_of self.now) (slot peer.number)) number.number }
    {
        self.ends[slot(peer)].standing(number)
    }

    // The message with this number was taken from a peer.
    pub fn take(&mut self, peer: NodeId, number: SequenceNumber)
        ensures memory { spares_of self.new ≡ spares_of self.old }
        ensures after { ends_of self.new ≡ slice_set (ends_of self.old) (slot peer.number) (taking (end_at (ends_of self.old) (slot peer.number)) number.number) }
    {
        self.ends[slot(peer)].take(number)
    }

    // A peer has answered up to this number. Where it answers for more than was sent, nothing changes.
    pub fn release(&mut self, peer: NodeId, upto: SequenceNumber) -> Result<(), Refusal>
        ensures known { is_ok result ≡ nat_le upto.number (last_sent (end_at (ends_of self.old) (slot peer.number))) }
        ensures why { IsOkUnless result Refusal.NotSent }
        ensures after { ends_of self.new ≡ slice_set (ends_of self.old) (slot peer.number) (answered_up_to (end_at (ends_of self.old) (slot peer.number)) upto.number) }
    {
        self.ends[slot(peer)].release(upto)
    }
}
