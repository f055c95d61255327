// The places of a helper's letters.
ghost use Rattle.std.specs.Prelude.{◌≡◌, ◌==◌};
ghost use Rattle.std.specs.List.{position};
ghost use Rattle.coins.specs.Letters.{found};
ghost use Rattle.helper_coins.specs.Holdings.{waits};
ghost use Rattle.helper_coins.specs.Slots.{numbers, holdings, free_slot};

use crate::holding::Holding;
use coins::ids::LetterId;

// A place: its letter, of number 0 where it is free, and what a helper has of that letter. No Option, whose tag each
// search for a letter would test too.
#[derive(Clone, Copy)]
pub(crate) struct Slot {
    pub(crate) letter: LetterId,
    pub(crate) holding: Holding,
}

impl Slot {
    // A place without a letter.
    pub(crate) fn free() -> Slot
        ensures { result ≡ free_slot }
    {
        Slot {
            letter: LetterId { number: 0 },
            holding: Holding::idle(),
        }
    }
}

// The place of a letter among those that have one. The number 0 is no letter, and has none.
pub(crate) fn find(slots: &[Slot], letter: LetterId) -> Option<usize>
    ensures { result ≡ found (numbers slots.now) letter.number }
{
    if letter.number == 0 {
        None
    } else {
        slots.iter().position(|slot| slot.letter == letter)
    }
}

// The first place that is free.
pub(crate) fn first_free(slots: &[Slot]) -> Option<usize>
    ensures { result ≡ position (λ n. n == 0) (numbers slots.now) }
{
    slots.iter().position(|slot| slot.letter.number == 0)
}

// The first place of coins that wait for one on the way to the boss.
pub(crate) fn first_waiting(slots: &[Slot]) -> Option<usize>
    ensures { result ≡ position waits (holdings slots.now) }
{
    slots.iter().position(|slot| slot.holding.waits())
}
