// Which of the 64 places a letter has.
ghost use Rattle.std.specs.Prelude.{◌≡◌, ◌==◌};
ghost use Rattle.std.specs.List.{position};
ghost use Rattle.coins.specs.Letters.{found};

use crate::ids::LetterId;

// How many letters may be open at a time.
pub const LETTERS: usize = 64;

// The first place that has this number. Free places have number 0.
pub fn first(numbers: &[u32], number: u32) -> Option<usize>
    ensures { result ≡ position (λ n. n == number) numbers.now }
{
    numbers.iter().position(|n| *n == number)
}

// The place of a letter among those that are open. The number 0 is no letter.
pub fn find(numbers: &[u32], letter: LetterId) -> Option<usize>
    ensures { result ≡ found numbers.now letter.number }
{
    if letter.number == 0 {
        None
    } else {
        first(numbers, letter.number)
    }
}
