// At most so many bytes, in a place of fixed size.
ghost use Rattle.std.specs.Prelude.{◌≡◌, ◌+◌, ◌<◌, ◌≤◌, ◌↔◌, [], ◌++◌, length, OnOk, OnErr, IsErr, MatchResult};

use std::marker::Model;

// At most MOST bytes, with zeros behind them. Fixed memory, as the project asks; the kit's ArrayVec is not Copy.
#[derive(Clone, Copy)]
pub struct Bytes<const MOST: usize> {
    len: usize,
    place: [u8; MOST],
}

// Why bytes are refused: they are more than there is place for.
#[derive(Clone, Copy, PartialEq, Eq, Debug)]
pub struct TooLong;

// Clauses see the bytes.
impl<const MOST: usize> Model for Bytes<MOST> {
    ghost use Rattle.std.specs.Prelude.{ℕ, List, length, take, refl};
    ghost use Rattle.std.proofs.lemmas.List.{take-append-drop};
    ghost use Rattle.coins.specs.Filled.{padded, Filled};

    ghost Value = { List ℕ };

    ghost view = { λ b. take b.len b.place };

    ghost invariant = { λ b. Filled MOST b.len b.place };

    ghost inverse = { λ xs. record { len = length xs; place = padded MOST xs } };

    ghost inverse_ok = { λ b h. Prim.rw (h.count, ← h.zeros, take-append-drop) refl };
}

// Put where it is called: a frame is made of seven small parts, and takes a third as long again by a call for each.
impl<const MOST: usize> Bytes<MOST> {
    // No bytes.
    #[inline(always)]
    pub fn empty() -> Bytes<MOST>
        ensures { result ≡ [] }
    {
        Bytes {
            len: 0,
            place: [0; MOST],
        }
    }

    #[inline(always)]
    pub fn as_slice(&self) -> &[u8]
        ensures same { result.now ≡ self.now }
        ensures within { length self.now ≤ MOST }
    {
        let place = &self.place[..];
        &place[0..self.len]
    }

    // Puts a part behind what is there.
    #[inline(always)]
    pub fn push_slice(&mut self, part: &[u8]) -> Result<(), TooLong>
        ensures ok { OnOk result (self.new ≡ self.old ++ part.now) }
        ensures too_long { IsErr result ↔ (MOST < length self.old + length part.now) }
        ensures err { OnErr result (self.new ≡ self.old) }
    {
        if part.len() > MOST - self.len {
            return Err(TooLong);
        }
        let end = self.len + part.len();
        let place = &mut self.place[..];
        place[self.len..end].copy_from_slice(part);
        self.len = end;
        Ok(())
    }
}

impl<const MOST: usize> TryFrom<&[u8]> for Bytes<MOST> {
    type Error = TooLong;

    ghost try_from_gives = { λ bytes r. MatchResult r (λ b. (b ≡ bytes.now) × (length bytes.now ≤ MOST)) (λ _. MOST < length bytes.now) };

    fn try_from(bytes: &[u8]) -> Result<Bytes<MOST>, TooLong> {
        let mut all = Bytes::empty();
        all.push_slice(bytes)?;
        Ok(all)
    }
}
