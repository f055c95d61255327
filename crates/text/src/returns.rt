// That what is written is read back: nothing runs here, the contracts are the theorems.
ghost use Rattle.text.specs.Returns.{HexReturns, NumberReturns};

// The hexadecimal of bytes gives those bytes.
#[tactic(auto, using(crate::proofs::Back::hex_back))]
pub fn hex_returns()
    ensures { HexReturns }
{}

// The digits of a number below 2^64 give that number.
#[tactic(auto, using(crate::proofs::Back::number_back))]
pub fn number_returns()
    ensures { NumberReturns }
{}
