// What a line of a script asks for.
use stage::command::Command;

// The most helpers that a script may ask for, and those that there are before it asks.
pub const HELPERS: u16 = 8;

#[derive(Clone, Copy, Debug, PartialEq, Eq)]
pub enum Line<'a> {
    // a blank line, or a comment alone
    Empty,
    // a command of the stage, with the hexadecimal of its work
    Play { command: Command, hex: &'a [u8] },
    // messages come until none is left
    Settle,
    // a table of all that is open
    Show,
    // afresh, with so many helpers
    New { helpers: u16 },
}
