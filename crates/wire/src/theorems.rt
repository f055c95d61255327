// Reader and writer agree: each theorem stands on a function of its own.
ghost use Rattle.wire.specs.Theorems.{WrittenIsRead, ReadIsWritten, FirstPartsRefused, NothingBehind};

// What is written of a message that can be is read as that message.
pub fn written_is_read()
    ensures { WrittenIsRead }
{}

// Bytes that are read as a message are those that are written of it, and it can be: the reader takes nothing else.
pub fn read_is_written()
    ensures { ReadIsWritten }
{}

// A message that is cut short is refused, wherever it is cut.
pub fn first_parts_refused()
    ensures { FirstPartsRefused }
{}

// A message with anything behind it is refused.
pub fn nothing_behind()
    ensures { NothingBehind }
{}
