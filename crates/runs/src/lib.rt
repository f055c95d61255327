// Every run of a boss and helpers over lines that lose nothing: each promise stands on a function of its own.
#![tactic(auto)]

ghost use Rattle.runs.specs.Promise.{Promise, DoneStays, StepsAreMoves, LettersApart, OnlyWorkWakes, QuietGoesOn, QuietIsShort, QuietIsSaid};
ghost use Rattle.runs.specs.Lines.{LinesAreQueues};

// Of every letter in every world that is reached: when the boss has said done, nobody is at work and no work is
// under way; no coin is made or lost; who is at work has a coin, and so has each message of work or coins; and no
// message is turned away.
pub fn promises_hold()
    ensures { Promise }
{}

// What the boss has said stays said, and its number never opens again.
pub fn done_stays()
    ensures { DoneStays }
{}

// Each step is for each letter one of the rules, or nothing.
pub fn steps_are_moves()
    ensures { StepsAreMoves }
{}

// A step about one letter leaves every other as it was.
pub fn letters_stay_apart()
    ensures { LettersApart }
{}

// Nobody comes to be at work but by work.
pub fn only_work_wakes()
    ensures { OnlyWorkWakes }
{}

// What is quiet stays quiet without a new give, and each message that comes leaves less to come.
pub fn quiet_goes_on()
    ensures { QuietGoesOn }
{}

// How many messages can still come.
pub fn quiet_is_short()
    ensures { QuietIsShort }
{}

// When it is quiet and nothing is left to come, all coins are back, and say answers done.
pub fn quiet_is_said()
    ensures { QuietIsSaid }
{}

// The messages from one to another come in the order in which they were sent.
pub fn lines_are_queues()
    ensures { LinesAreQueues }
{}
