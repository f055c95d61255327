// The boss and the helpers over lossy lines whose frames are bytes: each promise stands on a function of its own.
#![tactic(auto)]

ghost use Rattle.network.specs.Bytes.{PacketsAreRead};
ghost use Rattle.network.specs.Promise.{NetPromise, NetDoneStays, NetOnlyWorkWakes, NetQuietGoesOn, NetQuietIsSaid, LinesCarry, NetComesToBeSaid};

// What the bytes of a packet say.
pub fn packets_are_read()
    ensures { PacketsAreRead }
{}

// Of every letter in every network that is reached: all that is promised over lines that lose nothing.
pub fn network_promises_hold()
    ensures { NetPromise }
{}

// What the boss has said stays said, and its number never opens again.
pub fn network_done_stays()
    ensures { NetDoneStays }
{}

// Nobody comes to be at work but by work that was under way to it.
pub fn network_only_work_wakes()
    ensures { NetOnlyWorkWakes }
{}

// What is quiet stays quiet without a new give, and each message that is taken leaves less to come.
pub fn network_quiet_goes_on()
    ensures { NetQuietGoesOn }
{}

// When it is quiet and nothing is left to come, all coins are back, and say answers done.
pub fn network_quiet_is_said()
    ensures { NetQuietIsSaid }
{}

// Each step is a step over lines that lose nothing, or is not seen from above.
pub fn lines_carry()
    ensures { LinesCarry }
{}

// Where lines are fair and coins that wait are sent now and then, what is quiet and not given any more is said at last.
pub fn network_comes_to_be_said()
    ensures { NetComesToBeSaid }
{}
