// An answer as a line of text.
ghost use Rattle.text.specs.Growth.{Prints};
ghost use Rattle.rehearsal.specs.Answers.{answer_line};

use coins::answer::Answer;
use std::alloc::AllocError;
use std::fmt::Write;

// Puts an answer's line behind what is there.
pub fn push_answer(out: &mut String, answer: Answer) -> Result<(), AllocError>
    ensures { Prints result out.old out.new (answer_line answer) }
{
    match answer {
        Answer::Fine => out.push_str("ok\n"),
        Answer::Done => out.push_str("done\n"),
        Answer::Refused(why) => writeln!(out, "refused {}", why.number()),
    }
}
