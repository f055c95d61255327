// Lines between nodes that lose, double, delay and reorder what is sent over them, put right by numbers: what they
// promise to any protocol above them, and a node's ends of them.
#![tactic(auto)]

ghost use Rattle.lines.specs.Instance.{LinesAreFine};

pub mod end;
pub mod ends;
pub mod heard;
pub mod packet;
pub mod peers;
pub mod post;
mod resend;
#[cfg(test)]
mod tests;
pub mod window;

// The promise of lines, for a small protocol above them: each run over lossy lines is a run over perfect lines, and
// where lines are fair, what is posted is taken.
pub fn lines_are_fine()
    ensures { LinesAreFine }
{}
