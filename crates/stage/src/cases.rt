// The worked cases.
ghost use Rattle.stage.specs.Cases.{CasesHold};

// Every worked case goes as its row says.
pub fn cases_hold()
    ensures { CasesHold }
{}
