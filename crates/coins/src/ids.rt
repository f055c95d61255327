// The numbers that name things, each with a type of its own.
ghost use Rattle.std.specs.Prelude.{◌≡◌};
ghost use Rattle.coins.specs.Limits.{boss_number};
ghost use Rattle.coins.specs.Nodes.{is_helper, is_boss, is_node};

// A letter: one job. Letters are numbered from 1, and a number is never used again.
#[derive(Clone, Copy, Debug, PartialEq, Eq)]
pub struct LetterId {
    pub number: u32,
}

// Who sends and receives: a helper, 0 to 255, or the boss, 65,535. Any other number may come over a line and is
// refused, so this is no enum of the two: that would ask more of callers.
#[derive(Clone, Copy, Debug, PartialEq, Eq)]
pub struct NodeId {
    pub number: u16,
}

// The boss's number.
pub const BOSS: u16 = 65535;

impl NodeId {
    pub fn boss() -> NodeId
        ensures { result ≡ record { number = boss_number } }
    {
        NodeId { number: BOSS }
    }

    pub fn is_helper(self) -> bool
        ensures { result ≡ is_helper self.number }
    {
        self.number <= 255
    }

    pub fn is_boss(self) -> bool
        ensures { result ≡ is_boss self.number }
    {
        self.number == BOSS
    }

    // Whether there is such a one.
    pub fn is_node(self) -> bool
        ensures { result ≡ is_node self.number }
    {
        self.is_helper() || self.is_boss()
    }
}
