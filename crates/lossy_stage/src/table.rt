// Boss, helpers and packets. Clauses see its fields by `scene`: with a model of that, each index among the helpers asks
// for a proof that the model's list is as long as the memory's.
ghost use Rattle.std.specs.Prelude.{◌≤◌, vec_len};

use lines::packet::Packet;
use nodes::boss::BossNode;
use nodes::helper::HelperNode;

#[derive(Drop)]
pub(crate) struct Table {
    pub(crate) boss: BossNode,
    pub(crate) helpers: Vec<HelperNode>,
    pub(crate) net: Vec<Packet>,
    ghost few: { vec_len helpers ≤ 256 },
}
