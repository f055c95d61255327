// A node's ends of its lines: one for each helper, 0 to 255, and one for the boss.
ghost use Rattle.std.specs.Prelude.{◌≡◌, vec_len};

use crate::end::LineEnd;

// Clauses see them by `ends_of` and `spares_of`, and by no Model, as they see one end.
#[derive(Drop)]
pub struct LineEnds {
    pub(crate) ends: Vec<LineEnd>,
    ghost all: { vec_len ends ≡ 257 },
}
