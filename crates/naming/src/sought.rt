// A subtree for which a state is sought.
ghost use Rattle.std.specs.Prelude.{◌≡◌, ◌≤◌, length};
ghost use Rattle.format.specs.Format.{table_bytes};
ghost use Rattle.subtrees.specs.Parents.{ParentsWithin};

use format::{BYTE_VALUES, MAX_NODES};
use uses::Setting;

// Subtree j with the classes of states in a table, the marks of open states and the names of the subtrees with greater
// numbers. Its parents have indices from `from` on and below `to`.
#[derive(Clone, Copy)]
pub struct Sought<'a, 'b> {
    pub table: &'a [u8],
    pub setting: &'a Setting<'b>,
    pub marks: &'a [u8; BYTE_VALUES],
    pub names: &'a [u8; MAX_NODES],
    pub j: usize,
    pub from: usize,
    pub to: usize,
    pub ghost table_len: { length table.now ≡ table_bytes },
    pub ghost le_j: { 1 ≤ j },
    pub ghost j_le_m: { j ≤ setting.now.subtrees.now.count },
    pub ghost parents_within: { ParentsWithin setting.now.subtrees.now.count setting.now.subtrees.now.arities
        setting.now.subtrees.now.children j from to },
}
