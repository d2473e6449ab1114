// "unused ones 0": the cells behind the rows in use.
ghost use Rattle.std.specs.Prelude.{◌&&◌, ◌≡◌, ◌+◌, ◌*◌, ◌≤◌, length};
ghost use Rattle.layout.specs.Layout as Layout;
ghost use Rattle.layout.specs.Stages as Stages;
ghost use Rattle.layout.specs.Vocabulary.Found as Found;

use crate::{CALL_BLOCK, OBJECT_BLOCK};

// Every cell is 0. Not `iter().all(..)`: the proof did not close, as nothing tells after that call that each item fits 32 bits.
#[tactic(auto, using(crate::proofs::Zeros::zeros_done, crate::proofs::Zeros::zeros_more, crate::proofs::Zeros::zeros_stop))]
fn zeros(cells: &[i32]) -> bool
    ensures { result ≡ Found.zeros cells.now }
{
    for &z in cells {
        if z != 0 {
            return false;
        }
    }
    true
}

// Every cell of the object rows and of the call rows that are not in use is 0.
#[tactic(auto, unfolding(crate::specs::Stages::objects_in_use, crate::specs::Stages::rows_in_use, crate::specs::Vocabulary::Found::zeros_in))]
pub fn unused_zero(cells: &[i32]) -> bool
    requires all_cells { length cells.now ≡ Layout.all_cells }
    requires objects_within { Stages.objects_in_use cells.now ≤ Layout.object_rows }
    requires calls_within { Stages.rows_in_use cells.now ≤ Layout.call_rows }
    ensures { result ≡ (Found.zeros_in cells.now (Layout.first_object + Stages.objects_in_use cells.now * Layout.object_cells) Layout.first_call && Found.zeros_in cells.now (Layout.first_call + Stages.rows_in_use cells.now * Layout.call_cells) Layout.all_cells) }
{
    let objects_end = OBJECT_BLOCK.first
        + crate::objects_in_use(cells) * usize::from(OBJECT_BLOCK.width);
    let calls_end = CALL_BLOCK.first + crate::rows_in_use(cells) * usize::from(CALL_BLOCK.width);
    zeros(&cells[objects_end..CALL_BLOCK.first]) && zeros(&cells[calls_end..])
}
