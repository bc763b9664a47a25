//! Lines are put into cells.
ghost use Rattle.std.specs.Prelude.{◌≡◌, ◌+◌, ◌≤◌, [], ◌∷◌, true, false, vec_len, vec_capacity};
ghost use Rattle.exec_msg.specs.inner.Packed.{HasLines};

use crate::line::Line;
use crate::numbers::GoalId;
use crate::packed::PackedCell;
use crate::packed::form::{form_of, near_cell, near_form, upper_cell};

/// Adds cells for an identifier, if it isn't the one that was given last. The cells have room for three more.
#[inline(always)]
fn tell(cells: &mut Vec<PackedCell>, told: &mut GoalId, id: GoalId)
    requires { vec_len cells.old + 3 ≤ vec_capacity cells.old }
    ensures told { HasLines cells.old.items cells.new.items told.old told.new [] }
    ensures id { told.new ≡ id }
    ensures room { vec_len cells.new + 1 ≤ vec_capacity cells.new }
{
    if id == *told {
        return;
    }
    let (upper, count) = id.halves();
    match u16::try_from(upper) {
        Ok(maker) => cells.push_reserved(near_cell(maker, count)),
        Err(_) => {
            cells.push_reserved(near_cell(0, count));
            cells.push_reserved(upper_cell(upper));
        }
    }
    *told = id;
}

/// Adds a line to cells that have room for three more. Answers whether the line has a form in cells.
#[inline(always)]
pub(crate) fn push_line(cells: &mut Vec<PackedCell>, told: &mut GoalId, line: &Line) -> bool
    requires { vec_len cells.old + 3 ≤ vec_capacity cells.old }
    ensures pushed { result ≡ true → HasLines cells.old.items cells.new.items told.old told.new (line.now ∷ []) }
    ensures left { result ≡ false → (cells.new.items ≡ cells.old.items) × (told.new ≡ told.old) × (vec_len cells.new + 1 ≤ vec_capacity cells.new) }
{
    if let Some((cell, id)) = near_form(line) {
        cells.push_reserved(cell);
        *told = id;
        return true;
    }
    let Some((cell, id)) = form_of(line, *told) else {
        return false;
    };
    tell(cells, told, id);
    cells.push_reserved(cell);
    true
}
