ghost use Rattle.std.specs.Prelude.{◌≡◌, List, [], ◌∷◌, ◌++◌, OnOk, OnErr};
ghost use Rattle.exec_msg.specs.declared.line.Line.{Line};

use crate::line::Line;
use crate::memory::Memory;
use std::alloc::Global;
use std::marker::Model;

/// What the lines of a transcript go to.
pub trait Lines: Drop {
    /// The lines so far.
    ghost lines: { Self → List Line };

    /// Adds a line at the end.
    ///
    /// # Errors
    /// [`Memory`] if a growth was refused. The lines don't change.
    fn add(&mut self, line: &Line) -> Result<(), Memory>
        ensures ok { OnOk result (lines self.new ≡ lines self.old ++ line.now ∷ []) }
        ensures unchanged { OnErr result (lines self.new ≡ lines self.old) };
}

/// The lines of a transcript in their order.
#[derive(Debug, Drop)]
pub struct LineList {
    items: Vec<Line>,
}

impl Model for LineList {
    ghost use Rattle.std.specs.Prelude.{List};
    ghost use Rattle.exec_msg.specs.declared.line.Line.{Line};

    ghost Value = { List Line };

    ghost view = { λ lines. lines.items.items };
}

impl LineList {
    ghost use Rattle.std.specs.Prelude.{◌≡◌, []};
    ghost use Rattle.exec_msg.specs.declared.line.Line.{Line};

    /// No lines. It takes no memory.
    pub fn new(alloc: Global) -> LineList
        ensures { result ≡ [] }
    {
        LineList {
            items: Vec::new(alloc),
        }
    }

    /// The lines in their order.
    pub fn as_slice(&self) -> &[Line]
        ensures { result.now ≡ self.now }
    {
        self.items.as_slice()
    }
}

impl Lines for LineList {
    ghost lines = { λ lines. lines };

    fn add(&mut self, line: &Line) -> Result<(), Memory> {
        push_copy(&mut self.items, line)
    }
}

// A line is pushed behind a reference, so that it is written field by field. One that is handed on as a slice of its own would
// be copied as a whole just after it was made, and a processor waits for that.
#[inline(always)]
pub(crate) fn push_copy<T: Copy + Drop>(items: &mut Vec<T>, item: &T) -> Result<(), Memory>
    ensures ok { OnOk result (items.new.items ≡ items.old.items ++ item.now ∷ []) }
    ensures unchanged { OnErr result (items.new.items ≡ items.old.items) }
{
    items.push(*item)?;
    Ok(())
}
