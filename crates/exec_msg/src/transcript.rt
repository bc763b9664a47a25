//! A transcript's lines, kept in few bytes each. Its text is made of them piece by piece.
ghost use Rattle.std.specs.Prelude.{◌≡◌, ◌+◌, ◌≤◌, ◌++◌, length, take, vec_len, OnOk};
ghost use Rattle.exec_msg.specs.Line.{line_room, line_text};

use crate::line::Line;
use crate::line_texts::LineTexts;
use crate::lines::{Lines, push_copy};
use crate::memory::Memory;
use crate::names::Names;
use crate::numbers::GoalId;
use crate::packed::PackedCell;
use crate::packed::push::push_line;
use crate::packed::said::skip_ids;
use crate::text::{place_line, room_behind};
use std::alloc::Global;
use std::marker::Model;

/// The lines of a transcript in their order. Most take twelve bytes each.
#[derive(Drop)]
pub struct Transcript {
    cells: Vec<PackedCell>,
    // The lines that have no form in cells.
    wholes: Vec<Line>,
    // The identifier that was given last.
    told: GoalId,
}

impl Model for Transcript {
    ghost use Rattle.std.specs.Prelude.{◌≡◌, List};
    ghost use Rattle.exec_msg.specs.declared.line.Line.{Line};
    ghost use Rattle.exec_msg.specs.inner.Packed.{id_behind, lines_in, HaveWholes};

    ghost Value = { List Line };

    ghost view = { λ transcript. lines_in transcript.cells.items 0 transcript.wholes.items };

    ghost invariant = { λ transcript. HaveWholes transcript.cells.items 0 transcript.wholes.items × (id_behind transcript.cells.items 0 ≡ transcript.told) };
}

impl Transcript {
    ghost use Rattle.std.specs.Prelude.{◌≡◌, [], IfOk};
    ghost use Rattle.exec_msg.specs.Line.{transcript_text};

    /// No lines. It takes no memory.
    pub fn new(alloc: Global) -> Transcript
        ensures { result ≡ [] }
    {
        Transcript {
            cells: Vec::new(alloc),
            wholes: Vec::new(alloc),
            told: GoalId::of_halves(0, 0),
        }
    }

    /// A reader of its text, with the names of a graph.
    ///
    /// # Errors
    /// [`Memory`] if a growth was refused.
    pub fn reader<'a>(&'a self, alloc: Global, names: &'a Names) -> Result<TextReader<'a>, Memory>
        ensures { IfOk result (λ reader. reader ≡ record { names = names.now; lines = self.now }) }
    {
        let mut texts = LineTexts::new(alloc, names);
        if self.cells.len() >= MANY_CELLS {
            texts.fill()?;
        }
        Ok(TextReader {
            texts,
            cells: self.cells.as_slice(),
            wholes: self.wholes.as_slice(),
            told: GoalId::of_halves(0, 0),
        })
    }

    /// Its text, with the names of a graph.
    ///
    /// # Errors
    /// [`Memory`] if a growth was refused.
    pub fn text(&self, alloc: Global, names: &Names) -> Result<Vec<u8>, Memory>
        ensures { IfOk result (λ text. text.items ≡ transcript_text names.now self.now) }
    {
        let mut reader = self.reader(alloc, names)?;
        let mut text = Vec::new(alloc);
        let mut end = 0;
        loop {
            lengthen(&mut text, room_behind(end, names)?)?;
            let Some(next) = reader.fill(text.as_mut_slice(), end) else {
                break;
            };
            end = next;
        }
        text.truncate(end);
        Ok(text)
    }
}

// If there are at least this many cells, names are kept as lines have them, and the texts of long numbers are kept for the
// lines that follow. With fewer cells the room for them takes longer to make than the lines.
const MANY_CELLS: usize = 8_192;

// Bytes are made longer by this many more than asked.
const MORE: usize = 65_536;

// Makes bytes at least this long, with zeros at the end. If memory is refused, they don't change.
fn lengthen(bytes: &mut Vec<u8>, length: usize) -> Result<(), Memory>
    ensures ok { OnOk result (length ≤ vec_len bytes.new) }
    ensures front { take (vec_len bytes.old) bytes.new.items ≡ bytes.old.items }
    ensures kept { vec_len bytes.old ≤ vec_len bytes.new }
{
    let longer = length.saturating_add(MORE);
    if bytes.len() < longer {
        bytes.resize(longer, 0)?;
    }
    Ok(())
}

impl Lines for Transcript {
    ghost lines = { λ transcript. transcript };

    #[inline(always)]
    fn add(&mut self, line: &Line) -> Result<(), Memory> {
        self.cells.reserve(3)?;
        if push_line(&mut self.cells, &mut self.told, line) {
            return Ok(());
        }
        push_copy(&mut self.wholes, line)?;
        self.cells.push_reserved(PackedCell::Whole);
        Ok(())
    }
}

/// A transcript whose text is read piece by piece.
#[derive(Drop)]
pub struct TextReader<'a> {
    texts: LineTexts<'a>,
    cells: &'a [PackedCell],
    wholes: &'a [Line],
    // The identifier that was given last.
    told: GoalId,
}

impl<'a> Model for TextReader<'a> {
    ghost use Rattle.exec_msg.specs.Left.{LinesLeft};
    ghost use Rattle.exec_msg.specs.inner.Packed.{lines_in};

    ghost Value = { LinesLeft };

    ghost view = { λ reader. record { names = reader.texts; lines = lines_in reader.cells.now reader.told reader.wholes.now } };
}

impl<'a> TextReader<'a> {
    ghost use Rattle.std.specs.Prelude.{◌≡◌, ◌⊎◌, ◌++◌, ◌+◌, ◌<◌, ◌≤◌, [], length, nat_le, take, IfSome, IfNone, IfOk};
    ghost use Rattle.exec_msg.specs.Line.{line_room, transcript_text};

    /// A buffer that has the room of at least one line.
    ///
    /// # Errors
    /// [`Memory`] if a growth was refused.
    pub fn buffer(&self, alloc: Global) -> Result<Vec<u8>, Memory>
        ensures { IfOk result (λ buffer. line_room self.now.names ≤ length buffer.items) }
    {
        let mut buffer = Vec::new(alloc);
        lengthen(&mut buffer, room_behind(0, self.texts.names.names())?)?;
        Ok(buffer)
    }

    /// Whether a buffer has the room of a line at a place.
    pub fn has_room(&self, buffer: &[u8], at: usize) -> bool
        ensures { result ≡ nat_le (at + line_room self.now.names) (length buffer.now) }
    {
        match room_behind(at, self.texts.names.names()) {
            Ok(room) => room <= buffer.len(),
            Err(_) => false,
        }
    }

    /// Puts the text of the next lines at a place of a buffer that has the room of one line. It puts as many lines as there is
    /// room for. Gives the end of the text, or `None` if no line is left. The bytes after the end may change.
    // It isn't inlined, because the registers of a caller would leave its loop too few.
    #[inline(never)]
    pub fn fill(&mut self, buffer: &mut [u8], at: usize) -> Option<usize>
        requires { at + line_room self.old.names ≤ length buffer.old }
        ensures text { IfSome result (λ end. take at buffer.old ++ transcript_text self.old.names self.old.lines
            ≡ take end buffer.new ++ transcript_text self.old.names self.new.lines) }
        ensures within { IfSome result (λ end. end ≤ length buffer.new) }
        ensures shorter { IfSome result (λ _. length self.new.lines < length self.old.lines) }
        ensures full { IfSome result (λ end. (self.new.lines ≡ []) ⊎ (length buffer.new < end + line_room self.old.names)) }
        ensures none { IfNone result (self.old.lines ≡ []) }
        ensures same_buffer { IfNone result (buffer.new ≡ buffer.old) }
        ensures names { self.new.names ≡ self.old.names }
        ensures same_length { length buffer.new ≡ length buffer.old }
    {
        let last = self.last_place(buffer);
        let mut left = Left {
            cells: self.cells,
            wholes: self.wholes,
            told: self.told,
        };
        let mut end = left.place_next(&mut self.texts, buffer, at)?;
        while end <= last {
            let Some(next) = left.place_next(&mut self.texts, buffer, end) else {
                break;
            };
            end = next;
        }
        self.cells = left.cells;
        self.wholes = left.wholes;
        self.told = left.told;
        Some(end)
    }

    // The last place of a buffer at which a line has its room.
    fn last_place(&self, buffer: &[u8]) -> usize
        requires { line_room self.now.names ≤ length buffer.now }
        ensures { result + line_room self.now.names ≡ length buffer.now }
    {
        match room_behind(0, self.texts.names.names()) {
            Ok(room) => buffer.len() - room,
            Err(_) => 0,
        }
    }
}

// The lines that are left, in local variables while a buffer is filled.
#[derive(Drop)]
struct Left<'a> {
    cells: &'a [PackedCell],
    wholes: &'a [Line],
    // The identifier that was given last.
    told: GoalId,
}

impl<'a> Model for Left<'a> {
    ghost use Rattle.std.specs.Prelude.{List};
    ghost use Rattle.exec_msg.specs.declared.line.Line.{Line};
    ghost use Rattle.exec_msg.specs.inner.Packed.{lines_in};

    ghost Value = { List Line };

    ghost view = { λ left. lines_in left.cells.now left.told left.wholes.now };
}

impl<'a> Left<'a> {
    ghost use Rattle.std.specs.Prelude.{◌≡◌, ◌++◌, ◌+◌, ◌≤◌, [], length, take, IfSome, IfNone};
    ghost use Rattle.exec_msg.specs.Line.{line_room, transcript_text};

    // Puts the text of the next line at a place, and gives its end, if a line is left.
    #[inline(always)]
    fn place_next(
        &mut self,
        texts: &mut LineTexts<'_>,
        buffer: &mut [u8],
        at: usize,
    ) -> Option<usize>
        requires { at + line_room texts.old ≤ length buffer.old }
        ensures text { IfSome result (λ end. take at buffer.old ++ transcript_text texts.old self.old
            ≡ take end buffer.new ++ transcript_text texts.old self.new) }
        ensures within { IfSome result (λ end. end ≤ length buffer.new) }
        ensures shorter { IfSome result (λ _. length self.new + 1 ≡ length self.old) }
        ensures none { IfNone result (self.old ≡ []) }
        ensures unchanged { IfNone result (self.new ≡ self.old) }
        ensures names { texts.new ≡ texts.old }
        ensures same_buffer { IfNone result (buffer.new ≡ buffer.old) }
        ensures same_length { length buffer.new ≡ length buffer.old }
    {
        let (cells, told) = skip_ids(self.cells, self.told);
        let [cell, behind @ ..] = cells else {
            return None;
        };
        if let Some((line, told_behind)) = cell.line(told) {
            self.cells = behind;
            self.told = told_behind;
            return Some(place_line(&line, texts, buffer, at));
        }
        let [whole, wholes @ ..] = self.wholes else {
            return None;
        };
        self.cells = behind;
        self.wholes = wholes;
        self.told = told;
        Some(place_whole(whole, texts, buffer, at))
    }
}

// A line that has no form in cells. It isn't inlined, because few lines have none.
#[inline(never)]
fn place_whole(line: &Line, texts: &mut LineTexts<'_>, buffer: &mut [u8], at: usize) -> usize
    requires { at + line_room texts.old ≤ length buffer.old }
    ensures text { take result buffer.new ≡ take at buffer.old ++ line_text texts.old line.now }
    ensures within { result ≤ at + line_room texts.old }
    ensures names { texts.new ≡ texts.old }
{
    place_line(line, texts, buffer, at)
}
