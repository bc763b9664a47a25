//! How a text is written.
ghost use Rattle.std.specs.Prelude.{◌≡◌, ℕ, ◌+◌, ◌-◌, ◌++◌, ◌≤◌, true, length, take, OnOk, OnErr};
ghost use Rattle.std.specs.Io.KnownBytes.{Appends};
ghost use Rattle.exec_msg.specs.Line.{line_room, transcript_text};

use crate::out::{Out, OutFailed, Through};
use exec_msg::TextReader;
use std::io::Write;

// A long text is written in blocks of this many bytes. They begin where a file's pages begin.
const BLOCK: usize = 65_536;

/// Writes all of a text, and flushes the writer. Each turn takes at least one byte or ends the writing. An error of any kind
/// ends it as a fault, and so does a turn that takes nothing.
///
/// # Errors
/// [`OutFailed`] if the writer failed. What it was given is then a front of the text.
pub fn write_text<W: Write>(through: &mut Through<W>, text: &[u8]) -> Result<(), OutFailed>
    ensures ok { OnOk result (Appends through.old.sink.contents through.new.sink.contents text.now) }
    ensures flushed { OnOk result (through.new.flushed ≡ true) }
    ensures failed { OnErr result (through.new.sink.failed ≡ true) }
    ensures front { (count : ℕ)
        × Appends through.old.sink.contents through.new.sink.contents (take count text.now) }
{
    put_all(through, text)?;
    through.flush()
}

// Puts all of a text.
fn put_all<O: Out>(out: &mut O, text: &[u8]) -> Result<(), OutFailed>
    ensures ok { OnOk result (Appends (O.sink out.old).contents (O.sink out.new).contents text.now) }
    ensures sound { OnOk result ((O.sink out.new).failed ≡ (O.sink out.old).failed) }
    ensures failed { OnErr result ((O.sink out.new).failed ≡ true) }
    ensures front { (count : ℕ) × (count ≤ length text.now)
        × Appends (O.sink out.old).contents (O.sink out.new).contents (take count text.now) }
{
    let mut written = 0;
    while written < text.len() {
        written += out.put(&text[written..])?;
    }
    Ok(())
}

/// Puts the text of the lines that a reader has left. It fills a buffer again and again. The buffer has the room of a line.
///
/// # Errors
/// [`OutFailed`] if a `put` failed. What was put is then a front of the text.
pub fn put_pieces<O: Out>(
    out: &mut O,
    reader: &mut TextReader<'_>,
    buffer: &mut [u8],
) -> Result<(), OutFailed>
    requires { line_room reader.old.names ≤ length buffer.old }
    ensures ok { OnOk result (Appends (O.sink out.old).contents (O.sink out.new).contents (transcript_text reader.old.names reader.old.lines)) }
    ensures sound { OnOk result ((O.sink out.new).failed ≡ (O.sink out.old).failed) }
    ensures failed { OnErr result ((O.sink out.new).failed ≡ true) }
    ensures front { (count : ℕ)
        × Appends (O.sink out.old).contents (O.sink out.new).contents (take count (transcript_text reader.old.names reader.old.lines)) }
{
    let mut at = 0;
    while let Some(end) = reader.fill(buffer, at) {
        at = bytes_behind(reader, buffer, end);
        put_front(out, buffer, end, at)?;
    }
    put_all(out, &buffer[..at])
}

// How many of the bytes up to an end wait for the next block. These are the bytes after the last whole block, if they leave
// room for a line, and else none.
fn bytes_behind(reader: &TextReader<'_>, buffer: &[u8], end: usize) -> usize
    requires { line_room reader.now.names ≤ length buffer.now }
    ensures within { result ≤ end }
    ensures room { result + line_room reader.now.names ≤ length buffer.now }
{
    let behind = end % BLOCK;
    if reader.has_room(buffer, behind) {
        behind
    } else {
        0
    }
}

// Puts the bytes up to an end, except the last `behind` ones. Those are moved to the front.
fn put_front<O: Out>(
    out: &mut O,
    buffer: &mut [u8],
    end: usize,
    behind: usize,
) -> Result<(), OutFailed>
    requires { (behind ≤ end) × (end ≤ length buffer.old) }
    ensures ok { OnOk result (Appends (O.sink out.old).contents (O.sink out.new).contents (take (end - behind) buffer.old)) }
    ensures sound { OnOk result ((O.sink out.new).failed ≡ (O.sink out.old).failed) }
    ensures moved { OnOk result (take (end - behind) buffer.old ++ take behind buffer.new ≡ take end buffer.old) }
    ensures failed { OnErr result ((O.sink out.new).failed ≡ true) }
    ensures front { (count : ℕ) × (count ≤ length (take (end - behind) buffer.old))
        × Appends (O.sink out.old).contents (O.sink out.new).contents (take count (take (end - behind) buffer.old)) }
    ensures same_length { length buffer.new ≡ length buffer.old }
{
    let count = end - behind;
    put_all(out, &buffer[..count])?;
    buffer.copy_within(count..end, 0);
    Ok(())
}
