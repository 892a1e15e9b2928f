// The lines of a file that is read in chunks. Nothing is read here: a chunk is lent, and how many bytes a read gave is told.
#![tactic(auto)]

ghost use Rattle.std.specs.Prelude.{◌≡◌, ◌+◌, ◌≤◌, ◌++◌, length, take, drop};
ghost use Rattle.print.specs.Put.{Put};
ghost use Rattle.parse.specs.Line.{before};
ghost use Rattle.lines.specs.Sizes.{chunk_bytes, held_bytes};
ghost use Rattle.lines.specs.Inside.{Inside};
ghost use Rattle.lines.specs.Texts.{kept, to_lf};
ghost use Rattle.lines.specs.Steps.{no_line, with_line, without_line, chunked, closing, filled_by, Scanned};

use parse::line::{MOST_BYTES, find, without_cr};
use print::put;
use stream::Errno;

// What is read at once.
pub const CHUNK_BYTES: usize = 65536;

// A line as it is held: one byte more than the longest shows that it is too long.
pub const HELD_BYTES: usize = MOST_BYTES + 1;

// How many lines have ended; how many bytes the chunk has, and how many of them are read; how many bytes of the next line are held; and
// whether more may come.
#[derive(Clone, Copy)]
pub struct Lines {
    pub ended: u64,
    pub count: usize,
    pub read: usize,
    pub held: usize,
    pub more: bool,
}

// What a step finds: a line that has ended, of so many bytes at the start of its buffer; nothing yet; the end of the file; or an error.
#[derive(Clone, Copy)]
pub enum Found {
    Line(usize),
    Nothing,
    End,
    Failed(Errno),
}

// The lines after a step, and what it found.
#[derive(Clone, Copy)]
pub struct Step {
    pub lines: Lines,
    pub found: Found,
}

// No line is read yet.
pub fn first() -> Lines
    ensures { (result ≡ no_line) × Inside result }
{
    Lines {
        ended: 0,
        count: 0,
        read: 0,
        held: 0,
        more: true,
    }
}

fn without_line(lines: Lines, found: Found) -> Step
    ensures { result ≡ without_line lines found }
{
    Step {
        lines: lines,
        found: found,
    }
}

fn with_line(mut lines: Lines, length: usize) -> Step
    ensures { result ≡ with_line lines length }
{
    lines.ended = std::num::wrapping_add_u64(lines.ended, 1);
    lines.held = 0;
    Step {
        lines: lines,
        found: Found::Line(length),
    }
}

// Where the line that is read ends in the chunk, at its LF or at the chunk's end, and how many bytes of it are held.
#[derive(Clone, Copy)]
struct Part {
    end: usize,
    held: usize,
}

// Puts the bytes up to the next LF behind those that are held of a line, as many as are kept.
fn gather(chunk: &[u8], read: usize, line: &mut [u8], held: usize) -> Part
    requires { (read ≤ length chunk.now) × (held ≤ held_bytes) × (held_bytes ≤ length line.old) }
    ensures { (result.end ≡ read + before 10 (drop read chunk.now)) × (result.end ≤ length chunk.now)
        × Put line.old 0 (kept (take held line.old ++ to_lf (drop read chunk.now))) line.new
        result.held }
{
    let end = find(chunk, read, b'\n');
    let room = HELD_BYTES - held;
    if room < end - read {
        let stop = read + room;
        return Part {
            end: end,
            held: put(line, held, &chunk[read..stop]),
        };
    }
    Part {
        end: end,
        held: put(line, held, &chunk[read..end]),
    }
}

// One step in a chunk: to the end of a line, which then stands at the start of `line`, or to the end of the chunk.
pub fn scan(mut lines: Lines, chunk: &[u8], line: &mut [u8]) -> Step
    requires { Inside lines × (length chunk.now ≡ chunk_bytes) × (length line.old ≡ held_bytes) }
    ensures { Scanned lines chunk.now line.old line.new result }
{
    let count = lines.count;
    let part = gather(&chunk[..count], lines.read, line, lines.held);
    let end = part.end;
    let held = part.held;
    if end < count {
        lines.read = end + 1;
        return with_line(lines, without_cr(&line[..held]));
    }
    lines.read = end;
    lines.held = held;
    if lines.more {
        return without_line(lines, Found::Nothing);
    }
    without_line(lines, Found::End)
}

// At the start of a chunk of `count` bytes, behind which more may come or not.
fn chunked(mut lines: Lines, count: usize, more: bool) -> Lines
    ensures { result ≡ chunked lines count more }
{
    lines.read = 0;
    lines.count = count;
    lines.more = more;
    lines
}

// At the end of the file a last line without LF counts: what is held of it.
fn closing(lines: Lines) -> Step
    ensures { result ≡ closing lines }
{
    if lines.held > 0 {
        return with_line(lines, lines.held);
    }
    without_line(lines, Found::End)
}

// What comes of a read into the chunk, which gave so many bytes, none at the end of the file, or was stopped by an error.
#[tactic(auto, unfolding(crate::specs::Steps::filled_by))]
pub fn filled(lines: Lines, got: Result<usize, Errno>) -> Step
    ensures { result ≡ filled_by lines got }
{
    match got {
        Ok(0) => closing(chunked(lines, 0, false)),
        Ok(count) => without_line(chunked(lines, count, lines.more), Found::Nothing),
        Err(error) => without_line(chunked(lines, 0, false), Found::Failed(error)),
    }
}
