// From the bytes of `first.bin` and `second.bin` to what the program `compare_messages` writes: docs/RULES.md, 'Two files side by side'.
// Either file may be one that is not judged (file_verdict, `within_limit`); two that are go to the comparison, whose lines or refusal are written.
// Not here: reading the files (program_files), and the comparison itself (comparison).
#![tactic(auto)]

ghost use Rattle.std.specs.Prelude.{◌≡◌, length};
ghost use Rattle.verdict_line.specs.Line.{size_in, out_after};
ghost use Rattle.file_verdict.specs.Files.{file_in};
ghost use Rattle.comparison_verdict.specs.Report.{report_of, report_for};

use comparison::COMPARISON_MOST;
use verdict_line::Line;

// Writes the lines of two messages, or the line of their refusal. The lines are made in a room that they always fit, so that what is written doesn't depend
// on the lent one.
fn write_messages(first: &[u8], second: &[u8], out: &mut [u8]) -> usize
    ensures size { result ≡ size_in (report_of first.now second.now) (length out.old) }
    ensures content { out.new ≡ out_after (report_of first.now second.now) out.old }
{
    let mut lines = [0u8; COMPARISON_MOST];
    match comparison::compare(first, second, &mut lines) {
        Err(refusal) => verdict_line::write_line(out, Line::Refused(refusal)),
        Ok(size) => verdict_line::add_bytes(out, 0, &lines[..size]),
    }
}

// Writes what the program writes to the front of the lent room and returns how many bytes it wrote, where `room` was lent for the first file and `other` for
// the second. Later bytes stay as they were. Where the room is too small it writes nothing, so that is 0; COMPARISON_MOST bytes are enough.
// Sizes beside rooms, as `within_limit` takes them: a size past a room's end is answered too.
pub fn write_compared(
    first: Option<usize>,
    room: &[u8],
    second: Option<usize>,
    other: &[u8],
    out: &mut [u8],
) -> usize
    ensures size { result ≡ size_in (report_for (file_in room.now first) (file_in other.now second)) (length out.old) }
    ensures content { out.new ≡ out_after (report_for (file_in room.now first) (file_in other.now second)) out.old }
{
    let Some(size) = file_verdict::within_limit(first, room) else {
        return verdict_line::write_line(out, Line::Unreadable);
    };
    let Some(other_size) = file_verdict::within_limit(second, other) else {
        return verdict_line::write_line(out, Line::Unreadable);
    };
    write_messages(&room[..size], &other[..other_size], out)
}
