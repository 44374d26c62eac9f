// Compares the messages in the files `first.bin` and `second.bin` of the current folder, and writes what differs between them: docs/RULES.md, 'Two files
// side by side'.
// Both files are read before anything is judged. Neither is changed.
// Here is what is done in which order; the files are read by program_files, and what is written for their bytes is decided in comparison_verdict.
#![tactic(auto)]

ghost use Rattle.compare_messages.specs.Program.{FilesReported};

use comparison::COMPARISON_MOST;
use program_files::FILE_ROOM;
use std::io;
use std::rt::Files;

// Reads both files, and writes what the program writes for them to the front of the lent room. Returns its size.
fn write_files<R: Files>(rt: &R, out: &mut [u8]) -> usize
    ensures { FilesReported out.old out.new result }
{
    let mut room = [0u8; FILE_ROOM];
    let mut other = [0u8; FILE_ROOM];
    let first = program_files::read_file(rt, b"first.bin", &mut room);
    let second = program_files::read_file(rt, b"second.bin", &mut other);
    comparison_verdict::write_compared(first, &room, second, &other, out)
}

fn main(rt: HostRuntime) -> io::Result<()> {
    let mut out = [0u8; COMPARISON_MOST];
    let size = write_files(&rt, &mut out);
    rt.write_all(&out[..size])
}
