// What is printed of a recording: a refusal, or what it holds and the scene after it.
use dem_recordings::read_recording;
use dem_text::lines::scene_lines;
use dem_text::page::Page;
use std::{fmt, io};

fn recording(w: &mut impl fmt::Write, bytes: &[u8]) -> fmt::Result {
    let reply = read_recording(bytes);
    match reply.answer {
        Ok(summary) => {
            write!(w, "accepted\ntrack {}", summary.track)?;
            write!(w, "\nblocks {}", summary.blocks)?;
            write!(w, "\nmessages {}", summary.messages)?;
            scene_lines(w, &reply.scene)
        }
        Err(refused) => writeln!(w, "{refused}"),
    }
}

pub fn show(rt: &impl Print, bytes: &[u8]) -> io::Result<()> {
    let mut room = [0; 65536];
    let mut page = Page::new(rt, &mut room);
    recording(&mut page, bytes)?;
    page.finish()
}
