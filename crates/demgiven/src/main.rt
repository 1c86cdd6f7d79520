// A scene changed by hand and handed in: the scene after the good blocks of the recording on standard input, changed by the words that are
// the arguments, and what is then answered for a message.
#![tactic(auto)]

mod numbers;
mod recording;
mod words;

ghost use Rattle.std.specs.Prelude.{◌≡◌, length};

use dem_text::lines::scene_lines;
use dem_text::page::Page;
use recording::ReadFailed;
use std::env::{Env, FillError};
use std::{fmt, io};
use words::Given;

// No argument is longer.
fn word_room() -> [u8; 131072]
    ensures { 131072 ≡ length result }
{
    [0; 131072]
}

// Where standard error takes nothing either, nobody can be told.
fn complain(rt: &HostRuntime, text: &[u8]) {
    let _ = rt.stderr().write_all(text);
}

// Changes what is given as all words say, and answers whether none was wrong.
fn are_good(rt: &HostRuntime, given: &mut Given, asked: &mut [u8]) -> bool {
    let mut room = word_room();
    for i in 1..usize::MAX {
        let len = match rt.arg(i, &mut room) {
            Ok(len) => len,
            Err(FillError::TooLong) => 0,
            Err(FillError::NotPresent) => return true,
        };
        let word = &room[..len];
        if words::change(given, word, asked).is_none() {
            complain(rt, b"wrong word ");
            complain(rt, word);
            complain(rt, b"\n");
            return false;
        }
    }
    true
}

fn answer_lines(w: &mut impl fmt::Write, given: &Given, bytes: &[u8]) -> fmt::Result {
    let reply = dem_messages::read_message_at(given.scene, bytes, given.at);
    match reply.answer {
        Ok(Some(found)) => {
            write!(w, "next {}", found.next)?;
            scene_lines(w, &reply.scene)
        }
        Ok(None) => w.write_str("end\n"),
        Err(refused) => writeln!(w, "{refused}"),
    }
}

fn show(rt: &impl Print, given: &Given, asked: &[u8]) -> io::Result<()> {
    let mut room = [0; 65536];
    let mut page = Page::new(rt, &mut room);
    if let Some(bytes) = asked.get(..given.count) {
        answer_lines(&mut page, given, bytes)?;
    }
    page.finish()
}

fn main(rt: HostRuntime) {
    let scene = match recording::scene_after(&mut rt.stdin()) {
        Ok(scene) => scene,
        Err(ReadFailed) => {
            complain(&rt, b"demgiven: cannot read standard input\n");
            return;
        }
    };
    let mut asked = [0u8; 8192];
    let mut given = Given {
        scene,
        count: 0,
        at: 0,
    };
    if are_good(&rt, &mut given, &mut asked) && show(&rt, &given, &asked).is_err() {
        complain(&rt, b"a write of the output failed\n");
    }
}
