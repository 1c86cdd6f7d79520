// Cases, a line of standard input each, through the public entries: the line is shown again, and behind it what was answered. A line is a
// letter, then bytes in hex: a place, a length, and the bytes that are asked of. Behind a capital letter, which asks what the small one does,
// the place and the length have two bytes each, and the bytes are packed: runs of a length (two bytes), how many bytes repeat (one), and these.
// A scene and seventeen player lines go from line to line. scripts/compare-cases has the second reader answer the same lines.
//
//   s  all messages of the bytes, in the scene at the start     o  the scene out of its ranges, with 129 statics
//   c  the scene with the number of present marks that the first two bytes say, whatever its marks are
//   e  the baseline and the record of the entity that the first two bytes name
//   m  the message at the place, written back into room of the length
//   n  the normal form of the message at the place, into room of the length; k of the block there; b of all blocks from there on
//   p  a message that was made, into such room: the place is 3 for a stat and 8 for a print, of the first two bytes, 23 for a temporary
//      entity of four (its type; 0 for a point, 1 for a line, else an explosion2, which holds no type; a line's entity), else a nop
//   w  a block's messages by a walker, in three steps, and then all at once
//   a  a recording; h its track line; d the block at the place; g all blocks from there on
//   r  the normal form of a recording, into room of the length; t of its track line
//   i  frags (two bytes) and colours of every line that can be lent
//   l  so many lines lent: for a change, which is the first four bytes (its kind, a player, a value), and for the message at the place behind
#![tactic(auto)]

mod forms;
mod hex;
mod lent;
mod messages;
mod recordings;

ghost use Rattle.std.specs.Prelude.{◌≡◌, length};

use dem_scene::{PlayerLine, Scene};
use std::io;

// What goes from line to line.
#[derive(Drop)]
struct State {
    scene: Scene,
    lines: [PlayerLine; 17],
}

// What a line asks: its letter as a small one, a place, and the bytes that it is asked of.
#[derive(Clone, Copy)]
struct Case<'a> {
    letter: u8,
    place: usize,
    bytes: &'a [u8],
}

fn start() -> State {
    State {
        scene: dem_messages::start(),
        lines: [PlayerLine::CLEARED; 17],
    }
}

// The scene that what was asked leaves.
fn scene_after(
    rt: &impl Print,
    scene: Scene,
    case: Case<'_>,
    room: &mut [u8],
) -> io::Result<Scene> {
    match case.letter {
        b'a' => recordings::read(rt, case),
        b'h' => recordings::track(rt, scene, case),
        b'd' => recordings::block(rt, scene, case),
        b'g' => recordings::blocks(rt, scene, case),
        b'k' => forms::normal(rt, scene, case, room),
        b'b' => forms::normal_all(rt, scene, case, room),
        b'r' => forms::recording(rt, case, room),
        b't' => forms::track(rt, scene, case, room),
        _ => messages::ask(rt, scene, case, room),
    }
}

const MOST_ROOM: usize = 2304;

// Room that holds EE.
fn room() -> [u8; MOST_ROOM]
    ensures { 2304 ≡ length result }
{
    [238; MOST_ROOM]
}

// A case with room of so many bytes; where there is not so much, nothing is asked.
fn ask(rt: &impl Print, s: State, case: Case<'_>, len: usize) -> io::Result<State> {
    if MOST_ROOM < len {
        return Ok(s);
    }
    let mut room = room();
    let lines = lent::ask(rt, s.lines, len, s.scene, case)?;
    let scene = scene_after(rt, s.scene, case, &mut room[..len])?;
    Ok(State { scene, lines })
}

// Behind a small letter: a place, a length, and the bytes.
fn short(rt: &impl Print, s: State, letter: u8, line: &[u8]) -> io::Result<State> {
    match line {
        [place, len, bytes @ ..] => {
            let case = Case {
                letter,
                place: usize::from(*place),
                bytes,
            };
            ask(rt, s, case, usize::from(*len))
        }
        _ => Ok(s),
    }
}

// Behind a capital letter: both in two bytes, and the bytes packed.
fn long(rt: &impl Print, s: State, letter: u8, line: &[u8]) -> io::Result<State> {
    match line {
        [p, q, l, m, packed @ ..] => {
            let mut bytes = [0u8; 8192];
            let count = hex::unpack(packed, &mut bytes);
            match bytes.get(..count) {
                Some(bytes) => {
                    let case = Case {
                        letter,
                        place: usize::from(u16::from_be_bytes([*p, *q])),
                        bytes,
                    };
                    ask(rt, s, case, usize::from(u16::from_be_bytes([*l, *m])))
                }
                None => Ok(s),
            }
        }
        _ => Ok(s),
    }
}

fn line(rt: &impl Print, s: State, text: &[u8]) -> io::Result<State> {
    rt.write_all(text)?;
    print!(rt; "\n")?;
    let mut bytes = [0u8; 512];
    let len = hex::decode(text, &mut bytes);
    let (Some(letter), Some(asked)) = (text.first(), bytes.get(..len)) else {
        return Ok(s);
    };
    match *letter {
        b'a'..=b'z' => short(rt, s, *letter, asked),
        b'A'..=b'Z' => long(rt, s, letter.to_ascii_lowercase(), asked),
        _ => Ok(s),
    }
}

fn run(rt: &impl Print, text: &[u8]) -> io::Result<()> {
    let mut s = start();
    let mut at = 0;
    // By `find`, whose promise has edits of its own, and not by `split`.
    while at < text.len() {
        let end = run_show::find(text, at, b'\n');
        s = line(rt, s, &text[at..end])?;
        at = end + 1;
    }
    Ok(())
}

fn main(rt: HostRuntime) -> io::Result<()> {
    let mut text = [0; 65536];
    let filled = input_pieces::fill(&mut rt.stdin(), &mut text, 0);
    run(&rt, &text[..filled.len])
}
