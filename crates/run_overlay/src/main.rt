// What an overlay shows: for each block of the recording on standard input its place, and how many entities are present after it. That
// number comes with the scene that the block leaves; the program looks at no mark.
#![tactic(auto)]

ghost use Rattle.std.specs.Prelude.{◌≤◌, length};

use format::refusal::Refused;
use input_pieces::{Filled, Stop};
use std::io;

fn complain(rt: &impl Eprint) -> io::Result<()> {
    eprintln!(rt; "run_overlay: cannot read standard input")
}

// A refusal in an array behind so many bytes of the recording.
fn refused(rt: &impl Print, r: Refused, before: usize) -> io::Result<()> {
    let r = Refused {
        refusal: r.refusal,
        place: dem_stream::place_behind(before, r.place),
    };
    println!(rt; "{r}")
}

// The blocks from a place of the array on, and all that follow. A full array holds a whole block, so that one refused at its start is refused
// for good. The turns count up to a number that no run uses up, since nothing says that the input ends.
fn show_blocks(rt: &HostRuntime, input: &mut [u8], filled: Filled, from: usize) -> io::Result<()>
    requires { filled.len ≤ length input.old }
{
    let mut scene = dem_messages::start();
    let mut filled = filled;
    let mut at = from;
    let mut before = 0;
    for _ in 0..u64::MAX {
        let reply = dem_recordings::read_block_at(scene, &input[..filled.len], at);
        if let Ok(Some(outline)) = reply.answer {
            scene = reply.scene;
            let place = dem_stream::place_behind(before, at);
            println!(rt; "block {place} present {}", scene.present_count)?;
            at = outline.next;
            continue;
        }
        if filled.stop == Stop::Ended || at == 0 {
            return match reply.answer {
                Err(r) => refused(rt, r, before),
                Ok(_) => println!(rt; "accepted"),
            };
        }
        before = dem_stream::place_behind(before, at);
        let left = dem_stream::move_front(input, at, filled.len);
        filled = input_pieces::fill(&mut rt.stdin(), input, left);
        if filled.stop == Stop::Failed {
            return complain(rt);
        }
        at = 0;
    }
    complain(rt)
}

fn show(rt: &HostRuntime, input: &mut [u8]) -> io::Result<()> {
    let filled = input_pieces::fill(&mut rt.stdin(), input, 0);
    if filled.stop == Stop::Failed {
        return complain(rt);
    }
    match dem_recordings::read_track(&input[..filled.len]) {
        Ok(track) => show_blocks(rt, input, filled, track.next),
        Err(r) => refused(rt, r, 0),
    }
}

fn main(rt: HostRuntime) -> io::Result<()> {
    let mut input = [0; 65536];
    show(&rt, &mut input)
}
