// Writes the normal form of the recording on standard input to standard output. On a refusal one line on standard error tells its number and
// place, and what was written stays. Memory is two arrays, whatever the input's length.
#![tactic(auto)]

ghost use Rattle.std.specs.Prelude.{◌≡◌, ◌≤◌, length};

use format::refusal::Refused;
use input_pieces::{Filled, Stop};

// Why the program ends before the input does.
#[derive(Clone, Copy)]
enum Failure {
    Refused(Refused),
    Input,
    Output,
}

// A block has at most 8,016 bytes, so that a full array holds a whole one; and its normal form has no more bytes than it, so that the output
// is never short of room.
fn room() -> [u8; 262144]
    ensures { 262144 ≡ length result }
{
    [0; 262144]
}

fn put(rt: &HostRuntime, bytes: &[u8]) -> Result<(), Failure> {
    rt.write_all(bytes).map_err(|_| Failure::Output)
}

// Normalises the blocks from a place of the input array on, and all that follow. The loop counts its turns, up to a number that no run
// uses up, since nothing says that the input ends.
fn write_blocks(
    rt: &HostRuntime,
    input: &mut [u8],
    output: &mut [u8],
    filled: Filled,
    from: usize,
) -> Result<(), Failure>
    requires { (from ≤ filled.len) × (filled.len ≤ length input.old) }
{
    let mut scene = dem_messages::start();
    let mut filled = filled;
    let mut start = from;
    let mut before = from;
    for _ in 0..u64::MAX {
        let last = filled.stop == Stop::Ended;
        let bytes = &input[start..filled.len];
        let piece = dem_stream::normal_piece(scene, bytes, last, before, output);
        put(rt, &output[..piece.written])?;
        if let Some(refused) = piece.refused {
            return Err(Failure::Refused(refused));
        }
        if last {
            return Ok(());
        }
        scene = piece.scene;
        before = dem_stream::place_behind(before, piece.used);
        let left = dem_stream::move_front(input, start + piece.used, filled.len);
        filled = input_pieces::fill(&mut rt.stdin(), input, left);
        if filled.stop == Stop::Failed {
            return Err(Failure::Input);
        }
        start = 0;
    }
    Err(Failure::Input)
}

fn write_all(rt: &HostRuntime, input: &mut [u8], output: &mut [u8]) -> Result<(), Failure> {
    let filled = input_pieces::fill(&mut rt.stdin(), input, 0);
    if filled.stop == Stop::Failed {
        return Err(Failure::Input);
    }
    let last = filled.stop == Stop::Ended;
    let line = dem_stream::first_line(&input[..filled.len], last, output);
    if let Some(refused) = line.refused {
        return Err(Failure::Refused(refused));
    }
    put(rt, &output[..line.written])?;
    write_blocks(rt, input, output, filled, line.used)
}

// One in each program that says something there: a crate of its own for a line would be no plainer.
// Where standard error takes nothing either, nobody can be told.
fn complain(rt: &HostRuntime, text: &[u8]) {
    let _ = rt.stderr().write_all(text);
}

fn tell(rt: &HostRuntime, failure: Failure) {
    match failure {
        Failure::Refused(r) => {
            let line = report::refusal_line(u8::from(r.refusal), r.place);
            complain(rt, &line.text[..line.len]);
        }
        Failure::Input => complain(rt, b"demnorm: cannot read standard input\n"),
        Failure::Output => complain(rt, b"demnorm: cannot write standard output\n"),
    }
}

fn main(rt: HostRuntime) {
    let mut input = room();
    let mut output = room();
    if let Err(failure) = write_all(&rt, &mut input, &mut output) {
        tell(&rt, failure);
    }
}
