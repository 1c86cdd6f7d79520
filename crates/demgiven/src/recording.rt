// The scene after the good blocks of the recording on standard input.
ghost use Rattle.std.specs.Prelude.{◌≤◌, length};

use dem_scene::Scene;
use input_pieces::{Filled, Stop};
use std::io;

// That a read failed.
#[derive(Clone, Copy)]
pub struct ReadFailed;

// The scene, where no read failed.
fn unless_failed(scene: Scene, stop: Stop) -> Result<Scene, ReadFailed> {
    match stop {
        Stop::Failed => Err(ReadFailed),
        _ => Ok(scene),
    }
}

// The blocks from a place of the array on, and all that follow. A full array holds a whole block, so where nothing is read at its start no
// good block follows. The turns count up to a number that no run uses up, since nothing says that the input ends.
fn after_blocks<R: io::Read>(
    reader: &mut R,
    input: &mut [u8],
    filled: Filled,
    from: usize,
) -> Result<Scene, ReadFailed>
    requires { filled.len ≤ length input.old }
{
    let mut scene = dem_messages::start();
    let mut filled = filled;
    let mut at = from;
    for _ in 0..u64::MAX {
        let reply = dem_recordings::read_blocks_at(scene, &input[..filled.len], at);
        scene = reply.scene;
        if let Ok(progress) = reply.answer {
            at = progress.next;
        }
        if filled.stop != Stop::Full || at == 0 {
            return unless_failed(scene, filled.stop);
        }
        let left = dem_stream::move_front(input, at, filled.len);
        filled = input_pieces::fill(reader, input, left);
        at = 0;
    }
    unless_failed(scene, filled.stop)
}

fn after_all<R: io::Read>(reader: &mut R, input: &mut [u8]) -> Result<Scene, ReadFailed> {
    let filled = input_pieces::fill(reader, input, 0);
    match dem_recordings::read_track(&input[..filled.len]) {
        Ok(track) => after_blocks(reader, input, filled, track.next),
        Err(_) => unless_failed(dem_messages::start(), filled.stop),
    }
}

pub fn scene_after<R: io::Read>(reader: &mut R) -> Result<Scene, ReadFailed> {
    let mut input = [0; 65536];
    after_all(reader, &mut input)
}
