// The entries over track lines, blocks and recordings: any bytes and any scene get an answer. None has a `requires`.
#![tactic(auto)]

ghost use Rattle.std.specs.Prelude.{◌≡◌, ◌≢◌, true, false, ◌≤◌, length, drop, Some};
ghost use Rattle.format.specs.Refusals.{refusal_in, place_in};
ghost use Rattle.format.specs.Refusal.{code, short_room};
ghost use Rattle.dem.specs.Scene.{fresh};
ghost use Rattle.dem.specs.Recording.{blocks as recording_blocks, normal_block};
ghost use Rattle.format.specs.Answer.{written, normal_at};
ghost use Rattle.dem.specs.Answer.{track_at, outline_at, blocks_at, whole, normal_blocks_at, track_normal, whole_normal};
ghost use Rattle.dem_scene.specs.Views.{scene_of};
ghost use Rattle.dem_blocks.specs.Runs.{stored, wrote_of, run_of, wrote};
ghost use Rattle.dem_messages.specs.Replies.{written_of, normal_reply_of};
ghost use Rattle.dem_recordings.specs.Replies.{track_answer_of, block_reply_of, blocks_reply_of, recording_reply_of, summary_of, rewrite_reply_of, track_written_of};
ghost use Rattle.dem_recordings.specs.Steps.{from_start};
ghost use Rattle.format.specs.declared.refusal.Refused.{Refused};

use dem::limit::HEAD_SIZE;
use dem_blocks::{BlocksAt, WrittenAt};
use dem_messages::{Normal, Reply, ask_at, ask_room, start};
use dem_scene::Scene;
use format::refusal::{Refusal, Refused};

// A track number and the place of what follows its line.
#[derive(Clone, Copy)]
pub struct Track {
    pub number: i16,
    pub next: usize,
}

// A block's angles by their bits, the place and the number of its messages, and the place of what follows it.
#[derive(Clone, Copy)]
pub struct Outline {
    pub angle0: u32,
    pub angle1: u32,
    pub angle2: u32,
    pub start: usize,
    pub messages: usize,
    pub next: usize,
}

// Of a run of blocks: how many were read, and their messages; the place behind them, and the refusal met there.
#[derive(Clone, Copy)]
pub struct Progress {
    pub blocks: usize,
    pub messages: usize,
    pub next: usize,
    pub refused: Option<Refused>,
}

impl Progress {
    // What is told of blocks that were read, and of the refusal met behind them.
    fn of(b: &BlocksAt, refused: Option<Refused>) -> Progress
        ensures { result ≡ record { blocks = b.now.blocks; messages = b.now.messages; next = b.now.next; refused = refused } }
    {
        Progress {
            blocks: b.blocks,
            messages: b.messages,
            next: b.next,
            refused,
        }
    }
}

// A recording's track number, blocks and messages.
#[derive(Clone, Copy)]
pub struct Summary {
    pub track: i16,
    pub blocks: usize,
    pub messages: usize,
}

// The track line at the front of a recording.
#[tactic(auto, using(crate::proofs::Recordings::track_wrong))]
pub fn read_track(bytes: &[u8]) -> Result<Track, Refused>
    ensures { track_answer_of result ≡ track_at bytes.now }
{
    let (number, next) = dem_framing::read_track(bytes)?;
    Ok(Track { number, next })
}

// The block at a place of a recording, in a scene.
#[tactic(auto, using(crate::proofs::Recordings::outline_asked))]
pub fn read_block_at(scene: Scene, bytes: &[u8], at: usize) -> Reply<Option<Outline>>
    ensures { block_reply_of result ≡ outline_at (scene_of scene) bytes.now at }
{
    if let Err(r) = ask_at(&scene, bytes, at) {
        return Reply {
            answer: Err(r),
            scene,
        };
    }
    if at == bytes.len() {
        return Reply {
            answer: Ok(None),
            scene,
        };
    }
    let b = dem_blocks::read_blocks(bytes, at, 1, scene);
    if let Some(r) = b.refused {
        return Reply {
            answer: Err(r),
            scene,
        };
    }
    let h = dem_framing::read_head(bytes, at).unwrap();
    let outline = Outline {
        angle0: h.angle0,
        angle1: h.angle1,
        angle2: h.angle2,
        start: at + HEAD_SIZE,
        messages: b.messages,
        next: b.next,
    };
    Reply {
        answer: Ok(Some(outline)),
        scene: b.scene,
    }
}

// Whether a run was refused inside a block, or for want of room: it then answers the scene given, and no messages.
fn stopped_inside(b: &BlocksAt) -> bool
    ensures inside { result ≡ true → (k : Refused) × (b.now.refused ≡ Some k) }
    ensures behind { result ≡ false → (b.now.next ≡ place_in b.now.next b.now.refused) × (refusal_in b.now.refused ≢ code short_room) }
{
    match b.refused {
        Some(r) => r.place != b.next || r.refusal == Refusal::ShortRoom,
        None => false,
    }
}

// As many whole blocks as there are from a place of a recording on, in a scene: the scene after them. Where a message is refused, the blocks
// before its own are read again, for the scene that they lead to.
#[tactic(auto, using(crate::proofs::Recordings::blocks_asked))]
pub fn read_blocks_at(scene: Scene, bytes: &[u8], at: usize) -> Reply<Progress>
    ensures { blocks_reply_of result ≡ blocks_at (scene_of scene) bytes.now at }
{
    if let Err(r) = ask_at(&scene, bytes, at) {
        return Reply {
            answer: Err(r),
            scene,
        };
    }
    let all = dem_blocks::read_blocks(bytes, at, bytes.len(), scene);
    if !stopped_inside(&all) {
        return Reply {
            answer: Ok(Progress::of(&all, all.refused)),
            scene: all.scene,
        };
    }
    let before = dem_blocks::read_blocks(bytes, at, all.blocks, scene);
    Reply {
        answer: Ok(Progress::of(&before, all.refused)),
        scene: before.scene,
    }
}

// A whole recording. With a refusal, the scene at the start.
#[tactic(auto, using(crate::proofs::Recordings::recording_track))]
pub fn read_recording(bytes: &[u8]) -> Reply<Summary>
    ensures { recording_reply_of result ≡ whole bytes.now }
{
    let (track, at) = match dem_framing::read_track(bytes) {
        Ok(line) => line,
        Err(r) => {
            return Reply {
                answer: Err(r),
                scene: start(),
            };
        }
    };
    let b = dem_blocks::read_blocks(bytes, at, bytes.len(), start());
    if let Some(r) = b.refused {
        return Reply {
            answer: Err(r),
            scene: start(),
        };
    }
    let summary = Summary {
        track,
        blocks: b.blocks,
        messages: b.messages,
    };
    Reply {
        answer: Ok(summary),
        scene: b.scene,
    }
}

// ---- normal forms

// Of blocks in normal form: also the number of the bytes written.
#[derive(Clone, Copy)]
pub struct Rewriting {
    pub progress: Progress,
    pub length: usize,
}

// The normal forms of as many whole blocks as there are from a place of a recording on and the lent room takes, in a scene: the scene after
// them. Where a message is refused or room is short, the blocks before are read again, for the scene that they lead to.
#[tactic(auto, using(crate::proofs::NormalForms::rewrite_asked))]
pub fn normal_blocks_at(scene: Scene, bytes: &[u8], at: usize, room: &mut [u8]) -> Reply<Rewriting>
    ensures { rewrite_reply_of result room.new ≡ normal_blocks_at (scene_of scene) bytes.now at room.old }
{
    if let Err(r) = ask_at(&scene, bytes, at) {
        return Reply {
            answer: Err(r),
            scene,
        };
    }
    let w = dem_blocks::write_blocks(bytes, at, bytes.len(), scene, true, room.len(), room, 0);
    let all = w.read;
    if !stopped_inside(&all) {
        let rewriting = Rewriting {
            progress: Progress::of(&all, all.refused),
            length: w.written,
        };
        return Reply {
            answer: Ok(rewriting),
            scene: all.scene,
        };
    }
    let before = dem_blocks::read_blocks(bytes, at, all.blocks, scene);
    let rewriting = Rewriting {
        progress: Progress::of(&before, all.refused),
        length: w.written,
    };
    Reply {
        answer: Ok(rewriting),
        scene: before.scene,
    }
}

// The normal form of the block at a place of a recording, in a scene, into lent room. With a refusal nothing is written; what is behind the
// normal form stays.
#[tactic(auto, using(crate::proofs::NormalForms::normal_asked))]
pub fn normal_block_at(
    scene: Scene,
    bytes: &[u8],
    at: usize,
    room: &mut [u8],
) -> Reply<Option<Normal>>
    ensures { normal_reply_of result room.new ≡ normal_at recording_blocks normal_block (scene_of scene) bytes.now at room.old }
{
    if let Err(r) = ask_at(&scene, bytes, at) {
        return Reply {
            answer: Err(r),
            scene,
        };
    }
    if at == bytes.len() {
        return Reply {
            answer: Ok(None),
            scene,
        };
    }
    let w = dem_blocks::write_blocks(bytes, at, 1, scene, true, room.len(), room, 0);
    let b = w.read;
    if let Some(r) = b.refused {
        return Reply {
            answer: Err(r),
            scene,
        };
    }
    let normal = Normal {
        length: w.written,
        next: b.next,
    };
    Reply {
        answer: Ok(Some(normal)),
        scene: b.scene,
    }
}

// The normal form of the track line, into lent room. With a refusal nothing is written; what is behind the line stays.
#[tactic(auto, using(crate::proofs::Normals::line_wrong))]
pub fn normal_track(bytes: &[u8], room: &mut [u8]) -> Result<Normal, Refused>
    ensures { track_written_of result room.new ≡ track_normal bytes.now room.old }
{
    let (number, next) = dem_framing::read_track(bytes)?;
    ask_room(room.len(), dem_framing::track_size(number))?;
    let length = dem_framing::put_track(room, number);
    Ok(Normal { length, next })
}

// The normal forms of all blocks from a place of a recording on, into at most so much room from a place of it on.
fn write_all(bytes: &[u8], at: usize, limit: usize, room: &mut [u8], base: usize) -> WrittenAt
    requires { (at ≤ length bytes.now) × (base ≤ length room.old) }
    ensures { wrote result room.new ≡ wrote_of fresh (length bytes.now) (stored room.old base limit) base 0 0 0 room.old (run_of true (length bytes.now) limit fresh (drop at bytes.now)) }
{
    dem_blocks::write_blocks(bytes, at, bytes.len(), start(), true, limit, room, base)
}

// How many bytes the normal form of a whole recording has, and the scene after it: first counted, in more than any lent room, so that blocks
// are counted and none is stored, which also finds what is wrong; then written.
#[tactic(auto, using(crate::proofs::Normals::recording_wrong))]
fn write_whole(bytes: &[u8], room: &mut [u8]) -> Result<(usize, Scene), Refused>
    ensures { written (from_start (λ n. n) result) room.new ≡ whole_normal bytes.now room.old }
{
    let (number, at) = dem_framing::read_track(bytes)?;
    let line = dem_framing::track_size(number);
    let count = write_all(bytes, at, usize::MAX, room, 0);
    if let Some(r) = count.read.refused {
        return Err(r);
    }
    let needed = line + count.written;
    ask_room(room.len(), needed)?;
    dem_framing::put_track(room, number);
    let w = write_all(bytes, at, count.written, room, line);
    Ok((needed, w.read.scene))
}

// The normal form of a whole recording, into lent room; answers how many bytes are written. With a refusal nothing is written, and the scene
// is that at the start; what is behind the recording stays.
pub fn normal_recording(bytes: &[u8], room: &mut [u8]) -> Reply<usize>
    ensures { written_of result room.new ≡ whole_normal bytes.now room.old }
{
    match write_whole(bytes, room) {
        Ok((size, scene)) => Reply {
            answer: Ok(size),
            scene,
        },
        Err(r) => Reply {
            answer: Err(r),
            scene: start(),
        },
    }
}
