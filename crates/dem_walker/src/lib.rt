// A walker over a block's messages: it holds the block's bytes and the place of the next message.
#![tactic(auto)]

ghost use Rattle.std.specs.Prelude.{◌≡◌};
ghost use Rattle.dem_scene.specs.Views.{scene_of};
ghost use Rattle.dem_messages.specs.Replies.{reply_of};
ghost use Rattle.dem_walker.specs.Walks.{place_after, stepped, step_at, walked_of, walk_all};

use dem_messages::{Found, Reply};
use dem_scene::Scene;
use format::refusal::Refused;

#[derive(Clone, Copy)]
pub struct Walker<'a> {
    pub block: &'a [u8],
    pub at: usize,
}

// The place to go on at: behind a message that is found, and else the same place.
pub fn moved_to(at: usize, reply: &Reply<Option<Found>>) -> usize
    ensures { result ≡ place_after at reply.now.answer }
{
    match reply.answer {
        Ok(Some(found)) => found.next,
        Ok(None) | Err(_) => at,
    }
}

// A walker at a block's first byte.
pub fn walk<'a>(block: &'a [u8]) -> Walker<'a>
    ensures { (result.block ≡ block.entry) × (result.at ≡ 0) }
{
    Walker { block, at: 0 }
}

// The next message, in a scene. The walker moves on behind a message that is found, and else stays where it was.
pub fn next<'s, 'a>(w: &'s mut Walker<'a>, scene: Scene) -> Reply<Option<Found>>
    ensures { (stepped (reply_of w.old.block.now result) w.new.at ≡ step_at (scene_of scene) w.old.block.now w.old.at) × (w.new.block ≡ w.old.block) }
{
    let reply = dem_messages::read_message_at(scene, w.block, w.at);
    w.at = moved_to(w.at, &reply);
    reply
}

// The scene after a block's messages, how many they are, and the place behind them; or a refusal, with the scene given and no message counted.
// The number stands beside the answer, so that none being counted is promised of a refusal too.
#[derive(Clone, Copy)]
pub struct Walked {
    pub scene: Scene,
    pub messages: usize,
    pub answer: Result<usize, Refused>,
}

// All messages of a block, in a scene.
pub fn read_all(block: &[u8], scene: Scene) -> Walked
    ensures { walked_of result ≡ walk_all (scene_of scene) block.now }
{
    let mut current = scene;
    let mut at = 0;
    let mut messages = 0;
    // From place to place, with an answer at each end: no index is counted.
    loop {
        let reply = dem_messages::read_message_at(current, block, at);
        match reply.answer {
            Ok(Some(found)) => {
                current = reply.scene;
                at = found.next;
                messages += 1;
            }
            Ok(None) => {
                return Walked {
                    scene: current,
                    messages,
                    answer: Ok(at),
                };
            }
            Err(r) => {
                return Walked {
                    scene,
                    messages: 0,
                    answer: Err(r),
                };
            }
        }
    }
}
