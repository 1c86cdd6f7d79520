// A walker that is held in a local: what it hands out, step by step.
#![tactic(auto)]

use dem_messages::{Found, Reply};
use dem_scene::Scene;
use std::io;

// Shows what a step handed out and the place where it left the walker, and hands on the scene.
fn told(
    rt: &impl Print,
    block: &[u8],
    reply: Reply<Option<Found>>,
    at: usize,
) -> io::Result<Scene> {
    run_show::fields::answer(rt, reply.answer, block)?;
    print!(rt; "  walker at {at}\n")?;
    Ok(reply.scene)
}

// Three steps from a block's first byte on, each in the scene that the one before it left.
pub fn three_steps(rt: &impl Print, block: &[u8], scene: Scene) -> io::Result<Scene> {
    let mut w = dem_walker::walk(block);
    let mut scene = scene;
    for _ in 0..3 {
        let reply = dem_walker::next(&mut w, scene);
        scene = told(rt, block, reply, w.at)?;
    }
    Ok(scene)
}
