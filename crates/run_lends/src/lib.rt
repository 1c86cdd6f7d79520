// Player lines that are kept in a local and lent as one list.
#![tactic(auto)]

ghost use Rattle.std.specs.Prelude.{◌≤◌};

use dem_lines::LineChange;
use dem_messages::{Found, Reply};
use dem_scene::{PlayerLine, Scene};
use format::refusal::Refused;
use std::io;

// Shows what a change and a message were answered, and the scene that the message left.
fn told(
    rt: &impl Print,
    bytes: &[u8],
    change: Result<(), Refused>,
    reply: Reply<Option<Found>>,
) -> io::Result<()> {
    match change {
        Ok(()) => print!(rt; "  changed\n")?,
        Err(r) => run_show::fields::refusal(rt, r)?,
    }
    run_show::fields::answer(rt, reply.answer, bytes)?;
    run_show::scenes::show(rt, &reply.scene)
}

// Lends the first lines twice: for a change, and for the message at a place of some bytes, in a scene. The lines behind both.
pub fn lend(
    rt: &impl Print,
    lines: [PlayerLine; 17],
    count: usize,
    change: LineChange,
    scene: Scene,
    bytes: &[u8],
    at: usize,
) -> io::Result<[PlayerLine; 17]>
    requires { count ≤ 17 }
{
    let mut own = lines;
    let answer = dem_lines::change_lines(&mut own[..count], change);
    let reply = dem_lines::read_message_lent(scene, bytes, at, &mut own[..count]);
    told(rt, bytes, answer, reply)?;
    Ok(own)
}
