// Messages: read, written back, in normal form, and by a walker. Room held EE.
use crate::Case;
use crate::hex::byte_at;
use dem_messages::Normal;
use dem_scene::Scene;
use dem_types::{Entity, Message, Temporary, Vector};
use format::refusal::Refused;
use run_show::scenes::show;
use std::io;
use wire::Text;

// The messages that were counted, a refusal's number, 0 for none, and its place or that of the end.
fn all(rt: &impl Print, block: &[u8], scene: Scene) -> io::Result<Scene> {
    let all = dem_walker::read_all(block, scene);
    let (refusal, place) = match all.answer {
        Ok(place) => (0, place),
        Err(r) => (u8::from(r.refusal), r.place),
    };
    print!(rt;
        "  all messages {} refusal {refusal} place {place}\n",
        all.messages
    )?;
    show(rt, &all.scene)?;
    Ok(all.scene)
}

fn too_many_statics(scene: Scene) -> Scene {
    let mut wrong = scene;
    wrong.rest.statics = 129;
    wrong
}

// With the number of present marks that two bytes say, whatever the marks are.
fn with_present_count(scene: Scene, bytes: &[u8]) -> Scene {
    let mut changed = scene;
    if let [low, high, ..] = bytes {
        changed.present_count = usize::from(u16::from_le_bytes([*low, *high]));
    }
    changed
}

pub fn room_shown(rt: &impl Print, room: &[u8]) -> io::Result<()> {
    print!(rt; ": ")?;
    run_show::hex(rt, room)?;
    print!(rt; "\n")
}

fn put(
    rt: &impl Print,
    scene: Scene,
    m: Message,
    text: &[u8],
    room: &mut [u8],
) -> io::Result<Scene> {
    let r = dem_messages::write_message(scene, m, text, room);
    match r.answer {
        Ok(length) => print!(rt; "  written {length}")?,
        Err(refused) => print!(rt; "  {refused}")?,
    }
    room_shown(rt, room)?;
    Ok(r.scene)
}

// The scene after the message; it is shown, and so is the one behind what was written.
fn read(rt: &impl Print, scene: Scene, case: Case<'_>, room: &mut [u8]) -> io::Result<Scene> {
    let r = dem_messages::read_message_at(scene, case.bytes, case.place);
    run_show::fields::answer(rt, r.answer, case.bytes)?;
    match r.answer {
        Ok(Some(found)) => {
            let written = put(rt, scene, found.message, case.bytes, room)?;
            show(rt, &written)?;
        }
        _ => show(rt, &r.scene)?,
    }
    Ok(r.scene)
}

// A type, a case, and a line's entity in two bytes.
fn made_temporary(bytes: &[u8]) -> Temporary {
    let kind = byte_at(bytes, 0);
    let zero = Vector { x: 0, y: 0, z: 0 };
    match byte_at(bytes, 1) {
        0 => Temporary::Point(kind, zero),
        1 => Temporary::Line(
            kind,
            Entity(u16::from_le_bytes([byte_at(bytes, 2), byte_at(bytes, 3)])),
            zero,
            zero,
        ),
        _ => Temporary::Explosion2(zero, 0, 0),
    }
}

// The place is its kind.
fn made(case: Case<'_>) -> Message {
    let first = byte_at(case.bytes, 0);
    let second = byte_at(case.bytes, 1);
    match case.place {
        3 => Message::Stat(first, i32::from(second)),
        8 => Message::Print(Text {
            start: usize::from(first),
            len: usize::from(second),
        }),
        23 => Message::Temporary(made_temporary(case.bytes)),
        _ => Message::Nop,
    }
}

fn write(rt: &impl Print, scene: Scene, case: Case<'_>, room: &mut [u8]) -> io::Result<Scene> {
    let after = put(rt, scene, made(case), case.bytes, room)?;
    show(rt, &after)?;
    Ok(after)
}

pub fn normal_answer(rt: &impl Print, answer: Result<Option<Normal>, Refused>) -> io::Result<()> {
    match answer {
        Ok(Some(normal)) => print!(rt; "  written {} next {}", normal.length, normal.next),
        Ok(None) => print!(rt; "  end"),
        Err(refused) => print!(rt; "  {refused}"),
    }
}

fn normal(rt: &impl Print, scene: Scene, case: Case<'_>, room: &mut [u8]) -> io::Result<Scene> {
    let r = dem_messages::normal_message_at(scene, case.bytes, case.place, room);
    normal_answer(rt, r.answer)?;
    room_shown(rt, room)?;
    show(rt, &r.scene)?;
    Ok(r.scene)
}

// The scene after three steps.
fn walk(rt: &impl Print, scene: Scene, block: &[u8]) -> io::Result<Scene> {
    let after = run_walks::three_steps(rt, block, scene)?;
    show(rt, &after)?;
    all(rt, block, scene)?;
    Ok(after)
}

fn entity(rt: &impl Print, scene: Scene, bytes: &[u8]) -> io::Result<Scene> {
    let i = u16::from_le_bytes([byte_at(bytes, 0), byte_at(bytes, 1)]);
    run_show::scenes::entity(rt, &scene, usize::from(i))?;
    Ok(scene)
}

// The scene that what was asked leaves.
pub fn ask(rt: &impl Print, scene: Scene, case: Case<'_>, room: &mut [u8]) -> io::Result<Scene> {
    match case.letter {
        b's' => all(rt, case.bytes, dem_messages::start()),
        b'o' => Ok(too_many_statics(scene)),
        b'c' => Ok(with_present_count(scene, case.bytes)),
        b'e' => entity(rt, scene, case.bytes),
        b'm' => read(rt, scene, case, room),
        b'n' => normal(rt, scene, case, room),
        b'p' => write(rt, scene, case, room),
        b'w' => walk(rt, scene, case.bytes),
        _ => Ok(scene),
    }
}
