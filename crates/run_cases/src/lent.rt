// Player lines that are lent.
use crate::Case;
use crate::hex::byte_at;
use dem_lines::LineChange;
use dem_scene::{PlayerLine, Scene};
use dem_types::Player;
use std::io;

fn shown(rt: &impl Print, lines: [PlayerLine; 17]) -> io::Result<[PlayerLine; 17]> {
    print!(rt; "  lines")?;
    for line in lines.iter() {
        run_show::scenes::line(rt, *line)?;
    }
    print!(rt; "\n")?;
    Ok(lines)
}

fn set(rt: &impl Print, bytes: &[u8]) -> io::Result<[PlayerLine; 17]> {
    let line = PlayerLine {
        frags: i16::from_le_bytes([byte_at(bytes, 0), byte_at(bytes, 1)]),
        colours: byte_at(bytes, 2),
    };
    shown(rt, [line; 17])
}

fn change(bytes: &[u8]) -> LineChange {
    let player = Player(byte_at(bytes, 1));
    let value = byte_at(bytes, 2);
    match byte_at(bytes, 0) {
        1 => LineChange::Frags(player, i16::from_le_bytes([value, byte_at(bytes, 3)])),
        2 => LineChange::Colours(player, value),
        3 => LineChange::Clear,
        _ => LineChange::Nothing,
    }
}

fn lend(
    rt: &impl Print,
    lines: [PlayerLine; 17],
    count: usize,
    scene: Scene,
    case: Case<'_>,
) -> io::Result<[PlayerLine; 17]> {
    let bytes = case.bytes;
    if bytes.len() < 4 || 17 < count {
        return Ok(lines);
    }
    let change = change(bytes);
    let after = run_lends::lend(rt, lines, count, change, scene, &bytes[4..], case.place)?;
    shown(rt, after)
}

// The lines that what was asked leaves.
pub fn ask(
    rt: &impl Print,
    lines: [PlayerLine; 17],
    count: usize,
    scene: Scene,
    case: Case<'_>,
) -> io::Result<[PlayerLine; 17]> {
    match case.letter {
        b'i' => set(rt, case.bytes),
        b'l' => lend(rt, lines, count, scene, case),
        _ => Ok(lines),
    }
}
