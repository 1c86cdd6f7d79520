// Normal forms of blocks and of recordings, into room that held EE.
use crate::messages::{normal_answer, room_shown};
use crate::{Case, recordings};
use dem_scene::Scene;
use run_show::scenes::show;
use std::io;

pub fn normal(rt: &impl Print, scene: Scene, case: Case<'_>, room: &mut [u8]) -> io::Result<Scene> {
    let r = dem_recordings::normal_block_at(scene, case.bytes, case.place, room);
    normal_answer(rt, r.answer)?;
    room_shown(rt, room)?;
    show(rt, &r.scene)?;
    Ok(r.scene)
}

pub fn normal_all(
    rt: &impl Print,
    scene: Scene,
    case: Case<'_>,
    room: &mut [u8],
) -> io::Result<Scene> {
    let r = dem_recordings::normal_blocks_at(scene, case.bytes, case.place, room);
    match r.answer {
        Ok(w) => {
            print!(rt; "  written {} ", w.length)?;
            recordings::progress(rt, w.progress)?;
        }
        Err(refused) => print!(rt; "  {refused}")?,
    }
    room_shown(rt, room)?;
    show(rt, &r.scene)?;
    Ok(r.scene)
}

pub fn recording(rt: &impl Print, case: Case<'_>, room: &mut [u8]) -> io::Result<Scene> {
    let r = dem_recordings::normal_recording(case.bytes, room);
    match r.answer {
        Ok(length) => print!(rt; "  written {length}")?,
        Err(refused) => print!(rt; "  {refused}")?,
    }
    room_shown(rt, room)?;
    show(rt, &r.scene)?;
    Ok(r.scene)
}

// The scene is not asked for, and stays.
pub fn track(rt: &impl Print, scene: Scene, case: Case<'_>, room: &mut [u8]) -> io::Result<Scene> {
    match dem_recordings::normal_track(case.bytes, room) {
        Ok(normal) => print!(rt; "  written {} next {}", normal.length, normal.next)?,
        Err(refused) => print!(rt; "  {refused}")?,
    }
    room_shown(rt, room)?;
    Ok(scene)
}
