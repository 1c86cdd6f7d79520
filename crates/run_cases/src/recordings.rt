// Recordings, track lines and blocks, read.
use crate::Case;
use dem_recordings::Progress;
use dem_scene::Scene;
use run_show::fields::refusal;
use run_show::scenes::show;
use std::io;

// The scene that the recording leads to; with a refusal, the scene at the start.
pub fn read(rt: &impl Print, case: Case<'_>) -> io::Result<Scene> {
    let r = dem_recordings::read_recording(case.bytes);
    match r.answer {
        Ok(s) => print!(rt;
            "  track {} blocks {} messages {}\n",
            s.track, s.blocks, s.messages
        )?,
        Err(refused) => refusal(rt, refused)?,
    }
    show(rt, &r.scene)?;
    Ok(r.scene)
}

// The scene is not asked for, and stays.
pub fn track(rt: &impl Print, scene: Scene, case: Case<'_>) -> io::Result<Scene> {
    match dem_recordings::read_track(case.bytes) {
        Ok(track) => print!(rt; "  track {} next {}\n", track.number, track.next)?,
        Err(refused) => refusal(rt, refused)?,
    }
    Ok(scene)
}

pub fn block(rt: &impl Print, scene: Scene, case: Case<'_>) -> io::Result<Scene> {
    let r = dem_recordings::read_block_at(scene, case.bytes, case.place);
    match r.answer {
        Ok(Some(o)) => {
            print!(rt;
                "  angles {:08x} {:08x} {:08x}",
                o.angle0, o.angle1, o.angle2
            )?;
            print!(rt;
                " start {} messages {} next {}\n",
                o.start, o.messages, o.next
            )?;
        }
        Ok(None) => print!(rt; "  end\n")?,
        Err(refused) => refusal(rt, refused)?,
    }
    show(rt, &r.scene)?;
    Ok(r.scene)
}

// How many blocks and messages were read, the place behind them, and the refusal met there, 0 for none.
pub fn progress(rt: &impl Print, p: Progress) -> io::Result<()> {
    print!(rt;
        "blocks {} messages {} next {}",
        p.blocks, p.messages, p.next
    )?;
    let (refusal, place) = match p.refused {
        Some(r) => (u8::from(r.refusal), r.place),
        None => (0, p.next),
    };
    print!(rt; " refusal {refusal} place {place}")
}

pub fn blocks(rt: &impl Print, scene: Scene, case: Case<'_>) -> io::Result<Scene> {
    let r = dem_recordings::read_blocks_at(scene, case.bytes, case.place);
    match r.answer {
        Ok(p) => {
            print!(rt; "  ")?;
            progress(rt, p)?;
            print!(rt; "\n")?;
        }
        Err(refused) => refusal(rt, refused)?,
    }
    show(rt, &r.scene)?;
    Ok(r.scene)
}
