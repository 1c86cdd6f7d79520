// A scene but for its clientdata and its baselines: the single values, then every stat, player line and marked record that is not as at the
// start; and the baseline and the record of one entity.
use crate::{fields, time};
use dem_scene::{PlayerLine, Rest, Scene};
use std::io;

fn single(rt: &impl Print, rest: &Rest, present_count: usize) -> io::Result<()> {
    print!(rt; "  scene ended={}", u8::from(rest.ended))?;
    time(rt, rest.time)?;
    print!(rt;
        " limit={} view={} pause={} statics={} present={}",
        rest.limit, rest.view.0, rest.pause, rest.statics, present_count
    )
}

fn stats(rt: &impl Print, values: &[i32]) -> io::Result<()> {
    for (i, value) in values.iter().enumerate() {
        if *value != 0 {
            print!(rt; " stat {i}={value}")?;
        }
    }
    Ok(())
}

pub fn line(rt: &impl Print, l: PlayerLine) -> io::Result<()> {
    print!(rt; " {}/{}", l.frags, l.colours)
}

fn players(rt: &impl Print, lines: &[PlayerLine]) -> io::Result<()> {
    for (i, l) in lines.iter().enumerate() {
        if *l != PlayerLine::CLEARED {
            print!(rt; " player {i}")?;
            line(rt, *l)?;
        }
    }
    Ok(())
}

fn records(rt: &impl Print, s: &Scene) -> io::Result<()> {
    for (i, (record, present)) in s.records.iter().zip(s.present.iter()).enumerate() {
        if *present {
            print!(rt; "\n  record {i}")?;
            fields::record(rt, *record)?;
        }
    }
    Ok(())
}

pub fn show(rt: &impl Print, s: &Scene) -> io::Result<()> {
    single(rt, &s.rest, s.present_count)?;
    stats(rt, &s.rest.stats)?;
    players(rt, &s.rest.players)?;
    records(rt, s)?;
    print!(rt; "\n")
}

pub fn entity(rt: &impl Print, s: &Scene, i: usize) -> io::Result<()> {
    if let (Some(baseline), Some(record), Some(present)) = (
        s.baselines.get(i),
        s.records.get(i),
        s.present.get(i),
    ) {
        print!(rt; "  baseline {} {}", baseline.look, baseline.pose)?;
        print!(rt; "\n  record present={}", u8::from(*present))?;
        fields::record(rt, *record)?;
        print!(rt; "\n")?;
    }
    Ok(())
}
