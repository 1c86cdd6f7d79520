// The lines of a scene's text.
use dem_scene::{Baseline, Client, PlayerLine, Record, Rest, Scene};
use std::fmt;

fn time(w: &mut impl fmt::Write, time: Option<u32>) -> fmt::Result {
    match time {
        None => w.write_str("\ntime none"),
        Some(bits) => write!(w, "\ntime {bits:08x}"),
    }
}

fn numbers(w: &mut impl fmt::Write, rest: &Rest, present_count: usize) -> fmt::Result {
    write!(
        w,
        "\nlimit {}\nview {}\npause {}\nstatics {}\npresent {}",
        rest.limit, rest.view.0, rest.pause, rest.statics, present_count
    )
}

fn stats(w: &mut impl fmt::Write, values: &[i32]) -> fmt::Result {
    w.write_str("\nstats")?;
    for value in values {
        write!(w, " {value}")?;
    }
    Ok(())
}

fn client(w: &mut impl fmt::Write, c: Client) -> fmt::Result {
    let (ground, water) = (u8::from(c.ground), u8::from(c.water));
    write!(w, "\nclientdata {}", c.motion)?;
    write!(w, " items={} ground={ground} water={water}", c.items)?;
    write!(w, " {} {}", c.arms, c.supplies)
}

fn player(w: &mut impl fmt::Write, i: usize, line: PlayerLine) -> fmt::Result {
    write!(
        w,
        "\nplayer {i} frags={} colours={}",
        line.frags, line.colours
    )
}

fn rest_lines(w: &mut impl fmt::Write, rest: &Rest, present_count: usize) -> fmt::Result {
    write!(w, "\nended {}", u8::from(rest.ended))?;
    time(w, rest.time)?;
    numbers(w, rest, present_count)?;
    stats(w, &rest.stats)?;
    client(w, rest.client)?;
    for (i, line) in rest.players.iter().enumerate() {
        player(w, i, *line)?;
    }
    Ok(())
}

fn baseline(w: &mut impl fmt::Write, i: usize, b: Baseline) -> fmt::Result {
    if b == Baseline::CLEARED {
        return Ok(());
    }
    write!(w, "\nbaseline {i} {} {}", b.look, b.pose)
}

fn record(w: &mut impl fmt::Write, i: usize, r: Record, present: bool) -> fmt::Result {
    if !present && r == Record::CLEARED {
        return Ok(());
    }
    write!(w, "\nrecord {i} present={}", u8::from(present))?;
    write!(w, " {} effects={}", r.look, r.effects)?;
    write!(w, " {} bit5={}", r.pose, u8::from(r.bit5))
}

// From the line `ended` on: a line feed, then lines that each end with one.
pub fn scene_lines(w: &mut impl fmt::Write, s: &Scene) -> fmt::Result {
    rest_lines(w, &s.rest, s.present_count)?;
    for (i, b) in s.baselines.iter().enumerate() {
        baseline(w, i, *b)?;
    }
    for (i, (r, present)) in s.records.iter().zip(s.present.iter()).enumerate() {
        record(w, i, *r, *present)?;
    }
    w.write_str("\n")
}
