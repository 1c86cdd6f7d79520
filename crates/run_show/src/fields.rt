// A message as sent or filled in: its kind's name, then its fields. A string as sent is its place and its length; filled in it is its bytes
// in quotes, with \xHH for what is not plain ASCII, a quote or a backslash.
use dem::temporary::EXPLOSION2;
use dem_messages::Found;
use dem_scene::{Client, Filled, FilledSound, Record};
use dem_types::{Clientdata, Message, Particle, Serverinfo, Sound, Temporary, Update};
use format::refusal::Refused;
use std::io;
use wire::Text;

// ---- strings

fn quoted(rt: &impl Print, bytes: &[u8]) -> io::Result<()> {
    for b in bytes {
        match *b {
            0x22 | 0x5C | 0..=0x1F | 0x7F..=0xFF => print!(rt; "\\x{b:02x}")?,
            _ => rt.write_all(&[*b])?,
        }
    }
    Ok(())
}

// How a message's strings, which are places in a text, are shown.
#[derive(Clone, Copy)]
enum Strings<'a> {
    Places,
    BytesOf(&'a [u8]),
}

// The bytes of a text at a place, as far as it has them.
fn bytes_of(text: &[u8], t: Text) -> &[u8] {
    let behind = text.get(t.start..).unwrap_or_default();
    behind.get(..t.len).unwrap_or(behind)
}

fn string(rt: &impl Print, t: Text, strings: Strings<'_>) -> io::Result<()> {
    match strings {
        Strings::Places => print!(rt; "{}+{}", t.start, t.len),
        Strings::BytesOf(text) => {
            print!(rt; "\"")?;
            quoted(rt, bytes_of(text, t))?;
            print!(rt; "\"")
        }
    }
}

fn only_string(rt: &impl Print, t: Text, strings: Strings<'_>) -> io::Result<()> {
    print!(rt; " text=")?;
    string(rt, t, strings)
}

fn serverinfo(rt: &impl Print, s: Serverinfo, strings: Strings<'_>) -> io::Result<()> {
    print!(rt;
        " protocol={} limit={} game={}",
        s.protocol, s.limit, s.game
    )?;
    print!(rt; " map=")?;
    string(rt, s.map, strings)?;
    print!(rt; " names=")?;
    string(rt, s.names, strings)
}

// ---- numbers

fn particle(rt: &impl Print, p: Particle) -> io::Result<()> {
    print!(rt; " {}", p.origin)?;
    print!(rt;
        " velocity0={} velocity1={} velocity2={} count={} colour={}",
        p.direction0, p.direction1, p.direction2, p.count, p.colour
    )
}

fn temporary(rt: &impl Print, t: Temporary) -> io::Result<()> {
    match t {
        Temporary::Point(kind, origin) => { print!(rt; " type={kind} {origin}") }
        Temporary::Line(kind, entity, a, b) => {
            print!(rt; " type={kind} entity={}", entity.0)?;
            print!(rt; " start_x={} start_y={} start_z={}", a.x, a.y, a.z)?;
            print!(rt; " end_x={} end_y={} end_z={}", b.x, b.y, b.z)
        }
        Temporary::Explosion2(origin, first, count) => {
            print!(rt; " type={EXPLOSION2} {origin}")?;
            print!(rt; " first_colour={first} colour_count={count}")
        }
    }
}

// ---- messages with a mask

fn source(rt: &impl Print, s: FilledSound) -> io::Result<()> {
    print!(rt; " volume={} attenuation={}", s.volume, s.attenuation)?;
    print!(rt; " channel={} entity={}", s.channel, s.entity.0)?;
    print!(rt; " sound={} {}", s.sound, s.origin)
}

fn sound(rt: &impl Print, s: Sound) -> io::Result<()> {
    print!(rt; " mask={:02x}", s.mask)?;
    source(
        rt,
        FilledSound {
            volume: s.volume,
            attenuation: s.attenuation,
            channel: s.channel,
            entity: s.entity,
            sound: s.sound,
            origin: s.origin,
        },
    )
}

fn client(rt: &impl Print, c: Client) -> io::Result<()> {
    let (ground, water) = (u8::from(c.ground), u8::from(c.water));
    print!(rt; " {}", c.motion)?;
    print!(rt; " items={} ground={ground} water={water}", c.items)?;
    print!(rt; " {} {}", c.arms, c.supplies)
}

fn clientdata(rt: &impl Print, c: Clientdata) -> io::Result<()> {
    print!(rt; " mask={:04x}", c.mask)?;
    client(
        rt,
        Client {
            ground: wire::has(c.mask, dem::clientdata::GROUND),
            water: wire::has(c.mask, dem::clientdata::WATER),
            motion: c.motion,
            items: c.items,
            arms: c.arms,
            supplies: c.supplies,
        },
    )
}

pub fn record(rt: &impl Print, r: Record) -> io::Result<()> {
    print!(rt; " {} effects={}", r.look, r.effects)?;
    print!(rt; " {} bit5={}", r.pose, u8::from(r.bit5))
}

// Bit 7 of the number is no bit of the mask.
fn update(rt: &impl Print, u: Update) -> io::Result<()> {
    print!(rt;
        " mask={:02x}{:02x} entity={}",
        u.high,
        u.number % 128,
        u.entity.0
    )?;
    record(
        rt,
        Record {
            bit5: wire::has(u16::from(u.number), dem::update::RECORD),
            look: u.look,
            effects: u.effects,
            pose: u.pose,
        },
    )
}

// ---- all of them

fn temporary_name(t: Temporary) -> &'static str {
    match t {
        Temporary::Point(..) => "point",
        Temporary::Line(..) => "line",
        Temporary::Explosion2(..) => "explosion2",
    }
}

fn name_of(m: Message) -> &'static str {
    match m {
        Message::Nop => "nop",
        Message::Disconnect => "disconnect",
        Message::Stat(..) => "stat",
        Message::Version(_) => "version",
        Message::View(_) => "view",
        Message::Sound(_) => "sound",
        Message::Time(_) => "time",
        Message::Print(_) => "print",
        Message::Stufftext(_) => "stufftext",
        Message::SetAngles(..) => "angles",
        Message::Serverinfo(_) => "serverinfo",
        Message::Style(..) => "style",
        Message::Name(..) => "name",
        Message::Frags(..) => "frags",
        Message::Clientdata(_) => "clientdata",
        Message::Stopsound(..) => "stopsound",
        Message::Colours(..) => "colours",
        Message::Particle(_) => "particle",
        Message::Damage(..) => "damage",
        Message::Static(..) => "static",
        Message::Baseline(..) => "baseline",
        Message::Temporary(t) => temporary_name(t),
        Message::Pause(_) => "pause",
        Message::Signon(_) => "signon",
        Message::Centerprint(_) => "centerprint",
        Message::Killed => "killed",
        Message::Secret => "secret",
        Message::StaticSound(..) => "static_sound",
        Message::Intermission => "intermission",
        Message::Finale(_) => "finale",
        Message::Track(..) => "track",
        Message::Sellscreen => "sellscreen",
        Message::Cutscene(_) => "cutscene",
        Message::Update(_) => "update",
    }
}

fn placed(rt: &impl Print, m: Message) -> io::Result<()> {
    match m {
        Message::Sound(s) => sound(rt, s),
        Message::Clientdata(c) => clientdata(rt, c),
        Message::Particle(p) => particle(rt, p),
        Message::Damage(save, take, origin) => { print!(rt; " save={save} take={take} {origin}") }
        Message::Static(l, p) => print!(rt; " {l} {p}"),
        Message::Baseline(entity, l, p) => { print!(rt; " entity={} {l} {p}", entity.0) }
        Message::Temporary(t) => temporary(rt, t),
        Message::StaticSound(origin, sound, volume, attenuation) => {
            print!(rt; " {origin} sound={sound}")?;
            print!(rt; " volume={volume} attenuation={attenuation}")
        }
        Message::Update(u) => update(rt, u),
        _ => Ok(()),
    }
}

fn numbered(rt: &impl Print, m: Message) -> io::Result<()> {
    match m {
        Message::Stat(i, v) => print!(rt; " stat={i} value={v}"),
        Message::Version(v) => print!(rt; " protocol={v}"),
        Message::View(e) => print!(rt; " entity={}", e.0),
        Message::Time(bits) => print!(rt; " time={bits:08x}"),
        Message::SetAngles(a, b, c) => print!(rt; " angle0={a} angle1={b} angle2={c}"),
        Message::Frags(p, v) => print!(rt; " player={} frags={v}", p.0),
        Message::Stopsound(channel, e) => print!(rt; " channel={channel} entity={}", e.0),
        Message::Colours(p, v) => print!(rt; " player={} colours={v}", p.0),
        Message::Pause(v) => print!(rt; " pause={v}"),
        Message::Signon(v) => print!(rt; " signon={v}"),
        Message::Track(from, to) => print!(rt; " from={from} to={to}"),
        _ => placed(rt, m),
    }
}

fn message(rt: &impl Print, m: Message, strings: Strings<'_>) -> io::Result<()> {
    print!(rt; "{}", name_of(m))?;
    match m {
        Message::Print(t)
        | Message::Stufftext(t)
        | Message::Centerprint(t)
        | Message::Finale(t)
        | Message::Cutscene(t) => only_string(rt, t, strings),
        Message::Serverinfo(s) => serverinfo(rt, s, strings),
        Message::Style(i, t) => {
            print!(rt; " style={i}")?;
            only_string(rt, t, strings)
        }
        Message::Name(p, t) => {
            print!(rt; " player={}", p.0)?;
            only_string(rt, t, strings)
        }
        _ => numbered(rt, m),
    }
}

fn filled(rt: &impl Print, f: Filled, text: &[u8]) -> io::Result<()> {
    match f {
        Filled::Plain(m) => {
            print!(rt; "plain ")?;
            message(rt, m, Strings::BytesOf(text))
        }
        Filled::Sound(s) => {
            print!(rt; "sound")?;
            source(rt, s)
        }
        Filled::Clientdata(c) => {
            print!(rt; "clientdata")?;
            client(rt, c)
        }
        Filled::Update(e, r) => {
            print!(rt; "update entity={}", e.0)?;
            record(rt, r)
        }
    }
}

// What a reader of a message in a lent text answers.
pub fn answer(
    rt: &impl Print,
    answer: Result<Option<Found>, Refused>,
    text: &[u8],
) -> io::Result<()> {
    match answer {
        Ok(Some(found)) => {
            print!(rt; "  found next {}\n  sent ", found.next)?;
            message(rt, found.message, Strings::Places)?;
            print!(rt; "\n  filled ")?;
            filled(rt, found.filled, text)?;
            print!(rt; "\n")
        }
        Ok(None) => print!(rt; "  end\n"),
        Err(r) => refusal(rt, r),
    }
}

pub fn refusal(rt: &impl Print, r: Refused) -> io::Result<()> {
    print!(rt; "  {r}\n")
}
