// Readers of the messages without a mask, as sent, from behind their number on.
#![tactic(auto, unfolding(dem_parts::specs::Kinds::kind_in, dem::specs::Message::kind_layout, format::specs::Layout::parse))]

ghost use Rattle.std.specs.Prelude.{◌≡◌, [], ◌∷◌, ◌&&◌, ℕ, not, drop};
ghost use Rattle.std.specs.Int.{cast_unsigned, w32};
ghost use Rattle.dem.specs.Limits.{player_count, protocol};
ghost use Rattle.dem.specs.Kind;
ghost use Rattle.format.specs.Bytes.{read_number};
ghost use Rattle.format.specs.Layout.{number};
ghost use Rattle.format.specs.Floats.{not_before, is_time};
ghost use Rattle.dem.specs.Message.{below, between, equals, point, line, explosion2, explosion2_type};
ghost use Rattle.dem.specs.Scene.{Context as Numbers};
ghost use Rattle.wire.specs.Reads.{read_of};
ghost use Rattle.dem_types.specs.declared.Player.{Player};
ghost use Rattle.dem_parts.specs.Kinds.{context_of, message_of, kind_in, temporary_in};

use dem::limit::{HIGHEST_LIMIT, PROTOCOL, STAT_BOUND, STYLE_COUNT, TEMPORARY_TYPE_COUNT};
use dem::temporary::EXPLOSION2;
use dem_parts::{
    Context, read_below, read_entity, read_look, read_pose, read_source, read_vector, require,
};
use dem_types::{Message, Particle, Player, Serverinfo, Temporary};
use format::limit::TIME_BOUND;
use format::refusal::Refusal;
use strings::{read_names, read_text};
use wire::{Read, read};

// Document 01's P.
fn read_player(s: &[u8], at: usize, limit: u8) -> Read<Player>
    ensures { read_of (λ (p : Player). p.0) s.now result ≡ read_number 1 (below limit) (drop at s.now) }
{
    let (number, at) = read_below(s, at, limit)?;
    Ok((Player(number), at))
}

// A protocol number.
#[tactic(auto, unfolding(format::specs::Bytes::read_number))]
fn read_protocol(s: &[u8], at: usize) -> Read<i32>
    ensures { read_of (cast_unsigned w32) s.now result ≡ read_number 4 (equals protocol) (drop at s.now) }
{
    let (number, next) = read::<i32>(s, at)?;
    require(number == PROTOCOL, Refusal::WrongNumber, at)?;
    Ok((number, next))
}

// A player limit: 1 to the highest.
#[tactic(auto, unfolding(format::specs::Bytes::read_number))]
fn read_limit(s: &[u8], at: usize) -> Read<u8>
    ensures { read_of (λ (n : ℕ). n) s.now result ≡ read_number 1 (between 1 player_count) (drop at s.now) }
{
    let (limit, next) = read::<u8>(s, at)?;
    let is_met = (1..=HIGHEST_LIMIT).contains(&limit);
    require(is_met, Refusal::WrongNumber, at)?;
    Ok((limit, next))
}

// Sign set, or exponent 255, or bits smaller than those of the time before.
pub fn is_wrong_time(bits: u32, x: Context) -> bool
    ensures { result ≡ not (is_time bits && not_before (context_of x).time bits) }
{
    x.time.is_some_and(|time| bits < time) || TIME_BOUND <= bits
}

pub fn read_stat(s: &[u8], at: usize) -> Read<Message>
    ensures { (x : Numbers) → message_of s.now result ≡ kind_in x Kind.stat (drop at s.now) }
{
    let (index, at) = read_below(s, at, STAT_BOUND)?;
    let (value, at) = read(s, at)?;
    Ok((Message::Stat(index, value), at))
}

pub fn read_version(s: &[u8], at: usize) -> Read<Message>
    ensures { (x : Numbers) → message_of s.now result ≡ kind_in x 4 (drop at s.now) }
{
    let (protocol, at) = read_protocol(s, at)?;
    Ok((Message::Version(protocol), at))
}

pub fn read_view(s: &[u8], at: usize) -> Read<Message>
    ensures { (x : Numbers) → message_of s.now result ≡ kind_in x Kind.view (drop at s.now) }
{
    let (entity, at) = read_entity(s, at)?;
    Ok((Message::View(entity), at))
}

// The bits of a time, not before the one before.
#[tactic(auto, unfolding(dem_parts::specs::Kinds::kind_in, dem::specs::Message::kind_layout, format::specs::Layout::parse, format::specs::Bytes::read_number))]
pub fn time_at(s: &[u8], at: usize, x: Context) -> Read<u32>
    ensures { read_of (λ (bits : ℕ). number 7 ∷ number bits ∷ []) s.now result ≡ kind_in (context_of x) Kind.time (drop at s.now) }
{
    let (bits, next) = read::<u32>(s, at)?;
    require(!is_wrong_time(bits, x), Refusal::WrongTime, at)?;
    Ok((bits, next))
}

pub fn read_time(s: &[u8], at: usize, x: Context) -> Read<Message>
    ensures { message_of s.now result ≡ kind_in (context_of x) Kind.time (drop at s.now) }
{
    let (bits, at) = time_at(s, at, x)?;
    Ok((Message::Time(bits), at))
}

// Five messages are one string each, and two one byte: one reader given the constructor would take its number too and ask that they fit, no plainer.
pub fn read_print(s: &[u8], at: usize) -> Read<Message>
    ensures { (x : Numbers) → message_of s.now result ≡ kind_in x 8 (drop at s.now) }
{
    let (text, at) = read_text(s, at)?;
    Ok((Message::Print(text), at))
}

pub fn read_stufftext(s: &[u8], at: usize) -> Read<Message>
    ensures { (x : Numbers) → message_of s.now result ≡ kind_in x 9 (drop at s.now) }
{
    let (text, at) = read_text(s, at)?;
    Ok((Message::Stufftext(text), at))
}

pub fn read_angles(s: &[u8], at: usize) -> Read<Message>
    ensures { (x : Numbers) → message_of s.now result ≡ kind_in x 10 (drop at s.now) }
{
    let (a, at) = read(s, at)?;
    let (b, at) = read(s, at)?;
    let (c, at) = read(s, at)?;
    Ok((Message::SetAngles(a, b, c), at))
}

pub fn read_serverinfo(s: &[u8], at: usize) -> Read<Message>
    ensures { (x : Numbers) → message_of s.now result ≡ kind_in x Kind.serverinfo (drop at s.now) }
{
    let (protocol, at) = read_protocol(s, at)?;
    let (limit, at) = read_limit(s, at)?;
    let (game, at) = read(s, at)?;
    let (map, at) = read_text(s, at)?;
    let (names, at) = read_names(s, at)?;
    let info = Serverinfo {
        protocol,
        limit,
        game,
        map,
        names,
    };
    Ok((Message::Serverinfo(info), at))
}

pub fn read_style(s: &[u8], at: usize) -> Read<Message>
    ensures { (x : Numbers) → message_of s.now result ≡ kind_in x 12 (drop at s.now) }
{
    let (index, at) = read_below(s, at, STYLE_COUNT)?;
    let (text, at) = read_text(s, at)?;
    Ok((Message::Style(index, text), at))
}

pub fn read_name(s: &[u8], at: usize, x: Context) -> Read<Message>
    ensures { message_of s.now result ≡ kind_in (context_of x) 13 (drop at s.now) }
{
    let (player, at) = read_player(s, at, x.limit)?;
    let (name, at) = read_text(s, at)?;
    Ok((Message::Name(player, name), at))
}

pub fn read_frags(s: &[u8], at: usize, x: Context) -> Read<Message>
    ensures { message_of s.now result ≡ kind_in (context_of x) Kind.frags (drop at s.now) }
{
    let (player, at) = read_player(s, at, x.limit)?;
    let (frags, at) = read(s, at)?;
    Ok((Message::Frags(player, frags), at))
}

pub fn read_stopsound(s: &[u8], at: usize) -> Read<Message>
    ensures { (x : Numbers) → message_of s.now result ≡ kind_in x 16 (drop at s.now) }
{
    let (source, at) = read_source(s, at)?;
    Ok((Message::Stopsound(source.channel, source.entity), at))
}

pub fn read_colours(s: &[u8], at: usize, x: Context) -> Read<Message>
    ensures { message_of s.now result ≡ kind_in (context_of x) Kind.colours (drop at s.now) }
{
    let (player, at) = read_player(s, at, x.limit)?;
    let (colours, at) = read(s, at)?;
    Ok((Message::Colours(player, colours), at))
}

pub fn read_particle(s: &[u8], at: usize) -> Read<Message>
    ensures { (x : Numbers) → message_of s.now result ≡ kind_in x 18 (drop at s.now) }
{
    let (origin, at) = read_vector(s, at)?;
    let (direction0, at) = read(s, at)?;
    let (direction1, at) = read(s, at)?;
    let (direction2, at) = read(s, at)?;
    let (count, at) = read(s, at)?;
    let (colour, at) = read(s, at)?;
    let particle = Particle {
        origin,
        direction0,
        direction1,
        direction2,
        count,
        colour,
    };
    Ok((Message::Particle(particle), at))
}

pub fn read_damage(s: &[u8], at: usize) -> Read<Message>
    ensures { (x : Numbers) → message_of s.now result ≡ kind_in x 19 (drop at s.now) }
{
    let (armour, at) = read(s, at)?;
    let (blood, at) = read(s, at)?;
    let (origin, at) = read_vector(s, at)?;
    Ok((Message::Damage(armour, blood, origin), at))
}

pub fn read_static(s: &[u8], at: usize) -> Read<Message>
    ensures { (x : Numbers) → message_of s.now result ≡ kind_in x Kind.static (drop at s.now) }
{
    let (look, at) = read_look(s, at)?;
    let (pose, at) = read_pose(s, at)?;
    Ok((Message::Static(look, pose), at))
}

pub fn read_baseline(s: &[u8], at: usize) -> Read<Message>
    ensures { (x : Numbers) → message_of s.now result ≡ kind_in x Kind.baseline (drop at s.now) }
{
    let (entity, at) = read_entity(s, at)?;
    let (look, at) = read_look(s, at)?;
    let (pose, at) = read_pose(s, at)?;
    Ok((Message::Baseline(entity, look, pose), at))
}

// ---- a temporary entity, from behind its type on

#[tactic(auto, unfolding(dem_parts::specs::Kinds::temporary_in, format::specs::Layout::parse))]
fn read_point(s: &[u8], at: usize, kind: u8) -> Read<Message>
    ensures { (x : Numbers) → message_of s.now result ≡ temporary_in x kind point (drop at s.now) }
{
    let (origin, at) = read_vector(s, at)?;
    Ok((Message::Temporary(Temporary::Point(kind, origin)), at))
}

#[tactic(auto, unfolding(dem_parts::specs::Kinds::temporary_in, format::specs::Layout::parse))]
fn read_line(s: &[u8], at: usize, kind: u8) -> Read<Message>
    ensures { (x : Numbers) → message_of s.now result ≡ temporary_in x kind line (drop at s.now) }
{
    let (entity, at) = read_entity(s, at)?;
    let (start, at) = read_vector(s, at)?;
    let (end, at) = read_vector(s, at)?;
    Ok((
        Message::Temporary(Temporary::Line(kind, entity, start, end)),
        at,
    ))
}

#[tactic(auto, unfolding(dem_parts::specs::Kinds::temporary_in, format::specs::Layout::parse))]
fn read_explosion2(s: &[u8], at: usize) -> Read<Message>
    ensures { (x : Numbers) → message_of s.now result ≡ temporary_in x explosion2_type explosion2 (drop at s.now) }
{
    let (origin, at) = read_vector(s, at)?;
    let (first, at) = read(s, at)?;
    let (count, at) = read(s, at)?;
    Ok((
        Message::Temporary(Temporary::Explosion2(origin, first, count)),
        at,
    ))
}

pub fn read_temporary(s: &[u8], at: usize) -> Read<Message>
    ensures { (x : Numbers) → message_of s.now result ≡ kind_in x Kind.temporary (drop at s.now) }
{
    let (kind, at) = read_below(s, at, TEMPORARY_TYPE_COUNT)?;
    if dem_types::is_line(kind) {
        read_line(s, at, kind)
    } else if kind == EXPLOSION2 {
        read_explosion2(s, at)
    } else {
        read_point(s, at, kind)
    }
}

// ----

pub fn read_pause(s: &[u8], at: usize) -> Read<Message>
    ensures { (x : Numbers) → message_of s.now result ≡ kind_in x Kind.pause (drop at s.now) }
{
    let (value, at) = read(s, at)?;
    Ok((Message::Pause(value), at))
}

pub fn read_signon(s: &[u8], at: usize) -> Read<Message>
    ensures { (x : Numbers) → message_of s.now result ≡ kind_in x 25 (drop at s.now) }
{
    let (value, at) = read(s, at)?;
    Ok((Message::Signon(value), at))
}

pub fn read_centerprint(s: &[u8], at: usize) -> Read<Message>
    ensures { (x : Numbers) → message_of s.now result ≡ kind_in x 26 (drop at s.now) }
{
    let (text, at) = read_text(s, at)?;
    Ok((Message::Centerprint(text), at))
}

pub fn read_static_sound(s: &[u8], at: usize) -> Read<Message>
    ensures { (x : Numbers) → message_of s.now result ≡ kind_in x 29 (drop at s.now) }
{
    let (origin, at) = read_vector(s, at)?;
    let (sound, at) = read(s, at)?;
    let (volume, at) = read(s, at)?;
    let (attenuation, at) = read(s, at)?;
    Ok((Message::StaticSound(origin, sound, volume, attenuation), at))
}

pub fn read_finale(s: &[u8], at: usize) -> Read<Message>
    ensures { (x : Numbers) → message_of s.now result ≡ kind_in x 31 (drop at s.now) }
{
    let (text, at) = read_text(s, at)?;
    Ok((Message::Finale(text), at))
}

pub fn read_track(s: &[u8], at: usize) -> Read<Message>
    ensures { (x : Numbers) → message_of s.now result ≡ kind_in x 32 (drop at s.now) }
{
    let (track, at) = read(s, at)?;
    let (looped, at) = read(s, at)?;
    Ok((Message::Track(track, looped), at))
}

pub fn read_cutscene(s: &[u8], at: usize) -> Read<Message>
    ensures { (x : Numbers) → message_of s.now result ≡ kind_in x 34 (drop at s.now) }
{
    let (text, at) = read_text(s, at)?;
    Ok((Message::Cutscene(text), at))
}
