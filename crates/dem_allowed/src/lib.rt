// The test behind refusal 13: whether some bytes read to a message as sent, in a scene.
#![tactic(auto)]

ghost use Rattle.std.specs.Prelude.{◌≡◌, [], ◌+◌, ◌≤◌, ◌<◌, ◌||◌, eqb, length, MatchOption};
ghost use Rattle.format.specs.Limits.{string_limit};
ghost use Rattle.dem.specs.Limits.{name_limit};
ghost use Rattle.format.specs.Bytes.{bit};
ghost use Rattle.format.specs.Layout.{allows, string_bytes, done};
ghost use Rattle.dem.specs.Message.{layout, names};
ghost use Rattle.strings.specs.Names.{names_in};
ghost use Rattle.dem_types.specs.Values.{values_by};
ghost use Rattle.dem_parts.specs.Kinds.{context_of};
ghost use Rattle.wire.specs.Reads.{placed, text_in};
ghost use Rattle.dem_allowed.specs.Tests.{motion_test, arms_test, look_test, pose_test, source_test, sound_test, time_test, serverinfo_test};
ghost use Rattle.dem_allowed.specs.Tests.{client_test, temporary_test, update_test, message_test};

use dem::kind::UPDATE;
use dem::limit::{
    ENTITY_BOUND, HIGHEST_LIMIT, PROTOCOL, STAT_BOUND, STATIC_LIMIT, STYLE_COUNT,
    TEMPORARY_TYPE_COUNT,
};
use dem::temporary::EXPLOSION2;
use dem::{clientdata, sound, update};
use dem_parts::Context;
use dem_types::{
    Arms, Clientdata, Entity, Look, Message, Motion, Pose, Serverinfo, Sound, Temporary, Update,
};
use format::limit::STRING_LIMIT;
use wire::{Number, Text};

// ---- strings

// The bytes of a place that lies inside the text.
fn bytes_at(text: &[u8], p: Text) -> Option<&[u8]>
    ensures { MatchOption result (length text.now < p.start + p.len) (λ s. (p.start + p.len ≤ length text.now) × (s.now ≡ text_in text.now p)) }
{
    text.get(p.start..)?.get(..p.len)
}

// Not too long, and no byte of it 0 or FF.
fn is_string(bytes: &[u8]) -> bool
    ensures { result ≡ string_bytes string_limit bytes.now }
{
    bytes.len() < STRING_LIMIT && bytes.iter().all(|b| *b != 0 && *b != 255)
}

// Two lists of names with their closing empty names, and nothing behind them.
fn are_lists(bytes: &[u8]) -> bool
    ensures { result ≡ allows (names name_limit (names name_limit done)) (names_in [] bytes.now) }
{
    match strings::read_names(bytes, 0) {
        Ok((_, next)) => bytes.len() <= next,
        Err(_) => false,
    }
}

// A place inside the text that holds a string.
pub fn text_is_string(text: &[u8], p: Text) -> bool
    ensures { result ≡ string_bytes string_limit (placed text.now p) }
{
    match bytes_at(text, p) {
        Some(bytes) => is_string(bytes),
        None => false,
    }
}

pub fn names_are_lists(text: &[u8], p: Text) -> bool
    ensures { result ≡ allows (names name_limit (names name_limit done)) (names_in [] (placed text.now p)) }
{
    match bytes_at(text, p) {
        Some(bytes) => are_lists(bytes),
        None => false,
    }
}

// ---- fields behind a mask: each that is not sent is 0

fn field_fits<T: Number>(mask: u16, k: u16, v: T) -> bool
    requires { k < 16 }
    ensures { result ≡ (bit mask k || eqb (T.bits v) 0) }
{
    wire::has(mask, k) | (v.to_bits() == 0)
}

#[tactic(auto, unfolding(crate::specs::Tests::motion_test))]
fn motion_fits(mask: u16, m: Motion) -> bool
    ensures { result ≡ motion_test (bit mask) m }
{
    field_fits(mask, clientdata::VIEW_HEIGHT, m.view_height)
        & field_fits(mask, clientdata::PITCH, m.pitch)
        & field_fits(mask, clientdata::PUNCH0, m.punch0)
        & field_fits(mask, clientdata::VELOCITY0, m.velocity0)
        & field_fits(mask, clientdata::PUNCH1, m.punch1)
        & field_fits(mask, clientdata::VELOCITY1, m.velocity1)
        & field_fits(mask, clientdata::PUNCH2, m.punch2)
        & field_fits(mask, clientdata::VELOCITY2, m.velocity2)
}

#[tactic(auto, unfolding(crate::specs::Tests::arms_test))]
fn arms_fit(mask: u16, a: Arms) -> bool
    ensures { result ≡ arms_test (bit mask) a }
{
    field_fits(mask, clientdata::WEAPON_FRAME, a.weapon_frame)
        & field_fits(mask, clientdata::ARMOUR, a.armour)
        & field_fits(mask, clientdata::WEAPON_MODEL, a.weapon_model)
}

#[tactic(auto, unfolding(crate::specs::Tests::look_test))]
fn look_fits(mask: u16, l: Look) -> bool
    ensures { result ≡ look_test (bit mask) l }
{
    field_fits(mask, update::MODEL, l.model)
        & field_fits(mask, update::FRAME, l.frame)
        & field_fits(mask, update::COLORMAP, l.colormap)
        & field_fits(mask, update::SKIN, l.skin)
}

#[tactic(auto, unfolding(crate::specs::Tests::pose_test))]
fn pose_fits(mask: u16, p: Pose) -> bool
    ensures { result ≡ pose_test (bit mask) p }
{
    field_fits(mask, update::X, p.x)
        & field_fits(mask, update::ANGLE0, p.angle0)
        & field_fits(mask, update::Y, p.y)
        & field_fits(mask, update::ANGLE1, p.angle1)
        & field_fits(mask, update::Z, p.z)
        & field_fits(mask, update::ANGLE2, p.angle2)
}

// ---- kinds

// Three bits of channel, and an entity.
fn source_fits(channel: u8, entity: Entity) -> bool
    ensures { result ≡ source_test channel entity }
{
    (channel < sound::CHANNEL_BOUND) & (entity.0 < ENTITY_BOUND)
}

// No reserved bit of the mask is set.
#[tactic(auto, unfolding(crate::specs::Tests::sound_test))]
fn sound_fits(s: Sound) -> bool
    ensures { result ≡ sound_test s }
{
    let mask = u16::from(s.mask);
    let volume = field_fits(mask, sound::VOLUME, s.volume);
    let attenuation = field_fits(mask, sound::ATTENUATION, s.attenuation);
    (s.mask < sound::MASK_BOUND) & (volume & attenuation) & source_fits(s.channel, s.entity)
}

// Sign clear, exponent below 255, and not before the time before.
#[tactic(auto, unfolding(crate::specs::Tests::time_test))]
fn time_fits(bits: u32, x: Context) -> bool
    ensures { result ≡ time_test x bits }
{
    !dem_unmasked::is_wrong_time(bits, x)
}

#[tactic(auto, unfolding(crate::specs::Tests::serverinfo_test, crate::specs::Tests::lists_test))]
fn serverinfo_fits(text: &[u8], s: Serverinfo) -> bool
    ensures { result ≡ serverinfo_test text.now s }
{
    (s.protocol == PROTOCOL)
        & (1..=HIGHEST_LIMIT).contains(&s.limit)
        & text_is_string(text, s.map)
        & names_are_lists(text, s.names)
}

// No reserved bit of the mask is set.
#[tactic(auto, unfolding(crate::specs::Tests::client_test))]
fn clientdata_fits(c: Clientdata) -> bool
    ensures { result ≡ client_test c }
{
    let mask = c.mask;
    !(wire::has(mask, clientdata::RESERVED_LOW) | wire::has(mask, clientdata::RESERVED_HIGH))
        & motion_fits(mask, c.motion)
        & arms_fit(mask, c.arms)
}

// The type belongs to the case, and a line's entity is one.
#[tactic(auto, unfolding(crate::specs::Tests::temporary_test))]
fn temporary_fits(t: Temporary) -> bool
    ensures { result ≡ temporary_test t }
{
    match t {
        Temporary::Point(k, _) => (k < TEMPORARY_TYPE_COUNT)
            & !(dem_types::is_line(k) | (k == EXPLOSION2)),
        Temporary::Line(k, e, _, _) => dem_types::is_line(k) & (e.0 < ENTITY_BOUND),
        Temporary::Explosion2(_, _, _) => true,
    }
}

// The byte of high mask bits and the entity's second byte are as the mask says.
#[tactic(auto, unfolding(crate::specs::Tests::update_test, crate::specs::Tests::sent_test))]
fn update_fits(u: Update) -> bool
    ensures { result ≡ update_test u }
{
    let mask = u.mask();
    let entity = u.entity.0;
    let high = field_fits(mask, update::HIGH, u.high) & !wire::has(mask, update::RESERVED);
    let named = high & (wire::has(mask, update::WIDE) | (entity < 256)) & (entity < ENTITY_BOUND);
    let looks = named & look_fits(mask, u.look) & field_fits(mask, update::EFFECTS, u.effects);
    (UPDATE <= u.number) & (looks & pose_fits(mask, u.pose))
}

// ---- every message

// The tests of a message's fields, each of which fits its type.
#[tactic(auto, unfolding(crate::specs::Tests::message_test))]
fn passes(m: Message, text: &[u8], x: Context) -> bool
    ensures { result ≡ message_test text.now x m }
{
    match m {
        Message::Stat(i, _) => i < STAT_BOUND,
        Message::Version(v) => v == PROTOCOL,
        Message::View(e) | Message::Baseline(e, _, _) => e.0 < ENTITY_BOUND,
        Message::Sound(s) => sound_fits(s),
        Message::Time(v) => time_fits(v, x),
        Message::Print(t)
        | Message::Stufftext(t)
        | Message::Centerprint(t)
        | Message::Finale(t)
        | Message::Cutscene(t) => text_is_string(text, t),
        Message::Serverinfo(s) => serverinfo_fits(text, s),
        Message::Style(i, t) => (i < STYLE_COUNT) & text_is_string(text, t),
        Message::Name(p, t) => (p.0 < x.limit) & text_is_string(text, t),
        Message::Frags(p, _) | Message::Colours(p, _) => p.0 < x.limit,
        Message::Clientdata(c) => clientdata_fits(c),
        Message::Stopsound(c, e) => source_fits(c, e),
        Message::Static(_, _) => x.statics < STATIC_LIMIT,
        Message::Temporary(t) => temporary_fits(t),
        Message::Update(u) => update_fits(u),
        _ => true,
    }
}

// Whether some bytes read to the message in a scene with these numbers, its strings being places in the text.
pub fn is_allowed(m: Message, text: &[u8], x: Context) -> bool
    ensures { result ≡ allows (layout (context_of x)) (values_by (placed text.now) m) }
{
    passes(m, text, x)
}
