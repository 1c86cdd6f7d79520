// Parts that several messages have, each read at a place, and what the messages of a scene depend on.
#![tactic(auto)]

ghost use Rattle.std.specs.Prelude.{◌≡◌, [], ◌∷◌, cond, drop, Ok, Err};
ghost use Rattle.format.specs.Bytes.{read_number};
ghost use Rattle.format.specs.Layout.{number, done, parse};
ghost use Rattle.dem.specs.Message.{below, entity_rule};
ghost use Rattle.wire.specs.Reads.{read_of};
ghost use Rattle.dem_types.specs.declared.Entity.{Entity};
ghost use Rattle.dem_types.specs.Values.{vector_values, look_values, pose_values};
ghost use Rattle.dem_parts.specs.Kinds.{vector_layout, look_layout, pose_layout, source_layout, source_values};

use dem::limit::ENTITY_BOUND;
use dem::sound::CHANNEL_COUNT;
use dem_types::{Entity, Look, Pose, Vector};
use format::refusal::{Refusal, Refused};
use wire::{Number, Read, read};

// The numbers of a scene that a message's layout depends on: of the latest time its bits, or none yet.
#[derive(Clone, Copy)]
pub struct Context {
    pub limit: u8,
    pub statics: u8,
    pub time: Option<u32>,
}

// A sound's channel and entity.
#[derive(Clone, Copy)]
pub struct Source {
    pub channel: u8,
    pub entity: Entity,
}

#[tactic(auto, unfolding(format::specs::Layout::parse))]
pub fn read_vector(s: &[u8], at: usize) -> Read<Vector>
    ensures { read_of vector_values s.now result ≡ parse (vector_layout done) (drop at s.now) }
{
    let (x, at) = read(s, at)?;
    let (y, at) = read(s, at)?;
    let (z, at) = read(s, at)?;
    Ok((Vector { x, y, z }, at))
}

#[tactic(auto, unfolding(format::specs::Layout::parse))]
pub fn read_look(s: &[u8], at: usize) -> Read<Look>
    ensures { read_of look_values s.now result ≡ parse (look_layout done) (drop at s.now) }
{
    let (model, at) = read(s, at)?;
    let (frame, at) = read(s, at)?;
    let (colormap, at) = read(s, at)?;
    let (skin, at) = read(s, at)?;
    let look = Look {
        model,
        frame,
        colormap,
        skin,
    };
    Ok((look, at))
}

#[tactic(auto, unfolding(format::specs::Layout::parse))]
pub fn read_pose(s: &[u8], at: usize) -> Read<Pose>
    ensures { read_of pose_values s.now result ≡ parse (pose_layout done) (drop at s.now) }
{
    let (x, at) = read(s, at)?;
    let (angle0, at) = read(s, at)?;
    let (y, at) = read(s, at)?;
    let (angle1, at) = read(s, at)?;
    let (z, at) = read(s, at)?;
    let (angle2, at) = read(s, at)?;
    let pose = Pose {
        x,
        angle0,
        y,
        angle1,
        z,
        angle2,
    };
    Ok((pose, at))
}

// A rule of a field that begins at a place.
pub fn require(is_met: bool, refusal: Refusal, place: usize) -> Result<(), Refused>
    ensures { result ≡ cond is_met (Ok tt) (Err (record { refusal = refusal; place = place })) }
{
    if is_met {
        Ok(())
    } else {
        Err(Refused { refusal, place })
    }
}

// A number below a bound.
#[tactic(auto, unfolding(format::specs::Bytes::read_number))]
pub fn read_below<T: Number>(s: &[u8], at: usize, bound: T) -> Read<T>
    ensures { read_of T.bits s.now result ≡ read_number T.WIDTH (below (T.bits bound)) (drop at s.now) }
{
    let (number, next) = read::<T>(s, at)?;
    let is_met = number.to_bits() < bound.to_bits();
    require(is_met, Refusal::WrongNumber, at)?;
    Ok((number, next))
}

// Document 01's E.
pub fn read_entity(s: &[u8], at: usize) -> Read<Entity>
    ensures { read_of (λ (e : Entity). e.0) s.now result ≡ read_number 2 entity_rule (drop at s.now) }
{
    let (number, at) = read_below(s, at, ENTITY_BOUND)?;
    Ok((Entity(number), at))
}

// Three bits of channel, then the entity.
#[tactic(auto, unfolding(format::specs::Layout::parse, format::specs::Bytes::read_number))]
pub fn read_source(s: &[u8], at: usize) -> Read<Source>
    ensures { read_of source_values s.now result ≡ parse source_layout (drop at s.now) }
{
    let (both, next) = read::<u16>(s, at)?;
    let source = Source {
        channel: (both % CHANNEL_COUNT) as u8,
        entity: Entity(both / CHANNEL_COUNT),
    };
    require(source.entity.0 < ENTITY_BOUND, Refusal::WrongNumber, at)?;
    Ok((source, next))
}
