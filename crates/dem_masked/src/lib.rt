// Readers of the messages with a mask, as sent, from behind their number on. A field that the mask leaves out is 0.
#![tactic(auto)]

ghost use Rattle.std.specs.Prelude.{◌≡◌, ◌∷◌, cond, ℕ, ◌+◌, ◌*◌, ◌<◌, drop};
ghost use Rattle.format.specs.Bytes.{read_number, bit};
ghost use Rattle.format.specs.Layout.{number, put, parse};
ghost use Rattle.dem.specs.Kind;
ghost use Rattle.dem.specs.Message.{update_layout, sound_rule, client_rule, high_bit, high_rule};
ghost use Rattle.dem.specs.Scene.{Context as Numbers};
ghost use Rattle.wire.specs.Reads.{read_of};
ghost use Rattle.dem_types.specs.declared.Entity.{Entity};
ghost use Rattle.dem_types.specs.declared.Sound.{Sound};
ghost use Rattle.dem_types.specs.declared.Clientdata.{Clientdata};
ghost use Rattle.dem_types.specs.Values.{sound_values, client_values, motion_values, arms_values, supplies_values};
ghost use Rattle.dem_types.specs.Values.{look_values, pose_values, update_values};
ghost use Rattle.dem_parts.specs.Kinds.{message_of, kind_in};
ghost use Rattle.dem_masked.specs.Slots.{slot_in, motion_layout, arms_layout, supplies_layout, entity_in, look_layout, pose_layout};

use dem::{clientdata, sound, update};
use dem_parts::{read_source, read_vector, require};
use dem_types::{Arms, Clientdata, Entity, Look, Message, Motion, Pose, Sound, Supplies, Update};
use format::refusal::Refusal;
use wire::{Number, Read, has, read, read_if};

// A field that is sent where bit k of the mask is set, or else 0.
#[tactic(auto, unfolding(crate::specs::Slots::slot_in))]
fn read_behind<T: Number>(s: &[u8], at: usize, mask: u16, k: u16) -> Read<T>
    requires { k < 16 }
    ensures { read_of T.bits s.now result ≡ slot_in mask k T.WIDTH (drop at s.now) }
{
    read_if(s, at, has(mask, k))
}

// ---- sound

// The other bits of the mask are reserved.
#[tactic(auto, using(crate::proofs::Parts::sound_ruled), unfolding(format::specs::Bytes::read_number))]
fn read_sound_mask(s: &[u8], at: usize) -> Read<u8>
    ensures { read_of (λ (m : ℕ). m) s.now result ≡ read_number 1 sound_rule (drop at s.now) }
{
    let (mask, next) = read(s, at)?;
    require(mask < sound::MASK_BOUND, Refusal::ReservedBit, at)?;
    Ok((mask, next))
}

// Not put into its caller: the loop over updates there then keeps its place in memory, and reading takes 4 to 8 % more.
#[tactic(auto, using(crate::proofs::Parts::sound_parts))]
#[inline(never)]
pub fn sound_at(s: &[u8], at: usize) -> Read<Sound>
    ensures { (x : Numbers) → read_of (λ (v : Sound). number Kind.sound ∷ sound_values v) s.now result
        ≡ kind_in x Kind.sound (drop at s.now) }
{
    let (mask, at) = read_sound_mask(s, at)?;
    let bits = u16::from(mask);
    let (volume, at) = read_behind(s, at, bits, sound::VOLUME)?;
    let (attenuation, at) = read_behind(s, at, bits, sound::ATTENUATION)?;
    let (source, at) = read_source(s, at)?;
    let (sound, at) = read(s, at)?;
    let (origin, at) = read_vector(s, at)?;
    let heard = Sound {
        mask,
        volume,
        attenuation,
        channel: source.channel,
        entity: source.entity,
        sound,
        origin,
    };
    Ok((heard, at))
}

pub fn read_sound(s: &[u8], at: usize) -> Read<Message>
    ensures { (x : Numbers) → message_of s.now result ≡ kind_in x Kind.sound (drop at s.now) }
{
    let (heard, at) = sound_at(s, at)?;
    Ok((Message::Sound(heard), at))
}

// ---- clientdata

// For each axis in turn: punch, then velocity.
#[tactic(auto, unfolding(format::specs::Layout::parse, crate::specs::Slots::slot_in))]
fn read_motion(s: &[u8], at: usize, mask: u16) -> Read<Motion>
    ensures { read_of motion_values s.now result ≡ parse (motion_layout mask) (drop at s.now) }
{
    let (view_height, at) = read_behind(s, at, mask, clientdata::VIEW_HEIGHT)?;
    let (pitch, at) = read_behind(s, at, mask, clientdata::PITCH)?;
    let (punch0, at) = read_behind(s, at, mask, clientdata::PUNCH0)?;
    let (velocity0, at) = read_behind(s, at, mask, clientdata::VELOCITY0)?;
    let (punch1, at) = read_behind(s, at, mask, clientdata::PUNCH1)?;
    let (velocity1, at) = read_behind(s, at, mask, clientdata::VELOCITY1)?;
    let (punch2, at) = read_behind(s, at, mask, clientdata::PUNCH2)?;
    let (velocity2, at) = read_behind(s, at, mask, clientdata::VELOCITY2)?;
    let motion = Motion {
        view_height,
        pitch,
        punch0,
        velocity0,
        punch1,
        velocity1,
        punch2,
        velocity2,
    };
    Ok((motion, at))
}

#[tactic(auto, unfolding(format::specs::Layout::parse, crate::specs::Slots::slot_in))]
fn read_arms(s: &[u8], at: usize, mask: u16) -> Read<Arms>
    ensures { read_of arms_values s.now result ≡ parse (arms_layout mask) (drop at s.now) }
{
    let (weapon_frame, at) = read_behind(s, at, mask, clientdata::WEAPON_FRAME)?;
    let (armour, at) = read_behind(s, at, mask, clientdata::ARMOUR)?;
    let (weapon_model, at) = read_behind(s, at, mask, clientdata::WEAPON_MODEL)?;
    let arms = Arms {
        weapon_frame,
        armour,
        weapon_model,
    };
    Ok((arms, at))
}

#[tactic(auto, unfolding(format::specs::Layout::parse))]
fn read_supplies(s: &[u8], at: usize) -> Read<Supplies>
    ensures { read_of supplies_values s.now result ≡ parse supplies_layout (drop at s.now) }
{
    let (health, at) = read(s, at)?;
    let (ammo, at) = read(s, at)?;
    let (count0, at) = read(s, at)?;
    let (count1, at) = read(s, at)?;
    let (count2, at) = read(s, at)?;
    let (count3, at) = read(s, at)?;
    let (weapon, at) = read(s, at)?;
    let supplies = Supplies {
        health,
        ammo,
        count0,
        count1,
        count2,
        count3,
        weapon,
    };
    Ok((supplies, at))
}

// Two bits are reserved.
#[tactic(auto, unfolding(format::specs::Bytes::read_number))]
fn read_client_mask(s: &[u8], at: usize) -> Read<u16>
    ensures { read_of (λ (m : ℕ). m) s.now result ≡ read_number 2 client_rule (drop at s.now) }
{
    let (mask, next) = read(s, at)?;
    let is_met = !has(mask, clientdata::RESERVED_LOW) && !has(mask, clientdata::RESERVED_HIGH);
    require(is_met, Refusal::ReservedBit, at)?;
    Ok((mask, next))
}

// Items are sent whatever their bit says.
#[tactic(auto, using(crate::proofs::Parts::client_parts))]
pub fn clientdata_at(s: &[u8], at: usize) -> Read<Clientdata>
    ensures { (x : Numbers) → read_of (λ (v : Clientdata). number Kind.clientdata ∷ client_values v) s.now result
        ≡ kind_in x Kind.clientdata (drop at s.now) }
{
    let (mask, at) = read_client_mask(s, at)?;
    let (motion, at) = read_motion(s, at, mask)?;
    let (items, at) = read(s, at)?;
    let (arms, at) = read_arms(s, at, mask)?;
    let (supplies, at) = read_supplies(s, at)?;
    let data = Clientdata {
        mask,
        motion,
        items,
        arms,
        supplies,
    };
    Ok((data, at))
}

pub fn read_clientdata(s: &[u8], at: usize) -> Read<Message>
    ensures { (x : Numbers) → message_of s.now result ≡ kind_in x Kind.clientdata (drop at s.now) }
{
    let (data, at) = clientdata_at(s, at)?;
    Ok((Message::Clientdata(data), at))
}

// ---- update

// Mask bits 8 to 15, which one of the number brings. The last is reserved.
#[tactic(auto, unfolding(crate::specs::Slots::slot_in, format::specs::Bytes::read_number))]
fn read_high(s: &[u8], at: usize, low: u8) -> Read<u8>
    ensures { read_of (λ (n : ℕ). n) s.now result ≡ read_number (cond (bit low high_bit) 1 0) high_rule (drop at s.now) }
{
    let (high, next) = read_behind::<u8>(s, at, u16::from(low), update::HIGH)?;
    let is_met = !has(u16::from(high), update::RESERVED_IN_HIGH);
    require(is_met, Refusal::ReservedBit, at)?;
    Ok((high, next))
}

// Document 01's E, or a byte, which never breaks its rule.
#[tactic(auto, unfolding(crate::specs::Slots::entity_in, format::specs::Bytes::read_number))]
fn read_entity(s: &[u8], at: usize, two: bool) -> Read<Entity>
    ensures { read_of (λ (e : Entity). e.0) s.now result ≡ entity_in two (drop at s.now) }
{
    if two {
        return dem_parts::read_entity(s, at);
    }
    let (number, at) = read::<u8>(s, at)?;
    Ok((Entity(u16::from(number)), at))
}

#[tactic(auto, unfolding(format::specs::Layout::parse, crate::specs::Slots::slot_in))]
// As `dem_parts` reads a look and a pose, but behind a mask: one reader given the way to read a field would be no plainer, since each has a
// layout of its own.
fn read_look(s: &[u8], at: usize, mask: u16) -> Read<Look>
    ensures { read_of look_values s.now result ≡ parse (look_layout mask) (drop at s.now) }
{
    let (model, at) = read_behind(s, at, mask, update::MODEL)?;
    let (frame, at) = read_behind(s, at, mask, update::FRAME)?;
    let (colormap, at) = read_behind(s, at, mask, update::COLORMAP)?;
    let (skin, at) = read_behind(s, at, mask, update::SKIN)?;
    let look = Look {
        model,
        frame,
        colormap,
        skin,
    };
    Ok((look, at))
}

#[tactic(auto, unfolding(format::specs::Layout::parse, crate::specs::Slots::slot_in))]
fn read_pose(s: &[u8], at: usize, mask: u16) -> Read<Pose>
    ensures { read_of pose_values s.now result ≡ parse (pose_layout mask) (drop at s.now) }
{
    let (x, at) = read_behind(s, at, mask, update::X)?;
    let (angle0, at) = read_behind(s, at, mask, update::ANGLE0)?;
    let (y, at) = read_behind(s, at, mask, update::Y)?;
    let (angle1, at) = read_behind(s, at, mask, update::ANGLE1)?;
    let (z, at) = read_behind(s, at, mask, update::Z)?;
    let (angle2, at) = read_behind(s, at, mask, update::ANGLE2)?;
    let pose = Pose {
        x,
        angle0,
        y,
        angle1,
        z,
        angle2,
    };
    Ok((pose, at))
}

// Mask bits 0 to 6, and those from 8 on.
fn whole_mask(low: u8, high: u8) -> u16
    ensures { result ≡ high * 256 + low }
{
    u16::from_le_bytes([low, high])
}

// The update whose number is `low`: mask bits 0 to 6.
#[tactic(auto, using(crate::proofs::Parts::update_parts))]
pub fn read_update(s: &[u8], at: usize, low: u8) -> Read<Update>
    ensures { read_of update_values s.now result ≡ put (number low) (parse (update_layout low) (drop at s.now)) }
{
    let (high, at) = read_high(s, at, low)?;
    let mask = whole_mask(low, high);
    let (entity, at) = read_entity(s, at, has(mask, update::WIDE))?;
    let (look, at) = read_look(s, at, mask)?;
    let (effects, at) = read_behind(s, at, mask, update::EFFECTS)?;
    let (pose, at) = read_pose(s, at, mask)?;
    let update = Update {
        number: low,
        high,
        entity,
        look,
        effects,
        pose,
    };
    Ok((update, at))
}
