// Writers that put the normal form of one message into a scratch array. There is room behind the place, so a byte is stored always,
// and the place moves on only where it is sent: no field needs a branch of its own.
#![tactic(auto)]

ghost use Rattle.std.specs.Prelude.{◌≡◌, [], ◌∷◌, ◌++◌, not, cond, ℕ, ◌+◌, ◌-◌, ◌*◌, ◌^◌, ◌≤◌, ◌<◌, length, take, drop, eqb};
ghost use Rattle.std.proofs.lemmas.List.Edits.{sets};
ghost use Rattle.format.specs.Bytes.{le_write, bit_of, from_bits};
ghost use Rattle.format.specs.Layout.{number, print, tail};
ghost use Rattle.dem.specs.Limits.{head_size};
ghost use Rattle.dem.specs.Scene.{Context};
ghost use Rattle.dem.specs.Message.{layout, high_byte, update_number, update_slots, send_update, client_slots, client_mask, send_client, fill_sound};
ghost use Rattle.dem.specs.Message.{send_sound};
ghost use Rattle.dem.specs.Recording.{angle_layout};
ghost use Rattle.dem_types.specs.Values.{look_values, pose_values, motion_values, arms_values, sound_values};
ghost use Rattle.dem_scene.specs.Views.{baseline_numbers, record_values, client_values, filled_sound_values};
ghost use Rattle.dem_normal.specs.Put.{Put, Behind};
ghost use Rattle.dem_normal.specs.Sent.{sent_bytes, record_fields, look_slots, pose_slots, update_bits, head_bytes};
ghost use Rattle.dem_normal.specs.Client.{client_fields, supplies_bytes};
ghost use Rattle.dem_normal.specs.Normal.{vector_bytes, place_bytes};

use dem::kind;
use dem::limit::{DEFAULT_ATTENUATION, DEFAULT_VIEW_HEIGHT, DEFAULT_VOLUME};
use dem::sound::CHANNEL_FACTOR;
use dem_scene::{Baseline, Client, FilledSound, Record};
use dem_types::{Arms, Entity, Look, Motion, Pose, Sound, Supplies, Vector};
use wire::Number;

// ---- one field

fn put_if<T: Number>(out: &mut [u8], at: usize, sent: bool, v: T) -> usize
    requires { at + T.WIDTH ≤ length out.old }
    ensures put { Put out.old out.new at result (cond sent (le_write T.WIDTH (T.bits v)) []) }
    ensures near { result ≤ at + T.WIDTH }
{
    let end = dem_writer::put_number(out, at, T::WIDTH, v.to_bits());
    if sent { end } else { at }
}

fn differs<T: Number>(v: T, default: T) -> bool
    ensures { result ≡ not (eqb (T.bits v) (T.bits default)) }
{
    v.to_bits() != default.to_bits()
}

fn put_changed<T: Number>(out: &mut [u8], at: usize, v: T, default: T) -> usize
    requires { at + T.WIDTH ≤ length out.old }
    ensures put { Put out.old out.new at result (cond (not (eqb (T.bits v) (T.bits default))) (le_write T.WIDTH (T.bits v)) []) }
    ensures near { result ≤ at + T.WIDTH }
{
    put_if(out, at, differs(v, default), v)
}

// ---- an update's fields

fn put_look(out: &mut [u8], at: usize, l: Look, l0: Look) -> usize
    requires { at + 4 ≤ length out.old }
    ensures put { Put out.old out.new at result (sent_bytes (look_slots l0) (look_values l)) }
    ensures near { result ≤ at + 4 }
{
    let a = put_changed(out, at, l.model, l0.model);
    let b = put_changed(out, a, l.frame, l0.frame);
    let c = put_changed(out, b, l.colormap, l0.colormap);
    put_changed(out, c, l.skin, l0.skin)
}

fn put_pose(out: &mut [u8], at: usize, p: Pose, p0: Pose) -> usize
    requires { at + 9 ≤ length out.old }
    ensures { Put out.old out.new at result (sent_bytes (pose_slots p0) (pose_values p)) }
{
    let a = put_changed(out, at, p.x, p0.x);
    let b = put_changed(out, a, p.angle0, p0.angle0);
    let c = put_changed(out, b, p.y, p0.y);
    let d = put_changed(out, c, p.angle1, p0.angle1);
    let e = put_changed(out, d, p.z, p0.z);
    put_changed(out, e, p.angle2, p0.angle2)
}

// ---- an update's mask

// Four bits of a mask, the lowest first.
fn four_bits(a: bool, b: bool, c: bool, d: bool) -> u8
    ensures value { result ≡ bit_of a + bit_of b * 2 + bit_of c * 4 + bit_of d * 8 }
    ensures small { result < 16 }
{
    u8::from(a) + u8::from(b) * 2 + u8::from(c) * 4 + u8::from(d) * 8
}

fn high_byte(entity: Entity, r: Record, b: Baseline) -> u8
    ensures { result ≡ high_byte (update_bits entity.0 r b) }
{
    let p = r.pose;
    let p0 = b.pose;
    let l = r.look;
    let l0 = b.look;
    let low = four_bits(
        differs(p.angle0, p0.angle0),
        differs(p.angle2, p0.angle2),
        differs(l.model, l0.model),
        differs(l.colormap, l0.colormap),
    );
    let high = four_bits(
        differs(l.skin, l0.skin),
        r.effects != 0,
        256 <= entity.0,
        false,
    );
    low + high * 16
}

fn low_byte(high: u8, r: Record, b: Baseline) -> u8
    ensures { (e : ℕ) → high ≡ high_byte (update_bits e r b) → result ≡ update_number (update_bits e r b) }
{
    let p = r.pose;
    let p0 = b.pose;
    let frame = differs(r.look.frame, b.look.frame);
    let low = four_bits(
        high != 0,
        differs(p.x, p0.x),
        differs(p.y, p0.y),
        differs(p.z, p0.z),
    );
    let rest = four_bits(differs(p.angle1, p0.angle1), r.bit5, frame, true);
    low + rest * 16
}

// ---- an update

fn put_head(out: &mut [u8], at: usize, n: u8, high: u8, entity: Entity) -> usize
    requires { at + 4 ≤ length out.old }
    ensures put { Put out.old out.new at result (head_bytes n high entity.0) }
    ensures near { result ≤ at + 4 }
{
    let [low_entity, high_entity] = entity.0.to_le_bytes();
    let a = put_if(out, at, true, n);
    let b = put_if(out, a, high != 0, high);
    let c = put_if(out, b, true, low_entity);
    put_if(out, c, 256 <= entity.0, high_entity)
}

fn put_fields(out: &mut [u8], at: usize, r: Record, b: Baseline) -> usize
    requires { at + 14 ≤ length out.old }
    ensures { Put out.old out.new at result (sent_bytes (update_slots (baseline_numbers b)) (record_fields r)) }
{
    let q = put_look(out, at, r.look, b.look);
    let e = put_if(out, q, r.effects != 0, r.effects);
    put_pose(out, e, r.pose, b.pose)
}

// An update of the entity to this record, whose baseline is given.
pub fn put_update(out: &mut [u8], at: usize, entity: Entity, r: Record, b: Baseline) -> usize
    requires { at + 24 ≤ length out.old }
    ensures { (x : Context) → Put out.old out.new at result (print (layout x) (send_update (baseline_numbers b) (number entity.0 ∷ record_values r))) }
{
    let high = high_byte(entity, r, b);
    let n = low_byte(high, r, b);
    let q = put_head(out, at, n, high, entity);
    put_fields(out, q, r, b)
}

// ---- clientdata

// Bit 9 is set always.
fn client_mask(u: Client) -> u16
    ensures { result ≡ from_bits 16 (client_mask u.ground u.water (client_fields u)) }
{
    let m = u.motion;
    let w = u.arms;
    let a = four_bits(
        differs(m.view_height, DEFAULT_VIEW_HEIGHT),
        differs(m.pitch, 0),
        differs(m.punch0, 0),
        differs(m.punch1, 0),
    );
    let b = four_bits(
        differs(m.punch2, 0),
        differs(m.velocity0, 0),
        differs(m.velocity1, 0),
        differs(m.velocity2, 0),
    );
    let c = four_bits(false, true, u.ground, u.water);
    let d = four_bits(
        differs(w.weapon_frame, 0),
        differs(w.armour, 0),
        differs(w.weapon_model, 0),
        false,
    );
    u16::from(a) + u16::from(b) * 16 + u16::from(c) * 256 + u16::from(d) * 4096
}

fn put_motion(out: &mut [u8], at: usize, m: Motion) -> usize
    requires { at + 8 ≤ length out.old }
    ensures put { Put out.old out.new at result (sent_bytes (take 8 client_slots) (motion_values m)) }
    ensures near { result ≤ at + 8 }
{
    let a = put_changed(out, at, m.view_height, DEFAULT_VIEW_HEIGHT);
    let b = put_changed(out, a, m.pitch, 0);
    let c = put_changed(out, b, m.punch0, 0);
    let d = put_changed(out, c, m.velocity0, 0);
    let e = put_changed(out, d, m.punch1, 0);
    let f = put_changed(out, e, m.velocity1, 0);
    let g = put_changed(out, f, m.punch2, 0);
    put_changed(out, g, m.velocity2, 0)
}

fn put_arms(out: &mut [u8], at: usize, w: Arms) -> usize
    requires { at + 3 ≤ length out.old }
    ensures put { Put out.old out.new at result (sent_bytes (drop 9 client_slots) (arms_values w)) }
    ensures near { result ≤ at + 3 }
{
    let a = put_changed(out, at, w.weapon_frame, 0);
    let b = put_changed(out, a, w.armour, 0);
    put_changed(out, b, w.weapon_model, 0)
}

fn put_supplies(out: &mut [u8], at: usize, s: Supplies) -> usize
    requires { at + 8 ≤ length out.old }
    ensures { Put out.old out.new at result (supplies_bytes s) }
{
    let a = put_if(out, at, true, s.health);
    let b = put_if(out, a, true, s.ammo);
    let c = put_if(out, b, true, s.count0);
    let d = put_if(out, c, true, s.count1);
    let e = put_if(out, d, true, s.count2);
    let f = put_if(out, e, true, s.count3);
    put_if(out, f, true, s.weapon)
}

pub fn put_client(out: &mut [u8], at: usize, c: Client) -> usize
    requires { at + 32 ≤ length out.old }
    ensures { (x : Context) → Put out.old out.new at result (print (layout x) (send_client (client_values c))) }
{
    let n = put_if(out, at, true, kind::CLIENTDATA);
    let m = put_if(out, n, true, client_mask(c));
    let i = put_motion(out, m, c.motion);
    let w = put_if(out, i, true, c.items);
    let s = put_arms(out, w, c.arms);
    put_supplies(out, s, c.supplies)
}

// ---- sound

fn put_vector(out: &mut [u8], at: usize, v: Vector) -> usize
    requires { at + 6 ≤ length out.old }
    ensures { Put out.old out.new at result (vector_bytes v) }
{
    let a = put_if(out, at, true, v.x);
    let b = put_if(out, a, true, v.y);
    put_if(out, b, true, v.z)
}

// Channel and entity, sound, origin.
fn put_place(out: &mut [u8], at: usize, s: FilledSound) -> usize
    requires { at + 9 ≤ length out.old }
    ensures { Put out.old out.new at result (place_bytes s) }
{
    let both = (u32::from(s.entity.0) * CHANNEL_FACTOR + u32::from(s.channel)) % 65536;
    let a = put_if(out, at, true, both as u16);
    let b = put_if(out, a, true, s.sound);
    put_vector(out, b, s.origin)
}

pub fn put_sound(out: &mut [u8], at: usize, s: FilledSound) -> usize
    requires { at + 16 ≤ length out.old }
    ensures { (x : Context) → Put out.old out.new at result (print (layout x) (send_sound (filled_sound_values s))) }
{
    let mask = four_bits(
        s.volume != DEFAULT_VOLUME,
        s.attenuation != DEFAULT_ATTENUATION,
        false,
        false,
    );
    let a = put_if(out, at, true, kind::SOUND);
    let b = put_if(out, a, true, mask);
    let c = put_changed(out, b, s.volume, DEFAULT_VOLUME);
    let d = put_changed(out, c, s.attenuation, DEFAULT_ATTENUATION);
    put_place(out, d, s)
}

// The bytes as they were read.
pub fn put_copy(on: bool, out: &mut [u8], at: usize, s: &[u8], from: usize, to: usize) -> usize
    requires { (from ≤ to) × (at + length (take (to - from) (drop from s.now)) ≤ length out.old) }
    ensures { Put out.old out.new at result (cond on (take (to - from) (drop from s.now)) []) }
{
    if !on {
        return at;
    }
    dem_writer::put_text(out, at, s, from, to - from)
}

// ---- behind input that is kept as it was read
// What may not change: the contracts of put_copy, put_update_behind, put_client_behind and put_sound_behind, each of which tells its message's
// own bytes, so their parameters are no struct, and the three no function given a writer.

// How many bytes are put, and from where on the input is kept as it was read: that is not copied yet.
#[derive(Clone, Copy)]
pub struct Scratch {
    pub size: usize,
    pub kept: usize,
}

// An update anew, behind the input that stands in front of it: from `kept` to `at`. From `to` on the input is kept again.
pub fn put_update_behind(
    anew: bool,
    out: &mut [u8],
    size: usize,
    s: &[u8],
    kept: usize,
    at: usize,
    to: usize,
    entity: Entity,
    r: Record,
    b: Baseline,
) -> Scratch
    requires { (kept ≤ at) × (at ≤ length s.now) × (size + (at - kept) + 24 ≤ length out.old) }
    ensures { (x : Context) → Behind anew out.old out.new size kept result.size result.kept to (take (at - kept) (drop kept s.now) ++ print (layout x) (send_update (baseline_numbers b) (number entity.0 ∷ record_values r))) }
{
    if !anew {
        return Scratch { size, kept };
    }
    let a = put_copy(true, out, size, s, kept, at);
    let end = put_update(out, a, entity, r, b);
    Scratch {
        size: end,
        kept: to,
    }
}

// Clientdata anew, likewise.
pub fn put_client_behind(
    anew: bool,
    out: &mut [u8],
    size: usize,
    s: &[u8],
    kept: usize,
    at: usize,
    to: usize,
    c: Client,
) -> Scratch
    requires { (kept ≤ at) × (at ≤ length s.now) × (size + (at - kept) + 32 ≤ length out.old) }
    ensures { (x : Context) → Behind anew out.old out.new size kept result.size result.kept to (take (at - kept) (drop kept s.now) ++ print (layout x) (send_client (client_values c))) }
{
    if !anew {
        return Scratch { size, kept };
    }
    let a = put_copy(true, out, size, s, kept, at);
    let end = put_client(out, a, c);
    Scratch {
        size: end,
        kept: to,
    }
}

// A sound anew, likewise.
pub fn put_sound_behind(
    anew: bool,
    out: &mut [u8],
    size: usize,
    s: &[u8],
    kept: usize,
    at: usize,
    to: usize,
    v: Sound,
) -> Scratch
    requires { (kept ≤ at) × (at ≤ length s.now) × (size + (at - kept) + 16 ≤ length out.old) }
    ensures { (x : Context) → Behind anew out.old out.new size kept result.size result.kept to (take (at - kept) (drop kept s.now) ++ print (layout x) (send_sound (tail (fill_sound (sound_values v))))) }
{
    if !anew {
        return Scratch { size, kept };
    }
    let a = put_copy(true, out, size, s, kept, at);
    let end = put_sound(out, a, dem_scene::fill_sound(v));
    Scratch {
        size: end,
        kept: to,
    }
}

// ---- a block

// A block's head, then the first `size` bytes of the body; into lent room, of which every byte is promised.
pub fn put_block(
    room: &mut [u8],
    at: usize,
    size: usize,
    angle0: u32,
    angle1: u32,
    angle2: u32,
    body: &[u8],
)
    requires { (at + head_size + size ≤ length room.old) × (size ≤ length body.now) × (size < 2 ^ 32) }
    ensures { room.new ≡ sets room.old at (le_write 4 size ++ (print angle_layout (number angle0 ∷ number angle1 ∷ number angle2 ∷ []) ++ take size body.now)) }
{
    let a = dem_writer::put_number(room, at, 4, size as u32);
    let b = dem_writer::put_number(room, a, 4, angle0);
    let c = dem_writer::put_number(room, b, 4, angle1);
    let d = dem_writer::put_number(room, c, 4, angle2);
    dem_writer::put_text(room, d, body, 0, size);
}
