// Updates and clientdata where all the bytes that they could have are there: one test for them all, and then no field is tested for
// being whole. The place behind the last says whether all that were sent lie in the block.
#![tactic(auto)]

ghost use Rattle.std.specs.Prelude.{◌≡◌, [], ◌∷◌, ◌++◌, true, false, cond, ◌+◌, ◌<◌, ◌≤◌, length, take, drop, IfOk, IfSome, IfNone};
ghost use Rattle.dem.specs.Kind;
ghost use Rattle.dem.specs.Message.{record_bit, update_slots, client_slots, send_client};
ghost use Rattle.dem.specs.Scene.{Context};
ghost use Rattle.format.specs.Bytes.{found, le_read, bit, bit_of};
ghost use Rattle.format.specs.Layout.{number};
ghost use Rattle.format.specs.Masked.{Mask};
ghost use Rattle.wire.specs.Reads.{read_of};
ghost use Rattle.dem_parts.specs.Kinds.{kind_in};
ghost use Rattle.dem_types.specs.Values.{pose_values, motion_values, arms_values, supplies_values};
ghost use Rattle.dem_scene.specs.Views.{baseline_numbers, record_values, client_values};
ghost use Rattle.dem_direct.specs.Spread.{field_or, behind, needless_or, spread, passed, needless_in, look_slots, look_of, pose_slots, supplies_slots, client_fields, client_in, client_at};
ghost use Rattle.dem_direct.specs.Heads.{head_at, HeadLoaded, FieldsLoaded};

use dem::limit::{DEFAULT_VIEW_HEIGHT, ENTITY_COUNT};
use dem::{clientdata, kind, update};
use dem_scene::{Baseline, Client, Record};
use dem_types::{Arms, Entity, Look, Motion, Pose, Supplies};
use wire::{Number, Read, has, load};

// Fields that a mask brings, with a default where one is not sent; the place behind them, and whether one of them, or one before them, was
// sent needlessly: it is its default.
#[derive(Drop)]
struct FieldOr<T> {
    value: T,
    next: usize,
    needless: bool,
}

// A way to pick a field where bit k of the mask is set, or else the value given.
trait Pick {
    fn field<T: Number>(
        d: &[u8],
        at: usize,
        mask: u16,
        k: u16,
        other: T,
        needless: bool,
    ) -> FieldOr<T>
        requires { (at + T.WIDTH ≤ length d.now) × (k < 16) }
        ensures value_value { T.bits result.value ≡ field_or d.now at (bit mask k) T.WIDTH (T.bits other) }
        ensures place { result.next ≡ behind at (bit mask k) T.WIDTH }
        ensures flag { result.needless ≡ needless_or needless d.now at (bit mask k) T.WIDTH (T.bits other) }
        ensures near { result.next ≤ at + T.WIDTH };
}

// By a jump, for fields that can mostly be foreseen.
struct Tested;

impl Pick for Tested {
    #[tactic(auto, unfolding(crate::specs::Spread::field_or, crate::specs::Spread::behind, crate::specs::Spread::needless_or))]
    fn field<T: Number>(
        d: &[u8],
        at: usize,
        mask: u16,
        k: u16,
        other: T,
        needless: bool,
    ) -> FieldOr<T> {
        if has(mask, k) {
            let value = load::<T>(d, at);
            return FieldOr {
                value,
                next: at + T::WIDTH,
                needless: needless | (value.to_bits() == other.to_bits()),
            };
        }
        FieldOr {
            value: other,
            next: at,
            needless,
        }
    }
}

// One of two values, chosen without a jump.
fn one_of<T: Copy>(first: bool, v: T, other: T) -> T
    ensures { result ≡ cond first v other }
{
    if first { v } else { other }
}

// Without a jump, for fields that come and go too often to be foreseen.
struct Chosen;

impl Pick for Chosen {
    #[tactic(auto, using(crate::proofs::Fields::bits), unfolding(crate::specs::Spread::field_or, crate::specs::Spread::behind, crate::specs::Spread::needless_or))]
    fn field<T: Number>(
        d: &[u8],
        at: usize,
        mask: u16,
        k: u16,
        other: T,
        needless: bool,
    ) -> FieldOr<T> {
        let value = load::<T>(d, at);
        // The bit as a number is the flag and the step at once; by `has` a field takes 2 instructions more.
        let bit = (mask >> k) % 2;
        let sent = bit != 0;
        let size = usize::from(bit) * T::WIDTH;
        FieldOr {
            value: one_of(sent, value, other),
            next: at + size,
            needless: needless | (sent & (value.to_bits() == other.to_bits())),
        }
    }
}

// ---- the fields of a record

// A look, then effects.
#[derive(Clone, Copy)]
struct LookOr {
    model: u8,
    frame: u8,
    colormap: u8,
    skin: u8,
    effects: u8,
}

// Each is sent or not. Only the frame is sent often: where none of the others is, they are passed over at once.
#[tactic(auto, using(crate::proofs::Fields::frame_alone))]
fn look_or<P: Pick>(d: &[u8], at: usize, mask: u16, o: Look) -> FieldOr<LookOr>
    requires { at + 5 ≤ length d.now }
    ensures result_value { look_of result.value ≡ spread d.now (look_slots o) (bit mask) at }
    ensures place { result.next ≡ passed (look_slots o) (bit mask) at }
    ensures flag { result.needless ≡ needless_in d.now (look_slots o) (bit mask) at false }
    ensures near { result.next ≤ at + 5 }
{
    if (mask >> update::MODEL) % 16 == 0 {
        let f = P::field(d, at, mask, update::FRAME, o.frame, false);
        let value = LookOr {
            model: o.model,
            frame: f.value,
            colormap: o.colormap,
            skin: o.skin,
            effects: 0,
        };
        return FieldOr {
            value,
            next: f.next,
            needless: f.needless,
        };
    }
    let m = P::field(d, at, mask, update::MODEL, o.model, false);
    let f = P::field(d, m.next, mask, update::FRAME, o.frame, m.needless);
    let c = P::field(d, f.next, mask, update::COLORMAP, o.colormap, f.needless);
    let s = P::field(d, c.next, mask, update::SKIN, o.skin, c.needless);
    let e = P::field(d, s.next, mask, update::EFFECTS, 0u8, s.needless);
    let value = LookOr {
        model: m.value,
        frame: f.value,
        colormap: c.value,
        skin: s.value,
        effects: e.value,
    };
    FieldOr {
        value,
        next: e.next,
        needless: e.needless,
    }
}

// Nobody asks whether one of its fields was sent needlessly. It is left in the result all the same: where nothing becomes of it, the compiler
// moves each place by a bit of the mask, beside the branch, and reading takes 2 % more instructions.
fn pose_or(d: &[u8], at: usize, mask: u16, o: Pose) -> FieldOr<Pose>
    requires { at + 9 ≤ length d.now }
    ensures pose_value { pose_values result.value ≡ spread d.now (pose_slots o) (bit mask) at }
    ensures place { result.next ≡ passed (pose_slots o) (bit mask) at }
{
    let x = Tested::field(d, at, mask, update::X, o.x, false);
    let a = Tested::field(d, x.next, mask, update::ANGLE0, o.angle0, x.needless);
    let y = Tested::field(d, a.next, mask, update::Y, o.y, a.needless);
    let b = Tested::field(d, y.next, mask, update::ANGLE1, o.angle1, y.needless);
    let z = Tested::field(d, b.next, mask, update::Z, o.z, b.needless);
    let c = Tested::field(d, z.next, mask, update::ANGLE2, o.angle2, z.needless);
    let value = Pose {
        x: x.value,
        angle0: a.value,
        y: y.value,
        angle1: b.value,
        z: z.value,
        angle2: c.value,
    };
    FieldOr {
        value,
        next: c.next,
        needless: c.needless,
    }
}

// A field and the place behind it; or none, where it was sent needlessly.
fn needed<T: Number>(d: &[u8], at: usize, mask: u16, k: u16, other: T) -> Option<(T, usize)>
    requires { (at + T.WIDTH ≤ length d.now) × (k < 16) }
    ensures some { IfSome result (λ f. (T.bits f.0 ≡ field_or d.now at (bit mask k) T.WIDTH (T.bits other)) × (f.1 ≡ behind at (bit mask k) T.WIDTH) × (needless_or false d.now at (bit mask k) T.WIDTH (T.bits other) ≡ false) × (f.1 ≤ at + T.WIDTH)) }
    ensures none { IfNone result (needless_or false d.now at (bit mask k) T.WIDTH (T.bits other) ≡ true) }
{
    let f = Tested::field(d, at, mask, k, other, false);
    if f.needless {
        return None;
    }
    Some((f.value, f.next))
}

// A pose and the place behind it; or none, left at the first field sent needlessly.
#[tactic(auto, using(crate::proofs::Fields::needless_kept, crate::proofs::Fields::handed_on))]
fn needed_pose(d: &[u8], at: usize, mask: u16, o: Pose) -> Option<(Pose, usize)>
    requires { at + 9 ≤ length d.now }
    ensures some { IfSome result (λ p. (pose_values p.0 ≡ spread d.now (pose_slots o) (bit mask) at) × (p.1 ≡ passed (pose_slots o) (bit mask) at) × (needless_in d.now (pose_slots o) (bit mask) at false ≡ false)) }
    ensures none { IfNone result (needless_in d.now (pose_slots o) (bit mask) at false ≡ true) }
{
    let (x, at) = needed(d, at, mask, update::X, o.x)?;
    let (angle0, at) = needed(d, at, mask, update::ANGLE0, o.angle0)?;
    let (y, at) = needed(d, at, mask, update::Y, o.y)?;
    let (angle1, at) = needed(d, at, mask, update::ANGLE1, o.angle1)?;
    let (z, at) = needed(d, at, mask, update::Z, o.z)?;
    let (angle2, at) = needed(d, at, mask, update::ANGLE2, o.angle2)?;
    let pose = Pose {
        x,
        angle0,
        y,
        angle1,
        z,
        angle2,
    };
    Some((pose, at))
}

// ---- an update

// Mask and entity, the place behind them, and whether one of their bytes was sent needlessly: a byte of high mask bits that is 0, or a second
// byte of the entity that is 0.
#[derive(Clone, Copy)]
pub struct UpdateHead {
    pub mask: u16,
    pub entity: Entity,
    pub next: usize,
    pub needless: bool,
}

// The head of the update with the number `low`, from behind the number on; nothing is refused.
pub fn update_head(d: &[u8], at: usize, low: u8) -> UpdateHead
    requires { at + 3 ≤ length d.now }
    ensures value { result ≡ head_at d.now at low }
    ensures near { result.next ≤ at + 3 }
{
    let h = Tested::field(d, at, u16::from(low), update::HIGH, 0u8, false);
    let mask = u16::from(h.value) * 256 + u16::from(low);
    let q = h.next;
    let lo = d[q];
    let hi = Tested::field(d, q + 1, mask, update::WIDE, 0u8, h.needless);
    let number = u16::from(hi.value) * 256 + u16::from(lo);
    UpdateHead {
        mask,
        entity: Entity(number),
        next: hi.next,
        needless: hi.needless,
    }
}

// The head of an update that is loaded, and the index of its entity.
#[derive(Clone, Copy)]
pub struct LoadedHead {
    pub index: usize,
    pub head: UpdateHead,
}

// None of other messages, and of updates whose entity or mask is refused.
pub fn load_head(d: &[u8], at: usize) -> Option<LoadedHead>
    requires { at + 4 ≤ length d.now }
    ensures { IfSome result (HeadLoaded d.now at) }
{
    let k = d[at];
    if k < kind::UPDATE {
        return None;
    }
    let head = update_head(d, at + 1, k);
    let index = dem_types::index_of(head.entity);
    if ENTITY_COUNT <= index || update::MASK_BOUND <= head.mask {
        return None;
    }
    Some(LoadedHead { index, head })
}

// A record of what was read of an update with this mask.
fn record_of(mask: u16, o: Look, l: LookOr, pose: Pose) -> Record
    ensures { record_values result ≡ number (bit_of (bit mask record_bit)) ∷ (look_of l ++ pose_values pose) }
{
    let mut record = Record {
        bit5: has(mask, update::RECORD),
        look: o,
        effects: l.effects,
        pose,
    };
    // Each by itself: a look that is copied whole is taken apart and put together again as one number.
    record.look.model = l.model;
    record.look.frame = l.frame;
    record.look.colormap = l.colormap;
    record.look.skin = l.skin;
    record
}

// A record and the place behind the fields.
#[derive(Clone, Copy)]
pub struct RecordAt {
    pub record: Record,
    pub next: usize,
}

// What an update with this head does not send comes from the baseline, effects 0. None of one that ends behind the place `end`.
pub fn update_fields(d: &[u8], h: UpdateHead, b: Baseline, end: usize) -> Option<RecordAt>
    requires { h.next + 14 ≤ length d.now }
    ensures { IfSome result (FieldsLoaded d.now h b end) }
{
    let l = look_or::<Chosen>(d, h.next, h.mask, b.look);
    let p = pose_or(d, l.next, h.mask, b.pose);
    let next = p.next;
    if end < next {
        return None;
    }
    let record = record_of(h.mask, b.look, l.value, p.value);
    Some(RecordAt { record, next })
}

// The same of an update in normal form: none of one with a needless field, which is left behind its look or at its first needless
// coordinate or angle. Where it ends is not asked.
pub fn needed_fields(d: &[u8], h: UpdateHead, b: Baseline) -> Option<RecordAt>
    requires { h.next + 14 ≤ length d.now }
    ensures fields_loaded { IfSome result (λ r. FieldsLoaded d.now h b r.next r) }
    ensures needed { IfSome result (λ r. needless_in d.now (update_slots (baseline_numbers b)) (bit h.mask) h.next false ≡ false) }
{
    let l = look_or::<Tested>(d, h.next, h.mask, b.look);
    if l.needless {
        return None;
    }
    let (pose, next) = needed_pose(d, l.next, h.mask, b.pose)?;
    let record = record_of(h.mask, b.look, l.value, pose);
    Some(RecordAt { record, next })
}

// ---- clientdata

// View height its default, other fields 0.
fn motion_or(d: &[u8], at: usize, mask: u16, needless: bool) -> FieldOr<Motion>
    requires { at + 8 ≤ length d.now }
    ensures motion_value { motion_values result.value ≡ spread d.now (take 8 client_slots) (bit mask) at }
    ensures place { result.next ≡ passed (take 8 client_slots) (bit mask) at }
    ensures flag { result.needless ≡ needless_in d.now (take 8 client_slots) (bit mask) at needless }
    ensures near { result.next ≤ at + 8 }
{
    let h = Chosen::field(
        d,
        at,
        mask,
        clientdata::VIEW_HEIGHT,
        DEFAULT_VIEW_HEIGHT,
        needless,
    );
    let p = Chosen::field(d, h.next, mask, clientdata::PITCH, 0i8, h.needless);
    let p0 = Tested::field(d, p.next, mask, clientdata::PUNCH0, 0i8, p.needless);
    let v0 = Chosen::field(d, p0.next, mask, clientdata::VELOCITY0, 0i8, p0.needless);
    let p1 = Tested::field(d, v0.next, mask, clientdata::PUNCH1, 0i8, v0.needless);
    let v1 = Chosen::field(d, p1.next, mask, clientdata::VELOCITY1, 0i8, p1.needless);
    let p2 = Tested::field(d, v1.next, mask, clientdata::PUNCH2, 0i8, v1.needless);
    let v2 = Chosen::field(d, p2.next, mask, clientdata::VELOCITY2, 0i8, p2.needless);
    let value = Motion {
        view_height: h.value,
        pitch: p.value,
        punch0: p0.value,
        velocity0: v0.value,
        punch1: p1.value,
        velocity1: v1.value,
        punch2: p2.value,
        velocity2: v2.value,
    };
    FieldOr {
        value,
        next: v2.next,
        needless: v2.needless,
    }
}

fn arms_or(d: &[u8], at: usize, mask: u16, needless: bool) -> FieldOr<Arms>
    requires { at + 3 ≤ length d.now }
    ensures arms_value { arms_values result.value ≡ spread d.now (drop 9 client_slots) (bit mask) at }
    ensures place { result.next ≡ passed (drop 9 client_slots) (bit mask) at }
    ensures flag { result.needless ≡ needless_in d.now (drop 9 client_slots) (bit mask) at needless }
    ensures near { result.next ≤ at + 3 }
{
    let f = Chosen::field(d, at, mask, clientdata::WEAPON_FRAME, 0u8, needless);
    let a = Chosen::field(d, f.next, mask, clientdata::ARMOUR, 0u8, f.needless);
    let m = Chosen::field(d, a.next, mask, clientdata::WEAPON_MODEL, 0u8, a.needless);
    let value = Arms {
        weapon_frame: f.value,
        armour: a.value,
        weapon_model: m.value,
    };
    FieldOr {
        value,
        next: m.next,
        needless: m.needless,
    }
}

fn supplies_in(d: &[u8], at: usize) -> Supplies
    requires { at + 8 ≤ length d.now }
    ensures { (mask : Mask) → supplies_values result ≡ spread d.now supplies_slots mask at }
{
    Supplies {
        health: load(d, at),
        ammo: d[at + 2],
        count0: d[at + 3],
        count1: d[at + 4],
        count2: d[at + 5],
        count3: d[at + 6],
        weapon: d[at + 7],
    }
}

#[tactic(auto, using(crate::proofs::Fields::field_sent, crate::proofs::Fields::behind_sent))]
fn client_fields(d: &[u8], at: usize, mask: u16, needless: bool) -> FieldOr<Client>
    requires { at + 23 ≤ length d.now }
    ensures client_value { client_values result.value ≡ client_in d.now mask at }
    ensures place { result.next ≡ passed client_fields (bit mask) at }
    ensures flag { result.needless ≡ needless_in d.now client_fields (bit mask) at needless }
    ensures near { result.next ≤ at + 23 }
{
    let m = motion_or(d, at, mask, needless);
    let q = m.next;
    let items = load(d, q);
    let a = arms_or(d, q + 4, mask, m.needless);
    let p = a.next;
    let supplies = supplies_in(d, p);
    let value = Client {
        ground: has(mask, clientdata::GROUND),
        water: has(mask, clientdata::WATER),
        motion: m.value,
        items,
        arms: a.value,
        supplies,
    };
    FieldOr {
        value,
        next: p + 8,
        needless: a.needless,
    }
}

// Clientdata filled in, and whether it may not be in normal form.
#[derive(Clone, Copy)]
pub struct LoadedClient {
    pub client: Client,
    pub needless: bool,
}

// A function of its own, so that the compiler joins the two bytes before bits of them are tested: 10 instructions fewer.
fn mask_in(s: &[u8], at: usize) -> u16
    requires { at + 2 ≤ length s.now }
    ensures { result ≡ le_read (take 2 (drop at s.now)) }
{
    load(s, at)
}

// The bytes of the longest clientdata behind its number.
const CLIENT_SIZE: usize = 25;

// Where too few bytes follow, or a reserved bit is set, the reader that names refusals decides.
pub fn client_at(s: &[u8], at: usize) -> Read<LoadedClient>
    ensures value { (x : Context) → read_of (λ (c : LoadedClient). number Kind.clientdata ∷ client_values c.client) s.now result ≡ client_at s.now at x }
    ensures kept { (x : Context) → IfOk result (λ r. r.0.needless ≡ false → found (send_client (client_values r.0.client)) (drop r.1 s.now) ≡ kind_in x Kind.clientdata (drop at s.now)) }
{
    if at <= s.len() && CLIENT_SIZE <= s.len() - at {
        let mask = mask_in(s, at);
        if !has(mask, clientdata::RESERVED_LOW) && mask < clientdata::MASK_BOUND {
            let f = client_fields(s, at + 2, mask, !has(mask, clientdata::ITEMS));
            let loaded = LoadedClient {
                client: f.value,
                needless: f.needless,
            };
            return Ok((loaded, f.next));
        }
    }
    let (data, next) = dem_masked::clientdata_at(s, at)?;
    let filled = LoadedClient {
        client: dem_scene::fill_client(data),
        needless: true,
    };
    Ok((filled, next))
}
