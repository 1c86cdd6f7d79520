// The scene: what all messages so far lead to.
#![tactic(auto)]

ghost use Rattle.std.specs.Prelude.{◌≡◌, List, [], ◌∷◌, map, true, cond, ℕ, ◌≤◌, ◌<◌, take, drop};
ghost use Rattle.std.specs.Int.{w16, w32};
ghost use Rattle.std.proofs.Common.{of_z};
ghost use Rattle.dem.specs.Kind;
ghost use Rattle.dem.specs.Limits.{entity_count, stat_count};
ghost use Rattle.format.specs.Bytes.{bit};
ghost use Rattle.format.specs.Layout.{Value, number, numbers, tail};
ghost use Rattle.format.specs.Masked.{fill_slots};
ghost use Rattle.dem.specs.Scene.{Scene as Described, zero_clientdata, cleared, context_of, count_marks, in_range};
ghost use Rattle.dem_parts.specs.Kinds.{context_of as numbers_of};
ghost use Rattle.dem.specs.Message.{apply, raise, client_stats, fill, update_slots, client_slots, fill_update, fill_client, fill_sound};
ghost use Rattle.wire.specs.declared.Text.{Text};
ghost use Rattle.dem_types.specs.declared.Message.{Message};
ghost use Rattle.dem_types.specs.Values.{values_by, values_of, look_values, pose_values, motion_values, arms_values, sound_values, update_values, client_values as sent_client_values};
ghost use Rattle.dem_scene.specs.Views.{Numbered, BaselineOf, filled_by, Tables, no_tables, unmarked, scene_of, scene_with, with_tables, with_stats, baseline_numbers, record_values, client_values, filled_sound_values};

use dem::limit::{
    DEFAULT_ATTENUATION, DEFAULT_VIEW_HEIGHT, DEFAULT_VOLUME, ENTITY_BOUND, ENTITY_COUNT,
    HIGHEST_LIMIT, PLAYER_COUNT, STAT_COUNT, STATIC_LIMIT,
};
use dem::{clientdata, sound, update};
use dem_parts::Context;
use dem_types::{
    Arms, Clientdata, Entity, Look, Message, Motion, Player, Pose, Sound, Supplies, Update, Vector,
};
use format::limit::TIME_BOUND;

#[derive(Clone, Copy, PartialEq, Eq)]
pub struct Baseline {
    pub look: Look,
    pub pose: Pose,
}

// The latest record of an entity; `bit5` is its update's yes or no.
#[derive(Clone, Copy, PartialEq, Eq)]
pub struct Record {
    pub bit5: bool,
    pub look: Look,
    pub effects: u8,
    pub pose: Pose,
}

#[derive(Clone, Copy)]
pub struct Client {
    pub ground: bool,
    pub water: bool,
    pub motion: Motion,
    pub items: i32,
    pub arms: Arms,
    pub supplies: Supplies,
}

// A sound filled in: it has no mask.
#[derive(Clone, Copy)]
pub struct FilledSound {
    pub volume: u8,
    pub attenuation: u8,
    pub channel: u8,
    pub entity: Entity,
    pub sound: u8,
    pub origin: Vector,
}

// A message filled in; a plain one is as it was sent.
#[derive(Clone, Copy)]
pub enum Filled {
    Plain(Message),
    Sound(FilledSound),
    Clientdata(Client),
    Update(Entity, Record),
}

#[derive(Clone, Copy, PartialEq, Eq)]
pub struct PlayerLine {
    pub frags: i16,
    pub colours: u8,
}

// Every part of the scene but the tables of entities and the number of marks: small enough to go by value through functions.
#[derive(Clone, Copy)]
pub struct Rest {
    pub stats: [i32; STAT_COUNT],
    pub client: Client,
    pub view: Entity,
    pub pause: u8,
    pub statics: u8,
    pub limit: u8,
    pub time: Option<u32>,
    pub ended: bool,
    pub players: [PlayerLine; PLAYER_COUNT],
}

// Three tables and no table of structs: the definitions' views and laws (`Views.scene_with`, `Tables`) may not change, and an update stores a
// record alone. It has no invariant, since a caller may lend any scene, and one outside its ranges is answered 14.
#[derive(Clone, Copy)]
pub struct Scene {
    pub baselines: [Baseline; ENTITY_COUNT],
    pub records: [Record; ENTITY_COUNT],
    pub present: [bool; ENTITY_COUNT],
    pub present_count: usize,
    pub rest: Rest,
}

// What an entity has that no message told of.
const CLEARED_LOOK: Look = Look {
    model: 0,
    frame: 0,
    colormap: 0,
    skin: 0,
};

const CLEARED_POSE: Pose = Pose {
    x: 0,
    angle0: 0,
    y: 0,
    angle1: 0,
    z: 0,
    angle2: 0,
};

impl Baseline {
    pub const CLEARED: Baseline = Baseline {
        look: CLEARED_LOOK,
        pose: CLEARED_POSE,
    };
}

impl Record {
    pub const CLEARED: Record = Record {
        bit5: false,
        look: CLEARED_LOOK,
        effects: 0,
        pose: CLEARED_POSE,
    };
}

impl PlayerLine {
    pub const CLEARED: PlayerLine = PlayerLine {
        frags: 0,
        colours: 0,
    };
}

impl Client {
    const CLEARED: Client = Client {
        ground: false,
        water: false,
        motion: Motion {
            view_height: 0,
            pitch: 0,
            punch0: 0,
            velocity0: 0,
            punch1: 0,
            velocity1: 0,
            punch2: 0,
            velocity2: 0,
        },
        items: 0,
        arms: Arms {
            weapon_frame: 0,
            armour: 0,
            weapon_model: 0,
        },
        supplies: Supplies {
            health: 0,
            ammo: 0,
            count0: 0,
            count1: 0,
            count2: 0,
            count3: 0,
            weapon: 0,
        },
    };
}

// The scene after serverinfo; with a limit of 0, the scene at the start.
#[tactic(auto, unfolding(crate::specs::Views::scene_with))]
pub fn cleared_scene(limit: u8) -> Scene
    ensures { scene_of result ≡ cleared limit }
{
    Scene {
        baselines: [Baseline::CLEARED; ENTITY_COUNT],
        records: [Record::CLEARED; ENTITY_COUNT],
        present: [false; ENTITY_COUNT],
        present_count: 0,
        rest: cleared_rest(limit),
    }
}

#[tactic(auto, unfolding(crate::specs::Views::scene_with))]
fn cleared_rest(limit: u8) -> Rest
    ensures { (t : Tables) → scene_with t result ≡ with_tables t (cleared limit) }
{
    Rest {
        stats: [0; STAT_COUNT],
        client: Client::CLEARED,
        view: Entity(0),
        pause: 0,
        statics: 0,
        limit,
        time: None,
        ended: false,
        players: [PlayerLine::CLEARED; PLAYER_COUNT],
    }
}

fn count_marks(present: &[bool; ENTITY_COUNT]) -> usize
    ensures value { result ≡ count_marks present.now }
    ensures bound { result ≤ entity_count }
{
    // Not by filter and count, which take 4 times as long here.
    let mut count = 0;
    for set in present {
        count += usize::from(*set);
    }
    count
}

impl Scene {
    // Whether each part is in its range.
    #[tactic(auto, unfolding(dem::specs::Scene::in_range, crate::specs::Views::scene_with))]
    pub fn in_range(&self) -> bool
        ensures value { result ≡ in_range (scene_of self.now) }
        ensures bound { result ≡ true → self.now.present_count ≤ entity_count }
    {
        let x = &self.rest;
        x.view.0 < ENTITY_BOUND
            && x.statics <= STATIC_LIMIT
            && x.limit <= HIGHEST_LIMIT
            && x.time.is_none_or(|bits| bits < TIME_BOUND)
            && self.present_count == count_marks(&self.present)
    }
}

impl Rest {
    // The numbers of a scene that the layouts of messages depend on.
    #[tactic(auto, unfolding(crate::specs::Views::scene_with))]
    pub fn context(&self) -> Context
        ensures { (t : Tables) → numbers_of result ≡ context_of (scene_with t self.now) }
    {
        Context {
            limit: self.limit,
            statics: self.statics,
            time: self.time,
        }
    }
}

// ---- filling in: a field as sent where its bit of the mask is set, or else its default

fn pick<T: Copy>(mask: u16, k: u16, sent: T, other: T) -> T
    requires { k < 16 }
    ensures { result ≡ cond (bit mask k) sent other }
{
    if wire::has(mask, k) { sent } else { other }
}

fn fill_look(mask: u16, sent: Look, b: Baseline) -> Look
    ensures { look_values result ≡ fill_slots (take 4 (update_slots (baseline_numbers b))) (bit mask) (look_values sent) }
{
    let other = b.look;
    Look {
        model: pick(mask, update::MODEL, sent.model, other.model),
        frame: pick(mask, update::FRAME, sent.frame, other.frame),
        colormap: pick(mask, update::COLORMAP, sent.colormap, other.colormap),
        skin: pick(mask, update::SKIN, sent.skin, other.skin),
    }
}

fn fill_pose(mask: u16, sent: Pose, b: Baseline) -> Pose
    ensures { pose_values result ≡ fill_slots (drop 5 (update_slots (baseline_numbers b))) (bit mask) (pose_values sent) }
{
    let other = b.pose;
    Pose {
        x: pick(mask, update::X, sent.x, other.x),
        angle0: pick(mask, update::ANGLE0, sent.angle0, other.angle0),
        y: pick(mask, update::Y, sent.y, other.y),
        angle1: pick(mask, update::ANGLE1, sent.angle1, other.angle1),
        z: pick(mask, update::Z, sent.z, other.z),
        angle2: pick(mask, update::ANGLE2, sent.angle2, other.angle2),
    }
}

// What an update does not send comes from its entity's baseline, effects 0.
pub fn fill_update(u: Update, b: Baseline) -> Record
    ensures { number Kind.update ∷ number u.entity.0 ∷ record_values result ≡ fill_update (baseline_numbers b) u.number (tail (update_values u)) }
{
    let mask = u.mask();
    Record {
        bit5: wire::has(mask, update::RECORD),
        look: fill_look(mask, u.look, b),
        effects: pick(mask, update::EFFECTS, u.effects, 0),
        pose: fill_pose(mask, u.pose, b),
    }
}

fn fill_motion(mask: u16, sent: Motion) -> Motion
    ensures { motion_values result ≡ fill_slots (take 8 client_slots) (bit mask) (motion_values sent) }
{
    Motion {
        view_height: pick(
            mask,
            clientdata::VIEW_HEIGHT,
            sent.view_height,
            DEFAULT_VIEW_HEIGHT,
        ),
        pitch: pick(mask, clientdata::PITCH, sent.pitch, 0),
        punch0: pick(mask, clientdata::PUNCH0, sent.punch0, 0),
        velocity0: pick(mask, clientdata::VELOCITY0, sent.velocity0, 0),
        punch1: pick(mask, clientdata::PUNCH1, sent.punch1, 0),
        velocity1: pick(mask, clientdata::VELOCITY1, sent.velocity1, 0),
        punch2: pick(mask, clientdata::PUNCH2, sent.punch2, 0),
        velocity2: pick(mask, clientdata::VELOCITY2, sent.velocity2, 0),
    }
}

fn fill_arms(mask: u16, sent: Arms) -> Arms
    ensures { arms_values result ≡ fill_slots (drop 9 client_slots) (bit mask) (arms_values sent) }
{
    Arms {
        weapon_frame: pick(mask, clientdata::WEAPON_FRAME, sent.weapon_frame, 0),
        armour: pick(mask, clientdata::ARMOUR, sent.armour, 0),
        weapon_model: pick(mask, clientdata::WEAPON_MODEL, sent.weapon_model, 0),
    }
}

// View height its default, other fields 0, items always as sent.
pub fn fill_client(c: Clientdata) -> Client
    ensures { number Kind.clientdata ∷ client_values result ≡ fill_client (sent_client_values c) }
{
    Client {
        ground: wire::has(c.mask, clientdata::GROUND),
        water: wire::has(c.mask, clientdata::WATER),
        motion: fill_motion(c.mask, c.motion),
        items: c.items,
        arms: fill_arms(c.mask, c.arms),
        supplies: c.supplies,
    }
}

// Volume and attenuation their defaults.
pub fn fill_sound(s: Sound) -> FilledSound
    ensures { number Kind.sound ∷ filled_sound_values result ≡ fill_sound (sound_values s) }
{
    let mask = u16::from(s.mask);
    FilledSound {
        volume: pick(mask, sound::VOLUME, s.volume, DEFAULT_VOLUME),
        attenuation: pick(mask, sound::ATTENUATION, s.attenuation, DEFAULT_ATTENUATION),
        channel: s.channel,
        entity: s.entity,
        sound: s.sound,
        origin: s.origin,
    }
}

// An update is filled in from the baseline given. A message without a mask is answered as it is: whatever values v says of messages, if it
// says this one's, these are told.
#[tactic(auto, unfolding(dem::specs::Message::fill))]
pub fn fill_message(m: Message, b: Baseline) -> Filled
    ensures { (s : Described) (v : Message → List Value) (t : Text → List ℕ) → v m ≡ values_by t m → Numbered m → BaselineOf s m b → filled_by v result ≡ fill s (values_by t m) }
{
    match m {
        Message::Sound(s) => Filled::Sound(fill_sound(s)),
        Message::Clientdata(c) => Filled::Clientdata(fill_client(c)),
        Message::Update(u) => Filled::Update(u.entity, fill_update(u, b)),
        _ => Filled::Plain(m),
    }
}

// ---- what messages do to the rest. An element is set at its place and not by get_mut, which tells a proof no element afterwards.

#[tactic(auto, unfolding(crate::specs::Views::scene_with, dem::specs::Message::apply))]
fn with_stat(mut x: Rest, i: u8, v: i32) -> Rest
    ensures { (t : Tables) → scene_with t result ≡ apply (scene_with t x) (number Kind.stat ∷ number i ∷ number (of_z w32 v) ∷ []) }
{
    let at = usize::from(i);
    if at < STAT_COUNT {
        x.stats[at] = v;
    }
    x
}

// One more, from the highest to the lowest.
#[tactic(auto, unfolding(crate::specs::Views::scene_with))]
fn raised(mut x: Rest, i: usize) -> Rest
    requires { i < stat_count }
    ensures { (t : Tables) → scene_with t result ≡ with_stats (raise (map (of_z w32) x.stats) i) (scene_with t x) }
{
    x.stats[i] = x.stats[i].wrapping_add(1);
    x
}

#[tactic(auto, unfolding(crate::specs::Views::scene_with, dem::specs::Message::apply))]
// Two, and none for both fields of a line, which would be no plainer: each is one store, proved against its own message.
fn with_frags(mut x: Rest, p: Player, v: i16) -> Rest
    ensures { (t : Tables) → scene_with t result ≡ apply (scene_with t x) (number Kind.frags ∷ number p.0 ∷ number (of_z w16 v) ∷ []) }
{
    let at = usize::from(p.0);
    if at < PLAYER_COUNT {
        x.players[at].frags = v;
    }
    x
}

#[tactic(auto, unfolding(crate::specs::Views::scene_with, dem::specs::Message::apply))]
fn with_colours(mut x: Rest, p: Player, v: u8) -> Rest
    ensures { (t : Tables) → scene_with t result ≡ apply (scene_with t x) (number Kind.colours ∷ number p.0 ∷ number v ∷ []) }
{
    let at = usize::from(p.0);
    if at < PLAYER_COUNT {
        x.players[at].colours = v;
    }
    x
}

// Stats 0, health, and 2 to 10: weapon model, ammo, armour, weapon frame, four counts, weapon.
fn client_stats(mut stats: [i32; STAT_COUNT], c: Client) -> [i32; STAT_COUNT]
    ensures { map (of_z w32) result ≡ client_stats (map (of_z w32) stats) (numbers (client_values c)) }
{
    let arms = c.arms;
    let supplies = c.supplies;
    stats[0] = i32::from(supplies.health);
    stats[2] = i32::from(arms.weapon_model);
    stats[3] = i32::from(supplies.ammo);
    stats[4] = i32::from(arms.armour);
    stats[5] = i32::from(arms.weapon_frame);
    stats[6] = i32::from(supplies.count0);
    stats[7] = i32::from(supplies.count1);
    stats[8] = i32::from(supplies.count2);
    stats[9] = i32::from(supplies.count3);
    stats[10] = i32::from(supplies.weapon);
    stats
}

#[tactic(auto, unfolding(crate::specs::Views::scene_with, dem::specs::Message::apply))]
pub fn with_client(mut x: Rest, c: Client) -> Rest
    ensures { (t : Tables) → scene_with t result ≡ apply (scene_with t x) (number Kind.clientdata ∷ client_values c) }
{
    x.stats = client_stats(x.stats, c);
    x.client = c;
    x
}

// After a time, which also clears the marks.
#[tactic(auto, unfolding(crate::specs::Views::scene_with, dem::specs::Message::apply))]
pub fn with_time(mut x: Rest, bits: u32) -> Rest
    ensures { (t : Tables) → scene_with (unmarked t) result ≡ apply (scene_with t x) (number Kind.time ∷ number bits ∷ []) }
{
    x.time = Some(bits);
    x
}

// After any message, whose strings are places in a text. An update and a baseline change no part of it.
#[tactic(auto, unfolding(crate::specs::Views::scene_with, dem::specs::Message::apply, dem::specs::Message::fill))]
pub fn apply_rest(x: Rest, m: Message, text: &[u8]) -> Rest
    requires { x.statics < 255 }
    ensures { (t : Tables) → Numbered m → scene_with no_tables result ≡ with_tables no_tables (apply (scene_with t x) (fill (scene_with t x) (values_of text.now m))) }
{
    match m {
        Message::Disconnect => Rest { ended: true, ..x },
        Message::Stat(i, v) => with_stat(x, i, v),
        Message::View(view) => Rest { view, ..x },
        Message::Time(bits) => with_time(x, bits),
        Message::Serverinfo(s) => cleared_rest(s.limit),
        Message::Frags(p, v) => with_frags(x, p, v),
        Message::Clientdata(c) => with_client(x, fill_client(c)),
        Message::Colours(p, v) => with_colours(x, p, v),
        Message::Static(_, _) => Rest {
            statics: x.statics + 1,
            ..x
        },
        Message::Pause(pause) => Rest { pause, ..x },
        Message::Killed => raised(x, 14),
        Message::Secret => raised(x, 13),
        _ => x,
    }
}
