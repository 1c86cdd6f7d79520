// The bytes that a message as sent is written as: a list of pieces, each some bytes of a text and then a number. One loop writes every
// message.
#![tactic(auto)]

ghost use Rattle.std.specs.Prelude.{◌≡◌, List, [], ◌∷◌, ◌++◌, true, cond, ℕ, suc, ◌+◌, ◌*◌, ◌^◌, ◌≤◌, ◌<◌, length, take, drop};
ghost use Rattle.std.proofs.lemmas.List.Edits.{sets};
ghost use Rattle.std.specs.Int.{cast_unsigned, w32};
ghost use Rattle.format.specs.Bytes.{le_write, bit, bit_of};
ghost use Rattle.format.specs.Layout.{number, print, allows, tail};
ghost use Rattle.dem.specs.Scene.{Context};
ghost use Rattle.dem.specs.Kind;
ghost use Rattle.dem.specs.Message.{layout, update_layout, explosion2_type, wide_bit};
ghost use Rattle.wire.specs.Reads.{text_in};
ghost use Rattle.wire.specs.declared.Text.{Text};
ghost use Rattle.dem_types.specs.Values.{values_by, temporary_values, sound_values, client_values, update_values};
ghost use Rattle.dem_writer.specs.Bytes.{number_piece, text_piece, vector_pieces, look_pieces, pose_pieces, list_of, pieces_bytes};
ghost use Rattle.dem_writer.specs.Texts.{TextsOf};

use dem::kind;
use dem::temporary::EXPLOSION2;
use dem_types::{
    Clientdata, Entity, Look, Message, Particle, Pose, Serverinfo, Sound, Temporary, Update, Vector,
};
use wire::{Number, Text};

// Pieces that a message has: clientdata has 21.
const MOST: usize = 24;

// Some bytes of a text, then a number of `width` bytes, little end first. A number of no bytes is not sent.
#[derive(Clone, Copy)]
pub struct Piece {
    pub text: Text,
    pub width: usize,
    pub value: u32,
}

// A buffer and its length: a rule of the project, no heap.
#[derive(Clone, Copy)]
pub struct Pieces {
    pub items: [Piece; MOST],
    pub count: usize,
}

// ---- pieces

// A number alone.
fn number(width: usize, value: u32) -> Piece
    ensures { result ≡ number_piece width value }
{
    let text = Text { start: 0, len: 0 };
    Piece { text, width, value }
}

fn number_of<T: Number>(v: T) -> Piece
    ensures { result ≡ number_piece T.WIDTH (T.bits v) }
{
    number(T::WIDTH, v.to_bits())
}

// A field that a mask brings where its bit k is set, and else no bytes.
fn sent<T: Number>(mask: u16, k: u16, v: T) -> Piece
    requires { k < 16 }
    ensures { result ≡ number_piece (cond (bit mask k) T.WIDTH 0) (T.bits v) }
{
    if wire::has(mask, k) {
        return number_of(v);
    }
    number(0, v.to_bits())
}

// A text and its closing zero, of one byte; serverinfo's lists, which end in zeros of their own, have none.
fn text(t: Text, width: usize) -> Piece
    ensures { result ≡ text_piece t width }
{
    Piece {
        text: t,
        width,
        value: 0,
    }
}

fn string(t: Text) -> Piece
    ensures { result ≡ text_piece t 1 }
{
    text(t, 1)
}

impl Pieces {
    // These, in turn.
    fn of<const N: usize>(listed: [Piece; N]) -> Pieces
        requires { N ≤ 24 }
        ensures { list_of result ≡ listed.entry }
    {
        let mut items = [number(0, 0); MOST];
        items[..N].copy_from_slice(&listed);
        Pieces { items, count: N }
    }

    fn listed(&self) -> &[Piece]
        ensures { result.now ≡ list_of self.now }
    {
        &self.items[..self.count.min(MOST)]
    }
}

// ---- kinds of messages

// A message's number and a string.
fn with_string(n: u8, t: Text) -> Pieces
    ensures { list_of result ≡ (number_piece 1 n ∷ text_piece t 1 ∷ []) }
{
    Pieces::of([number_of(n), string(t)])
}

// A message's number, a number, and what is shown where.
fn placed(n: u8, e: Piece, l: Look, p: Pose) -> Pieces
    ensures { list_of result ≡ (number_piece 1 n ∷ e ∷ (look_pieces l ++ pose_pieces p)) }
{
    Pieces::of([
        number_of(n),
        e,
        number_of(l.model),
        number_of(l.frame),
        number_of(l.colormap),
        number_of(l.skin),
        number_of(p.x),
        number_of(p.angle0),
        number_of(p.y),
        number_of(p.angle1),
        number_of(p.z),
        number_of(p.angle2),
    ])
}

#[tactic(auto, unfolding(format::specs::Layout::print, dem::specs::Message::layout, dem::specs::Message::kind_layout, crate::specs::Bytes::bytes_of))]
fn particle(p: Particle) -> Pieces
    ensures { (x : Context) (t : List ℕ) (f : Text → List ℕ) → pieces_bytes t result ≡ print (layout x) (values_by f (Message.Particle p)) }
{
    Pieces::of([
        number_of(kind::PARTICLE),
        number_of(p.origin.x),
        number_of(p.origin.y),
        number_of(p.origin.z),
        number_of(p.direction0),
        number_of(p.direction1),
        number_of(p.direction2),
        number_of(p.count),
        number_of(p.colour),
    ])
}

// A temporary entity of a type and an origin.
fn point(k: u8, v: Vector) -> Pieces
    ensures { list_of result ≡ (number_piece 1 Kind.temporary ∷ number_piece 1 k ∷ vector_pieces v) }
{
    Pieces::of([
        number_of(kind::TEMPORARY),
        number_of(k),
        number_of(v.x),
        number_of(v.y),
        number_of(v.z),
    ])
}

// A temporary entity from an entity and a vector to another.
fn line(k: u8, e: Entity, v: Vector, w: Vector) -> Pieces
    ensures { list_of result ≡ (number_piece 1 Kind.temporary ∷ number_piece 1 k ∷ number_piece 2 e.0 ∷ (vector_pieces v ++ vector_pieces w)) }
{
    Pieces::of([
        number_of(kind::TEMPORARY),
        number_of(k),
        number_of(e.0),
        number_of(v.x),
        number_of(v.y),
        number_of(v.z),
        number_of(w.x),
        number_of(w.y),
        number_of(w.z),
    ])
}

// A temporary entity of a vector and colours.
fn explosion2(v: Vector, first: u8, count: u8) -> Pieces
    ensures { list_of result ≡ (number_piece 1 Kind.temporary ∷ number_piece 1 explosion2_type ∷ (vector_pieces v ++ (number_piece 1 first ∷ number_piece 1 count ∷ []))) }
{
    Pieces::of([
        number_of(kind::TEMPORARY),
        number_of(EXPLOSION2),
        number_of(v.x),
        number_of(v.y),
        number_of(v.z),
        number_of(first),
        number_of(count),
    ])
}

fn temporary(k: Temporary) -> Pieces
    ensures { (x : Context) (t : List ℕ) → allows (layout x) (number Kind.temporary ∷ temporary_values k) ≡ true → pieces_bytes t result ≡ print (layout x) (number Kind.temporary ∷ temporary_values k) }
{
    match k {
        Temporary::Point(n, v) => point(n, v),
        Temporary::Line(n, e, v, w) => line(n, e, v, w),
        Temporary::Explosion2(v, first, count) => explosion2(v, first, count),
    }
}

fn serverinfo(s: Serverinfo) -> Pieces
    ensures { list_of result ≡ (number_piece 1 Kind.serverinfo ∷ number_piece 4 (cast_unsigned w32 s.protocol) ∷ number_piece 1 s.limit ∷ number_piece 1 s.game ∷ text_piece s.map 1 ∷ text_piece s.names 0 ∷ []) }
{
    Pieces::of([
        number_of(kind::SERVERINFO),
        number_of(s.protocol),
        number_of(s.limit),
        number_of(s.game),
        string(s.map),
        text(s.names, 0),
    ])
}

// A channel and an entity in one number, whose three low bits are the channel's.
fn source(channel: u8, entity: Entity) -> Piece
    ensures { result ≡ number_piece 2 (entity.0 * 8 + channel) }
{
    number(
        2,
        u32::from(entity.0) * dem::sound::CHANNEL_FACTOR + u32::from(channel),
    )
}

#[tactic(auto, unfolding(format::specs::Layout::print, dem::specs::Message::layout, dem::specs::Message::kind_layout, crate::specs::Bytes::bytes_of))]
fn sound(s: Sound) -> Pieces
    ensures { (x : Context) (t : List ℕ) → pieces_bytes t result ≡ print (layout x) (number Kind.sound ∷ sound_values s) }
{
    let mask = u16::from(s.mask);
    Pieces::of([
        number_of(kind::SOUND),
        number_of(s.mask),
        sent(mask, dem::sound::VOLUME, s.volume),
        sent(mask, dem::sound::ATTENUATION, s.attenuation),
        source(s.channel, s.entity),
        number_of(s.sound),
        number_of(s.origin.x),
        number_of(s.origin.y),
        number_of(s.origin.z),
    ])
}

fn clientdata(c: Clientdata) -> Pieces
    ensures { (x : Context) (t : List ℕ) → pieces_bytes t result ≡ print (layout x) (number Kind.clientdata ∷ client_values c) }
{
    let mask = c.mask;
    let m = c.motion;
    let a = c.arms;
    let s = c.supplies;
    Pieces::of([
        number_of(kind::CLIENTDATA),
        number_of(mask),
        sent(mask, dem::clientdata::VIEW_HEIGHT, m.view_height),
        sent(mask, dem::clientdata::PITCH, m.pitch),
        sent(mask, dem::clientdata::PUNCH0, m.punch0),
        sent(mask, dem::clientdata::VELOCITY0, m.velocity0),
        sent(mask, dem::clientdata::PUNCH1, m.punch1),
        sent(mask, dem::clientdata::VELOCITY1, m.velocity1),
        sent(mask, dem::clientdata::PUNCH2, m.punch2),
        sent(mask, dem::clientdata::VELOCITY2, m.velocity2),
        number_of(c.items),
        sent(mask, dem::clientdata::WEAPON_FRAME, a.weapon_frame),
        sent(mask, dem::clientdata::ARMOUR, a.armour),
        sent(mask, dem::clientdata::WEAPON_MODEL, a.weapon_model),
        number_of(s.health),
        number_of(s.ammo),
        number_of(s.count0),
        number_of(s.count1),
        number_of(s.count2),
        number_of(s.count3),
        number_of(s.weapon),
    ])
}

// An entity's bytes: two where an update's mask says so, and else one.
fn entity_width(mask: u16) -> usize
    ensures { result ≡ suc (bit_of (bit mask wide_bit)) }
{
    1 + usize::from(wire::has(mask, dem::update::WIDE))
}

fn update(u: Update) -> Pieces
    ensures { (t : List ℕ) → pieces_bytes t result ≡ le_write 1 u.number ++ print (update_layout u.number) (tail (update_values u)) }
{
    let mask = u.mask();
    let l = u.look;
    let p = u.pose;
    Pieces::of([
        number_of(u.number),
        sent(mask, dem::update::HIGH, u.high),
        number(entity_width(mask), u32::from(u.entity.0)),
        sent(mask, dem::update::MODEL, l.model),
        sent(mask, dem::update::FRAME, l.frame),
        sent(mask, dem::update::COLORMAP, l.colormap),
        sent(mask, dem::update::SKIN, l.skin),
        sent(mask, dem::update::EFFECTS, u.effects),
        sent(mask, dem::update::X, p.x),
        sent(mask, dem::update::ANGLE0, p.angle0),
        sent(mask, dem::update::Y, p.y),
        sent(mask, dem::update::ANGLE1, p.angle1),
        sent(mask, dem::update::Z, p.z),
        sent(mask, dem::update::ANGLE2, p.angle2),
    ])
}

// A message's pieces: their bytes are those that the message is written as, in any scene in which some bytes read to it, and whichever
// text its strings are places of.
#[tactic(auto, unfolding(format::specs::Layout::print, dem::specs::Message::layout, dem::specs::Message::kind_layout, crate::specs::Bytes::bytes_of))]
pub fn pieces_of(m: Message) -> Pieces
    ensures { (x : Context) (t : List ℕ) (f : Text → List ℕ) → TextsOf t f → allows (layout x) (values_by f m) ≡ true → pieces_bytes t result ≡ print (layout x) (values_by f m) }
{
    match m {
        Message::Nop => Pieces::of([number_of(kind::NOP)]),
        Message::Disconnect => Pieces::of([number_of(kind::DISCONNECT)]),
        Message::Stat(i, v) => Pieces::of([number_of(kind::STAT), number_of(i), number_of(v)]),
        Message::Version(v) => Pieces::of([number_of(kind::VERSION), number_of(v)]),
        Message::View(e) => Pieces::of([number_of(kind::VIEW), number_of(e.0)]),
        Message::Sound(s) => sound(s),
        Message::Time(v) => Pieces::of([number_of(kind::TIME), number_of(v)]),
        Message::Print(t) => with_string(kind::PRINT, t),
        Message::Stufftext(t) => with_string(kind::STUFFTEXT, t),
        Message::SetAngles(a, b, c) => Pieces::of([
            number_of(kind::SET_ANGLES),
            number_of(a),
            number_of(b),
            number_of(c),
        ]),
        Message::Serverinfo(s) => serverinfo(s),
        Message::Style(i, t) => Pieces::of([number_of(kind::STYLE), number_of(i), string(t)]),
        Message::Name(p, t) => Pieces::of([number_of(kind::NAME), number_of(p.0), string(t)]),
        Message::Frags(p, v) => Pieces::of([number_of(kind::FRAGS), number_of(p.0), number_of(v)]),
        Message::Clientdata(c) => clientdata(c),
        Message::Stopsound(c, e) => Pieces::of([number_of(kind::STOPSOUND), source(c, e)]),
        Message::Colours(p, v) => {
            Pieces::of([number_of(kind::COLOURS), number_of(p.0), number_of(v)])
        }
        Message::Particle(p) => particle(p),
        Message::Damage(a, b, v) => Pieces::of([
            number_of(kind::DAMAGE),
            number_of(a),
            number_of(b),
            number_of(v.x),
            number_of(v.y),
            number_of(v.z),
        ]),
        Message::Static(l, p) => placed(kind::STATIC, number(0, 0), l, p),
        Message::Baseline(e, l, p) => placed(kind::BASELINE, number_of(e.0), l, p),
        Message::Temporary(k) => temporary(k),
        Message::Pause(v) => Pieces::of([number_of(kind::PAUSE), number_of(v)]),
        Message::Signon(v) => Pieces::of([number_of(kind::SIGNON), number_of(v)]),
        Message::Centerprint(t) => with_string(kind::CENTERPRINT, t),
        Message::Killed => Pieces::of([number_of(kind::KILLED)]),
        Message::Secret => Pieces::of([number_of(kind::SECRET)]),
        Message::StaticSound(v, a, b, c) => Pieces::of([
            number_of(kind::STATIC_SOUND),
            number_of(v.x),
            number_of(v.y),
            number_of(v.z),
            number_of(a),
            number_of(b),
            number_of(c),
        ]),
        Message::Intermission => Pieces::of([number_of(kind::INTERMISSION)]),
        Message::Finale(t) => with_string(kind::FINALE, t),
        Message::Track(a, b) => Pieces::of([number_of(kind::TRACK), number_of(a), number_of(b)]),
        Message::Sellscreen => Pieces::of([number_of(kind::SELLSCREEN)]),
        Message::Cutscene(t) => with_string(kind::CUTSCENE, t),
        Message::Update(u) => update(u),
    }
}

// ---- into room

// The bytes of a place, as many as the text has there.
fn part(text: &[u8], p: Text) -> &[u8]
    ensures { result.now ≡ text_in text.now p }
{
    let behind = &text[p.start.min(text.len())..];
    &behind[..p.len.min(behind.len())]
}

// A text's bytes from a place of the room on. Start and length are no `Text`: its contract may not change.
pub fn put_text(room: &mut [u8], at: usize, text: &[u8], start: usize, len: usize) -> usize
    requires { at + length (take len (drop start text.now)) ≤ length room.old }
    ensures put { room.new ≡ sets room.old at (take len (drop start text.now)) }
    ensures next { result ≡ at + length (take len (drop start text.now)) }
{
    let bytes = part(text, Text { start, len });
    // Byte by byte: std's copy calls memmove, a name that the archive for C would need from outside.
    for k in 0..bytes.len() {
        room[at + k] = bytes[k];
    }
    at + bytes.len()
}

// A number's bytes, little end first.
pub fn put_number(room: &mut [u8], at: usize, width: usize, value: u32) -> usize
    requires { at + width ≤ length room.old }
    ensures put { room.new ≡ sets room.old at (le_write width value) }
    ensures next { result ≡ at + width }
{
    let end = at + width;
    let mut v = value;
    for b in &mut room[at..end] {
        *b = (v % 256) as u8;
        v /= 256;
    }
    end
}

// All pieces at the room's front, and how many bytes that is. The rest of the room stays.
pub fn put_pieces(room: &mut [u8], text: &[u8], p: Pieces) -> usize
    requires { length (pieces_bytes text.now p) ≤ length room.old }
    ensures put { room.new ≡ pieces_bytes text.now p ++ drop (length (pieces_bytes text.now p)) room.old }
    ensures next { result ≡ length (pieces_bytes text.now p) }
{
    let mut at = 0;
    for q in p.listed() {
        let behind = put_text(room, at, text, q.text.start, q.text.len);
        at = put_number(room, behind, q.width, q.value);
    }
    at
}

// How many bytes the pieces have.
pub fn size_of(text: &[u8], p: Pieces) -> usize
    requires { length (pieces_bytes text.now p) < 2 ^ 64 }
    ensures { result ≡ length (pieces_bytes text.now p) }
{
    let mut size = 0;
    for q in p.listed() {
        size += part(text, q.text).len() + q.width;
    }
    size
}
