// Blocks one after the other, read and written in normal form in one loop that holds the scene.
#![tactic(auto)]

ghost use Rattle.std.specs.Prelude.{◌≡◌, List, [], ◌∷◌, ◌++◌, map, Bool, true, false, cond, not, ◌&&◌, ℕ, ◌+◌, ◌-◌, ◌≤◌, ◌<◌, IfOk, IfErr, length, take, drop};
ghost use Rattle.dem.specs.Kind;
ghost use Rattle.format.specs.Bytes.{found, le_write, bit_of};
ghost use Rattle.format.specs.Layout.{number, print, tail};
ghost use Rattle.dem.specs.Limits.{block_limit, entity_count, head_size};
ghost use Rattle.dem.specs.Message.{layout, fill_update, send_update, fill_sound, send_sound, send_client};
ghost use Rattle.dem.specs.Recording.{angle_layout, blocks as recording_blocks};
ghost use Rattle.dem.specs.Scene.{Context, context_of, count_marks, in_range};
ghost use Rattle.format.specs.Codec.{run_most};
ghost use Rattle.format.specs.declared.refusal.Refusal.TheVariants.{ShortRoom};
ghost use Rattle.format.specs.Refusals.{number_of, refusal_in, place_in};
ghost use Rattle.wire.specs.Reads.{read_of};
ghost use Rattle.dem_types.specs.Values.{sound_values, update_values};
ghost use Rattle.dem_parts.specs.Kinds.{kind_in};
ghost use Rattle.dem_scene.specs.Views.{scene_with, scene_of, baseline_numbers, record_numbers, record_values, client_values};
ghost use Rattle.dem_direct.specs.Spread.{client_at};
ghost use Rattle.dem_normal.specs.Put.{Behind};
ghost use Rattle.dem_blocks.specs.Marks.{marked};
ghost use Rattle.dem_blocks.specs.Runs.{refused_in, loaded_until, told_of, answered, stored, put, so_far, block_bytes, wrote_of, run_of, wrote};

use dem::limit::{BLOCK_LIMIT, ENTITY_COUNT, HEAD_SIZE};
use dem::{kind, update};
use dem_framing::Head;
use dem_normal::Scratch;
use dem_scene::{Baseline, Client, Record, Rest, Scene};
use dem_types::{Message, Sound, Update};
use format::refusal::{Refusal, Refused};
use wire::Read;

// Blocks that were read: the scene after them, how many they and their messages are, the place behind them, and the refusal met there.
// With a refusal inside a block there are no messages, and the scene is the one given.
#[derive(Clone, Copy)]
pub struct BlocksAt {
    pub scene: Scene,
    pub blocks: usize,
    pub messages: usize,
    pub next: usize,
    pub refused: Option<Refused>,
}

// Also how many bytes were written of them.
#[derive(Clone, Copy)]
pub struct WrittenAt {
    pub read: BlocksAt,
    pub written: usize,
}

// A refusal inside a block, or of its room.
fn refused_in(
    given: Scene,
    blocks: usize,
    next: usize,
    refusal: Refusal,
    place: usize,
    written: usize,
) -> WrittenAt
    ensures read_value { answered result.read ≡ refused_in (scene_of given) blocks next (number_of refusal) place }
    ensures bytes { result.written ≡ written }
{
    let read = BlocksAt {
        scene: given,
        blocks,
        messages: 0,
        next,
        refused: Some(Refused { refusal, place }),
    };
    WrittenAt { read, written }
}

// Which entities are present, and how many.
#[derive(Drop)]
struct Present {
    set: [bool; ENTITY_COUNT],
    count: usize,
}

// Nothing was refused, or a block's head: the scene of these parts.
fn answer(
    baselines: [Baseline; ENTITY_COUNT],
    records: [Record; ENTITY_COUNT],
    present: Present,
    rest: Rest,
    blocks: usize,
    messages: usize,
    next: usize,
    refused: Option<Refused>,
    written: usize,
) -> WrittenAt
    ensures read_value { answered result.read ≡ record { scene = scene_with (record { baselines = map baseline_numbers baselines; records = map record_numbers records; present = present.set; present_count = present.count }) rest; blocks = blocks; messages = messages; next = next; refusal = refusal_in refused; place = place_in next refused } }
    ensures bytes { result.written ≡ written }
{
    let Present { set, count } = present;
    let scene = Scene {
        baselines,
        records,
        present: set,
        present_count: count,
        rest,
    };
    let read = BlocksAt {
        scene,
        blocks,
        messages,
        next,
        refused,
    };
    WrittenAt { read, written }
}

// How many bytes a block with so many bytes of messages has, where it is written.
fn block_size(on: bool, size: usize) -> usize
    requires { size ≤ block_limit }
    ensures { result ≡ cond on (head_size + size) 0 }
{
    if on { HEAD_SIZE + size } else { 0 }
}

// A block's end: input that was kept is put, and the block is stored behind what was written from a place on, if it is to be. Answers how
// many bytes it has where it is written, or that there is less room.
fn end_block(
    on: bool,
    stores: bool,
    out: &mut [u8],
    base: usize,
    written: usize,
    room: usize,
    h: Head,
    body: &mut [u8],
    scratch: Scratch,
    s: &[u8],
    at: usize,
) -> Result<usize, Refused>
    requires { (scratch.kept ≤ at) × (scratch.size + (length s.now - scratch.kept) ≤ block_limit) × (block_limit ≤ length body.old) × (written ≤ room) × (stores ≡ true → base + room ≤ length out.old) }
    ensures put { IfOk result (λ n. (n ≡ length (block_bytes on (number h.angle0 ∷ number h.angle1 ∷ number h.angle2 ∷ []) (so_far on body.old scratch.size s.now scratch.kept at))) × (n ≤ room - written) × (out.new ≡ put stores out.old (base + written) (block_bytes on (number h.angle0 ∷ number h.angle1 ∷ number h.angle2 ∷ []) (so_far on body.old scratch.size s.now scratch.kept at)))) }
    ensures short { IfErr result (λ r. (r ≡ record { refusal = ShortRoom; place = length (block_bytes on (number h.angle0 ∷ number h.angle1 ∷ number h.angle2 ∷ []) (so_far on body.old scratch.size s.now scratch.kept at)) }) × (room - written < r.place) × (out.new ≡ out.old)) }
    ensures long { length body.new ≡ length body.old }
{
    let filled = dem_normal::put_copy(on, body, scratch.size, s, scratch.kept, at);
    let n = block_size(on, filled);
    if room - written < n {
        return Err(Refused {
            refusal: Refusal::ShortRoom,
            place: n,
        });
    }
    if on & stores {
        dem_normal::put_block(
            out,
            base + written,
            filled,
            h.angle0,
            h.angle1,
            h.angle2,
            body,
        );
    }
    Ok(n)
}

// The bytes of the longest update behind its first.
const UPDATE_REST: usize = 17;

// How far updates of a block are loaded whole, if they are, in an input of so many bytes: to the block's end, or 17 before the input's.
fn loaded_until(on: bool, len: usize, end: usize) -> usize
    ensures { result ≡ cond on (loaded_until len end) 0 }
{
    if on {
        end.min(len.saturating_sub(UPDATE_REST))
    } else {
        0
    }
}

// ---- marks as places: an entity is marked where a place of its last update stands behind that of the last time, so that a time
// touches no mark

fn marks_of(present: [bool; ENTITY_COUNT]) -> [usize; ENTITY_COUNT]
    ensures value { result ≡ map bit_of present }
    ensures long { length result ≡ entity_count }
{
    let mut marks = [0usize; ENTITY_COUNT];
    // Tried, and the proof did not close: `iter_mut().zip`, which tells no proof what it wrote. `map` is proved, but takes 5 times as long.
    for i in 0..ENTITY_COUNT {
        marks[i] = usize::from(present[i]);
    }
    marks
}

fn present_of(marks: [usize; ENTITY_COUNT], since: usize) -> Present
    ensures set_value { result.set ≡ marked since marks }
    ensures count { result.count ≡ count_marks (marked since marks) }
{
    let mut set = [false; ENTITY_COUNT];
    let mut count = 0;
    for i in 0..ENTITY_COUNT {
        let mark = since < marks[i];
        set[i] = mark;
        count += usize::from(mark);
    }
    Present { set, count }
}

// ---- a message that has a normal form of its own: read, and put anew behind what is kept, if normal forms are written
// `on`, `body`, `scratch`, `s` and `at` stay apart: a struct of them would be made for each message and taken apart at once, no plainer.

#[derive(Drop)]
struct SoundTurn {
    heard: Sound,
    scratch: Scratch,
}

fn sound_turn(on: bool, body: &mut [u8], scratch: Scratch, s: &[u8], at: usize) -> Read<SoundTurn>
    requires { (scratch.kept ≤ at) × (at < length s.now) × (scratch.size + (at - scratch.kept) + 16 ≤ length body.old) }
    ensures value { (x : Context) → read_of (λ (t : SoundTurn). number Kind.sound ∷ sound_values t.heard) s.now result ≡ kind_in x Kind.sound (drop (at + 1) s.now) }
    ensures bytes { IfOk result (λ r. (x : Context) → Behind on body.old body.new scratch.size scratch.kept r.0.scratch.size r.0.scratch.kept r.1 (take (at - scratch.kept) (drop scratch.kept s.now) ++ print (layout x) (send_sound (tail (fill_sound (sound_values r.0.heard)))))) }
    ensures refused { IfErr result (λ r. body.new ≡ body.old) }
{
    let (heard, to) = dem_masked::sound_at(s, at + 1)?;
    let scratch = dem_normal::put_sound_behind(
        on,
        body,
        scratch.size,
        s,
        scratch.kept,
        at,
        to,
        heard,
    );
    Ok((SoundTurn { heard, scratch }, to))
}

// Also whether it may not be in normal form.
#[derive(Drop)]
struct ClientTurn {
    client: Client,
    anew: bool,
    scratch: Scratch,
}

fn client_turn(on: bool, body: &mut [u8], scratch: Scratch, s: &[u8], at: usize) -> Read<ClientTurn>
    requires { (scratch.kept ≤ at) × (at < length s.now) × (scratch.size + (at - scratch.kept) + 32 ≤ length body.old) }
    ensures value { (x : Context) → read_of (λ (t : ClientTurn). number Kind.clientdata ∷ client_values t.client) s.now result ≡ client_at s.now (at + 1) x }
    ensures kept { (x : Context) → IfOk result (λ r. r.0.anew ≡ false → found (send_client (client_values r.0.client)) (drop r.1 s.now) ≡ kind_in x Kind.clientdata (drop (at + 1) s.now)) }
    ensures bytes { IfOk result (λ r. (x : Context) → Behind (on && r.0.anew) body.old body.new scratch.size scratch.kept r.0.scratch.size r.0.scratch.kept r.1 (take (at - scratch.kept) (drop scratch.kept s.now) ++ print (layout x) (send_client (client_values r.0.client)))) }
    ensures refused { IfErr result (λ r. body.new ≡ body.old) }
{
    let (t, to) = dem_direct::client_at(s, at + 1)?;
    let client = t.client;
    let scratch = dem_normal::put_client_behind(
        on & t.needless,
        body,
        scratch.size,
        s,
        scratch.kept,
        at,
        to,
        client,
    );
    let turn = ClientTurn {
        client,
        anew: t.needless,
        scratch,
    };
    Ok((turn, to))
}

#[derive(Drop)]
struct UpdateTurn {
    record: Record,
    scratch: Scratch,
}

// An update that was read as it was sent is filled in from its entity's baseline.
fn update_turn(
    on: bool,
    body: &mut [u8],
    scratch: Scratch,
    s: &[u8],
    at: usize,
    to: usize,
    update: Update,
    b: Baseline,
) -> UpdateTurn
    requires { (scratch.kept ≤ at) × (at ≤ length s.now) × (scratch.size + (at - scratch.kept) + 24 ≤ length body.old) }
    ensures record_value { number Kind.update ∷ number update.entity.0 ∷ record_values result.record ≡ fill_update (baseline_numbers b) update.number (tail (update_values update)) }
    ensures bytes { (x : Context) → Behind on body.old body.new scratch.size scratch.kept result.scratch.size result.scratch.kept to (take (at - scratch.kept) (drop scratch.kept s.now) ++ print (layout x) (send_update (baseline_numbers b) (number update.entity.0 ∷ record_values result.record))) }
{
    let entity = update.entity;
    let record = dem_scene::fill_update(update, b);
    let scratch = dem_normal::put_update_behind(
        on,
        body,
        scratch.size,
        s,
        scratch.kept,
        at,
        to,
        entity,
        record,
        b,
    );
    UpdateTurn { record, scratch }
}

// The messages of a block, and slack for the fields of one that are not sent. An array with a size beside it: fixed memory, no heap.
const BODY_SIZE: usize = BLOCK_LIMIT as usize + 64;

// The blocks from a place to the end, but at most so many; and their normal forms, if they are wanted, into at most so much room from a
// place of it on. Where the lent room is shorter than that, they are only counted. No copy of the scene is made for a block or a
// message: its parts are locals. Runs of updates have two loops of their own inside the one over messages, for writing and for
// reading: that takes fewer instructions. It stays one function: loops and arms as functions of their own were slower (docs/TRIED.md). A loop goes
// from place to place, as far as the item there is long, so there is no index to count. `on` and the room are no `Option`: what may not change is
// this contract, which counts with and without it.
pub fn write_blocks(
    d: &[u8],
    from: usize,
    most: usize,
    given: Scene,
    on: bool,
    room: usize,
    out: &mut [u8],
    base: usize,
) -> WrittenAt
    requires { (from ≤ length d.now) × (in_range (scene_of given) ≡ true) × (base ≤ length out.old) }
    ensures { wrote result out.new ≡ wrote_of (scene_of given) (length d.now) (stored out.old base room) base 0 0 0 out.old (run_of on most room (scene_of given) (drop from d.now)) }
{
    let mut baselines = given.baselines;
    let mut records = given.records;
    let mut marks = marks_of(given.present);
    let mut since: usize = 0;
    let mut rest = given.rest;
    let mut body = [0u8; BODY_SIZE];
    let stores = room <= out.len() - base;
    let mut start = from;
    let mut blocks: usize = 0;
    let mut messages: usize = 0;
    let mut written: usize = 0;
    let mut refused = None;
    while (blocks < most) & (start < d.len()) {
        if rest.ended {
            refused = Some(Refused {
                refusal: Refusal::AfterDisconnect,
                place: start,
            });
            break;
        }
        let h = match dem_framing::read_head(d, start) {
            Ok(h) => h,
            Err(r) => {
                refused = Some(r);
                break;
            }
        };
        let mut at = start + HEAD_SIZE;
        let end = at + h.size;
        let s = &d[..end];
        // Where updates are loaded whole: for writing, or for reading alone.
        let writes = loaded_until(on, d.len(), end);
        let reads = loaded_until(!on, d.len(), end);
        let mut scratch = Scratch { size: 0, kept: at };
        while at < s.len() {
            if rest.ended {
                return refused_in(given, blocks, start, Refusal::AfterDisconnect, at, written);
            }
            // Updates one after the other, as long as each is good, can be loaded whole and, where it is written, is in normal form.
            while at < writes {
                let Some(q) = dem_direct::load_head(d, at) else {
                    break;
                };
                if q.head.needless {
                    break;
                }
                let i = q.index;
                let b = baselines[i];
                let Some(f) = dem_direct::needed_fields(d, q.head, b) else {
                    break;
                };
                let to = f.next;
                if end < to {
                    break;
                }
                let record = f.record;
                records[i] = record;
                marks[i] = to;
                at = to;
                messages += 1;
            }
            while at < reads {
                let Some(q) = dem_direct::load_head(d, at) else {
                    break;
                };
                let i = q.index;
                let b = baselines[i];
                let Some(f) = dem_direct::update_fields(d, q.head, b, end) else {
                    break;
                };
                let to = f.next;
                let record = f.record;
                records[i] = record;
                marks[i] = to;
                at = to;
                messages += 1;
            }
            if s.len() <= at {
                continue;
            }
            let k = s[at];
            let x = rest.context();
            messages += 1;
            let r = match k {
                kind::UPDATE..=255 => {
                    // One that is to be put anew is loaded again, where all its bytes are there.
                    if at < writes {
                        if let Some(q) = dem_direct::load_head(d, at) {
                            let i = q.index;
                            let b = baselines[i];
                            if let Some(f) = dem_direct::update_fields(d, q.head, b, end) {
                                let to = f.next;
                                let record = f.record;
                                scratch = dem_normal::put_update_behind(
                                    true,
                                    &mut body,
                                    scratch.size,
                                    s,
                                    scratch.kept,
                                    at,
                                    to,
                                    q.head.entity,
                                    record,
                                    b,
                                );
                                records[i] = record;
                                marks[i] = at;
                                at = to;
                                continue;
                            }
                        }
                    }
                    match dem_masked::read_update(s, at + 1, k) {
                        Ok((update, to)) => {
                            let i = dem_types::index_of(update.entity);
                            let b = baselines[i];
                            let w = update_turn(on, &mut body, scratch, s, at, to, update, b);
                            let record = w.record;
                            scratch = w.scratch;
                            records[i] = record;
                            marks[i] = at;
                            at = to;
                            continue;
                        }
                        Err(r) => r,
                    }
                }
                kind::SOUND => match sound_turn(on, &mut body, scratch, s, at) {
                    Ok((t, to)) => {
                        scratch = t.scratch;
                        at = to;
                        continue;
                    }
                    Err(r) => r,
                },
                kind::TIME => match dem_unmasked::time_at(s, at + 1, x) {
                    Ok((bits, to)) => {
                        since = at;
                        rest = dem_scene::with_time(rest, bits);
                        at = to;
                        continue;
                    }
                    Err(r) => r,
                },
                kind::CLIENTDATA => match client_turn(on, &mut body, scratch, s, at) {
                    Ok((t, to)) => {
                        scratch = t.scratch;
                        rest = dem_scene::with_client(rest, t.client);
                        at = to;
                        continue;
                    }
                    Err(r) => r,
                },
                _ => {
                    if dem_reader::is_passed(k) {
                        match dem_reader::pass_message(s, at + 1, k, x) {
                            Ok(to) => {
                                at = to;
                                continue;
                            }
                            Err(r) => r,
                        }
                    } else {
                        match dem_reader::read_message(s, at, x) {
                            Ok((message, to)) => {
                                match message {
                                    Message::Baseline(entity, look, pose) => {
                                        let i = dem_types::index_of(entity);
                                        baselines[i] = Baseline { look, pose };
                                    }
                                    Message::Serverinfo(info) => {
                                        let clear = dem_scene::cleared_scene(info.limit);
                                        baselines = clear.baselines;
                                        records = clear.records;
                                        since = at;
                                        rest = clear.rest;
                                    }
                                    _ => {
                                        rest = dem_scene::apply_rest(rest, message, s);
                                    }
                                }
                                at = to;
                                continue;
                            }
                            Err(r) => r,
                        }
                    }
                }
            };
            return refused_in(given, blocks, start, r.refusal, at, written);
        }
        match end_block(
            on, stores, out, base, written, room, h, &mut body, scratch, s, at,
        ) {
            Ok(n) => {
                written += n;
                start = end;
                blocks += 1;
            }
            Err(r) => return refused_in(given, blocks, start, r.refusal, r.place, written),
        }
    }
    answer(
        baselines,
        records,
        present_of(marks, since),
        rest,
        blocks,
        messages,
        start,
        refused,
        written,
    )
}

// The blocks from a place to the end, but at most so many.
pub fn read_blocks(d: &[u8], from: usize, most: usize, given: Scene) -> BlocksAt
    requires { (from ≤ length d.now) × (in_range (scene_of given) ≡ true) }
    ensures { answered result ≡ told_of (scene_of given) (length d.now) 0 0 (run_most recording_blocks most (scene_of given) (drop from d.now)) }
{
    write_blocks(d, from, most, given, false, 0, &mut [], 0).read
}
