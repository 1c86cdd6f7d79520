// The entries over one message: any bytes, any scene and any record get an answer. None has a `requires`.
#![tactic(auto)]

ghost use Rattle.std.specs.Prelude.{◌≡◌, List, [], cond, ℕ, ◌≤◌, ◌<◌, ltb, length, IfOk, IfSome};
ghost use Rattle.dem.specs.Limits.{entity_count};
ghost use Rattle.dem.specs.Scene.{fresh, in_range};
ghost use Rattle.format.specs.Refusal.{code, short_room};
ghost use Rattle.format.specs.Codec.{normal_bytes};
ghost use Rattle.dem.specs.Message.{normal as normal_message};
ghost use Rattle.dem.specs.Recording.{write_message, messages};
ghost use Rattle.format.specs.Answer.{reply, result as a_result, refusal as a_refusal, written, guarded, into_room, normal_at};
ghost use Rattle.dem.specs.Answer.{message_at, write_sent};
ghost use Rattle.dem_scene.specs.Views.{scene_of, Numbered};
ghost use Rattle.dem_types.specs.Values.{values_by};
ghost use Rattle.wire.specs.Reads.{placed};
ghost use Rattle.wire.specs.declared.Text.{Text};
ghost use Rattle.dem_messages.specs.Replies.{answer_by, count_of, reply_of, written_of, normal_reply_of};
ghost use Rattle.dem_messages.specs.Steps.{read_step, write_step, chosen, Puts};

use dem_scene::{Filled, Scene};
use dem_types::Message;
use format::refusal::{Refusal, Refused};

// An answer, and the scene after it: with a refusal and at the end, the scene given.
#[derive(Clone, Copy)]
pub struct Reply<T> {
    pub answer: Result<T, Refused>,
    pub scene: Scene,
}

// A message as sent, its filled-in form and the place of what follows it.
#[derive(Clone, Copy)]
pub struct Found {
    pub message: Message,
    pub filled: Filled,
    pub next: usize,
}

// Of a normal form: the number of bytes written, and the place of what follows those that it was read from.
#[derive(Clone, Copy)]
pub struct Normal {
    pub length: usize,
    pub next: usize,
}

// The scene at the start.
#[tactic(auto, unfolding(dem::specs::Scene::fresh))]
pub fn start() -> Scene
    ensures { scene_of result ≡ fresh }
{
    dem_scene::cleared_scene(0)
}

// ---- what is tested before anything is read or written

// A scene outside its ranges is refused, and a place past the end.
pub fn ask_at(scene: &Scene, input: &[u8], at: usize) -> Result<(), Refused>
    ensures value { answer_by (λ u. u) result ≡ guarded (in_range (scene_of scene.now)) input.now at a_refusal (a_result tt) }
    ensures bound { IfOk result (λ u. scene.now.present_count ≤ entity_count) }
{
    if !scene.in_range() {
        return Err(Refused {
            refusal: Refusal::WrongScene,
            place: 0,
        });
    }
    if input.len() < at {
        return Err(Refused {
            refusal: Refusal::CutMessage,
            place: at,
        });
    }
    Ok(())
}

// Room that is short is refused, with the length that is needed.
pub fn ask_room(len: usize, needed: usize) -> Result<(), Refused>
    ensures { answer_by (λ u. u) result ≡ cond (ltb len needed) (a_refusal (code short_room) needed) (a_result tt) }
{
    if len < needed {
        return Err(Refused {
            refusal: Refusal::ShortRoom,
            place: needed,
        });
    }
    Ok(())
}

// ---- a message read

// The message at a place, and the place of what follows it; or none, at the end.
#[tactic(auto, using(crate::proofs::Messages::asked_message))]
fn message_at(scene: &Scene, bytes: &[u8], at: usize) -> Result<Option<(Message, usize)>, Refused>
    ensures value { read_step (scene_of scene.now) bytes.now result ≡ message_at (scene_of scene.now) bytes.now at }
    ensures bound { IfOk result (λ o. scene.now.present_count ≤ entity_count) }
{
    ask_at(scene, bytes, at)?;
    if at == bytes.len() {
        return Ok(None);
    }
    if scene.rest.ended {
        return Err(Refused {
            refusal: Refusal::AfterDisconnect,
            place: at,
        });
    }
    match dem_reader::read_message(bytes, at, scene.rest.context()) {
        Ok((message, next)) => Ok(Some((message, next.min(bytes.len())))),
        Err(r) => Err(Refused {
            refusal: r.refusal,
            place: at,
        }),
    }
}

// The message at a place of a block's bytes, in a scene.
pub fn read_message_at(scene: Scene, bytes: &[u8], at: usize) -> Reply<Option<Found>>
    ensures { reply_of bytes.now result ≡ message_at (scene_of scene) bytes.now at }
{
    match message_at(&scene, bytes, at) {
        Ok(Some((message, next))) => {
            let found = Found {
                message,
                filled: dem_effects::filled_in(scene, message),
                next,
            };
            Reply {
                answer: Ok(Some(found)),
                scene: dem_effects::scene_after(scene, message, bytes),
            }
        }
        Ok(None) => Reply {
            answer: Ok(None),
            scene,
        },
        Err(r) => Reply {
            answer: Err(r),
            scene,
        },
    }
}

// ---- a message written as sent

// The bytes of a message, and how many they are.
#[tactic(auto, using(crate::proofs::Writing::asked_write))]
fn put_message(
    scene: &Scene,
    message: Message,
    text: &[u8],
    room: &mut [u8],
) -> Result<usize, Refused>
    ensures value { written (write_step (scene_of scene.now) (values_by (placed text.now) message) result) room.new ≡ write_sent (scene_of scene.now) (values_by (placed text.now) message) room.old }
    ensures good { IfOk result (λ n. (scene.now.rest.statics < 255) × (scene.now.present_count ≤ entity_count) × Numbered message) }
{
    // Any text has a place 0.
    ask_at(scene, text, 0)?;
    if scene.rest.ended {
        return Err(Refused {
            refusal: Refusal::AfterDisconnect,
            place: 0,
        });
    }
    if !dem_allowed::is_allowed(message, text, scene.rest.context()) {
        return Err(Refused {
            refusal: Refusal::Unreadable,
            place: 0,
        });
    }
    let pieces = dem_writer::pieces_of(message);
    ask_room(room.len(), dem_writer::size_of(text, pieces))?;
    Ok(dem_writer::put_pieces(room, text, pieces))
}

// A message as sent into lent room, its strings being places in a lent text; answers how many bytes are written. With a refusal nothing
// is written; what is behind the message stays.
pub fn write_message(scene: Scene, message: Message, text: &[u8], room: &mut [u8]) -> Reply<usize>
    ensures { written_of result room.new ≡ write_sent (scene_of scene) (values_by (placed text.now) message) room.old }
{
    match put_message(&scene, message, text, room) {
        Ok(size) => Reply {
            answer: Ok(size),
            scene: dem_effects::scene_after(scene, message, text),
        },
        Err(r) => Reply {
            answer: Err(r),
            scene,
        },
    }
}

// ---- normal forms

// Room for the normal form of a message with a mask, and for its fields that are not sent. An array with a size beside it: fixed memory, no
// heap.
const FORM_SIZE: usize = 32;

// The size of the normal form of a message with a mask, which is put into the room. Every other message is its own normal form.
fn masked_form(scene: &Scene, message: Message, form: &mut [u8]) -> Option<usize>
    requires { 32 ≤ length form.old }
    ensures fact { (t : Text → List ℕ) → Numbered message → normal_bytes messages normal_message (scene_of scene.now) (values_by t message) ≡ chosen result (write_message (scene_of scene.now) (values_by t message)) form.new }
    ensures within { IfSome result (λ n. n ≤ length form.new) }
{
    match message {
        Message::Clientdata(d) => Some(dem_normal::put_client(form, 0, dem_scene::fill_client(d))),
        Message::Update(u) => {
            let b = dem_effects::baseline_of(*scene, u.entity);
            let record = dem_scene::fill_update(u, b);
            Some(dem_normal::put_update(form, 0, u.entity, record, b))
        }
        Message::Sound(s) => Some(dem_normal::put_sound(form, 0, dem_scene::fill_sound(s))),
        _ => None,
    }
}

// Bytes at the room's front, if it has room for them; answers how many they are. What is behind them stays.
fn put_bytes(room: &mut [u8], bytes: &[u8]) -> Result<usize, Refused>
    ensures { Puts bytes.now room.old result room.new }
{
    ask_room(room.len(), bytes.len())?;
    room[..bytes.len()].copy_from_slice(bytes);
    Ok(bytes.len())
}

// The normal form of a message that was sent as these bytes, likewise.
fn put_normal(
    scene: &Scene,
    message: Message,
    sent: &[u8],
    room: &mut [u8],
) -> Result<usize, Refused>
    ensures { (t : Text → List ℕ) → Numbered message → sent.now ≡ write_message (scene_of scene.now) (values_by t message) → Puts (normal_bytes messages normal_message (scene_of scene.now) (values_by t message)) room.old result room.new }
{
    let mut form = [0u8; FORM_SIZE];
    match masked_form(scene, message, &mut form) {
        Some(size) => put_bytes(room, &form[..size]),
        None => put_bytes(room, sent),
    }
}

// The normal form of the message at a place of a block's bytes, in a scene, into lent room. With a refusal nothing is written; what is
// behind the message stays.
pub fn normal_message_at(
    scene: Scene,
    bytes: &[u8],
    at: usize,
    room: &mut [u8],
) -> Reply<Option<Normal>>
    ensures { normal_reply_of result room.new ≡ normal_at messages normal_message (scene_of scene) bytes.now at room.old }
{
    let read = read_message_at(scene, bytes, at);
    match read.answer {
        Ok(Some(found)) => match put_normal(&scene, found.message, &bytes[at..found.next], room) {
            Ok(length) => {
                let normal = Normal {
                    length,
                    next: found.next,
                };
                Reply {
                    answer: Ok(Some(normal)),
                    scene: read.scene,
                }
            }
            Err(r) => Reply {
                answer: Err(r),
                scene,
            },
        },
        Ok(None) => Reply {
            answer: Ok(None),
            scene,
        },
        Err(r) => Reply {
            answer: Err(r),
            scene,
        },
    }
}
