// The words that change a scene or say what is asked.
use crate::numbers::{decimal, digit, flag, hexadecimal};
use dem_scene::Scene;
use dem_types::Entity;
use memchr::memchr;

// The scene, how many bytes are asked of, and from which place on.
#[derive(Clone, Copy)]
pub struct Given {
    pub scene: Scene,
    pub count: usize,
    pub at: usize,
}

fn byte(text: &[u8]) -> Option<u8> {
    u8::try_from(decimal(text)?).ok()
}

fn short(text: &[u8]) -> Option<u16> {
    u16::try_from(decimal(text)?).ok()
}

// Eight hex digits of a time's bits, or `none`.
fn time(text: &[u8]) -> Option<Option<u32>> {
    if text.len() == 8 {
        return Some(Some(hexadecimal(text)?));
    }
    match text {
        b"none" => Some(None),
        _ => None,
    }
}

// An entity, a colon, and whether it is present.
fn mark(scene: &mut Scene, text: &[u8]) -> Option<()> {
    let colon = memchr(b':', text)?;
    let entity = decimal(&text[..colon])?;
    let set = flag(&text[colon + 1..])?;
    *scene.present.get_mut(entity as usize)? = set;
    Some(())
}

// The bytes of pairs of hex digits, and how many they are.
fn decode(text: &[u8], out: &mut [u8]) -> Option<usize> {
    let mut count = 0;
    for pair in text.chunks(2) {
        let [high, low] = pair else {
            return None;
        };
        *out.get_mut(count)? = (digit(*high)? % 16) * 16 + digit(*low)? % 16;
        count += 1;
    }
    Some(count)
}

// Changes what is given as a word says, or answers that it is no such word. The bytes that it asks of go into the array.
pub fn change(given: &mut Given, word: &[u8], asked: &mut [u8]) -> Option<()> {
    let equals = memchr(b'=', word)?;
    let value = &word[equals + 1..];
    match &word[..equals] {
        b"statics" => given.scene.rest.statics = byte(value)?,
        b"limit" => given.scene.rest.limit = byte(value)?,
        b"pause" => given.scene.rest.pause = byte(value)?,
        b"view" => given.scene.rest.view = Entity(short(value)?),
        b"present" => given.scene.present_count = usize::from(short(value)?),
        b"at" => given.at = decimal(value)? as usize,
        b"time" => given.scene.rest.time = time(value)?,
        b"ended" => given.scene.rest.ended = flag(value)?,
        b"mark" => mark(&mut given.scene, value)?,
        b"ask" => given.count = decode(value, asked)?,
        _ => return None,
    }
    Some(())
}
