// The head of a block, and the track line in front of the first.
#![tactic(auto)]

ghost use Rattle.std.specs.Prelude.{◌≡◌, ◌++◌, ℕ, ◌+◌, ◌≤◌, ◌<◌, ℤ, nat_abs, length, drop, IfOk, IfErr};
ghost use Rattle.std.proofs.lemmas.List.Edits.{sets};
ghost use Rattle.dem.specs.Limits.{block_limit, head_size};
ghost use Rattle.format.specs.Bytes.{map_result, read_number};
ghost use Rattle.format.specs.Layout.{parse};
ghost use Rattle.format.specs.Floats.{is_finite, angle_rule};
ghost use Rattle.format.specs.Digits.{digit_zero};
ghost use Rattle.dem.specs.Track.{read_track, track_number, digits_of, digit_bytes, normal_track, write_track};
ghost use Rattle.dem.specs.Recording.{angle_layout};
ghost use Rattle.wire.specs.Reads.{read_of};
ghost use Rattle.dem_framing.specs.Heads.{angle_values, size_in, head_of, head_in};
ghost use Rattle.dem_framing.specs.Tracks.{digits_from};

use dem::limit::{BLOCK_LIMIT, HEAD_SIZE};
use format::refusal::{Refusal, Refused};
use wire::{Read, load, read};

// A block's size, and the bits of its three angles.
#[derive(Clone, Copy)]
pub struct Head {
    pub size: usize,
    pub angle0: u32,
    pub angle1: u32,
    pub angle2: u32,
}

// The bits of a float that is neither infinite nor no number.
fn is_finite(bits: u32) -> bool
    ensures { result ≡ is_finite bits }
{
    bits / 8388608 % 256 < 255
}

#[tactic(auto, unfolding(format::specs::Bytes::read_number))]
fn read_angle(s: &[u8], at: usize) -> Read<u32>
    ensures { read_of (λ (v : ℕ). v) s.now result ≡ read_number 4 angle_rule (drop at s.now) }
{
    let (bits, next) = read::<u32>(s, at)?;
    if !is_finite(bits) {
        return Err(Refused {
            refusal: Refusal::WrongAngle,
            place: at,
        });
    }
    Ok((bits, next))
}

#[tactic(auto, unfolding(format::specs::Layout::parse))]
fn read_angles(s: &[u8], at: usize) -> Read<(u32, u32, u32)>
    ensures { read_of angle_values s.now result ≡ parse angle_layout (drop at s.now) }
{
    let (x, at) = read_angle(s, at)?;
    let (y, at) = read_angle(s, at)?;
    let (z, at) = read_angle(s, at)?;
    Ok(((x, y, z), at))
}

// The size in a block's head. The head and the body must be whole.
#[tactic(auto, unfolding(crate::specs::Heads::size_in))]
fn read_size(s: &[u8], at: usize) -> Read<usize>
    ensures value { read_of (λ (v : ℕ). v) s.now result ≡ size_in (drop at s.now) }
    ensures within { IfOk result (λ r. at + head_size + r.0 ≤ length s.now) }
    ensures small { IfOk result (λ r. r.0 ≤ block_limit) }
    ensures refused_here { IfErr result (λ r. r.place ≡ at) }
{
    let refused = |refusal| Err(Refused { refusal, place: at });
    let left = s.len().saturating_sub(at);
    if left < HEAD_SIZE {
        return refused(Refusal::CutBlock);
    }
    let size = load::<u32>(s, at);
    if BLOCK_LIMIT < size {
        return refused(Refusal::LongBlock);
    }
    if left < HEAD_SIZE + size as usize {
        return refused(Refusal::CutBlock);
    }
    Ok((size as usize, at + 4))
}

// The head of the block at a place.
#[tactic(auto, using(crate::proofs::HeadLaws::refused_heads), unfolding(crate::specs::Heads::head_of))]
pub fn read_head(s: &[u8], at: usize) -> Result<Head, Refused>
    ensures value { head_of s.now at result ≡ head_in (drop at s.now) }
    ensures within { IfOk result (λ h. at + head_size + h.size ≤ length s.now) }
    ensures small { IfOk result (λ h. h.size ≤ block_limit) }
    ensures refused_here { IfErr result (λ r. r.place ≡ at) }
{
    let (size, next) = read_size(s, at)?;
    match read_angles(s, next) {
        Ok(((angle0, angle1, angle2), _)) => Ok(Head {
            size,
            angle0,
            angle1,
            angle2,
        }),
        Err(r) => Err(Refused {
            refusal: r.refusal,
            place: at,
        }),
    }
}

// One to three digits, and the line feed.
#[tactic(auto, using(crate::proofs::TrackLaws::lines))]
fn read_digits(s: &[u8], start: usize) -> Read<u16>
    ensures value { read_of (λ (v : ℕ). v) s.now result ≡ digits_from s.now start 0 0 }
    ensures small { IfOk result (λ r. r.0 < 1000) }
    ensures within { IfOk result (λ r. r.1 ≤ length s.now) }
    ensures refused_within { IfErr result (λ r. r.place ≤ length s.now) }
{
    let mut value: u16 = 0;
    for at in start..s.len() {
        let b = s[at];
        let digits = at - start;
        if (0 < digits) & (b == b'\n') {
            return Ok((value, at + 1));
        }
        let another = (digits < 3) & b.is_ascii_digit();
        if !another {
            return Err(Refused {
                refusal: Refusal::WrongTrack,
                place: at,
            });
        }
        value = value * 10 + u16::from(b - b'0');
    }
    Err(Refused {
        refusal: Refusal::WrongTrack,
        place: s.len(),
    })
}

// The track line at the start of the bytes.
#[tactic(auto, using(crate::proofs::TrackLaws::track_refused))]
pub fn read_track(s: &[u8]) -> Read<i16>
    ensures value { read_of (λ (z : ℤ). z) s.now result ≡ map_result track_number (read_track s.now) }
    ensures within { IfOk result (λ r. r.1 ≤ length s.now) }
    ensures refused_within { IfErr result (λ r. r.place ≤ length s.now) }
{
    let negative = s.starts_with(b"-");
    let (value, at) = read_digits(s, usize::from(negative))?;
    let number = value.cast_signed();
    Ok((if negative { -number } else { number }, at))
}

// ---- written

// How many digits a number below 1,000 has.
fn digit_count(v: u16) -> usize
    ensures { result ≡ length (digits_of v) }
{
    if v < 10 {
        1
    } else if v < 100 {
        2
    } else {
        3
    }
}

fn digit(v: u16) -> u8
    requires { v < 10 }
    ensures { result ≡ v + digit_zero }
{
    v as u8 + b'0'
}

// A number's digits and the line feed, from a place of the room on.
fn put_digits(room: &mut [u8], at: usize, v: u16) -> usize
    requires { (v < 1000) × (at + length (digit_bytes (digits_of v)) ≤ length room.old) }
    ensures put { room.new ≡ sets room.old at (digit_bytes (digits_of v)) }
    ensures next { result ≡ at + length (digit_bytes (digits_of v)) }
{
    let longest = [digit(v / 100), digit(v / 10 % 10), digit(v % 10), b'\n'];
    let line = &longest[3 - digit_count(v)..];
    let end = at + line.len();
    room[at..end].copy_from_slice(line);
    end
}

// How many bytes the normal line of a number has.
pub fn track_size(number: i16) -> usize
    ensures { result ≡ length (write_track (normal_track number)) }
{
    let line = digit_count(number.unsigned_abs()) + 1;
    if number < 0 { line + 1 } else { line }
}

// The normal line of a number at the room's front, and how many bytes that is. The rest of the room stays.
pub fn put_track(room: &mut [u8], number: i16) -> usize
    requires { (nat_abs number < 1000) × (length (write_track (normal_track number)) ≤ length room.old) }
    ensures put { room.new ≡ write_track (normal_track number) ++ drop (length (write_track (normal_track number))) room.old }
    ensures next { result ≡ length (write_track (normal_track number)) }
{
    let v = number.unsigned_abs();
    if number < 0 {
        room[0] = b'-';
        return put_digits(room, 1, v);
    }
    put_digits(room, 0, v)
}
