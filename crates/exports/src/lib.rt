// The library for programs in other languages: numbers and byte slices only. include/cobbrundle.h says the same to C.
#![tactic(auto)]

ghost use Rattle.std.specs.Prelude.{◌≡◌};
ghost use Rattle.dem.specs.Answer.{whole, whole_normal};
ghost use Rattle.exports.specs.Numbers.{checked, checked_by, rewritten, rewritten_by};

// Whether a recording is accepted: 0 and what it holds, or a refusal's number and its place.
#[unsafe(no_mangle)]
pub extern "C" fn cobbrundle_check(
    bytes: &[u8],
    place: &mut usize,
    track: &mut i16,
    blocks: &mut usize,
    messages: &mut usize,
) -> u8
    ensures { checked result place.new track.new blocks.new messages.new ≡ checked_by (whole bytes.now).answer }
{
    *place = 0;
    *track = 0;
    *blocks = 0;
    *messages = 0;
    match dem_recordings::read_recording(bytes).answer {
        Ok(summary) => {
            *track = summary.track;
            *blocks = summary.blocks;
            *messages = summary.messages;
            0
        }
        Err(r) => {
            *place = r.place;
            u8::from(r.refusal)
        }
    }
}

// The normal form of a recording into lent room: 0 and its length, or a refusal's number and its place.
#[unsafe(no_mangle)]
pub extern "C" fn cobbrundle_normalise(
    bytes: &[u8],
    room: &mut [u8],
    place: &mut usize,
    written: &mut usize,
) -> u8
    ensures { rewritten result place.new written.new room.new ≡ rewritten_by (whole_normal bytes.now room.old) }
{
    *place = 0;
    *written = 0;
    match dem_recordings::normal_recording(bytes, room).answer {
        Ok(size) => {
            *written = size;
            0
        }
        Err(r) => {
            *place = r.place;
            u8::from(r.refusal)
        }
    }
}
