// A recording that is read in pieces, in normal form: the work on one piece. None of these has a `requires`.
#![tactic(auto)]

ghost use Rattle.std.specs.Prelude.{◌≡◌, ℕ, ◌≤◌, length};
ghost use Rattle.std.proofs.lemmas.List.Edits.{sets};
ghost use Rattle.dem_scene.specs.Views.{scene_of};
ghost use Rattle.format.specs.Refusals.{number_of, refusal_in, place_in};
ghost use Rattle.dem_stream.specs.Pieces.{place_behind, standing, refusal_place, piece_at, first_line, between};
ghost use Rattle.dem_stream.specs.Views.{piece_view, line_view};

use dem::limit::LONGEST_TRACK_LINE;
use dem_scene::Scene;
use format::refusal::{Refusal, Refused};

// A place in bytes that so many others stand before, at most the greatest number.
pub fn place_behind(before: usize, place: usize) -> usize
    ensures { result ≡ place_behind before place }
{
    before.saturating_add(place)
}

// The place of a refusal counts from the recording's first byte; that of short room is the length needed.
fn refusal_place(before: usize, r: Refused) -> usize
    ensures { result ≡ refusal_place before (number_of r.refusal) r.place }
{
    match r.refusal {
        Refusal::ShortRoom => r.place,
        _ => place_behind(before, r.place),
    }
}

// That a block is cut is no refusal where more bytes may follow.
fn refused_behind(last: bool, before: usize, refused: Option<Refused>) -> Option<Refused>
    ensures number { refusal_in result ≡ standing last (refusal_in refused) }
    ensures place { (next : ℕ) → let n = refusal_in refused in let p = place_in next refused in
        (standing last n ≡ 0 → p ≡ next) → place_in (place_behind before next) result ≡ refusal_place before n p }
{
    let r = refused?;
    if !last && r.refusal == Refusal::CutBlock {
        return None;
    }
    let place = refusal_place(before, r);
    Some(Refused { place, ..r })
}

// Of a piece of a recording: the scene after it; the number of its bytes that were used, and of those written; and the refusal met behind
// them.
#[derive(Clone, Copy)]
pub struct Piece {
    pub scene: Scene,
    pub used: usize,
    pub written: usize,
    pub refused: Option<Refused>,
}

// The normal forms of the blocks in a piece, in the scene that those before it left. So many bytes of the recording stand before the piece;
// `last` says that none follow.
#[tactic(auto, unfolding(crate::specs::Pieces::piece_at))]
pub fn normal_piece(scene: Scene, bytes: &[u8], last: bool, before: usize, room: &mut [u8]) -> Piece
    ensures room_after { piece_view before result room.new ≡ piece_at (scene_of scene) bytes.now last before room.old }
    ensures within { (result.used ≤ length bytes.now) × (result.written ≤ length room.old) }
{
    let reply = dem_recordings::normal_blocks_at(scene, bytes, 0, room);
    match reply.answer {
        Ok(w) => Piece {
            scene: reply.scene,
            used: w.progress.next,
            written: w.length,
            refused: refused_behind(last, before, w.progress.refused),
        },
        Err(r) => Piece {
            scene: reply.scene,
            used: 0,
            written: 0,
            refused: Some(r),
        },
    }
}

// Of the first piece of a recording: as `Piece`, of its track line.
#[derive(Clone, Copy)]
pub struct FirstLine {
    pub used: usize,
    pub written: usize,
    pub refused: Option<Refused>,
}

// The normal form of the track line in a recording's first piece. Nothing is decided where bytes may follow and the piece is shorter than a
// line may be.
#[tactic(auto, unfolding(crate::specs::Pieces::first_line))]
pub fn first_line(bytes: &[u8], last: bool, room: &mut [u8]) -> FirstLine
    ensures room_after { line_view result room.new ≡ first_line bytes.now last room.old }
    ensures within { (result.used ≤ length bytes.now) × (result.written ≤ length room.old) }
{
    if !last && bytes.len() < LONGEST_TRACK_LINE {
        return FirstLine {
            used: 0,
            written: 0,
            refused: None,
        };
    }
    match dem_recordings::normal_track(bytes, room) {
        Ok(line) => FirstLine {
            used: line.next,
            written: line.length,
            refused: None,
        },
        Err(r) => FirstLine {
            used: 0,
            written: 0,
            refused: Some(r),
        },
    }
}

// Moves the bytes between two places to the front, and answers how many they are.
pub fn move_front(room: &mut [u8], from: usize, to: usize) -> usize
    ensures room_after { room.new ≡ sets room.old 0 (between room.old from to) }
    ensures count { result ≡ length (between room.old from to) }
    ensures within { result ≤ length room.old }
{
    let end = to.min(room.len());
    if end <= from {
        return 0;
    }
    room.copy_within(from..end, 0);
    end - from
}
