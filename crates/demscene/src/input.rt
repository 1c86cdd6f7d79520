// The whole of standard input in one array. There are two arrays: a small one on the stack, and a large one, which is allocated only once an
// input has filled the small one.
ghost use Rattle.std.specs.Prelude.{◌≡◌, length, IfOk, vec_len};

use crate::lines;
use input_pieces::{Stop, fill};
use std::alloc::{AllocError, Global};

// Where standard error takes nothing either, nobody can be told.
fn complain(rt: &HostRuntime, text: &[u8]) {
    let _ = rt.stderr().write_all(text);
}

fn show(rt: &HostRuntime, bytes: &[u8]) {
    if lines::show(rt, bytes).is_err() {
        complain(rt, b"a write of the output failed\n");
    }
}

fn small_room() -> [u8; 1048576]
    ensures { 1048576 ≡ length result }
{
    [0; 1048576]
}

// One byte more than is taken, so that an input that fills it is too long.
fn large_room(alloc: Global) -> Result<Vec<u8>, AllocError>
    ensures { IfOk result (λ room. vec_len room ≡ 67108865) }
{
    vec![in alloc; 0; 67108865]
}

// Reads on into the array, behind the first bytes, and shows what came; or answers that the array was filled.
fn is_filled(rt: &HostRuntime, room: &mut [u8], first: &[u8]) -> bool {
    let Some(front) = room.get_mut(..first.len()) else {
        return true;
    };
    front.copy_from_slice(first);
    let filled = fill(&mut rt.stdin(), room, first.len());
    match filled.stop {
        Stop::Full => return true,
        Stop::Ended => show(rt, &room[..filled.len]),
        Stop::Failed => complain(rt, b"a read of the input failed\n"),
    }
    false
}

fn long(rt: &HostRuntime, first: &[u8]) {
    match large_room(rt.alloc()) {
        Ok(mut room) => {
            if is_filled(rt, room.as_mut_slice(), first) {
                complain(rt, b"input longer than 67108864 bytes\n");
            }
        }
        Err(AllocError) => {
            complain(
                rt,
                b"input longer than 1048575 bytes: there is no memory for it\n",
            );
        }
    }
}

pub fn read_and_show(rt: &HostRuntime) {
    let mut room = small_room();
    if is_filled(rt, &mut room, b"") {
        long(rt, &room);
    }
}
