// The line that a program prints for a refusal.
#![tactic(auto)]

ghost use Rattle.std.specs.Prelude.{◌≡◌, ◌+◌, ◌≤◌, length};
ghost use Rattle.std.proofs.lemmas.List.Edits.{sets};
ghost use Rattle.report.specs.Lines.{most_digits, decimal_digits, decimal_text, line_room, line_of};

// More than any line's bytes.
pub const LINE_ROOM: usize = 64;

// A line's bytes, its line feed included, and zeros behind them. An array with a length beside it: a rule of the project, no heap.
#[derive(Clone, Copy)]
pub struct Line {
    pub text: [u8; LINE_ROOM],
    pub len: usize,
}

// How many decimal digits a number has.
fn digit_count(v: usize) -> usize
    ensures value { result ≡ length (decimal_digits most_digits v) }
    ensures most { result ≤ most_digits }
{
    if v < 10 { 1 } else { v.ilog10() as usize + 1 }
}

// A number's digits, from a place of the room on, behind which any number has room.
fn put_number(room: &mut [u8], at: usize, v: usize) -> usize
    requires { at + most_digits ≤ length room.old }
    ensures put { room.new ≡ sets room.old at (decimal_text v) }
    ensures next { result ≡ at + length (decimal_text v) }
    ensures most { result ≤ at + most_digits }
{
    let end = at + digit_count(v);
    let mut rest = v;
    for k in (at..end).rev() {
        room[k] = (rest % 10) as u8 + b'0';
        rest /= 10;
    }
    end
}

// A text's bytes, from a place of the room on.
fn put_text(room: &mut [u8], at: usize, text: &[u8]) -> usize
    requires { at + length text.now ≤ length room.old }
    ensures put { room.new ≡ sets room.old at text.now }
    ensures next { result ≡ at + length text.now }
{
    let end = at + text.len();
    room[at..end].copy_from_slice(text);
    end
}

// The line of a refusal by its number and its place. A number and no `Refused`, since what may not change is that it takes any number.
pub fn refusal_line(refusal: u8, place: usize) -> Line
    ensures value { result ≡ line_of refusal place }
    ensures within { result.len ≤ line_room }
{
    let mut text = [0u8; LINE_ROOM];
    let number = put_text(&mut text, 0, b"refused ");
    let word = put_number(&mut text, number, usize::from(refusal));
    let at = put_text(&mut text, word, b" at ");
    let end = put_number(&mut text, at, place);
    let len = put_text(&mut text, end, b"\n");
    Line { text, len }
}
