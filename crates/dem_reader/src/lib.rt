// The message at a place of a block's bytes, as sent.
#![tactic(auto)]

ghost use Rattle.std.specs.Prelude.{◌≡◌, true, ℕ, ◌≤◌, IfOk, drop};
ghost use Rattle.format.specs.Bytes.{read_number};
ghost use Rattle.format.specs.Layout.{parse};
ghost use Rattle.dem.specs.Scene.{Context as Numbers};
ghost use Rattle.dem.specs.Message.{layout, number_rule, is_message};
ghost use Rattle.wire.specs.Reads.{read_of};
ghost use Rattle.dem_parts.specs.Kinds.{context_of, message_of, kind_in};
ghost use Rattle.dem_reader.specs.Passed.{is_passed, passed_in, passed_to};

use dem::kind;
use dem::limit::STATIC_LIMIT;
use dem_masked::{read_clientdata, read_sound, read_update};
use dem_parts::Context;
use dem_types::Message;
use dem_unmasked::{
    read_angles, read_baseline, read_centerprint, read_colours, read_cutscene, read_damage,
    read_finale, read_frags, read_name, read_particle, read_pause, read_print, read_serverinfo,
    read_signon, read_stat, read_static, read_static_sound, read_stopsound, read_stufftext,
    read_style, read_temporary, read_time, read_track, read_version, read_view,
};
use format::refusal::{Refusal, Refused};
use wire::Read;

// The number of a message: 0, 21 and 35 to 127 are none, and the 129th static is refused before its fields are read.
#[tactic(auto, unfolding(format::specs::Bytes::read_number))]
fn message_number(s: &[u8], at: usize, x: Context) -> Read<u8>
    ensures number { read_of (λ (n : ℕ). n) s.now result ≡ read_number 1 (number_rule (context_of x)) (drop at s.now) }
    ensures known { IfOk result (λ r. is_message r.0 ≡ true) }
{
    let (number, next) = wire::read(s, at)?;
    match number {
        0 | 21 | 35..=127 => Err(Refused {
            refusal: Refusal::UnknownMessage,
            place: at,
        }),
        kind::STATIC if STATIC_LIMIT <= x.statics => Err(Refused {
            refusal: Refusal::WrongNumber,
            place: at,
        }),
        _ => Ok((number, next)),
    }
}

#[tactic(auto, using(crate::proofs::Arms::update_arm))]
fn update_message(s: &[u8], at: usize, n: u8) -> Read<Message>
    requires { 128 ≤ n }
    ensures { (x : Numbers) → message_of s.now result ≡ kind_in x n (drop at s.now) }
{
    let (update, at) = read_update(s, at, n)?;
    Ok((Message::Update(update), at))
}

// A message from behind its number on.
#[tactic(auto, using(crate::proofs::Arms::bare_kind))]
fn read_kind(s: &[u8], at: usize, n: u8, x: Context) -> Read<Message>
    requires { is_message n ≡ true }
    ensures { message_of s.now result ≡ kind_in (context_of x) n (drop at s.now) }
{
    match n {
        kind::NOP => Ok((Message::Nop, at)),
        kind::DISCONNECT => Ok((Message::Disconnect, at)),
        kind::STAT => read_stat(s, at),
        kind::VERSION => read_version(s, at),
        kind::VIEW => read_view(s, at),
        kind::SOUND => read_sound(s, at),
        kind::TIME => read_time(s, at, x),
        kind::PRINT => read_print(s, at),
        kind::STUFFTEXT => read_stufftext(s, at),
        kind::SET_ANGLES => read_angles(s, at),
        kind::SERVERINFO => read_serverinfo(s, at),
        kind::STYLE => read_style(s, at),
        kind::NAME => read_name(s, at, x),
        kind::FRAGS => read_frags(s, at, x),
        kind::CLIENTDATA => read_clientdata(s, at),
        kind::STOPSOUND => read_stopsound(s, at),
        kind::COLOURS => read_colours(s, at, x),
        kind::PARTICLE => read_particle(s, at),
        kind::DAMAGE => read_damage(s, at),
        kind::STATIC => read_static(s, at),
        kind::BASELINE => read_baseline(s, at),
        kind::TEMPORARY => read_temporary(s, at),
        kind::PAUSE => read_pause(s, at),
        kind::SIGNON => read_signon(s, at),
        kind::CENTERPRINT => read_centerprint(s, at),
        kind::KILLED => Ok((Message::Killed, at)),
        kind::SECRET => Ok((Message::Secret, at)),
        kind::STATIC_SOUND => read_static_sound(s, at),
        kind::INTERMISSION => Ok((Message::Intermission, at)),
        kind::FINALE => read_finale(s, at),
        kind::TRACK => read_track(s, at),
        kind::SELLSCREEN => Ok((Message::Sellscreen, at)),
        kind::CUTSCENE => read_cutscene(s, at),
        _ => update_message(s, at, n),
    }
}

#[tactic(auto, unfolding(dem::specs::Message::layout, format::specs::Layout::parse, dem_parts::specs::Kinds::kind_in))]
pub fn read_message(s: &[u8], at: usize, x: Context) -> Read<Message>
    ensures { message_of s.now result ≡ parse (layout (context_of x)) (drop at s.now) }
{
    let (number, at) = message_number(s, at, x)?;
    read_kind(s, at, number, x)
}

// ---- messages of which only the place behind them is told

// Whether a message is of a kind that comes often, changes nothing of the scene and is its own normal form.
pub fn is_passed(n: u8) -> bool
    ensures { result ≡ is_passed n }
{
    matches!(
        n,
        kind::PRINT
            | kind::STUFFTEXT
            | kind::NAME
            | kind::PARTICLE
            | kind::DAMAGE
            | kind::TEMPORARY
            | kind::CENTERPRINT
    )
}

// The place behind such a message, from behind its number on, or its refusal. No message is made.
#[tactic(auto, unfolding(crate::specs::Passed::passed_in))]
pub fn pass_message(s: &[u8], at: usize, n: u8, x: Context) -> Result<usize, Refused>
    requires { is_passed n ≡ true }
    ensures { passed_to s.now result ≡ passed_in (context_of x) n (drop at s.now) }
{
    let (_, next) = match n {
        kind::PRINT => read_print(s, at),
        kind::STUFFTEXT => read_stufftext(s, at),
        kind::NAME => read_name(s, at, x),
        kind::PARTICLE => read_particle(s, at),
        kind::DAMAGE => read_damage(s, at),
        kind::TEMPORARY => read_temporary(s, at),
        _ => read_centerprint(s, at),
    }?;
    Ok(next)
}
