// Player lines that a caller lends as one list, changed in place.
#![tactic(auto)]

ghost use Rattle.std.specs.Prelude.{◌≡◌, List, map, ℕ, length};
ghost use Rattle.dem.specs.Scene.{Scene as Described, PlayerLine as Line};
ghost use Rattle.dem.specs.Message.{apply, fill};
ghost use Rattle.wire.specs.declared.Text.{Text};
ghost use Rattle.dem_types.specs.Values.{values_by};
ghost use Rattle.dem_scene.specs.Views.{line_of, scene_of, Numbered};
ghost use Rattle.dem_messages.specs.Replies.{reply_of};
ghost use Rattle.dem_lines.specs.declared.LineChange.{LineChange};
ghost use Rattle.dem_lines.specs.Lent.{lent, answer_of, changed_lines, change_lent, with_lines, message_lent};
ghost use Rattle.dem_lines.specs.Turns.{line_plan, plan_of, changed_line, Brings};

use dem::limit::PLAYER_COUNT;
use dem_messages::{Found, Reply};
use dem_scene::{PlayerLine, Scene};
use dem_types::{Message, Player};
use format::refusal::{Refusal, Refused};

// What is done to the lines. Clearing is what serverinfo does to them. `Nothing` and no `Option` of the others: what may not change, callers and
// the definitions of `Lent` name it.
#[derive(Clone, Copy)]
pub enum LineChange {
    Nothing,
    Frags(Player, i16),
    Colours(Player, u8),
    Clear,
}

// The lines that change: from `first` up to `end`.
#[derive(Clone, Copy)]
pub struct Plan {
    pub first: usize,
    pub end: usize,
}

fn one_line(player: Player) -> Result<Plan, Refused>
    ensures { result ≡ line_plan player.0 }
{
    let first = usize::from(player.0);
    if first < PLAYER_COUNT {
        return Ok(Plan {
            first,
            end: first + 1,
        });
    }
    Err(Refused {
        refusal: Refusal::WrongNumber,
        place: 0,
    })
}

// What a change is answered where so many lines are lent. This and `changed_line` are what `change_lines` is made of, for callers that keep
// the lines by value.
pub fn plan_of(count: usize, change: LineChange) -> Result<Plan, Refused>
    ensures { result ≡ plan_of count change }
{
    if count != PLAYER_COUNT {
        return Err(Refused {
            refusal: Refusal::WrongScene,
            place: 0,
        });
    }
    match change {
        LineChange::Nothing => Ok(Plan { first: 0, end: 0 }),
        LineChange::Frags(player, _) | LineChange::Colours(player, _) => one_line(player),
        LineChange::Clear => Ok(Plan {
            first: 0,
            end: PLAYER_COUNT,
        }),
    }
}

// A line that changes.
pub fn changed_line(line: PlayerLine, change: LineChange) -> PlayerLine
    ensures { result ≡ changed_line change line }
{
    match change {
        LineChange::Nothing => line,
        LineChange::Frags(_, frags) => PlayerLine { frags, ..line },
        LineChange::Colours(_, colours) => PlayerLine { colours, ..line },
        LineChange::Clear => PlayerLine::CLEARED,
    }
}

// One change of the lines that are lent. With a refusal, every line is as it was.
#[tactic(auto, using(crate::proofs::Turning::refused_comes))]
pub fn change_lines(lines: &mut [PlayerLine], change: LineChange) -> Result<(), Refused>
    ensures { lent (answer_of result) (map line_of lines.new) ≡ change_lent change (map line_of lines.old) }
{
    let plan = plan_of(lines.len(), change)?;
    for line in &mut lines[plan.first..plan.end] {
        *line = changed_line(*line, change);
    }
    Ok(())
}

// ---- a message with the lines lent

fn change_of(message: Message) -> LineChange
    ensures { (s : Described) (t : Text → List ℕ) → Numbered message → changed_lines result s.players ≡ (apply s (fill s (values_by t message))).players }
{
    match message {
        Message::Serverinfo(_) => LineChange::Clear,
        Message::Frags(player, frags) => LineChange::Frags(player, frags),
        Message::Colours(player, colours) => LineChange::Colours(player, colours),
        _ => LineChange::Nothing,
    }
}

// A refusal, and the end, bring none.
fn change_by(reply: &Reply<Option<Found>>) -> LineChange
    ensures { Brings result reply.now.answer }
{
    match reply.answer {
        Ok(Some(found)) => change_of(found.message),
        Ok(None) | Err(_) => LineChange::Nothing,
    }
}

fn with_lines(scene: Scene, lines: [PlayerLine; PLAYER_COUNT]) -> Scene
    ensures { scene_of result ≡ with_lines (map line_of lines) (scene_of scene) }
{
    let mut changed = scene;
    changed.rest.players = lines;
    changed
}

// The reply where so many lines are lent. The scene's own lines are not looked at, and are handed back as they were given.
fn reply_at(scene: Scene, bytes: &[u8], at: usize, count: usize) -> Reply<Option<Found>>
    ensures { (c : LineChange) → Brings c result.answer → (lines : List Line) → length lines ≡ count → lent (reply_of bytes.now result) (change_lent c lines).lines ≡ message_lent (scene_of scene) lines bytes.now at }
{
    if count != PLAYER_COUNT {
        let r = Refused {
            refusal: Refusal::WrongScene,
            place: 0,
        };
        return Reply {
            answer: Err(r),
            scene,
        };
    }
    let read = dem_messages::read_message_at(scene, bytes, at);
    Reply {
        answer: read.answer,
        scene: with_lines(read.scene, scene.rest.players),
    }
}

// The message at a place of a block's bytes, in a scene whose lines are lent.
pub fn read_message_lent(
    scene: Scene,
    bytes: &[u8],
    at: usize,
    lines: &mut [PlayerLine],
) -> Reply<Option<Found>>
    ensures { lent (reply_of bytes.now result) (map line_of lines.new) ≡ message_lent (scene_of scene) (map line_of lines.old) bytes.now at }
{
    let reply = reply_at(scene, bytes, at, lines.len());
    // Lines that are not sixteen stay as they are: that is told by the reply.
    let _ = change_lines(lines, change_by(&reply));
    reply
}
