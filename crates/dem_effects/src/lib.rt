// What a message does to the scene.
#![tactic(auto)]

ghost use Rattle.std.specs.Prelude.{◌≡◌, List, [], ◌∷◌, ◌++◌, cond, ℕ, ◌+◌, ◌≤◌, ◌<◌};
ghost use Rattle.dem.specs.Kind;
ghost use Rattle.dem.specs.Limits.{entity_count};
ghost use Rattle.format.specs.Layout.{Value, number};
ghost use Rattle.dem.specs.Message.{apply, fill};
ghost use Rattle.dem_types.specs.declared.Message.{Message};
ghost use Rattle.dem_types.specs.Values.{look_values, pose_values, update_values, values_by, values_of};
ghost use Rattle.dem_scene.specs.Views.{scene_of, baseline_numbers, Numbered, filled_by};
ghost use Rattle.dem.specs.Scene.{baseline_at};
ghost use Rattle.wire.specs.declared.Text.{Text};

use dem::limit::ENTITY_COUNT;
use dem_scene::{Baseline, Filled, Scene};
use dem_types::{Entity, Look, Message, Pose, Update};

// The baseline of an entity, all zero past the last.
#[tactic(auto, unfolding(dem_scene::specs::Views::scene_with))]
pub fn baseline_of(s: Scene, entity: Entity) -> Baseline
    ensures { baseline_numbers result ≡ baseline_at (scene_of s) entity.0 }
{
    let i = dem_types::index_of(entity);
    if i < ENTITY_COUNT {
        return s.baselines[i];
    }
    Baseline::CLEARED
}

#[tactic(auto, unfolding(dem_scene::specs::Views::scene_with, dem::specs::Message::apply))]
fn with_baseline(mut s: Scene, entity: Entity, look: Look, pose: Pose) -> Scene
    ensures { scene_of result ≡ apply (scene_of s) (number Kind.baseline ∷ number entity.0 ∷ (look_values look ++ pose_values pose)) }
{
    let i = dem_types::index_of(entity);
    if i < ENTITY_COUNT {
        s.baselines[i] = Baseline { look, pose };
    }
    s
}

// How many marks are set once this one is: one more, if it was not.
fn count_with(set: bool, count: usize) -> usize
    requires { count ≤ entity_count }
    ensures { result ≡ cond set count (count + 1) }
{
    if set { count } else { count + 1 }
}

#[tactic(auto, unfolding(dem_scene::specs::Views::scene_with))]
fn with_update(mut s: Scene, u: Update) -> Scene
    requires { s.present_count ≤ entity_count }
    ensures { Kind.update ≤ u.number → scene_of result ≡ apply (scene_of s) (fill (scene_of s) (update_values u)) }
{
    let i = dem_types::index_of(u.entity);
    let record = dem_scene::fill_update(u, baseline_of(s, u.entity));
    if i < ENTITY_COUNT {
        s.records[i] = record;
        s.present_count = count_with(s.present[i], s.present_count);
        s.present[i] = true;
    }
    s
}

// The scene after a message, whose strings are places in a text.
#[tactic(auto, unfolding(dem_scene::specs::Views::scene_with, dem::specs::Message::apply, dem::specs::Message::fill))]
pub fn scene_after(mut s: Scene, m: Message, text: &[u8]) -> Scene
    requires { (s.rest.statics < 255) × (s.present_count ≤ entity_count) }
    ensures { Numbered m → scene_of result ≡ apply (scene_of s) (fill (scene_of s) (values_of text.now m)) }
{
    match m {
        Message::Update(u) => with_update(s, u),
        Message::Baseline(entity, look, pose) => with_baseline(s, entity, look, pose),
        Message::Serverinfo(i) => dem_scene::cleared_scene(i.limit),
        Message::Time(_) => {
            s.rest = dem_scene::apply_rest(s.rest, m, text);
            s.present = [false; ENTITY_COUNT];
            s.present_count = 0;
            s
        }
        _ => {
            s.rest = dem_scene::apply_rest(s.rest, m, text);
            s
        }
    }
}

// The filled-in form of a message.
#[tactic(auto, unfolding(dem::specs::Message::fill))]
pub fn filled_in(s: Scene, m: Message) -> Filled
    ensures { (v : Message → List Value) (t : Text → List ℕ) → v m ≡ values_by t m → Numbered m → filled_by v result ≡ fill (scene_of s) (values_by t m) }
{
    match m {
        Message::Update(u) => dem_scene::fill_message(m, baseline_of(s, u.entity)),
        // Without a mask no baseline is read.
        _ => dem_scene::fill_message(m, Baseline::CLEARED),
    }
}
