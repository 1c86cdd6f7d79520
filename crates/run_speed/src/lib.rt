// One number of the scene after a recording, for the benchmark to ask for: no part of the reading can be left out for it.
#![tactic(auto)]

ghost use Rattle.std.specs.Prelude.{◌≡◌};
ghost use Rattle.std.proofs.Common.{of_z};
ghost use Rattle.std.specs.Int.{w16};
ghost use Rattle.dem.specs.Answer.{whole};
ghost use Rattle.run_speed.specs.Coordinates.{x_of};

// The x of an entity whose mark is set, else 0.
#[tactic(auto, unfolding(crate::specs::Coordinates::x_of, dem_scene::specs::Views::scene_with))]
#[unsafe(no_mangle)]
pub extern "C" fn speed_x(bytes: &[u8], entity: u8) -> i16
    ensures { of_z w16 result ≡ x_of (whole bytes.now).scene entity }
{
    let scene = dem_recordings::read_recording(bytes).scene;
    let i = usize::from(entity);
    if scene.present[i] {
        scene.records[i].pose.x
    } else {
        0
    }
}
