ghost use Rattle.std.specs.Prelude.{◌≡◌, ◌<◌, ℕ, List, length, true};
ghost use Rattle.pw_world_model.specs.Answers.{IsWorldIdle};
ghost use Rattle.pw_world_model.specs.Calls.{BuildsHere};
ghost use Rattle.pw_world_model.specs.Seen.{Seen};
ghost use Rattle.pw_world_model.specs.Unready.{IsNobodyOut, WaitsForImage, unready};
ghost use Rattle.pw_world_model.specs.Working.{WorksOn};
ghost use Rattle.pw_world_model.specs.Worlds.{Books, IsWorld};
ghost use Rattle.pw_world_model.specs.declared.answers.Applied.TheVariants as applied;

/// What `work` answers where it makes no entry, and why it makes one in the end: it is never Stale or Unrun; behind Held
/// less is left to make ready; behind Unbuilt there is an image to be built, behind which less is left; and where nobody
/// is out it is never Idle.
pub fn unready_laws()
    ensures stale { (members : ℕ → List ℕ) (world new : Seen) (carried found : ℕ)
        → ¬ WorksOn members world (applied.Stale carried found) new }
    ensures unrun { (members : ℕ → List ℕ) (world new : Seen) → ¬ WorksOn members world applied.Unrun new }
    ensures held { (members : ℕ → List ℕ) (world new : Seen) (books : Books) → IsWorld world books
        → WorksOn members world applied.Held new → unready new < unready world }
    ensures unbuilt { (members : ℕ → List ℕ) (world new : Seen) → WorksOn members world applied.Unbuilt new
        → WaitsForImage world new }
    ensures builds { (world new : Seen) (p : ℕ) → p < length world.system.tcps → BuildsHere world p true new
        → unready new < unready world }
    ensures idle { (world : Seen) → IsNobodyOut world → ¬ IsWorldIdle world }
{}
