ghost use Rattle.std.specs.Prelude.{◌≡◌, ◌≢◌, ◌<◌, ℕ, false, length, true};
ghost use Rattle.std.specs.List.{list_any};
ghost use Rattle.pw_class.specs.Queue.{at_process, has_request, is_of, works_for};
ghost use Rattle.pw_event.specs.Due.{owner_of};
ghost use Rattle.pw_event.specs.declared.event.Event.{Event};
ghost use Rattle.pw_event.specs.declared.script.Owner.TheVariants as owner;
ghost use Rattle.pw_world_model.specs.Pushed.{CanPush};
ghost use Rattle.pw_world_model.specs.Seen.{Seen, sys_of};
ghost use Rattle.pw_world_model.specs.Touches.{turns};
ghost use Rattle.pw_world_model.specs.Worlds.{Books, IsWorld};

/// Where the requests of a world are, and which pairs get another mode: a terminal has at most one
/// request, which waits at one class or is at one process, and only the pair to which an entry belongs
/// gets another mode by it.
pub fn request_laws()
    ensures class { (world : Seen) (books : Books) (t c d : ℕ)
        → IsWorld world books → c < length world.system.classes → d < length world.system.classes
        → has_request t (world.kept.queues c) ≡ true
        → has_request t (world.kept.queues d) ≡ true → c ≡ d }
    ensures process { (world : Seen) (books : Books) (t c i d j : ℕ)
        → IsWorld world books → c < length world.system.classes → d < length world.system.classes
        → works_for t (at_process (world.kept.queues c) i) ≡ true
        → works_for t (at_process (world.kept.queues d) j) ≡ true → (c ≡ d) × (i ≡ j) }
    ensures line { (world : Seen) (books : Books) (t c i d : ℕ)
        → IsWorld world books → c < length world.system.classes → d < length world.system.classes
        → works_for t (at_process (world.kept.queues c) i) ≡ true
        → list_any (is_of t) (world.kept.queues d).waiting ≡ false }
    ensures turns { (world : Seen) (books : Books) (entry : Event) (p : ℕ)
        → IsWorld world books → CanPush world entry → p < length world.system.tcps
        → owner_of (sys_of world).pair_of entry ≢ owner.Tcp p
        → turns world.system world.kept entry p ≡ false }
{}
