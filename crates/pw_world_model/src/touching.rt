ghost use Rattle.std.specs.Prelude.{◌≡◌, ◌<◌, ◌&&◌, ◌||◌, ℕ, false, length};
ghost use Rattle.std.specs.List.{list_any};
ghost use Rattle.pw_class.specs.Queue.{IsIn, at_process, class_of_place, has_request, works_for};
ghost use Rattle.pw_class.specs.declared.request.RequestPlace.{RequestPlace};
ghost use Rattle.pw_event.specs.Due.{owner_of};
ghost use Rattle.pw_event.specs.declared.event.Event.{Event};
ghost use Rattle.pw_event.specs.declared.script.Owner.TheVariants as owner;
ghost use Rattle.pw_world_state.specs.TerminalTests.{is_out};
ghost use Rattle.pw_world_model.specs.Actors.{IsActor, is_same_actor};
ghost use Rattle.pw_world_state.specs.Members.{members_of};
ghost use Rattle.pw_world_model.specs.Pushed.{CanPush};
ghost use Rattle.pw_world_model.specs.Seen.{Seen, sys_of};
ghost use Rattle.pw_world_model.specs.Touches.{touches, turns};
ghost use Rattle.pw_world_model.specs.Touching.{actors_at, actors_of_pair, touches_at};
ghost use Rattle.pw_world_model.specs.Worlds.{Books, IsWorld};
ghost use Rattle.pw_actor_queue.specs.declared.actor.Actor.{Actor};
ghost use Rattle.pw_actor_queue.specs.declared.actor.Actor.TheVariants.{Class, Process};

/// An entry touches, beside the actors that it touches itself, the pair to which it belongs and that
/// pair's terminals where it changes the pair's mode. Which actors the cancelled request of a terminal
/// touches follows from the place of that request.
pub fn touching_laws()
    ensures pair { (world : Seen) (books : Books) (entry : Event) (p : ℕ) (actor : Actor)
        → IsWorld world books → CanPush world entry → IsActor world.system actor
        → owner_of (sys_of world).pair_of entry ≡ owner.Tcp p
        → touches world.system world.kept entry actor
        ≡ (touches_at world.system world.kept entry actor
        || (turns world.system world.kept entry p
        && list_any (is_same_actor actor) (actors_of_pair p (members_of world.system p)))) }
    ensures class { (world : Seen) (books : Books) (entry : Event) (c : ℕ) (actor : Actor)
        → IsWorld world books → CanPush world entry → IsActor world.system actor
        → owner_of (sys_of world).pair_of entry ≡ owner.Class c
        → touches world.system world.kept entry actor
        ≡ touches_at world.system world.kept entry actor }
    ensures request { (world : Seen) (books : Books) (t : ℕ) (place : RequestPlace) (c : ℕ)
        → IsWorld world books → class_of_place place < length world.system.classes
        → c < length world.system.classes
        → IsIn (world.kept.queues (class_of_place place)) (class_of_place place) t place
        → has_request t (world.kept.queues c)
        ≡ list_any (is_same_actor (Class c)) (actors_at place) }
    ensures process { (world : Seen) (books : Books) (t : ℕ) (place : RequestPlace) (c i : ℕ)
        → IsWorld world books → class_of_place place < length world.system.classes
        → c < length world.system.classes
        → IsIn (world.kept.queues (class_of_place place)) (class_of_place place) t place
        → works_for t (at_process (world.kept.queues c) i)
        ≡ list_any (is_same_actor (Process c i)) (actors_at place) }
    ensures nowhere { (world : Seen) (books : Books) (t c : ℕ)
        → IsWorld world books → c < length world.system.classes
        → is_out world.system world.kept t ≡ false
        → has_request t (world.kept.queues c) ≡ false }
    ensures idle { (world : Seen) (books : Books) (t c i : ℕ)
        → IsWorld world books → c < length world.system.classes
        → is_out world.system world.kept t ≡ false
        → works_for t (at_process (world.kept.queues c) i) ≡ false }
{}
