ghost use Rattle.std.specs.Prelude.{◌≡◌, ◌⊎◌, List, None, Ok};
ghost use Rattle.pw_event.specs.declared.event.Event.{Event};
ghost use Rattle.pw_paired.specs.Step.{Legal, effect};
ghost use Rattle.pw_world_model.specs.Between.{AreCalls, HasBooks, IsOfTask};
ghost use Rattle.pw_world_model.specs.Actors.{IsActor};
ghost use Rattle.pw_world_model.specs.Answers.{AnswersApply, Claims};
ghost use Rattle.pw_world_model.specs.Seen.{Seen, kept_context, state_of, sys_of};
ghost use Rattle.pw_world_model.specs.Stamps.{state_in};
ghost use Rattle.pw_world_model.specs.Worlds.{Books, IsWorld};
ghost use Rattle.pw_world_model.specs.declared.answers.Applied.TheVariants as applied;
ghost use Rattle.pw_world_model.specs.declared.answers.Claim.TheVariants as claim;
ghost use Rattle.pw_world_model.specs.declared.task.Outcome.{Outcome};
ghost use Rattle.pw_world_model.specs.declared.task.Task.{Task};
ghost use Rattle.pw_world_state.specs.Entered.{entered};
ghost use Rattle.pw_world_state.specs.Kept.{Kept};
ghost use Rattle.pw_world_state.specs.Members.{members_of};
ghost use Rattle.pw_actor_queue.specs.declared.actor.Actor.{Actor};

/// What `run_task` makes of a claimed task is never answered Unrun, whatever calls of `claim`, `apply`, `enter` and
/// `give_back` come between, for this actor or for others. For a legal entry that leaves an actor's state leaves
/// its kept context, or takes it away.
pub fn unrun_laws()
    ensures stays { (world : Seen) (books : Books) (kept : Kept) (entry : Event) (actor : Actor)
        → IsWorld world books → IsActor world.system actor
        → Legal (sys_of world) (state_of world) entry
        → state_in (sys_of world) (state_of world) actor
        ≡ state_in (sys_of world) (effect (sys_of world) (state_of world) entry) actor
        → (kept_context (entered world.system (members_of world.system) entry kept) actor
        ≡ kept_context kept actor)
        ⊎ (kept_context (entered world.system (members_of world.system) entry kept) actor ≡ None) }
    ensures never { (world claimed last : Seen) (between : List Seen) (task : Task) (outcome : Outcome)
        → HasBooks world → Claims world (Ok (claim.Work task)) claimed
        → AreCalls claimed between last → IsOfTask task outcome
        → ¬ AnswersApply last outcome applied.Unrun }
{}
