ghost use Rattle.std.specs.Prelude.{◌≡◌, ◌<◌, ℕ, All, Some, length, true};
ghost use Rattle.pw_class.specs.Queue.{at_process};
ghost use Rattle.pw_class.specs.declared.request.Request.{Request};
ghost use Rattle.pw_code.specs.declared.context.Context.{Context};
ghost use Rattle.pw_code.specs.declared.file.FileCall.{FileCall};
ghost use Rattle.pw_code.specs.declared.verb.Verb.TheVariants as verb;
ghost use Rattle.pw_world_state.specs.Asked.{verb_in};
ghost use Rattle.pw_world_state.specs.Changes.{unit_at};
ghost use Rattle.pw_locks.specs.declared.lock.Lock.{Lock};
ghost use Rattle.pw_world_model.specs.Seen.{Seen};
ghost use Rattle.pw_world_model.specs.Worlds.{Books, IsWorld};
ghost use Rattle.pw_paired.specs.State.{Awaited};
ghost use Rattle.pw_tmf.specs.Operation.{IsCall};
ghost use Rattle.pw_tmf.specs.Told.{ToldUnit};
ghost use Rattle.pw_tmf.specs.Units.{IsOpen, IsRunning};

/// What a world keeps of units, locks and servers: open and awaited units are those of started
/// terminals, each lock is of the open unit that holds it, a server works for a unit of which an
/// attempt runs, and what it asks of a file may be asked of the disc.
pub fn known_laws()
    ensures rule { (world : Seen) (books : Books) → IsWorld world books
        → world.kept.disc.rule ≡ world.system.rule }
    ensures started { (world : Seen) (books : Books) (t : ℕ) (own : ToldUnit)
        → IsWorld world books → world.kept.disc.units t ≡ Some own
        → t < length world.system.terminals }
    ensures awaits { (world : Seen) (books : Books) (t : ℕ) (awaited : Awaited)
        → IsWorld world books → t < length world.system.terminals
        → (world.kept.terminals t).awaits ≡ Some awaited
        → awaited.terminal < length world.system.terminals }
    ensures locks { (world : Seen) (books : Books) → IsWorld world books
        → All (λ (lock : Lock). IsOpen world.kept.disc lock.unit) world.kept.disc.locks }
    ensures works { (world : Seen) (books : Books) (c i : ℕ) (request : Request)
        → IsWorld world books → c < length world.system.classes
        → at_process (world.kept.queues c) i ≡ Some request
        → IsRunning world.kept.disc (unit_at world.kept request.terminal request.unit) }
    ensures calls { (world : Seen) (books : Books) (c i : ℕ) (context : Context) (call : FileCall)
        → IsWorld world books → c < length world.system.classes
        → world.kept.jobs c i ≡ Some context → context.at_verb ≡ true
        → verb_in world.system context ≡ verb.File call → IsCall world.kept.disc call }
{}
