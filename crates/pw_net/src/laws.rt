ghost use Rattle.std.specs.Prelude.{◌≡◌, ◌≢◌, ◌++◌, ℕ, List, Some};
ghost use Rattle.pw_net.specs.Agreement.{HasPrepared, IsFrom, IsOther, IsSystemOf, WasSent};
ghost use Rattle.pw_net.specs.World.{NetEvent, net_world_after, mark_at};
ghost use Rattle.pw_net.specs.declared.message.Mark.TheVariants.{Committed, Aborted};
ghost use Rattle.pw_net.specs.declared.message.NetId.{NetId};
ghost use Rattle.pw_net.specs.declared.message.NetWord.TheVariants.{Yes};

/// Behind every list of events, for any number of systems: where a transaction is Committed at some
/// system, it is Aborted at none of its systems, and each of its systems but the home has sent Yes
/// and is Prepared or Committed. A Committed or Aborted mark never changes, at any system. The
/// rules and the premise stand in docs/design/SYSTEMS.md.
pub fn agreement_laws()
    ensures agree { (events : List NetEvent) (id : NetId) (one other : ℕ)
        → mark_at (net_world_after events) one id ≡ Some Committed → IsSystemOf events id other
        → mark_at (net_world_after events) other id ≢ Some Aborted }
    ensures voted { (events : List NetEvent) (id : NetId) (one other : ℕ)
        → mark_at (net_world_after events) one id ≡ Some Committed
        → IsOther events id other → other ≢ id.home
        → WasSent (IsFrom Yes id other) (net_world_after events).sent × HasPrepared (net_world_after events) other id }
    ensures committed { (events more : List NetEvent) (id : NetId) (system : ℕ)
        → mark_at (net_world_after events) system id ≡ Some Committed
        → mark_at (net_world_after (events ++ more)) system id ≡ Some Committed }
    ensures aborted { (events more : List NetEvent) (id : NetId) (system : ℕ)
        → mark_at (net_world_after events) system id ≡ Some Aborted
        → mark_at (net_world_after (events ++ more)) system id ≡ Some Aborted }
{}
