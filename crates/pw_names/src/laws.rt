ghost use Rattle.std.specs.Prelude.{◌≡◌, ◌↔◌, List, [], Some, None, Ok};
ghost use Rattle.pw_base.specs.declared.fault.Fault.{Fault};
ghost use Rattle.pw_base.specs.First.{IsAmong};
ghost use Rattle.pw_code.specs.declared.links.Links.{Links};
ghost use Rattle.pw_scobol.specs.declared.requester.Requester.{Requester};
ghost use Rattle.pw_server.specs.declared.server.Server.{Server};
ghost use Rattle.pw_names.specs.Order.{first, NoneComesBefore};
ghost use Rattle.pw_names.specs.Names.{names_of};
ghost use Rattle.pw_names.specs.Exact.{AreRight};

/// What the first fault of programs is: it is there wherever there is a fault, and it is one of them
/// with none before it. There is none exactly where each name resolves, each operand fits its place,
/// and each CALL fits the program that it calls.
pub fn names_laws()
    ensures none { (faults : List Fault) → first None faults ≡ None → faults ≡ [] }
    ensures some { (faults : List Fault) (fault : Fault) → first None faults ≡ Some fault
        → IsAmong fault faults × NoneComesBefore fault faults }
    ensures right { (requesters : List Requester) (servers : List Server) (links : Links)
        → (names_of requesters servers links ≡ Ok tt) ↔ AreRight requesters servers links }
{}
