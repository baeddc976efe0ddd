ghost use Rattle.std.specs.Prelude.{◌≡◌, map, IfOk};

use pw_base::bytes::Bytes;
use pw_base::list::List;
use pw_base::memory::Memory;
use pw_scobol::requester::Requester;
use pw_server::server::Server;
use std::alloc::Global;

/// The names of requesters, in their order.
pub fn requester_names(alloc: Global, requesters: &[Requester]) -> Result<List<Bytes>, Memory>
    ensures { IfOk result (λ names. names ≡ map (λ requester. requester.name) requesters.now) }
{
    let mut names = List::new(alloc);
    for requester in requesters {
        names.push(requester.name.copy(alloc)?)?;
    }
    Ok(names)
}

/// The names of servers, in their order.
pub fn server_names(alloc: Global, servers: &[Server]) -> Result<List<Bytes>, Memory>
    ensures { IfOk result (λ names. names ≡ map (λ server. server.name) servers.now) }
{
    let mut names = List::new(alloc);
    for server in servers {
        names.push(server.name.copy(alloc)?)?;
    }
    Ok(names)
}
