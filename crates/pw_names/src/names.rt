ghost use Rattle.std.specs.Prelude.{◌≡◌, option_map, None, IfOk, OnOk};
ghost use Rattle.pw_data.specs.Layouts.{place_of};
ghost use Rattle.pw_base.specs.First.{Gives};
ghost use Rattle.pw_names.specs.Calls.{lengths_of};
ghost use Rattle.pw_names.specs.Faults.{program_faults};
ghost use Rattle.pw_names.specs.Order.{first};
ghost use Rattle.pw_names.specs.Names.{usings_of, requester_program, server_program, requester_faults, server_faults, all_faults, names_of, AllRequestersResolve, AllServersResolve};

use crate::outside::{Lengths, Outside};
use crate::scope::NameScope;
use pw_base::bytes::Bytes;
use pw_base::fault::{Fault, Refusal};
use pw_base::list::List;
use pw_base::memory::Memory;
use pw_code::links::Links;
use pw_data::layout::Layout;
use pw_scobol::requester::Requester;
use pw_server::server::Server;
use std::alloc::Global;

/// How long the item of a name is.
fn length_of(layout: &Layout, name: &Bytes) -> Option<u32>
    ensures { result ≡ option_map (λ place. place.size) (place_of layout.now name.now) }
{
    let place = layout.place(name.as_slice())?;
    Some(place.size)
}

/// How long the items of names are.
fn lengths_of(alloc: Global, layout: &Layout, names: &[Bytes]) -> Result<Lengths, Memory>
    ensures { IfOk result (λ lengths. lengths ≡ lengths_of layout.now names.now) }
{
    let mut lengths = List::new(alloc);
    for name in names {
        lengths.push(length_of(layout, name))?;
    }
    Ok(lengths)
}

/// How long the USING items of each requester are.
fn usings_of(alloc: Global, requesters: &[Requester]) -> Result<List<Lengths>, Memory>
    ensures { IfOk result (λ usings. usings ≡ usings_of requesters.now) }
{
    let mut usings = List::new(alloc);
    for requester in requesters {
        usings.push(lengths_of(alloc, &requester.layout, requester.using.as_slice())?)?;
    }
    Ok(usings)
}

/// The first of the fault that is known and of those of a requester.
fn requester_fault(
    alloc: Global,
    requester: &Requester,
    outside: &Outside<'_>,
    known: Option<Fault>,
) -> Result<Option<Fault>, Memory>
    ensures { IfOk result (λ found. found ≡ first known
        (program_faults (requester_program outside.now.usings outside.now.links requester.now))) }
{
    let screens = requester.screens.as_slice();
    let paragraphs = requester.procedure.paragraphs.as_slice();
    let scope = NameScope::new(
        alloc,
        false,
        &requester.layout,
        screens,
        paragraphs,
        outside,
    )?;
    Ok(scope.program_fault(known))
}

/// The first of the fault that is known and of those of a server.
fn server_fault(
    alloc: Global,
    server: &Server,
    outside: &Outside<'_>,
    known: Option<Fault>,
) -> Result<Option<Fault>, Memory>
    ensures { IfOk result (λ found. found ≡ first known
        (program_faults (server_program outside.now.usings outside.now.links server.now))) }
{
    let paragraphs = server.procedure.paragraphs.as_slice();
    let scope = NameScope::new(alloc, true, &server.layout, &[], paragraphs, outside)?;
    Ok(scope.program_fault(known))
}

/// The first of the fault that is known and of those of requesters.
fn requesters_fault(
    alloc: Global,
    requesters: &[Requester],
    outside: &Outside<'_>,
    known: Option<Fault>,
) -> Result<Option<Fault>, Memory>
    ensures { IfOk result (λ found. found ≡ first known
        (requester_faults outside.now.usings outside.now.links requesters.now)) }
{
    let mut found = known;
    for requester in requesters {
        found = requester_fault(alloc, requester, outside, found)?;
    }
    Ok(found)
}

/// The first of the fault that is known and of those of servers.
fn servers_fault(
    alloc: Global,
    servers: &[Server],
    outside: &Outside<'_>,
    known: Option<Fault>,
) -> Result<Option<Fault>, Memory>
    ensures { IfOk result (λ found. found ≡ first known
        (server_faults outside.now.usings outside.now.links servers.now)) }
{
    let mut found = known;
    for server in servers {
        found = server_fault(alloc, server, outside, found)?;
    }
    Ok(found)
}

/// The first fault of all programs.
fn first_fault(
    alloc: Global,
    requesters: &[Requester],
    servers: &[Server],
    links: &Links,
) -> Result<Option<Fault>, Memory>
    ensures { IfOk result (λ found.
        found ≡ first None (all_faults requesters.now servers.now links.now)) }
{
    let usings = usings_of(alloc, requesters)?;
    let outside = Outside::new(alloc, links, usings)?;
    let found = requesters_fault(alloc, requesters, &outside, None)?;
    servers_fault(alloc, servers, &outside, found)
}

/// Looks at the names of the requesters and servers of a deck, whose names the links have: the
/// programs are the requesters, in their order.
///
/// It refuses exactly with the first of these faults, looked for in this order and each by line,
/// where a fault stands at the line of its statement:
///
/// - 161 for a paragraph that the program has not;
/// - 162 for a program, class, file or screen that is not there;
/// - 123 for a name that is no item, register or, where a screen may stand, screen;
/// - 163 for a CALL with another number of arguments or other lengths than the USING of the program
///   that it calls, for a key item that is not as long as the file's key, and for a record of
///   another length than from the key's to 4,000;
/// - 164 for an operand of another kind than its place takes, for a register that receives, and for
///   a subscript that is missing, not wanted, or neither a whole number nor a Number without a sign
///   outside each OCCURS.
///
/// Where it accepts them, each name of each of them resolves, and each operand has its kind and
/// length (docs/reference/LANGUAGE.md). Each name is looked up in few steps, however many there are.
pub fn names(
    alloc: Global,
    requesters: &[Requester],
    servers: &[Server],
    links: &Links,
) -> Result<(), Refusal>
    ensures gives { Gives (λ done. done) result (names_of requesters.now servers.now links.now) }
    ensures requesters { OnOk result (AllRequestersResolve requesters.now links.now) }
    ensures servers { OnOk result (AllServersResolve servers.now links.now) }
{
    match first_fault(alloc, requesters, servers, links)? {
        Some(fault) => Err(fault.into()),
        None => Ok(()),
    }
}
