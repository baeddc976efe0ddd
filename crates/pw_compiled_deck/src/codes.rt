ghost use Rattle.std.specs.Prelude.{◌≡◌, ◌+◌, ◌++◌, ◌^◌, ◌<◌, length, map, All, IfOk, OnOk};
ghost use Rattle.pw_compiler_laws.specs.Systems.{code_in, codes_in, screens_of};
ghost use Rattle.pw_compiled_deck.specs.Whole.{of_requester, of_server};
ghost use Rattle.pw_compiled_deck.specs.Short.{IsShort};

use pw_base::list::List;
use pw_base::memory::Memory;
use pw_code::code::Code;
use pw_code::field::ScreenTable;
use pw_code::links::Links;
use pw_compile::compile::{compile, compile_server};
use pw_scobol::requester::Requester;
use pw_server::server::Server;
use std::alloc::Global;

/// The number of the first screen behind these, where screens are numbered from `first` on. It is an
/// `Err` where it does not fit, where the screens would have no memory either.
fn behind(first: u32, screens: &[ScreenTable]) -> Result<u32, Memory>
    ensures next { IfOk result (λ next. next ≡ first + length screens.now) }
    ensures fits { IfOk result (λ next. next < 2 ^ 32) }
{
    let Ok(count) = u32::try_from(screens.len()) else {
        return Err(Memory);
    };
    match first.checked_add(count) {
        Some(next) => Ok(next),
        None => Err(Memory),
    }
}

/// The codes of requesters, whose screens are numbered through. The numbers of all of them fit a `u32`.
pub fn requester_codes(
    alloc: Global,
    requesters: &[Requester],
    links: &Links,
) -> Result<List<Code>, Memory>
    ensures codes { IfOk result (λ codes. codes ≡ codes_in links.now 0 (map of_requester requesters.now)) }
    ensures short { IfOk result (All IsShort) }
    ensures few { OnOk result (length (screens_of (map of_requester requesters.now)) < 2 ^ 32) }
{
    let mut codes = List::new(alloc);
    let mut first: u32 = 0;
    for requester in requesters {
        codes.push(compile(alloc, requester, links, first)?)?;
        first = behind(first, requester.screens.as_slice())?;
    }
    Ok(codes)
}

/// The codes of servers.
pub fn server_codes(alloc: Global, servers: &[Server], links: &Links) -> Result<List<Code>, Memory>
    ensures codes { IfOk result (λ codes. codes ≡ map (code_in links.now 0) (map of_server servers.now)) }
    ensures short { IfOk result (All IsShort) }
{
    let mut codes = List::new(alloc);
    for server in servers {
        codes.push(compile_server(alloc, server, links)?)?;
    }
    Ok(codes)
}

/// Puts the screens of a requester behind others.
fn take_screens(screens: &mut List<ScreenTable>, more: List<ScreenTable>) -> Result<(), Memory>
    ensures { OnOk result (screens.new ≡ screens.old ++ more) }
{
    for screen in more.into_vec() {
        screens.push(screen)?;
    }
    Ok(())
}

/// The screens of requesters, one behind the other.
pub fn all_screens(alloc: Global, requesters: List<Requester>) -> Result<List<ScreenTable>, Memory>
    ensures { IfOk result (λ screens. screens ≡ screens_of (map of_requester requesters)) }
{
    let mut screens = List::new(alloc);
    for requester in requesters.into_vec() {
        take_screens(&mut screens, requester.screens)?;
    }
    Ok(screens)
}
