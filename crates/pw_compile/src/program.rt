ghost use Rattle.std.specs.Prelude.{◌≡◌, ◌^◌, ◌<◌, length, IfOk};
ghost use Rattle.pw_compile.specs.Programs.{linked_by, linkage_of, program_code};
ghost use Rattle.pw_data.specs.Layouts.{place_of};

use crate::plan::Plan;
use crate::turns::turns_of;
use pw_base::bytes::Bytes;
use pw_base::list::List;
use pw_base::memory::Memory;
use pw_code::code::Code;
use pw_code::field::ScreenTable;
use pw_code::links::Links;
use pw_data::layout::Layout;
use pw_forms::statement::Paragraph;
use std::alloc::Global;

/// Where the item of a name lies, and its size.
fn linked(layout: &Layout, name: &[u8]) -> (u32, u32)
    ensures { result ≡ linked_by (place_of layout.now name.now) }
{
    match layout.place(name) {
        Some(place) => (place.at, place.size),
        None => (0, 0),
    }
}

/// The items of USING.
fn linkage_of(alloc: Global, layout: &Layout, names: &[Bytes]) -> Result<List<(u32, u32)>, Memory>
    ensures { IfOk result (λ linkage. linkage ≡ linkage_of layout.now names.now) }
{
    let mut linkage = List::new(alloc);
    for name in names {
        linkage.push(linked(layout, name.as_slice()))?;
    }
    Ok(linkage)
}

/// The code of a program with these parts. It has fewer than 2^32 instructions.
#[tactic(auto, using(crate::proofs::Lengths::code_short))]
pub(crate) fn code_of(
    alloc: Global,
    name: &[u8],
    layout: &Layout,
    screens: &[ScreenTable],
    usings: &[Bytes],
    paragraphs: &[Paragraph],
    first: u32,
    links: &Links,
) -> Result<Code, Memory>
    ensures code { IfOk result (λ code. code ≡ program_code name.now layout.now screens.now usings.now
        paragraphs.now first links.now) }
    ensures short { IfOk result (λ code. length code.instrs < 2 ^ 32) }
{
    let turns = turns_of(alloc, paragraphs)?;
    let plan = Plan::new(
        alloc,
        layout,
        screens,
        paragraphs,
        turns.as_slice(),
        first,
        links,
    )?;
    Ok(Code {
        name: Bytes::from_slice(alloc, name)?,
        instrs: plan.instrs(alloc)?,
        storage: Bytes::from_slice(alloc, layout.storage())?,
        linkage: linkage_of(alloc, layout, usings)?,
    })
}
