ghost use Rattle.std.specs.Prelude.{◌≡◌, ◌^◌, ◌<◌, [], length, IfOk};
ghost use Rattle.pw_compile.specs.Programs.{program_code};

use crate::program::code_of;
use pw_base::memory::Memory;
use pw_code::code::Code;
use pw_code::links::Links;
use pw_scobol::requester::Requester;
use pw_server::server::Server;
use std::alloc::Global;

/// The code of a requester whose names resolve, where its screens are numbered from `first_screen` on
/// (docs/design/MACHINE.md). It has fewer than 2^32 instructions: more, or a number of a screen that does not fit
/// a `u32`, are `Memory`.
pub fn compile(
    alloc: Global,
    program: &Requester,
    links: &Links,
    first_screen: u32,
) -> Result<Code, Memory>
    ensures code { IfOk result (λ code. code ≡ program_code program.now.name program.now.layout
        program.now.screens program.now.using program.now.procedure.paragraphs first_screen
        links.now) }
    ensures short { IfOk result (λ code. length code.instrs < 2 ^ 32) }
{
    code_of(
        alloc,
        program.name.as_slice(),
        &program.layout,
        program.screens.as_slice(),
        program.using.as_slice(),
        program.procedure.paragraphs.as_slice(),
        first_screen,
        links,
    )
}

/// The code of a server whose names resolve (docs/design/MACHINE.md). It has fewer than 2^32 instructions: more
/// are `Memory`.
pub fn compile_server(alloc: Global, program: &Server, links: &Links) -> Result<Code, Memory>
    ensures code { IfOk result (λ code. code ≡ program_code program.now.name program.now.layout [] []
        program.now.procedure.paragraphs 0 links.now) }
    ensures short { IfOk result (λ code. length code.instrs < 2 ^ 32) }
{
    code_of(
        alloc,
        program.name.as_slice(),
        &program.layout,
        &[],
        &[],
        program.procedure.paragraphs.as_slice(),
        0,
        links,
    )
}
