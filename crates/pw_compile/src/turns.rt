ghost use Rattle.std.specs.Prelude.{◌≡◌, ◌+◌, ◌^◌, ◌<◌, IfOk};
ghost use Rattle.pw_compile.specs.Lengths.{instructions_of};
ghost use Rattle.pw_compile.specs.Sizes.{body_size, turns_from};

use crate::numbers::add;
use crate::sizes::body_size;
use pw_base::list::List;
use pw_base::memory::Memory;
use pw_code::instr::Turn;
use pw_forms::statement::Paragraph;
use std::alloc::Global;

/// Where each paragraph begins and where its end stands. Their code fits a `u32`.
pub fn turns_of(alloc: Global, paragraphs: &[Paragraph]) -> Result<List<Turn>, Memory>
    ensures turns { IfOk result (λ turns. turns ≡ turns_from 0 paragraphs.now) }
    ensures short { IfOk result (λ turns. instructions_of paragraphs.now < 2 ^ 32) }
{
    let mut turns = List::new(alloc);
    let mut at = 0;
    for paragraph in paragraphs {
        let end = add(at, body_size(paragraph.body.as_slice())?)?;
        turns.push(Turn { start: at, end })?;
        at = add(end, 1)?;
    }
    Ok(turns)
}
