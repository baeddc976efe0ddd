ghost use Rattle.std.specs.Prelude.{◌≡◌, ◌<◌, length, IfOk};
ghost use Rattle.pw_report_text.specs.Listing.{records_in};
ghost use Rattle.pw_report_text.specs.Meaning.{files_text, report_text};
ghost use Rattle.pw_world.specs.States.{seen};
ghost use Rattle.pw_world_model.specs.Seen.{state_of, sys_of};
ghost use Rattle.pw_paired.specs.Units.{committed_files};

use crate::order::blocks;
use pw_base::bytes::Bytes;
use pw_base::list::List;
use pw_base::memory::Memory;
use pw_read_back::naming::naming_laws;
use pw_report_text::laws::printed_is_the_report;
use pw_report_text::listing::{self, ReportParts};
use pw_tmf::disc::Disc;
use pw_tmf::laws::committed_laws;
use pw_world::world::World;
use pw_world_state::runs::run_laws;
use std::alloc::Global;

/// The committed records of each file of a world.
fn files<D: Disc>(alloc: Global, world: &World<D>) -> Result<Vec<List<Bytes>>, Memory>
    ensures count { IfOk result (λ files. length files.items ≡ length (seen D.told world.now).system.files) }
    ensures records { IfOk result (λ files. (f : _) → f < length (seen D.told world.now).system.files
        → records_in files.items f
        ≡ committed_files (sys_of (seen D.told world.now)) (state_of (seen D.told world.now)) f) }
{
    world.holds();
    run_laws();
    committed_laws();
    let mut files = Vec::new(alloc);
    for file in 0..world.system().files.len() as u32 {
        files.push(List::from_vec(world.records(alloc, file)?))?;
    }
    Ok(files)
}

/// The report of a world's log (docs/reference/DECK.md): its serial order, the screens of each terminal and the
/// records of each file, which are those of the one-copy machine on that order, and the log.
pub fn report<D: Disc>(alloc: Global, world: &World<D>) -> Result<Bytes, Memory>
    ensures { IfOk result (λ text. text ≡ report_text (seen D.told world.now).system
        (sys_of (seen D.told world.now)) (seen D.told world.now).log) }
{
    world.holds();
    naming_laws();
    printed_is_the_report();
    let order = blocks(alloc, world)?;
    let files = files(alloc, world)?;
    let parts = ReportParts {
        order: order.as_slice(),
        refreshes: world.screens(),
        files: files.as_slice(),
        log: world.log(),
        finished: world.finished(),
    };
    listing::report(alloc, world.system(), parts)
}

/// The FILES part of that report.
pub fn files_part<D: Disc>(alloc: Global, world: &World<D>) -> Result<Bytes, Memory>
    ensures { IfOk result (λ text. text ≡ files_text (seen D.told world.now).system
        (sys_of (seen D.told world.now)) (seen D.told world.now).log) }
{
    world.holds();
    printed_is_the_report();
    let files = files(alloc, world)?;
    listing::files_part(alloc, world.system(), files.as_slice())
}
