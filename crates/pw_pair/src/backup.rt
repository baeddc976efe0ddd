ghost use Rattle.std.specs.Prelude.{◌≡◌, map, true, IfOk, IfErr};
ghost use Rattle.std.specs.List.{list_all};
ghost use Rattle.pw_pair.specs.Seats.{held_is_sound};
ghost use Rattle.pw_pair.specs.Takeover.{AreResumed, last_ended, resumed_image, resumption_at, resumption_of};

use crate::resumed::Resumed;
use pw_base::bytes::Bytes;
use pw_base::memory::Memory;
use pw_image::decode::decode;
use pw_image::fault::BytesFault;
use std::alloc::Global;
use std::marker::Model;

/// What a backup holds of a terminal.
#[derive(Debug, Drop)]
pub struct Held {
    /// The number of the terminal.
    pub terminal: u32,
    /// The number of the unit.
    pub unit: u32,
    /// The image of the path before the unit.
    pub start: Bytes,
    /// The image of the path behind it, if it came.
    pub end: Option<Bytes>,
}

/// The memory of a backup that takes over: bytes alone, each in the image format. Contracts see what is held of each
/// terminal.
#[derive(Debug, Drop)]
pub struct Backup {
    pub images: Vec<Held>,
}

impl Model for Backup {
    ghost use Rattle.std.specs.Prelude.{◌≡◌, List, true};
    ghost use Rattle.std.specs.List.{list_all};
    ghost use Rattle.pw_pair.specs.Seats.{held_is_sound};
    ghost use Rattle.pw_pair.specs.declared.backup.Held.{Held as SeenHeld};

    ghost Value = { List SeenHeld };

    ghost view = { λ backup. backup.images.items };

    ghost invariant = { λ backup. list_all held_is_sound backup.images.items ≡ true };
}

impl Backup {
    /// The terminals that go on, from their images and the numbers of TMF's last ended units alone; a terminal that
    /// `ended` does not name has ended none. For want of memory the backup comes back as it was.
    pub fn takeover(
        self,
        alloc: Global,
        ended: &[(u32, u32)],
    ) -> Result<Vec<Resumed>, (Backup, Memory)>
        ensures resumed { IfOk result (λ resumed. AreResumed self ended.now resumed.items) }
        ensures back { IfErr result (λ back. back.0 ≡ self) }
    {
        match resume_all(alloc, self.images.as_slice(), ended) {
            Ok(resumed) => Ok(resumed),
            Err(memory) => Err((self, memory)),
        }
    }
}

/// The terminals of what is held go on.
fn resume_all(alloc: Global, images: &[Held], ended: &[(u32, u32)]) -> Result<Vec<Resumed>, Memory>
    requires { list_all held_is_sound images.now ≡ true }
    ensures { IfOk result (λ resumed. AreResumed images.now ended.now resumed.items) }
{
    let mut resumed = Vec::new(alloc);
    for held in images {
        let last = last_ended(ended, held.terminal);
        resumed.push(resume(alloc, held, last)?)?;
    }
    Ok(resumed)
}

/// A terminal goes on at what is held of it, where this is TMF's last ended unit.
fn resume(alloc: Global, held: &Held, last: u32) -> Result<Resumed, Memory>
    requires { held_is_sound held.now ≡ true }
    ensures { IfOk result (λ resumed. resumption_of resumed ≡ resumption_at held.now last) }
{
    match decode(alloc, resumed_image(held, last)) {
        Ok(context) => Ok(Resumed {
            terminal: held.terminal,
            unit: held.unit,
            context,
        }),
        Err(BytesFault::Memory) => Err(Memory),
        Err(BytesFault::Bad) => unreachable!(),
    }
}

/// The image at which a terminal goes on.
fn resumed_image(held: &Held, last: u32) -> &[u8]
    ensures { result.now ≡ resumed_image held.now last }
{
    match &held.end {
        Some(end) if last == held.unit => end.as_slice(),
        _ => held.start.as_slice(),
    }
}

/// The number of TMF's last ended unit of a terminal, 0 where it is not named.
fn last_ended(ended: &[(u32, u32)], terminal: u32) -> u32
    ensures { result ≡ last_ended ended.now terminal }
{
    for (named, number) in ended {
        if *named == terminal {
            return *number;
        }
    }
    0
}
