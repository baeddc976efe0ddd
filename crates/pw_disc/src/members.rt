ghost use Rattle.std.specs.Prelude.{◌≡◌, IfSome};
ghost use Rattle.pw_tmf.specs.Tmf.{told_of};
ghost use Rattle.pw_disc.specs.Pair.{AreEqual};

use crate::backup::DiscBackup;
use crate::script::DiscLine;
use pw_tmf::tmf::Tmf;

/// The primary fails, and its backup, if there is one, takes over.
pub fn take_over(primary: &mut Tmf, backup: Option<DiscBackup>)
    requires { AreEqual primary.old backup }
    ensures told { told_of primary.new ≡ told_of primary.old }
    ensures taken { IfSome backup (λ own. primary.new ≡ own) }
{
    if let Some(backup) = backup {
        *primary = backup.takeover();
    }
}

/// The member fails that a line speaks of.
pub fn fail_member(primary: &mut Tmf, backup: Option<DiscBackup>, line: DiscLine)
    requires { AreEqual primary.old backup }
    ensures { told_of primary.new ≡ told_of primary.old }
{
    match line {
        DiscLine::Primary(_) | DiscLine::Held(_) => take_over(primary, backup),
        DiscLine::Backup(_) => (),
    }
}
