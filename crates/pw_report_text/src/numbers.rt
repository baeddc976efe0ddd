ghost use Rattle.std.specs.Prelude.{◌≡◌};
ghost use Rattle.pw_report_text.specs.Numbers.{number_of_refresh};

use pw_onecopy::refresh::Refresh;

/// A refresh number, phase.attempt.k.
#[derive(Clone, Copy, Debug, PartialEq, Eq, PartialOrd, Ord)]
pub struct ListedRefreshNumber {
    pub phase: u32,
    pub attempt: u32,
    pub k: u32,
}

/// The number of a refresh.
pub fn number_of(refresh: &Refresh) -> ListedRefreshNumber
    ensures { result ≡ number_of_refresh refresh.now }
{
    ListedRefreshNumber {
        phase: refresh.phase,
        attempt: refresh.attempt,
        k: refresh.k,
    }
}
