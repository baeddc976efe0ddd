ghost use Rattle.std.specs.Prelude.{◌≤◌};
ghost use Rattle.pw_code.specs.Limits.{most_log_lines};

/// With how many workers a run goes, and how many entries its log may have.
#[derive(Clone, Copy, Debug, PartialEq, Eq)]
pub struct RunBounds {
    /// From 1 to 16.
    pub workers: u8,
    /// At most 500,000.
    pub events: u32,
    pub ghost some: { 1 ≤ workers },
    pub ghost staffed: { workers ≤ 16 },
    pub ghost room: { events ≤ most_log_lines },
}
