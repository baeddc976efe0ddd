ghost use Rattle.std.specs.Prelude.{◌≡◌, ◌≤◌, false};
ghost use Rattle.pw_picture.specs.Symbols.{may_repeat};

/// A symbol of a picture, and how often it stands there: once, where it may not have a count.
#[derive(Clone, Copy, Debug)]
pub struct SymbolRun {
    pub symbol: u8,
    pub count: u32,
    ghost some: { 1 ≤ count },
    ghost single: { may_repeat symbol ≡ false → count ≡ 1 },
}
