//! Latches.

ghost use Rattle.std.specs.Prelude.{◌≡◌};

/// How a page is latched.
#[derive(Clone, Copy, Default)]
pub enum Mode {
    /// It stands beside other shared latches.
    #[default]
    Shared,
    /// It stands beside no other latch.
    Exclusive,
    /// It stands beside no other latch, and beside no other session's pin.
    Cleanup,
}

impl Mode {
    ghost use Rattle.latch_table.specs.Holdings.{excludes};

    /// Whether a latch of this mode that one session holds excludes one that another asks for.
    pub fn excludes(self, asked: Mode) -> bool
        ensures { result ≡ excludes self asked }
    {
        match self {
            Mode::Shared => !matches!(asked, Mode::Shared),
            Mode::Exclusive | Mode::Cleanup => true,
        }
    }
}

/// A latch of a page.
#[derive(Clone, Copy, Default)]
pub struct Latch {
    pub block: u32,
    pub mode: Mode,
}
