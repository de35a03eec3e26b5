//! Tokens of open scans, and who has a session.

/// An open scan. Each number is given once by an index.
#[derive(Clone, Copy, Debug, PartialEq, Eq)]
pub struct ScanToken {
    pub number: u64,
    pub session: u32,
}

/// What a session's open scan is known by.
#[derive(Clone, Copy)]
pub(crate) struct OpenScan {
    /// The number of its token.
    pub(crate) number: u64,
    /// A fault has ended its call.
    pub(crate) is_refused: bool,
}

/// Who has a session.
#[derive(Clone, Copy)]
pub(crate) enum Sitter {
    /// An open scan.
    Scan(OpenScan),
    /// The bulk delete or cleanup that goes on in parts.
    Vacuum,
}
