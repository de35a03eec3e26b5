//! How much is left to do for a running call.

ghost use Rattle.session_calls.specs.Bounds.{CallsAreBounded};

/// Does nothing: its clause says that at each moment what is left to do for a call has a bound, while the
/// pages stay as they are.
pub fn calls_are_bounded()
    ensures { CallsAreBounded }
{}
