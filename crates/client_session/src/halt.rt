// What a session comes to.
use crate::End;

/// What a session came to that goes on no further for now.
#[derive(Clone, Copy, Debug, PartialEq, Eq)]
pub enum Halt {
    /// No act is left and no message is whole.
    Rests,
    /// It waits for the shared chain before a capture.
    Waits,
    /// Its next step ends it so.
    Ends(End),
}
