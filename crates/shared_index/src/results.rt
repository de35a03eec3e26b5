//! What calls tell.

ghost use Rattle.std.specs.Prelude.{◌≡◌};
ghost use Rattle.shared_index.specs.Results.{told_of_beginning, told_of_insert, told_of_scan, told_of_upkeep, told_of_vacuum};

use index_model::{Fault, VacuumStats};
use session_calls::Answer;
use whole_calls::Inserted;

/// What an insert tells by its last answer, and by the page by which it was blocked if it was given up.
pub fn told_of_insert(page: u32, answer: Answer) -> Result<Inserted, Fault>
    ensures { result ≡ told_of_insert page answer }
{
    match answer {
        Answer::Added { action, unfinished } => Ok(Inserted { action, unfinished }),
        Answer::Refused(fault) => Err(fault),
        Answer::Ended => Err(Fault::Blocked(page)),
        _ => Err(Fault::PageDamaged(0)),
    }
}

/// What a bulk delete or a cleanup tells by its last answer, and by the page by which it was blocked if it
/// was given up.
pub fn told_of_vacuum(page: u32, answer: Answer) -> Result<VacuumStats, Fault>
    ensures { result ≡ told_of_vacuum page answer }
{
    match answer {
        Answer::Finished(stats) => Ok(stats),
        Answer::Refused(fault) => Err(fault),
        Answer::Ended => Err(Fault::Blocked(page)),
        _ => Err(Fault::PageDamaged(0)),
    }
}

/// What a commit or a checkpoint tells by its answer.
pub fn told_of_upkeep(answer: Answer) -> Result<u64, Fault>
    ensures { result ≡ told_of_upkeep answer }
{
    match answer {
        Answer::Forced(count) => Ok(count),
        Answer::Checkpointed(count) => Ok(count),
        Answer::Refused(fault) => Err(fault),
        _ => Err(Fault::PageDamaged(0)),
    }
}

/// What a scan that was refused as it was to begin tells by its answer.
pub fn told_of_beginning(answer: Answer) -> Result<(), Fault>
    ensures { result ≡ told_of_beginning answer }
{
    match answer {
        Answer::Refused(fault) => Err(fault),
        _ => Err(Fault::PageDamaged(0)),
    }
}

/// What a scan that is over tells by its last answer: that it has given all, or a refusal.
pub fn told_of_scan(answer: Answer) -> Result<bool, Fault>
    ensures { result ≡ told_of_scan answer }
{
    match answer {
        Answer::Done => Ok(true),
        Answer::Refused(fault) => Err(fault),
        _ => Err(Fault::PageDamaged(0)),
    }
}
