//! Who is told of each job.

use index_model::{Noted, reckon};
use worker_seats::{Telling, Told};

/// Is told of each job that a worker takes, before it begins.
pub trait Gate {
    ghost use Rattle.std.specs.Prelude.{◌≡◌, ◌++◌, ◌∷◌, []};

    /// With what a worker tells it. It notes the jobs that it was told of, `Noted<Told>` for clauses alone.
    type Hand: Telling + Send + Drop;

    /// A worker's hand, which has told of no job.
    fn hand(&self, worker: u32) -> Self::Hand
        ensures { Self.Hand.told result ≡ [] };

    /// A worker has taken a job.
    fn taken(&self, hand: &mut Self::Hand, worker: u32, job: u32)
        ensures { Self.Hand.told hand.new ≡ Self.Hand.told hand.old ++ job ∷ [] };

    /// Whether `taken` may wait for other workers. Those that are about to commit don't wait for the worker
    /// then.
    fn may_wait(&self) -> bool {
        true
    }
}

/// Does nothing.
pub struct NoGate;

impl Gate for NoGate {
    type Hand = Noted<Told>;

    fn hand(&self, _worker: u32) -> Noted<Told> {
        reckon(&())
    }

    fn taken(&self, hand: &mut Noted<Told>, _worker: u32, job: u32) {
        *hand = reckon(&(&*hand, job));
    }

    fn may_wait(&self) -> bool {
        false
    }
}
