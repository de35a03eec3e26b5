//! What a run of jobs picks.

use crate::origin::OriginOn;
use std::marker::Brand;
use worker_seats::Run;

/// The jobs of a run. Each run picks them.
pub trait Jobs: Run {
    ghost use Rattle.std.specs.Prelude.{List, ℕ};
    ghost use Rattle.session_seats.specs.declared.job.Job.{Job};

    /// The jobs, by their numbers.
    ghost jobs: { List Job };

    /// How many workers there are.
    ghost workers: { ℕ };
}

/// Jobs on a world whose store is of this type, and what fitted it as it was handed in.
pub trait JobsOn<S>: Jobs + OriginOn<S> {}

impl Jobs for Brand {
    ghost use Rattle.std.specs.Prelude.{[]};

    ghost jobs = { [] };

    ghost workers = { 0 };
}

impl<S> JobsOn<S> for Brand {}
