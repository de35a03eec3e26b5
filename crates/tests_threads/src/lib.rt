//! Tests of runs of jobs by threads, and nothing else.
#![tactic(auto)]

#[cfg(test)]
mod blocked;
#[cfg(test)]
mod commits;
#[cfg(test)]
mod failed_calls;
#[cfg(test)]
mod hands;
#[cfg(test)]
mod indexes;
#[cfg(test)]
mod judge;
#[cfg(test)]
mod judged;
#[cfg(test)]
mod lists;
#[cfg(test)]
mod plain;
#[cfg(test)]
mod runs;
#[cfg(test)]
mod serving;
#[cfg(test)]
mod session;
#[cfg(test)]
mod shared;
#[cfg(test)]
mod shared_failing;
#[cfg(test)]
mod shared_mixed;
#[cfg(test)]
mod shared_rows;
#[cfg(test)]
mod shared_waits;
#[cfg(test)]
mod stages;
