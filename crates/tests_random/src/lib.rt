//! Runs of an index, judged: tests alone. A run makes some thousands of random events of some sessions, and a
//! judge keeps plainly what was asked and answered, and computes each word of the promises over it.
#![tactic(auto)]

#[cfg(test)]
mod crashes;
#[cfg(test)]
mod dead;
#[cfg(test)]
mod dice;
#[cfg(test)]
mod failed_calls;
#[cfg(test)]
mod failing;
#[cfg(test)]
mod few_frames;
#[cfg(test)]
mod gates;
#[cfg(test)]
mod judge;
#[cfg(test)]
mod pages;
#[cfg(test)]
mod pairs;
#[cfg(test)]
mod past;
#[cfg(test)]
mod reopening;
#[cfg(test)]
mod runs;
#[cfg(test)]
mod scripts;
#[cfg(test)]
mod stores;
#[cfg(test)]
mod tally;
#[cfg(test)]
mod tests;
#[cfg(test)]
mod waiting;
