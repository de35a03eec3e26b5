//! Tests over a device that are proved, and nothing else: indexes whose bytes were altered, of which so many
//! are tried that code with checks takes too long, each call of an index of one user, and a caller of it.
#![tactic(auto)]

#[cfg(test)]
mod base;
#[cfg(test)]
mod caller;
#[cfg(test)]
mod dead;
#[cfg(test)]
mod edits;
#[cfg(test)]
mod in_a_file;
#[cfg(test)]
mod in_files;
#[cfg(test)]
mod one_byte;
#[cfg(test)]
mod one_user;
#[cfg(test)]
mod plain;
#[cfg(test)]
mod plain_tree;
#[cfg(test)]
mod rows;
#[cfg(test)]
mod table;
#[cfg(test)]
mod tally;
#[cfg(test)]
mod trial;
#[cfg(test)]
mod worse;
#[cfg(test)]
mod worse_edits;
