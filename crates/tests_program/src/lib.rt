//! Tests of the program over a folder in memory: each command, from the words of a command line to
//! files, standard output, standard error and the status. They stand in a crate of their own so that
//! the program is proved once.
#![tactic(auto)]

// A folder with a project, and a run of words over it.
#[cfg(test)]
mod folders;
#[cfg(test)]
mod sure_folders;

// What runs leave.
#[cfg(test)]
mod books;
#[cfg(test)]
mod commands;
#[cfg(test)]
mod heights;
#[cfg(test)]
mod notes;
#[cfg(test)]
mod overwrites;
#[cfg(test)]
mod pages;
#[cfg(test)]
mod refusals;
#[cfg(test)]
mod reviews;
