//! Tests of the runs, from memory to memory. They stand in a crate of their own so that the runs are
//! proved once.
#![tactic(auto)]

#[cfg(test)]
mod adjustments;
#[cfg(test)]
mod changed_books;
#[cfg(test)]
mod changed_certificates;
#[cfg(test)]
mod checks;
#[cfg(test)]
mod devices;
#[cfg(test)]
mod explanations;
#[cfg(test)]
mod failures;
#[cfg(test)]
mod helpers;
#[cfg(test)]
mod lists;
#[cfg(test)]
mod pages;
#[cfg(test)]
mod projects;
#[cfg(test)]
mod refusals;
#[cfg(test)]
mod reports;
#[cfg(test)]
mod review_rows;
#[cfg(test)]
mod reviews;
