//! Tests of the code of files, against code that was written by hand, and of how code is judged.
#![tactic(auto)]

#[cfg(test)]
mod constructs;
#[cfg(test)]
mod files;
#[cfg(test)]
mod forms;
#[cfg(test)]
mod judged;
#[cfg(test)]
mod made;
#[cfg(test)]
mod sources;
#[cfg(test)]
mod told;
