//! Tests of words, schedules, texts and the generated file.
#![tactic(auto)]

#[cfg(test)]
mod files;
#[cfg(test)]
mod lines;
#[cfg(test)]
mod refusals;
#[cfg(test)]
mod schedules;
#[cfg(test)]
mod texts;
