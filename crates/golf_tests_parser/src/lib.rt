//! Tests of the parser: tokens, segments, trees and faults, from types and expressions up to whole files.
#![tactic(auto)]

#[cfg(test)]
mod constructs;
#[cfg(test)]
mod expressions;
#[cfg(test)]
mod files;
#[cfg(test)]
mod lexed_tokens;
#[cfg(test)]
mod segments;
#[cfg(test)]
mod statements;
#[cfg(test)]
mod words;
