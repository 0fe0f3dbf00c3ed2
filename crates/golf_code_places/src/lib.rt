//! The places of the code of a file fit into 32 bits.
//!
//! Each body has at most eight instructions for each token of its file. A file has at most two tokens for each of its
//! bytes. The statements are in `specs/`, the proofs in `proofs/`.
#![tactic(auto)]

ghost use Rattle.golf_code_places.specs.Laws.{BodiesAreSmall, TokensAreFew, FilesHavePlaces};

/// States that each body of a file's code has at most eight instructions for each token of the printed file.
pub fn bodies_are_small()
    ensures { BodiesAreSmall }
{}

/// States that bytes that lex have at most two tokens for each byte.
pub fn tokens_are_few()
    ensures { TokensAreFew }
{}

/// States that the places of the code of a file of fewer than 2^27 bytes fit into 32 bits.
pub fn files_have_places()
    ensures { FilesHavePlaces }
{}
