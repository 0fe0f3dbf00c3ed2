//! Keywords and their spelling (Go specification, "Keywords").
//!
//! All 25 keywords of Go are known, so that none of them is read as a name.

ghost use Rattle.std.specs.Prelude.{◌≡◌};
ghost use Rattle.golf_lex_tokens.specs.Spelling.{keyword_text};
ghost use Rattle.golf_lex.specs.Words.{keyword_of};

use golf_lex_tokens::Keyword;

/// The keywords, the most frequent ones first.
pub(crate) const KEYWORDS: [Keyword; 25] = [
    Keyword::Func,
    Keyword::Return,
    Keyword::If,
    Keyword::For,
    Keyword::Var,
    Keyword::Chan,
    Keyword::Go,
    Keyword::Range,
    Keyword::Case,
    Keyword::Select,
    Keyword::Else,
    Keyword::Defer,
    Keyword::Struct,
    Keyword::Type,
    Keyword::Break,
    Keyword::Continue,
    Keyword::Default,
    Keyword::Const,
    Keyword::Import,
    Keyword::Package,
    Keyword::Fallthrough,
    Keyword::Goto,
    Keyword::Interface,
    Keyword::Map,
    Keyword::Switch,
];

fn text(keyword: Keyword) -> &'static [u8]
    ensures { result.now ≡ keyword_text keyword }
{
    match keyword {
        Keyword::Break => b"break",
        Keyword::Case => b"case",
        Keyword::Chan => b"chan",
        Keyword::Const => b"const",
        Keyword::Continue => b"continue",
        Keyword::Default => b"default",
        Keyword::Defer => b"defer",
        Keyword::Else => b"else",
        Keyword::For => b"for",
        Keyword::Func => b"func",
        Keyword::Go => b"go",
        Keyword::If => b"if",
        Keyword::Import => b"import",
        Keyword::Package => b"package",
        Keyword::Range => b"range",
        Keyword::Return => b"return",
        Keyword::Select => b"select",
        Keyword::Struct => b"struct",
        Keyword::Type => b"type",
        Keyword::Var => b"var",
        Keyword::Fallthrough => b"fallthrough",
        Keyword::Goto => b"goto",
        Keyword::Interface => b"interface",
        Keyword::Map => b"map",
        Keyword::Switch => b"switch",
    }
}

/// Returns the keyword of this spelling, or `None` if there is none.
pub(crate) fn keyword(word: &[u8]) -> Option<Keyword>
    ensures { result ≡ keyword_of word.now }
{
    KEYWORDS.iter().copied().find(|k| text(*k) == word)
}
