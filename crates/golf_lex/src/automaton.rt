//! The automaton that reads a file byte by byte.
//!
//! A state describes the bytes of the present lexeme so far. A byte makes the lexeme longer, or
//! begins the next lexeme, or can come in no text that lexes.

ghost use Rattle.std.specs.Prelude.{◌≡◌, Option};
ghost use Rattle.golf_lex.specs.Automaton as automaton_spec;
ghost use Rattle.golf_lex.specs.Automaton.{begun, growth};

use crate::bytes::{is_blank, is_digit, is_letter, is_ordinary, is_word_byte};
use golf_lex_tokens::Punctuation;

/// The bytes of a lexeme so far.
#[derive(Clone, Copy, Debug)]
pub(crate) enum State {
    /// A blank, or no byte yet.
    Blank,
    Word,
    /// The integer `0`.
    Zero,
    /// An integer that does not begin with 0.
    Digits,
    /// A string that lacks its closing quote.
    Quoted,
    /// The same, and the last byte begins an escape.
    Escaped,
    /// A whole string.
    Text,
    Punctuation(Punctuation),
    /// A lone `|`, which is no token.
    Bar,
    LineComment,
    /// A general comment that lacks its `*/`.
    GeneralComment,
    /// The same, and the last byte is a `*`.
    Star,
    /// A whole general comment.
    Closed,
}

/// The effect of a byte on a lexeme.
#[derive(Clone, Copy, Debug)]
pub(crate) enum Growth {
    /// The byte belongs to the lexeme.
    To(State),
    /// The lexeme ends before the byte.
    Over,
    /// No text that lexes goes on like this.
    Fault,
}

/// Returns the state after the first byte of a lexeme, or `None` if no lexeme begins with the byte.
pub(crate) fn begin(byte: u8) -> Option<State>
    ensures { result ≡ begun byte }
{
    if is_letter(byte) {
        Some(State::Word)
    } else if byte == b'0' {
        Some(State::Zero)
    } else if is_digit(byte) {
        Some(State::Digits)
    } else if is_blank(byte) {
        Some(State::Blank)
    } else if byte == b'"' {
        Some(State::Quoted)
    } else if byte == b'|' {
        Some(State::Bar)
    } else {
        begun_punctuation(byte).map(State::Punctuation)
    }
}

// Returns the punctuation mark of one byte.
fn begun_punctuation(byte: u8) -> Option<Punctuation>
    ensures { result ≡ automaton_spec.begun_punctuation byte }
{
    match byte {
        b'+' => Some(Punctuation::Plus),
        b'-' => Some(Punctuation::Minus),
        b'*' => Some(Punctuation::Star),
        b'/' => Some(Punctuation::Slash),
        b'%' => Some(Punctuation::Percent),
        b'<' => Some(Punctuation::Less),
        b'>' => Some(Punctuation::Greater),
        b'!' => Some(Punctuation::Not),
        b'&' => Some(Punctuation::Ampersand),
        b'(' => Some(Punctuation::OpenParen),
        b')' => Some(Punctuation::CloseParen),
        b'[' => Some(Punctuation::OpenBracket),
        b']' => Some(Punctuation::CloseBracket),
        b'{' => Some(Punctuation::OpenBrace),
        b'}' => Some(Punctuation::CloseBrace),
        b',' => Some(Punctuation::Comma),
        b';' => Some(Punctuation::Semicolon),
        b':' => Some(Punctuation::Colon),
        b'.' => Some(Punctuation::Dot),
        b'=' => Some(Punctuation::Assign),
        _ => None,
    }
}

/// Returns the effect of a byte on a lexeme in this state.
pub(crate) fn extend(state: State, byte: u8) -> Growth
    ensures { result ≡ growth state byte }
{
    match state {
        State::Blank | State::Text | State::Closed => Growth::Over,
        State::Word => after_word(byte),
        State::Zero => after_zero(byte),
        State::Digits => after_digits(byte),
        State::Quoted => after_quoted(byte),
        State::Escaped => after_escaped(byte),
        State::Punctuation(punctuation) => after_punctuation(punctuation, byte),
        State::Bar => after_bar(byte),
        State::LineComment => after_line_comment(byte),
        State::GeneralComment => after_general_comment(byte),
        State::Star => after_star(byte),
    }
}

fn after_word(byte: u8) -> Growth
    ensures { result ≡ growth State.Word byte }
{
    if is_word_byte(byte) {
        Growth::To(State::Word)
    } else {
        Growth::Over
    }
}

fn after_zero(byte: u8) -> Growth
    ensures { result ≡ growth State.Zero byte }
{
    if is_word_byte(byte) {
        Growth::Fault
    } else {
        Growth::Over
    }
}

fn after_digits(byte: u8) -> Growth
    ensures { result ≡ growth State.Digits byte }
{
    if is_digit(byte) {
        Growth::To(State::Digits)
    } else if is_letter(byte) {
        Growth::Fault
    } else {
        Growth::Over
    }
}

fn after_quoted(byte: u8) -> Growth
    ensures { result ≡ growth State.Quoted byte }
{
    if byte == b'"' {
        Growth::To(State::Text)
    } else if byte == b'\\' {
        Growth::To(State::Escaped)
    } else if is_ordinary(byte) {
        Growth::To(State::Quoted)
    } else {
        Growth::Fault
    }
}

fn is_escape(byte: u8) -> bool
    ensures { result ≡ automaton_spec.is_escape byte }
{
    byte == b'n' || byte == b't' || byte == b'\\' || byte == b'"'
}

fn after_escaped(byte: u8) -> Growth
    ensures { result ≡ growth State.Escaped byte }
{
    if is_escape(byte) {
        Growth::To(State::Quoted)
    } else {
        Growth::Fault
    }
}

fn after_bar(byte: u8) -> Growth
    ensures { result ≡ growth State.Bar byte }
{
    if byte == b'|' {
        Growth::To(State::Punctuation(Punctuation::Or))
    } else {
        Growth::Fault
    }
}

fn after_line_comment(byte: u8) -> Growth
    ensures { result ≡ growth State.LineComment byte }
{
    if byte == 0 {
        Growth::Fault
    } else if byte == b'\n' {
        Growth::Over
    } else {
        Growth::To(State::LineComment)
    }
}

fn after_general_comment(byte: u8) -> Growth
    ensures { result ≡ growth State.GeneralComment byte }
{
    if byte == 0 {
        Growth::Fault
    } else if byte == b'*' {
        Growth::To(State::Star)
    } else {
        Growth::To(State::GeneralComment)
    }
}

fn after_star(byte: u8) -> Growth
    ensures { result ≡ growth State.Star byte }
{
    if byte == b'/' {
        Growth::To(State::Closed)
    } else {
        after_general_comment(byte)
    }
}

// Returns the effect of a byte on a punctuation mark. The longest punctuation mark is read.
fn after_punctuation(punctuation: Punctuation, byte: u8) -> Growth
    ensures { result ≡ automaton_spec.after_punctuation punctuation byte }
{
    match punctuation {
        Punctuation::Plus => after_doubling(
            byte,
            b'+',
            Punctuation::Increment,
            Punctuation::PlusAssign,
        ),
        Punctuation::Minus => after_doubling(
            byte,
            b'-',
            Punctuation::Decrement,
            Punctuation::MinusAssign,
        ),
        Punctuation::Less => after_doubling(byte, b'-', Punctuation::Arrow, Punctuation::AtMost),
        Punctuation::Slash => after_slash(byte),
        Punctuation::Ampersand => after_ampersand(byte),
        Punctuation::Star => with_equals(Punctuation::StarAssign, byte),
        Punctuation::Percent => with_equals(Punctuation::PercentAssign, byte),
        Punctuation::Assign => with_equals(Punctuation::Equal, byte),
        Punctuation::Not => with_equals(Punctuation::NotEqual, byte),
        Punctuation::Greater => with_equals(Punctuation::AtLeast, byte),
        Punctuation::Colon => with_equals(Punctuation::Define, byte),
        _ => Growth::Over,
    }
}

fn with_equals(punctuation: Punctuation, byte: u8) -> Growth
    ensures { result ≡ automaton_spec.with_equals punctuation byte }
{
    if byte == b'=' {
        Growth::To(State::Punctuation(punctuation))
    } else {
        Growth::Over
    }
}

// Returns the effect of a byte on a punctuation mark that a second byte or `=` makes longer.
fn after_doubling(byte: u8, second: u8, doubled: Punctuation, assigning: Punctuation) -> Growth
    ensures { result ≡ automaton_spec.after_doubling byte second doubled assigning }
{
    if byte == second {
        Growth::To(State::Punctuation(doubled))
    } else {
        with_equals(assigning, byte)
    }
}

fn after_slash(byte: u8) -> Growth
    ensures { result ≡ automaton_spec.after_punctuation Punctuation.Slash byte }
{
    if byte == b'/' {
        Growth::To(State::LineComment)
    } else if byte == b'*' {
        Growth::To(State::GeneralComment)
    } else {
        with_equals(Punctuation::SlashAssign, byte)
    }
}

fn after_ampersand(byte: u8) -> Growth
    ensures { result ≡ automaton_spec.after_punctuation Punctuation.Ampersand byte }
{
    if byte == b'&' {
        Growth::To(State::Punctuation(Punctuation::And))
    } else {
        Growth::Over
    }
}

/// Returns whether the bytes so far can be a whole lexeme.
pub(crate) fn is_complete(state: State) -> bool
    ensures { result ≡ automaton_spec.is_complete state }
{
    match state {
        State::Quoted | State::Escaped | State::Bar | State::GeneralComment | State::Star => false,
        State::Blank | State::Word | State::Zero | State::Digits | State::Text => true,
        State::Punctuation(_) | State::LineComment | State::Closed => true,
    }
}
