//! The reader of statements. It does not recur: the constructs that wait for a statement are in a
//! list.

ghost use Rattle.std.specs.Prelude.{◌∷◌, ◌++◌, ◌≡◌, ◌+◌, ◌*◌, ◌<◌, ◌≤◌, [], length, IfOk, IfSome};
ghost use Rattle.golf_syntax_expressions.specs.Plan.{run};
ghost use Rattle.golf_syntax_expressions.specs.Front as front_spec;
ghost use Rattle.golf_syntax_expressions.specs.Front.{seen};
ghost use Rattle.golf_syntax_statements.specs.StatementReader as stmt_spec;
ghost use Rattle.golf_syntax_statements.specs.StatementReader.{OfStmt, body, block, else_plan, if_plan, for_plan};
ghost use Rattle.golf_syntax_statements.specs.StatementReader.{select_plan, keyword_plan, kind_plan};
ghost use Rattle.golf_syntax_statements.specs.Moves as moves_spec;
ghost use Rattle.golf_syntax_statements.specs.declared.pending.Pending.{Pending};
ghost use Rattle.golf_syntax_statements.specs.Moves.{owned, body_at, pending_at, weight};

use crate::clauses::{case_move, clauses_move, colon_move};
use crate::headers::{header_at, test_at};
use crate::leaves::{defer_at, go_at, return_at, simple_statement_at, variable_at};
use crate::pending::{Head, Move, OwnedMove, OwnedPending, Owner, Select};
use golf_base::{List, Memory};
use golf_lex_tokens::{Keyword, Punctuation, Token, TokenKind};
use golf_syntax_expressions::{after, after_keyword};
use golf_syntax_trees::{
    OwnedClauses, OwnedExpr, OwnedHeader, OwnedSimple, OwnedStmt, OwnedStmts, Stmt,
};
use std::alloc::Global;

// Returns whether a statement begins here that can come after `else`.
fn is_branch(tokens: &[Token]) -> bool
    ensures { result ≡ stmt_spec.is_branch tokens.now }
{
    match tokens.split_first() {
        None => false,
        Some((first, _)) => match &first.kind {
            TokenKind::Keyword(keyword) => *keyword == Keyword::If,
            TokenKind::Punctuation(punctuation) => *punctuation == Punctuation::OpenBrace,
            _ => false,
        },
    }
}

/// Reads `else` and a branch after the body of an `if`, or ends the `if` there.
pub fn else_move(
    alloc: Global,
    line: u32,
    first: Option<OwnedSimple>,
    test: OwnedExpr,
    done: OwnedStmts,
    tokens: &[Token],
) -> Result<Option<(OwnedMove, &[Token])>, Memory>
    ensures value { IfOk result (λ o. moves_spec.moved o ≡ run stmt_spec.stmt_at (else_plan line (first, test) done tokens.now (front_spec.after_keyword Keyword.Else tokens.now))) }
    ensures less { IfOk result (λ o. IfSome o (λ x. weight x.0 + 8 * length x.1.now ≤ 8 * length tokens.now)) }
{
    let Some(behind) = after_keyword(tokens, Keyword::Else) else {
        return Ok(Some((
            OwnedMove::found(
                alloc,
                OwnedStmt::new(alloc, Stmt::If(line, first, test, done.into_inner()))?,
            )?,
            tokens,
        )))
    };
    if !is_branch(behind) {
        return Ok(None);
    }
    let pending = OwnedPending::otherwise(alloc, line, first, test, done)?;
    Ok(Some((OwnedMove::wait(alloc, pending)?, behind)))
}

// Goes on after the opening brace of statements.
#[tactic(auto, using(crate::proofs::Moves::body_steps), unfolding(crate::specs::Moves::closed_at))]
fn opened_move(
    alloc: Global,
    owner: Owner,
    tokens: &[Token],
) -> Result<Option<(OwnedMove, &[Token])>, Memory>
    ensures value { IfOk result (λ o. moves_spec.moved o ≡ run stmt_spec.stmt_at (body tokens.now (front_spec.after Punctuation.CloseBrace tokens.now) (owned owner))) }
    ensures less { IfOk result (λ o. IfSome o (λ x. weight x.0 + 8 * length x.1.now ≤ 8 * length tokens.now + 4)) }
{
    match after(tokens, Punctuation::CloseBrace) {
        None => {
            let pending = OwnedPending::body(alloc, owner, OwnedStmts::empty(alloc))?;
            Ok(Some((OwnedMove::wait(alloc, pending)?, tokens)))
        }
        Some(rest) => owner.closed(alloc, OwnedStmts::empty(alloc), rest),
    }
}

// Reads statements in braces.
fn block_move(
    alloc: Global,
    owner: Owner,
    tokens: &[Token],
) -> Result<Option<(OwnedMove, &[Token])>, Memory>
    ensures value { IfOk result (λ o. moves_spec.moved o ≡ run stmt_spec.stmt_at (block tokens.now (owned owner))) }
    ensures less { IfOk result (λ o. IfSome o (λ x. weight x.0 + 8 * length x.1.now < 8 * length tokens.now)) }
{
    match after(tokens, Punctuation::OpenBrace) {
        None => Ok(None),
        Some(behind) => opened_move(alloc, owner, behind),
    }
}

// Reads a semicolon and more after a statement in braces, or the closing brace.
fn body_move(
    alloc: Global,
    owner: Owner,
    done: OwnedStmts,
    tokens: &[Token],
) -> Result<Option<(OwnedMove, &[Token])>, Memory>
    ensures value { IfOk result (λ o. moves_spec.moved o ≡ body_at owner done tokens.now (front_spec.after Punctuation.Semicolon tokens.now)) }
    ensures less { IfOk result (λ o. IfSome o (λ x. weight x.0 + 8 * length x.1.now < 8 * length tokens.now)) }
{
    if let Some(next) = after(tokens, Punctuation::Semicolon) {
        let pending = OwnedPending::body(alloc, owner, done)?;
        return Ok(Some((OwnedMove::wait(alloc, pending)?, next)));
    }
    match after(tokens, Punctuation::CloseBrace) {
        None => Ok(None),
        Some(rest) => owner.closed(alloc, done, rest),
    }
}

// Returns the `if` with this first statement and this condition, as an owner.
fn if_owner(line: u32, tested: (Option<OwnedSimple>, OwnedExpr)) -> Owner
    ensures { result ≡ Owner.If line tested.0 tested.1 }
{
    let (first, test) = tested;
    Owner::If(line, first, test)
}

// Reads on after `if`.
fn if_move(
    alloc: Global,
    line: u32,
    tokens: &[Token],
) -> Result<Option<(OwnedMove, &[Token])>, Memory>
    ensures value { IfOk result (λ o. moves_spec.moved o ≡ run stmt_spec.stmt_at (if_plan line tokens.now)) }
    ensures less { IfOk result (λ o. IfSome o (λ x. weight x.0 + 8 * length x.1.now ≤ 8 * length tokens.now)) }
{
    match test_at(alloc, tokens)? {
        None => Ok(None),
        Some((tested, behind)) => block_move(alloc, if_owner(line, tested), behind),
    }
}

// Returns the `for` with this header, as an owner.
fn for_owner(line: u32, header: OwnedHeader) -> Owner
    ensures { result ≡ Owner.For line header }
{
    Owner::For(line, header)
}

// Reads on after `for`.
fn for_move(
    alloc: Global,
    line: u32,
    tokens: &[Token],
) -> Result<Option<(OwnedMove, &[Token])>, Memory>
    ensures value { IfOk result (λ o. moves_spec.moved o ≡ run stmt_spec.stmt_at (for_plan line tokens.now)) }
    ensures less { IfOk result (λ o. IfSome o (λ x. weight x.0 + 8 * length x.1.now ≤ 8 * length tokens.now)) }
{
    match header_at(alloc, tokens)? {
        None => Ok(None),
        Some((header, behind)) => block_move(alloc, for_owner(line, header), behind),
    }
}

// Reads on after `select`.
#[tactic(auto, unfolding(crate::specs::Moves::selected))]
fn select_move(
    alloc: Global,
    line: u32,
    tokens: &[Token],
) -> Result<Option<(OwnedMove, &[Token])>, Memory>
    ensures value { IfOk result (λ o. moves_spec.moved o ≡ run stmt_spec.stmt_at (select_plan line tokens.now)) }
    ensures less { IfOk result (λ o. IfSome o (λ x. weight x.0 + 8 * length x.1.now ≤ 8 * length tokens.now)) }
{
    let Some(behind) = after(tokens, Punctuation::OpenBrace) else {
        return Ok(None)
    };
    let select = Select {
        line,
        has_default: false,
        clauses: OwnedClauses::empty(alloc),
    };
    Ok(Some((OwnedMove::clauses(alloc, select)?, behind)))
}

// Reads a statement by its keyword. `line` is the line of the keyword.
fn keyword_move<'a>(
    alloc: Global,
    line: u32,
    keyword: Keyword,
    behind: &'a [Token],
    tokens: &'a [Token],
) -> Result<Option<(OwnedMove, &'a [Token])>, Memory>
    requires shorter { length behind.now < length tokens.now }
    ensures value { IfOk result (λ o. moves_spec.moved o ≡ run stmt_spec.stmt_at (keyword_plan line keyword behind.now tokens.now)) }
    ensures less { IfOk result (λ o. IfSome o (λ x. weight x.0 + 8 * length x.1.now < 8 * length tokens.now)) }
{
    match keyword {
        Keyword::Var => variable_at(alloc, line, behind),
        Keyword::Go => go_at(alloc, line, behind),
        Keyword::Defer => defer_at(alloc, line, behind),
        Keyword::Return => return_at(alloc, line, behind),
        Keyword::Break => Ok(Some((
            OwnedMove::found(alloc, OwnedStmt::new(alloc, Stmt::Break(line))?)?,
            behind,
        ))),
        Keyword::Continue => Ok(Some((
            OwnedMove::found(alloc, OwnedStmt::new(alloc, Stmt::Continue(line))?)?,
            behind,
        ))),
        Keyword::If => if_move(alloc, line, behind),
        Keyword::For => for_move(alloc, line, behind),
        Keyword::Select => select_move(alloc, line, behind),
        _ => simple_statement_at(alloc, tokens),
    }
}

// Reads a statement by the kind of its first token, which is on this line.
fn kind_move<'a>(
    alloc: Global,
    line: u32,
    kind: &TokenKind,
    behind: &'a [Token],
    tokens: &'a [Token],
) -> Result<Option<(OwnedMove, &'a [Token])>, Memory>
    requires shorter { length behind.now < length tokens.now }
    ensures value { IfOk result (λ o. moves_spec.moved o ≡ run stmt_spec.stmt_at (kind_plan line kind.now behind.now tokens.now)) }
    ensures less { IfOk result (λ o. IfSome o (λ x. weight x.0 + 8 * length x.1.now < 8 * length tokens.now)) }
{
    match kind {
        TokenKind::Keyword(keyword) => keyword_move(alloc, line, *keyword, behind, tokens),
        TokenKind::Punctuation(punctuation) => match punctuation {
            Punctuation::OpenBrace => opened_move(alloc, Owner::Block(line), behind),
            _ => simple_statement_at(alloc, tokens),
        },
        TokenKind::Name(_) | TokenKind::Integer(_) | TokenKind::Text(_) => {
            simple_statement_at(alloc, tokens)
        }
    }
}

// Reads the statement at the front, one move far.
fn stmt_move(alloc: Global, tokens: &[Token]) -> Result<Option<(OwnedMove, &[Token])>, Memory>
    ensures value { IfOk result (λ o. moves_spec.moved o ≡ stmt_spec.stmt_at OfStmt tokens.now) }
    ensures less { IfOk result (λ o. IfSome o (λ x. weight x.0 + 8 * length x.1.now < 8 * length tokens.now)) }
{
    match tokens.split_first() {
        None => Ok(None),
        Some((first, behind)) => kind_move(alloc, first.line, &first.kind, behind, tokens),
    }
}

// Returns the statement of an `if` with an `else`.
fn if_else(
    alloc: Global,
    line: u32,
    first: Option<OwnedSimple>,
    test: OwnedExpr,
    done: OwnedStmts,
    otherwise: OwnedStmt,
) -> Result<OwnedStmt, Memory>
    ensures { IfOk result (λ s. s ≡ Stmt.IfElse line first test done otherwise) }
{
    let otherwise = otherwise.boxed();
    OwnedStmt::new(
        alloc,
        Stmt::IfElse(line, first, test, done.into_inner(), otherwise),
    )
}

// Returns the statements with one added. A body of only one statement takes no room for others.
fn with_statement(alloc: Global, done: OwnedStmts, found: OwnedStmt) -> Result<OwnedStmts, Memory>
    ensures { IfOk result (λ all. all ≡ done ++ found ∷ []) }
{
    if done.get().is_empty() {
        return OwnedStmts::one(alloc, found);
    }
    let mut all = done;
    all.push(found)?;
    Ok(all)
}

/// Goes on with statements in braces, which have one more statement now.
pub fn resume_body(
    alloc: Global,
    owner: Owner,
    done: OwnedStmts,
    found: OwnedStmt,
    tokens: &[Token],
) -> Result<Option<(OwnedMove, &[Token])>, Memory>
    ensures value { IfOk result (λ o. moves_spec.moved o ≡ pending_at (Pending.Body owner done) (found, tokens.now)) }
    ensures less { IfOk result (λ o. IfSome o (λ x. weight x.0 + 8 * length x.1.now < 8 * length tokens.now)) }
{
    body_move(alloc, owner, with_statement(alloc, done, found)?, tokens)
}

/// Ends an `if`, which has the statement of its `else` now.
pub fn resume_else(
    alloc: Global,
    line: u32,
    first: Option<OwnedSimple>,
    test: OwnedExpr,
    done: OwnedStmts,
    found: OwnedStmt,
) -> Result<OwnedMove, Memory>
    ensures { IfOk result (λ m. m ≡ Move.Found (Stmt.IfElse line first test done found)) }
{
    Ok(OwnedMove::found(alloc, if_else(alloc, line, first, test, done, found)?)?)
}

/// Goes on with a clause of a `select`, which has one more statement now.
pub fn resume_clause(
    alloc: Global,
    select: Select,
    head: Head,
    done: OwnedStmts,
    found: OwnedStmt,
    tokens: &[Token],
) -> Result<Option<(OwnedMove, &[Token])>, Memory>
    ensures value { IfOk result (λ o. moves_spec.moved o ≡ pending_at (Pending.Clause select head done) (found, tokens.now)) }
    ensures less { IfOk result (λ o. IfSome o (λ x. weight x.0 + 8 * length x.1.now < 8 * length tokens.now + 3)) }
{
    case_move(
        alloc,
        select,
        head,
        with_statement(alloc, done, found)?,
        tokens,
    )
}

// Reads the whole statement at the front, with a list of the constructs that wait.
fn read(alloc: Global, tokens: &[Token]) -> Result<Option<(OwnedStmt, &[Token])>, Memory>
    ensures value { IfOk result (λ o. seen o ≡ stmt_spec.stmt_at OfStmt tokens.now) }
{
    let mut waiting: List<OwnedPending> = List::new(alloc);
    let mut now = OwnedMove::seek(alloc)?;
    let mut rest = tokens;
    'moves: loop {
        let next = match now.into_inner() {
            Move::Found(found) => match waiting.pop() {
                None => return Ok(Some((found, rest))),
                Some(pending) => pending.resume(alloc, found, rest)?,
            },
            Move::Seek => stmt_move(alloc, rest)?,
            Move::Wait(pending) => {
                waiting.push(pending)?;
                stmt_move(alloc, rest)?
            }
            Move::Clauses(select) => clauses_move(alloc, select, rest)?,
            Move::Headed(select, head) => colon_move(alloc, select, head, rest)?,
        };
        let Some((moved, behind)) = next else {
            return Ok(None)
        };
        now = moved;
        rest = behind;
    }
}

/// Reads the statement at the front. Returns it and the tokens after it.
#[tactic(auto, using(crate::proofs::Moves::shorter_steps))]
pub fn stmt_at(alloc: Global, tokens: &[Token]) -> Result<Option<(OwnedStmt, &[Token])>, Memory>
    ensures value { IfOk result (λ o. seen o ≡ stmt_spec.stmt_at OfStmt tokens.now) }
    ensures shorter { IfOk result (λ o. IfSome o (λ x. length x.1.now < length tokens.now)) }
{
    read(alloc, tokens)
}

// Returns the statements of a block, or `None` if it is no block.
fn statements_of(statement: OwnedStmt) -> Option<OwnedStmts>
    ensures { result ≡ moves_spec.statements_of statement }
{
    statement.into_inner().into_statements()
}

/// Reads the statements in braces at the front. Returns them and the tokens after the closing
/// brace.
#[tactic(auto, using(crate::proofs::Moves::braces_steps))]
pub fn block_at(alloc: Global, tokens: &[Token]) -> Result<Option<(OwnedStmts, &[Token])>, Memory>
    ensures value { IfOk result (λ o. seen o ≡ stmt_spec.block_at tokens.now) }
    ensures shorter { IfOk result (λ o. IfSome o (λ x. length x.1.now < length tokens.now)) }
{
    if after(tokens, Punctuation::OpenBrace).is_none() {
        return Ok(None);
    }
    match stmt_at(alloc, tokens)? {
        None => Ok(None),
        Some((statement, rest)) => match statements_of(statement) {
            None => Ok(None),
            Some(statements) => Ok(Some((statements, rest))),
        },
    }
}
