// Statements and suites.
ghost use Rattle.std.specs.Prelude.{◌≡◌, ◌≤◌, ◌<◌, IfOk, OnOk, Err, None, Some, true, false, [], map, length};
ghost use Rattle.tx_tree.specs.Words.{augment_mark};
ghost use Rattle.tx_tree.specs.Tree.{tree_of, statement_of, body_of, arm_of, otherwise_of};
ghost use Rattle.tx_tree.specs.Depth.{depth};
ghost use Rattle.tx_parse.specs.Lexemes.{line_at};
ghost use Rattle.tx_parse.specs.Calls.Front.{rest_of, at, assigns_at};
ghost use Rattle.tx_parse.specs.Calls.Reader.{read, when};
ghost use Rattle.tx_parse.specs.Calls.Statements.{listed_behind, value, word_starter, starter_of, ended, unmarked, returned, simple, simple_at, indented_lines, suite, arm, arms, other_suite, branching, repeating, statement};

use crate::cursor::{Assigns, Cursor};
use crate::expr::{Listed, expr, items_behind};
use crate::fault::Fault;
use crate::place::Place;
use crate::symbol::Symbol;
use crate::target::{name, target};
use sqlite_items::Boxed;
use std::alloc::Global;
use tx_tree::{Arm, Arms, BinaryOp, Expr, Keyword, Mark, Maybe, Otherwise, Stmt, Stmts, Suite};

/// What a statement begins with.
#[derive(Clone, Copy, Debug, PartialEq, Eq)]
pub(crate) enum Starter {
    Pass,
    Break,
    Continue,
    Return,
    If,
    For,
    Unmarked,
}

fn starter_of(symbol: Symbol) -> Starter
    ensures { result ≡ starter_of symbol }
{
    match symbol {
        Symbol::Keyword(keyword) => word_starter(keyword),
        _ => Starter::Unmarked,
    }
}

fn word_starter(keyword: Keyword) -> Starter
    ensures { result ≡ word_starter keyword }
{
    match keyword {
        Keyword::Pass => Starter::Pass,
        Keyword::Break => Starter::Break,
        Keyword::Continue => Starter::Continue,
        Keyword::Return => Starter::Return,
        Keyword::If => Starter::If,
        Keyword::For => Starter::For,
        _ => Starter::Unmarked,
    }
}

// ---- the value of an assignment or of a `return`: a test, or a tuple without brackets

// A value of at most `left` levels.
#[tactic(auto, using(crate::proofs::StatementTurns::statement_turns))]
fn value(alloc: Global, left: u32, cursor: &mut Cursor) -> Result<Expr, Fault>
    requires { left ≤ 64 }
    ensures ok { IfOk result (λ e. value left cursor.old ≡ Some (tree_of e, cursor.new)) }
    ensures none { result ≡ Err Fault.NotABlock → value left cursor.old ≡ None }
{
    let line = cursor.line();
    let (first, deep) = expr(alloc, left, Place::Test, cursor)?;
    if !cursor.at(Symbol::Mark(Mark::Comma)) {
        return Ok(first);
    }
    if deep >= left {
        return Err(Fault::NotABlock);
    }
    listed_behind(alloc, left - 1, line, first, deep, cursor)
}

// A tuple without brackets, behind its first item.
fn listed_behind(
    alloc: Global,
    left: u32,
    line: u32,
    first: Expr,
    deep: u32,
    cursor: &mut Cursor,
) -> Result<Expr, Fault>
    requires bound { left < 64 }
    requires known { depth (tree_of first) ≡ deep }
    requires room { deep ≤ left }
    ensures ok { IfOk result (λ e. listed_behind left line (tree_of first) cursor.old ≡ Some (tree_of e, cursor.new)) }
    ensures none { result ≡ Err Fault.NotABlock → listed_behind left line (tree_of first) cursor.old ≡ None }
{
    let listed = items_behind(alloc, left, Symbol::Newline, first, deep, cursor)?;
    let Listed { items, comma, .. } = listed;
    Ok(Expr::BareTuple { line, items, comma })
}

// ---- simple statements, of at most one level more than `left`

fn end_line(cursor: &mut Cursor) -> Result<(), Fault>
    ensures ok { OnOk result (at Symbol.Newline cursor.old ≡ true) }
    ensures past { OnOk result (cursor.new ≡ rest_of cursor.old) }
    ensures none { result ≡ Err Fault.NotABlock → at Symbol.Newline cursor.old ≡ false }
{
    cursor.expect(Symbol::Newline)
}

fn assignment(alloc: Global, left: u32, cursor: &mut Cursor) -> Result<Stmt, Fault>
    requires { left ≤ 64 }
    ensures ok { IfOk result (λ s. unmarked left Assigns.Plain cursor.old ≡ Some (statement_of s, cursor.new)) }
    ensures none { result ≡ Err Fault.NotABlock → unmarked left Assigns.Plain cursor.old ≡ None }
{
    let line = cursor.line();
    let target = target(alloc, Symbol::Mark(Mark::Assign), cursor)?;
    cursor.expect(Symbol::Mark(Mark::Assign))?;
    let value = value(alloc, left, cursor)?;
    end_line(cursor)?;
    Ok(Stmt::Assign {
        line,
        target,
        value,
    })
}

fn augment_mark(op: BinaryOp) -> Mark
    ensures { result ≡ augment_mark op }
{
    match op {
        BinaryOp::Add => Mark::PlusAssign,
        BinaryOp::Sub => Mark::MinusAssign,
        BinaryOp::Mul => Mark::StarAssign,
        BinaryOp::FloorDiv => Mark::DoubleSlashAssign,
        BinaryOp::Mod => Mark::PercentAssign,
    }
}

fn augmented(alloc: Global, left: u32, op: BinaryOp, cursor: &mut Cursor) -> Result<Stmt, Fault>
    requires { left ≤ 64 }
    ensures ok { IfOk result (λ s. unmarked left (Assigns.With op) cursor.old ≡ Some (statement_of s, cursor.new)) }
    ensures none { result ≡ Err Fault.NotABlock → unmarked left (Assigns.With op) cursor.old ≡ None }
{
    let line = cursor.line();
    let name = name(alloc, cursor)?;
    cursor.expect(Symbol::Mark(augment_mark(op)))?;
    let (value, _) = expr(alloc, left, Place::Test, cursor)?;
    end_line(cursor)?;
    Ok(Stmt::Augment {
        line,
        name,
        op,
        value,
    })
}

fn expressed(alloc: Global, left: u32, cursor: &mut Cursor) -> Result<Stmt, Fault>
    requires { left ≤ 64 }
    ensures ok { IfOk result (λ s. unmarked left Assigns.Nothing cursor.old ≡ Some (statement_of s, cursor.new)) }
    ensures none { result ≡ Err Fault.NotABlock → unmarked left Assigns.Nothing cursor.old ≡ None }
{
    let line = cursor.line();
    let (value, _) = expr(alloc, left, Place::Test, cursor)?;
    end_line(cursor)?;
    Ok(Stmt::Express { line, value })
}

// A statement without a keyword.
fn unmarked(alloc: Global, left: u32, cursor: &mut Cursor) -> Result<Stmt, Fault>
    requires { left ≤ 64 }
    ensures ok { IfOk result (λ s. unmarked left (assigns_at cursor.old) cursor.old ≡ Some (statement_of s, cursor.new)) }
    ensures none { result ≡ Err Fault.NotABlock → unmarked left (assigns_at cursor.old) cursor.old ≡ None }
{
    match cursor.assigns() {
        Assigns::Plain => assignment(alloc, left, cursor),
        Assigns::With(op) => augmented(alloc, left, op, cursor),
        Assigns::Nothing => expressed(alloc, left, cursor),
    }
}

// A `return` behind its word.
fn returned(alloc: Global, left: u32, line: u32, cursor: &mut Cursor) -> Result<Stmt, Fault>
    requires { left ≤ 64 }
    ensures ok { IfOk result (λ s. returned left line cursor.old ≡ Some (statement_of s, cursor.new)) }
    ensures none { result ≡ Err Fault.NotABlock → returned left line cursor.old ≡ None }
{
    if cursor.at(Symbol::Newline) {
        cursor.advance();
        let value = Maybe::Absent;
        return Ok(Stmt::Return { line, value });
    }
    let value = value(alloc, left, cursor)?;
    end_line(cursor)?;
    Ok(Stmt::Return {
        line,
        value: Maybe::Present(Boxed::new(alloc, value)?),
    })
}

fn jump(looped: bool, made: Stmt, cursor: &mut Cursor) -> Result<Stmt, Fault>
    ensures ok { IfOk result (λ s. when looped (ended (statement_of made) (rest_of cursor.old)) ≡ Some (statement_of s, cursor.new)) }
    ensures none { result ≡ Err Fault.NotABlock → when looped (ended (statement_of made) (rest_of cursor.old)) ≡ None }
{
    if !looped {
        return Err(Fault::NotABlock);
    }
    cursor.advance();
    end_line(cursor)?;
    Ok(made)
}

fn simple(alloc: Global, left: u32, looped: bool, cursor: &mut Cursor) -> Result<Stmt, Fault>
    requires { left ≤ 64 }
    ensures ok { IfOk result (λ s. simple left looped cursor.old ≡ Some (statement_of s, cursor.new)) }
    ensures none { result ≡ Err Fault.NotABlock → simple left looped cursor.old ≡ None }
{
    let line = cursor.line();
    match starter_of(cursor.symbol()) {
        Starter::Pass => jump(true, Stmt::Pass { line }, cursor),
        Starter::Break => jump(looped, Stmt::Break { line }, cursor),
        Starter::Continue => jump(looped, Stmt::Continue { line }, cursor),
        Starter::Return => {
            cursor.advance();
            returned(alloc, left, line, cursor)
        }
        _ => unmarked(alloc, left, cursor),
    }
}

// A simple statement of at most `left` levels.
#[tactic(auto, using(crate::proofs::StatementTurns::statement_turns))]
fn simple_at(alloc: Global, left: u32, looped: bool, cursor: &mut Cursor) -> Result<Stmt, Fault>
    requires { left ≤ 64 }
    ensures ok { IfOk result (λ s. simple_at left looped cursor.old ≡ Some (statement_of s, cursor.new)) }
    ensures none { result ≡ Err Fault.NotABlock → simple_at left looped cursor.old ≡ None }
{
    if left == 0 {
        return Err(Fault::NotABlock);
    }
    simple(alloc, left - 1, looped, cursor)
}

// ---- statements of at most `left` levels, in a `for` or outside

#[tactic(auto, using(crate::proofs::StatementTurns::statement_turns))]
#[cycle(stmt)]
fn stmt(alloc: Global, left: u32, looped: bool, cursor: &mut Cursor) -> Result<Stmt, Fault>
    requires { left ≤ 64 }
    ensures ok { IfOk result (λ s. statement left looped cursor.old ≡ Some (statement_of s, cursor.new)) }
    ensures none { result ≡ Err Fault.NotABlock → statement left looped cursor.old ≡ None }
{
    if left == 0 {
        return Err(Fault::NotABlock);
    }
    match starter_of(cursor.symbol()) {
        Starter::If => branch(alloc, left - 1, looped, cursor),
        Starter::For => repeat(alloc, left - 1, cursor),
        _ => simple(alloc, left - 1, looped, cursor),
    }
}

#[tactic(auto, using(crate::proofs::StatementTurns::statement_turns))]
#[cycle(stmt)]
fn branch(alloc: Global, left: u32, looped: bool, cursor: &mut Cursor) -> Result<Stmt, Fault>
    requires { left ≤ 64 }
    ensures ok { IfOk result (λ s. branching (read left Place.Test) (suite left (statement left) looped) (line_at cursor.old) (rest_of cursor.old) ≡ Some (statement_of s, cursor.new)) }
    ensures none { result ≡ Err Fault.NotABlock → branching (read left Place.Test) (suite left (statement left) looped) (line_at cursor.old) (rest_of cursor.old) ≡ None }
{
    let line = cursor.line();
    cursor.advance();
    let Arm { test, suite } = arm(alloc, left, looped, cursor)?;
    let (arms, otherwise) = arms(alloc, left, looped, cursor)?;
    Ok(Stmt::If {
        line,
        test,
        suite,
        arms,
        otherwise,
    })
}

#[tactic(auto, using(crate::proofs::StatementTurns::statement_turns))]
#[cycle(stmt)]
fn repeat(alloc: Global, left: u32, cursor: &mut Cursor) -> Result<Stmt, Fault>
    requires { left ≤ 64 }
    ensures ok { IfOk result (λ s. repeating (read left Place.Test) (suite left (statement left) true) (line_at cursor.old) (rest_of cursor.old) ≡ Some (statement_of s, cursor.new)) }
    ensures none { result ≡ Err Fault.NotABlock → repeating (read left Place.Test) (suite left (statement left) true) (line_at cursor.old) (rest_of cursor.old) ≡ None }
{
    let line = cursor.line();
    cursor.advance();
    let target = target(alloc, Symbol::Keyword(Keyword::In), cursor)?;
    cursor.expect(Symbol::Keyword(Keyword::In))?;
    let Arm { test, suite } = arm(alloc, left, true, cursor)?;
    Ok(Stmt::For {
        line,
        target,
        iterable: test,
        suite,
    })
}

// An expression, a colon and a suite.
#[tactic(auto, using(crate::proofs::StatementTurns::statement_turns))]
#[cycle(stmt)]
fn arm(alloc: Global, left: u32, looped: bool, cursor: &mut Cursor) -> Result<Arm, Fault>
    requires { left ≤ 64 }
    ensures ok { IfOk result (λ a. arm (read left Place.Test) (suite left (statement left) looped) cursor.old ≡ Some (arm_of a, cursor.new)) }
    ensures none { result ≡ Err Fault.NotABlock → arm (read left Place.Test) (suite left (statement left) looped) cursor.old ≡ None }
{
    let (test, _) = expr(alloc, left, Place::Test, cursor)?;
    cursor.expect(Symbol::Mark(Mark::Colon))?;
    let suite = suite(alloc, left, looped, cursor)?;
    Ok(Arm { test, suite })
}

// The arms behind the first one.
#[tactic(auto, using(crate::proofs::StatementTurns::statement_turns))]
#[cycle(stmt)]
fn arms(
    alloc: Global,
    left: u32,
    looped: bool,
    cursor: &mut Cursor,
) -> Result<(Arms, Otherwise), Fault>
    requires { left ≤ 64 }
    ensures ok { IfOk result (λ a. arms (read left Place.Test) (suite left (statement left) looped) (length cursor.old) [] cursor.old ≡ Some ((map arm_of a.0, otherwise_of a.1), cursor.new)) }
    ensures none { result ≡ Err Fault.NotABlock → arms (read left Place.Test) (suite left (statement left) looped) (length cursor.old) [] cursor.old ≡ None }
{
    let mut done = Arms::new(alloc);
    let most = cursor.left();
    for _turn in 0..most {
        if !cursor.at(Symbol::Keyword(Keyword::Elif)) {
            let other = otherwise(alloc, left, looped, cursor)?;
            return Ok((done, other));
        }
        cursor.advance();
        done.push(arm(alloc, left, looped, cursor)?)?;
    }
    Ok((done, Otherwise::Absent))
}

#[tactic(auto, using(crate::proofs::StatementTurns::statement_turns))]
#[cycle(stmt)]
fn otherwise(
    alloc: Global,
    left: u32,
    looped: bool,
    cursor: &mut Cursor,
) -> Result<Otherwise, Fault>
    requires { left ≤ 64 }
    ensures ok { IfOk result (λ o. other_suite (read left Place.Test) (suite left (statement left) looped) (at (Symbol.Keyword Keyword.Else) cursor.old) cursor.old ≡ Some (otherwise_of o, cursor.new)) }
    ensures none { result ≡ Err Fault.NotABlock → other_suite (read left Place.Test) (suite left (statement left) looped) (at (Symbol.Keyword Keyword.Else) cursor.old) cursor.old ≡ None }
{
    if !cursor.at(Symbol::Keyword(Keyword::Else)) {
        return Ok(Otherwise::Absent);
    }
    cursor.advance();
    cursor.expect(Symbol::Mark(Mark::Colon))?;
    Ok(Otherwise::Present(suite(alloc, left, looped, cursor)?))
}

/// What a colon leads to.
#[tactic(auto, using(crate::proofs::StatementTurns::statement_turns))]
#[cycle(stmt)]
pub(crate) fn suite(
    alloc: Global,
    left: u32,
    looped: bool,
    cursor: &mut Cursor,
) -> Result<Suite, Fault>
    requires { left ≤ 64 }
    ensures ok { IfOk result (λ b. suite left (statement left) looped cursor.old ≡ Some (body_of b, cursor.new)) }
    ensures none { result ≡ Err Fault.NotABlock → suite left (statement left) looped cursor.old ≡ None }
{
    if cursor.at(Symbol::Newline) {
        cursor.advance();
        let lines = indented_lines(alloc, left, looped, cursor)?;
        return Ok(Suite::Indented(lines));
    }
    let only = simple_at(alloc, left, looped, cursor)?;
    Ok(Suite::Line(Boxed::new(alloc, only)?))
}

#[tactic(auto, using(crate::proofs::StatementTurns::statement_turns))]
#[cycle(stmt)]
fn indented_lines(
    alloc: Global,
    left: u32,
    looped: bool,
    cursor: &mut Cursor,
) -> Result<Stmts, Fault>
    requires { left ≤ 64 }
    ensures ok { IfOk result (λ ss. indented_lines (statement left looped) cursor.old ≡ Some (map statement_of ss, cursor.new)) }
    ensures none { result ≡ Err Fault.NotABlock → indented_lines (statement left looped) cursor.old ≡ None }
{
    cursor.expect(Symbol::Indent)?;
    let first = stmt(alloc, left, looped, cursor)?;
    let mut done = Stmts::new(alloc);
    done.push(first)?;
    let most = cursor.left();
    for _turn in 0..most {
        if cursor.at(Symbol::Dedent) {
            cursor.advance();
            return Ok(done);
        }
        done.push(stmt(alloc, left, looped, cursor)?)?;
    }
    Err(Fault::NotABlock)
}
