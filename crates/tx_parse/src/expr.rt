// Expressions, each with its depth. What is read is at most so many levels deep: a part that was read before its node was
// known is tested before reading on, so no deeper tree is ever made.
ghost use Rattle.std.specs.Prelude.{◌≡◌, ◌≢◌, ◌≤◌, ◌<◌, ◌+◌, ◌++◌, ◌∷◌, max, length, IfOk, OnOk, Err, None, Some, true, false, [], map};
ghost use Rattle.tx_tree.specs.Tree.{text, binary, tree_of, trees, maybe_of, pair_of, pair_trees, operand_of, operands};
ghost use Rattle.tx_tree.specs.Depth.{depth, depth_each, depth_pairs, depth_operands, depth_maybe};
ghost use Rattle.tx_parse.specs.Lexemes.{line_at};
ghost use Rattle.tx_tree.specs.Form.{is_name, is_nil};
ghost use Rattle.tx_parse.specs.Calls.Front.{symbol_at, rest_of, binary_at, unary_at, at, text_at, number_at};
ghost use Rattle.tx_parse.specs.Calls.Reader.{read, at_place, tighter, joint, is_joint, has_operator, joined_tree, compared_tree, op_of, op_at, literal, number, given, give, bracketed, may_compare, trails, args, items, items_behind, name_by, condition, comprehended, square, pair, brace, bracket_by, atom, post, method_of, index_of, bound, subscript, postfix, signed, leaning, joining, and_read, a_test, a_comparison, a_negation};

use crate::cursor::Cursor;
use crate::fault::Fault;
use crate::place::Place;
use crate::symbol::Symbol;
use crate::target::{target, word};
use sqlite_items::Boxed;
use std::alloc::Global;
use tx_text::{PyText, Sequence};
use tx_tree::{
    BinaryOp, CompareOp, Expr, Exprs, Keyword, Mark, Maybe, Operand, Operands, Pair, Pairs, Target,
    UnaryOp,
};

/// Expressions with commas between them.
#[derive(Drop)]
pub(crate) struct Listed {
    pub(crate) items: Exprs,
    /// Whether a comma stands behind the last.
    pub(crate) comma: bool,
    /// How deep the deepest is.
    pub(crate) deep: u32,
}

/// An expression of at most `left` levels at a place, and its depth.
#[tactic(auto, using(crate::proofs::Turns::turns, crate::proofs::Ranks::ranks))]
#[cycle(expr)]
pub(crate) fn expr(
    alloc: Global,
    left: u32,
    place: Place,
    cursor: &mut Cursor,
) -> Result<(Expr, u32), Fault>
    requires { left ≤ 64 }
    ensures ok { IfOk result (λ e. read left place cursor.old ≡ Some (tree_of e.0, cursor.new)) }
    ensures deep { IfOk result (λ e. depth (tree_of e.0) ≡ e.1) }
    ensures low { IfOk result (λ e. e.1 ≤ left) }
    ensures none { result ≡ Err Fault.NotABlock → read left place cursor.old ≡ None }
{
    if left == 0 {
        return Err(Fault::NotABlock);
    }
    at_place(alloc, left - 1, place, cursor)
}

// An expression of at most one level more than `left` at a place.
#[tactic(auto, using(crate::proofs::Turns::turns, crate::proofs::Ranks::ranks))]
#[cycle(expr)]
fn at_place(
    alloc: Global,
    left: u32,
    place: Place,
    cursor: &mut Cursor,
) -> Result<(Expr, u32), Fault>
    requires { left < 64 }
    ensures ok { IfOk result (λ e. at_place left (read left) place cursor.old ≡ Some (tree_of e.0, cursor.new)) }
    ensures deep { IfOk result (λ e. depth (tree_of e.0) ≡ e.1) }
    ensures low { IfOk result (λ e. e.1 ≤ left + 1) }
    ensures none { result ≡ Err Fault.NotABlock → at_place left (read left) place cursor.old ≡ None }
{
    match place {
        Place::Test => choosing(alloc, left, cursor),
        Place::Or => joining(alloc, left, Place::Or, cursor),
        Place::And => joining(alloc, left, Place::And, cursor),
        Place::Not => negating(alloc, left, cursor),
        Place::Compare => comparing(alloc, left, cursor),
        Place::Sum => leaning(alloc, left, Place::Sum, cursor),
        Place::Term => leaning(alloc, left, Place::Term, cursor),
        Place::Unary => signed(alloc, left, cursor),
        Place::Postfix => postfix(alloc, left, cursor),
    }
}

// ---- operators, the loosest first

#[tactic(auto, using(crate::proofs::Turns::turns, crate::proofs::Ranks::ranks))]
#[cycle(expr)]
fn choosing(alloc: Global, left: u32, cursor: &mut Cursor) -> Result<(Expr, u32), Fault>
    requires { left < 64 }
    ensures ok { IfOk result (λ e. a_test left (read left) cursor.old ≡ Some (tree_of e.0, cursor.new)) }
    ensures deep { IfOk result (λ e. depth (tree_of e.0) ≡ e.1) }
    ensures low { IfOk result (λ e. e.1 ≤ left + 1) }
    ensures none { result ≡ Err Fault.NotABlock → a_test left (read left) cursor.old ≡ None }
{
    let line = cursor.line();
    let (then, then_deep) = at_place(alloc, left, Place::Or, cursor)?;
    if !cursor.at(Symbol::Keyword(Keyword::If)) {
        return Ok((then, then_deep));
    }
    if then_deep > left {
        return Err(Fault::NotABlock);
    }
    cursor.advance();
    let (test, test_deep) = expr(alloc, left, Place::Or, cursor)?;
    cursor.expect(Symbol::Keyword(Keyword::Else))?;
    let (other, other_deep) = expr(alloc, left, Place::Test, cursor)?;
    let made = Expr::Conditional {
        line,
        then: Boxed::new(alloc, then)?,
        test: Boxed::new(alloc, test)?,
        other: Boxed::new(alloc, other)?,
    };
    Ok((made, 1 + then_deep.max(test_deep.max(other_deep))))
}

// What `or` joins, or `and`.
#[tactic(auto, using(crate::proofs::Turns::turns, crate::proofs::Ranks::ranks))]
#[cycle(expr)]
fn joining(
    alloc: Global,
    left: u32,
    place: Place,
    cursor: &mut Cursor,
) -> Result<(Expr, u32), Fault>
    requires bound { left < 64 }
    requires joint { is_joint place ≡ true }
    ensures ok { IfOk result (λ e. joining left (read left) place (at_place left (read left) (tighter place)) cursor.old ≡ Some (tree_of e.0, cursor.new)) }
    ensures deep { IfOk result (λ e. depth (tree_of e.0) ≡ e.1) }
    ensures low { IfOk result (λ e. e.1 ≤ left + 1) }
    ensures none { result ≡ Err Fault.NotABlock → joining left (read left) place (at_place left (read left) (tighter place)) cursor.old ≡ None }
{
    let line = cursor.line();
    let (first, first_deep) = at_place(alloc, left, place.tighter(), cursor)?;
    let mut others = Exprs::new(alloc);
    let mut deep = 0u32;
    let most = cursor.left();
    for _turn in 0..most {
        if !cursor.at(place.joint()) {
            return joined(alloc, left, place, line, first, first_deep, others, deep);
        }
        if first_deep > left {
            return Err(Fault::NotABlock);
        }
        cursor.advance();
        let (next, next_deep) = expr(alloc, left, place.tighter(), cursor)?;
        others.push(next)?;
        deep = deep.max(next_deep);
    }
    joined(alloc, left, place, line, first, first_deep, others, deep)
}

// A chain of operands, or the one.
fn joined(
    alloc: Global,
    left: u32,
    place: Place,
    line: u32,
    first: Expr,
    first_deep: u32,
    others: Exprs,
    deep: u32,
) -> Result<(Expr, u32), Fault>
    requires known { depth (tree_of first) ≡ first_deep }
    requires others { depth_each (trees (map tree_of others)) ≡ deep }
    requires bound { left < 64 }
    requires one { first_deep ≤ left + 1 }
    requires tested { 0 < length others → first_deep ≤ left }
    requires low { deep ≤ left }
    ensures ok { IfOk result (λ e. tree_of e.0 ≡ joined_tree place line (tree_of first) (map tree_of others)) }
    ensures deep { IfOk result (λ e. depth (tree_of e.0) ≡ e.1) }
    ensures low { IfOk result (λ e. e.1 ≤ left + 1) }
    ensures none { result ≢ Err Fault.NotABlock }
{
    if others.is_empty() {
        return Ok((first, first_deep));
    }
    let first = Boxed::new(alloc, first)?;
    let made = match place {
        Place::Or => Expr::Or {
            line,
            first,
            others,
        },
        _ => Expr::And {
            line,
            first,
            others,
        },
    };
    Ok((made, 1 + first_deep.max(deep)))
}

#[tactic(auto, using(crate::proofs::Turns::turns, crate::proofs::Ranks::ranks))]
#[cycle(expr)]
fn negating(alloc: Global, left: u32, cursor: &mut Cursor) -> Result<(Expr, u32), Fault>
    requires { left < 64 }
    ensures ok { IfOk result (λ e. a_negation left (read left) cursor.old ≡ Some (tree_of e.0, cursor.new)) }
    ensures deep { IfOk result (λ e. depth (tree_of e.0) ≡ e.1) }
    ensures low { IfOk result (λ e. e.1 ≤ left + 1) }
    ensures none { result ≡ Err Fault.NotABlock → a_negation left (read left) cursor.old ≡ None }
{
    let line = cursor.line();
    if !cursor.at(Symbol::Keyword(Keyword::Not)) {
        return at_place(alloc, left, Place::Compare, cursor);
    }
    cursor.advance();
    let (operand, deep) = expr(alloc, left, Place::Not, cursor)?;
    let made = Expr::Not {
        line,
        operand: Boxed::new(alloc, operand)?,
    };
    Ok((made, 1 + deep))
}

#[tactic(auto, using(crate::proofs::Turns::turns, crate::proofs::Ranks::ranks))]
#[cycle(expr)]
fn comparing(alloc: Global, left: u32, cursor: &mut Cursor) -> Result<(Expr, u32), Fault>
    requires { left < 64 }
    ensures ok { IfOk result (λ e. a_comparison left (read left) cursor.old ≡ Some (tree_of e.0, cursor.new)) }
    ensures deep { IfOk result (λ e. depth (tree_of e.0) ≡ e.1) }
    ensures low { IfOk result (λ e. e.1 ≤ left + 1) }
    ensures none { result ≡ Err Fault.NotABlock → a_comparison left (read left) cursor.old ≡ None }
{
    let line = cursor.line();
    let (first, first_deep) = at_place(alloc, left, Place::Sum, cursor)?;
    let mut others = Operands::new(alloc);
    let mut deep = 0u32;
    let most = cursor.left();
    for _turn in 0..most {
        let Some(op) = cursor.comparison() else {
            return compared(alloc, left, line, first, first_deep, others, deep);
        };
        if first_deep > left {
            return Err(Fault::NotABlock);
        }
        cursor.skip(op);
        let (right, next_deep) = expr(alloc, left, Place::Sum, cursor)?;
        add_operand(&mut others, op, right)?;
        deep = deep.max(next_deep);
    }
    compared(alloc, left, line, first, first_deep, others, deep)
}

// Adds an operand behind its operator, where it may stand there.
#[tactic(auto, using(crate::proofs::Turns::turns))]
fn add_operand(others: &mut Operands, op: CompareOp, right: Expr) -> Result<(), Fault>
    ensures may { OnOk result (may_compare op (tree_of right) ≡ true) }
    ensures added { OnOk result (map operand_of others.new ≡ map operand_of others.old ++ (op, tree_of right) ∷ []) }
    ensures none { result ≡ Err Fault.NotABlock → may_compare op (tree_of right) ≡ false }
{
    if !may_compare(op, &right) {
        return Err(Fault::NotABlock);
    }
    others.push(Operand { op, right })?;
    Ok(())
}

// A comparison, or the one operand.
fn compared(
    alloc: Global,
    left: u32,
    line: u32,
    first: Expr,
    first_deep: u32,
    others: Operands,
    deep: u32,
) -> Result<(Expr, u32), Fault>
    requires known { depth (tree_of first) ≡ first_deep }
    requires others { depth_operands (operands (map operand_of others)) ≡ deep }
    requires bound { left < 64 }
    requires one { first_deep ≤ left + 1 }
    requires tested { 0 < length others → first_deep ≤ left }
    requires low { deep ≤ left }
    ensures ok { IfOk result (λ e. tree_of e.0 ≡ compared_tree line (tree_of first) (map operand_of others)) }
    ensures deep { IfOk result (λ e. depth (tree_of e.0) ≡ e.1) }
    ensures low { IfOk result (λ e. e.1 ≤ left + 1) }
    ensures none { result ≢ Err Fault.NotABlock }
{
    if others.is_empty() {
        return Ok((first, first_deep));
    }
    let first = Boxed::new(alloc, first)?;
    let made = Expr::Compare {
        line,
        first,
        others,
    };
    Ok((made, 1 + first_deep.max(deep)))
}

// Behind `is` and `is not` stands `None`.
fn may_compare(op: CompareOp, right: &Expr) -> bool
    ensures { result ≡ may_compare op (tree_of right.now) }
{
    match op {
        CompareOp::Is | CompareOp::IsNot => is_nil(right),
        _ => true,
    }
}

fn is_nil(e: &Expr) -> bool
    ensures { result ≡ is_nil (tree_of e.now) }
{
    match e {
        Expr::Nil { .. } => true,
        _ => false,
    }
}

// What leans to the left: a sum, or a term.
#[tactic(auto, using(crate::proofs::Turns::turns, crate::proofs::Ranks::ranks))]
#[cycle(expr)]
fn leaning(
    alloc: Global,
    left: u32,
    place: Place,
    cursor: &mut Cursor,
) -> Result<(Expr, u32), Fault>
    requires bound { left < 64 }
    requires operator { has_operator place ≡ true }
    ensures ok { IfOk result (λ e. leaning left (read left) place (at_place left (read left) (tighter place)) cursor.old ≡ Some (tree_of e.0, cursor.new)) }
    ensures deep { IfOk result (λ e. depth (tree_of e.0) ≡ e.1) }
    ensures low { IfOk result (λ e. e.1 ≤ left + 1) }
    ensures none { result ≡ Err Fault.NotABlock → leaning left (read left) place (at_place left (read left) (tighter place)) cursor.old ≡ None }
{
    let line = cursor.line();
    let (mut first, mut deep) = at_place(alloc, left, place.tighter(), cursor)?;
    let most = cursor.left();
    for _turn in 0..most {
        let Some(op) = op_at(place, cursor.symbol()) else {
            return Ok((first, deep));
        };
        if deep > left {
            return Err(Fault::NotABlock);
        }
        cursor.advance();
        let (right, right_deep) = expr(alloc, left, place.tighter(), cursor)?;
        first = operation(alloc, line, first, op, right)?;
        deep = 1 + deep.max(right_deep);
    }
    Ok((first, deep))
}

// An operator between two operands.
fn operation(alloc: Global, line: u32, left: Expr, op: BinaryOp, right: Expr) -> Result<Expr, Fault>
    ensures ok { IfOk result (λ e. tree_of e ≡ binary line (tree_of left) op (tree_of right)) }
    ensures none { result ≢ Err Fault.NotABlock }
{
    let left = Boxed::new(alloc, left)?;
    let right = Boxed::new(alloc, right)?;
    Ok(Expr::Binary {
        line,
        left,
        op,
        right,
    })
}

// The operator of a sum or of a term, as the place asks.
fn op_at(place: Place, symbol: Symbol) -> Option<BinaryOp>
    ensures { result ≡ op_of place (binary_at symbol) }
{
    match place {
        Place::Sum => sum_op(symbol),
        Place::Term => term_op(symbol),
        _ => None,
    }
}

fn sum_op(symbol: Symbol) -> Option<BinaryOp>
    ensures { result ≡ op_of Place.Sum (binary_at symbol) }
{
    match symbol {
        Symbol::Mark(Mark::Plus) => Some(BinaryOp::Add),
        Symbol::Mark(Mark::Minus) => Some(BinaryOp::Sub),
        _ => None,
    }
}

fn term_op(symbol: Symbol) -> Option<BinaryOp>
    ensures { result ≡ op_of Place.Term (binary_at symbol) }
{
    match symbol {
        Symbol::Mark(Mark::Star) => Some(BinaryOp::Mul),
        Symbol::Mark(Mark::DoubleSlash) => Some(BinaryOp::FloorDiv),
        Symbol::Mark(Mark::Percent) => Some(BinaryOp::Mod),
        _ => None,
    }
}

#[tactic(auto, using(crate::proofs::Turns::turns, crate::proofs::Ranks::ranks))]
#[cycle(expr)]
fn signed(alloc: Global, left: u32, cursor: &mut Cursor) -> Result<(Expr, u32), Fault>
    requires { left < 64 }
    ensures ok { IfOk result (λ e. signed left (read left) cursor.old ≡ Some (tree_of e.0, cursor.new)) }
    ensures deep { IfOk result (λ e. depth (tree_of e.0) ≡ e.1) }
    ensures low { IfOk result (λ e. e.1 ≤ left + 1) }
    ensures none { result ≡ Err Fault.NotABlock → signed left (read left) cursor.old ≡ None }
{
    let line = cursor.line();
    let Some(op) = sign_at(cursor.symbol()) else {
        return postfix(alloc, left, cursor);
    };
    cursor.advance();
    let (operand, deep) = expr(alloc, left, Place::Unary, cursor)?;
    let made = Expr::Unary {
        line,
        op,
        operand: Boxed::new(alloc, operand)?,
    };
    Ok((made, 1 + deep))
}

fn sign_at(symbol: Symbol) -> Option<UnaryOp>
    ensures { result ≡ unary_at symbol }
{
    match symbol {
        Symbol::Mark(Mark::Minus) => Some(UnaryOp::Minus),
        Symbol::Mark(Mark::Plus) => Some(UnaryOp::Plus),
        _ => None,
    }
}

// ---- behind an atom

#[tactic(auto, using(crate::proofs::Turns::turns, crate::proofs::Ranks::ranks))]
#[cycle(expr)]
fn postfix(alloc: Global, left: u32, cursor: &mut Cursor) -> Result<(Expr, u32), Fault>
    requires { left < 64 }
    ensures ok { IfOk result (λ e. postfix left (read left) cursor.old ≡ Some (tree_of e.0, cursor.new)) }
    ensures deep { IfOk result (λ e. depth (tree_of e.0) ≡ e.1) }
    ensures low { IfOk result (λ e. e.1 ≤ left + 1) }
    ensures none { result ≡ Err Fault.NotABlock → postfix left (read left) cursor.old ≡ None }
{
    let line = cursor.line();
    let (mut first, mut deep) = atom(alloc, left, cursor)?;
    let most = cursor.left();
    for _turn in 0..most {
        if !trails(cursor) {
            return Ok((first, deep));
        }
        if deep > left {
            return Err(Fault::NotABlock);
        }
        let dot = cursor.at(Symbol::Mark(Mark::Dot));
        cursor.advance();
        let (next, next_deep) = post(alloc, left, dot, line, first, deep, cursor)?;
        first = next;
        deep = next_deep;
    }
    Ok((first, deep))
}

// Whether a dot or a square bracket stands there.
fn trails(cursor: &Cursor) -> bool
    ensures { result ≡ trails cursor.now }
{
    cursor.at(Symbol::Mark(Mark::Dot)) || cursor.at(Symbol::Mark(Mark::OpenSquare))
}

// A method's call, or a subscript.
#[tactic(auto, using(crate::proofs::Turns::turns, crate::proofs::Ranks::ranks))]
#[cycle(expr)]
fn post(
    alloc: Global,
    left: u32,
    dot: bool,
    line: u32,
    first: Expr,
    deep: u32,
    cursor: &mut Cursor,
) -> Result<(Expr, u32), Fault>
    requires bound { left < 64 }
    requires known { depth (tree_of first) ≡ deep }
    requires room { deep ≤ left }
    ensures ok { IfOk result (λ e. post left (read left) dot line (tree_of first) cursor.old ≡ Some (tree_of e.0, cursor.new)) }
    ensures deep { IfOk result (λ e. depth (tree_of e.0) ≡ e.1) }
    ensures low { IfOk result (λ e. e.1 ≤ left + 1) }
    ensures none { result ≡ Err Fault.NotABlock → post left (read left) dot line (tree_of first) cursor.old ≡ None }
{
    if dot {
        method(alloc, left, line, first, deep, cursor)
    } else {
        subscript(alloc, left, line, first, deep, cursor)
    }
}

#[tactic(auto, using(crate::proofs::Turns::turns, crate::proofs::Ranks::ranks))]
#[cycle(expr)]
fn method(
    alloc: Global,
    left: u32,
    line: u32,
    receiver: Expr,
    deep: u32,
    cursor: &mut Cursor,
) -> Result<(Expr, u32), Fault>
    requires bound { left < 64 }
    requires known { depth (tree_of receiver) ≡ deep }
    requires room { deep ≤ left }
    ensures ok { IfOk result (λ e. method_of left (read left) line (tree_of receiver) cursor.old ≡ Some (tree_of e.0, cursor.new)) }
    ensures deep { IfOk result (λ e. depth (tree_of e.0) ≡ e.1) }
    ensures low { IfOk result (λ e. e.1 ≤ left + 1) }
    ensures none { result ≡ Err Fault.NotABlock → method_of left (read left) line (tree_of receiver) cursor.old ≡ None }
{
    let word = word(alloc, cursor)?;
    cursor.expect(Symbol::Mark(Mark::Open))?;
    let args = args(alloc, left, cursor)?;
    let made = Expr::Method {
        line,
        receiver: Boxed::new(alloc, receiver)?,
        word,
        args: args.items,
        comma: args.comma,
    };
    Ok((made, 1 + deep.max(args.deep)))
}

#[tactic(auto, using(crate::proofs::Turns::turns, crate::proofs::Ranks::ranks))]
#[cycle(expr)]
fn subscript(
    alloc: Global,
    left: u32,
    line: u32,
    base: Expr,
    deep: u32,
    cursor: &mut Cursor,
) -> Result<(Expr, u32), Fault>
    requires bound { left < 64 }
    requires known { depth (tree_of base) ≡ deep }
    requires room { deep ≤ left }
    ensures ok { IfOk result (λ e. subscript left (read left) line (tree_of base) cursor.old ≡ Some (tree_of e.0, cursor.new)) }
    ensures deep { IfOk result (λ e. depth (tree_of e.0) ≡ e.1) }
    ensures low { IfOk result (λ e. e.1 ≤ left + 1) }
    ensures none { result ≡ Err Fault.NotABlock → subscript left (read left) line (tree_of base) cursor.old ≡ None }
{
    let (from, from_deep) = bound(alloc, left, Mark::Colon, cursor)?;
    if !cursor.at(Symbol::Mark(Mark::Colon)) {
        return index(alloc, line, base, deep, from, from_deep, cursor);
    }
    cursor.advance();
    let (to, to_deep) = bound(alloc, left, Mark::CloseSquare, cursor)?;
    cursor.expect(Symbol::Mark(Mark::CloseSquare))?;
    let base = Boxed::new(alloc, base)?;
    let made = Expr::Slice {
        line,
        base,
        from,
        to,
    };
    Ok((made, 1 + deep.max(from_deep.max(to_deep))))
}

fn index(
    alloc: Global,
    line: u32,
    base: Expr,
    deep: u32,
    at: Maybe,
    at_deep: u32,
    cursor: &mut Cursor,
) -> Result<(Expr, u32), Fault>
    requires known { depth (tree_of base) ≡ deep }
    requires part { depth_maybe (maybe_of at) ≡ at_deep }
    requires room { (deep < 64) × (at_deep < 65) }
    ensures ok { IfOk result (λ e. index_of line (tree_of base) (maybe_of at) cursor.old ≡ Some (tree_of e.0, cursor.new)) }
    ensures deep { IfOk result (λ e. depth (tree_of e.0) ≡ e.1) }
    ensures low { IfOk result (λ e. e.1 ≡ 1 + max deep at_deep) }
    ensures none { result ≡ Err Fault.NotABlock → index_of line (tree_of base) (maybe_of at) cursor.old ≡ None }
{
    match at {
        Maybe::Present(at) => {
            cursor.expect(Symbol::Mark(Mark::CloseSquare))?;
            let base = Boxed::new(alloc, base)?;
            Ok((Expr::Index { line, base, at }, 1 + deep.max(at_deep)))
        }
        Maybe::Absent => Err(Fault::NotABlock),
    }
}

// An expression, unless this mark stands there.
#[tactic(auto, using(crate::proofs::Turns::turns, crate::proofs::Ranks::ranks))]
#[cycle(expr)]
fn bound(alloc: Global, left: u32, end: Mark, cursor: &mut Cursor) -> Result<(Maybe, u32), Fault>
    requires { left < 64 }
    ensures ok { IfOk result (λ e. bound left (read left) (Symbol.Mark end) cursor.old ≡ Some (maybe_of e.0, cursor.new)) }
    ensures deep { IfOk result (λ e. depth_maybe (maybe_of e.0) ≡ e.1) }
    ensures low { IfOk result (λ e. e.1 ≤ left) }
    ensures none { result ≡ Err Fault.NotABlock → bound left (read left) (Symbol.Mark end) cursor.old ≡ None }
{
    if cursor.at(Symbol::Mark(end)) {
        return Ok((Maybe::Absent, 0));
    }
    let (e, deep) = expr(alloc, left, Place::Test, cursor)?;
    Ok((Maybe::Present(Boxed::new(alloc, e)?), deep))
}

// ---- atoms

#[tactic(auto, using(crate::proofs::Turns::turns, crate::proofs::Ranks::ranks))]
#[cycle(expr)]
fn atom(alloc: Global, left: u32, cursor: &mut Cursor) -> Result<(Expr, u32), Fault>
    requires { left < 64 }
    ensures ok { IfOk result (λ e. atom left (read left) cursor.old ≡ Some (tree_of e.0, cursor.new)) }
    ensures deep { IfOk result (λ e. depth (tree_of e.0) ≡ e.1) }
    ensures low { IfOk result (λ e. e.1 ≤ left + 1) }
    ensures none { result ≡ Err Fault.NotABlock → atom left (read left) cursor.old ≡ None }
{
    let line = cursor.line();
    match cursor.symbol() {
        Symbol::Name => name(alloc, left, line, cursor),
        Symbol::Number => number(line, cursor),
        Symbol::Quoted => quoted(alloc, line, cursor),
        Symbol::Keyword(keyword) => literal(line, keyword, cursor),
        Symbol::Mark(mark) => {
            cursor.advance();
            bracket(alloc, left, line, mark, cursor)
        }
        _ => Err(Fault::NotABlock),
    }
}

fn number(line: u32, cursor: &mut Cursor) -> Result<(Expr, u32), Fault>
    ensures ok { IfOk result (λ e. number line (number_at cursor.old) (rest_of cursor.old) ≡ Some (tree_of e.0, cursor.new)) }
    ensures deep { IfOk result (λ e. depth (tree_of e.0) ≡ e.1) }
    ensures low { IfOk result (λ e. e.1 ≤ 1) }
    ensures none { result ≡ Err Fault.NotABlock → number line (number_at cursor.old) (rest_of cursor.old) ≡ None }
{
    let value = cursor.number();
    if value < 0 {
        return Err(Fault::NotABlock);
    }
    cursor.advance();
    Ok((Expr::Int { line, value }, 1))
}

fn quoted(alloc: Global, line: u32, cursor: &mut Cursor) -> Result<(Expr, u32), Fault>
    ensures ok { IfOk result (λ e. give (text line (text_at cursor.old)) (rest_of cursor.old) ≡ Some (tree_of e.0, cursor.new)) }
    ensures deep { IfOk result (λ e. depth (tree_of e.0) ≡ e.1) }
    ensures low { IfOk result (λ e. e.1 ≤ 1) }
    ensures none { result ≡ Err Fault.NotABlock → give (text line (text_at cursor.old)) (rest_of cursor.old) ≡ None }
{
    let value = cursor.text(alloc)?;
    cursor.advance();
    Ok((Expr::Text { line, value }, 1))
}

fn literal(line: u32, keyword: Keyword, cursor: &mut Cursor) -> Result<(Expr, u32), Fault>
    ensures ok { IfOk result (λ e. given (literal keyword line) (rest_of cursor.old) ≡ Some (tree_of e.0, cursor.new)) }
    ensures deep { IfOk result (λ e. depth (tree_of e.0) ≡ e.1) }
    ensures low { IfOk result (λ e. e.1 ≤ 1) }
    ensures none { result ≡ Err Fault.NotABlock → given (literal keyword line) (rest_of cursor.old) ≡ None }
{
    let made = match keyword {
        Keyword::None => Expr::Nil { line },
        Keyword::True => Expr::Truth { line, value: true },
        Keyword::False => Expr::Truth { line, value: false },
        _ => return Err(Fault::NotABlock),
    };
    cursor.advance();
    Ok((made, 1))
}

// A name, or a call by it.
#[tactic(auto, using(crate::proofs::Turns::turns, crate::proofs::Ranks::ranks))]
#[cycle(expr)]
fn name(alloc: Global, left: u32, line: u32, cursor: &mut Cursor) -> Result<(Expr, u32), Fault>
    requires { left < 64 }
    ensures ok { IfOk result (λ e. name_by left (read left) line (text_at cursor.old) (at (Symbol.Mark Mark.Open) (rest_of cursor.old)) (rest_of cursor.old) ≡ Some (tree_of e.0, cursor.new)) }
    ensures deep { IfOk result (λ e. depth (tree_of e.0) ≡ e.1) }
    ensures low { IfOk result (λ e. e.1 ≤ left + 1) }
    ensures named { OnOk result (at Symbol.Name cursor.old ≡ true → is_name (text_at cursor.old) ≡ true) }
    ensures none { result ≡ Err Fault.NotABlock → name_by left (read left) line (text_at cursor.old) (at (Symbol.Mark Mark.Open) (rest_of cursor.old)) (rest_of cursor.old) ≡ None }
{
    let name = cursor.text(alloc)?;
    cursor.advance();
    if !cursor.at(Symbol::Mark(Mark::Open)) {
        return Ok((Expr::Name { line, name }, 1));
    }
    cursor.advance();
    let args = args(alloc, left, cursor)?;
    let made = Expr::Call {
        line,
        name,
        args: args.items,
        comma: args.comma,
    };
    Ok((made, 1 + args.deep))
}

// What stands behind an opening bracket.
#[tactic(auto, using(crate::proofs::Turns::turns, crate::proofs::Ranks::ranks))]
#[cycle(expr)]
fn bracket(
    alloc: Global,
    left: u32,
    line: u32,
    mark: Mark,
    cursor: &mut Cursor,
) -> Result<(Expr, u32), Fault>
    requires { left < 64 }
    ensures ok { IfOk result (λ e. bracket_by left (read left) mark line cursor.old ≡ Some (tree_of e.0, cursor.new)) }
    ensures deep { IfOk result (λ e. depth (tree_of e.0) ≡ e.1) }
    ensures low { IfOk result (λ e. e.1 ≤ left + 1) }
    ensures none { result ≡ Err Fault.NotABlock → bracket_by left (read left) mark line cursor.old ≡ None }
{
    match mark {
        Mark::Open => {
            let listed = args(alloc, left, cursor)?;
            bracketed(alloc, line, listed)
        }
        Mark::OpenSquare => square(alloc, left, line, cursor),
        Mark::OpenBrace => brace(alloc, left, line, cursor),
        _ => Err(Fault::NotABlock),
    }
}

// One expression in brackets, or a tuple.
fn bracketed(alloc: Global, line: u32, listed: Listed) -> Result<(Expr, u32), Fault>
    requires known { depth_each (trees (map tree_of listed.items)) ≡ listed.deep }
    requires room { listed.deep < 64 }
    ensures ok { IfOk result (λ e. tree_of e.0 ≡ bracketed line (map tree_of listed.items, listed.comma)) }
    ensures deep { IfOk result (λ e. depth (tree_of e.0) ≡ e.1) }
    ensures low { IfOk result (λ e. e.1 ≡ 1 + listed.deep) }
    ensures none { result ≢ Err Fault.NotABlock }
{
    let Listed { items, comma, deep } = listed;
    if comma || items.len() != 1 {
        return Ok((Expr::Tuple { line, items, comma }, 1 + deep));
    }
    let mut items = items.into_vec();
    match items.pop() {
        Some(inner) => {
            let inner = Boxed::new(alloc, inner)?;
            Ok((Expr::Paren { line, inner }, 1 + deep))
        }
        None => Err(Fault::NotABlock),
    }
}

// Expressions up to the closing bracket, with it.
#[tactic(auto, using(crate::proofs::Turns::turns, crate::proofs::Ranks::ranks))]
#[cycle(expr)]
fn args(alloc: Global, left: u32, cursor: &mut Cursor) -> Result<Listed, Fault>
    requires { left < 64 }
    ensures ok { IfOk result (λ e. args left (read left) cursor.old ≡ Some ((map tree_of e.items, e.comma), cursor.new)) }
    ensures deep { IfOk result (λ e. depth_each (trees (map tree_of e.items)) ≡ e.deep) }
    ensures low { IfOk result (λ e. e.deep ≤ left) }
    ensures none { result ≡ Err Fault.NotABlock → args left (read left) cursor.old ≡ None }
{
    let close = Symbol::Mark(Mark::Close);
    if cursor.at(close) {
        cursor.advance();
        return Ok(Listed {
            items: Exprs::new(alloc),
            comma: false,
            deep: 0,
        });
    }
    let (first, deep) = expr(alloc, left, Place::Test, cursor)?;
    let listed = items_behind(alloc, left, close, first, deep, cursor)?;
    cursor.expect(close)?;
    Ok(listed)
}

/// The rest of some expressions behind the first one, up to a symbol.
#[tactic(auto, using(crate::proofs::Turns::turns, crate::proofs::Ranks::ranks))]
#[cycle(expr)]
pub(crate) fn items_behind(
    alloc: Global,
    left: u32,
    end: Symbol,
    first: Expr,
    first_deep: u32,
    cursor: &mut Cursor,
) -> Result<Listed, Fault>
    requires bound { left < 64 }
    requires known { depth (tree_of first) ≡ first_deep }
    requires room { first_deep ≤ left }
    ensures ok { IfOk result (λ e. items_behind (read left Place.Test) end (tree_of first) cursor.old ≡ Some ((map tree_of e.items, e.comma), cursor.new)) }
    ensures deep { IfOk result (λ e. depth_each (trees (map tree_of e.items)) ≡ e.deep) }
    ensures low { IfOk result (λ e. e.deep ≤ left) }
    ensures none { result ≡ Err Fault.NotABlock → items_behind (read left Place.Test) end (tree_of first) cursor.old ≡ None }
{
    let mut items = Exprs::new(alloc);
    items.push(first)?;
    let mut deep = first_deep;
    let most = cursor.left();
    for _turn in 0..most {
        if !cursor.at(Symbol::Mark(Mark::Comma)) {
            return Ok(Listed {
                items,
                comma: false,
                deep,
            });
        }
        cursor.advance();
        if cursor.at(end) {
            return Ok(Listed {
                items,
                comma: true,
                deep,
            });
        }
        let (next, next_deep) = expr(alloc, left, Place::Test, cursor)?;
        items.push(next)?;
        deep = deep.max(next_deep);
    }
    Ok(Listed {
        items,
        comma: false,
        deep,
    })
}

#[tactic(auto, using(crate::proofs::Turns::turns, crate::proofs::Ranks::ranks))]
#[cycle(expr)]
fn square(alloc: Global, left: u32, line: u32, cursor: &mut Cursor) -> Result<(Expr, u32), Fault>
    requires { left < 64 }
    ensures ok { IfOk result (λ e. square left (read left) line cursor.old ≡ Some (tree_of e.0, cursor.new)) }
    ensures deep { IfOk result (λ e. depth (tree_of e.0) ≡ e.1) }
    ensures low { IfOk result (λ e. e.1 ≤ left + 1) }
    ensures none { result ≡ Err Fault.NotABlock → square left (read left) line cursor.old ≡ None }
{
    let close = Symbol::Mark(Mark::CloseSquare);
    if cursor.at(close) {
        cursor.advance();
        let items = Exprs::new(alloc);
        let comma = false;
        return Ok((Expr::List { line, items, comma }, 1));
    }
    let (first, first_deep) = expr(alloc, left, Place::Test, cursor)?;
    if cursor.at(Symbol::Keyword(Keyword::For)) {
        cursor.advance();
        return comprehension(alloc, left, line, first, first_deep, cursor);
    }
    let listed = items_behind(alloc, left, close, first, first_deep, cursor)?;
    cursor.expect(close)?;
    let Listed { items, comma, deep } = listed;
    Ok((Expr::List { line, items, comma }, 1 + deep))
}

// A comprehension behind its `for`.
#[tactic(auto, using(crate::proofs::Turns::turns, crate::proofs::Ranks::ranks))]
#[cycle(expr)]
fn comprehension(
    alloc: Global,
    left: u32,
    line: u32,
    element: Expr,
    deep: u32,
    cursor: &mut Cursor,
) -> Result<(Expr, u32), Fault>
    requires bound { left < 64 }
    requires known { depth (tree_of element) ≡ deep }
    requires room { deep ≤ left }
    ensures ok { IfOk result (λ e. comprehended left (read left) line (tree_of element) cursor.old ≡ Some (tree_of e.0, cursor.new)) }
    ensures deep { IfOk result (λ e. depth (tree_of e.0) ≡ e.1) }
    ensures low { IfOk result (λ e. e.1 ≤ left + 1) }
    ensures none { result ≡ Err Fault.NotABlock → comprehended left (read left) line (tree_of element) cursor.old ≡ None }
{
    let target = target(alloc, Symbol::Keyword(Keyword::In), cursor)?;
    cursor.expect(Symbol::Keyword(Keyword::In))?;
    let (iterable, iterable_deep) = expr(alloc, left, Place::Or, cursor)?;
    let (condition, condition_deep) = condition(alloc, left, cursor)?;
    cursor.expect(Symbol::Mark(Mark::CloseSquare))?;
    let made = Expr::Comprehension {
        line,
        element: Boxed::new(alloc, element)?,
        target,
        iterable: Boxed::new(alloc, iterable)?,
        condition,
    };
    Ok((made, 1 + deep.max(iterable_deep.max(condition_deep))))
}

#[tactic(auto, using(crate::proofs::Turns::turns, crate::proofs::Ranks::ranks))]
#[cycle(expr)]
fn condition(alloc: Global, left: u32, cursor: &mut Cursor) -> Result<(Maybe, u32), Fault>
    requires { left < 64 }
    ensures ok { IfOk result (λ e. condition left (read left) cursor.old ≡ Some (maybe_of e.0, cursor.new)) }
    ensures deep { IfOk result (λ e. depth_maybe (maybe_of e.0) ≡ e.1) }
    ensures low { IfOk result (λ e. e.1 ≤ left) }
    ensures none { result ≡ Err Fault.NotABlock → condition left (read left) cursor.old ≡ None }
{
    if !cursor.at(Symbol::Keyword(Keyword::If)) {
        return Ok((Maybe::Absent, 0));
    }
    cursor.advance();
    let (e, deep) = expr(alloc, left, Place::Or, cursor)?;
    Ok((Maybe::Present(Boxed::new(alloc, e)?), deep))
}

#[tactic(auto, using(crate::proofs::Turns::turns, crate::proofs::Ranks::ranks))]
#[cycle(expr)]
fn brace(alloc: Global, left: u32, line: u32, cursor: &mut Cursor) -> Result<(Expr, u32), Fault>
    requires { left < 64 }
    ensures ok { IfOk result (λ e. brace left (read left) line cursor.old ≡ Some (tree_of e.0, cursor.new)) }
    ensures deep { IfOk result (λ e. depth (tree_of e.0) ≡ e.1) }
    ensures low { IfOk result (λ e. e.1 ≤ left + 1) }
    ensures none { result ≡ Err Fault.NotABlock → brace left (read left) line cursor.old ≡ None }
{
    let close = Symbol::Mark(Mark::CloseBrace);
    if cursor.at(close) {
        cursor.advance();
        let pairs = Pairs::new(alloc);
        let comma = false;
        return Ok((Expr::Dict { line, pairs, comma }, 1));
    }
    let (pairs, comma, deep) = pairs(alloc, left, cursor)?;
    cursor.expect(close)?;
    Ok((Expr::Dict { line, pairs, comma }, 1 + deep))
}

// One pair or more, whether a comma stands behind the last, and the greatest depth.
#[tactic(auto, using(crate::proofs::Turns::turns, crate::proofs::Ranks::ranks))]
#[cycle(expr)]
fn pairs(alloc: Global, left: u32, cursor: &mut Cursor) -> Result<(Pairs, bool, u32), Fault>
    requires { left < 64 }
    ensures ok { IfOk result (λ e. and_read (pair left (read left) cursor.old) (items_behind (pair left (read left)) (Symbol.Mark Mark.CloseBrace)) ≡ Some ((map pair_of e.0, e.1), cursor.new)) }
    ensures deep { IfOk result (λ e. depth_pairs (pair_trees (map pair_of e.0)) ≡ e.2) }
    ensures low { IfOk result (λ e. e.2 ≤ left) }
    ensures none { result ≡ Err Fault.NotABlock → and_read (pair left (read left) cursor.old) (items_behind (pair left (read left)) (Symbol.Mark Mark.CloseBrace)) ≡ None }
{
    let (first, first_deep) = pair(alloc, left, cursor)?;
    let mut done = Pairs::new(alloc);
    done.push(first)?;
    let mut deep = first_deep;
    let most = cursor.left();
    for _turn in 0..most {
        if !cursor.at(Symbol::Mark(Mark::Comma)) {
            return Ok((done, false, deep));
        }
        cursor.advance();
        if cursor.at(Symbol::Mark(Mark::CloseBrace)) {
            return Ok((done, true, deep));
        }
        let (next, next_deep) = pair(alloc, left, cursor)?;
        done.push(next)?;
        deep = deep.max(next_deep);
    }
    Ok((done, false, deep))
}

#[tactic(auto, using(crate::proofs::Turns::turns, crate::proofs::Ranks::ranks))]
#[cycle(expr)]
fn pair(alloc: Global, left: u32, cursor: &mut Cursor) -> Result<(Pair, u32), Fault>
    requires { left < 64 }
    ensures ok { IfOk result (λ e. pair left (read left) cursor.old ≡ Some (pair_of e.0, cursor.new)) }
    ensures deep { IfOk result (λ e. max (depth (pair_of e.0).0) (depth (pair_of e.0).1) ≡ e.1) }
    ensures low { IfOk result (λ e. e.1 ≤ left) }
    ensures none { result ≡ Err Fault.NotABlock → pair left (read left) cursor.old ≡ None }
{
    let (key, key_deep) = expr(alloc, left, Place::Test, cursor)?;
    cursor.expect(Symbol::Mark(Mark::Colon))?;
    let (value, value_deep) = expr(alloc, left, Place::Test, cursor)?;
    Ok((Pair { key, value }, key_deep.max(value_deep)))
}
