// Names, lists of names, and targets.
ghost use Rattle.std.specs.Prelude.{◌≡◌, IfOk, Err, None, Some, true};
ghost use Rattle.tx_tree.specs.Form.{amount, is_listed};
ghost use Rattle.tx_parse.specs.Calls.Reader.{a_word, a_name, items, items_behind, named_target, target, bracketed_target, target_by, and_read};

use crate::cursor::Cursor;
use crate::fault::Fault;
use crate::symbol::Symbol;
use std::alloc::Global;
use tx_text::{PyText, Texts};
use tx_tree::{Mark, Target, Word, Words};

/// A name with its line.
pub(crate) fn word(alloc: Global, cursor: &mut Cursor) -> Result<Word, Fault>
    ensures ok { IfOk result (λ w. a_word cursor.old ≡ Some (w, cursor.new)) }
    ensures none { result ≡ Err Fault.NotABlock → a_word cursor.old ≡ None }
{
    let line = cursor.line();
    let text = name(alloc, cursor)?;
    Ok(Word { line, text })
}

/// A name.
pub(crate) fn name(alloc: Global, cursor: &mut Cursor) -> Result<PyText, Fault>
    ensures ok { IfOk result (λ n. a_name cursor.old ≡ Some (n, cursor.new)) }
    ensures none { result ≡ Err Fault.NotABlock → a_name cursor.old ≡ None }
{
    let text = cursor.text(alloc)?;
    cursor.expect(Symbol::Name)?;
    Ok(text)
}

/// Names up to a symbol, and whether a comma stands behind the last.
pub(crate) fn names(alloc: Global, end: Symbol, cursor: &mut Cursor) -> Result<(Texts, bool), Fault>
    ensures ok { IfOk result (λ x. items a_name end cursor.old ≡ Some ((x.0, x.1), cursor.new)) }
    ensures none { result ≡ Err Fault.NotABlock → items a_name end cursor.old ≡ None }
{
    if cursor.at(end) {
        return Ok((Texts::new(alloc), false));
    }
    names_behind(alloc, end, cursor)
}

#[tactic(auto, using(crate::proofs::Turns::turns))]
fn names_behind(alloc: Global, end: Symbol, cursor: &mut Cursor) -> Result<(Texts, bool), Fault>
    ensures ok { IfOk result (λ x. and_read (a_name cursor.old) (items_behind a_name end) ≡ Some ((x.0, x.1), cursor.new)) }
    ensures none { result ≡ Err Fault.NotABlock → and_read (a_name cursor.old) (items_behind a_name end) ≡ None }
{
    let first = name(alloc, cursor)?;
    let mut done = Texts::new(alloc);
    done.push(first)?;
    let most = cursor.left();
    for _turn in 0..most {
        if !cursor.at(Symbol::Mark(Mark::Comma)) {
            return Ok((done, false));
        }
        cursor.advance();
        if cursor.at(end) {
            return Ok((done, true));
        }
        done.push(name(alloc, cursor)?)?;
    }
    Ok((done, false))
}

/// Names with their lines up to a symbol, and whether a comma stands behind the last.
fn words(alloc: Global, end: Symbol, cursor: &mut Cursor) -> Result<(Words, bool), Fault>
    ensures ok { IfOk result (λ x. items a_word end cursor.old ≡ Some ((x.0, x.1), cursor.new)) }
    ensures none { result ≡ Err Fault.NotABlock → items a_word end cursor.old ≡ None }
{
    if cursor.at(end) {
        return Ok((Words::new(alloc), false));
    }
    words_behind(alloc, end, cursor)
}

#[tactic(auto, using(crate::proofs::Turns::turns))]
fn words_behind(alloc: Global, end: Symbol, cursor: &mut Cursor) -> Result<(Words, bool), Fault>
    ensures ok { IfOk result (λ x. and_read (a_word cursor.old) (items_behind a_word end) ≡ Some ((x.0, x.1), cursor.new)) }
    ensures none { result ≡ Err Fault.NotABlock → and_read (a_word cursor.old) (items_behind a_word end) ≡ None }
{
    let first = word(alloc, cursor)?;
    let mut done = Words::new(alloc);
    done.push(first)?;
    let most = cursor.left();
    for _turn in 0..most {
        if !cursor.at(Symbol::Mark(Mark::Comma)) {
            return Ok((done, false));
        }
        cursor.advance();
        if cursor.at(end) {
            return Ok((done, true));
        }
        done.push(word(alloc, cursor)?)?;
    }
    Ok((done, false))
}

/// What an assignment, a `for` or a comprehension assigns to, up to a symbol.
pub(crate) fn target(alloc: Global, end: Symbol, cursor: &mut Cursor) -> Result<Target, Fault>
    ensures ok { IfOk result (λ t. target end cursor.old ≡ Some (t, cursor.new)) }
    ensures none { result ≡ Err Fault.NotABlock → target end cursor.old ≡ None }
{
    if cursor.at(Symbol::Mark(Mark::Open)) {
        return bracketed_target(alloc, cursor);
    }
    let (names, comma) = words(alloc, end, cursor)?;
    named_target(names, comma)
}

fn bracketed_target(alloc: Global, cursor: &mut Cursor) -> Result<Target, Fault>
    ensures ok { IfOk result (λ t. target_by Symbol.End true cursor.old ≡ Some (t, cursor.new)) }
    ensures none { result ≡ Err Fault.NotABlock → target_by Symbol.End true cursor.old ≡ None }
{
    let line = cursor.line();
    cursor.advance();
    let close = Symbol::Mark(Mark::Close);
    let (names, comma) = words(alloc, close, cursor)?;
    if !is_listed(names.as_slice(), comma) {
        return Err(Fault::NotABlock);
    }
    cursor.expect(close)?;
    Ok(Target::Bracketed { line, names, comma })
}

// One name with a comma behind it, or more.
fn is_listed(names: &[Word], comma: bool) -> bool
    ensures { result ≡ is_listed (amount names.now) comma }
{
    match names {
        [] => false,
        [_] => comma,
        _ => true,
    }
}

#[tactic(auto, using(crate::proofs::Targets::named_targets))]
fn named_target(names: Words, comma: bool) -> Result<Target, Fault>
    ensures ok { IfOk result (λ t. named_target names comma ≡ Some t) }
    ensures none { result ≡ Err Fault.NotABlock → named_target names comma ≡ None }
{
    if is_listed(names.as_slice(), comma) {
        return Ok(Target::Names { names, comma });
    }
    let mut names = names.into_vec();
    match names.pop() {
        Some(name) => Ok(Target::Name(name)),
        None => Err(Fault::NotABlock),
    }
}
