// Which trees are well formed.
ghost use Rattle.std.specs.Prelude.{◌≡◌, ◌&&◌, map, IsTrue};
ghost use Rattle.std.specs.List.{list_all, list_any};
ghost use Rattle.tx_tree.specs.Words.{same_text};
ghost use Rattle.tx_tree.specs.Tree.{tree_of, trees, pair_of, pair_trees, operand_of, operands, maybe_of, statement_of, statements, body_of, arm_of, tail, otherwise_of, arg_of, args_of, link_of, head_of, chain_of, block_of, nothing};
ghost use Rattle.tx_tree.specs.Spell.{texts_of};
ghost use Rattle.tx_tree.specs.Calls.Operation.{is_operation};
ghost use Rattle.tx_tree.specs.Form.{level, level_of_op, fits, fits_each, fits_pairs, fits_operands, fits_maybe, at_test, amount, amount_of_trees, amount_of_pairs, amount_of_operands, has_items, may_end, makes_tuple, derived, derived_target, is_listed, is_name, are_names, target_is_named, identities_with_none, compares_with_none, is_identity, is_nil, is_literal, has_names, sound, fine, fine_each, fine_pairs, fine_operands, fine_maybe, is_simple, derived_body, derived_tail, derived_statement, statement_has_names, is_in_loop, sound_statement, fine_statement, fine_statements, fine_body, fine_tail, distinct, are_params, fine_arg, fine_args, fine_head, fine_link, fine_chain, well_formed};

use crate::{
    Arg, Args, Arm, BinaryOp, Block, Chain, CompareOp, Expr, Head, Link, Maybe, Operand, Otherwise,
    Pair, Stmt, Suite, Target, Word, keyword_named,
};
use tx_text::PyText;

/// Whether a block is well formed: the grammar derives it, each part is of the kind that its place names, no name is a
/// keyword, integers are from 0 to 2^127 - 1, `break` and `continue` stand in a `for`, parameters have distinct names, and
/// behind `is` and `is not` stands `None`. Depth is no part of it.
pub fn well_formed(b: &Block) -> bool
    ensures { result ≡ well_formed (block_of b.now) }
{
    match b {
        Block::Def {
            name,
            params,
            comma,
            suite,
            ..
        } => {
            is_name(name)
                && may_end(params.as_slice(), *comma)
                && are_params(params.as_slice())
                && is_derived_suite(suite)
                && is_fine_suite(suite, false)
        }
        Block::Named { name, chain, .. } => is_name(name) && is_fine_chain(chain),
        Block::Alone(chain) => is_fine_chain(chain),
    }
}

// ---- names

fn is_name(name: &PyText) -> bool
    ensures { result ≡ is_name name.now }
{
    match keyword_named(name.as_str()) {
        Some(_) => false,
        None => true,
    }
}

fn are_names(names: &[PyText]) -> bool
    ensures { result ≡ are_names names.now }
{
    for name in names {
        if !is_name(name) {
            return false;
        }
    }
    true
}

fn are_named(words: &[Word]) -> bool
    ensures { result ≡ are_names (texts_of words.now) }
{
    for word in words {
        if !is_name(&word.text) {
            return false;
        }
    }
    true
}

fn is_same(name: &PyText, other: &PyText) -> bool
    ensures { result ≡ same_text name.now other.now }
{
    name.equal(other)
}

fn is_among(name: &PyText, names: &[PyText]) -> bool
    ensures { result ≡ list_any (same_text name.now) names.now }
{
    for other in names {
        if is_same(name, other) {
            return true;
        }
    }
    false
}

fn are_distinct(names: &[PyText]) -> bool
    ensures { result ≡ distinct names.now }
{
    for i in 0..names.len() {
        if is_among(&names[i], &names[i + 1..]) {
            return false;
        }
    }
    true
}

fn are_params(names: &[PyText]) -> bool
    ensures { result ≡ are_params names.now }
{
    are_names(names) && are_distinct(names)
}

// ---- lists with commas

fn has_items<T>(items: &[T]) -> bool
    ensures { result ≡ has_items (amount items.now) }
{
    match items {
        [] => false,
        _ => true,
    }
}

// A comma stands behind the last item only if there is one.
fn may_end<T>(items: &[T], comma: bool) -> bool
    ensures { result ≡ may_end (amount items.now) comma }
{
    match items {
        [] => !comma,
        _ => true,
    }
}

// What a tuple in brackets has: a single item has a comma behind it.
fn makes_tuple<T>(items: &[T], comma: bool) -> bool
    ensures { result ≡ makes_tuple (amount items.now) comma }
{
    match items {
        [] => !comma,
        [_] => comma,
        _ => true,
    }
}

// One item with a comma behind it, or more.
fn is_listed<T>(items: &[T], comma: bool) -> bool
    ensures { result ≡ is_listed (amount items.now) comma }
{
    match items {
        [] => false,
        [_] => comma,
        _ => true,
    }
}

// ---- targets

fn is_derived_target(target: &Target) -> bool
    ensures { result ≡ derived_target target.now }
{
    match target {
        Target::Name(_) => true,
        Target::Names { names, comma } => is_listed(names.as_slice(), *comma),
        Target::Bracketed { names, comma, .. } => is_listed(names.as_slice(), *comma),
    }
}

fn is_target_named(target: &Target) -> bool
    ensures { result ≡ target_is_named target.now }
{
    match target {
        Target::Name(word) => is_name(&word.text),
        Target::Names { names, .. } => are_named(names.as_slice()),
        Target::Bracketed { names, .. } => are_named(names.as_slice()),
    }
}

// ---- the places of the grammar, from the loosest

const AT_TESTS: u8 = 0;

const AT_TEST: u8 = 1;

const AT_OR: u8 = 2;

const AT_AND: u8 = 3;

const AT_NOT: u8 = 4;

const AT_COMPARE: u8 = 5;

const AT_SUM: u8 = 6;

const AT_TERM: u8 = 7;

const AT_UNARY: u8 = 8;

const AT_POSTFIX: u8 = 9;

fn level_of_op(op: BinaryOp) -> u8
    ensures { result ≡ level_of_op op }
{
    match op {
        BinaryOp::Add => AT_SUM,
        BinaryOp::Sub => AT_SUM,
        _ => AT_TERM,
    }
}

fn level(e: &Expr) -> u8
    ensures { result ≡ level (tree_of e.now) }
{
    match e {
        Expr::BareTuple { .. } => AT_TESTS,
        Expr::Conditional { .. } => AT_TEST,
        Expr::Or { .. } => AT_OR,
        Expr::And { .. } => AT_AND,
        Expr::Not { .. } => AT_NOT,
        Expr::Compare { .. } => AT_COMPARE,
        Expr::Binary { op, .. } => level_of_op(*op),
        Expr::Unary { .. } => AT_UNARY,
        _ => AT_POSTFIX,
    }
}

fn fits(place: u8, e: &Expr) -> bool
    ensures { result ≡ fits place (tree_of e.now) }
{
    place <= level(e)
}

fn fits_each(place: u8, items: &[Expr]) -> bool
    ensures { result ≡ fits_each place (trees (map tree_of items.now)) }
{
    for item in items {
        if !fits(place, item) {
            return false;
        }
    }
    true
}

fn fits_pairs(pairs: &[Pair]) -> bool
    ensures { result ≡ fits_pairs (pair_trees (map pair_of pairs.now)) }
{
    for pair in pairs {
        if !fits(AT_TEST, &pair.key) || !fits(AT_TEST, &pair.value) {
            return false;
        }
    }
    true
}

fn fits_operands(others: &[Operand]) -> bool
    ensures { result ≡ fits_operands (operands (map operand_of others.now)) }
{
    for operand in others {
        if !fits(AT_SUM, &operand.right) {
            return false;
        }
    }
    true
}

fn fits_maybe(place: u8, e: &Maybe) -> bool
    ensures { result ≡ fits_maybe place (maybe_of e.now) }
{
    match e {
        Maybe::Absent => true,
        Maybe::Present(inner) => fits(place, inner.get()),
    }
}

// ---- expressions

// The items of a list or the arguments of a call.
#[tactic(auto, using(crate::proofs::Sizes::amount_exprs))]
fn is_list(items: &[Expr], comma: bool) -> bool
    ensures { result ≡ (may_end (amount_of_trees (trees (map tree_of items.now))) comma && fits_each at_test (trees (map tree_of items.now))) }
{
    may_end(items, comma) && fits_each(AT_TEST, items)
}

// The items of a tuple in brackets.
#[tactic(auto, using(crate::proofs::Sizes::amount_exprs))]
fn is_tuple(items: &[Expr], comma: bool) -> bool
    ensures { result ≡ (makes_tuple (amount_of_trees (trees (map tree_of items.now))) comma && fits_each at_test (trees (map tree_of items.now))) }
{
    makes_tuple(items, comma) && fits_each(AT_TEST, items)
}

// The items of a tuple without brackets.
#[tactic(auto, using(crate::proofs::Sizes::amount_exprs))]
fn is_bare_tuple(items: &[Expr], comma: bool) -> bool
    ensures { result ≡ (is_listed (amount_of_trees (trees (map tree_of items.now))) comma && fits_each at_test (trees (map tree_of items.now))) }
{
    is_listed(items, comma) && fits_each(AT_TEST, items)
}

// The operands of `and` or `or` behind the first.
#[tactic(auto, using(crate::proofs::Sizes::amount_exprs))]
fn are_others(place: u8, others: &[Expr]) -> bool
    ensures { result ≡ (has_items (amount_of_trees (trees (map tree_of others.now))) && fits_each place (trees (map tree_of others.now))) }
{
    has_items(others) && fits_each(place, others)
}

#[tactic(auto, using(crate::proofs::Sizes::amount_operands))]
fn are_operands(others: &[Operand]) -> bool
    ensures { result ≡ (has_items (amount_of_operands (operands (map operand_of others.now))) && fits_operands (operands (map operand_of others.now))) }
{
    has_items(others) && fits_operands(others)
}

#[tactic(auto, using(crate::proofs::Sizes::amount_pairs))]
fn is_dict(pairs: &[Pair], comma: bool) -> bool
    ensures { result ≡ (may_end (amount_of_pairs (pair_trees (map pair_of pairs.now))) comma && fits_pairs (pair_trees (map pair_of pairs.now))) }
{
    may_end(pairs, comma) && fits_pairs(pairs)
}

fn is_derived(e: &Expr) -> bool
    ensures { result ≡ derived (tree_of e.now) }
{
    match e {
        Expr::Nil { .. } => true,
        Expr::Truth { .. } => true,
        Expr::Int { .. } => true,
        Expr::Text { .. } => true,
        Expr::Name { .. } => true,
        Expr::Paren { inner, .. } => fits(AT_TEST, inner.get()),
        Expr::Tuple { items, comma, .. } => is_tuple(items.as_slice(), *comma),
        Expr::BareTuple { items, comma, .. } => is_bare_tuple(items.as_slice(), *comma),
        Expr::List { items, comma, .. } => is_list(items.as_slice(), *comma),
        Expr::Dict { pairs, comma, .. } => is_dict(pairs.as_slice(), *comma),
        Expr::Comprehension {
            element,
            target,
            iterable,
            condition,
            ..
        } => {
            fits(AT_TEST, element.get())
                && is_derived_target(target)
                && fits(AT_OR, iterable.get())
                && fits_maybe(AT_OR, condition)
        }
        Expr::Call { args, comma, .. } => is_list(args.as_slice(), *comma),
        Expr::Method {
            receiver,
            args,
            comma,
            ..
        } => fits(AT_POSTFIX, receiver.get()) && is_list(args.as_slice(), *comma),
        Expr::Index { base, at, .. } => fits(AT_POSTFIX, base.get()) && fits(AT_TEST, at.get()),
        Expr::Slice { base, from, to, .. } => {
            fits(AT_POSTFIX, base.get()) && fits_maybe(AT_TEST, from) && fits_maybe(AT_TEST, to)
        }
        _ => is_derived_operation(e),
    }
}

// An expression with an operator.
fn is_derived_operation(e: &Expr) -> bool
    requires { IsTrue (is_operation (tree_of e.now)) }
    ensures { result ≡ derived (tree_of e.now) }
{
    match e {
        Expr::Unary { operand, .. } => fits(AT_UNARY, operand.get()),
        Expr::Binary {
            left,
            op,
            right,
            ..
        } => fits(level_of_op(*op), left.get()) && fits(level_of_op(*op) + 1, right.get()),
        Expr::Compare { first, others, .. } => {
            fits(AT_SUM, first.get()) && are_operands(others.as_slice())
        }
        Expr::Not { operand, .. } => fits(AT_NOT, operand.get()),
        Expr::And { first, others, .. } => {
            fits(AT_NOT, first.get()) && are_others(AT_NOT, others.as_slice())
        }
        Expr::Or { first, others, .. } => {
            fits(AT_AND, first.get()) && are_others(AT_AND, others.as_slice())
        }
        Expr::Conditional {
            then,
            test,
            other,
            ..
        } => fits(AT_OR, then.get()) && fits(AT_OR, test.get()) && fits(AT_TEST, other.get()),
        _ => true,
    }
}

fn has_names(e: &Expr) -> bool
    ensures { result ≡ has_names (tree_of e.now) }
{
    match e {
        Expr::Name { name, .. } => is_name(name),
        Expr::Call { name, .. } => is_name(name),
        Expr::Method { word, .. } => is_name(&word.text),
        Expr::Comprehension { target, .. } => is_target_named(target),
        _ => true,
    }
}

fn is_literal(e: &Expr) -> bool
    ensures { result ≡ is_literal (tree_of e.now) }
{
    match e {
        Expr::Int { value, .. } => *value >= 0,
        _ => true,
    }
}

fn is_identity(op: CompareOp) -> bool
    ensures { result ≡ is_identity op }
{
    match op {
        CompareOp::Is => true,
        CompareOp::IsNot => true,
        _ => false,
    }
}

fn is_nil(e: &Expr) -> bool
    ensures { result ≡ is_nil (tree_of e.now) }
{
    match e {
        Expr::Nil { .. } => true,
        _ => false,
    }
}

fn are_identities_with_none(others: &[Operand]) -> bool
    ensures { result ≡ identities_with_none (operands (map operand_of others.now)) }
{
    for operand in others {
        if is_identity(operand.op) && !is_nil(&operand.right) {
            return false;
        }
    }
    true
}

fn compares_with_none(e: &Expr) -> bool
    ensures { result ≡ compares_with_none (tree_of e.now) }
{
    match e {
        Expr::Compare { others, .. } => are_identities_with_none(others.as_slice()),
        _ => true,
    }
}

fn is_sound(e: &Expr) -> bool
    ensures { result ≡ sound (tree_of e.now) }
{
    is_derived(e) && has_names(e) && is_literal(e) && compares_with_none(e)
}

#[cycle(expression)]
fn is_fine(e: &Expr) -> bool
    ensures { result ≡ fine (tree_of e.now) }
{
    if !is_sound(e) {
        return false;
    }
    match e {
        Expr::Paren { inner, .. } => is_fine(inner.get()),
        Expr::Tuple { items, .. } => are_fine(items.as_slice()),
        Expr::BareTuple { items, .. } => are_fine(items.as_slice()),
        Expr::List { items, .. } => are_fine(items.as_slice()),
        Expr::Dict { pairs, .. } => are_pairs_fine(pairs.as_slice()),
        Expr::Comprehension {
            element,
            iterable,
            condition,
            ..
        } => is_fine(element.get()) && is_fine(iterable.get()) && is_maybe_fine(condition),
        Expr::Call { args, .. } => are_fine(args.as_slice()),
        Expr::Method { receiver, args, .. } => {
            is_fine(receiver.get()) && are_fine(args.as_slice())
        }
        Expr::Index { base, at, .. } => is_fine(base.get()) && is_fine(at.get()),
        Expr::Slice { base, from, to, .. } => {
            is_fine(base.get()) && is_maybe_fine(from) && is_maybe_fine(to)
        }
        Expr::Unary { operand, .. } => is_fine(operand.get()),
        Expr::Binary { left, right, .. } => is_fine(left.get()) && is_fine(right.get()),
        Expr::Compare { first, others, .. } => {
            is_fine(first.get()) && are_operands_fine(others.as_slice())
        }
        Expr::Not { operand, .. } => is_fine(operand.get()),
        Expr::And { first, others, .. } => is_fine(first.get()) && are_fine(others.as_slice()),
        Expr::Or { first, others, .. } => is_fine(first.get()) && are_fine(others.as_slice()),
        Expr::Conditional {
            then,
            test,
            other,
            ..
        } => is_fine(then.get()) && is_fine(test.get()) && is_fine(other.get()),
        _ => true,
    }
}

#[cycle(expression)]
fn are_fine(items: &[Expr]) -> bool
    ensures { result ≡ fine_each (trees (map tree_of items.now)) }
{
    for item in items {
        if !is_fine(item) {
            return false;
        }
    }
    true
}

#[cycle(expression)]
fn are_pairs_fine(pairs: &[Pair]) -> bool
    ensures { result ≡ fine_pairs (pair_trees (map pair_of pairs.now)) }
{
    for pair in pairs {
        if !is_fine(&pair.key) || !is_fine(&pair.value) {
            return false;
        }
    }
    true
}

#[cycle(expression)]
fn are_operands_fine(others: &[Operand]) -> bool
    ensures { result ≡ fine_operands (operands (map operand_of others.now)) }
{
    for operand in others {
        if !is_fine(&operand.right) {
            return false;
        }
    }
    true
}

#[cycle(expression)]
fn is_maybe_fine(e: &Maybe) -> bool
    ensures { result ≡ fine_maybe (maybe_of e.now) }
{
    match e {
        Maybe::Absent => true,
        Maybe::Present(inner) => is_fine(inner.get()),
    }
}

// ---- statements

fn is_simple(statement: &Stmt) -> bool
    ensures { result ≡ is_simple (statement_of statement.now) }
{
    match statement {
        Stmt::If { .. } => false,
        Stmt::For { .. } => false,
        _ => true,
    }
}

#[tactic(auto, using(crate::proofs::Sizes::amount_statements))]
fn is_derived_suite(suite: &Suite) -> bool
    ensures { result ≡ derived_body (body_of suite.now) }
{
    match suite {
        Suite::Line(statement) => is_simple(statement.get()),
        Suite::Indented(statements) => has_items(statements.as_slice()),
    }
}

fn are_derived_arms(arms: &[Arm]) -> bool
    ensures { result ≡ derived_tail (tail (map arm_of arms.now) nothing) }
{
    for arm in arms {
        if !fits(AT_TEST, &arm.test) || !is_derived_suite(&arm.suite) {
            return false;
        }
    }
    true
}

fn is_derived_otherwise(otherwise: &Otherwise) -> bool
    ensures { result ≡ derived_tail (otherwise_of otherwise.now) }
{
    match otherwise {
        Otherwise::Absent => true,
        Otherwise::Present(suite) => is_derived_suite(suite),
    }
}

#[tactic(auto, using(crate::proofs::Tails::if_tree, crate::proofs::Tails::derived_arms))]
fn is_derived_stmt(statement: &Stmt) -> bool
    ensures { result ≡ derived_statement (statement_of statement.now) }
{
    match statement {
        Stmt::Return { value, .. } => fits_maybe(AT_TESTS, value),
        Stmt::Assign { target, value, .. } => is_derived_target(target) && fits(AT_TESTS, value),
        Stmt::Augment { value, .. } => fits(AT_TEST, value),
        Stmt::Express { value, .. } => fits(AT_TEST, value),
        Stmt::If {
            test,
            suite,
            arms,
            otherwise,
            ..
        } => {
            fits(AT_TEST, test)
                && is_derived_suite(suite)
                && are_derived_arms(arms.as_slice())
                && is_derived_otherwise(otherwise)
        }
        Stmt::For {
            target,
            iterable,
            suite,
            ..
        } => is_derived_target(target) && fits(AT_TEST, iterable) && is_derived_suite(suite),
        _ => true,
    }
}

fn stmt_has_names(statement: &Stmt) -> bool
    ensures { result ≡ statement_has_names (statement_of statement.now) }
{
    match statement {
        Stmt::Assign { target, .. } => is_target_named(target),
        Stmt::Augment { name, .. } => is_name(name),
        Stmt::For { target, .. } => is_target_named(target),
        _ => true,
    }
}

fn is_in_loop(statement: &Stmt, looped: bool) -> bool
    ensures { result ≡ is_in_loop looped (statement_of statement.now) }
{
    match statement {
        Stmt::Break { .. } => looped,
        Stmt::Continue { .. } => looped,
        _ => true,
    }
}

fn is_sound_stmt(statement: &Stmt, looped: bool) -> bool
    ensures { result ≡ sound_statement looped (statement_of statement.now) }
{
    is_derived_stmt(statement) && stmt_has_names(statement) && is_in_loop(statement, looped)
}

#[tactic(auto, using(crate::proofs::Tails::if_tree, crate::proofs::Tails::fine_arms))]
#[cycle(statement)]
fn is_fine_stmt(statement: &Stmt, looped: bool) -> bool
    ensures { result ≡ fine_statement looped (statement_of statement.now) }
{
    if !is_sound_stmt(statement, looped) {
        return false;
    }
    match statement {
        Stmt::Return { value, .. } => is_maybe_fine(value),
        Stmt::Assign { value, .. } => is_fine(value),
        Stmt::Augment { value, .. } => is_fine(value),
        Stmt::Express { value, .. } => is_fine(value),
        Stmt::If {
            test,
            suite,
            arms,
            otherwise,
            ..
        } => {
            is_fine(test)
                && is_fine_suite(suite, looped)
                && are_fine_arms(arms.as_slice(), looped)
                && is_fine_otherwise(otherwise, looped)
        }
        Stmt::For {
            iterable,
            suite,
            ..
        } => is_fine(iterable) && is_fine_suite(suite, true),
        _ => true,
    }
}

#[cycle(statement)]
fn is_fine_suite(suite: &Suite, looped: bool) -> bool
    ensures { result ≡ fine_body looped (body_of suite.now) }
{
    match suite {
        Suite::Line(statement) => is_fine_stmt(statement.get(), looped),
        Suite::Indented(statements) => are_fine_stmts(statements.as_slice(), looped),
    }
}

#[cycle(statement)]
fn are_fine_stmts(body: &[Stmt], looped: bool) -> bool
    ensures { result ≡ fine_statements looped (statements (map statement_of body.now)) }
{
    for statement in body {
        if !is_fine_stmt(statement, looped) {
            return false;
        }
    }
    true
}

#[cycle(statement)]
fn are_fine_arms(arms: &[Arm], looped: bool) -> bool
    ensures { result ≡ fine_tail looped (tail (map arm_of arms.now) nothing) }
{
    for arm in arms {
        if !is_fine(&arm.test) || !is_fine_suite(&arm.suite, looped) {
            return false;
        }
    }
    true
}

#[cycle(statement)]
fn is_fine_otherwise(otherwise: &Otherwise, looped: bool) -> bool
    ensures { result ≡ fine_tail looped (otherwise_of otherwise.now) }
{
    match otherwise {
        Otherwise::Absent => true,
        Otherwise::Present(suite) => is_fine_suite(suite, looped),
    }
}

// ---- chains

fn is_fine_arg(arg: &Arg) -> bool
    ensures { result ≡ fine_arg (arg_of arg.now) }
{
    match arg {
        Arg::Lambda { params, body, .. } => {
            are_params(params.as_slice()) && fits(AT_TEST, body) && is_fine(body)
        }
        Arg::Plain(value) => fits(AT_TEST, value) && is_fine(value),
    }
}

fn are_fine_arg_list(args: &[Arg]) -> bool
    ensures { result ≡ list_all fine_arg (map arg_of args.now) }
{
    for arg in args {
        if !is_fine_arg(arg) {
            return false;
        }
    }
    true
}

#[tactic(auto, using(crate::proofs::Sizes::amount_args))]
fn are_fine_args(args: &Args) -> bool
    ensures { result ≡ fine_args (args_of args.now) }
{
    may_end(args.items.as_slice(), args.comma) && are_fine_arg_list(args.items.as_slice())
}

fn is_fine_head(head: &Head) -> bool
    ensures { result ≡ fine_head (head_of head.now) }
{
    is_name(&head.word.text)
        && match &head.args {
            Some(args) => are_fine_args(args),
            None => true,
        }
}

fn are_fine_links(links: &[Link]) -> bool
    ensures { result ≡ list_all fine_link (map link_of links.now) }
{
    for link in links {
        if !is_name(&link.word.text) || !are_fine_args(&link.args) {
            return false;
        }
    }
    true
}

fn is_fine_chain(chain: &Chain) -> bool
    ensures { result ≡ fine_chain (chain_of chain.now) }
{
    is_fine_head(&chain.head) && are_fine_links(chain.links.as_slice())
}
