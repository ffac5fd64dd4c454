// Trees in a notation of plain text, read word by word: a word takes its parts from the ends of the lists of what was
// read, and puts its node at an end. Its first letter or sign says what it is, names stand behind `:`, a number of parts
// behind `/`, and a comma at its end stands behind the last item. Where the letters of a word do not say it:
// `$a` is a name, `#7` an integer, `"t` a text; `(` brackets, `@` an index, `:` a slice, `n` and `p` the signs before a
// number, `~` the division, `=` comparisons, `?` a conditional; `v` a value as an argument, `^` a lambda, `.` an operator
// of a chain, `u` the head that is a name alone; `w` a chain as the whole block, `k` one that a name keeps.
// Parts are taken from the last one on, so fields are written in that order.
use sqlite_items::Boxed;
use std::alloc::Global;
use std::process::Abort;
use tx_text::{PyText, Sequence, Texts};
use tx_tree::{
    Arg, Args, Arm, BinaryOp, Block, Chain, CompareOp, Expr, Exprs, Head, Link, Links, Maybe,
    Operand, Otherwise, Pair, Stmt, Suite, Target, UnaryOp, Word, Words,
};

/// The statements that were read and not taken yet, and what they consist of.
#[derive(Drop)]
pub struct Bodies {
    stmts: Vec<Stmt>,
    suites: Vec<Suite>,
    arms: Vec<Arm>,
    otherwise: Vec<Otherwise>,
}

/// Of chains.
#[derive(Drop)]
pub struct Chains {
    args: Vec<Arg>,
    heads: Vec<Head>,
    links: Vec<Link>,
}

/// What was read and not taken yet.
#[derive(Drop)]
pub struct Parts {
    exprs: Vec<Expr>,
    bodies: Bodies,
    chains: Chains,
    pub blocks: Vec<Block>,
}

/// A word taken apart.
#[derive(Clone, Copy)]
struct Sign<'a> {
    sign: char,
    names: &'a str,
    count: usize,
    comma: bool,
}

pub fn no_parts(alloc: Global) -> Parts {
    Parts {
        exprs: Vec::new(alloc),
        bodies: Bodies {
            stmts: Vec::new(alloc),
            suites: Vec::new(alloc),
            arms: Vec::new(alloc),
            otherwise: Vec::new(alloc),
        },
        chains: Chains {
            args: Vec::new(alloc),
            heads: Vec::new(alloc),
            links: Vec::new(alloc),
        },
        blocks: Vec::new(alloc),
    }
}

fn put<T: Drop>(rt: &impl Abort, alloc: Global, items: &mut Vec<T>, item: T) {
    items.push(item).expect(rt, "memory");
}

// The last items of a list, in their order.
fn last<T: Drop>(rt: &impl Abort, alloc: Global, items: &mut Vec<T>, count: usize) -> Sequence<T> {
    let mut out = Vec::new(alloc);
    for _ in 0..count {
        if let Some(item) = items.pop() {
            put(rt, alloc, &mut out, item);
        }
    }
    out.reverse();
    Sequence::from_vec(out)
}

fn last_expr(exprs: &mut Vec<Expr>) -> Expr {
    exprs.pop().unwrap_or(Expr::Nil { line: 0 })
}

fn part(rt: &impl Abort, alloc: Global, exprs: &mut Vec<Expr>) -> Boxed<Expr> {
    Boxed::new(alloc, last_expr(exprs)).expect(rt, "memory")
}

fn maybe_of(rt: &impl Abort, alloc: Global, exprs: &mut Vec<Expr>, is_there: bool) -> Maybe {
    if is_there {
        Maybe::Present(part(rt, alloc, exprs))
    } else {
        Maybe::Absent
    }
}

fn last_suite(alloc: Global, suites: &mut Vec<Suite>) -> Suite {
    suites
        .pop()
        .unwrap_or(Suite::Indented(Sequence::new(alloc)))
}

// ---- names

fn text_of(rt: &impl Abort, alloc: Global, name: &str) -> PyText {
    PyText::from_str(alloc, name).expect(rt, "memory")
}

fn word_of(rt: &impl Abort, alloc: Global, name: &str) -> Word {
    Word {
        line: 1,
        text: text_of(rt, alloc, name),
    }
}

fn words_of(rt: &impl Abort, alloc: Global, names: &str) -> Words {
    let mut out = Sequence::new(alloc);
    for name in names.split('+') {
        if !name.is_empty() {
            out.push(word_of(rt, alloc, name)).expect(rt, "memory");
        }
    }
    out
}

fn texts_of(rt: &impl Abort, alloc: Global, names: &str) -> Texts {
    let mut out = Sequence::new(alloc);
    for name in names.split('+') {
        if !name.is_empty() {
            out.push(text_of(rt, alloc, name)).expect(rt, "memory");
        }
    }
    out
}

// `x` a name, `x+y` names, `(x+y` names in brackets.
fn target_of(rt: &impl Abort, alloc: Global, names: &str, comma: bool) -> Target {
    if names.starts_with('(') {
        Target::Bracketed {
            line: 1,
            names: words_of(rt, alloc, names.strip_prefix('(').unwrap_or("")),
            comma,
        }
    } else if comma || names.contains('+') {
        Target::Names {
            names: words_of(rt, alloc, names),
            comma,
        }
    } else {
        Target::Name(word_of(rt, alloc, names))
    }
}

// Without its first sign.
fn behind<'a>(names: &'a str, sign: char) -> &'a str {
    names.strip_prefix(sign).unwrap_or("")
}

// ---- operators

pub fn binary_op(sign: char) -> BinaryOp {
    match sign {
        '+' => BinaryOp::Add,
        '-' => BinaryOp::Sub,
        '*' => BinaryOp::Mul,
        '~' => BinaryOp::FloorDiv,
        _ => BinaryOp::Mod,
    }
}

pub fn unary_op(sign: char) -> UnaryOp {
    match sign {
        'n' => UnaryOp::Minus,
        _ => UnaryOp::Plus,
    }
}

// `n` stands for `not in`, `g` for `>=`, `l` for `<=`, `s` for `is`, `t` for `is not`.
pub fn compare_op(sign: char) -> CompareOp {
    match sign {
        '=' => CompareOp::Equal,
        '!' => CompareOp::NotEqual,
        '<' => CompareOp::Less,
        'l' => CompareOp::LessEqual,
        '>' => CompareOp::Greater,
        'g' => CompareOp::GreaterEqual,
        'i' => CompareOp::In,
        'n' => CompareOp::NotIn,
        's' => CompareOp::Is,
        _ => CompareOp::IsNot,
    }
}

// ---- expressions

fn pairs(rt: &impl Abort, alloc: Global, exprs: &mut Vec<Expr>, count: usize) -> Vec<Pair> {
    let mut out = Vec::new(alloc);
    for _ in 0..count {
        let value = last_expr(exprs);
        let key = last_expr(exprs);
        put(rt, alloc, &mut out, Pair { key, value });
    }
    out.reverse();
    out
}

fn operands(rt: &impl Abort, alloc: Global, exprs: &mut Vec<Expr>, signs: &str) -> Vec<Operand> {
    let mut out = Vec::new(alloc);
    for sign in signs.chars().rev() {
        let right = last_expr(exprs);
        let op = compare_op(sign);
        put(rt, alloc, &mut out, Operand { op, right });
    }
    out.reverse();
    out
}

fn atom(rt: &impl Abort, alloc: Global, it: Sign<'_>) -> Expr {
    let line = 1;
    match it.sign {
        'N' => Expr::Nil { line },
        'T' => Expr::Truth { line, value: true },
        'F' => Expr::Truth { line, value: false },
        '$' => Expr::Name {
            line,
            name: text_of(rt, alloc, behind(it.names, '$')),
        },
        '"' => Expr::Text {
            line,
            value: text_of(rt, alloc, behind(it.names, '"')),
        },
        _ => Expr::Int {
            line,
            value: behind(it.names, '#').parse::<i128>().unwrap_or(0),
        },
    }
}

fn of_items(sign: char, items: Exprs, comma: bool) -> Expr {
    let line = 1;
    match sign {
        '[' => Expr::List { line, items, comma },
        't' => Expr::Tuple { line, items, comma },
        _ => Expr::BareTuple { line, items, comma },
    }
}

fn comprehension(rt: &impl Abort, alloc: Global, exprs: &mut Vec<Expr>, it: Sign<'_>) -> Expr {
    Expr::Comprehension {
        line: 1,
        condition: maybe_of(rt, alloc, exprs, it.count == 1),
        iterable: part(rt, alloc, exprs),
        element: part(rt, alloc, exprs),
        target: target_of(rt, alloc, it.names, it.comma),
    }
}

fn called(rt: &impl Abort, alloc: Global, exprs: &mut Vec<Expr>, it: Sign<'_>) -> Expr {
    let (line, comma) = (1, it.comma);
    let args = last(rt, alloc, exprs, it.count);
    if it.sign == 'c' {
        Expr::Call {
            line,
            name: text_of(rt, alloc, it.names),
            args,
            comma,
        }
    } else {
        Expr::Method {
            line,
            receiver: part(rt, alloc, exprs),
            word: word_of(rt, alloc, it.names),
            args,
            comma,
        }
    }
}

// A slice: 1 where it begins somewhere, 2 where it ends somewhere, 3 for both.
fn slice(rt: &impl Abort, alloc: Global, exprs: &mut Vec<Expr>, count: usize) -> Expr {
    Expr::Slice {
        line: 1,
        to: maybe_of(rt, alloc, exprs, count >= 2),
        from: maybe_of(rt, alloc, exprs, count == 1 || count == 3),
        base: part(rt, alloc, exprs),
    }
}

fn of_one(rt: &impl Abort, alloc: Global, exprs: &mut Vec<Expr>, sign: char) -> Expr {
    let line = 1;
    let operand = part(rt, alloc, exprs);
    match sign {
        '(' => Expr::Paren {
            line,
            inner: operand,
        },
        '!' => Expr::Not { line, operand },
        _ => Expr::Unary {
            line,
            op: unary_op(sign),
            operand,
        },
    }
}

fn of_two(rt: &impl Abort, alloc: Global, exprs: &mut Vec<Expr>, sign: char) -> Expr {
    let line = 1;
    let right = part(rt, alloc, exprs);
    let left = part(rt, alloc, exprs);
    if sign == '@' {
        Expr::Index {
            line,
            base: left,
            at: right,
        }
    } else {
        Expr::Binary {
            line,
            left,
            op: binary_op(sign),
            right,
        }
    }
}

fn of_others(rt: &impl Abort, alloc: Global, exprs: &mut Vec<Expr>, it: Sign<'_>) -> Expr {
    let line = 1;
    let others = last(rt, alloc, exprs, it.count);
    let first = part(rt, alloc, exprs);
    if it.sign == '&' {
        Expr::And {
            line,
            first,
            others,
        }
    } else {
        Expr::Or {
            line,
            first,
            others,
        }
    }
}

fn compare(rt: &impl Abort, alloc: Global, exprs: &mut Vec<Expr>, signs: &str) -> Expr {
    Expr::Compare {
        line: 1,
        others: Sequence::from_vec(operands(rt, alloc, exprs, signs)),
        first: part(rt, alloc, exprs),
    }
}

fn conditional(rt: &impl Abort, alloc: Global, exprs: &mut Vec<Expr>) -> Expr {
    Expr::Conditional {
        line: 1,
        other: part(rt, alloc, exprs),
        test: part(rt, alloc, exprs),
        then: part(rt, alloc, exprs),
    }
}

fn dict(rt: &impl Abort, alloc: Global, exprs: &mut Vec<Expr>, it: Sign<'_>) -> Expr {
    Expr::Dict {
        line: 1,
        pairs: Sequence::from_vec(pairs(rt, alloc, exprs, it.count / 2)),
        comma: it.comma,
    }
}

fn expression(rt: &impl Abort, alloc: Global, exprs: &mut Vec<Expr>, it: Sign<'_>) -> Expr {
    match it.sign {
        'N' | 'T' | 'F' | '$' | '"' | '#' => atom(rt, alloc, it),
        '(' | '!' | 'n' | 'p' => of_one(rt, alloc, exprs, it.sign),
        '[' | 't' | 'b' => of_items(it.sign, last(rt, alloc, exprs, it.count), it.comma),
        '{' => dict(rt, alloc, exprs, it),
        'g' => comprehension(rt, alloc, exprs, it),
        'c' | 'm' => called(rt, alloc, exprs, it),
        ':' => slice(rt, alloc, exprs, it.count),
        '=' => compare(rt, alloc, exprs, it.names),
        '&' | '|' => of_others(rt, alloc, exprs, it),
        '?' => conditional(rt, alloc, exprs),
        _ => of_two(rt, alloc, exprs, it.sign),
    }
}

// ---- statements

fn plain(sign: char) -> Stmt {
    let line = 1;
    match sign {
        'P' => Stmt::Pass { line },
        'B' => Stmt::Break { line },
        _ => Stmt::Continue { line },
    }
}

// The operator stands before the name.
fn update(rt: &impl Abort, alloc: Global, exprs: &mut Vec<Expr>, names: &str) -> Stmt {
    let sign = names.chars().next().unwrap_or(' ');
    Stmt::Augment {
        line: 1,
        name: text_of(rt, alloc, behind(names, sign)),
        op: binary_op(sign),
        value: last_expr(exprs),
    }
}

fn simple(rt: &impl Abort, alloc: Global, exprs: &mut Vec<Expr>, it: Sign<'_>) -> Stmt {
    let line = 1;
    match it.sign {
        'E' => Stmt::Express {
            line,
            value: last_expr(exprs),
        },
        'R' => Stmt::Return {
            line,
            value: maybe_of(rt, alloc, exprs, it.count == 1),
        },
        'A' => Stmt::Assign {
            line,
            target: target_of(rt, alloc, it.names, it.comma),
            value: last_expr(exprs),
        },
        'U' => update(rt, alloc, exprs, it.names),
        _ => plain(it.sign),
    }
}

fn branch(
    rt: &impl Abort,
    alloc: Global,
    exprs: &mut Vec<Expr>,
    bodies: &mut Bodies,
    count: usize,
) -> Stmt {
    Stmt::If {
        line: 1,
        test: last_expr(exprs),
        suite: last_suite(alloc, &mut bodies.suites),
        arms: last(rt, alloc, &mut bodies.arms, count),
        otherwise: bodies.otherwise.pop().unwrap_or(Otherwise::Absent),
    }
}

fn repeat(
    rt: &impl Abort,
    alloc: Global,
    exprs: &mut Vec<Expr>,
    suites: &mut Vec<Suite>,
    it: Sign<'_>,
) -> Stmt {
    Stmt::For {
        line: 1,
        target: target_of(rt, alloc, it.names, it.comma),
        iterable: last_expr(exprs),
        suite: last_suite(alloc, suites),
    }
}

fn line(rt: &impl Abort, alloc: Global, stmts: &mut Vec<Stmt>) -> Suite {
    let statement = stmts.pop().unwrap_or(Stmt::Pass { line: 0 });
    Suite::Line(Boxed::new(alloc, statement).expect(rt, "memory"))
}

fn arm_of(rt: &impl Abort, alloc: Global, exprs: &mut Vec<Expr>, suites: &mut Vec<Suite>) -> Arm {
    Arm {
        test: last_expr(exprs),
        suite: last_suite(alloc, suites),
    }
}

fn read_body(
    rt: &impl Abort,
    alloc: Global,
    exprs: &mut Vec<Expr>,
    bodies: &mut Bodies,
    it: Sign<'_>,
) {
    match it.sign {
        'i' => {
            let made = branch(rt, alloc, exprs, bodies, it.count);
            put(rt, alloc, &mut bodies.stmts, made);
        }
        'f' => {
            let made = repeat(rt, alloc, exprs, &mut bodies.suites, it);
            put(rt, alloc, &mut bodies.stmts, made);
        }
        'l' => {
            let made = line(rt, alloc, &mut bodies.stmts);
            put(rt, alloc, &mut bodies.suites, made);
        }
        's' => {
            let made = last(rt, alloc, &mut bodies.stmts, it.count);
            put(rt, alloc, &mut bodies.suites, Suite::Indented(made));
        }
        'e' => {
            let made = arm_of(rt, alloc, exprs, &mut bodies.suites);
            put(rt, alloc, &mut bodies.arms, made);
        }
        'o' => {
            let made = last_suite(alloc, &mut bodies.suites);
            put(rt, alloc, &mut bodies.otherwise, Otherwise::Present(made));
        }
        _ => put(rt, alloc, &mut bodies.stmts, simple(rt, alloc, exprs, it)),
    }
}

// ---- chains

fn arguments(rt: &impl Abort, alloc: Global, args: &mut Vec<Arg>, it: Sign<'_>) -> Args {
    Args {
        items: last(rt, alloc, args, it.count),
        comma: it.comma,
    }
}

fn lambda(rt: &impl Abort, alloc: Global, exprs: &mut Vec<Expr>, names: &str) -> Arg {
    Arg::Lambda {
        line: 1,
        params: texts_of(rt, alloc, names),
        body: last_expr(exprs),
    }
}

fn head_of(rt: &impl Abort, alloc: Global, args: &mut Vec<Arg>, it: Sign<'_>) -> Head {
    Head {
        word: word_of(rt, alloc, it.names),
        args: if it.sign == 'h' {
            Some(arguments(rt, alloc, args, it))
        } else {
            None
        },
    }
}

fn link_of(rt: &impl Abort, alloc: Global, args: &mut Vec<Arg>, it: Sign<'_>) -> Link {
    Link {
        line: 1,
        word: word_of(rt, alloc, it.names),
        args: arguments(rt, alloc, args, it),
    }
}

fn read_chain(
    rt: &impl Abort,
    alloc: Global,
    exprs: &mut Vec<Expr>,
    chains: &mut Chains,
    it: Sign<'_>,
) {
    match it.sign {
        'v' => put(rt, alloc, &mut chains.args, Arg::Plain(last_expr(exprs))),
        '^' => put(
            rt,
            alloc,
            &mut chains.args,
            lambda(rt, alloc, exprs, it.names),
        ),
        '.' => {
            let made = link_of(rt, alloc, &mut chains.args, it);
            put(rt, alloc, &mut chains.links, made);
        }
        _ => {
            let made = head_of(rt, alloc, &mut chains.args, it);
            put(rt, alloc, &mut chains.heads, made);
        }
    }
}

fn last_head(rt: &impl Abort, alloc: Global, heads: &mut Vec<Head>) -> Head {
    match heads.pop() {
        Some(head) => head,
        None => Head {
            word: word_of(rt, alloc, ""),
            args: None,
        },
    }
}

fn all_links(rt: &impl Abort, alloc: Global, links: &mut Vec<Link>) -> Links {
    let count = links.len();
    last(rt, alloc, links, count)
}

// 1 where it stands in brackets.
fn chain_of(rt: &impl Abort, alloc: Global, chains: &mut Chains, count: usize) -> Chain {
    Chain {
        line: 1,
        in_brackets: count == 1,
        head: last_head(rt, alloc, &mut chains.heads),
        links: all_links(rt, alloc, &mut chains.links),
    }
}

// ---- blocks

// The first name is the function's, the others its parameters.
fn definition(rt: &impl Abort, alloc: Global, suites: &mut Vec<Suite>, it: Sign<'_>) -> Block {
    let (name, params) = it.names.split_once('+').unwrap_or((it.names, ""));
    Block::Def {
        line: 1,
        name: text_of(rt, alloc, name),
        params: texts_of(rt, alloc, params),
        comma: it.comma,
        suite: last_suite(alloc, suites),
    }
}

fn kept(rt: &impl Abort, alloc: Global, chains: &mut Chains, it: Sign<'_>) -> Block {
    Block::Named {
        line: 1,
        name: text_of(rt, alloc, it.names),
        chain: chain_of(rt, alloc, chains, it.count),
    }
}

fn read_sign(rt: &impl Abort, alloc: Global, parts: &mut Parts, it: Sign<'_>) {
    match it.sign {
        'P' | 'B' | 'C' | 'E' | 'R' | 'A' | 'U' | 'i' | 'f' | 'l' | 's' | 'e' | 'o' => {
            read_body(rt, alloc, &mut parts.exprs, &mut parts.bodies, it)
        }
        'v' | '^' | '.' | 'h' | 'u' => {
            read_chain(rt, alloc, &mut parts.exprs, &mut parts.chains, it)
        }
        'd' => {
            let made = definition(rt, alloc, &mut parts.bodies.suites, it);
            put(rt, alloc, &mut parts.blocks, made);
        }
        'w' => {
            let made = chain_of(rt, alloc, &mut parts.chains, it.count);
            put(rt, alloc, &mut parts.blocks, Block::Alone(made));
        }
        'k' => {
            let made = kept(rt, alloc, &mut parts.chains, it);
            put(rt, alloc, &mut parts.blocks, made);
        }
        _ => {
            let made = expression(rt, alloc, &mut parts.exprs, it);
            put(rt, alloc, &mut parts.exprs, made);
        }
    }
}

fn sign_of<'a>(word: &'a str) -> Sign<'a> {
    let (front, number) = word.split_once('/').unwrap_or((word, ""));
    let (_, names) = front.split_once(':').unwrap_or((front, front));
    let count = number.strip_suffix(',').unwrap_or(number);
    Sign {
        sign: word.chars().next().unwrap_or(' '),
        names,
        count: count.parse::<usize>().unwrap_or(0),
        comma: number.ends_with(','),
    }
}

/// Reads each word in turn.
pub fn read(rt: &impl Abort, alloc: Global, parts: &mut Parts, words: &str) {
    for word in words.split(' ') {
        if !word.is_empty() {
            read_sign(rt, alloc, parts, sign_of(word));
        }
    }
}
