// Trees in plain text: a node stands in brackets, behind its word and its line; a leaf is what it holds, and its line. A
// comma behind the word says that one stands behind the last item. A suite on its own line stands behind a colon, an
// indented one in braces; names in brackets stand in round ones.
use std::alloc::AllocError;
use std::fmt::Write;
use tx_tree::{
    Arg, Args, Block, Chain, Expr, Head, Link, Maybe, Operand, Otherwise, Pair, Stmt, Suite,
    Target, Word,
};

type Written = Result<(), AllocError>;

pub(super) fn show_block(block: &Block, out: &mut String) -> Written {
    match block {
        Block::Def {
            line,
            name,
            params,
            comma,
            suite,
        } => {
            let name = name.as_str();
            let mark = comma_mark(*comma);
            write!(out, "(def{mark}@{line} {name} [")?;
            for param in params.as_slice() {
                let param = param.as_str();
                write!(out, "{param} ")?;
            }
            out.push_str("] ")?;
            show_suite(suite, out)?;
        }
        Block::Named { line, name, chain } => {
            let name = name.as_str();
            write!(out, "(named@{line} {name} ")?;
            show_chain(chain, out)?;
        }
        Block::Alone(chain) => {
            let line = chain.line;
            write!(out, "(alone@{line} ")?;
            show_chain(chain, out)?;
        }
    }
    out.push_str(")")
}

// What says that a comma stands behind the last item.
fn comma_mark(comma: bool) -> &'static str {
    if comma { "," } else { "" }
}

fn show_chain(chain: &Chain, out: &mut String) -> Written {
    if chain.in_brackets {
        out.push_str("in brackets ")?;
    }
    show_head(&chain.head, out)?;
    for link in chain.links.as_slice() {
        show_link(link, out)?;
    }
    Ok(())
}

fn show_head(head: &Head, out: &mut String) -> Written {
    out.push_str("(")?;
    show_word(&head.word, out)?;
    match &head.args {
        Some(args) => show_args(args, out)?,
        None => {}
    }
    out.push_str(")")
}

fn show_link(link: &Link, out: &mut String) -> Written {
    out.push_str(" (")?;
    show_word(&link.word, out)?;
    show_args(&link.args, out)?;
    out.push_str(")")
}

fn show_args(args: &Args, out: &mut String) -> Written {
    let mark = comma_mark(args.comma);
    write!(out, "{mark} [")?;
    for arg in args.items.as_slice() {
        show_arg(arg, out)?;
        out.push_str(" ")?;
    }
    out.push_str("]")
}

fn show_arg(arg: &Arg, out: &mut String) -> Written {
    match arg {
        Arg::Lambda { line, params, body } => {
            write!(out, "(lambda@{line} [")?;
            for param in params.as_slice() {
                let param = param.as_str();
                write!(out, "{param} ")?;
            }
            out.push_str("] ")?;
            show(body, out)?;
            out.push_str(")")
        }
        Arg::Plain(e) => show(e, out),
    }
}

fn show_word(word: &Word, out: &mut String) -> Written {
    let text = word.text.as_str();
    let line = word.line;
    write!(out, "{text}@{line}")
}

fn show_words(words: &[Word], comma: bool, out: &mut String) -> Written {
    for word in words {
        show_word(word, out)?;
        out.push_str(" ")?;
    }
    out.push_str(comma_mark(comma))
}

fn show_target(target: &Target, out: &mut String) -> Written {
    match target {
        Target::Name(word) => show_word(word, out),
        Target::Names { names, comma } => {
            out.push_str("[")?;
            show_words(names.as_slice(), *comma, out)?;
            out.push_str("]")
        }
        Target::Bracketed { line, names, comma } => {
            write!(out, "(target@{line} ")?;
            show_words(names.as_slice(), *comma, out)?;
            out.push_str(")")
        }
    }
}

#[cycle(show_stmt)]
fn show_suite(suite: &Suite, out: &mut String) -> Written {
    match suite {
        Suite::Line(statement) => {
            out.push_str(": ")?;
            show_stmt(statement.get(), out)
        }
        Suite::Indented(statements) => {
            out.push_str("{ ")?;
            for statement in statements.as_slice() {
                show_stmt(statement, out)?;
                out.push_str(" ")?;
            }
            out.push_str("}")
        }
    }
}

#[cycle(show_stmt)]
fn show_stmt(statement: &Stmt, out: &mut String) -> Written {
    match statement {
        Stmt::Pass { line } => write!(out, "(pass@{line})"),
        Stmt::Break { line } => write!(out, "(break@{line})"),
        Stmt::Continue { line } => write!(out, "(continue@{line})"),
        Stmt::Return { line, value } => {
            write!(out, "(return@{line} ")?;
            show_maybe(value, out)?;
            out.push_str(")")
        }
        Stmt::Assign {
            line,
            target,
            value,
        } => {
            write!(out, "(assign@{line} ")?;
            show_target(target, out)?;
            out.push_str(" ")?;
            show(value, out)?;
            out.push_str(")")
        }
        Stmt::Augment {
            line,
            name,
            op,
            value,
        } => {
            let name = name.as_str();
            let op = op.word();
            write!(out, "(augment@{line} {name} {op} ")?;
            show(value, out)?;
            out.push_str(")")
        }
        Stmt::Express { line, value } => {
            write!(out, "(express@{line} ")?;
            show(value, out)?;
            out.push_str(")")
        }
        Stmt::If {
            line,
            test,
            suite,
            arms,
            otherwise,
        } => {
            write!(out, "(if@{line} ")?;
            show(test, out)?;
            out.push_str(" ")?;
            show_suite(suite, out)?;
            for arm in arms.as_slice() {
                out.push_str(" ")?;
                show(&arm.test, out)?;
                out.push_str(" ")?;
                show_suite(&arm.suite, out)?;
            }
            match otherwise {
                Otherwise::Present(suite) => {
                    out.push_str(" else ")?;
                    show_suite(suite, out)?;
                }
                Otherwise::Absent => {}
            }
            out.push_str(")")
        }
        Stmt::For {
            line,
            target,
            iterable,
            suite,
        } => {
            write!(out, "(for@{line} ")?;
            show_target(target, out)?;
            out.push_str(" ")?;
            show(iterable, out)?;
            out.push_str(" ")?;
            show_suite(suite, out)?;
            out.push_str(")")
        }
    }
}

#[cycle(show)]
fn show_maybe(maybe: &Maybe, out: &mut String) -> Written {
    match maybe {
        Maybe::Absent => out.push_str("_"),
        Maybe::Present(e) => show(e.get(), out),
    }
}

#[cycle(show)]
fn show_all(items: &[Expr], out: &mut String) -> Written {
    for item in items {
        out.push_str(" ")?;
        show(item, out)?;
    }
    out.push_str(")")
}

#[cycle(show)]
fn show_pairs(pairs: &[Pair], out: &mut String) -> Written {
    for pair in pairs {
        out.push_str(" ")?;
        show(&pair.key, out)?;
        out.push_str(" ")?;
        show(&pair.value, out)?;
    }
    out.push_str(")")
}

#[cycle(show)]
fn show_operands(operands: &[Operand], out: &mut String) -> Written {
    for operand in operands {
        let op = operand.op.word();
        write!(out, " {op} ")?;
        show(&operand.right, out)?;
    }
    out.push_str(")")
}

#[cycle(show)]
fn show(e: &Expr, out: &mut String) -> Written {
    match e {
        Expr::Nil { line } => write!(out, "None@{line}"),
        Expr::Truth { line, value } => {
            out.push_str(if *value { "True" } else { "False" })?;
            write!(out, "@{line}")
        }
        Expr::Int { line, value } => write!(out, "{value}@{line}"),
        Expr::Text { line, value } => {
            let value = value.as_str();
            write!(out, "'{value}'@{line}")
        }
        Expr::Name { line, name } => {
            let name = name.as_str();
            write!(out, "{name}@{line}")
        }
        Expr::Paren { line, inner } => {
            write!(out, "(paren@{line} ")?;
            show(inner.get(), out)?;
            out.push_str(")")
        }
        Expr::Tuple { line, items, comma } => {
            let mark = comma_mark(*comma);
            write!(out, "(tuple{mark}@{line}")?;
            show_all(items.as_slice(), out)
        }
        Expr::BareTuple { line, items, comma } => {
            let mark = comma_mark(*comma);
            write!(out, "(bare{mark}@{line}")?;
            show_all(items.as_slice(), out)
        }
        Expr::List { line, items, comma } => {
            let mark = comma_mark(*comma);
            write!(out, "(list{mark}@{line}")?;
            show_all(items.as_slice(), out)
        }
        Expr::Dict { line, pairs, comma } => {
            let mark = comma_mark(*comma);
            write!(out, "(dict{mark}@{line}")?;
            show_pairs(pairs.as_slice(), out)
        }
        Expr::Comprehension {
            line,
            element,
            target,
            iterable,
            condition,
        } => {
            write!(out, "(each@{line} ")?;
            show(element.get(), out)?;
            out.push_str(" ")?;
            show_target(target, out)?;
            out.push_str(" ")?;
            show(iterable.get(), out)?;
            out.push_str(" ")?;
            show_maybe(condition, out)?;
            out.push_str(")")
        }
        Expr::Call {
            line,
            name,
            args,
            comma,
        } => {
            let name = name.as_str();
            let mark = comma_mark(*comma);
            write!(out, "(call{mark}@{line} {name}")?;
            show_all(args.as_slice(), out)
        }
        Expr::Method {
            line,
            receiver,
            word,
            args,
            comma,
        } => {
            let mark = comma_mark(*comma);
            write!(out, "(method{mark}@{line} ")?;
            show(receiver.get(), out)?;
            out.push_str(" ")?;
            show_word(word, out)?;
            show_all(args.as_slice(), out)
        }
        Expr::Index { line, base, at } => {
            write!(out, "(index@{line} ")?;
            show(base.get(), out)?;
            out.push_str(" ")?;
            show(at.get(), out)?;
            out.push_str(")")
        }
        Expr::Slice {
            line,
            base,
            from,
            to,
        } => {
            write!(out, "(slice@{line} ")?;
            show(base.get(), out)?;
            out.push_str(" ")?;
            show_maybe(from, out)?;
            out.push_str(" ")?;
            show_maybe(to, out)?;
            out.push_str(")")
        }
        Expr::Unary { line, op, operand } => {
            let op = op.word();
            write!(out, "(unary@{line} {op} ")?;
            show(operand.get(), out)?;
            out.push_str(")")
        }
        Expr::Binary {
            line,
            left,
            op,
            right,
        } => {
            write!(out, "(binary@{line} ")?;
            show(left.get(), out)?;
            let op = op.word();
            write!(out, " {op} ")?;
            show(right.get(), out)?;
            out.push_str(")")
        }
        Expr::Compare {
            line,
            first,
            others,
        } => {
            write!(out, "(compare@{line} ")?;
            show(first.get(), out)?;
            show_operands(others.as_slice(), out)
        }
        Expr::Not { line, operand } => {
            write!(out, "(not@{line} ")?;
            show(operand.get(), out)?;
            out.push_str(")")
        }
        Expr::And {
            line,
            first,
            others,
        } => {
            write!(out, "(and@{line} ")?;
            show(first.get(), out)?;
            show_all(others.as_slice(), out)
        }
        Expr::Or {
            line,
            first,
            others,
        } => {
            write!(out, "(or@{line} ")?;
            show(first.get(), out)?;
            show_all(others.as_slice(), out)
        }
        Expr::Conditional {
            line,
            then,
            test,
            other,
        } => {
            write!(out, "(choice@{line} ")?;
            show(then.get(), out)?;
            out.push_str(" ")?;
            show(test.get(), out)?;
            out.push_str(" ")?;
            show(other.get(), out)?;
            out.push_str(")")
        }
    }
}
