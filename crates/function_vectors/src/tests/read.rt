// Functions written as Python text, read and bound.
ghost use Rattle.std.specs.Prelude.{◌≡◌};

use std::alloc::Global;
use std::rc::Rc;
use tx_names::{BindError, Bound, Def, Defs, Role, bind, bind_lambda};
use tx_parse::block;
use tx_text::PyText;
use tx_tokens::{MOST_CHARACTERS, TokenList, tokens};
use tx_tree::{Arg, Block, Chain};

// The line of the operator.
const AT: u32 = 90;

// A lambda stands as the argument of an operator.
fn script_of(alloc: Global, text: &str) -> Option<PyText> {
    let mut script = PyText::new(alloc);
    if text.starts_with("lambda") {
        script.push_str("p.map(").ok()?;
        script.push_str(text).ok()?;
        script.push_str(")").ok()?;
    } else {
        script.push_str(text).ok()?;
    }
    Some(script)
}

fn token_list(alloc: Global, text: &str) -> Option<TokenList> {
    let script = script_of(alloc, text)?;
    if script.len() <= MOST_CHARACTERS {
        tokens(alloc, &script).ok()
    } else {
        None
    }
}

/// The block of a text; a lambda is the argument of an operator.
pub(crate) fn block_of(alloc: Global, text: &str) -> Option<Block> {
    let list = token_list(alloc, text)?;
    let count = list.len();
    if count > 0 {
        block(alloc, &list, 0, count).ok()
    } else {
        None
    }
}

fn bound_argument(
    alloc: Global,
    chain: &Chain,
    role: Role,
    earlier: &Defs,
) -> Result<Bound, BindError> {
    let link = chain.links.get(0).ok_or(BindError::NoMemory)?;
    match link.args.items.get(0) {
        Some(Arg::Lambda { params, body, .. }) => {
            bind_lambda(alloc, params, body, earlier, role, AT)
        }
        _ => Err(BindError::NoMemory),
    }
}

/// Binds a function of this text; a text that is none has no memory either.
pub(crate) fn bound(
    alloc: Global,
    text: &str,
    role: Role,
    earlier: &Defs,
) -> Result<Bound, BindError> {
    match block_of(alloc, text) {
        Some(Block::Alone(chain)) => bound_argument(alloc, &chain, role, earlier),
        Some(block) => bind(alloc, &block, earlier, role, AT),
        None => Err(BindError::NoMemory),
    }
}

/// Adds a def of this text to the earlier ones.
pub(crate) fn add_def(
    alloc: Global,
    defs: &mut Defs,
    name: &str,
    role: Role,
    text: &str,
) -> Option<()> {
    let function = bound(alloc, text, role, defs).ok()?;
    let function = Rc::new(alloc, function).ok()?;
    let name = PyText::from_str(alloc, name).ok()?;
    defs.push(Def { name, function }).ok()
}

/// The defs ahead of the functions of the table.
pub(crate) fn earlier(alloc: Global) -> Option<Defs> {
    let mut defs = Defs::new(alloc);
    add_def(
        alloc,
        &mut defs,
        "h",
        Role::Plain(0),
        "def h():\n    return 1",
    )?;
    add_def(
        alloc,
        &mut defs,
        "g",
        Role::Plain(1),
        "def g(v):\n    return v",
    )?;
    Some(defs)
}
