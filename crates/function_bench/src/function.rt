// The function of a script: its last block, a def of a row or a chain whose first operator is given a lambda. The defs ahead
// of it are those that it may call.
ghost use Rattle.std.specs.Prelude.{◌≤◌, length};
ghost use Rattle.tx_tokens.specs.Tokens.{most_characters};

use crate::refusal::Refusal;
use std::alloc::Global;
use std::rc::Rc;
use tx_names::{Bound, Def, Defs, Role, bind, bind_lambda};
use tx_parse::{Spans, block, blocks};
use tx_text::PyText;
use tx_tokens::{TokenList, tokens};
use tx_tree::{Arg, Block, Chain};

// The line of the operator, which no fault is told with.
const AT: u32 = 1;

fn block_at(alloc: Global, list: &TokenList, spans: &Spans, at: usize) -> Result<Block, Refusal> {
    let Some(span) = spans.get(at) else {
        return Err(Refusal::Script);
    };
    let (from, to) = (span.from, span.to);
    if from < to && to <= list.len() {
        Ok(block(alloc, list, from, to)?)
    } else {
        Err(Refusal::Script)
    }
}

// Adds an earlier def.
fn add_def(alloc: Global, defs: &mut Defs, earlier: &Block) -> Result<(), Refusal> {
    let Block::Def { name, params, .. } = earlier else {
        return Err(Refusal::Script);
    };
    let Ok(count) = u32::try_from(params.len()) else {
        return Err(Refusal::Script);
    };
    let function = bind(alloc, earlier, defs, Role::Plain(count), AT)?;
    let name = PyText::from_str(alloc, name.as_str())?;
    let function = Rc::new(alloc, function)?;
    Ok(defs.push(Def { name, function })?)
}

fn lambda_of(alloc: Global, chain: &Chain, defs: &Defs) -> Result<Bound, Refusal> {
    let Some(link) = chain.links.get(0) else {
        return Err(Refusal::Script);
    };
    match link.args.items.get(0) {
        Some(Arg::Lambda { params, body, .. }) => {
            Ok(bind_lambda(alloc, params, body, defs, Role::OfRow, AT)?)
        }
        _ => Err(Refusal::Script),
    }
}

fn bound(alloc: Global, last: &Block, defs: &Defs) -> Result<Bound, Refusal> {
    match last {
        Block::Alone(chain) => lambda_of(alloc, chain, defs),
        _ => Ok(bind(alloc, last, defs, Role::OfRow, AT)?),
    }
}

/// The function of a row that a script ends with.
pub(crate) fn function_of(alloc: Global, script: &PyText) -> Result<Bound, Refusal>
    requires { length script.now ≤ most_characters }
{
    let list = tokens(alloc, script)?;
    let spans = blocks(alloc, &list)?;
    let last = spans.len().saturating_sub(1);
    let mut defs = Defs::new(alloc);
    for at in 0..last {
        let earlier = block_at(alloc, &list, &spans, at)?;
        add_def(alloc, &mut defs, &earlier)?;
    }
    let block = block_at(alloc, &list, &spans, last)?;
    bound(alloc, &block, &defs)
}
