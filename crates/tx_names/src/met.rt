// The names of a function, and the slots of its parameters.
ghost use Rattle.std.specs.Prelude.{◌≡◌, IfOk, map, option_copied, take};
ghost use Rattle.tx_tree.specs.Tree.{tree_of, body_of};
ghost use Rattle.tx_name_set.specs.NameSet.{place_in};
ghost use Rattle.tx_names.specs.Scope.{plain_params, row_param, role_size, locals_of_def, locals_of_lambda, names_of_def, names_of_lambda};

use crate::meet::{add_assigned_in, add_inner, add_inner_in};
use crate::{Role, Slots};
use std::alloc::Global;
use tx_name_set::Names;
use tx_text::{NoMemory, PyText};
use tx_tree::{Expr, Suite};

/// The names of a function, of which the first `base` are local to the whole of it.
#[derive(Drop)]
pub(crate) struct Met<'a> {
    pub(crate) names: Names<'a>,
    pub(crate) base: usize,
}

/// How many parameters a function of this role has.
pub(crate) fn role_size(role: Role) -> usize
    ensures { result ≡ role_size role }
{
    match role {
        Role::Plain(n) => n as usize,
        Role::OfRow => 1,
        Role::OfAccRow => 2,
    }
}

/// The parameters that take values.
pub(crate) fn plain_params(role: Role, params: &[PyText]) -> &[PyText]
    ensures { result.now ≡ plain_params role params.now }
{
    match role {
        Role::Plain(_) => params,
        Role::OfRow => &params[..0],
        Role::OfAccRow => &params[..params.len().min(1)],
    }
}

/// The parameter that takes a row.
pub(crate) fn row_param(role: Role, params: &[PyText]) -> Option<&PyText>
    ensures { option_copied result ≡ row_param role params.now }
{
    match role {
        Role::Plain(_) => None,
        Role::OfRow => params.get(0),
        Role::OfAccRow => params.get(1),
    }
}

/// The names of a def.
pub(crate) fn names_of_def<'a>(
    alloc: Global,
    role: Role,
    params: &'a [PyText],
    suite: &'a Suite,
) -> Result<Met<'a>, NoMemory>
    ensures names { IfOk result (λ m. m.names ≡ names_of_def role params.now (body_of suite.now)) }
    ensures locals { IfOk result (λ m. take m.base m.names ≡ locals_of_def role params.now (body_of suite.now)) }
{
    let mut names = Names::new(alloc);
    names.add_texts(plain_params(role, params))?;
    add_assigned_in(suite, &mut names)?;
    let base = names.len();
    add_inner_in(suite, &mut names)?;
    Ok(Met { names, base })
}

/// The names of a lambda.
pub(crate) fn names_of_lambda<'a>(
    alloc: Global,
    role: Role,
    params: &'a [PyText],
    body: &'a Expr,
) -> Result<Met<'a>, NoMemory>
    ensures names { IfOk result (λ m. m.names ≡ names_of_lambda role params.now (tree_of body.now)) }
    ensures locals { IfOk result (λ m. take m.base m.names ≡ locals_of_lambda role params.now) }
{
    let mut names = Names::new(alloc);
    names.add_texts(plain_params(role, params))?;
    let base = names.len();
    add_inner(body, &mut names)?;
    Ok(Met { names, base })
}

/// The slots of parameters.
pub(crate) fn slots_of(
    alloc: Global,
    names: &Names<'_>,
    params: &[PyText],
) -> Result<Slots, NoMemory>
    ensures { IfOk result (λ s. s ≡ map (place_in names.now) params.now) }
{
    let mut slots = Slots::new(alloc);
    for param in params {
        slots.push(names.place(param))?;
    }
    Ok(slots)
}
