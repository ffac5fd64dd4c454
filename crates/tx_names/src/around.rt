// The names around a part of a function: those of the function, and those of the comprehensions around the part.
ghost use Rattle.std.specs.Prelude.{◌≡◌, ◌||◌, ℕ, List, IfOk, option_copied};
ghost use Rattle.tx_name_set.specs.NameSet.{is_in};
ghost use Rattle.tx_names.specs.declared.around.Around as around;
ghost use Rattle.tx_names.specs.Scope.{is_name_of, is_variable, within};
ghost use Rattle.tx_names.specs.Calls.Around.{inner_names, scope_of, slot_of};

use crate::Defs;
use crate::meet::add_target;
use std::alloc::Global;
use std::rc::Rc;
use tx_name_set::Names;
use tx_text::{NoMemory, PyText};
use tx_tree::Target;

/// The variables of the comprehensions around a part, those of the innermost first.
#[derive(Drop)]
pub(crate) enum Inner<'t> {
    Nothing,
    Within(Names<'t>, Rc<Inner<'t>>),
}

/// What stands around the parts of a function: the earlier defs, the def's own name, the row's parameter, and the names with
/// their places, of which the first `base` are local to the whole function.
#[derive(Drop)]
pub(crate) struct Around<'a, 't> {
    pub(crate) defs: &'a Defs,
    pub(crate) own: Option<&'a PyText>,
    pub(crate) row: Option<&'a PyText>,
    pub(crate) names: &'a Names<'t>,
    pub(crate) base: usize,
}

/// What stands around the element and the condition of a comprehension.
pub(crate) fn within<'t>(
    alloc: Global,
    inner: &Rc<Inner<'t>>,
    target: &'t Target,
) -> Result<Rc<Inner<'t>>, NoMemory>
    ensures { (a : around.Around) → IfOk result (λ i. scope_of a i.value ≡ within (scope_of a inner.now.value) target.now) }
{
    let mut names = Names::new(alloc);
    add_target(target, &mut names)?;
    let outer = inner.clone()?;
    Ok(Rc::new(alloc, Inner::Within(names, outer))?)
}

fn is_name_of(name: Option<&PyText>, other: &PyText) -> bool
    ensures { result ≡ is_name_of (option_copied name.entry) other.now }
{
    match name {
        None => false,
        Some(name) => name.equal(other),
    }
}

// Whether a name is a variable of a comprehension around.
#[tactic(auto, using(crate::proofs::InnerNames::inner))]
fn is_inner(inner: &Inner<'_>, name: &PyText) -> bool
    ensures { (names : List (List ℕ)) → is_in (inner_names inner.now names) name.now ≡ (result || is_in names name.now) }
{
    match inner {
        Inner::Nothing => false,
        Inner::Within(names, outer) => names.has(name) || is_inner(outer, name),
    }
}

impl Around<'_, '_> {
    /// Whether it is the def's own name.
    pub(crate) fn is_own(&self, name: &PyText) -> bool
        ensures { result ≡ is_name_of (option_copied self.now.own) name.now }
    {
        is_name_of(self.own, name)
    }

    /// Whether it is the row's parameter.
    pub(crate) fn is_row(&self, name: &PyText) -> bool
        ensures { result ≡ is_name_of (option_copied self.now.row) name.now }
    {
        is_name_of(self.row, name)
    }

    /// Whether it is a local here.
    pub(crate) fn is_local(&self, inner: &Inner<'_>, name: &PyText) -> bool
        ensures { result ≡ is_in (scope_of self.now inner.now).locals name.now }
    {
        is_inner(inner, name) || self.names.is_among_first(self.base, name)
    }

    /// Whether it is a local here or the row's parameter.
    pub(crate) fn is_variable(&self, inner: &Inner<'_>, name: &PyText) -> bool
        ensures { result ≡ is_variable (scope_of self.now inner.now) name.now }
    {
        self.is_row(name) || self.is_local(inner, name)
    }

    /// The slot of a name.
    pub(crate) fn slot(&self, name: &PyText) -> usize
        ensures { result ≡ slot_of self.now name.now }
    {
        self.names.place(name)
    }
}
