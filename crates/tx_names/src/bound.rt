// Bound functions, which this crate alone makes.
ghost use Rattle.std.specs.Prelude.{◌≡◌, true, nat_eq};
ghost use Rattle.tx_names.specs.View.{routine_of};
ghost use Rattle.tx_names.specs.Parts.{columns_of};
ghost use Rattle.tx_names.specs.Sound.{sound};

use crate::{BoundBody, Role, Routine, Slots};
use std::rc::Rc;
use tx_text::{PyText, Sequence, Texts};

/// A function with slots for names. It shares each def that it calls. Contracts speak of the function that it is
/// (`function_of`).
#[derive(Drop)]
pub struct Bound {
    routine: Rc<Routine>,
    columns: Rc<Texts>,
    ghost columns_are: { columns.value ≡ columns_of (routine_of routine.value) },
    ghost is_sound: { sound nat_eq (routine_of routine.value) ≡ true },
}

impl Bound {
    ghost use Rattle.std.specs.Prelude.{◌≡◌, true, nat_eq, length};
    ghost use Rattle.tx_names.specs.View.{routine_of, body_of};
    ghost use Rattle.tx_names.specs.Function.{role_of, params_of, locals_of, body_of as function_body};
    ghost use Rattle.tx_names.specs.Parts.{columns_of};
    ghost use Rattle.tx_names.specs.Sound.{sound};
    ghost use Rattle.tx_names.specs.Bind.{function_of};

    // A function of its code and of the columns that this reads.
    pub(crate) fn new(routine: Rc<Routine>, columns: Rc<Texts>) -> Bound
        requires columns { columns.value ≡ columns_of (routine_of routine.value) }
        requires sound { sound nat_eq (routine_of routine.value) ≡ true }
        ensures { function_of result ≡ routine_of routine.value }
    {
        Bound { routine, columns }
    }

    /// What the function takes.
    pub fn role(&self) -> Role
        ensures { result ≡ role_of (function_of self.now) }
    {
        self.routine.role
    }

    /// The slots of the parameters that take values.
    pub fn params(&self) -> &Slots
        ensures { result.now ≡ params_of (function_of self.now) }
    {
        &self.routine.params
    }

    /// How many slots the function has. Each slot in it is below this number.
    #[tactic(auto, using(crate::proofs::Slots::slots_are))]
    pub fn slots(&self) -> usize
        ensures { result ≡ length (locals_of (function_of self.now)) }
    {
        self.routine.slots
    }

    /// What it gives or does.
    pub fn body(&self) -> &BoundBody
        ensures { body_of result.now ≡ function_body (function_of self.now) }
    {
        &self.routine.body
    }

    /// The columns whose cells it reads, in the order of their tokens.
    pub fn columns(&self) -> &Texts
        ensures { result.now ≡ columns_of (function_of self.now) }
    {
        &self.columns
    }

    /// Its code, which a function that calls it shares. Each of its slots is below the number of its slots, and each call
    /// in it has a number of arguments that is allowed.
    pub fn routine(&self) -> &Rc<Routine>
        ensures same { routine_of result.now.value ≡ function_of self.now }
        ensures sound { sound nat_eq (function_of self.now) ≡ true }
    {
        &self.routine
    }

    // The columns, shared.
    pub(crate) fn shared_columns(&self) -> &Rc<Texts>
        ensures { result.now.value ≡ columns_of (function_of self.now) }
    {
        &self.columns
    }
}

/// An earlier def: its name, and its function, whose parameters all take values (`Role::Plain`). A call of it has as many
/// arguments as it has parameters that take values.
#[derive(Drop)]
pub struct Def {
    pub name: PyText,
    pub function: Rc<Bound>,
}

/// The earlier defs, whose names are distinct.
pub type Defs = Sequence<Def>;
