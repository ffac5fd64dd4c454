//! Functions with slots for names: what each word of a def or a lambda names, and the first fault where it names nothing.
#![tactic(auto)]

mod around;
mod binding;
mod bound;
mod called;
mod code;
mod columns;
mod copying;
mod fault;
mod laws;
mod link;
mod link_body;
mod meet;
mod met;
mod role;
mod words;

pub use binding::{bind, bind_lambda};
pub use bound::{Bound, Def, Defs};
pub use code::{
    BoundArm, BoundArms, BoundBody, BoundExpr, BoundExprs, BoundMaybe, BoundOperand, BoundOperands,
    BoundPair, BoundPairs, BoundStmt, BoundStmts, BoundTarget, Iterable, Routine, Slots,
};
pub use copying::copy;
pub use fault::{BindError, Fault, FaultKind};
pub use laws::{faults_are_told, linked_functions_are_sound, slots_stand_for_names};
pub use role::Role;
