// What the blocks ahead define.
ghost use Rattle.std.specs.Prelude.{◌≡◌, ℕ, false, List, ◌∷◌, ◌++◌, [], Ok, Err, IfOk, OnOk, IfSome, Option, map, option_map};
ghost use Rattle.std.specs.Option.{option_copied};
ghost use Rattle.tx_tree.specs.Tree.{block_of};
ghost use Rattle.tx_name_set.specs.NameSet.{is_in};
ghost use Rattle.tx_base.specs.Class.{name_of};
ghost use Rattle.tx_tree.specs.Takes.{is_view};
ghost use Rattle.tx_tree.specs.Words.{same_text, builtin_word, walk_word};
ghost use Rattle.tx_names.specs.Named.{builtins, walk_functions};
ghost use Rattle.tx_names.specs.Scope.{Text};
ghost use Rattle.tx_names.specs.Function.{Function};
ghost use Rattle.tx_names.specs.Bind.{function_of, defs_of, bound_block};
ghost use Rattle.tx_pipe.specs.Verbs.{verb_word, classes};
ghost use Rattle.tx_script.specs.Forms.{sources};
ghost use Rattle.tx_script.specs.declared.fault.ScriptFault as told;
ghost use Rattle.tx_script.specs.Linked as linked;
ghost use Rattle.tx_script.specs.Calls.View.{word_of};
ghost use Rattle.tx_script.specs.Calls.Behind.{block_in, HasFunctions, AreLinked, ahead_of};

use crate::operator::source_at;
use crate::written::Named;
use crate::{ScriptError, ScriptFault, ScriptKind};
use std::alloc::Global;
use tx_name_set::Names;
use tx_names::{Bound, Defs, Role};
use tx_pipe::class_at;
use tx_text::{PyText, Sequence};
use tx_tree::{Block, Walk, builtin_named, walk_named};

/// A def with its functions in the roles in which operators can use it. They are linked once, where the def stands, and
/// each use shares their code.
#[derive(Drop)]
pub(crate) struct DefBlock<'a> {
    pub(crate) block: &'a Block,
    /// The function whose parameters all take values.
    pub(crate) of_values: Bound,
    /// The one whose last parameter takes a row, if the def can be used so.
    pub(crate) of_row: Option<Bound>,
}

impl<'a> DefBlock<'a> {
    /// The function in a role, if it is held.
    pub(crate) fn function_in(&self, role: Role) -> Option<&Bound>
        ensures { (defs : List (Text × Function ℕ)) (line : ℕ) → HasFunctions defs self.now → IfSome (option_copied result) (λ f. bound_block defs role line (block_in self.now) ≡ Ok (function_of f)) }
    {
        if self.of_values.role() == role {
            return Some(&self.of_values);
        }
        match &self.of_row {
            Some(function) if function.role() == role => Some(function),
            _ => None,
        }
    }
}

/// The defs with their functions, and their blocks; the names of the pipelines, and the number of the operator that each
/// ends in.
#[derive(Drop)]
pub(crate) struct Ahead<'a> {
    pub(crate) defs: Defs,
    pub(crate) blocks: Sequence<DefBlock<'a>>,
    pub(crate) pipelines: Names<'a>,
    pub(crate) ends: Sequence<u32>,
}

pub(crate) fn fault_at(kind: ScriptKind, line: u32) -> ScriptError
    ensures { result ≡ ScriptError.Fault (linked.at kind line) }
{
    ScriptError::Fault(ScriptFault { kind, line })
}

// ---- reserved words

fn is_builtin(name: &PyText) -> bool
    ensures { result ≡ is_in (map builtin_word builtins) name.now }
{
    builtin_named(name.as_str()).is_some()
}

fn is_view(walk: Walk) -> bool
    ensures { result ≡ is_view walk }
{
    matches!(walk, Walk::Items | Walk::Keys | Walk::Values)
}

fn is_walk(name: &PyText) -> bool
    ensures { result ≡ is_in (map walk_word walk_functions) name.now }
{
    match walk_named(name.as_str()) {
        Some(walk) => !is_view(walk),
        None => false,
    }
}

#[tactic(auto, using(crate::proofs::Reserved::words_in))]
fn is_source_word(name: &PyText) -> bool
    ensures { result ≡ is_in (map verb_word sources) name.now }
{
    source_at(name).is_some()
}

#[tactic(auto, using(crate::proofs::Reserved::words_in))]
fn is_class(name: &PyText) -> bool
    ensures { result ≡ is_in (map name_of classes) name.now }
{
    class_at(name).is_some()
}

#[tactic(auto, using(crate::proofs::Reserved::both_in))]
fn is_reserved(name: &PyText) -> bool
    ensures { result ≡ is_in linked.reserved name.now }
{
    is_builtin(name) || is_walk(name) || is_source_word(name) || is_class(name)
}

// ---- names

#[tactic(auto, using(crate::proofs::Reserved::same_text_is))]
fn is_same(name: &PyText, other: &PyText) -> bool
    ensures { result ≡ same_text name.now other.now }
{
    name.equal(other)
}

fn is_def_of(name: &PyText, block: &Block) -> bool
    ensures { result ≡ linked.is_def_of name.now (block_of block.now) }
{
    match block {
        Block::Def { name: defined, .. } => is_same(name, defined),
        _ => false,
    }
}

impl<'a> Ahead<'a> {
    pub(crate) fn new(alloc: Global) -> Ahead<'a>
        ensures nothing { ahead_of result ≡ linked.nothing_ahead }
        ensures kept { AreLinked result }
    {
        Ahead {
            defs: Defs::new(alloc),
            blocks: Sequence::new(alloc),
            pipelines: Names::new(alloc),
            ends: Sequence::new(alloc),
        }
    }

    /// The def of a name.
    pub(crate) fn def_of(&self, name: &PyText) -> Option<&DefBlock<'a>>
        ensures def { option_map block_in (option_copied result) ≡ linked.def_of (ahead_of self.now) name.now }
        ensures kept { AreLinked self.now → IfSome (option_copied result) (HasFunctions (defs_of self.now.defs)) }
    {
        for def in self.blocks.as_slice() {
            if is_def_of(name, def.block) {
                return Some(def);
            }
        }
        None
    }

    fn is_taken(&self, name: &PyText) -> bool
        ensures { result ≡ linked.is_taken (ahead_of self.now) name.now }
    {
        is_reserved(name) || self.pipelines.has(name) || self.def_of(name).is_some()
    }

    /// A name may be defined where it is neither reserved nor defined ahead.
    pub(crate) fn free_at(&self, line: u32, name: &PyText) -> Result<(), ScriptError>
        ensures ok { OnOk result (linked.free_at (ahead_of self.now) line name.now ≡ Ok name.now) }
        ensures free { OnOk result (is_in self.now.pipelines name.now ≡ false) }
        ensures fault { (f : told.ScriptFault) → result ≡ Err (ScriptError.Fault f) → linked.free_at (ahead_of self.now) line name.now ≡ Err f }
    {
        if self.is_taken(name) {
            Err(fault_at(ScriptKind::Name, line))
        } else {
            Ok(())
        }
    }

    /// The number of the operator that a pipeline ends in.
    pub(crate) fn end_of(&self, word: &Named<'_>) -> Result<u32, ScriptError>
        ensures ok { IfOk result (λ e. linked.end_of (ahead_of self.now) (word_of word.now) ≡ Ok e) }
        ensures fault { (f : told.ScriptFault) → result ≡ Err (ScriptError.Fault f) → linked.end_of (ahead_of self.now) (word_of word.now) ≡ Err f }
    {
        match self.ends.get(self.pipelines.place(word.name)) {
            Some(end) => Ok(*end),
            None => Err(fault_at(ScriptKind::Name, word.line)),
        }
    }
}
