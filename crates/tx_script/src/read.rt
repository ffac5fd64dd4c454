// The text of a script, its tokens and its blocks.
ghost use Rattle.std.specs.Prelude.{◌≡◌, ◌+◌, ◌≤◌, ◌<◌, List, Ok, Err, None, Some, map, length, chars, count_by, ◌==◌, IfOk, OnOk, slice_range};
ghost use Rattle.tx_tokens.specs.Lines.{line_feed};
ghost use Rattle.tx_tokens.specs.Tokens as texts;
ghost use Rattle.tx_tokens.specs.Tokens.{most_characters};
ghost use Rattle.tx_tree.specs.Tree.{BlockTree, block_of};
ghost use Rattle.tx_parse.specs.Lexemes.{Lexeme, lexemes};
ghost use Rattle.tx_parse.specs.Block.{IsBlock};
ghost use Rattle.tx_parse.specs.Faults.{Cause};
ghost use Rattle.tx_names.specs.Faults.{first_some};
ghost use Rattle.tx_script.specs.declared.fault.ScriptFault as told;
ghost use Rattle.tx_script.specs.Linked.{at};
ghost use Rattle.tx_script.specs.Checks.{too_long, not_text, fault_of_token, text_fault, blocks_in};
ghost use Rattle.tx_script.specs.Accepted.{IsUnread, AreRead};
ghost use Rattle.tx_script.specs.Calls.Reading.{AreWithin, parts_of, IsFaultOfText};

use crate::{ScriptError, ScriptFault, ScriptKind};
use std::alloc::Global;
use tx_parse::{BlockError, Span, block, blocks, blocks_cover_the_tokens};
use tx_text::{Bytes, PyText, Sequence};
use tx_tokens::{MOST_CHARACTERS, TokenError, TokenList, tokens};
use tx_tree::Block;

pub(crate) type Blocks = Sequence<Block>;

fn fault(kind: ScriptKind, line: u32) -> ScriptError
    ensures { result ≡ ScriptError.Fault (at kind line) }
{
    ScriptError::Fault(ScriptFault { kind, line })
}

// The line of the byte behind some bytes.
fn line_behind(ahead: &[u8]) -> u32
    requires { length ahead.now ≤ most_characters }
    ensures { result ≡ count_by (λ b. b == line_feed) ahead.now + 1 }
{
    let mut line: u32 = 1;
    for byte in ahead {
        if *byte == b'\n' {
            line += 1;
        }
    }
    line
}

fn text_of(alloc: Global, bytes: &[u8]) -> Result<PyText, ScriptError>
    ensures short { OnOk result (too_long bytes.now ≡ None) }
    ensures text { OnOk result (not_text bytes.now ≡ None) }
    ensures same { IfOk result (λ t. t ≡ chars bytes.now) }
    ensures few { IfOk result (λ t. length t ≤ most_characters) }
    ensures fault { (f : told.ScriptFault) → result ≡ Err (ScriptError.Fault f) → first_some (too_long bytes.now) (not_text bytes.now) ≡ Some f }
{
    if bytes.len() > MOST_CHARACTERS {
        return Err(fault(ScriptKind::TooLong, 0));
    }
    match str::from_utf8(bytes) {
        Ok(text) => Ok(PyText::from_str(alloc, text)?),
        Err(e) => Err(fault(ScriptKind::NotText, line_behind(&bytes[..e.valid_up_to()]))),
    }
}

fn of_token(e: TokenError) -> ScriptError
    ensures { (f : told.ScriptFault) → result ≡ ScriptError.Fault f → fault_of_token e ≡ Some f }
{
    match e {
        TokenError::BadToken { line } => fault(ScriptKind::Token, line),
        TokenError::BadIndent { line } => fault(ScriptKind::Indent, line),
        TokenError::WidthPast { line } => fault(ScriptKind::Width, line),
        TokenError::NoMemory => ScriptError::NoMemory,
    }
}

fn of_block(e: &BlockError) -> ScriptError
    ensures { (f : told.ScriptFault) (ls : List Lexeme) → result ≡ ScriptError.Fault f → Cause e.now ls → IsUnread f.kind f.line ls }
{
    match e {
        BlockError::Outside { line, .. } => fault(ScriptKind::Outside, *line),
        BlockError::TooDeep { line } => fault(ScriptKind::TooDeep, *line),
        BlockError::NotABlock { line } => fault(ScriptKind::NotABlock, *line),
        BlockError::NoMemory => ScriptError::NoMemory,
    }
}

fn tokens_of(alloc: Global, bytes: &[u8]) -> Result<TokenList, ScriptError>
    ensures none { OnOk result (text_fault bytes.now ≡ None) }
    ensures tokens { IfOk result (λ ts. texts.tokens_of (chars bytes.now) ≡ Ok ts) }
    ensures fault { (f : told.ScriptFault) → result ≡ Err (ScriptError.Fault f) → text_fault bytes.now ≡ Some f }
{
    let text = text_of(alloc, bytes)?;
    match tokens(alloc, &text) {
        Ok(list) => Ok(list),
        Err(e) => Err(of_token(e)),
    }
}

fn read_block(alloc: Global, list: &TokenList, span: &Span) -> Result<Block, ScriptError>
    requires some { span.now.from < span.now.to }
    requires within { span.now.to ≤ length list.now }
    ensures ok { IfOk result (λ b. IsBlock (block_of b) (lexemes (slice_range list.now span.now.from span.now.to))) }
    ensures fault { (f : told.ScriptFault) → result ≡ Err (ScriptError.Fault f) → IsUnread f.kind f.line (lexemes (slice_range list.now span.now.from span.now.to)) }
{
    match block(alloc, list, span.from, span.to) {
        Ok(tree) => Ok(tree),
        Err(e) => Err(of_block(&e)),
    }
}

// The trees of blocks that stand in spans.
fn read_blocks(alloc: Global, list: &TokenList, spans: &[Span]) -> Result<Blocks, ScriptError>
    requires { AreWithin list.now spans.now }
    ensures ok { IfOk result (λ bs. AreRead (parts_of list.now spans.now) (map block_of bs) None) }
    ensures fault { (f : told.ScriptFault) → result ≡ Err (ScriptError.Fault f) → (bs : List BlockTree) × AreRead (parts_of list.now spans.now) bs (Some f) }
{
    let mut done = Blocks::new(alloc);
    for span in spans {
        match read_block(alloc, list, span) {
            Ok(tree) => done.push(tree)?,
            Err(e) => return Err(e),
        }
    }
    Ok(done)
}

/// The blocks of a script.
pub(crate) fn blocks_of(alloc: Global, bytes: &[u8]) -> Result<Blocks, ScriptError>
    ensures none { OnOk result (text_fault bytes.now ≡ None) }
    ensures read { IfOk result (λ bs. AreRead (blocks_in bytes.now) (map block_of bs) None) }
    ensures fault { (f : told.ScriptFault) → result ≡ Err (ScriptError.Fault f) → IsFaultOfText bytes.now f }
{
    blocks_cover_the_tokens();
    let list = tokens_of(alloc, bytes)?;
    let spans = blocks(alloc, &list)?;
    read_blocks(alloc, &list, spans.as_slice())
}
