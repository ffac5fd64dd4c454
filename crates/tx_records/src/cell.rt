// The cell rule: what a field is read as, and how a value is printed.
ghost use Rattle.std.specs.Prelude.{◌≡◌, [], codes, if◌then◌else◌, true, false, Some, None, IfOk, OnOk, IfSome, IsTrue, MatchOption, IsErrOf};
ghost use Rattle.std.specs.Str.{chars};
ghost use Rattle.tx_values.specs.declared.value.Value as value;
ghost use Rattle.tx_records.specs.Cell.{is_null, is_numeral, is_positive, is_scalar, number_or_text, read, text_of, value_of};
ghost use Rattle.tx_records.specs.Laws.{CellLaw};

use std::alloc::{AllocError, Global};
use tx_num::print_int;
use tx_text::{NoMemory, PyText, Texts, Utf8Fault};
use tx_values::Value;

/// Why a value, or a row, has no bytes.
#[derive(Clone, Copy, Debug, PartialEq, Eq)]
pub enum CellError {
    /// It is a container, or the row has one.
    NotScalar,
    NoMemory,
}

impl From<NoMemory> for CellError {
    ghost use Rattle.std.specs.Prelude.{◌≡◌};
    ghost use Rattle.tx_records.specs.declared.cell.CellError.TheVariants as cell_error;

    ghost from_gives = { λ _ e. e ≡ cell_error.NoMemory };

    fn from(_: NoMemory) -> Self {
        CellError::NoMemory
    }
}

impl From<AllocError> for CellError {
    ghost use Rattle.std.specs.Prelude.{◌≡◌};
    ghost use Rattle.tx_records.specs.declared.cell.CellError.TheVariants as cell_error;

    ghost from_gives = { λ _ e. e ≡ cell_error.NoMemory };

    fn from(_: AllocError) -> Self {
        CellError::NoMemory
    }
}

// Whether a field is digits without a leading zero.
fn is_positive(field: &[u8]) -> bool
    ensures { result ≡ is_positive field.now }
{
    let [first, ..] = field else {
        return false;
    };
    *first != b'0' && field.iter().all(|digit| digit.is_ascii_digit())
}

// Whether a field is `0`, or an optional `-` and digits without a leading zero.
fn is_numeral(field: &[u8]) -> bool
    ensures { result ≡ is_numeral field.now }
{
    match field {
        b"0" => true,
        [b'-', digits @ ..] => is_positive(digits),
        _ => is_positive(field),
    }
}

// The integer of a field that is a numeral within 128 bits. Most are within 64, which are read faster.
fn integer_of(field: &str) -> Option<i128>
    ensures { MatchOption result (number_or_text field.now ≡ value.Text (chars field.now)) (λ n. number_or_text field.now ≡ value.Int n) }
{
    if !is_numeral(field.as_bytes()) {
        return None;
    }
    match field.parse::<i64>() {
        Ok(n) => Some(n as i128),
        Err(_) => field.parse::<i128>().ok(),
    }
}

// Whether a field is empty or one of the words that stand for None.
fn is_null(words: &Texts, field: &[u8]) -> bool
    ensures { result ≡ is_null words.now field.now }
{
    if field.is_empty() {
        return true;
    }
    'words: for word in words.as_slice() {
        if field == word.as_str().as_bytes() {
            return true;
        }
    }
    false
}

/// The value of a field of UTF-8, under the words that stand for None.
pub(crate) fn value_of(alloc: Global, words: &Texts, field: &str) -> Result<Value, NoMemory>
    ensures { IfOk result (λ v. v ≡ value_of words.now field.now) }
{
    if is_null(words, field.as_bytes()) {
        return Ok(Value::Nil);
    }
    if field == "True" {
        return Ok(Value::Truth(true));
    }
    if field == "False" {
        return Ok(Value::Truth(false));
    }
    if let Some(n) = integer_of(field) {
        return Ok(Value::Int(n));
    }
    let text = PyText::from_str(alloc, field)?;
    Ok(Value::Text(text))
}

/// The value of a field: None of an empty one, a truth value of `True` and `False`, an integer of `0` or an optional `-`
/// and digits without a leading zero, where it has 128 bits, and a text of all else. So `007`, `-0`, `+1` and `true` are
/// texts.
pub fn read_cell(alloc: Global, f: &[u8]) -> Result<Value, Utf8Fault>
    ensures value { IfOk result (λ v. read [] f.now ≡ Some v) }
    ensures fault { IsErrOf result Utf8Fault.NotUtf8 → read [] f.now ≡ None }
{
    let Ok(field) = str::from_utf8(f) else {
        return Err(Utf8Fault::NotUtf8);
    };
    match value_of(alloc, &Texts::new(alloc), field) {
        Ok(value) => Ok(value),
        Err(_) => Err(Utf8Fault::NoMemory),
    }
}

// The word of a truth value.
fn word_of(alloc: Global, truth: bool) -> Result<PyText, NoMemory>
    ensures { IfOk result (λ t. t ≡ (if truth then codes "True" else codes "False")) }
{
    if truth {
        let word = PyText::from_str(alloc, "True")?;
        return Ok(word);
    }
    let text = PyText::from_str(alloc, "False")?;
    Ok(text)
}

// The same text, made anew.
fn copy_text(text: &PyText) -> Result<PyText, NoMemory>
    ensures { IfOk result (λ t. t ≡ text.now) }
{
    text.slice(0, text.len())
}

/// The text of a value's cell: nothing of None, `True` or `False`, an integer's decimal, a text itself. A container has
/// none.
pub fn print_cell(alloc: Global, v: &Value) -> Result<PyText, CellError>
    ensures text { IfOk result (λ t. t ≡ text_of v.now) }
    ensures scalar { OnOk result (is_scalar v.now ≡ true) }
    ensures container { IsErrOf result CellError.NotScalar → is_scalar v.now ≡ false }
{
    match v {
        Value::Nil => Ok(PyText::new(alloc)),
        Value::Truth(truth) => Ok(word_of(alloc, *truth)?),
        Value::Int(n) => Ok(print_int(alloc, *n)?),
        Value::Text(text) => Ok(copy_text(text)?),
        Value::Tuple(_) | Value::List(_) | Value::Dict(_) => Err(CellError::NotScalar),
    }
}

/// A printed cell is the field that was read, for every field of UTF-8.
#[tactic(auto, using(crate::proofs::CellLemmas::cell_law))]
pub fn printed_cells_read_back()
    ensures { CellLaw }
{}
