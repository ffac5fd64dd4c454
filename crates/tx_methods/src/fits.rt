// `startswith` and `endswith`.
ghost use Rattle.std.specs.Prelude.{◌≡◌, Ok, Err, IfOk};
ghost use Rattle.std.specs.Str.{chars};
ghost use Rattle.tx_base.specs.declared.class.Class.{Class};
ghost use Rattle.tx_values.specs.declared.value.Value.{out-Value};
ghost use Rattle.tx_text.specs.Text.{begins};
ghost use Rattle.tx_methods.specs.TextMethods.{ends, fit_of, fits_in, some_fits};
ghost use Rattle.tx_methods.specs.Calls.{stands};

use crate::arguments::{a_text, only};
use tx_base::Class;
use tx_text::{NoMemory, PyText, first_char};
use tx_values::{OpError, Value};

// Whether a text begins with a part.
fn begins(text: &str, part: &str) -> bool
    ensures { result ≡ begins (chars part.now) (chars text.now) }
{
    let mut rest = text;
    let mut left = part;
    'characters: while let Some((due, more)) = first_char(left) {
        let Some((c, behind)) = first_char(rest) else {
            return false;
        };
        if c != due {
            return false;
        }
        rest = behind;
        left = more;
    }
    true
}

// Whether a text ends with a part. A long part is copied for that.
fn ends(text: &PyText, part: &PyText) -> Result<bool, NoMemory>
    ensures { IfOk result (λ b. b ≡ ends part.now text.now) }
{
    let length = text.len();
    let each = part.len();
    if each > length {
        return Ok(false);
    }
    let end = text.slice(length - each, length)?;
    Ok(end.equal(part))
}

// Whether a part stands at the front of a text, or at its end.
fn stands(at_end: bool, text: &PyText, part: &PyText) -> Result<bool, NoMemory>
    ensures { IfOk result (λ b. b ≡ stands at_end text.now part.now) }
{
    if at_end {
        return ends(text, part);
    }
    Ok(begins(text.as_str(), part.as_str()))
}

// Whether one of the items of a tuple stands there, gone through from the front.
fn some_stands(at_end: bool, text: &PyText, items: &[Value]) -> Result<bool, OpError>
    ensures value { IfOk result (λ b. some_fits (stands at_end text.now) items.now ≡ Ok b) }
    ensures raise { (c : Class) → result ≡ Err (OpError.Raise c) → some_fits (stands at_end text.now) items.now ≡ Err c }
{
    for item in items {
        if stands(at_end, text, a_text(item)?)? {
            return Ok(true);
        }
    }
    Ok(false)
}

// Whether a text, or one of the texts of a tuple, stands there.
fn fits(at_end: bool, text: &PyText, a: &Value) -> Result<bool, OpError>
    ensures value { IfOk result (λ b. fits_in (stands at_end text.now) (out-Value a.now) ≡ Ok b) }
    ensures raise { (c : Class) → result ≡ Err (OpError.Raise c) → fits_in (stands at_end text.now) (out-Value a.now) ≡ Err c }
{
    match a {
        Value::Text(part) => Ok(stands(at_end, text, part)?),
        Value::Tuple(items) => some_stands(at_end, text, items.as_slice()),
        _ => Err(OpError::Raise(Class::TypeError)),
    }
}

/// `startswith`, and where `at_end` is true `endswith`.
pub(crate) fn fit_of(at_end: bool, text: &PyText, args: &[Value]) -> Result<Value, OpError>
    ensures value { IfOk result (λ v. fit_of (stands at_end text.now) args.now ≡ Ok v) }
    ensures raise { (c : Class) → result ≡ Err (OpError.Raise c) → fit_of (stands at_end text.now) args.now ≡ Err c }
{
    let answer = fits(at_end, text, only(args)?)?;
    Ok(Value::Truth(answer))
}
