// One round of a method over all cells. What is summed of each answer is its length, its place, its count or its truth.
ghost use Rattle.std.specs.Prelude.{◌≡◌, ◌≢◌, [], ◌∷◌, IfOk};

use crate::method::Method;
use std::alloc::Global;
use tx_text::{Long, NoMemory, PyText, Side, Texts};

/// Where `char_at` looks.
const AT: usize = 5;

/// How many characters `slice` takes.
const PART: usize = 16;

/// How often `repeat` repeats.
const TIMES: usize = 3;

/// The width that `zfill` fills up to.
const WIDTH: usize = 100;

/// The text of one character.
pub(crate) fn letter(alloc: Global, c: char) -> Result<PyText, NoMemory>
    ensures { IfOk result (λ t. t ≡ c ∷ []) }
{
    let mut text = PyText::new(alloc);
    text.push(c)?;
    Ok(text)
}

/// What the methods are given beside a cell and a comma.
#[derive(Debug, Drop)]
pub(crate) struct Given {
    /// What `replace` puts in the place of a comma.
    new: PyText,
    /// What `strip_of` takes off.
    ends: PyText,
    /// What `join` joins.
    parts: Texts,
}

impl Given {
    pub(crate) fn new(alloc: Global) -> Result<Given, NoMemory> {
        let comma = letter(alloc, ',')?;
        Ok(Given {
            new: PyText::from_str(alloc, ";;")?,
            ends: PyText::from_str(alloc, " ,")?,
            parts: PyText::from_str(alloc, "a,bc,,def,g")?.split_on(&comma)?,
        })
    }
}

/// The sum of a method's answers over all cells. A method of two texts is called on a cell and the one before it, and on
/// the first cell twice.
pub(crate) fn round(
    method: Method,
    cells: &[PyText],
    comma: &PyText,
    given: &Given,
) -> Result<u64, NoMemory>
    requires { comma.now ≢ [] }
{
    let mut sum = 0u64;
    let Some(first) = cells.first() else {
        return Ok(sum);
    };
    let mut before = first;
    for cell in cells {
        sum = sum.wrapping_add(answer(method, before, cell, comma, given)?);
        before = cell;
    }
    Ok(sum)
}

// What is summed of one answer.
fn answer(
    method: Method,
    before: &PyText,
    cell: &PyText,
    comma: &PyText,
    given: &Given,
) -> Result<u64, NoMemory>
    requires { comma.now ≢ [] }
{
    match method {
        Method::Nothing => Ok(0),
        Method::Len => Ok(cell.len() as u64),
        Method::CharAt => Ok(code(cell.char_at(AT))),
        Method::Slice => part_length(cell),
        Method::Equal => Ok(before.equal(cell) as u64),
        Method::Less => Ok(before.less(cell) as u64),
        Method::Find => Ok(place(cell.find(comma))),
        Method::Rfind => Ok(place(cell.rfind(comma))),
        Method::Count => Ok(cell.count(comma) as u64),
        Method::Replace => length(cell.replace(comma, &given.new, usize::MAX)),
        Method::SplitOn => Ok(cell.split_on(comma)?.len() as u64),
        Method::SplitBlank => Ok(cell.split_blank()?.len() as u64),
        Method::Strip => Ok(cell.strip(Side::Both, None)?.len() as u64),
        Method::StripOf => Ok(cell.strip(Side::Both, Some(&given.ends))?.len() as u64),
        Method::Lower => Ok(case_length(cell, cell.lower()?)),
        Method::Upper => Ok(case_length(cell, cell.upper()?)),
        Method::IsDigit => Ok((cell.is_digit() == Some(true)) as u64),
        Method::Concat => length(before.concat(cell, usize::MAX)),
        Method::Repeat => length(cell.repeat(TIMES, usize::MAX)),
        Method::Join => length(cell.join(&given.parts, usize::MAX)),
        Method::Zfill => length(cell.zfill(WIDTH, usize::MAX)),
    }
}

// The code point of a character, or 0.
fn code(found: Option<char>) -> u64 {
    match found {
        Some(c) => c as u64,
        None => 0,
    }
}

// A place and one more, or 0.
fn place(found: Option<usize>) -> u64 {
    match found {
        Some(at) => (at as u64).wrapping_add(1),
        None => 0,
    }
}

// The length of a part that begins behind a quarter of the cell.
fn part_length(cell: &PyText) -> Result<u64, NoMemory> {
    let from = cell.len() / 4;
    Ok(cell.slice(from, from + PART)?.len() as u64)
}

// The length of a text that was made, or 0.
fn length(made: Result<PyText, Long>) -> Result<u64, NoMemory> {
    match made {
        Ok(text) => Ok(text.len() as u64),
        Err(Long::TooLong) => Ok(0),
        Err(Long::NoMemory) => Err(NoMemory),
    }
}

// The length of what changing the case made, or of the cell where it made nothing.
fn case_length(cell: &PyText, made: Option<PyText>) -> u64 {
    match made {
        Some(text) => text.len() as u64,
        None => cell.len() as u64,
    }
}
