// The words of the product, and the columns of one pipe by hand: `csv`, `csv`, `renameColumn("a", "k")`,
// `join(1, "k", "r")`, `tocsv`. Scripts make many more pipes: their columns are tried where scripts are read.
ghost use Rattle.std.specs.Prelude.{◌≡◌, [], None, IfOk};
ghost use Rattle.std.specs.Str.{chars};
ghost use Rattle.tx_pipe.specs.Pipe.{csv, rename_column, join, to_csv, operator_of, node_of, pipe_of};
ghost use Rattle.tx_pipe.specs.Lawful.{Lawful};

use crate::{
    ColumnsError, Handlers, Headers, Node, Operator, Pipe, Schemas, class_at, columns, verb_named,
};
use std::alloc::Global;
use tx_base::class_name;
use tx_text::{Bytes, NoMemory, PyText};
use tx_values::{Names, Naming};

// ---- words

// The words of operators and handlers.
const VERBS: &str =
    "csv map filter withColumn mapColumn selectColumns renameColumn join leftJoin unique aggregate tocsv resolve ignore";

// The names of classes, those that only catch among them.
const CLASSES: &str =
    "TypeError ValueError KeyError IndexError ZeroDivisionError OverflowError AttributeError UnboundLocalError UnicodeDecodeError ProfileError RecordError ArithmeticError LookupError NameError Exception";

// Words that name nothing.
const OTHERS: &str = "Csv tocsv2 to_csv withcolumn maps lambda len BaseException Typeerror csvé é";

// Whether a word names the operator or handler of this word; none where it is empty.
fn is_verb(alloc: Global, word: &str, wanted: &str) -> Result<bool, NoMemory> {
    let text = PyText::from_str(alloc, word)?;
    match verb_named(&text) {
        Some(verb) => Ok(verb.word() == wanted),
        None => Ok(wanted == ""),
    }
}

// The same of classes.
fn is_class(alloc: Global, word: &str, wanted: &str) -> Result<bool, NoMemory> {
    let text = PyText::from_str(alloc, word)?;
    match class_at(&text) {
        Some(class) => Ok(class_name(class) == wanted),
        None => Ok(wanted == ""),
    }
}

#[test]
fn words_name_operators_and_handlers(rt: HostRuntime) {
    let mut words = 0usize;
    for word in VERBS.split(' ') {
        assert!(rt; is_verb(rt.alloc(), word, word) == Ok(true), "{word}");
        words = words.wrapping_add(1);
    }
    assert!(rt; words == 14);
}

#[test]
fn words_name_classes(rt: HostRuntime) {
    let mut words = 0usize;
    for word in CLASSES.split(' ') {
        assert!(rt; is_class(rt.alloc(), word, word) == Ok(true), "{word}");
        words = words.wrapping_add(1);
    }
    assert!(rt; words == 15);
}

#[test]
fn other_words_name_nothing(rt: HostRuntime) {
    let mut words = 0usize;
    for word in OTHERS.split(' ') {
        assert!(rt; is_verb(rt.alloc(), word, "") == Ok(true), "{word}");
        assert!(rt; is_class(rt.alloc(), word, "") == Ok(true), "{word}");
        words = words.wrapping_add(1);
    }
    assert!(rt; words == 11);
}

// ---- columns

fn text(alloc: Global, characters: &str) -> Result<PyText, NoMemory>
    ensures { IfOk result (λ t. t ≡ chars characters.now) }
{
    PyText::from_str(alloc, characters)
}

fn node(alloc: Global, operator: Operator, input: u32) -> Node
    ensures { node_of result ≡ record { operation = operator_of operator; input = input; handlers = []; line = 1 } }
{
    Node {
        operator,
        input,
        handlers: Handlers::new(alloc),
        line: 1,
    }
}

fn source(alloc: Global, file: &str) -> Result<Node, NoMemory>
    ensures { IfOk result (λ n. node_of n ≡ record { operation = csv (chars file.now) None; input = 0; handlers = []; line = 1 }) }
{
    let file = text(alloc, file)?;
    let naming = Naming { names: None };
    Ok(node(alloc, Operator::Csv { file, naming }, 0))
}

fn renamed(alloc: Global, old: &str, new_name: &str) -> Result<Node, NoMemory>
    ensures { IfOk result (λ n. node_of n ≡ record { operation = rename_column (chars old.now) (chars new_name.now); input = 2; handlers = []; line = 1 }) }
{
    let old = text(alloc, old)?;
    let new_name = text(alloc, new_name)?;
    Ok(node(alloc, Operator::RenameColumn { old, new_name }, 2))
}

fn joined(alloc: Global, left_key: &str, right_key: &str) -> Result<Node, NoMemory>
    ensures { IfOk result (λ n. node_of n ≡ record { operation = join 1 (chars left_key.now) (chars right_key.now); input = 3; handlers = []; line = 1 }) }
{
    let left_key = text(alloc, left_key)?;
    let right_key = text(alloc, right_key)?;
    let operator = Operator::Join {
        right: 1,
        left_key,
        right_key,
    };
    Ok(node(alloc, operator, 3))
}

fn written(alloc: Global, file: &str) -> Result<Node, NoMemory>
    ensures { IfOk result (λ n. node_of n ≡ record { operation = to_csv (chars file.now); input = 4; handlers = []; line = 1 }) }
{
    let file = text(alloc, file)?;
    Ok(node(alloc, Operator::ToCsv { file }, 4))
}

fn pipe(alloc: Global) -> Result<Pipe, NoMemory>
    ensures { IfOk result (λ p. Lawful (pipe_of p)) }
{
    let right = source(alloc, "right.csv")?;
    let left = source(alloc, "left.csv")?;
    let rename = renamed(alloc, "a", "k")?;
    let join = joined(alloc, "k", "r")?;
    let output = written(alloc, "out.csv")?;
    let nodes = vec![in alloc; right, left, rename, join, output]?;
    Ok(Pipe::from_vec(nodes))
}

// The names between commas; a `-` is no names.
fn names_of(alloc: Global, row: &str) -> Result<Names, NoMemory> {
    let mut names = Names::new(alloc);
    if row == "-" {
        return Ok(names);
    }
    for name in row.split(',') {
        let mut bytes = Bytes::new(alloc);
        bytes.push_all(name.as_bytes())?;
        names.push(bytes)?;
    }
    Ok(names)
}

// The columns of the sources, the right one first, and none of the others.
fn headers(alloc: Global, right: &str, left: &str) -> Result<Headers, NoMemory> {
    let mut headers = Headers::new(alloc);
    headers.push(names_of(alloc, right)?)?;
    headers.push(names_of(alloc, left)?)?;
    for _ in 0..3 {
        headers.push(Names::new(alloc))?;
    }
    Ok(headers)
}

fn print_names(written: &mut Bytes, names: &[Bytes]) -> Result<(), NoMemory> {
    for name in names {
        written.push(b' ')?;
        written.push_all(name.as_slice())?;
    }
    Ok(())
}

fn print_schemas(written: &mut Bytes, schemas: &Schemas) -> Result<(), NoMemory> {
    for names in schemas.as_slice() {
        print_names(written, names.as_slice())?;
        written.push_all(b" /")?;
    }
    Ok(())
}

fn print_absent(
    alloc: Global,
    written: &mut Bytes,
    operator: u32,
    name: &PyText,
) -> Result<(), NoMemory> {
    let place = format!(in alloc; " {operator}:")?;
    written.push_all(place.as_str().as_bytes())?;
    written.push_all(name.as_str().as_bytes())
}

// The columns of each operator, or the number of the operator that asks for an absent name, and the name.
fn answer(alloc: Global, right: &str, left: &str) -> Result<Bytes, NoMemory> {
    let pipe = pipe(alloc)?;
    let headers = headers(alloc, right, left)?;
    let mut written = Bytes::new(alloc);
    match columns(alloc, &pipe, &headers) {
        Ok(schemas) => print_schemas(&mut written, &schemas)?,
        Err(ColumnsError::Unknown { operator, name }) => {
            print_absent(alloc, &mut written, operator, &name)?;
        }
        Err(ColumnsError::NoMemory) => return Err(NoMemory),
    }
    Ok(written)
}

// The columns of the right file and of the left one, and the answer.
const ANSWERS: &str = "\
r,v,r | a,b,a | r v r / a b a / k b a / k b a v r / k b a v r /
v,r | a | v r / a / k / k v / k v /
r | k,a,k | r / k a k / k k k / k k k / k k k /
r,k | a,r | r k / a r / k r / k r k / k r k /
v,k | a,b | 4:r
v | b,k | 3:a
- | - | 3:a
r | A,a | r / A a / A k / A k / A k /
é | é,a | 4:r
";

fn part(row: &str, at: usize) -> &str {
    row.split(" | ").nth(at).unwrap_or("")
}

fn agrees(alloc: Global, row: &str) -> Result<bool, NoMemory> {
    let written = answer(alloc, part(row, 0), part(row, 1))?;
    let mut wanted = Bytes::new(alloc);
    wanted.push(b' ')?;
    wanted.push_all(part(row, 2).as_bytes())?;
    Ok(written.as_slice() == wanted.as_slice())
}

#[test]
fn columns_go_from_operator_to_operator(rt: HostRuntime) {
    let mut rows = 0usize;
    for row in ANSWERS.lines() {
        assert!(rt; agrees(rt.alloc(), row) == Ok(true), "{row}");
        rows = rows.wrapping_add(1);
    }
    assert!(rt; rows == 9);
}
