// Lists and their bytes, and bytes that are no text.
use std::alloc::Global;
use std::test::Fail;
use tx_text::{Bytes, NoMemory, Numbers, PyText, Sequence, Texts, Utf8Fault};

#[test]
fn bytes_that_are_no_text_are_told(rt: HostRuntime) -> Result<(), Fail> {
    let fault = PyText::from_utf8(rt.alloc(), b"a\xff").err();
    assert!(rt; fault == Some(Utf8Fault::NotUtf8));
    let text = PyText::from_utf8(rt.alloc(), b"a\xc3\x9f\xe2\x82\xac").ok();
    assert!(rt; text.is_some_and(|text| text.as_str() == "aß€"));
    assert!(rt; NoMemory == NoMemory);
    Ok(())
}

fn bytes_are_kept(alloc: Global) -> Result<bool, NoMemory> {
    let mut bytes = Bytes::new(alloc);
    let none = bytes.is_empty();
    bytes.push_all(b"ab")?;
    bytes.push(99)?;
    Ok(
        none && bytes.as_slice() == b"abc".as_slice()
            && bytes.get(2) == Some(&99)
            && bytes.get(3).is_none(),
    )
}

fn numbers_are_kept(alloc: Global) -> Result<bool, NoMemory> {
    let mut numbers = Numbers::from_vec([5, 6].to_vec(alloc)?);
    numbers.push(7)?;
    Ok(numbers.into_vec().as_slice() == [5, 6, 7].as_slice())
}

fn texts_are_kept(alloc: Global) -> Result<bool, NoMemory> {
    let mut texts = Texts::new(alloc);
    texts.push(PyText::from_str(alloc, "x")?)?;
    Ok(texts.len() == 1)
}

#[test]
fn lists_keep_what_is_pushed(rt: HostRuntime) -> Result<(), Fail> {
    assert!(rt; bytes_are_kept(rt.alloc())?);
    assert!(rt; numbers_are_kept(rt.alloc())?);
    assert!(rt; texts_are_kept(rt.alloc())?);
    Ok(())
}

/// A type that leads back to itself through a list.
#[derive(Debug, Drop)]
enum Tree {
    Leaf(u64),
    Node(Sequence<Tree>),
}

fn first_leaf(tree: &Tree) -> Option<u64> {
    match tree {
        Tree::Leaf(n) => Some(*n),
        Tree::Node(trees) => match trees.as_slice() {
            [] => None,
            [first, ..] => first_leaf(first),
        },
    }
}

fn node(alloc: Global, first: Tree) -> Result<Tree, NoMemory> {
    let mut trees = Sequence::new(alloc);
    trees.push(first)?;
    trees.push(Tree::Leaf(8))?;
    Ok(Tree::Node(trees))
}

#[test]
fn a_tree_leads_back_through_a_list(rt: HostRuntime) -> Result<(), Fail> {
    let inner = node(rt.alloc(), Tree::Leaf(7))?;
    let outer = node(rt.alloc(), inner)?;
    assert!(rt; first_leaf(&outer) == Some(7));
    Ok(())
}
