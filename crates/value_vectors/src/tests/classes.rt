// Classes with their words and their order, and steps.
ghost use Rattle.std.specs.Prelude.{◌≡◌, ◌<◌};

use std::marker::Brand;
use std::sync::ledger::{Blank, Ledger};
use tx_base::{Class, Meter, Steps, catches, class_name, class_named, step};

fn stepped<L: Ledger>(mut meter: Meter, blank: Blank) -> Meter
    requires name { blank.name ≡ L.name }
    requires parts { blank.parts ≡ L.parts }
    requires some { 0 < L.parts }
{
    let mut steps = Steps::<L>::open(blank);
    step(&mut meter, &mut steps);
    step(&mut meter, &mut steps);
    meter
}

fn two_steps(meter: Meter) -> Meter {
    stepped::<Brand>(meter, Blank::new(1))
}

#[test]
fn a_step_is_metered(rt: HostRuntime) {
    let twice = Meter {
        interp: 2,
        typed: 0,
    };
    assert!(rt; two_steps(Meter::new()) == twice);
    let full = Meter {
        interp: u64::MAX - 1,
        typed: 3,
    };
    let last = Meter {
        interp: u64::MAX,
        typed: 3,
    };
    assert!(rt; two_steps(full) == last);
}

// Each class with those above it, from the nearest, as Python's `__mro__` has them; ProfileError and RecordError are the
// project's own.
const LINEAGES: &str = "\
TypeError Exception
ValueError Exception
KeyError LookupError Exception
IndexError LookupError Exception
ZeroDivisionError ArithmeticError Exception
OverflowError ArithmeticError Exception
AttributeError Exception
UnboundLocalError NameError Exception
UnicodeDecodeError ValueError Exception
ProfileError Exception
RecordError Exception
ArithmeticError Exception
LookupError Exception
NameError Exception
Exception
";

// The first word of a line, and its class.
fn first(line: &str) -> Option<(&str, Class)> {
    let word = line.split(' ').next()?;
    Some((word, class_named(word)?))
}

// Whether the class of the other line catches that of the line exactly where the line has its word.
fn is_caught(line: &str, other: &str) -> bool {
    match (first(line), first(other)) {
        (Some((_, raised)), Some((word, handler))) => {
            catches(handler, raised) == line.split(' ').any(|above| above == word)
        }
        _ => false,
    }
}

// Whether the class of a line has the line's first word.
fn is_named(line: &str) -> bool {
    match first(line) {
        Some((word, class)) => class_name(class) == word,
        None => false,
    }
}

#[test]
fn classes_have_words_and_are_caught_by_those_above(rt: HostRuntime) {
    let mut lines = 0usize;
    for line in LINEAGES.lines() {
        assert!(rt; is_named(line), "{line}");
        assert!(rt;
            LINEAGES.lines().all(|other| is_caught(line, other)),
            "{line}"
        );
        lines = lines.wrapping_add(1);
    }
    assert!(rt; lines == 15);
}

#[test]
fn words_name_their_classes(rt: HostRuntime) {
    assert!(rt; class_name(Class::TypeError) == "TypeError");
    assert!(rt; class_name(Class::Exception) == "Exception");
    assert!(rt; class_named("keyerror").is_none());
    assert!(rt; class_named("KeyError ").is_none());
    assert!(rt; class_named("").is_none());
}
