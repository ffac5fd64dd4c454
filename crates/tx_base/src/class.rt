// The classes of exceptions.
ghost use Rattle.std.specs.Prelude.{◌≡◌, ◌↔◌, Some};
ghost use Rattle.tx_base.specs.Class.{name_of, catches};
ghost use Rattle.tx_base.specs.Laws.{ClassesAreATree};

/// A class of exceptions. The first eleven can be raised; the last four only catch.
#[derive(Clone, Copy, Debug, PartialEq, Eq)]
pub enum Class {
    TypeError,
    ValueError,
    KeyError,
    IndexError,
    ZeroDivisionError,
    OverflowError,
    AttributeError,
    UnboundLocalError,
    UnicodeDecodeError,
    ProfileError,
    RecordError,
    ArithmeticError,
    LookupError,
    NameError,
    Exception,
}

/// The word of a class, as the report writes it.
pub fn class_name(class: Class) -> &'static str
    ensures { result.now ≡ name_of class }
{
    match class {
        Class::TypeError => "TypeError",
        Class::ValueError => "ValueError",
        Class::KeyError => "KeyError",
        Class::IndexError => "IndexError",
        Class::ZeroDivisionError => "ZeroDivisionError",
        Class::OverflowError => "OverflowError",
        Class::AttributeError => "AttributeError",
        Class::UnboundLocalError => "UnboundLocalError",
        Class::UnicodeDecodeError => "UnicodeDecodeError",
        Class::ProfileError => "ProfileError",
        Class::RecordError => "RecordError",
        Class::ArithmeticError => "ArithmeticError",
        Class::LookupError => "LookupError",
        Class::NameError => "NameError",
        Class::Exception => "Exception",
    }
}

/// The class of a word: `KeyError` of `"KeyError"`, none of another word.
pub fn class_named(name: &str) -> Option<Class>
    ensures { (class : Class) → (result ≡ Some class) ↔ (name.now ≡ name_of class) }
{
    Some(match name {
        "TypeError" => Class::TypeError,
        "ValueError" => Class::ValueError,
        "KeyError" => Class::KeyError,
        "IndexError" => Class::IndexError,
        "ZeroDivisionError" => Class::ZeroDivisionError,
        "OverflowError" => Class::OverflowError,
        "AttributeError" => Class::AttributeError,
        "UnboundLocalError" => Class::UnboundLocalError,
        "UnicodeDecodeError" => Class::UnicodeDecodeError,
        "ProfileError" => Class::ProfileError,
        "RecordError" => Class::RecordError,
        "ArithmeticError" => Class::ArithmeticError,
        "LookupError" => Class::LookupError,
        "NameError" => Class::NameError,
        "Exception" => Class::Exception,
        _ => return None,
    })
}

/// Whether a handler of one class takes what is raised with another, as Python's `except`: a class catches itself and
/// all below it, so `LookupError` catches `KeyError`, and `KeyError` does not catch `LookupError`.
pub fn catches(handler: Class, raised: Class) -> bool
    ensures { result ≡ catches handler raised }
{
    match handler {
        Class::Exception => true,
        Class::ArithmeticError => matches!(
            raised,
            Class::ArithmeticError | Class::OverflowError | Class::ZeroDivisionError
        ),
        Class::LookupError => matches!(
            raised,
            Class::LookupError | Class::IndexError | Class::KeyError
        ),
        Class::NameError => matches!(raised, Class::NameError | Class::UnboundLocalError),
        Class::ValueError => matches!(raised, Class::ValueError | Class::UnicodeDecodeError),
        other => other == raised,
    }
}

/// A class is caught by itself and by what catches the class directly above it, and by nothing else.
pub fn classes_are_a_tree()
    ensures { ClassesAreATree }
{}
