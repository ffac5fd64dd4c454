// The keywords of Python, and places where a name may stand: a script with `#` for the name, a line end written as a bar,
// and the line of the name.
pub(super) const USED: &str = "\
False
None
True
and
break
continue
def
elif
else
for
if
in
is
lambda
not
or
pass
return
";

pub(super) const OUTSIDE: &str = "\
as
assert
async
await
class
del
except
finally
from
global
import
nonlocal
raise
try
while
with
yield
";

pub(super) const PLACES: &str = "\
#|;1
#(\"a\")|;1
csv(\"a\").#()|;1
# = p|;1
q = #|;1
q = #(\"a\")|;1
(#)|;1
def #(): pass|;1
def f(#): pass|;1
def f(a, #): pass|;1
def f(a, #,): pass|;1
csv(\"a\").map(lambda #: 1)|;1
csv(\"a\").map(lambda x, #: 1)|;1
def f(a):|    # = 1|;2
def f(a):|    x, # = a|;2
def f(a):|    x, #, = a|;2
def f(a):|    (#, x) = a|;2
def f(a):|    # += 1|;2
def f(a):|    a.#()|;2
def f(a):|    return a + #(b)|;2
def f(a):|    for # in a: pass|;2
def f(a):|    for x, # in a: pass|;2
def f(a):|    for (#, x) in a:|        pass|;2
def f(a):|    return [|        x for # in a]|;3
def f(a):|    return [x for x, # in a]|;2
";
