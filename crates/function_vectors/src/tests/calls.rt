// Functions as Python text, behind a line with what they are called on, and the value that CPython 3 gives or the class that it raises;
// ProfileError, and OverflowError past 128 bits, are rules of the language alone. `v` is one value, `r` a row, `a` an accumulator and a
// row; a row is a list of pairs, of which of equal names the first counts. The earlier defs stand in `EARLIER`.
pub const ROWS: &str = r#"
> v ; 5 ; None
lambda p: None
> v ; 5 ; 5
lambda p: p
> v ; 'a' ; ('a', ['a'], {'a': 'a'})
lambda p: (p, [p], {p: p})
> v ; 1 ; 1
lambda p: ((p))
> v ; 1 ; ()
lambda p: ()
> v ; 1 ; (1,)
lambda p: (p,)
> v ; 1 ; []
lambda p: []
> v ; 1 ; {}
lambda p: {}
> v ; 1 ; 'b'
lambda p: {1: "a", True: "b"}[1]
> v ; 1 ; {1: 'c'}
lambda p: {1: "a", True: "b", 1: "c"}
> v ; 1 ; ZeroDivisionError
lambda p: {p: p // 0, [1]: 2}
> v ; 1 ; TypeError
lambda p: {[p]: 1}
> v ; 1 ; TypeError
lambda p: {(p, [p]): 1}
> v ; 1 ; ZeroDivisionError
lambda p: [p, p // 0] if False else [p // 0, p + "a"]
> v ; 1 ; TypeError
lambda p: (p + "a", p // 0)
> v ; 1 ; TypeError
lambda p: {p + "a": p // 0}
> v ; 1 ; TypeError
lambda p: {p: p + "a", p // 0: 1}
> v ; 0 ; 0
lambda p: p and p // 0
> v ; 1 ; ZeroDivisionError
lambda p: p and p // 0
> v ; 1 ; 1
lambda p: p or p // 0
> v ; 0 ; ZeroDivisionError
lambda p: p or p // 0
> v ; [] ; 'x'
lambda p: p or "x"
> v ; [] ; []
lambda p: p and "x"
> v ; 'a' ; []
lambda p: p and [] and p // 0
> v ; '' ; {}
lambda p: p or 0 or () or {}
> v ; '' ; 'z'
lambda p: p or 0 or "z" or p // 0
> v ; 1 ; ZeroDivisionError
lambda p: not p or not p // 0
> v ; 0 ; True
lambda p: not p
> v ; [0] ; True
lambda p: not not p
> v ; 2 ; 3
lambda p: p and 3 or p // 0
> v ; 'a' ; TypeError
lambda p: not p + 1
> v ; None ; True
lambda p: p is None or p + 1
> v ; None ; False
lambda p: p is not None and p + 1
> v ; 4 ; 5
lambda p: p is not None and p + 1
> v ; 1 ; False
lambda p: 1 < 2 < 2
> v ; 2 ; True
lambda p: 1 < p < 3
> v ; 1 ; False
lambda p: 1 < p < p // 0
> v ; 2 ; ZeroDivisionError
lambda p: 1 < p < p // 0
> v ; 2 ; True
lambda p: 1 < twice(p) < 5
> v ; 2 ; ZeroDivisionError
lambda p: 1 < boom(p) < 5
> v ; 0 ; False
lambda p: 1 < p < boom(p)
> v ; 3 ; True
lambda p: 1 < p == 3 != 4 in [4]
> v ; 'b' ; True
lambda p: "a" < p <= "b" in "abc"
> v ; 1 ; TypeError
lambda p: p < "a" < 2
> v ; 1 ; False
lambda p: p == "a" < 2
> v ; None ; True
lambda p: p == p is None
> v ; [1] ; True
lambda p: 1 in p in [p]
> v ; 1 ; TypeError
lambda p: [] in {}
> v ; 1 ; 'y'
lambda p: "y" if p else p // 0
> v ; 0 ; 'n'
lambda p: p // 0 if p else "n"
> v ; 0 ; ZeroDivisionError
lambda p: p if p // 0 else boom(p)
> v ; 0 ; 2
lambda p: 1 if p else 2 if p + 1 else 3
> v ; [] ; 'b'
lambda p: ("a" if p else "b") if not p else "c"
> v ; 1 ; ZeroDivisionError
lambda p: (p // 0) + (p + "a")
> v ; 1 ; TypeError
lambda p: (p + "a") + (p // 0)
> v ; [1] ; TypeError
lambda p: p[p // 0]
> v ; [1] ; IndexError
lambda p: p[5][p // 0]
> v ; [1] ; TypeError
lambda p: p[0:"a"][p // 0]
> v ; [1, 2, 3] ; TypeError
lambda p: p["a":p // 0]
> v ; [1, 2, 3] ; [2]
lambda p: p[1:][:-1]
> v ; [1, 2, 3] ; [1, 2]
lambda p: p[None:2]
> v ; 'abc' ; 'b'
lambda p: p[-2:][0]
> v ; 3 ; 6
lambda p: -p * -p - +p
> v ; 7 ; -7
lambda p: -p // 2 * 2 + -p % 2
> v ; None ; TypeError
lambda p: -p
> v ; True ; 0
lambda p: -p + +p
> v ; 5 ; AttributeError
lambda p: (5).lower()
> v ; 5 ; AttributeError
lambda p: p.find(p // 0)
> v ; 'a' ; ZeroDivisionError
lambda p: p.find(1 // 0)
> v ; 'a' ; ZeroDivisionError
lambda p: p.find(1 // 0)
> v ; [1] ; AttributeError
lambda p: p.lower()
> v ; [1] ; AttributeError
lambda p: p.find(1 // 0)
> v ; {} ; AttributeError
lambda p: p.count(1 // 0)
> v ; {1: 2} ; 2
lambda p: p.get(True)
> v ; {1: 2} ; [{1: 2}]
lambda p: p.get(3, [p])
> v ; {1: 2} ; ZeroDivisionError
lambda p: p.get([], 1 // 0)
> v ; {1: 2} ; TypeError
lambda p: p.get([], 1)
> v ; (1, 2, 1) ; 3
lambda p: p.count(1) + p.index(2)
> v ; ' a,b ' ; ['a', 'b']
lambda p: p.strip().split(",")
> v ; 'x' ; 'XXX'
lambda p: p.replace("x", p * 3).upper()
> v ; 'a b' ; 'A-B'
lambda p: "-".join([w.upper() for w in p.split()])
> v ; 'a' ; TypeError
lambda p: ",".join([p, 1])
> v ; None ; AttributeError
lambda p: p.strip()
> v ; '12' ; 13
lambda p: int(p) + 1
> v ; '1x' ; ValueError
lambda p: int(p)
> v ; [3, 1, 2] ; (1, 3, 6, 3)
lambda p: (min(p), max(p), sum(p), len(p))
> v ; [] ; ValueError
lambda p: max(p)
> v ; [1, 'a'] ; TypeError
lambda p: min(p)
> v ; [True, 1] ; True
lambda p: max(p)
> v ; 7 ; TypeError
lambda p: len(p)
> v ; 7 ; '7NoneTrue'
lambda p: str(p) + str(None) + str(True)
> v ; [0, ''] ; (False, False)
lambda p: (any(p), all(p))
> v ; 'ab' ; ['a', 'b', ('a', 'b')]
lambda p: list(p) + [tuple(p)]
> v ; 'ab' ; TypeError
lambda p: ord(p)
> v ; 'a' ; 97
lambda p: ord(p)
> v ; 3 ; ZeroDivisionError
lambda p: min(p, 2, p // 0)
> v ; -3 ; 3
lambda p: abs(p)
> v ; {'k': 1} ; ['k']
lambda p: list(p)
> v ; [1, 2, 3] ; [1, 9]
lambda p: [i * i for i in p if i % 2]
> v ; [1, 2] ; [[1, 2], [2, 4]]
lambda p: [[i * j for j in p] for i in p]
> v ; [[1], [2, 3]] ; [[1], [2, 3]]
lambda p: [[p for p in p] for p in p]
> v ; [1, 2] ; [1, 2, 1, 2]
lambda p: [p for p in p] + p
> v ; [1, 2] ; [[[1, 2], [1, 2]], [[1, 2], [1, 2]]]
lambda p: [[p for i in p] for i in p]
> v ; 'ab' ; ['aa', 'bb']
lambda p: [c + c for c in p]
> v ; 3 ; TypeError
lambda p: [i for i in p]
> v ; {'a': 1, 'b': 2} ; ['a', 'b']
lambda p: [k for k in p]
> v ; [1, 0] ; ZeroDivisionError
lambda p: [1 // i for i in p]
> v ; [1, 0] ; ZeroDivisionError
lambda p: [i for i in p if 1 // i]
> v ; [(1, 2), (3, 4)] ; [3, 7]
lambda p: [a + b for a, b in p]
> v ; [(1, 2), (3,)] ; ValueError
lambda p: [a for a, b in p]
> v ; [(1, 2), 3] ; TypeError
lambda p: [a for a, b in p]
> v ; ['ab', 'cd'] ; ['ba', 'dc']
lambda p: [b + a for a, b in p]
> v ; [1, 2] ; [2, 3]
lambda p: [x for x in [y + 1 for y in p]]
> v ; [1, 2] ; [[0], [0, 1]]
lambda p: [[y for y in range(x)] for x in p]
> v ; [1, 2] ; ZeroDivisionError
lambda p: [i for i in p if i > 1 and i // 0]
> v ; 3 ; [0, 1, 2]
lambda p: [i for i in range(p)]
> v ; 3 ; [1, 4, 7]
lambda p: [i for i in range(1, p * 3, p)]
> v ; 3 ; [3, 2, 1]
lambda p: [i for i in range(p, 0, -1)]
> v ; 3 ; ValueError
lambda p: [i for i in range(0, p, 0)]
> v ; 'a' ; TypeError
lambda p: [i for i in range(p)]
> v ; 3 ; ZeroDivisionError
lambda p: [i for i in range(p // 0)]
> v ; 'ab' ; [(0, 'a'), (1, 'b')]
lambda p: [(i, c) for i, c in enumerate(p)]
> v ; 'ab' ; [('a', 1), ('b', 2)]
lambda p: [x for x in zip(p, [1, 2, 3])]
> v ; 'ab' ; TypeError
lambda p: [x for x in zip(p, 5)]
> v ; 5 ; ZeroDivisionError
lambda p: [x for x in zip(p, 1 // 0)]
> v ; {'a': 1} ; [('a', 1)]
lambda p: [x for x in p.items()]
> v ; {'a': 1} ; [1, 'a', 1]
lambda p: [v for k, v in p.items()] + [k for k in p.keys()] + [v for v in p.values()]
> v ; [1] ; AttributeError
lambda p: [x for x in p.items()]
> v ; 1 ; AttributeError
lambda p: [x for x in p.keys()]
> v ; 1 ; ZeroDivisionError
lambda p: [x for x in boom(p).values()]
> v ; [{'a': 1}, {'b': 2}] ; ['a', 'b']
lambda p: [k[0] for k in [[k for k in d] for d in p]]
> v ; 2 ; 4
lambda p: twice(p)
> v ; 2 ; [4, 2]
lambda p: both(p, [0, p])
> v ; 2 ; ZeroDivisionError
lambda p: both(boom(p), p + "a")
> v ; 2 ; TypeError
lambda p: both(p + "a", boom(p))
> v ; [0, ''] ; None
lambda p: first(p)
> v ; [0, 3] ; 3
lambda p: first(p)
> v ; 0 ; UnboundLocalError
lambda p: late(p)
> v ; 1 ; 1
lambda p: late(p)
> v ; [1, 2] ; [2, 4]
lambda p: [twice(i) for i in p]
> v ; 'abc' ; 4
lambda p: count(p) + h()
> v ; 1 ; 17
def f(p):
    v = 7
    n = 8
    return twice(p) + v + n
> v ; 0 ; UnboundLocalError
def f(p):
    n = 5
    return late(p)
> v ; 1 ; None
def f(p):
    pass
> v ; 1 ; None
def f(p):
    return
> v ; 1 ; None
def f(p):
    p
> v ; 1 ; ZeroDivisionError
def f(p):
    p // 0
> v ; 1 ; 1
def f(p):
    return p
    return p // 0
> v ; 1 ; 2
def f(p):
    a = p
    a = a + 1
    return a
> v ; 0 ; UnboundLocalError
def f(p):
    if p:
        a = 1
    return a
> v ; 1 ; 1
def f(p):
    if p:
        a = 1
    return a
> v ; 0 ; 'b'
def f(p):
    if p:
        return "a"
    elif p == 0:
        return "b"
    else:
        return "c"
> v ; 5 ; 'c'
def f(p):
    if p < 0:
        return "a"
    elif p < 3:
        return "b"
    else:
        p = "c"
    return p
> v ; 5 ; ZeroDivisionError
def f(p):
    if p // 0:
        return 1
    elif boom(p):
        return 2
> v ; 0 ; 2
def f(p):
    if p: return 1
    return 2
> v ; 1 ; UnboundLocalError
def f(p):
    a = a + 1
    return a
> v ; 1 ; UnboundLocalError
def f(p):
    return [a for i in [1]]
    a = 1
> v ; 1 ; UnboundLocalError
def f(p):
    for i in []:
        pass
    return i
> v ; [1, 2] ; 2
def f(p):
    for i in p:
        pass
    return i
> v ; [1, 2] ; 9
def f(p):
    i = 9
    for i in []:
        pass
    return i
> v ; [1, 2] ; 'y'
def f(p):
    for i in p:
        for i in "xy":
            pass
    return i
> v ; [1, 2] ; (5, [1, 2])
def f(p):
    i = 5
    q = [i for i in p]
    return (i, q)
> v ; [1, 2, 3] ; 4
def f(p):
    s = 0
    for i in p:
        if i == 2:
            continue
        s += i
    return s
> v ; [1, 2, 3] ; (1, 2)
def f(p):
    s = 0
    for i in p:
        if i == 2:
            break
        s += i
    return (s, i)
> v ; [[1, 2], [3, 4]] ; 170
def f(p):
    s = 0
    for r in p:
        for c in r:
            if c == 2:
                break
            s += c
        s = s * 10
    return s
> v ; [[1, 2], [3, 4]] ; '24'
def f(p):
    s = ""
    for r in p:
        for c in r:
            if c % 2:
                continue
            s += str(c)
        else_ = 1
    return s
> v ; [[1, 2], [3, 4]] ; [3, 4]
def f(p):
    for r in p:
        for c in r:
            if c == 3:
                return r
> v ; [1, 2] ; 1
def f(p):
    for i in p:
        return i
        p // 0
> v ; [1, 0, 2] ; ZeroDivisionError
def f(p):
    for i in p:
        a = 1 // i
    return a
> v ; [1, 2] ; 1
def f(p):
    for i in p:
        if i == 2:
            break
        break
    return i
> v ; [0, 1] ; ZeroDivisionError
def f(p):
    for i in p:
        if i:
            return 1 // 0
        continue
> v ; [1, 2] ; (2, 5)
def f(p):
    for i in p:
        p = 5
    return (i, p)
> v ; [1, 2] ; 4
def f(p):
    for p in p:
        q = p
    return p + q
> v ; 5 ; TypeError
def f(p):
    for i in p:
        return 1
> v ; 5 ; ZeroDivisionError
def f(p):
    for i in p // 0:
        return 1
> v ; {'a': 1} ; 'a1'
def f(p):
    for k, v in p.items():
        return k + str(v)
> v ; 'ab' ; 'b'
def f(p):
    r = ""
    for i, c in enumerate(p):
        r = c * i + r
    return r
> v ; [3, 4] ; 12
def f(p):
    for a, b in zip(p, p[1:]):
        return a * b
> v ; [1] ; AttributeError
def f(p):
    for i in p.items():
        pass
> v ; (1, 2) ; 1
def f(p):
    a, b = p
    return b - a
> v ; [1, 2] ; 1
def f(p):
    a, b = p
    return b - a
> v ; 'xy' ; 'yx'
def f(p):
    a, b = p
    return b + a
> v ; {'x': 1, 'y': 2} ; 'yx'
def f(p):
    a, b = p
    return b + a
> v ; (1,) ; ValueError
def f(p):
    a, b = p
    return 1
> v ; [1, 2, 3] ; ValueError
def f(p):
    a, b = p
    return 1
> v ; 'x' ; ValueError
def f(p):
    a, b = p
    return 1
> v ; 'xyz' ; ValueError
def f(p):
    a, b = p
    return 1
> v ; {} ; ValueError
def f(p):
    a, b = p
    return 1
> v ; 5 ; TypeError
def f(p):
    a, b = p
    return 1
> v ; None ; TypeError
def f(p):
    a, b = p
    return 1
> v ; (1,) ; 1
def f(p):
    a, = p
    return a
> v ; (1, 2) ; ValueError
def f(p):
    a, = p
    return a
> v ; (1, 2) ; (2, 1)
def f(p):
    p, q = p
    return (q, p)
> v ; (1, 2) ; 2
def f(p):
    (a, a) = p
    return a
> v ; 1 ; (2, 1)
def f(p):
    a, b = p, p + 1
    a, b = b, a
    return (a, b)
> v ; 1 ; ZeroDivisionError
def f(p):
    a, b = p // 0
    return 1
> v ; [1, 2] ; ValueError
def f(p):
    for a, b in [p, [3]]:
        c = a
    return c
> v ; (1, 2) ; [1, 2]
def f(p):
    (a, b) = p
    return [a, b]
> v ; 5 ; 0
def f(p):
    p += 1
    p -= 2
    p *= 3
    p //= 5
    p %= 2
    return p
> v ; 'a' ; 'abab'
def f(p):
    p += "b"
    p *= 2
    return p
> v ; (1,) ; (1, 2)
def f(p):
    p += (2,)
    return p
> v ; [1] ; ProfileError
def f(p):
    p += [2]
    return p
> v ; [1] ; ProfileError
def f(p):
    p *= 2
    return p
> v ; [1] ; ZeroDivisionError
def f(p):
    p += 1 // 0
    return p
> v ; [1] ; ProfileError
def f(p):
    p -= 1
    return p
> v ; 5 ; TypeError
def f(p):
    p += "a"
    return p
> v ; 5 ; ZeroDivisionError
def f(p):
    p //= 0
    return p
> v ; None ; TypeError
def f(p):
    p += 1
    return p
> v ; True ; 2
def f(p):
    p += True
    return p
> v ; 1 ; UnboundLocalError
def f(p):
    a += 1
    return a
> v ; 1 ; UnboundLocalError
def f(p):
    a += p // 0
    return a
    a = 1
> v ; 'a' ; TypeError
def f(p):
    p += p + 1
    return p
> v ; {} ; TypeError
def f(p):
    p += {}
    return p
> v ; 3 ; 3
def f(p):
    s = 0
    for i in range(p):
        s += i
    return s
> r ; [('a', 1), ('b', 2)] ; 3
lambda x: x["a"] + x["b"]
> r ; [('a', 3), ('é', 4), ('a', 1000)] ; 7
lambda x: x["a"] + x["é"]
> r ; [('a', 1), ('b', None)] ; TypeError
lambda x: x["a"] + x["b"]
> r ; [('a', 1), ('b', 'xy')] ; [1, 1]
lambda x: [x["a"] for i in x["b"]]
> r ; [('a', None), ('b', 'n')] ; 'n'
def f(x):
    a = x["a"]
    if a is None:
        return x["b"]
    return a
> r ; [('l', [1, 2]), ('f', 10)] ; 30
def f(x):
    s = 0
    for i in x["l"]:
        s += i * x["f"]
    return s
> r ; [('a', 'z')] ; 'zz'
lambda x: twice(x["a"])
> r ; [('a', 0)] ; (0, 0)
lambda x: (x["a"], x["c"] if x["a"] else 0)
> r ; [('a', {'q': 1}), ('k', 'q')] ; 1
lambda x: x["a"][x["k"]]
> r ; [('a', ' x1 ')] ; 'x1'
lambda x: int(x["a"]) if x["a"].isdigit() else x["a"].strip()
> a ; (0, [('n', 5)]) ; 5
lambda acc, x: acc + x["n"]
> a ; (None, [('n', 5)]) ; TypeError
lambda acc, x: acc + x["n"]
> a ; ((0, ''), [('n', 5), ('t', 'u')]) ; (5, 'u')
lambda acc, x: (acc[0] + x["n"], acc[1] + x["t"])
> a ; ([], [('n', 5)]) ; [5]
lambda acc, x: acc + [x["n"]]
> a ; (1, [('l', [2, 3])]) ; 6
def f(acc, x):
    for i in x["l"]:
        acc *= i
    return acc
> a ; (3, [('n', 1)]) ; -3
def f(acc, x):
    acc += x["n"]
    if acc > 5:
        return acc
    return x["n"] - acc
> v ; 'a' ; ProfileError
lambda p: (p * 600000) + (p * 600000)
> v ; 'a' ; ProfileError
lambda p: [p * 600000 for i in range(2)]
> v ; 'a' ; ProfileError
lambda p: [p * 600000 for i in range(2)] or 1 // 0
> v ; 'a' ; ProfileError
lambda p: [p * 600000, p * 600000]
> v ; 'a' ; 'a'
lambda p: [p * 600000 for i in [1]][0][0]
> v ; 1 ; ProfileError
lambda p: [i for i in range(1048577)]
> v ; 'é' ; ProfileError
lambda p: "%s" % p
> v ; 'Ā' ; ProfileError
lambda p: p.lower()
> v ; '٣' ; ProfileError
lambda p: p.isdigit()
> v ; '٣' ; ProfileError
lambda p: int(p)
> v ; 85070591730234615865843651857942052864 ; OverflowError
lambda p: p + p
> v ; -170141183460469231731687303715884105727 - 1 ; OverflowError
lambda p: -p
> v ; -170141183460469231731687303715884105727 - 1 ; OverflowError
lambda p: p // -1
> v ; 18446744073709551616 ; OverflowError
lambda p: "a" * p
> v ; [1] ; ProfileError
lambda p: str(p)
> v ; 1 ; ProfileError
def f(p):
    p = [p]
    p = [p]
    p = [p]
    p = [p]
    p = [p]
    p = [p]
    p = [p]
    p = [p]
    p = [p]
    p = [p]
    p = [p]
    p = [p]
    p = [p]
    p = [p]
    p = [p]
    p = [p]
    p = [p]
    return 1
"#;

pub const COUNT: usize = 246;

// The earlier defs, each behind a line with its name and the number of its parameters.
pub const EARLIER: &str = r#"
> h ; 0
def h():
    return 1
> g ; 1
def g(v):
    return v
> boom ; 1
def boom(v):
    return v // 0
> twice ; 1
def twice(v):
    return g(v) + g(v)
> first ; 1
def first(v):
    for i in v:
        if i:
            return i
> both ; 2
def both(v, w):
    return [twice(v), first(w)]
> count ; 1
def count(v):
    n = 0
    for i in v:
        n += 1
    return n
> late ; 1
def late(v):
    if v:
        n = 1
    return n
"#;
