// Functions as Python text, a lambda or a def called `f`, behind a line with the role and the answer. The role is a number of values,
// `r` (a row) or `a` (an accumulator and a row). The answer is `ok` with the number of slots and the columns, or the fault and its
// line. The earlier defs are `h`, which takes no value, and `g`, which takes one. The operator is on line 90.
pub const ROWS: &str = r#"
> r ; ok 0 c
lambda x: x["c"]
> a ; ok 1 c,d
lambda acc, x: acc + x["c"] + x["d"]
> 2 ; ok 2
lambda p, q: p + q
> 0 ; ok 0
lambda: h()
> 1 ; ok 1
lambda p: g(p)
> r ; ok 1 c
lambda x: [y for y in x["c"]]
> r ; ok 2 c,d
lambda x: [[z for z in y] for y in x["c"] if y < x["d"]]
> 1 ; ok 1
lambda p: [p for p in p]
> 1 ; ok 3
lambda p: [i + j for i, j in enumerate(p)]
> 1 ; ok 2
lambda p: [k for k in p.items()]
> r ; ok 1 c,d
lambda x: [1 for k in range(x["c"], x["d"])]
> 1 ; ok 1
lambda p: p[:] if p < 1 and p else p["c"]
> 1 ; ok 2
def f(p):
    q = p
    return q
> 2 ; ok 3
def f(p, q):
    for i in p:
        q += i
    return q
> r ; ok 6 c,d,c
def f(x):
    y = x["c"]
    a, b = y
    if a < b:
        return x["d"]
    elif b < a:
        c = 1
    else:
        d = [e for e in y]
    return x["c"]
> 1 ; ok 2
def f(v):
    g = 1
    return g
> 1 ; ok 2
def f(p):
    return [p for q in p]
> 0 ; ok 0
def f():
    pass
> 1 ; Unknown 1
lambda p: q
> r ; Unknown 1
lambda x: x["c"] + y
> 1 ; Unknown 2
def f(p):
    return q
> 1 ; Unknown 3
def f(p):
    p = p
    return f
> 1 ; Unknown 1
lambda p: g
> 1 ; Unknown 1
lambda p: len
> 1 ; Unknown 1
lambda p: [q for y in p]
> 1 ; Unknown 1
lambda p: [y for y in y]
> 1 ; Unknown 1
lambda p: [y for y in p] + y
> 1 ; Unknown 1
lambda p: [y for y in p if z]
> 1 ; Unknown 1
lambda p: [[y for z in y] for y in p] + z
> 1 ; Unknown 4
def f(p):
    for i in p:
        pass
    return i + j
> 1 ; Unknown 3
def f(p):
    a, b = p
    return c
> 1 ; Unknown 2
def f(p):
    p += q
> 1 ; Unknown 1
lambda p: p(1)
> 1 ; Unknown 1
lambda p: q(1)
> 1 ; Unknown 1
lambda len: len(1)
> 1 ; Unknown 1
lambda p: [len(1) for len in p]
> 1 ; ok 2
lambda p: [len for len in len(p)]
> 1 ; Unknown 1
lambda p: [1 for len in p if len(p)]
> 1 ; Unknown 3
def f(p):
    g = 1
    return g(p)
> 1 ; Unknown 3
def f(p):
    h, y = p
    return h()
> 1 ; Unknown 4
def f(p):
    for h in p:
        pass
    h()
> 1 ; Unknown 2
def f(p):
    h += h()
> 1 ; Recursive 2
def f(p):
    return f(p)
> 1 ; Recursive 2
def f(f):
    return f(1)
> 0 ; Recursive 2
def f():
    f(1, 2, 3)
> 1 ; Recursive 2
def f(p):
    return [f(1) for f in p]
> 1 ; Unknown 1
lambda p: f(p)
> 1 ; Unknown 1
lambda p: range(3)
> 1 ; Unknown 1
lambda p: enumerate(p)
> 1 ; Unknown 1
lambda p: zip(p, p)
> 1 ; Unknown 1
lambda p: [1 for i in (range(p))]
> 1 ; Unknown 1
lambda p: p.items()
> 1 ; Unknown 1
lambda p: p.keys()
> 1 ; Unknown 1
lambda p: p.values()
> 1 ; Unknown 1
lambda p: [1 for i in (p.items())]
> 1 ; Unknown 1
lambda p: [range(1) for i in p]
> 1 ; Unknown 1
lambda p: [1 for i in p if p.keys()]
> 1 ; Unknown 2
def f(p):
    for i in len(range(p)):
        pass
> 1 ; Unknown 3
def f(p):
    range = p
    for i in range(3):
        pass
> 1 ; Unknown 1
lambda range: [1 for i in range(3)]
> 1 ; Unknown 1
lambda p: [1 for i in range]
> 1 ; Unknown 1
lambda p: [1 for i in p.title()]
> 1 ; Unknown 1
lambda p: p.title()
> 1 ; Unknown 1
lambda p: p.append(1)
> 1 ; Unknown 1
lambda p: q + r(1)
> 1 ; Unknown 1
lambda p: [a for b in c]
> 1 ; Arity 1
lambda p: len(q, 1)
> 1 ; Unknown 1
lambda p: q.find()
> 1 ; Arity 1
lambda p: p.find(q, 1)
> r ; Unknown 1
lambda x: x(1)
> r ; RowUse 1
lambda x: x.find()
> 1 ; Recursive 2
def f(f):
    f = f(f)
> 1 ; Arity 2
lambda p: [
len(1, 1),
q]
> 1 ; Unknown 2
lambda p: [1,
q,
len()]
> 1 ; Arity 2
lambda p: (p
.find
())
> 1 ; Arity 1
lambda p: (len
(p, q))
> 1 ; Unknown 1
lambda p: [q
for i in range()]
> 1 ; Arity 1
lambda p: g()
> 1 ; Arity 1
lambda p: g(p, p)
> 1 ; Arity 1
lambda p: h(p)
> 1 ; Arity 1
lambda p: [1 for i in range()]
> 1 ; ok 2
lambda p: [1 for i in range(1, 2, 3)]
> 1 ; Arity 1
lambda p: [1 for i in range(1, 2, 3, p)]
> 1 ; Arity 1
lambda p: [1 for i in enumerate()]
> 1 ; Arity 1
lambda p: [1 for i in enumerate(p, 1)]
> 1 ; Arity 1
lambda p: [1 for i in zip(p)]
> 1 ; Arity 1
lambda p: [1 for i in zip(p, p, p)]
> 1 ; Arity 1
lambda p: [1 for i in p.items(1)]
> 1 ; Arity 1
lambda p: [1 for i in p.keys(q)]
> 1 ; Unknown 1
lambda p: [1 for i in q.values(1)]
> 2 ; Arity 90
lambda p: p
> 1 ; Arity 90
lambda p, q: y
> r ; Arity 90
lambda: y
> a ; Arity 90
lambda x: y
> 0 ; Arity 90
lambda p: p
> 2 ; Arity 90
def f(p):
    return p
> 1 ; Unknown 2
def f(p, q):
    return y
> r ; Arity 90
def f():
    return 1
> a ; Arity 90
def f(x):
    return x["c"]
> 1 ; Arity 90
def f(p, q):
    return p + q
> r ; RowUse 1
lambda x: x
> r ; RowUse 1
lambda x: (x)["c"]
> r ; RowUse 1
lambda x: x[("c")]
> r ; RowUse 1
lambda x: x[0]
> r ; RowUse 1
lambda x: x["c" + "d"]
> r ; RowUse 1
lambda x: x[:]
> r ; RowUse 1
lambda x: [x for y in x["c"]]
> r ; RowUse 1
lambda x: [1 for x in x["c"]]
> r ; RowUse 1
lambda x: [y for y in x]
> r ; RowUse 1
lambda x: g(x)
> r ; RowUse 1
lambda x: len(x)
> r ; RowUse 1
lambda x: [1 for y, x in x["c"]]
> r ; RowUse 1
lambda x: [1 for y in x.items()]
> a ; ok 1 c
lambda acc, x: acc["c"] + x["c"]
> a ; RowUse 1
lambda acc, x: acc + x
> a ; ok 1 c
lambda x, acc: x + acc["c"]
> r ; RowUse 1
lambda x: x["c"] if x else 1
> r ; RowUse 90
def f(x):
    return x
> r ; RowUse 90
def f(x):
    x = 1
> r ; RowUse 90
def f(x):
    x += 1
> r ; RowUse 90
def f(x):
    for x in x["c"]:
        pass
> r ; RowUse 90
def f(x):
    y, x = 1
> r ; RowUse 90
def f(x):
    return [1 for x in x["c"]]
> r ; RowUse 90
def f(x):
    return g(x)
> r ; Unknown 2
def f(x):
    return x + q
> a ; ok 1 c
def f(acc, x):
    return acc + x["c"]
> a ; RowUse 90
def f(acc, x):
    return acc + x
> a ; RowUse 90
def f(x, acc):
    return x["c"] + acc
> 1 ; ok 1
def f(x):
    return x
> r ; Unknown 2
def f(x):
    return x(1)
> r ; Unknown 3
def f(x):
    if x:
        return q
    else:
        pass
> 1 ; Arity 1
lambda p: len()
> 1 ; ok 1
lambda p: len(p)
> 1 ; Arity 1
lambda p: len(p, p)
> 1 ; Arity 1
lambda p: int()
> 1 ; ok 1
lambda p: int(p)
> 1 ; Arity 1
lambda p: int(p, p)
> 1 ; Arity 1
lambda p: str()
> 1 ; ok 1
lambda p: str(p)
> 1 ; Arity 1
lambda p: str(p, p)
> 1 ; Arity 1
lambda p: bool()
> 1 ; ok 1
lambda p: bool(p)
> 1 ; Arity 1
lambda p: bool(p, p)
> 1 ; Arity 1
lambda p: abs()
> 1 ; ok 1
lambda p: abs(p)
> 1 ; Arity 1
lambda p: abs(p, p)
> 1 ; Arity 1
lambda p: min()
> 1 ; ok 1
lambda p: min(p)
> 1 ; ok 1
lambda p: min(p, p, p, p)
> 1 ; ok 1
lambda p: min(p, p, p, p, p)
> 1 ; Arity 1
lambda p: max()
> 1 ; ok 1
lambda p: max(p)
> 1 ; ok 1
lambda p: max(p, p, p, p)
> 1 ; ok 1
lambda p: max(p, p, p, p, p)
> 1 ; Arity 1
lambda p: sum()
> 1 ; ok 1
lambda p: sum(p)
> 1 ; Arity 1
lambda p: sum(p, p)
> 1 ; Arity 1
lambda p: any()
> 1 ; ok 1
lambda p: any(p)
> 1 ; Arity 1
lambda p: any(p, p)
> 1 ; Arity 1
lambda p: all()
> 1 ; ok 1
lambda p: all(p)
> 1 ; Arity 1
lambda p: all(p, p)
> 1 ; Arity 1
lambda p: ord()
> 1 ; ok 1
lambda p: ord(p)
> 1 ; Arity 1
lambda p: ord(p, p)
> 1 ; Arity 1
lambda p: list()
> 1 ; ok 1
lambda p: list(p)
> 1 ; Arity 1
lambda p: list(p, p)
> 1 ; Arity 1
lambda p: tuple()
> 1 ; ok 1
lambda p: tuple(p)
> 1 ; Arity 1
lambda p: tuple(p, p)
> 1 ; ok 1
lambda p: p.lower()
> 1 ; Arity 1
lambda p: p.lower(p)
> 1 ; ok 1
lambda p: p.upper()
> 1 ; Arity 1
lambda p: p.upper(p)
> 1 ; ok 1
lambda p: p.strip()
> 1 ; ok 1
lambda p: p.strip(p)
> 1 ; Arity 1
lambda p: p.strip(p, p)
> 1 ; ok 1
lambda p: p.lstrip()
> 1 ; ok 1
lambda p: p.lstrip(p)
> 1 ; Arity 1
lambda p: p.lstrip(p, p)
> 1 ; ok 1
lambda p: p.rstrip()
> 1 ; ok 1
lambda p: p.rstrip(p)
> 1 ; Arity 1
lambda p: p.rstrip(p, p)
> 1 ; ok 1
lambda p: p.split()
> 1 ; ok 1
lambda p: p.split(p)
> 1 ; Arity 1
lambda p: p.split(p, p)
> 1 ; Arity 1
lambda p: p.replace(p)
> 1 ; ok 1
lambda p: p.replace(p, p)
> 1 ; Arity 1
lambda p: p.replace(p, p, p)
> 1 ; Arity 1
lambda p: p.find()
> 1 ; ok 1
lambda p: p.find(p)
> 1 ; Arity 1
lambda p: p.find(p, p)
> 1 ; Arity 1
lambda p: p.rfind()
> 1 ; ok 1
lambda p: p.rfind(p)
> 1 ; Arity 1
lambda p: p.rfind(p, p)
> 1 ; Arity 1
lambda p: p.index()
> 1 ; ok 1
lambda p: p.index(p)
> 1 ; Arity 1
lambda p: p.index(p, p)
> 1 ; Arity 1
lambda p: p.count()
> 1 ; ok 1
lambda p: p.count(p)
> 1 ; Arity 1
lambda p: p.count(p, p)
> 1 ; Arity 1
lambda p: p.startswith()
> 1 ; ok 1
lambda p: p.startswith(p)
> 1 ; Arity 1
lambda p: p.startswith(p, p)
> 1 ; Arity 1
lambda p: p.endswith()
> 1 ; ok 1
lambda p: p.endswith(p)
> 1 ; Arity 1
lambda p: p.endswith(p, p)
> 1 ; Arity 1
lambda p: p.join()
> 1 ; ok 1
lambda p: p.join(p)
> 1 ; Arity 1
lambda p: p.join(p, p)
> 1 ; Arity 1
lambda p: p.zfill()
> 1 ; ok 1
lambda p: p.zfill(p)
> 1 ; Arity 1
lambda p: p.zfill(p, p)
> 1 ; ok 1
lambda p: p.isdigit()
> 1 ; Arity 1
lambda p: p.isdigit(p)
> 1 ; Arity 1
lambda p: p.get()
> 1 ; ok 1
lambda p: p.get(p)
> 1 ; ok 1
lambda p: p.get(p, p)
> 1 ; Arity 1
lambda p: p.get(p, p, p)
> 1 ; Unknown 1
lambda p: len(q)
> 1 ; Unknown 1
lambda p: len(q(1))
> 1 ; Unknown 1
lambda p: len(p.title())
> 1 ; Unknown 1
lambda p: len(range(3))
> 1 ; Unknown 1
lambda p: len((p.items()))
> 1 ; Arity 1
lambda p: len(len())
> 1 ; Arity 1
lambda p: len(g(p, p))
> 1 ; Arity 1
lambda p: len(p.find())
> 1 ; Arity 1
lambda p: len(h(1))
> 1 ; Unknown 1
lambda p: p.find(q)
> 1 ; Unknown 1
lambda p: p.find(q(1))
> 1 ; Unknown 1
lambda p: p.find(p.title())
> 1 ; Unknown 1
lambda p: p.find(range(3))
> 1 ; Unknown 1
lambda p: p.find((p.items()))
> 1 ; Arity 1
lambda p: p.find(len())
> 1 ; Arity 1
lambda p: p.find(g(p, p))
> 1 ; Arity 1
lambda p: p.find(p.find())
> 1 ; Arity 1
lambda p: p.find(h(1))
> 1 ; Unknown 1
lambda p: (q).find(p)
> 1 ; Unknown 1
lambda p: (q(1)).find(p)
> 1 ; Unknown 1
lambda p: (p.title()).find(p)
> 1 ; Unknown 1
lambda p: (range(3)).find(p)
> 1 ; Unknown 1
lambda p: ((p.items())).find(p)
> 1 ; Arity 1
lambda p: (len()).find(p)
> 1 ; Arity 1
lambda p: (g(p, p)).find(p)
> 1 ; Arity 1
lambda p: (p.find()).find(p)
> 1 ; Arity 1
lambda p: (h(1)).find(p)
> 1 ; Unknown 1
lambda p: p + q
> 1 ; Unknown 1
lambda p: p + q(1)
> 1 ; Unknown 1
lambda p: p + p.title()
> 1 ; Unknown 1
lambda p: p + range(3)
> 1 ; Unknown 1
lambda p: p + (p.items())
> 1 ; Arity 1
lambda p: p + len()
> 1 ; Arity 1
lambda p: p + g(p, p)
> 1 ; Arity 1
lambda p: p + p.find()
> 1 ; Arity 1
lambda p: p + h(1)
> 1 ; Unknown 1
lambda p: q - p
> 1 ; Unknown 1
lambda p: q(1) - p
> 1 ; Unknown 1
lambda p: p.title() - p
> 1 ; Unknown 1
lambda p: range(3) - p
> 1 ; Unknown 1
lambda p: (p.items()) - p
> 1 ; Arity 1
lambda p: len() - p
> 1 ; Arity 1
lambda p: g(p, p) - p
> 1 ; Arity 1
lambda p: p.find() - p
> 1 ; Arity 1
lambda p: h(1) - p
> 1 ; Unknown 1
lambda p: -q
> 1 ; Unknown 1
lambda p: -q(1)
> 1 ; Unknown 1
lambda p: -p.title()
> 1 ; Unknown 1
lambda p: -range(3)
> 1 ; Unknown 1
lambda p: -(p.items())
> 1 ; Arity 1
lambda p: -len()
> 1 ; Arity 1
lambda p: -g(p, p)
> 1 ; Arity 1
lambda p: -p.find()
> 1 ; Arity 1
lambda p: -h(1)
> 1 ; Unknown 1
lambda p: not q
> 1 ; Unknown 1
lambda p: not q(1)
> 1 ; Unknown 1
lambda p: not p.title()
> 1 ; Unknown 1
lambda p: not range(3)
> 1 ; Unknown 1
lambda p: not (p.items())
> 1 ; Arity 1
lambda p: not len()
> 1 ; Arity 1
lambda p: not g(p, p)
> 1 ; Arity 1
lambda p: not p.find()
> 1 ; Arity 1
lambda p: not h(1)
> 1 ; Unknown 1
lambda p: p and q
> 1 ; Unknown 1
lambda p: p and q(1)
> 1 ; Unknown 1
lambda p: p and p.title()
> 1 ; Unknown 1
lambda p: p and range(3)
> 1 ; Unknown 1
lambda p: p and (p.items())
> 1 ; Arity 1
lambda p: p and len()
> 1 ; Arity 1
lambda p: p and g(p, p)
> 1 ; Arity 1
lambda p: p and p.find()
> 1 ; Arity 1
lambda p: p and h(1)
> 1 ; Unknown 1
lambda p: p[q]
> 1 ; Unknown 1
lambda p: p[q(1)]
> 1 ; Unknown 1
lambda p: p[p.title()]
> 1 ; Unknown 1
lambda p: p[range(3)]
> 1 ; Unknown 1
lambda p: p[(p.items())]
> 1 ; Arity 1
lambda p: p[len()]
> 1 ; Arity 1
lambda p: p[g(p, p)]
> 1 ; Arity 1
lambda p: p[p.find()]
> 1 ; Arity 1
lambda p: p[h(1)]
> 1 ; Unknown 1
lambda p: p[q:]
> 1 ; Unknown 1
lambda p: p[q(1):]
> 1 ; Unknown 1
lambda p: p[p.title():]
> 1 ; Unknown 1
lambda p: p[range(3):]
> 1 ; Unknown 1
lambda p: p[(p.items()):]
> 1 ; Arity 1
lambda p: p[len():]
> 1 ; Arity 1
lambda p: p[g(p, p):]
> 1 ; Arity 1
lambda p: p[p.find():]
> 1 ; Arity 1
lambda p: p[h(1):]
> 1 ; Unknown 1
lambda p: p[:q]
> 1 ; Unknown 1
lambda p: p[:q(1)]
> 1 ; Unknown 1
lambda p: p[:p.title()]
> 1 ; Unknown 1
lambda p: p[:range(3)]
> 1 ; Unknown 1
lambda p: p[:(p.items())]
> 1 ; Arity 1
lambda p: p[:len()]
> 1 ; Arity 1
lambda p: p[:g(p, p)]
> 1 ; Arity 1
lambda p: p[:p.find()]
> 1 ; Arity 1
lambda p: p[:h(1)]
> 1 ; Unknown 1
lambda p: [p, q]
> 1 ; Unknown 1
lambda p: [p, q(1)]
> 1 ; Unknown 1
lambda p: [p, p.title()]
> 1 ; Unknown 1
lambda p: [p, range(3)]
> 1 ; Unknown 1
lambda p: [p, (p.items())]
> 1 ; Arity 1
lambda p: [p, len()]
> 1 ; Arity 1
lambda p: [p, g(p, p)]
> 1 ; Arity 1
lambda p: [p, p.find()]
> 1 ; Arity 1
lambda p: [p, h(1)]
> 1 ; Unknown 1
lambda p: (p, q)
> 1 ; Unknown 1
lambda p: (p, q(1))
> 1 ; Unknown 1
lambda p: (p, p.title())
> 1 ; Unknown 1
lambda p: (p, range(3))
> 1 ; Unknown 1
lambda p: (p, (p.items()))
> 1 ; Arity 1
lambda p: (p, len())
> 1 ; Arity 1
lambda p: (p, g(p, p))
> 1 ; Arity 1
lambda p: (p, p.find())
> 1 ; Arity 1
lambda p: (p, h(1))
> 1 ; Unknown 1
lambda p: {q: 1}
> 1 ; Unknown 1
lambda p: {q(1): 1}
> 1 ; Unknown 1
lambda p: {p.title(): 1}
> 1 ; Unknown 1
lambda p: {range(3): 1}
> 1 ; Unknown 1
lambda p: {(p.items()): 1}
> 1 ; Arity 1
lambda p: {len(): 1}
> 1 ; Arity 1
lambda p: {g(p, p): 1}
> 1 ; Arity 1
lambda p: {p.find(): 1}
> 1 ; Arity 1
lambda p: {h(1): 1}
> 1 ; Unknown 1
lambda p: {1: q}
> 1 ; Unknown 1
lambda p: {1: q(1)}
> 1 ; Unknown 1
lambda p: {1: p.title()}
> 1 ; Unknown 1
lambda p: {1: range(3)}
> 1 ; Unknown 1
lambda p: {1: (p.items())}
> 1 ; Arity 1
lambda p: {1: len()}
> 1 ; Arity 1
lambda p: {1: g(p, p)}
> 1 ; Arity 1
lambda p: {1: p.find()}
> 1 ; Arity 1
lambda p: {1: h(1)}
> 1 ; Unknown 1
lambda p: p if q else p
> 1 ; Unknown 1
lambda p: p if q(1) else p
> 1 ; Unknown 1
lambda p: p if p.title() else p
> 1 ; Unknown 1
lambda p: p if range(3) else p
> 1 ; Unknown 1
lambda p: p if (p.items()) else p
> 1 ; Arity 1
lambda p: p if len() else p
> 1 ; Arity 1
lambda p: p if g(p, p) else p
> 1 ; Arity 1
lambda p: p if p.find() else p
> 1 ; Arity 1
lambda p: p if h(1) else p
> 1 ; Unknown 1
lambda p: q if p else p
> 1 ; Unknown 1
lambda p: q(1) if p else p
> 1 ; Unknown 1
lambda p: p.title() if p else p
> 1 ; Unknown 1
lambda p: range(3) if p else p
> 1 ; Unknown 1
lambda p: (p.items()) if p else p
> 1 ; Arity 1
lambda p: len() if p else p
> 1 ; Arity 1
lambda p: g(p, p) if p else p
> 1 ; Arity 1
lambda p: p.find() if p else p
> 1 ; Arity 1
lambda p: h(1) if p else p
> 1 ; Unknown 1
lambda p: p if p else q
> 1 ; Unknown 1
lambda p: p if p else q(1)
> 1 ; Unknown 1
lambda p: p if p else p.title()
> 1 ; Unknown 1
lambda p: p if p else range(3)
> 1 ; Unknown 1
lambda p: p if p else (p.items())
> 1 ; Arity 1
lambda p: p if p else len()
> 1 ; Arity 1
lambda p: p if p else g(p, p)
> 1 ; Arity 1
lambda p: p if p else p.find()
> 1 ; Arity 1
lambda p: p if p else h(1)
> 1 ; Unknown 1
lambda p: p < q < p
> 1 ; Unknown 1
lambda p: p < q(1) < p
> 1 ; Unknown 1
lambda p: p < p.title() < p
> 1 ; Unknown 1
lambda p: p < range(3) < p
> 1 ; Unknown 1
lambda p: p < (p.items()) < p
> 1 ; Arity 1
lambda p: p < len() < p
> 1 ; Arity 1
lambda p: p < g(p, p) < p
> 1 ; Arity 1
lambda p: p < p.find() < p
> 1 ; Arity 1
lambda p: p < h(1) < p
> 1 ; Unknown 1
lambda p: p in q
> 1 ; Unknown 1
lambda p: p in q(1)
> 1 ; Unknown 1
lambda p: p in p.title()
> 1 ; Unknown 1
lambda p: p in range(3)
> 1 ; Unknown 1
lambda p: p in (p.items())
> 1 ; Arity 1
lambda p: p in len()
> 1 ; Arity 1
lambda p: p in g(p, p)
> 1 ; Arity 1
lambda p: p in p.find()
> 1 ; Arity 1
lambda p: p in h(1)
> 1 ; Unknown 1
lambda p: [q(1) for y in p]
> 1 ; Unknown 1
lambda p: [p.title() for y in p]
> 1 ; Unknown 1
lambda p: [range(3) for y in p]
> 1 ; Unknown 1
lambda p: [(p.items()) for y in p]
> 1 ; Arity 1
lambda p: [len() for y in p]
> 1 ; Arity 1
lambda p: [g(p, p) for y in p]
> 1 ; Arity 1
lambda p: [p.find() for y in p]
> 1 ; Arity 1
lambda p: [h(1) for y in p]
> 1 ; Unknown 1
lambda p: [y for y in q]
> 1 ; Unknown 1
lambda p: [y for y in q(1)]
> 1 ; Unknown 1
lambda p: [y for y in p.title()]
> 1 ; ok 2
lambda p: [y for y in range(3)]
> 1 ; Unknown 1
lambda p: [y for y in (p.items())]
> 1 ; Arity 1
lambda p: [y for y in len()]
> 1 ; Arity 1
lambda p: [y for y in g(p, p)]
> 1 ; Arity 1
lambda p: [y for y in p.find()]
> 1 ; Arity 1
lambda p: [y for y in h(1)]
> 1 ; Unknown 1
lambda p: [y for y in p if q]
> 1 ; Unknown 1
lambda p: [y for y in p if q(1)]
> 1 ; Unknown 1
lambda p: [y for y in p if p.title()]
> 1 ; Unknown 1
lambda p: [y for y in p if range(3)]
> 1 ; Unknown 1
lambda p: [y for y in p if (p.items())]
> 1 ; Arity 1
lambda p: [y for y in p if len()]
> 1 ; Arity 1
lambda p: [y for y in p if g(p, p)]
> 1 ; Arity 1
lambda p: [y for y in p if p.find()]
> 1 ; Arity 1
lambda p: [y for y in p if h(1)]
> 1 ; Unknown 1
lambda p: [[q for z in y] for y in p]
> 1 ; Unknown 1
lambda p: [[q(1) for z in y] for y in p]
> 1 ; Unknown 1
lambda p: [[p.title() for z in y] for y in p]
> 1 ; Unknown 1
lambda p: [[range(3) for z in y] for y in p]
> 1 ; Unknown 1
lambda p: [[(p.items()) for z in y] for y in p]
> 1 ; Arity 1
lambda p: [[len() for z in y] for y in p]
> 1 ; Arity 1
lambda p: [[g(p, p) for z in y] for y in p]
> 1 ; Arity 1
lambda p: [[p.find() for z in y] for y in p]
> 1 ; Arity 1
lambda p: [[h(1) for z in y] for y in p]
> 1 ; Unknown 1
lambda p: [[z for z in q] for y in p]
> 1 ; Unknown 1
lambda p: [[z for z in q(1)] for y in p]
> 1 ; Unknown 1
lambda p: [[z for z in p.title()] for y in p]
> 1 ; ok 3
lambda p: [[z for z in range(3)] for y in p]
> 1 ; Unknown 1
lambda p: [[z for z in (p.items())] for y in p]
> 1 ; Arity 1
lambda p: [[z for z in len()] for y in p]
> 1 ; Arity 1
lambda p: [[z for z in g(p, p)] for y in p]
> 1 ; Arity 1
lambda p: [[z for z in p.find()] for y in p]
> 1 ; Arity 1
lambda p: [[z for z in h(1)] for y in p]
> 1 ; Unknown 1
lambda p: g(q)
> 1 ; Unknown 1
lambda p: g(q(1))
> 1 ; Unknown 1
lambda p: g(p.title())
> 1 ; Unknown 1
lambda p: g(range(3))
> 1 ; Unknown 1
lambda p: g((p.items()))
> 1 ; Arity 1
lambda p: g(len())
> 1 ; Arity 1
lambda p: g(g(p, p))
> 1 ; Arity 1
lambda p: g(p.find())
> 1 ; Arity 1
lambda p: g(h(1))
> 1 ; Unknown 1
lambda p: p == 1 or q
> 1 ; Unknown 1
lambda p: p == 1 or q(1)
> 1 ; Unknown 1
lambda p: p == 1 or p.title()
> 1 ; Unknown 1
lambda p: p == 1 or range(3)
> 1 ; Unknown 1
lambda p: p == 1 or (p.items())
> 1 ; Arity 1
lambda p: p == 1 or len()
> 1 ; Arity 1
lambda p: p == 1 or g(p, p)
> 1 ; Arity 1
lambda p: p == 1 or p.find()
> 1 ; Arity 1
lambda p: p == 1 or h(1)
> 1 ; Unknown 1
lambda p: str(len(q))
> 1 ; Unknown 1
lambda p: str(len(q(1)))
> 1 ; Unknown 1
lambda p: str(len(p.title()))
> 1 ; Unknown 1
lambda p: str(len(range(3)))
> 1 ; Unknown 1
lambda p: str(len((p.items())))
> 1 ; Arity 1
lambda p: str(len(len()))
> 1 ; Arity 1
lambda p: str(len(g(p, p)))
> 1 ; Arity 1
lambda p: str(len(p.find()))
> 1 ; Arity 1
lambda p: str(len(h(1)))
> 1 ; Unknown 2
def f(p):
    q
> 1 ; Unknown 2
def f(p):
    q(1)
> 1 ; Unknown 2
def f(p):
    p.title()
> 1 ; Unknown 2
def f(p):
    range(3)
> 1 ; Unknown 2
def f(p):
    (p.items())
> 1 ; Arity 2
def f(p):
    len()
> 1 ; Arity 2
def f(p):
    g(p, p)
> 1 ; Arity 2
def f(p):
    p.find()
> 1 ; Arity 2
def f(p):
    h(1)
> 1 ; Recursive 2
def f(p):
    f(p)
> 1 ; Unknown 2
def f(p):
    f
> 1 ; Unknown 2
def f(p):
    y = q
> 1 ; Unknown 2
def f(p):
    y = q(1)
> 1 ; Unknown 2
def f(p):
    y = p.title()
> 1 ; Unknown 2
def f(p):
    y = range(3)
> 1 ; Unknown 2
def f(p):
    y = (p.items())
> 1 ; Arity 2
def f(p):
    y = len()
> 1 ; Arity 2
def f(p):
    y = g(p, p)
> 1 ; Arity 2
def f(p):
    y = p.find()
> 1 ; Arity 2
def f(p):
    y = h(1)
> 1 ; Recursive 2
def f(p):
    y = f(p)
> 1 ; Unknown 2
def f(p):
    y = f
> 1 ; Unknown 2
def f(p):
    y, z = q
> 1 ; Unknown 2
def f(p):
    y, z = q(1)
> 1 ; Unknown 2
def f(p):
    y, z = p.title()
> 1 ; Unknown 2
def f(p):
    y, z = range(3)
> 1 ; Unknown 2
def f(p):
    y, z = (p.items())
> 1 ; Arity 2
def f(p):
    y, z = len()
> 1 ; Arity 2
def f(p):
    y, z = g(p, p)
> 1 ; Arity 2
def f(p):
    y, z = p.find()
> 1 ; Arity 2
def f(p):
    y, z = h(1)
> 1 ; Recursive 2
def f(p):
    y, z = f(p)
> 1 ; Unknown 2
def f(p):
    y, z = f
> 1 ; Unknown 3
def f(p):
    y = 1
    y += q
> 1 ; Unknown 3
def f(p):
    y = 1
    y += q(1)
> 1 ; Unknown 3
def f(p):
    y = 1
    y += p.title()
> 1 ; Unknown 3
def f(p):
    y = 1
    y += range(3)
> 1 ; Unknown 3
def f(p):
    y = 1
    y += (p.items())
> 1 ; Arity 3
def f(p):
    y = 1
    y += len()
> 1 ; Arity 3
def f(p):
    y = 1
    y += g(p, p)
> 1 ; Arity 3
def f(p):
    y = 1
    y += p.find()
> 1 ; Arity 3
def f(p):
    y = 1
    y += h(1)
> 1 ; Recursive 3
def f(p):
    y = 1
    y += f(p)
> 1 ; Unknown 3
def f(p):
    y = 1
    y += f
> 1 ; Unknown 2
def f(p):
    if q:
        pass
> 1 ; Unknown 2
def f(p):
    if q(1):
        pass
> 1 ; Unknown 2
def f(p):
    if p.title():
        pass
> 1 ; Unknown 2
def f(p):
    if range(3):
        pass
> 1 ; Unknown 2
def f(p):
    if (p.items()):
        pass
> 1 ; Arity 2
def f(p):
    if len():
        pass
> 1 ; Arity 2
def f(p):
    if g(p, p):
        pass
> 1 ; Arity 2
def f(p):
    if p.find():
        pass
> 1 ; Arity 2
def f(p):
    if h(1):
        pass
> 1 ; Recursive 2
def f(p):
    if f(p):
        pass
> 1 ; Unknown 2
def f(p):
    if f:
        pass
> 1 ; Unknown 4
def f(p):
    if p:
        pass
    elif q:
        pass
> 1 ; Unknown 4
def f(p):
    if p:
        pass
    elif q(1):
        pass
> 1 ; Unknown 4
def f(p):
    if p:
        pass
    elif p.title():
        pass
> 1 ; Unknown 4
def f(p):
    if p:
        pass
    elif range(3):
        pass
> 1 ; Unknown 4
def f(p):
    if p:
        pass
    elif (p.items()):
        pass
> 1 ; Arity 4
def f(p):
    if p:
        pass
    elif len():
        pass
> 1 ; Arity 4
def f(p):
    if p:
        pass
    elif g(p, p):
        pass
> 1 ; Arity 4
def f(p):
    if p:
        pass
    elif p.find():
        pass
> 1 ; Arity 4
def f(p):
    if p:
        pass
    elif h(1):
        pass
> 1 ; Recursive 4
def f(p):
    if p:
        pass
    elif f(p):
        pass
> 1 ; Unknown 4
def f(p):
    if p:
        pass
    elif f:
        pass
> 1 ; Unknown 5
def f(p):
    if p:
        pass
    else:
        q
> 1 ; Unknown 5
def f(p):
    if p:
        pass
    else:
        q(1)
> 1 ; Unknown 5
def f(p):
    if p:
        pass
    else:
        p.title()
> 1 ; Unknown 5
def f(p):
    if p:
        pass
    else:
        range(3)
> 1 ; Unknown 5
def f(p):
    if p:
        pass
    else:
        (p.items())
> 1 ; Arity 5
def f(p):
    if p:
        pass
    else:
        len()
> 1 ; Arity 5
def f(p):
    if p:
        pass
    else:
        g(p, p)
> 1 ; Arity 5
def f(p):
    if p:
        pass
    else:
        p.find()
> 1 ; Arity 5
def f(p):
    if p:
        pass
    else:
        h(1)
> 1 ; Recursive 5
def f(p):
    if p:
        pass
    else:
        f(p)
> 1 ; Unknown 5
def f(p):
    if p:
        pass
    else:
        f
> 1 ; Unknown 2
def f(p):
    for y in q:
        pass
> 1 ; Unknown 2
def f(p):
    for y in q(1):
        pass
> 1 ; Unknown 2
def f(p):
    for y in p.title():
        pass
> 1 ; ok 2
def f(p):
    for y in range(3):
        pass
> 1 ; Unknown 2
def f(p):
    for y in (p.items()):
        pass
> 1 ; Arity 2
def f(p):
    for y in len():
        pass
> 1 ; Arity 2
def f(p):
    for y in g(p, p):
        pass
> 1 ; Arity 2
def f(p):
    for y in p.find():
        pass
> 1 ; Arity 2
def f(p):
    for y in h(1):
        pass
> 1 ; Recursive 2
def f(p):
    for y in f(p):
        pass
> 1 ; Unknown 2
def f(p):
    for y in f:
        pass
> 1 ; Unknown 3
def f(p):
    for y in p:
        q
> 1 ; Unknown 3
def f(p):
    for y in p:
        q(1)
> 1 ; Unknown 3
def f(p):
    for y in p:
        p.title()
> 1 ; Unknown 3
def f(p):
    for y in p:
        range(3)
> 1 ; Unknown 3
def f(p):
    for y in p:
        (p.items())
> 1 ; Arity 3
def f(p):
    for y in p:
        len()
> 1 ; Arity 3
def f(p):
    for y in p:
        g(p, p)
> 1 ; Arity 3
def f(p):
    for y in p:
        p.find()
> 1 ; Arity 3
def f(p):
    for y in p:
        h(1)
> 1 ; Recursive 3
def f(p):
    for y in p:
        f(p)
> 1 ; Unknown 3
def f(p):
    for y in p:
        f
> 1 ; Unknown 4
def f(p):
    for y in p:
        if y:
            return q
        break
> 1 ; Unknown 4
def f(p):
    for y in p:
        if y:
            return q(1)
        break
> 1 ; Unknown 4
def f(p):
    for y in p:
        if y:
            return p.title()
        break
> 1 ; Unknown 4
def f(p):
    for y in p:
        if y:
            return range(3)
        break
> 1 ; Unknown 4
def f(p):
    for y in p:
        if y:
            return (p.items())
        break
> 1 ; Arity 4
def f(p):
    for y in p:
        if y:
            return len()
        break
> 1 ; Arity 4
def f(p):
    for y in p:
        if y:
            return g(p, p)
        break
> 1 ; Arity 4
def f(p):
    for y in p:
        if y:
            return p.find()
        break
> 1 ; Arity 4
def f(p):
    for y in p:
        if y:
            return h(1)
        break
> 1 ; Recursive 4
def f(p):
    for y in p:
        if y:
            return f(p)
        break
> 1 ; Unknown 4
def f(p):
    for y in p:
        if y:
            return f
        break
> 1 ; Unknown 2
def f(p):
    return q(1)
> 1 ; Unknown 2
def f(p):
    return p.title()
> 1 ; Unknown 2
def f(p):
    return range(3)
> 1 ; Unknown 2
def f(p):
    return (p.items())
> 1 ; Arity 2
def f(p):
    return len()
> 1 ; Arity 2
def f(p):
    return g(p, p)
> 1 ; Arity 2
def f(p):
    return p.find()
> 1 ; Arity 2
def f(p):
    return h(1)
> 1 ; Unknown 2
def f(p):
    return f
> 1 ; Unknown 4
def f(p):
    pass
    return p
    return q
> 1 ; Unknown 4
def f(p):
    pass
    return p
    return q(1)
> 1 ; Unknown 4
def f(p):
    pass
    return p
    return p.title()
> 1 ; Unknown 4
def f(p):
    pass
    return p
    return range(3)
> 1 ; Unknown 4
def f(p):
    pass
    return p
    return (p.items())
> 1 ; Arity 4
def f(p):
    pass
    return p
    return len()
> 1 ; Arity 4
def f(p):
    pass
    return p
    return g(p, p)
> 1 ; Arity 4
def f(p):
    pass
    return p
    return p.find()
> 1 ; Arity 4
def f(p):
    pass
    return p
    return h(1)
> 1 ; Recursive 4
def f(p):
    pass
    return p
    return f(p)
> 1 ; Unknown 4
def f(p):
    pass
    return p
    return f
> 1 ; Unknown 2
def f(p):
    if p: return q
> 1 ; Unknown 2
def f(p):
    if p: return q(1)
> 1 ; Unknown 2
def f(p):
    if p: return p.title()
> 1 ; Unknown 2
def f(p):
    if p: return range(3)
> 1 ; Unknown 2
def f(p):
    if p: return (p.items())
> 1 ; Arity 2
def f(p):
    if p: return len()
> 1 ; Arity 2
def f(p):
    if p: return g(p, p)
> 1 ; Arity 2
def f(p):
    if p: return p.find()
> 1 ; Arity 2
def f(p):
    if p: return h(1)
> 1 ; Recursive 2
def f(p):
    if p: return f(p)
> 1 ; Unknown 2
def f(p):
    if p: return f
> r ; RowUse 1
lambda x: x["c"].find(x)
> r ; RowUse 1
lambda x: (x).find(x["c"])
> r ; RowUse 1
lambda x: x["c"] + x
> r ; RowUse 1
lambda x: x - x["c"]
> r ; RowUse 1
lambda x: -x
> r ; RowUse 1
lambda x: not x
> r ; RowUse 1
lambda x: x["c"] and x
> r ; RowUse 1
lambda x: x["c"][x]
> r ; RowUse 1
lambda x: x["c"][x:]
> r ; RowUse 1
lambda x: x["c"][:x]
> r ; RowUse 1
lambda x: [x["c"], x]
> r ; RowUse 1
lambda x: (x["c"], x)
> r ; RowUse 1
lambda x: {x: 1}
> r ; RowUse 1
lambda x: {1: x}
> r ; RowUse 1
lambda x: x["c"] if x else x["c"]
> r ; RowUse 1
lambda x: x if x["c"] else x["c"]
> r ; RowUse 1
lambda x: x["c"] if x["c"] else x
> r ; RowUse 1
lambda x: x["c"] < x < x["c"]
> r ; RowUse 1
lambda x: x["c"] in x
> r ; RowUse 1
lambda x: [y for y in x["c"] if x]
> r ; RowUse 1
lambda x: [[x for z in y] for y in x["c"]]
> r ; RowUse 1
lambda x: [[z for z in x] for y in x["c"]]
> r ; RowUse 1
lambda x: x["c"] == 1 or x
> r ; RowUse 1
lambda x: str(len(x))
> r ; RowUse 90
def f(x):
    x
> r ; RowUse 90
def f(x):
    y = x
> r ; RowUse 90
def f(x):
    y, z = x
> r ; RowUse 90
def f(x):
    y = 1
    y += x
> r ; RowUse 90
def f(x):
    if x:
        pass
> r ; RowUse 90
def f(x):
    if x["c"]:
        pass
    elif x:
        pass
> r ; RowUse 90
def f(x):
    if x["c"]:
        pass
    else:
        x
> r ; RowUse 90
def f(x):
    for y in x:
        pass
> r ; RowUse 90
def f(x):
    for y in x["c"]:
        x
> r ; RowUse 90
def f(x):
    for y in x["c"]:
        if y:
            return x
        break
> r ; RowUse 90
def f(x):
    pass
    return x["c"]
    return x
> r ; RowUse 90
def f(x):
    if x["c"]: return x
> 1 ; ok 1
def f(p):
    p = 1
    return p
> 1 ; ok 2
def f(p):
    len = 1
    return len
> 1 ; Unknown 3
def f(p):
    len = 1
    return len(p)
> 1 ; ok 2
def f(p):
    f = 1
    return f
> 1 ; Unknown 3
def f(p):
    g = 1
    return g(1)
> 1 ; ok 1
def f(p):
    p += 1
    return p
> 1 ; ok 2
def f(p):
    len += 1
    return len
> 1 ; Unknown 3
def f(p):
    len += 1
    return len(p)
> 1 ; ok 2
def f(p):
    f += 1
    return f
> 1 ; Unknown 3
def f(p):
    g += 1
    return g(1)
> 1 ; ok 1
def f(p):
    for p in p:
        pass
    return p
> 1 ; ok 2
def f(p):
    for len in p:
        pass
    return len
> 1 ; Unknown 4
def f(p):
    for len in p:
        pass
    return len(p)
> 1 ; ok 2
def f(p):
    for f in p:
        pass
    return f
> 1 ; Unknown 4
def f(p):
    for g in p:
        pass
    return g(1)
> 1 ; ok 2
def f(p):
    a, p = p
    return p
> 1 ; ok 3
def f(p):
    a, len = p
    return len
> 1 ; Unknown 3
def f(p):
    a, len = p
    return len(p)
> 1 ; ok 3
def f(p):
    a, f = p
    return f
> 1 ; Unknown 3
def f(p):
    a, g = p
    return g(1)
> r ; RowUse 90
def f(x):
    a, x = x["c"]
> 1 ; ok 2
def f(p):
    for a, p in p:
        pass
    return p
> 1 ; ok 3
def f(p):
    for a, len in p:
        pass
    return len
> 1 ; Unknown 4
def f(p):
    for a, len in p:
        pass
    return len(p)
> 1 ; ok 3
def f(p):
    for a, f in p:
        pass
    return f
> 1 ; Unknown 4
def f(p):
    for a, g in p:
        pass
    return g(1)
> r ; RowUse 90
def f(x):
    for a, x in x["c"]:
        pass
> 1 ; ok 2
def f(p):
    for p, a in enumerate(p):
        pass
    return p
> 1 ; ok 3
def f(p):
    for len, a in enumerate(p):
        pass
    return len
> 1 ; Unknown 4
def f(p):
    for len, a in enumerate(p):
        pass
    return len(p)
> 1 ; ok 3
def f(p):
    for f, a in enumerate(p):
        pass
    return f
> 1 ; Unknown 4
def f(p):
    for g, a in enumerate(p):
        pass
    return g(1)
> r ; RowUse 90
def f(x):
    for x, a in enumerate(x["c"]):
        pass
> 1 ; ok 1
lambda p: [[p for p in p] for p in p]
> 1 ; ok 1
lambda p: [p for p in p] + [p for p in p]
> 1 ; ok 2
lambda p: [y for y in p] + [y for y in p]
> 1 ; ok 2
lambda p: [[y for y in y] for y in p]
> 1 ; ok 2
lambda p: [y for y in [y for y in p]]
> 1 ; ok 3
lambda p: [1 for y in p if [z for z in y if z < y]]
> 1 ; Unknown 1
lambda p: [1 for y in p if [z for z in p] < z]
> 1 ; ok 3
lambda p: [a + b for a, b in zip(p, p) if a]
> 1 ; ok 2
lambda p: [a for a, a in p]
> 1 ; ok 2
def f(p):
    y = [y for y in p]
    return y
> 1 ; Unknown 3
def f(p):
    z = [y for y in p]
    return y
> 1 ; ok 2
def f(p):
    for y in [y for y in p]:
        pass
    return y
> 1 ; ok 2
def f(p):
    return [len for len in p] + len(p)
> 1 ; ok 3
def f(p):
    q = [h for h in p]
    return h()
> 1 ; Unknown 3
def f(p):
    h = 1
    return [h() for h in p]
> a ; ok 1 b,a,b
lambda x, y: y["b"] + x + y["a"] + y["b"]
> a ; ok 1
lambda x, y: x["b"]
> a ; ok 1 c
lambda acc, row: acc + [1 for acc in row["c"]]
> r ; ok 0 a,b,a
lambda x: x["a"] if x["b"] else x["a"]
> r ; ok 0 k,v
lambda x: {x["k"]: x["v"]}["c"]
> r ; ok 2 b,a,c,d,e
def f(x):
    y = x["b"]
    if x["a"]:
        return x["c"]
    for i in x["d"]:
        y += x["e"]
    return y
> a ; ok 1 n
def f(acc, x):
    return acc["n"] + x["n"]
> a ; ok 2 a
def f(acc, x):
    for y in x["a"]:
        acc += y
    return acc
> a ; RowUse 90
def f(acc, x):
    x += acc
    return 1
> a ; Unknown 2
def f(acc, x):
    return acc(x["a"])
"#;

pub const COUNT: usize = 707;
