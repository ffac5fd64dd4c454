// Scripts with their files and what they give. An evaluation is one of an operator's function or of a resolver.
pub const ROWS: &str = r#"
> two sums
csv("in.csv").withColumn("s", lambda x: x["a"] + x["b"]).tocsv("out.csv")
<
a,b / 1,2 / 3,4
=
a,b,s / 1,2,3 / 3,4,7
-
2
> text and missing cells
csv("in.csv").withColumn("s", lambda x: x["a"] + x["b"]).tocsv("out.csv")
<
a,b / 1,2 / x,4 / ,5 / x,y
=
a,b,s / 1,2,3 / x,y,xy
2,withColumn,TypeError,1:2 / 2,withColumn,TypeError,1:3
4
> resolve
csv("in.csv").withColumn("n", lambda x: int(x["a"])).resolve(ValueError, lambda x: 0).tocsv("out.csv")
<
a,b / 7,1 / 7up,2 / ,3
=
a,b,n / 7,1,7 / 7up,2,0
2,withColumn,TypeError,1:3
4
> resolve then ignore
csv("in.csv").withColumn("n", lambda x: int(x["a"])).resolve(ValueError, lambda x: 0).ignore(TypeError).tocsv("out.csv")
<
a,b / 7,1 / 7up,2 / ,3
=
a,b,n / 7,1,7 / 7up,2,0
-
4
> resolver that raises
csv("in.csv").withColumn("n", lambda x: int(x["a"])).resolve(ValueError, lambda x: {"k": 1}[x["b"]]).ignore(LookupError).tocsv("out.csv")
<
a,b / z,2
=
a,b,n
-
2
> resolver that raises, handlers swapped
csv("in.csv").withColumn("n", lambda x: int(x["a"])).ignore(LookupError).resolve(ValueError, lambda x: {"k": 1}[x["b"]]).tocsv("out.csv")
<
a,b / z,2
=
a,b,n
2,withColumn,KeyError,1:1
2
> floor division
csv("in.csv").map(lambda x: (-7 // 2, -7 % 2, 7 % -2), ["p", "q", "r"]).tocsv("out.csv")
<
a / 1
=
p,q,r / -4,1,-1
-
1
> division by zero
csv("in.csv").withColumn("z", lambda x: 1 // 0).tocsv("out.csv")
<
a / 1
=
a,z
2,withColumn,ZeroDivisionError,1:1
1
> integer bound
csv("in.csv").withColumn("s", lambda x: x["a"] + x["b"]).tocsv("out.csv")
<
a,b / 170141183460469231731687303715884105727,1 / 170141183460469231731687303715884105728,1
=
a,b,s
2,withColumn,OverflowError,1:1 / 2,withColumn,TypeError,1:2
2
> first of equals
csv("in.csv").unique().tocsv("out.csv")
<
a / True / 1 / 0 / False
=
a / True / 0
-
0
> cells copied unchanged
csv("in.csv").selectColumns(["b", "a"]).tocsv("out.csv")
<
a,b / 007,k / -0,k / +1,k / true,k / -5,k / ,k
=
b,a / k,007 / k,-0 / k,+1 / k,true / k,-5 / k,
-
0
> short record
csv("in.csv").withColumn("s", lambda x: x["a"] + x["b"]).tocsv("out.csv")
<
a,b,c / 1,2 / 3,4,5
=
a,b,c,s / 3,4,5,7
1,csv,RecordError,1:1
1
> short record, ignored
csv("in.csv").ignore(RecordError).withColumn("s", lambda x: x["a"] + x["b"]).tocsv("out.csv")
<
a,b,c / 1,2 / 3,4,5
=
a,b,c,s / 3,4,5,7
-
1
> short record, another class ignored
csv("in.csv").ignore(ValueError).tocsv("out.csv")
<
a,b,c / 1,2 / 3,4,5
=
a,b,c / 3,4,5
1,csv,RecordError,1:1
0
> aggregate of texts
csv("in.csv").aggregate(lambda acc, x: acc + str(x["v"]), "", "t").tocsv("out.csv")
<
v / a / 1 / b
=
t / a1b
-
3
> filter behind a fault
csv("in.csv").withColumn("n", lambda x: int(x["t"])).filter(lambda x: x["k"]).tocsv("out.csv")
<
t,k / 5,True / z,False / 6,False
=
t,k,n / 5,True,5
2,withColumn,ValueError,1:2
5
> join
r = csv("r.csv")
csv("l.csv").join(r, "k", "k").tocsv("out.csv")
<
k,v / 7,p / ,q / 7,r
id,k / 1,7 / 2, / 3,9
=
id,k,v / 1,7,p / 1,7,r / 2,,q
-
0
> left join
r = csv("r.csv")
csv("l.csv").leftJoin(r, "k", "k").tocsv("out.csv")
<
k,v / 7,p / ,q / 7,r
id,k / 1,7 / 2, / 3,9
=
id,k,v / 1,7,p / 1,7,r / 2,,q / 3,9,
-
0
> a fault behind a join
r = csv("r.csv")
csv("l.csv").join(r, "k", "k").withColumn("w", lambda x: x["v"] + 1).tocsv("out.csv")
<
k,v / 7,p / ,q / 7,r
id,k / 1,7 / 2, / 3,9
=
id,k,v,w
4,withColumn,TypeError,2:1+1:1 / 4,withColumn,TypeError,2:1+1:3 / 4,withColumn,TypeError,2:2+1:2
3
> an empty file
csv("in.csv").tocsv("out.csv")
<
-
=
-
-
0
> a header alone
csv("in.csv").tocsv("out.csv")
<
a,b
=
a,b
-
0
> names in the script
csv("in.csv", ["p", "q"]).tocsv("out.csv")
<
1,2 / 3,4
=
p,q / 1,2 / 3,4
-
0
> local without a value
def f(x):
    if x["a"] == 1:
        y = 2
    return y
csv("in.csv").withColumn("y", f).tocsv("out.csv")
<
a / 1 / 3
=
a,y / 1,2
2,withColumn,UnboundLocalError,1:2
2
> profile errors
csv("in.csv").withColumn("y", lambda x: x["a"].lower()).tocsv("out.csv")
<
a / Ÿ
=
a,y
2,withColumn,ProfileError,1:1
1
> listings
def beds(x):
    facts = x["facts"]
    end = facts.find(" bds")
    if end < 0:
        return int(facts[:facts.find(" ,")])
    return int(facts[:end])

def sqft(x):
    facts = x["facts"]
    start = facts.rfind(" , ") + 3
    return int(facts[start:facts.find(" sqft")].replace(",", ""))

def price(x):
    return int(x["price"][1:].replace(",", ""))

(csv("listings.csv")
    .withColumn("beds", beds)
    .resolve(ValueError, lambda x: 0)
    .withColumn("sqft", sqft)
    .withColumn("price", price)
    .filter(lambda x: x["price"] < 1000000)
    .selectColumns(["title", "beds", "sqft", "price"])
    .tocsv("clean.csv"))
<
title,facts,price / House For Sale,"3 bds , 2 ba , 1,560 sqft","$489,000" / Condo For Sale,"Studio , 1 ba , 520 sqft","$210,000" / House For Sale,"4 bds , 3 ba , 2,240 sqft", / Condo For Sale,"2 bds , 1 ba , 900 sqft","$1,050,000"
=
title,beds,sqft,price / House For Sale,3,1560,489000 / Condo For Sale,0,520,210000
4,withColumn,TypeError,1:3
16
> ignore ahead of resolve
csv("in.csv").withColumn("n", lambda x: int(x["a"])).ignore(ValueError).resolve(ValueError, lambda x: 0).tocsv("out.csv")
<
a / z / 1
=
a,n / 1,1
-
2
> ignore behind resolve
csv("in.csv").withColumn("n", lambda x: int(x["a"])).resolve(ValueError, lambda x: 0).ignore(ValueError).tocsv("out.csv")
<
a / z / 1
=
a,n / z,0 / 1,1
-
3
> a class above
csv("in.csv").withColumn("n", lambda x: 1 // x["a"]).resolve(ArithmeticError, lambda x: 9).tocsv("out.csv")
<
a / 0 / 1
=
a,n / 0,9 / 1,1
-
3
> a class below does not catch
csv("in.csv").withColumn("n", lambda x: int(x["a"])).resolve(UnicodeDecodeError, lambda x: 9).tocsv("out.csv")
<
a / z
=
a,n
2,withColumn,ValueError,1:1
1
> a resolver of another shape
csv("in.csv").map(lambda x: (int(x["a"]), 1), ["p", "q"]).resolve(ValueError, lambda x: 0).tocsv("out.csv")
<
a / z / 1
=
p,q / 1,1
2,map,TypeError,1:1
3
> a resolver of another shape, ignored
csv("in.csv").map(lambda x: (int(x["a"]), 1), ["p", "q"]).resolve(ValueError, lambda x: (1, 2, 3)).ignore(TypeError).tocsv("out.csv")
<
a / z / 1
=
p,q / 1,1
-
3
> a map of another shape
csv("in.csv").map(lambda x: [1, 2], ["p", "q"]).tocsv("out.csv")
<
a / 1
=
p,q
2,map,TypeError,1:1
1
> an aggregate with ignore
csv("in.csv").aggregate(lambda acc, x: acc + x["v"], 0, "t").ignore(TypeError).tocsv("out.csv")
<
v / 1 / a / 2
=
t / 3
-
3
> an aggregate with resolve
csv("in.csv").aggregate(lambda acc, x: acc + x["v"], 0, "t").resolve(TypeError, lambda acc, x: acc + 10).tocsv("out.csv")
<
v / 1 / a / 2
=
t / 13
-
4
> an aggregate that reports
csv("in.csv").aggregate(lambda acc, x: acc + x["v"], 0, "t").tocsv("out.csv")
<
v / 1 / a / 2 / b
=
t / 3
2,aggregate,TypeError,1:2 / 2,aggregate,TypeError,1:4
4
> unhashable keys on the right
r = csv("r.csv").withColumn("k", lambda x: [1] if x["k"] == "l" else x["k"])
csv("l.csv").join(r, "k", "k").tocsv("out.csv")
<
k,v / l,p / 7,q
k / 7
=
k,v / 7,q
4,join,TypeError,1:1
2
> unhashable keys on the right, ignored
r = csv("r.csv").withColumn("k", lambda x: [1] if x["k"] == "l" else x["k"])
csv("l.csv").join(r, "k", "k").ignore(TypeError).tocsv("out.csv")
<
k,v / l,p / 7,q
k / 7
=
k,v / 7,q
-
2
> unhashable keys on either side
r = csv("r.csv").withColumn("k", lambda x: [1] if x["k"] == "l" else x["k"])
csv("l.csv").mapColumn("k", lambda v: [v] if v == 8 else v).leftJoin(r, "k", "k").tocsv("out.csv")
<
k,v / l,p / 7,q
k / 8 / 7
=
k,v / 7,q
5,leftJoin,TypeError,3:1 / 5,leftJoin,TypeError,1:1
4
> a container at tocsv
csv("in.csv").withColumn("n", lambda x: [1] if x["a"] == 1 else 2).tocsv("out.csv")
<
a / 1 / 2
=
a,n / 2,2
3,tocsv,TypeError,1:1
2
> unhashable cells at unique
csv("in.csv").withColumn("n", lambda x: [1] if x["a"] == 1 else 2).unique().tocsv("out.csv")
<
a / 1 / 2 / 2
=
a,n / 2,2
3,unique,TypeError,1:1
3
> entries by operator and then by row
csv("in.csv").withColumn("p", lambda x: 1 // x["a"]).withColumn("q", lambda x: 1 // x["b"]).tocsv("out.csv")
<
a,b / 1,0 / 0,1 / 1,1 / 0,0 / 1,0
=
a,b,p,q / 1,1,1,1
2,withColumn,ZeroDivisionError,1:2 / 2,withColumn,ZeroDivisionError,1:4 / 3,withColumn,ZeroDivisionError,1:1 / 3,withColumn,ZeroDivisionError,1:5
8
> columns
csv("in.csv").renameColumn("a", "z").mapColumn("b", lambda v: v + 1).withColumn("z", lambda x: x["z"] + 1).selectColumns(["b", "z", "b"]).tocsv("out.csv")
<
a,b / 1,2
=
b,z,b / 3,2,3
-
2
> one cell
csv("in.csv").map(lambda x: x["a"], "p").tocsv("out.csv")
<
a,b / x,1 / ,2
=
p / x / ""
-
2
> a pipeline used later
p = csv("a.csv").withColumn("n", lambda x: x["a"] + 1)
q = csv("b.csv").filter(lambda x: x["b"] > 1)
p.filter(lambda x: x["n"] > 2).join(q, "n", "b").tocsv("out.csv")
<
a / 1 / 2 / 3
b / 1 / 3 / 4
=
a,n / 2,3 / 3,4
-
9
> no columns
csv("in.csv").unique().tocsv("out.csv")
<
-
=
-
-
0
"#;

pub const COUNT: usize = 45;
