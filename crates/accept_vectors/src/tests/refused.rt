// Scripts with their first fault, by hand from the rules.

/// What is answered, and the script: `~` is a line feed, `^` a tab, `%` a carriage return, `$` the byte 255.
pub(super) const REFUSED: &str = r#"accepted | csv("in.csv").tocsv("out.csv")
accepted | csv("in.csv").withColumn("s", lambda x: x["a"] + x["b"]).tocsv("out.csv")
NoEnd 0 | 
NoEnd 0 | # only a comment~~
NotText 2 | x~$
NotText 1 | $x = 0x1f
Token 1 | x = 0x1f
Token 2 | csv("in.csv").tocsv("out.csv")~;
Indent 2 | def f(x):~^return x
Indent 4 | def f(x):~    if x:~        return x~  return x
Width 1 | x = 170141183460469231731687303715884105728
Width 2 | csv("in.csv").tocsv("out.csv")~(170141183460469231731687303715884105728
Outside 2 | def f(x):~    while x:~        pass~csv("in.csv").tocsv("out.csv")
Outside 3 | csv("in.csv").tocsv("out.csv")~def g(y):~    yield y~x = 1
NotABlock 1 | x = 1
NotABlock 2 | csv("in.csv").tocsv("out.csv")~x = 1
NotABlock 1 | csv("in.csv").map(lambda x: f"a", "b").tocsv("out.csv")
TooDeep 1 | csv("in.csv").mapColumn("a", lambda v: ((((((((((((((((((((((((((((((((((((((((((((((((((((((((((((((((v))))))))))))))))))))))))))))))))))))))))))))))))))))))))))))))))).tocsv("out.csv")
accepted | csv("in.csv").mapColumn("a", lambda v: (((((((((((((((((((((((((((((((((((((((((((((((((((((((((((((((v)))))))))))))))))))))))))))))))))))))))))))))))))))))))))))))))).tocsv("out.csv")
Operator 1 | csv("in.csv").sort().tocsv("out.csv")
Operator 3 | p = csv("a")~(csv("in.csv")~.nosuch().tocsv("out.csv"))
Operator 1 | csv("in.csv").map(lambda x: 1).tocsv("out.csv")
Operator 1 | csv("in.csv").selectColumns([]).tocsv("out.csv")
Operator 1 | csv("in.csv").selectColumns(("a", "b")).tocsv("out.csv")
Operator 1 | csv("in.csv").aggregate(lambda a, x: a, +1, "c").tocsv("out.csv")
Operator 1 | csv("in.csv").aggregate(lambda a, x: a, (1), "c").tocsv("out.csv")
accepted | csv("in.csv").aggregate(lambda a, x: a, -1, "c").tocsv("out.csv")
accepted | csv("in.csv").aggregate(lambda a, x: a, (1, ["t", None], ()), "c").tocsv("out.csv")
Operator 1 | csv("in.csv").aggregate(lambda a, x: a, [[[[[[[[[[[[[[[[[]]]]]]]]]]]]]]]]], "c").tocsv("out.csv")
accepted | csv("in.csv").aggregate(lambda a, x: a, [[[[[[[[[[[[[[[[]]]]]]]]]]]]]]]], "c").tocsv("out.csv")
Operator 1 | csv("in.csv").filter(lambda x: True).resolve(NoSuch, lambda x: 1).tocsv("out.csv")
Operator 1 | map(lambda x: 1, "a").tocsv("out.csv")
Operator 1 | csv("in.csv").csv("b").tocsv("out.csv")
Operator 1 | csv("a", []).tocsv("out.csv")
accepted | csv("a", ["x", "y",],).tocsv("out.csv")
TooManyOperators 65 | (csv("in.csv")~.unique()~.unique()~.unique()~.unique()~.unique()~.unique()~.unique()~.unique()~.unique()~.unique()~.unique()~.unique()~.unique()~.unique()~.unique()~.unique()~.unique()~.unique()~.unique()~.unique()~.unique()~.unique()~.unique()~.unique()~.unique()~.unique()~.unique()~.unique()~.unique()~.unique()~.unique()~.unique()~.unique()~.unique()~.unique()~.unique()~.unique()~.unique()~.unique()~.unique()~.unique()~.unique()~.unique()~.unique()~.unique()~.unique()~.unique()~.unique()~.unique()~.unique()~.unique()~.unique()~.unique()~.unique()~.unique()~.unique()~.unique()~.unique()~.unique()~.unique()~.unique()~.unique()~.unique()~.unique().tocsv("out.csv"))
accepted | (csv("in.csv")~.unique()~.unique()~.unique()~.unique()~.unique()~.unique()~.unique()~.unique()~.unique()~.unique()~.unique()~.unique()~.unique()~.unique()~.unique()~.unique()~.unique()~.unique()~.unique()~.unique()~.unique()~.unique()~.unique()~.unique()~.unique()~.unique()~.unique()~.unique()~.unique()~.unique()~.unique()~.unique()~.unique()~.unique()~.unique()~.unique()~.unique()~.unique()~.unique()~.unique()~.unique()~.unique()~.unique()~.unique()~.unique()~.unique()~.unique()~.unique()~.unique()~.unique()~.unique()~.unique()~.unique()~.unique()~.unique()~.unique()~.unique()~.unique()~.unique()~.unique()~.unique()~.unique().tocsv("out.csv"))
TooManyOperators 65 | (csv("in.csv")~.ignore(TypeError)~.ignore(TypeError)~.ignore(TypeError)~.ignore(TypeError)~.ignore(TypeError)~.ignore(TypeError)~.ignore(TypeError)~.ignore(TypeError)~.ignore(TypeError)~.ignore(TypeError)~.ignore(TypeError)~.ignore(TypeError)~.ignore(TypeError)~.ignore(TypeError)~.ignore(TypeError)~.ignore(TypeError)~.ignore(TypeError)~.ignore(TypeError)~.ignore(TypeError)~.ignore(TypeError)~.ignore(TypeError)~.ignore(TypeError)~.ignore(TypeError)~.ignore(TypeError)~.ignore(TypeError)~.ignore(TypeError)~.ignore(TypeError)~.ignore(TypeError)~.ignore(TypeError)~.ignore(TypeError)~.ignore(TypeError)~.ignore(TypeError)~.ignore(TypeError)~.ignore(TypeError)~.ignore(TypeError)~.ignore(TypeError)~.ignore(TypeError)~.ignore(TypeError)~.ignore(TypeError)~.ignore(TypeError)~.ignore(TypeError)~.ignore(TypeError)~.ignore(TypeError)~.ignore(TypeError)~.ignore(TypeError)~.ignore(TypeError)~.ignore(TypeError)~.ignore(TypeError)~.ignore(TypeError)~.ignore(TypeError)~.ignore(TypeError)~.ignore(TypeError)~.ignore(TypeError)~.ignore(TypeError)~.ignore(TypeError)~.ignore(TypeError)~.ignore(TypeError)~.ignore(TypeError)~.ignore(TypeError)~.ignore(TypeError)~.ignore(TypeError)~.ignore(TypeError)~.ignore(TypeError)~.ignore(TypeError).tocsv("out.csv"))
TooManyDefs 129 | def f0(x):~    return x~def f1(x):~    return x~def f2(x):~    return x~def f3(x):~    return x~def f4(x):~    return x~def f5(x):~    return x~def f6(x):~    return x~def f7(x):~    return x~def f8(x):~    return x~def f9(x):~    return x~def f10(x):~    return x~def f11(x):~    return x~def f12(x):~    return x~def f13(x):~    return x~def f14(x):~    return x~def f15(x):~    return x~def f16(x):~    return x~def f17(x):~    return x~def f18(x):~    return x~def f19(x):~    return x~def f20(x):~    return x~def f21(x):~    return x~def f22(x):~    return x~def f23(x):~    return x~def f24(x):~    return x~def f25(x):~    return x~def f26(x):~    return x~def f27(x):~    return x~def f28(x):~    return x~def f29(x):~    return x~def f30(x):~    return x~def f31(x):~    return x~def f32(x):~    return x~def f33(x):~    return x~def f34(x):~    return x~def f35(x):~    return x~def f36(x):~    return x~def f37(x):~    return x~def f38(x):~    return x~def f39(x):~    return x~def f40(x):~    return x~def f41(x):~    return x~def f42(x):~    return x~def f43(x):~    return x~def f44(x):~    return x~def f45(x):~    return x~def f46(x):~    return x~def f47(x):~    return x~def f48(x):~    return x~def f49(x):~    return x~def f50(x):~    return x~def f51(x):~    return x~def f52(x):~    return x~def f53(x):~    return x~def f54(x):~    return x~def f55(x):~    return x~def f56(x):~    return x~def f57(x):~    return x~def f58(x):~    return x~def f59(x):~    return x~def f60(x):~    return x~def f61(x):~    return x~def f62(x):~    return x~def f63(x):~    return x~def f64(x):~    return x~csv("in.csv").tocsv("out.csv")
accepted | def f0(x):~    return x~def f1(x):~    return x~def f2(x):~    return x~def f3(x):~    return x~def f4(x):~    return x~def f5(x):~    return x~def f6(x):~    return x~def f7(x):~    return x~def f8(x):~    return x~def f9(x):~    return x~def f10(x):~    return x~def f11(x):~    return x~def f12(x):~    return x~def f13(x):~    return x~def f14(x):~    return x~def f15(x):~    return x~def f16(x):~    return x~def f17(x):~    return x~def f18(x):~    return x~def f19(x):~    return x~def f20(x):~    return x~def f21(x):~    return x~def f22(x):~    return x~def f23(x):~    return x~def f24(x):~    return x~def f25(x):~    return x~def f26(x):~    return x~def f27(x):~    return x~def f28(x):~    return x~def f29(x):~    return x~def f30(x):~    return x~def f31(x):~    return x~def f32(x):~    return x~def f33(x):~    return x~def f34(x):~    return x~def f35(x):~    return x~def f36(x):~    return x~def f37(x):~    return x~def f38(x):~    return x~def f39(x):~    return x~def f40(x):~    return x~def f41(x):~    return x~def f42(x):~    return x~def f43(x):~    return x~def f44(x):~    return x~def f45(x):~    return x~def f46(x):~    return x~def f47(x):~    return x~def f48(x):~    return x~def f49(x):~    return x~def f50(x):~    return x~def f51(x):~    return x~def f52(x):~    return x~def f53(x):~    return x~def f54(x):~    return x~def f55(x):~    return x~def f56(x):~    return x~def f57(x):~    return x~def f58(x):~    return x~def f59(x):~    return x~def f60(x):~    return x~def f61(x):~    return x~def f62(x):~    return x~def f63(x):~    return x~csv("in.csv").tocsv("out.csv")
Name 1 | csv("in.csv").withColumn("c", lambda x: y).tocsv("out.csv")
Name 1 | def len(x):~    return x~csv("in.csv").tocsv("out.csv")
Name 1 | csv = csv("a")~csv.tocsv("out.csv")
Name 1 | TypeError = csv("a")~TypeError.tocsv("out.csv")
Name 1 | def range(x):~    return x~csv("in.csv").tocsv("out.csv")
Name 3 | def f(x):~    return x~f = csv("a")~f.tocsv("out.csv")
Name 1 | p.tocsv("out.csv")
Name 1 | csv("in.csv").join(p, "a", "b").tocsv("out.csv")
Name 3 | def f(x):~    return x~f.tocsv("out.csv")
Name 2 | p = csv("a")~p.filter(p).tocsv("out.csv")
Name 1 | csv("in.csv").withColumn("c", lambda x: range(3)).tocsv("out.csv")
Name 1 | csv("in.csv").withColumn("c", lambda x: x["a"].title()).tocsv("out.csv")
Name 1 | p = p~p.tocsv("out.csv")
Arity 1 | csv("in.csv").withColumn("c", lambda x: len(x["a"], 1)).tocsv("out.csv")
Arity 4 | def f(x, y):~    return x~(csv("in.csv")~.filter(f).tocsv("out.csv"))
Arity 1 | csv("in.csv").aggregate(lambda a: a, 0, "c").tocsv("out.csv")
Recursive 2 | def f(x):~    return f(x)~csv("in.csv").tocsv("out.csv")
Recursive 2 | def f(x):~    return f(x, y)~csv("in.csv").tocsv("out.csv")
RowUse 1 | csv("in.csv").filter(lambda x: x).tocsv("out.csv")
RowUse 4 | def f(x):~    return x~(csv("in.csv")~.filter(f).tocsv("out.csv"))
HandlerPlace 1 | csv("in.csv").selectColumns(["a"]).resolve(TypeError, lambda x: 0).tocsv("out.csv")
HandlerPlace 2 | p = csv("a")~p.ignore(TypeError).tocsv("out.csv")
HandlerPlace 1 | csv("in.csv").tocsv("out.csv").ignore(TypeError)
Name 1 | csv("in.csv").selectColumns(["a"]).resolve(TypeError, lambda x, y: z).tocsv("out.csv")
Name 2 | csv("in.csv").resolve(TypeError, lambda: 0)~q.tocsv("out.csv")
accepted | csv("in.csv").ignore(ValueError).tocsv("out.csv")
PipeUse 1 | p = csv("a")~csv("in.csv").tocsv("out.csv")
PipeUse 2 | q = csv("b")~p = csv("a")~q.join(p, "a", "b").leftJoin(p, "a", "b").tocsv("out.csv")
accepted | q = csv("b")~p = csv("a")~q.join(p, "a", "b").tocsv("out.csv")
accepted | a = csv("b")~b = a~c = b~c.tocsv("out.csv")
NoEnd 2 | p = csv("a")~p.unique()
NoEnd 1 | csv("in.csv").tocsv("out.csv")~csv("in.csv").tocsv("out.csv")
NoEnd 1 | p = csv("a").tocsv("b")~p.tocsv("out.csv")
NoEnd 2 | (csv("in.csv")~.tocsv("x")~.tocsv("y"))
NoEnd 2 | # c~def f(x):~    return x
Token 2 | x = 1~;
Indent 3 | while x: pass~def f(x):~^return x
Width 2 | x = 1~y = 170141183460469231731687303715884105728
Outside 3 | def f(x):~    x = = 1~    while x:~        pass~x = 1
NotABlock 2 | csv("in.csv").sort()~x = 1
TooDeep 2 | csv("in.csv").sort()~csv("in.csv").mapColumn("a", lambda v: ((((((((((((((((((((((((((((((((((((((((((((((((((((((((((((((((((v))))))))))))))))))))))))))))))))))))))))))))))))))))))))))))))))))).tocsv("out.csv")
TooManyOperators 65 | (csv("in.csv")~.filter(lambda x: y)~.unique()~.unique()~.unique()~.unique()~.unique()~.unique()~.unique()~.unique()~.unique()~.unique()~.unique()~.unique()~.unique()~.unique()~.unique()~.unique()~.unique()~.unique()~.unique()~.unique()~.unique()~.unique()~.unique()~.unique()~.unique()~.unique()~.unique()~.unique()~.unique()~.unique()~.unique()~.unique()~.unique()~.unique()~.unique()~.unique()~.unique()~.unique()~.unique()~.unique()~.unique()~.unique()~.unique()~.unique()~.unique()~.unique()~.unique()~.unique()~.unique()~.unique()~.unique()~.unique()~.unique()~.unique()~.unique()~.unique()~.unique()~.unique()~.unique()~.unique()~.unique()~.unique()~.tocsv("in.csv"))
TooManyDefs 129 | def len(x):~    return x~def f1(x):~    return x~def f2(x):~    return x~def f3(x):~    return x~def f4(x):~    return x~def f5(x):~    return x~def f6(x):~    return x~def f7(x):~    return x~def f8(x):~    return x~def f9(x):~    return x~def f10(x):~    return x~def f11(x):~    return x~def f12(x):~    return x~def f13(x):~    return x~def f14(x):~    return x~def f15(x):~    return x~def f16(x):~    return x~def f17(x):~    return x~def f18(x):~    return x~def f19(x):~    return x~def f20(x):~    return x~def f21(x):~    return x~def f22(x):~    return x~def f23(x):~    return x~def f24(x):~    return x~def f25(x):~    return x~def f26(x):~    return x~def f27(x):~    return x~def f28(x):~    return x~def f29(x):~    return x~def f30(x):~    return x~def f31(x):~    return x~def f32(x):~    return x~def f33(x):~    return x~def f34(x):~    return x~def f35(x):~    return x~def f36(x):~    return x~def f37(x):~    return x~def f38(x):~    return x~def f39(x):~    return x~def f40(x):~    return x~def f41(x):~    return x~def f42(x):~    return x~def f43(x):~    return x~def f44(x):~    return x~def f45(x):~    return x~def f46(x):~    return x~def f47(x):~    return x~def f48(x):~    return x~def f49(x):~    return x~def f50(x):~    return x~def f51(x):~    return x~def f52(x):~    return x~def f53(x):~    return x~def f54(x):~    return x~def f55(x):~    return x~def f56(x):~    return x~def f57(x):~    return x~def f58(x):~    return x~def f59(x):~    return x~def f60(x):~    return x~def f61(x):~    return x~def f62(x):~    return x~def f63(x):~    return x~def f64(x):~    return x~csv("in.csv").tocsv("out.csv")
Arity 2 | p = csv("a")~csv("b").withColumn("c", lambda x: len()).tocsv("b")
RowUse 2 | p = csv("a")~csv("b").filter(lambda x: x).tocsv("b")
HandlerPlace 2 | p = csv("a")~csv("b").tocsv("b").ignore(TypeError)
PipeUse 2 | csv("x").tocsv("x")~p = csv("a")~csv("in.csv").tocsv("out.csv")
NoEnd 2 | p = csv("a")~q = p.tocsv("a")~q.tocsv("b")
OutputIsInput 1 | csv("a.csv").tocsv("a.csv")
OutputIsInput 1 | csv("a.csv").tocsv("script.py")
OutputIsInput 1 | csv("a.exceptions.csv").tocsv("a")
OutputIsInput 3 | p = csv("o")~(csv("in.csv").join(p, "a", "b")~.tocsv("o"))
accepted | # a comment~~(csv("in.csv")  # here~    .unique()%~    .tocsv("out.csv"))%~
accepted | def f(x):~    return x["a"]~csv("in.csv").map(f, ["a", "b"]).ignore(LookupError).map(lambda x: 1, "c").resolve(Exception, lambda y: 2).mapColumn("c", lambda v: v).renameColumn("c", "d").unique().tocsv("out.csv")"#;

/// What is answered, and how long letters behind the script make it, in bytes.
pub(super) const LONG: &str = r#"accepted ; 262144 | csv("a").tocsv("b")~#
TooLong 0 ; 262145 | csv("a").tocsv("b")~#
TooLong 0 ; 262145 | $
TooLong 0 ; 262145 | x = 0x1f~#
NotText 1 ; 262144 | $
Token 1 ; 262144 | x = 0x1f~#
Operator 2 ; 262144 | p = csv("a")~p.tocsv(b)~#"#;
