// Commands over scripts with any number of inputs, and what they leave. Expected bytes are those of the rules.
use crate::tests::ran::{Faults, Ran, file, run_line};
use std::alloc::Global;
use std::test::Fail;
use tuplex_run::Outcome;
use tx_place::Files;
use tx_text::{Bytes, NoMemory};

// A row: `WORDS§FIRST LAST CONSOLE MOST§NAME:TEXT§NAME:TEXT => STATUS§NAME§OUTPUT§REPORT§SAID§COMPLAINED`.
//
// One call of the place fails at a time, from the first to the last (none where the cell is empty), and one of the console; a read
// takes so many bytes at most. Then come the files, of which the first is the script. Behind the arrow stand the status, the file
// that the outcome names, the files `out.csv` and `out.csv.exceptions.csv` (`-` where there is none), and what the console was
// told. `push_sign` has the signs: `¶` is a line feed.
const SCRIPTS: &str = r#"# two sums; text and missing cells; the bound of integers
run s.txs§§s.txs:csv("in.csv").withColumn("s", lambda x: x["a"] + x["b"]).tocsv("out.csv")§in.csv:a,b¶1,2¶3,4¶ => 0§§a,b,s¶1,2,3¶3,4,7¶§operator,kind,class,row¶§rows 2 exceptions 0¶§
run s.txs§§s.txs:csv("in.csv").withColumn("s", lambda x: x["a"] + x["b"]).tocsv("out.csv")§in.csv:a,b¶1,2¶x,4¶,5¶x,y¶ => 0§§a,b,s¶1,2,3¶x,y,xy¶§operator,kind,class,row¶2,withColumn,TypeError,1:2¶2,withColumn,TypeError,1:3¶§rows 2 exceptions 2¶§
run s.txs§§s.txs:csv("in.csv").withColumn("s", lambda x: x["a"] + x["b"]).tocsv("out.csv")§in.csv:a,b¶170141183460469231731687303715884105727,1¶170141183460469231731687303715884105728,1¶ => 0§§a,b,s¶§operator,kind,class,row¶2,withColumn,OverflowError,1:1¶2,withColumn,TypeError,1:2¶§rows 0 exceptions 2¶§
# resolve, and then ignore; a resolver that raises, in both orders
run s.txs§§s.txs:csv("in.csv").withColumn("n", lambda x: int(x["a"])).resolve(ValueError, lambda x: 0).tocsv("out.csv")§in.csv:a,b¶7,1¶7up,2¶,3¶ => 0§§a,b,n¶7,1,7¶7up,2,0¶§operator,kind,class,row¶2,withColumn,TypeError,1:3¶§rows 2 exceptions 1¶§
run s.txs§§s.txs:csv("in.csv").withColumn("n", lambda x: int(x["a"])).resolve(ValueError, lambda x: 0).ignore(TypeError).tocsv("out.csv")§in.csv:a,b¶7,1¶7up,2¶,3¶ => 0§§a,b,n¶7,1,7¶7up,2,0¶§operator,kind,class,row¶§rows 2 exceptions 0¶§
run s.txs§§s.txs:csv("in.csv").withColumn("n", lambda x: int(x["a"])).resolve(ValueError, lambda x: {"k": 1}[x["b"]]).ignore(LookupError).tocsv("out.csv")§in.csv:a,b¶z,2¶ => 0§§a,b,n¶§operator,kind,class,row¶§rows 0 exceptions 0¶§
run s.txs§§s.txs:csv("in.csv").withColumn("n", lambda x: int(x["a"])).ignore(LookupError).resolve(ValueError, lambda x: {"k": 1}[x["b"]]).tocsv("out.csv")§in.csv:a,b¶z,2¶ => 0§§a,b,n¶§operator,kind,class,row¶2,withColumn,KeyError,1:1¶§rows 0 exceptions 1¶§
# floor division
run s.txs§§s.txs:csv("in.csv").map(lambda x: (-7 // 2, -7 % 2, 7 % -2), ["p", "q", "r"]).tocsv("out.csv")§in.csv:a¶1¶ => 0§§p,q,r¶-4,1,-1¶§operator,kind,class,row¶§rows 1 exceptions 0¶§
run s.txs§§s.txs:csv("in.csv").withColumn("z", lambda x: 1 // 0).tocsv("out.csv")§in.csv:a¶1¶ => 0§§a,z¶§operator,kind,class,row¶2,withColumn,ZeroDivisionError,1:1¶§rows 0 exceptions 1¶§
# the first of equal rows; cells that are only carried along
run s.txs§§s.txs:csv("in.csv").unique().tocsv("out.csv")§in.csv:a¶True¶1¶0¶False¶ => 0§§a¶True¶0¶§operator,kind,class,row¶§rows 2 exceptions 0¶§
run s.txs§§s.txs:csv("in.csv").selectColumns(["b", "a"]).tocsv("out.csv")§in.csv:a,b¶007,k¶-0,k¶+1,k¶true,k¶-5,k¶,k¶ => 0§§b,a¶k,007¶k,-0¶k,+1¶k,true¶k,-5¶k,¶§operator,kind,class,row¶§rows 6 exceptions 0¶§
# a field that is no text, and a short record
run s.txs§§s.txs:csv("in.csv").withColumn("s", lambda x: x["a"] + x["b"]).tocsv("out.csv")§in.csv:a,b,c¶1,2,¤¶3,4,5¶ => 0§§a,b,c,s¶3,4,5,7¶§operator,kind,class,row¶1,csv,UnicodeDecodeError,1:1¶§rows 1 exceptions 1¶§
run s.txs§§s.txs:csv("in.csv").withColumn("s", lambda x: x["a"] + x["b"]).tocsv("out.csv")§in.csv:a,b,c¶1,¤¶3,4,5¶ => 0§§a,b,c,s¶3,4,5,7¶§operator,kind,class,row¶1,csv,RecordError,1:1¶§rows 1 exceptions 1¶§
# an aggregate of texts; a filter behind a fault
run s.txs§§s.txs:csv("in.csv").aggregate(lambda acc, x: acc + str(x["v"]), "", "t").tocsv("out.csv")§in.csv:v¶a¶1¶b¶ => 0§§t¶a1b¶§operator,kind,class,row¶§rows 1 exceptions 0¶§
run s.txs§§s.txs:csv("in.csv").withColumn("n", lambda x: int(x["t"])).filter(lambda x: x["k"]).tocsv("out.csv")§in.csv:t,k¶5,True¶z,False¶6,False¶ => 0§§t,k,n¶5,True,5¶§operator,kind,class,row¶2,withColumn,ValueError,1:2¶§rows 1 exceptions 1¶§
# joins
run s.txs§§s.txs:r = csv("r.csv")¶csv("l.csv").join(r, "k", "k").tocsv("out.csv")§l.csv:id,k¶1,7¶2,¶3,9¶§r.csv:k,v¶7,p¶,q¶7,r¶ => 0§§id,k,v¶1,7,p¶1,7,r¶2,,q¶§operator,kind,class,row¶§rows 3 exceptions 0¶§
run s.txs§§s.txs:r = csv("r.csv")¶csv("l.csv").leftJoin(r, "k", "k").tocsv("out.csv")§l.csv:id,k¶1,7¶2,¶3,9¶§r.csv:k,v¶7,p¶,q¶7,r¶ => 0§§id,k,v¶1,7,p¶1,7,r¶2,,q¶3,9,¶§operator,kind,class,row¶§rows 4 exceptions 0¶§
run s.txs§§s.txs:r = csv("r.csv")¶csv("l.csv").join(r, "k", "k").withColumn("w", lambda x: x["v"] + 1).tocsv("out.csv")§l.csv:id,k¶1,7¶2,¶3,9¶§r.csv:k,v¶7,p¶,q¶7,r¶ => 0§§id,k,v,w¶§operator,kind,class,row¶4,withColumn,TypeError,2:1+1:1¶4,withColumn,TypeError,2:1+1:3¶4,withColumn,TypeError,2:2+1:2¶§rows 0 exceptions 3¶§
# listings
run s.txs§§s.txs:def beds(x):¶    facts = x["facts"]¶    end = facts.find(" bds")¶    if end < 0:¶        return int(facts[:facts.find(" ,")])¶    return int(facts[:end])¶¶def sqft(x):¶    facts = x["facts"]¶    start = facts.rfind(" , ") + 3¶    return int(facts[start:facts.find(" sqft")].replace(",", ""))¶¶def price(x):¶    return int(x["price"][1:].replace(",", ""))¶¶(csv("listings.csv")¶    .withColumn("beds", beds)¶    .resolve(ValueError, lambda x: 0)¶    .withColumn("sqft", sqft)¶    .withColumn("price", price)¶    .filter(lambda x: x["price"] < 1000000)¶    .selectColumns(["title", "beds", "sqft", "price"])¶    .tocsv("out.csv"))¶§listings.csv:title,facts,price¶House For Sale,"3 bds , 2 ba , 1,560 sqft","$489,000"¶Condo For Sale,"Studio , 1 ba , 520 sqft","$210,000"¶House For Sale,"4 bds , 3 ba , 2,240 sqft",¶Condo For Sale,"2 bds , 1 ba , 900 sqft","$1,050,000"¶ => 0§§title,beds,sqft,price¶House For Sale,3,1560,489000¶Condo For Sale,0,520,210000¶§operator,kind,class,row¶4,withColumn,TypeError,1:3¶§rows 2 exceptions 1¶§
# files without rows, with a mark, and without the last line feed
run s.txs§§s.txs:csv("in.csv").tocsv("out.csv")§in.csv: => 0§§§operator,kind,class,row¶§rows 0 exceptions 0¶§
run s.txs§§s.txs:csv("in.csv").tocsv("out.csv")§in.csv:a,b => 0§§a,b¶§operator,kind,class,row¶§rows 0 exceptions 0¶§
run s.txs§§s.txs:csv("in.csv").tocsv("out.csv")§in.csv:◆a¶1¶ => 0§§a¶1¶§operator,kind,class,row¶§rows 1 exceptions 0¶§
run s.txs§§s.txs:csv("in.csv").tocsv("out.csv")§in.csv:a¶1 => 0§§a¶1¶§operator,kind,class,row¶§rows 1 exceptions 0¶§
# a local without a value; errors of the profile
run s.txs§§s.txs:def f(x):¶    if x["a"] == 1:¶        y = 2¶    return y¶csv("in.csv").withColumn("y", f).tocsv("out.csv")§in.csv:a¶1¶3¶ => 0§§a,y¶1,2¶§operator,kind,class,row¶2,withColumn,UnboundLocalError,1:2¶§rows 1 exceptions 1¶§
run s.txs§§s.txs:csv("in.csv").withColumn("y", lambda x: x["a"].lower()).tocsv("out.csv")§in.csv:a¶Ÿ¶ => 0§§a,y¶§operator,kind,class,row¶2,withColumn,ProfileError,1:1¶§rows 0 exceptions 1¶§
run s.txs§§s.txs:csv("in.csv").withColumn("y", lambda x: "x" * 1048577).tocsv("out.csv")§in.csv:a¶1¶ => 0§§a,y¶§operator,kind,class,row¶2,withColumn,ProfileError,1:1¶§rows 0 exceptions 1¶§
run s.txs§§s.txs:csv("in.csv").filter(lambda x: len("x" * 1048576) == 1048576).tocsv("out.csv")§in.csv:a¶1¶ => 0§§a¶1¶§operator,kind,class,row¶§rows 1 exceptions 0¶§
# handlers: ignore ahead of and behind resolve; a class above the one that is raised, and one below it
run s.txs§§s.txs:csv("in.csv").withColumn("n", lambda x: int(x["a"])).ignore(ValueError).resolve(ValueError, lambda x: 0).tocsv("out.csv")§in.csv:a¶7¶z¶ => 0§§a,n¶7,7¶§operator,kind,class,row¶§rows 1 exceptions 0¶§
run s.txs§§s.txs:csv("in.csv").withColumn("n", lambda x: int(x["a"])).resolve(ValueError, lambda x: 0).ignore(ValueError).tocsv("out.csv")§in.csv:a¶7¶z¶ => 0§§a,n¶7,7¶z,0¶§operator,kind,class,row¶§rows 2 exceptions 0¶§
run s.txs§§s.txs:csv("in.csv").withColumn("n", lambda x: {"k": 1}[x["a"]]).ignore(LookupError).tocsv("out.csv")§in.csv:a¶k¶z¶ => 0§§a,n¶k,1¶§operator,kind,class,row¶§rows 1 exceptions 0¶§
run s.txs§§s.txs:csv("in.csv").withColumn("n", lambda x: {"k": 1}[x["a"]]).ignore(Exception).tocsv("out.csv")§in.csv:a¶k¶z¶ => 0§§a,n¶k,1¶§operator,kind,class,row¶§rows 1 exceptions 0¶§
run s.txs§§s.txs:csv("in.csv").withColumn("n", lambda x: int(x["a"])).ignore(UnicodeDecodeError).tocsv("out.csv")§in.csv:a¶7¶z¶ => 0§§a,n¶7,7¶§operator,kind,class,row¶2,withColumn,ValueError,1:2¶§rows 1 exceptions 1¶§
run s.txs§§s.txs:csv("in.csv").ignore(ValueError).tocsv("out.csv")§in.csv:a¶1¶ => 0§§a¶1¶§operator,kind,class,row¶§rows 1 exceptions 0¶§
run s.txs§§s.txs:csv("in.csv").ignore(ValueError).tocsv("out.csv")§in.csv:a¶1¶¤¶ => 0§§a¶1¶§operator,kind,class,row¶§rows 1 exceptions 0¶§
run s.txs§§s.txs:csv("in.csv").ignore(RecordError).tocsv("out.csv")§in.csv:a¶1¶¤¶ => 0§§a¶1¶§operator,kind,class,row¶1,csv,UnicodeDecodeError,1:2¶§rows 1 exceptions 1¶§
# handlers: a map whose resolver gives another shape; an aggregate
run s.txs§§s.txs:csv("in.csv").map(lambda x: (x["a"], int(x["a"])), ["p", "q"]).resolve(ValueError, lambda x: x["a"]).tocsv("out.csv")§in.csv:a¶1¶z¶ => 0§§p,q¶1,1¶§operator,kind,class,row¶2,map,TypeError,1:2¶§rows 1 exceptions 1¶§
run s.txs§§s.txs:csv("in.csv").map(lambda x: (x["a"], int(x["a"])), ["p", "q"]).resolve(ValueError, lambda x: x["a"]).ignore(TypeError).tocsv("out.csv")§in.csv:a¶1¶z¶ => 0§§p,q¶1,1¶§operator,kind,class,row¶§rows 1 exceptions 0¶§
run s.txs§§s.txs:csv("in.csv").map(lambda x: (x["a"], int(x["a"])), ["p", "q"]).resolve(ValueError, lambda x: (x["a"], 0)).tocsv("out.csv")§in.csv:a¶1¶z¶ => 0§§p,q¶1,1¶z,0¶§operator,kind,class,row¶§rows 2 exceptions 0¶§
run s.txs§§s.txs:csv("in.csv").aggregate(lambda acc, x: acc + x["v"], 0, "t").tocsv("out.csv")§in.csv:v¶1¶z¶2¶ => 0§§t¶3¶§operator,kind,class,row¶2,aggregate,TypeError,1:2¶§rows 1 exceptions 1¶§
run s.txs§§s.txs:csv("in.csv").aggregate(lambda acc, x: acc + x["v"], 0, "t").ignore(TypeError).tocsv("out.csv")§in.csv:v¶1¶z¶2¶ => 0§§t¶3¶§operator,kind,class,row¶§rows 1 exceptions 0¶§
run s.txs§§s.txs:csv("in.csv").aggregate(lambda acc, x: acc + x["v"], 0, "t").resolve(TypeError, lambda acc, x: acc - 1).tocsv("out.csv")§in.csv:v¶1¶z¶2¶ => 0§§t¶2¶§operator,kind,class,row¶§rows 1 exceptions 0¶§
# handlers: keys that are not hashable, on either side of a join; a container at the end
run s.txs§§s.txs:r = csv("r.csv").withColumn("k", lambda x: [x["k"]])¶csv("l.csv").join(r, "k", "k").tocsv("out.csv")§l.csv:k¶1¶§r.csv:k,v¶1,p¶ => 0§§k,v¶§operator,kind,class,row¶4,join,TypeError,1:1¶§rows 0 exceptions 1¶§
run s.txs§§s.txs:r = csv("r.csv").withColumn("k", lambda x: [x["k"]])¶csv("l.csv").join(r, "k", "k").ignore(TypeError).tocsv("out.csv")§l.csv:k¶1¶§r.csv:k,v¶1,p¶ => 0§§k,v¶§operator,kind,class,row¶§rows 0 exceptions 0¶§
run s.txs§§s.txs:r = csv("r.csv")¶csv("l.csv").withColumn("k", lambda x: [x["k"]]).join(r, "k", "k").tocsv("out.csv")§l.csv:k¶1¶§r.csv:k,v¶1,p¶ => 0§§k,v¶§operator,kind,class,row¶4,join,TypeError,2:1¶§rows 0 exceptions 1¶§
run s.txs§§s.txs:r = csv("r.csv")¶csv("l.csv").withColumn("k", lambda x: [x["k"]]).join(r, "k", "k").ignore(TypeError).tocsv("out.csv")§l.csv:k¶1¶§r.csv:k,v¶1,p¶ => 0§§k,v¶§operator,kind,class,row¶§rows 0 exceptions 0¶§
run s.txs§§s.txs:csv("in.csv").withColumn("c", lambda x: (1, 2)).tocsv("out.csv")§in.csv:a¶1¶ => 0§§a,c¶§operator,kind,class,row¶3,tocsv,TypeError,1:1¶§rows 0 exceptions 1¶§
# entries stand by operator, and then by row
run s.txs§§s.txs:csv("in.csv").withColumn("n", lambda x: int(x["a"])).withColumn("m", lambda x: 1 // x["n"]).tocsv("out.csv")§in.csv:a¶0¶z¶0¶y¶1¶ => 0§§a,n,m¶1,1,1¶§operator,kind,class,row¶2,withColumn,ValueError,1:2¶2,withColumn,ValueError,1:4¶3,withColumn,ZeroDivisionError,1:1¶3,withColumn,ZeroDivisionError,1:3¶§rows 1 exceptions 4¶§
# mapColumn and renameColumn
run s.txs§§s.txs:csv("in.csv").mapColumn("a", lambda v: v + 1).renameColumn("a", "c").tocsv("out.csv")§in.csv:a,b¶1,x¶y,2¶ => 0§§c,b¶2,x¶§operator,kind,class,row¶2,mapColumn,TypeError,1:2¶§rows 1 exceptions 1¶§
# refused scripts; no file changes
run s.txs§§s.txs:def f(x):¶    while x:¶        pass¶csv("in.csv").tocsv("out.csv")§in.csv:a,b¶1,2¶3,4¶ => 3§§-§-§§tuplex: script line 2: Outside¶
run s.txs§§s.txs:def f(x):¶    return f(x)¶csv("in.csv").tocsv("out.csv")§in.csv:a,b¶1,2¶3,4¶ => 3§§-§-§§tuplex: script line 2: Recursive¶
run s.txs§§s.txs:csv("in.csv").withColumn("s", lambda x: x["zz"] + x["b"]).tocsv("out.csv")§in.csv:a,b¶1,2¶3,4¶ => 4§§-§-§§tuplex: operator 2: no column zz¶
run s.txs§§s.txs:csv("a.csv").tocsv("a.csv")§in.csv:a,b¶1,2¶3,4¶ => 3§§-§-§§tuplex: script line 1: OutputIsInput¶
run s.txs§§s.txs:csv("in.csv").tocsv("s.txs")§in.csv:a,b¶1,2¶3,4¶ => 3§§-§-§§tuplex: script line 1: OutputIsInput¶
run s.txs§§s.txs:csv("in.csv").sort().tocsv("out.csv")§in.csv:a,b¶1,2¶3,4¶ => 3§§-§-§§tuplex: script line 1: Operator¶
run s.txs§§s.txs:csv("in.csv").selectColumns(["a"]).resolve(ValueError, lambda x: 0).tocsv("out.csv")§in.csv:a,b¶1,2¶3,4¶ => 3§§-§-§§tuplex: script line 1: HandlerPlace¶
run s.txs§§s.txs:csv("in.csv").filter(lambda x: x).tocsv("out.csv")§in.csv:a,b¶1,2¶3,4¶ => 3§§-§-§§tuplex: script line 1: RowUse¶
run s.txs§§s.txs:§in.csv:a,b¶1,2¶3,4¶ => 3§§-§-§§tuplex: script line 0: NoEnd¶
run s.txs§§s.txs:¤§in.csv:a,b¶1,2¶3,4¶ => 3§§-§-§§tuplex: script line 1: NotText¶
run s.txs§§s.txs:####€€€€§in.csv:a,b¶1,2¶3,4¶ => 3§§-§-§§tuplex: script line 0: NoEnd¶
run s.txs§§s.txs:#####€€€€§in.csv:a,b¶1,2¶3,4¶ => 3§§-§-§§tuplex: script line 0: TooLong¶
run§§s.txs:csv("in.csv").withColumn("s", lambda x: x["a"] + x["b"]).tocsv("out.csv")§in.csv:a,b¶1,2¶3,4¶ => 2§§-§-§§usage: tuplex run SCRIPT [--sample N] [--order K] [--stats] | check SCRIPT | generate SEED ROWS FILE¶
run s.txs --sample 10001§§s.txs:csv("in.csv").withColumn("s", lambda x: x["a"] + x["b"]).tocsv("out.csv")§in.csv:a,b¶1,2¶3,4¶ => 2§§-§-§§usage: tuplex run SCRIPT [--sample N] [--order K] [--stats] | check SCRIPT | generate SEED ROWS FILE¶
check s.txs§§s.txs:csv("in.csv").withColumn("s", lambda x: x["a"] + x["b"]).tocsv("out.csv")§in.csv:a,b¶1,2¶3,4¶ => 0§§-§-§accepted¶§
generate 1 x out.csv§§s.txs:csv("in.csv").withColumn("s", lambda x: x["a"] + x["b"]).tocsv("out.csv")§in.csv:a,b¶1,2¶3,4¶ => 2§§-§-§§usage: tuplex run SCRIPT [--sample N] [--order K] [--stats] | check SCRIPT | generate SEED ROWS FILE¶
# columns: the first absent name by operator, and a name that is no ASCII
run s.txs§§s.txs:csv("in.csv").selectColumns(["é"]).renameColumn("b", "c").tocsv("out.csv")§in.csv:a,b¶1,2¶3,4¶ => 4§§-§-§§tuplex: operator 2: no column é¶
run s.txs§§s.txs:r = csv("r.csv")¶csv("l.csv").join(r, "q", "z").tocsv("out.csv")§l.csv:id,k¶1,7¶2,¶3,9¶§r.csv:k,v¶7,p¶,q¶7,r¶ => 4§§-§-§§tuplex: operator 3: no column q¶
run s.txs§§s.txs:r = csv("r.csv")¶csv("l.csv").join(r, "k", "z").tocsv("out.csv")§l.csv:id,k¶1,7¶2,¶3,9¶§r.csv:k,v¶7,p¶,q¶7,r¶ => 4§§-§-§§tuplex: operator 3: no column z¶
# files that are absent: a script ahead of its faults, and the inputs in the order of the operators
run s.txs§§s.txs:r = csv("r.csv")¶csv("l.csv").join(r, "k", "k").tocsv("out.csv")§r.csv:k,v¶7,p¶,q¶7,r¶ => 6§l.csv§-§-§§tuplex: l.csv: read failed¶
run s.txs§§s.txs:r = csv("r.csv")¶csv("l.csv").join(r, "k", "k").tocsv("out.csv")§l.csv:id,k¶1,7¶2,¶3,9¶ => 6§r.csv§-§-§§tuplex: r.csv: read failed¶
run s.txs§§s.txs:r = csv("r.csv")¶csv("l.csv").join(r, "k", "k").tocsv("out.csv") => 6§r.csv§-§-§§tuplex: r.csv: read failed¶
run s.txs§§s.txs:r = csv("r.csv")¶csv("l.csv").join(r, "z", "z").tocsv("out.csv")§r.csv:k,v¶7,p¶,q¶7,r¶ => 6§l.csv§-§-§§tuplex: l.csv: read failed¶
run s.txs§§s.txs:csv("ß.csv").tocsv("out.csv") => 6§ß.csv§-§-§§tuplex: ß.csv: read failed¶
run t.txs§§s.txs:r = csv("r.csv")¶csv("l.csv").join(r, "k", "k").tocsv("out.csv")§l.csv:id,k¶1,7¶2,¶3,9¶§r.csv:k,v¶7,p¶,q¶7,r¶ => 6§t.txs§-§-§§tuplex: t.txs: read failed¶
# each call of the place failing in turn, over a script with two inputs: two reads of each file, and then a create and an append of the output, and of the report
run s.txs§1 2 0 65536§s.txs:r = csv("r.csv")¶csv("l.csv").join(r, "k", "k").tocsv("out.csv")§l.csv:id,k¶1,7¶2,¶3,9¶§r.csv:k,v¶7,p¶,q¶7,r¶ => 6§s.txs§-§-§§tuplex: s.txs: read failed¶
run s.txs§3 4 0 65536§s.txs:r = csv("r.csv")¶csv("l.csv").join(r, "k", "k").tocsv("out.csv")§l.csv:id,k¶1,7¶2,¶3,9¶§r.csv:k,v¶7,p¶,q¶7,r¶ => 6§r.csv§-§-§§tuplex: r.csv: read failed¶
run s.txs§5 6 0 65536§s.txs:r = csv("r.csv")¶csv("l.csv").join(r, "k", "k").tocsv("out.csv")§l.csv:id,k¶1,7¶2,¶3,9¶§r.csv:k,v¶7,p¶,q¶7,r¶ => 6§l.csv§-§-§§tuplex: l.csv: read failed¶
run s.txs§7 7 0 65536§s.txs:r = csv("r.csv")¶csv("l.csv").join(r, "k", "k").tocsv("out.csv")§l.csv:id,k¶1,7¶2,¶3,9¶§r.csv:k,v¶7,p¶,q¶7,r¶ => 7§out.csv§-§-§§tuplex: out.csv: write failed¶
run s.txs§8 8 0 65536§s.txs:r = csv("r.csv")¶csv("l.csv").join(r, "k", "k").tocsv("out.csv")§l.csv:id,k¶1,7¶2,¶3,9¶§r.csv:k,v¶7,p¶,q¶7,r¶ => 7§out.csv§id,k,v¶1,7,p§-§§tuplex: out.csv: write failed¶
run s.txs§9 9 0 65536§s.txs:r = csv("r.csv")¶csv("l.csv").join(r, "k", "k").tocsv("out.csv")§l.csv:id,k¶1,7¶2,¶3,9¶§r.csv:k,v¶7,p¶,q¶7,r¶ => 7§out.csv.exceptions.csv§id,k,v¶1,7,p¶1,7,r¶2,,q¶§-§§tuplex: out.csv.exceptions.csv: write failed¶
run s.txs§10 10 0 65536§s.txs:r = csv("r.csv")¶csv("l.csv").join(r, "k", "k").tocsv("out.csv")§l.csv:id,k¶1,7¶2,¶3,9¶§r.csv:k,v¶7,p¶,q¶7,r¶ => 7§out.csv.exceptions.csv§id,k,v¶1,7,p¶1,7,r¶2,,q¶§operator,kin§§tuplex: out.csv.exceptions.csv: write failed¶
run s.txs§11 11 0 65536§s.txs:r = csv("r.csv")¶csv("l.csv").join(r, "k", "k").tocsv("out.csv")§l.csv:id,k¶1,7¶2,¶3,9¶§r.csv:k,v¶7,p¶,q¶7,r¶ => 0§§id,k,v¶1,7,p¶1,7,r¶2,,q¶§operator,kind,class,row¶§rows 3 exceptions 0¶§
# the same with reads of one byte
run s.txs§1 65 0 1§s.txs:r = csv("r.csv")¶csv("l.csv").join(r, "k", "k").tocsv("out.csv")§l.csv:id,k¶1,7¶2,¶3,9¶§r.csv:k,v¶7,p¶,q¶7,r¶ => 6§s.txs§-§-§§tuplex: s.txs: read failed¶
run s.txs§66 81 0 1§s.txs:r = csv("r.csv")¶csv("l.csv").join(r, "k", "k").tocsv("out.csv")§l.csv:id,k¶1,7¶2,¶3,9¶§r.csv:k,v¶7,p¶,q¶7,r¶ => 6§r.csv§-§-§§tuplex: r.csv: read failed¶
run s.txs§82 98 0 1§s.txs:r = csv("r.csv")¶csv("l.csv").join(r, "k", "k").tocsv("out.csv")§l.csv:id,k¶1,7¶2,¶3,9¶§r.csv:k,v¶7,p¶,q¶7,r¶ => 6§l.csv§-§-§§tuplex: l.csv: read failed¶
run s.txs§99 99 0 1§s.txs:r = csv("r.csv")¶csv("l.csv").join(r, "k", "k").tocsv("out.csv")§l.csv:id,k¶1,7¶2,¶3,9¶§r.csv:k,v¶7,p¶,q¶7,r¶ => 7§out.csv§-§-§§tuplex: out.csv: write failed¶
run s.txs§103 103 0 1§s.txs:r = csv("r.csv")¶csv("l.csv").join(r, "k", "k").tocsv("out.csv")§l.csv:id,k¶1,7¶2,¶3,9¶§r.csv:k,v¶7,p¶,q¶7,r¶ => 0§§id,k,v¶1,7,p¶1,7,r¶2,,q¶§operator,kind,class,row¶§rows 3 exceptions 0¶§
# each call of the console failing in turn; a complaint is one call
run s.txs§0 0 1 65536§s.txs:r = csv("r.csv")¶csv("l.csv").join(r, "k", "k").tocsv("out.csv")§l.csv:id,k¶1,7¶2,¶3,9¶§r.csv:k,v¶7,p¶,q¶7,r¶ => 9§§id,k,v¶1,7,p¶1,7,r¶2,,q¶§operator,kind,class,row¶§rows 3 exc§
run s.txs§0 0 2 65536§s.txs:r = csv("r.csv")¶csv("l.csv").join(r, "k", "k").tocsv("out.csv")§l.csv:id,k¶1,7¶2,¶3,9¶§r.csv:k,v¶7,p¶,q¶7,r¶ => 0§§id,k,v¶1,7,p¶1,7,r¶2,,q¶§operator,kind,class,row¶§rows 3 exceptions 0¶§
run s.txs§0 0 1 65536§s.txs:§in.csv:a,b¶1,2¶3,4¶ => 3§§-§-§§tuplex: script
run s.txs§0 0 1 65536§s.txs:csv("in.csv").withColumn("s", lambda x: x["zz"] + x["b"]).tocsv("out.csv")§in.csv:a,b¶1,2¶3,4¶ => 4§§-§-§§tuplex: operator
run s.txs§0 0 1 65536§s.txs:r = csv("r.csv")¶csv("l.csv").join(r, "k", "k").tocsv("out.csv")§r.csv:k,v¶7,p¶,q¶7,r¶ => 6§l.csv§-§-§§tuplex: l.csv"#;

// So many letters.
fn push_letters(bytes: &mut Bytes) -> Result<(), NoMemory> {
    for _ in 0..65_535 {
        bytes.push(b'x')?;
    }
    Ok(())
}

// Adds what a sign stands for: `¤` for a byte that is no UTF-8, `◆` for the UTF-8 mark, `€` for 65,535 letters.
fn push_sign(bytes: &mut Bytes, sign: char) -> Result<(), NoMemory> {
    let mut buffer = [0; 4];
    match sign {
        '¶' => bytes.push(b'\n'),
        '¤' => bytes.push(255),
        '◆' => bytes.push_all(b"\xef\xbb\xbf"),
        '€' => push_letters(bytes),
        _ => bytes.push_all(sign.encode_utf8(&mut buffer).as_bytes()),
    }
}

fn bytes_of(alloc: Global, text: &str) -> Result<Bytes, NoMemory> {
    let mut bytes = Bytes::new(alloc);
    for sign in text.chars() {
        push_sign(&mut bytes, sign)?;
    }
    Ok(bytes)
}

fn cell(row: &str, at: usize) -> &str {
    row.split('§').nth(at).unwrap_or("")
}

fn files_of(alloc: Global, row: &str) -> Result<Files, NoMemory> {
    let mut files = Files::new(alloc);
    for cell in row.split('§').skip(2) {
        let (name, text) = cell.split_once(':').unwrap_or(("", ""));
        files.push(file(alloc, name, bytes_of(alloc, text)?.as_slice())?)?;
    }
    Ok(files)
}

// The file that the outcome names.
fn named(outcome: &Outcome) -> &str {
    match outcome {
        Outcome::TooLarge { name } => name.as_str(),
        Outcome::ReadFault { name } => name.as_str(),
        Outcome::WriteFault { name } => name.as_str(),
        _ => "",
    }
}

fn push_part(told: &mut Bytes, part: &[u8]) -> Result<(), NoMemory> {
    told.push_all("§".as_bytes())?;
    told.push_all(part)
}

// What a run left, as it stands behind an arrow.
fn told(alloc: Global, ran: &Ran) -> Result<Bytes, NoMemory> {
    let status = format!(in alloc; "{}", ran.status())?;
    let mut told = Bytes::new(alloc);
    told.push_all(status.as_bytes())?;
    push_part(&mut told, named(&ran.outcome).as_bytes())?;
    push_part(&mut told, ran.output())?;
    push_part(&mut told, ran.report())?;
    push_part(&mut told, ran.console.said())?;
    push_part(&mut told, ran.console.complained())?;
    Ok(told)
}

// Each file is as it was.
fn are_kept(alloc: Global, ran: &Ran, row: &str) -> Result<bool, NoMemory> {
    for cell in row.split('§').skip(2) {
        let (name, text) = cell.split_once(':').unwrap_or(("", ""));
        if ran.file(name) != bytes_of(alloc, text)?.as_slice() {
            return Ok(false);
        }
    }
    Ok(true)
}

fn leaves(alloc: Global, row: &str, wanted: &str, faults: Faults) -> Result<bool, NoMemory> {
    let ran = run_line(alloc, cell(row, 0), files_of(alloc, row)?, faults)?;
    Ok(
        are_kept(alloc, &ran, row)?
            && told(alloc, &ran)?.as_slice() == bytes_of(alloc, wanted)?.as_slice(),
    )
}

fn number(row: &str, at: usize) -> Option<u64> {
    cell(row, 1).split(' ').nth(at)?.parse::<u64>().ok()
}

fn holds(alloc: Global, row: &str) -> Result<bool, NoMemory> {
    let (row, wanted) = row.split_once(" => ").unwrap_or(("", ""));
    let first = number(row, 0).unwrap_or(0);
    let last = number(row, 1).unwrap_or(0);
    let console = number(row, 2).unwrap_or(0);
    let most = number(row, 3).unwrap_or(65_536) as usize;
    for place in first..=last {
        let faults = Faults {
            place,
            console,
            most,
        };
        if !leaves(alloc, row, wanted, faults)? {
            return Ok(false);
        }
    }
    Ok(first <= last)
}

#[test]
fn scripts_leave_what_they_should(rt: HostRuntime) -> Result<(), Fail> {
    let mut rows = 0usize;
    for row in SCRIPTS.lines() {
        if !row.starts_with('#') {
            assert!(rt; holds(rt.alloc(), row)?, "{row}");
            rows = rows.wrapping_add(1);
        }
    }
    assert!(rt; rows == 91);
    Ok(())
}
