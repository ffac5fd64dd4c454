// Commands over a script and an input, and what they leave. Expected bytes are those of the rules, and where Python's csv
// reads a file in the same way, those of Python.
use crate::tests::ran::{Faults, Ran, SUMS, file, run_line, two_files};
use std::alloc::Global;
use std::process::Abort;
use tuplex_run::Outcome;
use tx_place::Files;
use tx_text::{Bytes, NoMemory, PyText};

// A row: `WORDS;NAME:SCRIPT;NAME:INPUT;FIRST;LAST;CONSOLE;MOST => STATUS;NAME;OUTPUT;REPORT;SAID;COMPLAINED;`.
//
// One call of the place fails at a time, from the first to the last (none where they are empty), and one of the console;
// a read takes so many bytes at most. Behind the arrow stand the status, the file that the outcome names, the files
// `out.csv` and `out.csv.exceptions.csv` (`-` where there is none), and what the console was told. `push_byte` has the
// signs: `/` is a line feed, `*` the script of the sums.
const COMMANDS: &str = r#"# whole examples
run s.txs;s.txs:*;in.csv:a,b/1,2/3,4/;;;; => 0;;a,b,s/1,2,3/3,4,7/;operator,kind,class,row/;rows 2 exceptions 0/;;
run s.txs;s.txs:*;in.csv:a,b/1,2/x,4/,5/x,y/;;;; => 0;;a,b,s/1,2,3/x,y,xy/;operator,kind,class,row/2,withColumn,TypeError,1:2/2,withColumn,TypeError,1:3/;rows 2 exceptions 2/;;
run s.txs;s.txs:*;in.csv:a,b/170141183460469231731687303715884105727,1/170141183460469231731687303715884105728,1/;;;; => 0;;a,b,s/;operator,kind,class,row/2,withColumn,OverflowError,1:1/2,withColumn,TypeError,1:2/;rows 0 exceptions 2/;;
# one record whose sum is a value, at the ends of 128 bits too
run s.txs;s.txs:*;in.csv:a,b/1,2/;;;; => 0;;a,b,s/1,2,3/;operator,kind,class,row/;rows 1 exceptions 0/;;
run s.txs;s.txs:*;in.csv:a,b/-5,3/;;;; => 0;;a,b,s/-5,3,-2/;operator,kind,class,row/;rows 1 exceptions 0/;;
run s.txs;s.txs:*;in.csv:a,b/0,0/;;;; => 0;;a,b,s/0,0,0/;operator,kind,class,row/;rows 1 exceptions 0/;;
run s.txs;s.txs:*;in.csv:a,b/True,1/;;;; => 0;;a,b,s/True,1,2/;operator,kind,class,row/;rows 1 exceptions 0/;;
run s.txs;s.txs:*;in.csv:a,b/True,True/;;;; => 0;;a,b,s/True,True,2/;operator,kind,class,row/;rows 1 exceptions 0/;;
run s.txs;s.txs:*;in.csv:a,b/False,False/;;;; => 0;;a,b,s/False,False,0/;operator,kind,class,row/;rows 1 exceptions 0/;;
run s.txs;s.txs:*;in.csv:a,b/x,y/;;;; => 0;;a,b,s/x,y,xy/;operator,kind,class,row/;rows 1 exceptions 0/;;
run s.txs;s.txs:*;in.csv:a,b/007,x/;;;; => 0;;a,b,s/007,x,007x/;operator,kind,class,row/;rows 1 exceptions 0/;;
run s.txs;s.txs:*;in.csv:a,b/-0,x/;;;; => 0;;a,b,s/-0,x,-0x/;operator,kind,class,row/;rows 1 exceptions 0/;;
run s.txs;s.txs:*;in.csv:a,b/+1,x/;;;; => 0;;a,b,s/+1,x,+1x/;operator,kind,class,row/;rows 1 exceptions 0/;;
run s.txs;s.txs:*;in.csv:a,b/true,x/;;;; => 0;;a,b,s/true,x,truex/;operator,kind,class,row/;rows 1 exceptions 0/;;
run s.txs;s.txs:*;in.csv:a,b/-,x/;;;; => 0;;a,b,s/-,x,-x/;operator,kind,class,row/;rows 1 exceptions 0/;;
run s.txs;s.txs:*;in.csv:a,b/ 1,x/;;;; => 0;;a,b,s/ 1,x, 1x/;operator,kind,class,row/;rows 1 exceptions 0/;;
run s.txs;s.txs:*;in.csv:a,b/"q""",z/;;;; => 0;;a,b,s/"q""",z,"q""z"/;operator,kind,class,row/;rows 1 exceptions 0/;;
run s.txs;s.txs:*;in.csv:a,b/"a,b",c/;;;; => 0;;a,b,s/"a,b",c,"a,bc"/;operator,kind,class,row/;rows 1 exceptions 0/;;
run s.txs;s.txs:*;in.csv:a,b/"a/b",c/;;;; => 0;;a,b,s/"a/b",c,"a/bc"/;operator,kind,class,row/;rows 1 exceptions 0/;;
run s.txs;s.txs:*;in.csv:a,b/170141183460469231731687303715884105727,0/;;;; => 0;;a,b,s/170141183460469231731687303715884105727,0,170141183460469231731687303715884105727/;operator,kind,class,row/;rows 1 exceptions 0/;;
run s.txs;s.txs:*;in.csv:a,b/-170141183460469231731687303715884105728,0/;;;; => 0;;a,b,s/-170141183460469231731687303715884105728,0,-170141183460469231731687303715884105728/;operator,kind,class,row/;rows 1 exceptions 0/;;
run s.txs;s.txs:*;in.csv:a,b/170141183460469231731687303715884105727,-170141183460469231731687303715884105728/;;;; => 0;;a,b,s/170141183460469231731687303715884105727,-170141183460469231731687303715884105728,-1/;operator,kind,class,row/;rows 1 exceptions 0/;;
run s.txs;s.txs:*;in.csv:a,b/170141183460469231731687303715884105728,x/;;;; => 0;;a,b,s/170141183460469231731687303715884105728,x,170141183460469231731687303715884105728x/;operator,kind,class,row/;rows 1 exceptions 0/;;
run s.txs;s.txs:*;in.csv:a,b/-170141183460469231731687303715884105729,x/;;;; => 0;;a,b,s/-170141183460469231731687303715884105729,x,-170141183460469231731687303715884105729x/;operator,kind,class,row/;rows 1 exceptions 0/;;
# one record whose sum raises
run s.txs;s.txs:*;in.csv:a,b/,1/;;;; => 0;;a,b,s/;operator,kind,class,row/2,withColumn,TypeError,1:1/;rows 0 exceptions 1/;;
run s.txs;s.txs:*;in.csv:a,b/,/;;;; => 0;;a,b,s/;operator,kind,class,row/2,withColumn,TypeError,1:1/;rows 0 exceptions 1/;;
run s.txs;s.txs:*;in.csv:a,b/,True/;;;; => 0;;a,b,s/;operator,kind,class,row/2,withColumn,TypeError,1:1/;rows 0 exceptions 1/;;
run s.txs;s.txs:*;in.csv:a,b/,x/;;;; => 0;;a,b,s/;operator,kind,class,row/2,withColumn,TypeError,1:1/;rows 0 exceptions 1/;;
run s.txs;s.txs:*;in.csv:a,b/1,/;;;; => 0;;a,b,s/;operator,kind,class,row/2,withColumn,TypeError,1:1/;rows 0 exceptions 1/;;
run s.txs;s.txs:*;in.csv:a,b/x,/;;;; => 0;;a,b,s/;operator,kind,class,row/2,withColumn,TypeError,1:1/;rows 0 exceptions 1/;;
run s.txs;s.txs:*;in.csv:a,b/x,1/;;;; => 0;;a,b,s/;operator,kind,class,row/2,withColumn,TypeError,1:1/;rows 0 exceptions 1/;;
run s.txs;s.txs:*;in.csv:a,b/1,x/;;;; => 0;;a,b,s/;operator,kind,class,row/2,withColumn,TypeError,1:1/;rows 0 exceptions 1/;;
run s.txs;s.txs:*;in.csv:a,b/x,True/;;;; => 0;;a,b,s/;operator,kind,class,row/2,withColumn,TypeError,1:1/;rows 0 exceptions 1/;;
run s.txs;s.txs:*;in.csv:a,b/True,x/;;;; => 0;;a,b,s/;operator,kind,class,row/2,withColumn,TypeError,1:1/;rows 0 exceptions 1/;;
run s.txs;s.txs:*;in.csv:a,b/007,1/;;;; => 0;;a,b,s/;operator,kind,class,row/2,withColumn,TypeError,1:1/;rows 0 exceptions 1/;;
run s.txs;s.txs:*;in.csv:a,b/170141183460469231731687303715884105728,1/;;;; => 0;;a,b,s/;operator,kind,class,row/2,withColumn,TypeError,1:1/;rows 0 exceptions 1/;;
run s.txs;s.txs:*;in.csv:a,b/170141183460469231731687303715884105727,1/;;;; => 0;;a,b,s/;operator,kind,class,row/2,withColumn,OverflowError,1:1/;rows 0 exceptions 1/;;
run s.txs;s.txs:*;in.csv:a,b/170141183460469231731687303715884105727,True/;;;; => 0;;a,b,s/;operator,kind,class,row/2,withColumn,OverflowError,1:1/;rows 0 exceptions 1/;;
run s.txs;s.txs:*;in.csv:a,b/-170141183460469231731687303715884105728,-1/;;;; => 0;;a,b,s/;operator,kind,class,row/2,withColumn,OverflowError,1:1/;rows 0 exceptions 1/;;
# how csv reads records and writes them
run s.txs;s.txs:*;in.csv:a,b^/1,2^/;;;; => 0;;a,b,s/1,2,3/;operator,kind,class,row/;rows 1 exceptions 0/;;
run s.txs;s.txs:*;in.csv:a,b//1,2//;;;; => 0;;a,b,s/1,2,3/;operator,kind,class,row/;rows 1 exceptions 0/;;
run s.txs;s.txs:*;in.csv:$a,b/1,2/;;;; => 0;;a,b,s/1,2,3/;operator,kind,class,row/;rows 1 exceptions 0/;;
run s.txs;s.txs:*;in.csv:a,b/1,2;;;; => 0;;a,b,s/1,2,3/;operator,kind,class,row/;rows 1 exceptions 0/;;
run s.txs;s.txs:*;in.csv:a,b/;;;; => 0;;a,b,s/;operator,kind,class,row/;rows 0 exceptions 0/;;
run s.txs;s.txs:*;in.csv:a,b;;;; => 0;;a,b,s/;operator,kind,class,row/;rows 0 exceptions 0/;;
run s.txs;s.txs:*;in.csv:a,b,c/1,2,"q""u,o/te"/;;;; => 0;;a,b,c,s/1,2,"q""u,o/te",3/;operator,kind,class,row/;rows 1 exceptions 0/;;
run s.txs;s.txs:*;in.csv:a,b,c/1,2,007/1,2,/;;;; => 0;;a,b,c,s/1,2,007,3/1,2,,3/;operator,kind,class,row/;rows 2 exceptions 0/;;
# files without a header, records and columns that are not as they should be
run s.txs;s.txs:*;in.csv:;;;; => 4;;-;-;;tuplex: operator 2: no column a/;
run s.txs;s.txs:*;in.csv://;;;; => 4;;-;-;;tuplex: operator 2: no column a/;
run s.txs;s.txs:*;in.csv:a,b/1/;;;; => 0;;a,b,s/;operator,kind,class,row/1,csv,RecordError,1:1/;rows 0 exceptions 1/;;
run s.txs;s.txs:*;in.csv:a,b/1,2/1,2,3/;;;; => 0;;a,b,s/1,2,3/;operator,kind,class,row/1,csv,RecordError,1:2/;rows 1 exceptions 1/;;
run s.txs;s.txs:*;in.csv:a,b,c/1,2,!/3,4,5/;;;; => 0;;a,b,c,s/3,4,5,7/;operator,kind,class,row/1,csv,UnicodeDecodeError,1:1/;rows 1 exceptions 1/;;
run s.txs;s.txs:*;in.csv:$$a,b/1,2/;;;; => 4;;-;-;;tuplex: operator 2: no column a/;
run s.txs;s.txs:*;in.csv:a,z/1,2/;;;; => 4;;-;-;;tuplex: operator 2: no column b/;
run s.txs;s.txs:*;in.csv:z,b/1,2/;;;; => 4;;-;-;;tuplex: operator 2: no column a/;
# fields of more than 65,536 bytes
run s.txs;s.txs:*;in.csv:a,b,c/1,2,~xxxxx;;;; => 0;;a,b,c,s/1,2,~xxxxx,3/;operator,kind,class,row/;rows 1 exceptions 0/;;
run s.txs;s.txs:*;in.csv:a,b,c/1,2,~xxxxxx;;;; => 0;;a,b,c,s/1,2,~xxxxxx,3/;operator,kind,class,row/;rows 1 exceptions 0/;;
# the new column replaces one of its name or is appended, and a line feed may end the script
run s.txs;s.txs:csv("in.csv").withColumn("a", lambda x: x["a"] + x["b"]).tocsv("out.csv");in.csv:a,b/1,2/;;;; => 0;;a,b/3,2/;operator,kind,class,row/;rows 1 exceptions 0/;;
run s.txs;s.txs:csv("in.csv").withColumn("c", lambda x: x["a"] + x["b"]).tocsv("out.csv");in.csv:a,c,b/1,z,2/;;;; => 0;;a,c,b/1,3,2/;operator,kind,class,row/;rows 1 exceptions 0/;;
run s.txs;s.txs:csv("in.csv").withColumn("a", lambda x: x["a"] + x["b"]).tocsv("out.csv");in.csv:a,b,a/1,2,9/;;;; => 0;;a,b,a/3,2,9/;operator,kind,class,row/;rows 1 exceptions 0/;;
run s.txs;s.txs:csv("in.csv").withColumn("s", lambda x: x["a"] + x["a"]).tocsv("out.csv");in.csv:a,b/1,2/;;;; => 0;;a,b,s/1,2,2/;operator,kind,class,row/;rows 1 exceptions 0/;;
run s.txs;s.txs:csv("in.csv").withColumn("s", lambda x: x["b"] + x["a"]).tocsv("out.csv");in.csv:a,b/x,y/;;;; => 0;;a,b,s/x,y,yx/;operator,kind,class,row/;rows 1 exceptions 0/;;
run s.txs;s.txs:csv("in.csv").withColumn("s", lambda x: x["a"] + x["b"]).tocsv("out.csv");in.csv:a,b/1,2/;;;; => 0;;a,b,s/1,2,3/;operator,kind,class,row/;rows 1 exceptions 0/;;
run s.txs;s.txs:*;in.csv:a,b/1,2/;;;; => 0;;a,b,s/1,2,3/;operator,kind,class,row/;rows 1 exceptions 0/;;
# long names
run s.txs;s.txs:csv("in.csv").withColumn("xxxxxxxxxxxxxxxxxxxxxxxxxxxxxxxxxxxxxxxxxxxxxxxxxxxxxxxxxxxxxxxx", lambda x: x["a"] + x["b"]).tocsv("out.csv");in.csv:a,b/1,2/;;;; => 0;;a,b,xxxxxxxxxxxxxxxxxxxxxxxxxxxxxxxxxxxxxxxxxxxxxxxxxxxxxxxxxxxxxxxx/1,2,3/;operator,kind,class,row/;rows 1 exceptions 0/;;
run s.txs;s.txs:csv("in.csv").withColumn("xxxxxxxxxxxxxxxxxxxxxxxxxxxxxxxxxxxxxxxxxxxxxxxxxxxxxxxxxxxxxxxxx", lambda x: x["a"] + x["b"]).tocsv("out.csv");in.csv:a,b/1,2/;;;; => 0;;a,b,xxxxxxxxxxxxxxxxxxxxxxxxxxxxxxxxxxxxxxxxxxxxxxxxxxxxxxxxxxxxxxxxx/1,2,3/;operator,kind,class,row/;rows 1 exceptions 0/;;
# other scripts, and some that would write their input or the script
run s.txs;s.txs:;in.csv:a,b/1,2/;;;; => 3;;-;-;;tuplex: script line 0: NoEnd/;
run s.txs;s.txs:csv("in.csv").withColumn("n", lambda x: int(x["a"])).resolve(ValueError, lambda x: 0).tocsv("out.csv");in.csv:a,b/1,2/;;;; => 0;;a,b,n/1,2,1/;operator,kind,class,row/;rows 1 exceptions 0/;;
run s.txs;s.txs:csv("in.csv").withColumn("s", lambda x: x["zz"] + x["b"]).tocsv("out.csv")/;in.csv:a,b/1,2/;;;; => 4;;-;-;;tuplex: operator 2: no column zz/;
run s.txs;s.txs:csv("in.csv").withColumn("s", lambda x: x["a"] + x["b"]).tocsv("out.csv")//;in.csv:a,b/1,2/;;;; => 0;;a,b,s/1,2,3/;operator,kind,class,row/;rows 1 exceptions 0/;;
run s.txs;s.txs:csv("in.csv").withColumn("s", lambda x: x["a"] + x["b"]).tocsv("out.csv") ;in.csv:a,b/1,2/;;;; => 0;;a,b,s/1,2,3/;operator,kind,class,row/;rows 1 exceptions 0/;;
run s.txs;s.txs: csv("in.csv").withColumn("s", lambda x: x["a"] + x["b"]).tocsv("out.csv");in.csv:a,b/1,2/;;;; => 3;;-;-;;tuplex: script line 1: Indent/;
run s.txs;s.txs:csv("in.csv").withColumn("", lambda x: x["a"] + x["b"]).tocsv("out.csv");in.csv:a,b/1,2/;;;; => 0;;a,b,/1,2,3/;operator,kind,class,row/;rows 1 exceptions 0/;;
run s.txs;s.txs:csv("in.csv").withColumn("s t", lambda x: x["a"] + x["b"]).tocsv("out.csv");in.csv:a,b/1,2/;;;; => 0;;a,b,s t/1,2,3/;operator,kind,class,row/;rows 1 exceptions 0/;;
run s.txs;s.txs:csv("in.csv").withColumn("s", lambda x: x["a"] - x["b"]).tocsv("out.csv");in.csv:a,b/1,2/;;;; => 0;;a,b,s/1,2,-1/;operator,kind,class,row/;rows 1 exceptions 0/;;
run s.txs;s.txs:csv("in.csv").withColumn("s", lambda x: x["a"] + x["b"]).tocsv("in.csv");in.csv:a,b/1,2/;;;; => 3;;-;-;;tuplex: script line 1: OutputIsInput/;
run s.txs;s.txs:csv("o.exceptions.csv").withColumn("s", lambda x: x["a"] + x["b"]).tocsv("o");in.csv:a,b/1,2/;;;; => 3;;-;-;;tuplex: script line 1: OutputIsInput/;
run s.txs;s.txs:csv("in.csv").withColumn("s", lambda x: x["a"] + x["b"]).tocsv("s.txs");in.csv:a,b/1,2/;;;; => 3;;-;-;;tuplex: script line 1: OutputIsInput/;
# a script has any name but that of the output or of the report
run -;-:*;in.csv:a,b/1,2/;;;; => 0;;a,b,s/1,2,3/;operator,kind,class,row/;rows 1 exceptions 0/;;
run out.csv.exceptions.csv;out.csv.exceptions.csv:*;in.csv:a,b/1,2/;;;; => 3;;-;csv("in.csv").withColumn("s", lambda x: x["a"] + x["b"]).tocsv("out.csv")/;;tuplex: script line 1: OutputIsInput/;
# words that ask for no command
;s.txs:*;in.csv:a,b/1,2/;;;; => 2;;-;-;;usage: tuplex run SCRIPT [--sample N] [--order K] [--stats] | check SCRIPT | generate SEED ROWS FILE/;
run;s.txs:*;in.csv:a,b/1,2/;;;; => 2;;-;-;;usage: tuplex run SCRIPT [--sample N] [--order K] [--stats] | check SCRIPT | generate SEED ROWS FILE/;
check;s.txs:*;in.csv:a,b/1,2/3,4/;;;; => 2;;-;-;;usage: tuplex run SCRIPT [--sample N] [--order K] [--stats] | check SCRIPT | generate SEED ROWS FILE/;
check s.txs s.txs;s.txs:*;in.csv:a,b/1,2/3,4/;;;; => 2;;-;-;;usage: tuplex run SCRIPT [--sample N] [--order K] [--stats] | check SCRIPT | generate SEED ROWS FILE/;
check s.txs --stats;s.txs:*;in.csv:a,b/1,2/3,4/;;;; => 2;;-;-;;usage: tuplex run SCRIPT [--sample N] [--order K] [--stats] | check SCRIPT | generate SEED ROWS FILE/;
generate 1 1000001 out.csv;s.txs:*;in.csv:a,b/1,2/3,4/;;;; => 2;;-;-;;usage: tuplex run SCRIPT [--sample N] [--order K] [--stats] | check SCRIPT | generate SEED ROWS FILE/;
generate 18446744073709551616 1 out.csv;s.txs:*;in.csv:a,b/1,2/3,4/;;;; => 2;;-;-;;usage: tuplex run SCRIPT [--sample N] [--order K] [--stats] | check SCRIPT | generate SEED ROWS FILE/;
generate 1 3;s.txs:*;in.csv:a,b/1,2/3,4/;;;; => 2;;-;-;;usage: tuplex run SCRIPT [--sample N] [--order K] [--stats] | check SCRIPT | generate SEED ROWS FILE/;
run s.txs --stats --stats;s.txs:*;in.csv:a,b/1,2/3,4/;;;; => 2;;-;-;;usage: tuplex run SCRIPT [--sample N] [--order K] [--stats] | check SCRIPT | generate SEED ROWS FILE/;
run s.txs --sample -1;s.txs:*;in.csv:a,b/1,2/3,4/;;;; => 2;;-;-;;usage: tuplex run SCRIPT [--sample N] [--order K] [--stats] | check SCRIPT | generate SEED ROWS FILE/;
run s.txs --sample 10001;s.txs:*;in.csv:a,b/1,2/3,4/;;;; => 2;;-;-;;usage: tuplex run SCRIPT [--sample N] [--order K] [--stats] | check SCRIPT | generate SEED ROWS FILE/;
run s.txs --order 18446744073709551616;s.txs:*;in.csv:a,b/1,2/3,4/;;;; => 2;;-;-;;usage: tuplex run SCRIPT [--sample N] [--order K] [--stats] | check SCRIPT | generate SEED ROWS FILE/;
--help;s.txs:*;in.csv:a,b/1,2/3,4/;;;; => 2;;-;-;;usage: tuplex run SCRIPT [--sample N] [--order K] [--stats] | check SCRIPT | generate SEED ROWS FILE/;
run -s.txs;s.txs:*;in.csv:a,b/1,2/;;;; => 2;;-;-;;usage: tuplex run SCRIPT [--sample N] [--order K] [--stats] | check SCRIPT | generate SEED ROWS FILE/;
run s.txs s.txs;s.txs:*;in.csv:a,b/1,2/;;;; => 2;;-;-;;usage: tuplex run SCRIPT [--sample N] [--order K] [--stats] | check SCRIPT | generate SEED ROWS FILE/;
Run s.txs;s.txs:*;in.csv:a,b/1,2/;;;; => 2;;-;-;;usage: tuplex run SCRIPT [--sample N] [--order K] [--stats] | check SCRIPT | generate SEED ROWS FILE/;
# options stand before, between and behind the other words, and change no file
run s.txs --sample=5 --stats;s.txs:*;in.csv:a,b/1,2/3,4/;;;; => 0;;a,b,s/1,2,3/3,4,7/;operator,kind,class,row/;rows 2 exceptions 0/interp 2 typed 0/;;
run --sample 5 s.txs;s.txs:*;in.csv:a,b/1,2/3,4/;;;; => 0;;a,b,s/1,2,3/3,4,7/;operator,kind,class,row/;rows 2 exceptions 0/;;
run --stats s.txs --sample 0;s.txs:*;in.csv:a,b/1,2/3,4/;;;; => 0;;a,b,s/1,2,3/3,4,7/;operator,kind,class,row/;rows 2 exceptions 0/interp 2 typed 0/;;
run s.txs --sample 10000 --order 18446744073709551615;s.txs:*;in.csv:a,b/1,2/3,4/;;;; => 0;;a,b,s/1,2,3/3,4,7/;operator,kind,class,row/;rows 2 exceptions 0/;;
run s.txs --sample +007 --order=+0;s.txs:*;in.csv:a,b/1,2/3,4/;;;; => 0;;a,b,s/1,2,3/3,4,7/;operator,kind,class,row/;rows 2 exceptions 0/;;
run -- -s;-s:*;in.csv:a,b/1,2/3,4/;;;; => 0;;a,b,s/1,2,3/3,4,7/;operator,kind,class,row/;rows 2 exceptions 0/;;
run '';s.txs:*;in.csv:a,b/1,2/3,4/;;;; => 6;;-;-;;tuplex: : read failed/;
# both lines of `--stats` go in one call; the first number is that of the evaluations, of resolvers too
run s.txs --stats;s.txs:*;in.csv:a,b/1,2/3,4/;;;2; => 0;;a,b,s/1,2,3/3,4,7/;operator,kind,class,row/;rows 2 exceptions 0/interp 2 typed 0/;;
run s.txs --stats;s.txs:*;in.csv:a,b/1,2/3,4/;;;1; => 9;;a,b,s/1,2,3/3,4,7/;operator,kind,class,row/;rows 2 exceptions ;;
run s.txs --stats;s.txs:csv("in.csv").withColumn("n", lambda x: int(x["a"])).resolve(ValueError, lambda x: 0).tocsv("out.csv");in.csv:a/7/7up/""/;;;; => 0;;a,n/7,7/7up,0/;operator,kind,class,row/2,withColumn,TypeError,1:3/;rows 2 exceptions 1/interp 4 typed 0/;;
run s.txs --stats;s.txs:csv("in.csv").tocsv("out.csv");in.csv:a,b/1,2/;;;; => 0;;a,b/1,2/;operator,kind,class,row/;rows 1 exceptions 0/interp 0 typed 0/;;
# a check makes all checks and writes nothing; it reads what a run reads: two reads of the script and two of the input
check s.txs;s.txs:*;in.csv:a,b/1,2/3,4/;;;; => 0;;-;-;accepted/;;
check -- -s;-s:*;in.csv:a,b/1,2/3,4/;;;; => 0;;-;-;accepted/;;
check s.txs;s.txs:csv("in.csv").sort().tocsv("out.csv");in.csv:a,b/1,2/3,4/;;;; => 3;;-;-;;tuplex: script line 1: Operator/;
check s.txs;s.txs:*;in.csv:x/;;;; => 4;;-;-;;tuplex: operator 2: no column a/;
check s.txs;t:*;in.csv:a,b/1,2/3,4/;;;; => 6;s.txs;-;-;;tuplex: s.txs: read failed/;
check s.txs;s.txs:*;in.csv:a,b/1,2/3,4/;1;2;; => 6;s.txs;-;-;;tuplex: s.txs: read failed/;
check s.txs;s.txs:*;in.csv:a,b/1,2/3,4/;3;4;; => 6;in.csv;-;-;;tuplex: in.csv: read failed/;
check s.txs;s.txs:*;in.csv:a,b/1,2/3,4/;5;5;; => 0;;-;-;accepted/;;
check s.txs;s.txs:*;in.csv:a,b/1,2/3,4/;;;1; => 9;;-;-;acce;;
# a table that a seed gives: a create and an append, and then the line
generate 1 3 out.csv;s.txs:*;in.csv:a,b/1,2/3,4/;;;; => 0;;id,qty,price,note/1,574,214,n0/2,,235,n4/3,784,712,n0/;-;rows 3/;;
generate +01 +3 -- out.csv;s.txs:*;in.csv:a,b/1,2/3,4/;;;; => 0;;id,qty,price,note/1,574,214,n0/2,,235,n4/3,784,712,n0/;-;rows 3/;;
generate 18446744073709551615 0 out.csv;s.txs:*;in.csv:a,b/1,2/3,4/;;;; => 0;;id,qty,price,note/;-;rows 0/;;
generate 1 3 out.csv;s.txs:*;in.csv:a,b/1,2/3,4/;1;1;; => 7;out.csv;-;-;;tuplex: out.csv: write failed/;
generate 1 3 out.csv;s.txs:*;in.csv:a,b/1,2/3,4/;2;2;; => 7;out.csv;id,qty,price,note/1,574,214;-;;tuplex: out.csv: write failed/;
generate 1 3 out.csv;s.txs:*;in.csv:a,b/1,2/3,4/;3;3;; => 0;;id,qty,price,note/1,574,214,n0/2,,235,n4/3,784,712,n0/;-;rows 3/;;
generate 1 3 out.csv;s.txs:*;in.csv:a,b/1,2/3,4/;;;1; => 9;;id,qty,price,note/1,574,214,n0/2,,235,n4/3,784,712,n0/;-;row;;
# files that are absent
run s.txs;t:*;in.csv:a,b/1,2/3,4/;;;; => 6;s.txs;-;-;;tuplex: s.txs: read failed/;
run s.txs;s.txs:*;in:a,b/1,2/3,4/;;;; => 6;in.csv;-;-;;tuplex: in.csv: read failed/;
# each call of the place failing in turn: two reads of the script and two of the input, then a create and an append of the output, and of the report
run s.txs;s.txs:*;in.csv:a,b/1,2/3,4/;1;2;; => 6;s.txs;-;-;;tuplex: s.txs: read failed/;
run s.txs;s.txs:*;in.csv:a,b/1,2/3,4/;3;4;; => 6;in.csv;-;-;;tuplex: in.csv: read failed/;
run s.txs;s.txs:*;in.csv:a,b/1,2/3,4/;5;5;; => 7;out.csv;-;-;;tuplex: out.csv: write failed/;
run s.txs;s.txs:*;in.csv:a,b/1,2/3,4/;6;6;; => 7;out.csv;a,b,s/1,2;-;;tuplex: out.csv: write failed/;
run s.txs;s.txs:*;in.csv:a,b/1,2/3,4/;7;7;; => 7;out.csv.exceptions.csv;a,b,s/1,2,3/3,4,7/;-;;tuplex: out.csv.exceptions.csv: write failed/;
run s.txs;s.txs:*;in.csv:a,b/1,2/3,4/;8;8;; => 7;out.csv.exceptions.csv;a,b,s/1,2,3/3,4,7/;operator,kin;;tuplex: out.csv.exceptions.csv: write failed/;
run s.txs;s.txs:*;in.csv:a,b/1,2/3,4/;9;9;; => 0;;a,b,s/1,2,3/3,4,7/;operator,kind,class,row/;rows 2 exceptions 0/;;
# the same with reads of one byte, of which the script takes 75, and the input 13
run s.txs;s.txs:*;in.csv:a,b/1,2/3,4/;1;75;;1 => 6;s.txs;-;-;;tuplex: s.txs: read failed/;
run s.txs;s.txs:*;in.csv:a,b/1,2/3,4/;76;88;;1 => 6;in.csv;-;-;;tuplex: in.csv: read failed/;
run s.txs;s.txs:*;in.csv:a,b/1,2/3,4/;89;89;;1 => 7;out.csv;-;-;;tuplex: out.csv: write failed/;
run s.txs;s.txs:*;in.csv:a,b/1,2/3,4/;90;90;;1 => 7;out.csv;a,b,s/1,2;-;;tuplex: out.csv: write failed/;
run s.txs;s.txs:*;in.csv:a,b/1,2/3,4/;91;91;;1 => 7;out.csv.exceptions.csv;a,b,s/1,2,3/3,4,7/;-;;tuplex: out.csv.exceptions.csv: write failed/;
run s.txs;s.txs:*;in.csv:a,b/1,2/3,4/;92;92;;1 => 7;out.csv.exceptions.csv;a,b,s/1,2,3/3,4,7/;operator,kin;;tuplex: out.csv.exceptions.csv: write failed/;
run s.txs;s.txs:*;in.csv:a,b/1,2/3,4/;93;93;;1 => 0;;a,b,s/1,2,3/3,4,7/;operator,kind,class,row/;rows 2 exceptions 0/;;
# each call of the console failing in turn; a complaint is one call
run s.txs;s.txs:*;in.csv:a,b/1,2/3,4/;;;1; => 9;;a,b,s/1,2,3/3,4,7/;operator,kind,class,row/;rows 2 exc;;
run s.txs;s.txs:*;in.csv:a,b/1,2/3,4/;93;93;1;1 => 9;;a,b,s/1,2,3/3,4,7/;operator,kind,class,row/;rows 2 exc;;
run s.txs;s.txs:*;in.csv:a,b/1,2/3,4/;1;1;1; => 6;s.txs;-;-;;tuplex: s.txs;
run s.txs;s.txs:*;in.csv:a,b/1,2/3,4/;;;2; => 0;;a,b,s/1,2,3/3,4,7/;operator,kind,class,row/;rows 2 exceptions 0/;;
run;s.txs:*;in.csv:a,b/1,2/3,4/;6;6;2; => 2;;-;-;;usage: tuplex run SCRIPT [--sample N] [--order K] [--stats] | check SCRIPT | generate SEED ROWS FILE/;
run s.txs;s.txs:*;in.csv:x/;6;6;2; => 4;;-;-;;tuplex: operator 2: no column a/;
run s.txs;s.txs:*;in.csv:a,b/1,2/3,4/;6;6;2; => 7;out.csv;a,b,s/1,2;-;;tuplex: out.csv: write failed/;
# files are appended in pieces of 65,536 bytes: two reads of the script, three of the input, a create, and two appends, of which the second fails with half of its 15 bytes
run s.txs;s.txs:*;in.csv:a,b,c/1,2,~xxxxx;8;8;; => 7;out.csv;a,b,c,s/1,2,~;-;;tuplex: out.csv: write failed/;"#;

// The cell of a row at a place, empty where the row has fewer.
fn cell(row: &str, at: usize) -> &str {
    row.split(';').nth(at).unwrap_or("")
}

fn push_letters(bytes: &mut Bytes) -> Result<(), NoMemory> {
    for _ in 0..65_531 {
        bytes.push(b'x')?;
    }
    Ok(())
}

// Adds what a sign stands for: `~` for 65,531 letters, `!` for a byte that is no ASCII, `$` for the UTF-8 mark.
fn push_byte(bytes: &mut Bytes, byte: u8) -> Result<(), NoMemory> {
    match byte {
        b'/' => bytes.push(b'\n'),
        b'^' => bytes.push(b'\r'),
        b'!' => bytes.push(255),
        b'$' => bytes.push_all(b"\xef\xbb\xbf"),
        b'*' => bytes.push_all(SUMS),
        b'~' => push_letters(bytes),
        _ => bytes.push(byte),
    }
}

fn bytes_of(rt: &impl Abort, alloc: Global, text: &str) -> Bytes {
    let mut bytes = Bytes::new(alloc);
    for byte in text.as_bytes() {
        push_byte(&mut bytes, *byte).expect(rt, "memory");
    }
    bytes
}

// The file of a cell.
fn file_of(rt: &impl Abort, alloc: Global, cell: &str) -> (PyText, Bytes) {
    let (name, text) = cell.split_once(':').unwrap_or(("", ""));
    file(alloc, name, bytes_of(rt, alloc, text).as_slice()).expect(rt, "memory")
}

// The two files of a row.
fn files_of(rt: &impl Abort, alloc: Global, row: &str) -> Files {
    let script = file_of(rt, alloc, cell(row, 1));
    let input = file_of(rt, alloc, cell(row, 2));
    two_files(alloc, script, input).expect(rt, "memory")
}

// The file that the outcome names.
fn named(outcome: &Outcome) -> &str {
    match outcome {
        Outcome::ReadFault { name } => name.as_str(),
        Outcome::WriteFault { name } => name.as_str(),
        _ => "",
    }
}

fn push_part(rt: &impl Abort, told: &mut Bytes, part: &[u8]) {
    told.push_all(part).expect(rt, "memory");
    told.push(b';').expect(rt, "memory");
}

// What a run left, as it stands behind an arrow.
fn told(rt: &impl Abort, alloc: Global, ran: &Ran) -> Bytes {
    let status = format!(in alloc; "{}", ran.status()).expect(rt, "memory");
    let mut told = Bytes::new(alloc);
    push_part(rt, &mut told, status.as_bytes());
    push_part(rt, &mut told, named(&ran.outcome).as_bytes());
    push_part(rt, &mut told, ran.output());
    push_part(rt, &mut told, ran.report());
    push_part(rt, &mut told, ran.console.said());
    push_part(rt, &mut told, ran.console.complained());
    told
}

// The file of a cell is as it was.
fn is_kept(rt: &impl Abort, alloc: Global, ran: &Ran, cell: &str) -> bool {
    let (name, text) = cell.split_once(':').unwrap_or(("", ""));
    ran.file(name) == bytes_of(rt, alloc, text).as_slice()
}

fn leaves(rt: &impl Abort, alloc: Global, row: &str, line: &str, faults: Faults) -> bool {
    let files = files_of(rt, alloc, row);
    let ran = run_line(alloc, cell(row, 0), files, faults).expect(rt, "memory");
    is_kept(rt, alloc, &ran, cell(row, 1))
        && is_kept(rt, alloc, &ran, cell(row, 2))
        && told(rt, alloc, &ran).as_slice() == bytes_of(rt, alloc, line).as_slice()
}

fn holds(rt: &impl Abort, alloc: Global, row: &str) -> bool {
    let (row, line) = row.split_once(" => ").unwrap_or(("", ""));
    let first = cell(row, 3).parse::<u64>().unwrap_or(0);
    let last = cell(row, 4).parse::<u64>().unwrap_or(0);
    let console = cell(row, 5).parse::<u64>().unwrap_or(0);
    let most = cell(row, 6).parse::<usize>().unwrap_or(65_536);
    for place in first..=last {
        let faults = Faults {
            place,
            console,
            most,
        };
        if !leaves(rt, alloc, row, line, faults) {
            return false;
        }
    }
    first <= last
}

#[test]
fn commands_leave_what_they_should(rt: HostRuntime) {
    let mut rows = 0usize;
    for row in COMMANDS.lines() {
        if !row.starts_with('#') {
            assert!(rt; holds(&rt, rt.alloc(), row), "{row}");
            rows = rows.wrapping_add(1);
        }
    }
    assert!(rt; rows == 147);
}
