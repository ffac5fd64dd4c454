// Command lines, each with what it asks for. Words stand between blanks, and an empty one is ''. An answer is `run` with SCRIPT, N, K or `-`,
// and `stats` or `plain`; `check` with SCRIPT; `generate` with SEED, ROWS and FILE; or `nothing`.
pub(crate) const COUNT: usize = 170;

pub(crate) const ROWS: &str = "\
run => nothing
 => nothing
check => nothing
generate => nothing
run s.py => run s.py 100 - plain
check s.py => check s.py
generate 1 2 g.csv => generate 1 2 g.csv
run '' => run '' 100 - plain
check '' => check ''
generate 1 2 '' => generate 1 2 ''
run - => run - 100 - plain
check - => check -
generate 1 2 - => generate 1 2 -
run s t => nothing
check s t => nothing
generate 1 2 => nothing
generate 1 => nothing
generate 1 2 f g => nothing
run s --sample 5 => run s 5 - plain
run --sample 5 s => run s 5 - plain
run s --sample=5 => run s 5 - plain
run --sample=5 s => run s 5 - plain
run s --sample=5 --stats => run s 5 - stats
run --stats s => run s 100 - stats
run s --stats => run s 100 - stats
run --order 7 s => run s 100 7 plain
run s --order=7 => run s 100 7 plain
run --sample 5 s --order 7 --stats => run s 5 7 stats
run --stats --order=7 --sample=5 s => run s 5 7 stats
run --order 7 --stats s --sample 5 => run s 5 7 stats
--stats run s => nothing
--sample 5 run s => nothing
--sample=5 run s => nothing
-- run s => nothing
s run => nothing
run --sample 5 => nothing
run s --sample => nothing
run --sample s => nothing
run s --sample --stats => nothing
run s --sample -- 5 => nothing
run s --sample= => nothing
run s --sample '' => nothing
run s --sample - => nothing
run s --sample -1 => nothing
run s --sample=-1 => nothing
run s --sample=-0 => nothing
run s --sample -0 => nothing
run s --sample 0 => run s 0 - plain
run s --sample 10000 => run s 10000 - plain
run s --sample 10001 => nothing
run s --sample=10001 => nothing
run s --sample +5 => run s 5 - plain
run s --sample=+10000 => run s 10000 - plain
run s --sample=+10001 => nothing
run s --sample=+ => nothing
run s --sample=++5 => nothing
run s --sample=+-5 => nothing
run s --sample 0005 => run s 5 - plain
run s --sample=000000000000000000000000000005 => run s 5 - plain
run s --sample 1_000 => nothing
run s --sample 1e3 => nothing
run s --sample 5.0 => nothing
run s --sample 0x5 => nothing
run s --sample ٣ => nothing
run s --sample five => nothing
run s --sample=5=5 => nothing
run s --order 0 => run s 100 0 plain
run s --order 18446744073709551615 => run s 100 18446744073709551615 plain
run s --order 18446744073709551616 => nothing
run s --order=+18446744073709551615 => run s 100 18446744073709551615 plain
run s --order=0018446744073709551615 => run s 100 18446744073709551615 plain
run s --order=99999999999999999999999999 => nothing
run s --order -1 => nothing
run s --order= => nothing
run s --order => nothing
run s --order 7 --order 7 => nothing
run s --order=7 --order 8 => nothing
run s --sample 5 --sample 5 => nothing
run --sample=5 s --sample=6 => nothing
run s --sample 100 --sample=100 => nothing
run s --stats --stats => nothing
run --stats s --stats => nothing
run s --stats=true => nothing
run s --stats= => nothing
run s --stats true => nothing
run s --sampl 5 => nothing
run s --sample5 => nothing
run s --Sample 5 => nothing
run s --stat => nothing
run s --samples 5 => nothing
run s --=5 => nothing
run s -sample 5 => nothing
run s -s => nothing
run s -5 => nothing
run -s => nothing
run -- -s => run -s 100 - plain
check -- -s => check -s
check -s => nothing
run -- --stats => run --stats 100 - plain
run --stats -- --stats => run --stats 100 - stats
run -- s --stats => nothing
run s -- => run s 100 - plain
run s -- --stats => nothing
run -- => nothing
run -- -- => run -- 100 - plain
run -- '' => run '' 100 - plain
run -- s t => nothing
run --sample=5 -- s => run s 5 - plain
run --sample 5 -- -s => run -s 5 - plain
check s --stats => nothing
check s --sample 5 => nothing
check --order=7 s => nothing
check -- s => check s
check s -- => check s
generate 1 2 f --stats => nothing
generate --sample=5 1 2 f => nothing
generate 0 0 f => generate 0 0 f
generate 18446744073709551615 1000000 f => generate 18446744073709551615 1000000 f
generate 18446744073709551616 1 f => nothing
generate 1 1000001 f => nothing
generate 1 4294967297 f => nothing
generate +1 +2 f => generate 1 2 f
generate 001 0001000000 f => generate 1 1000000 f
generate -1 2 f => nothing
generate 1 -2 f => nothing
generate -- -1 2 f => nothing
generate 1 2 -f => nothing
generate 1 2 -- -f => generate 1 2 -f
generate -- 1 2 -f => generate 1 2 -f
generate 1 -- 2 -- => generate 1 2 --
generate '' 2 f => nothing
generate 1 '' f => nothing
generate 1 - f => nothing
generate one 2 f => nothing
generate 1 2.0 f => nothing
generate f 1 2 => nothing
run run => run run 100 - plain
run check => run check 100 - plain
check run => check run
check check => check check
generate 1 2 generate => generate 1 2 generate
run check s => nothing
run 5 => run 5 100 - plain
run +5 --sample 5 => run +5 5 - plain
run s=5 => run s=5 100 - plain
run ß.py => run ß.py 100 - plain
run -ß => nothing
run -- -ß => run -ß 100 - plain
Run s => nothing
RUN s => nothing
ru s => nothing
runs s => nothing
'' s => nothing
'' => nothing
- s => nothing
plan s => nothing
help => nothing
help run => nothing
--help => nothing
-h => nothing
--version => nothing
-V => nothing
run --help => nothing
run s --help => nothing
run s -h => nothing
run --version => nothing
run help => run help 100 - plain
check -h => nothing
check help => check help
run -- --help => run --help 100 - plain
";
