// 100,000 records: sums of which every second one raises, and a table that a seed gives.
use crate::tests::ran::{NO_FAULTS, Ran, file, run_line, run_sums, two_files};
use std::alloc::Global;
use std::test::Fail;
use tuplex_run::Outcome;
use tx_text::{Bytes, NoMemory};

// A head, and so many times the same behind it.
fn with_many(alloc: Global, head: &[u8], more: &[u8], times: usize) -> Result<Bytes, NoMemory> {
    let mut bytes = Bytes::new(alloc);
    bytes.push_all(head)?;
    for _ in 0..times {
        bytes.push_all(more)?;
    }
    Ok(bytes)
}

fn is_done(outcome: &Outcome, wanted: u64) -> bool {
    match outcome {
        Outcome::Done { rows, reported } => *rows == wanted && *reported == wanted,
        _ => false,
    }
}

#[test]
fn a_hundred_thousand_records(rt: HostRuntime) -> Result<(), Fail> {
    let alloc = rt.alloc();
    let input = with_many(alloc, b"a,b\n", b"1,2\nx,1\n", 50_000)?;
    let output = with_many(alloc, b"a,b,s\n", b"1,2,3\n", 50_000)?;
    let ran = run_sums(alloc, input.as_slice())?;
    assert!(rt; is_done(&ran.outcome, 50_000));
    assert!(rt; ran.output() == output.as_slice());
    // the header, and a line for each of the records 2, 4 and so on to 100,000
    assert!(rt; ran.report().len() == 1_544_474);
    assert!(rt;
        ran.report().ends_with(b"2,withColumn,TypeError,1:99998\n2,withColumn,TypeError,1:100000\n")
    );
    Ok(())
}

const TOTALS: &[u8] =
    b"csv(\"g.csv\").withColumn(\"total\", lambda x: int(x[\"qty\"]) * x[\"price\"]).tocsv(\"out.csv\")\n";

// Runs words over the script of totals and a table.
fn run_totals(alloc: Global, line: &str, table: &[u8]) -> Result<Ran, NoMemory> {
    let script = file(alloc, "s.txs", TOTALS)?;
    let table = file(alloc, "g.csv", table)?;
    run_line(alloc, line, two_files(alloc, script, table)?, NO_FAULTS)
}

// A sum that tells bytes and their order.
fn sum_of(bytes: &[u8]) -> u32 {
    let mut sum = 0u32;
    for byte in bytes {
        sum = sum.wrapping_mul(31).wrapping_add(u32::from(*byte));
    }
    sum
}

// The output and the report that a program in Python gives, whose PCG was written after its paper.
fn is_due(ran: &Ran) -> bool {
    ran.output().len() == 2_093_542
        && sum_of(ran.output()) == 3_702_767_465
        && ran.report().len() == 313_886
        && sum_of(ran.report()) == 4_082_598_004
}

const MADE: &[u8] = b"rows 100000\n";

const SAID: &[u8] = b"rows 90001 exceptions 9999\ninterp 100000 typed 0\n";

#[test]
fn generated_rows(rt: HostRuntime) -> Result<(), Fail> {
    let alloc = rt.alloc();
    let made = run_totals(alloc, "generate 1 100000 g.csv", b"")?;
    assert!(rt; made.console.said() == MADE);
    let ran = run_totals(alloc, "run s.txs --stats", made.file("g.csv"))?;
    assert!(rt; ran.console.said() == SAID && is_due(&ran));
    Ok(())
}

#[test]
fn options_change_nothing(rt: HostRuntime) -> Result<(), Fail> {
    let alloc = rt.alloc();
    let made = run_totals(alloc, "generate 7 1000 g.csv", b"")?;
    let plain = run_totals(alloc, "run s.txs", made.file("g.csv"))?;
    let other = run_totals(alloc, "run --sample=0 --order 3 s.txs", made.file("g.csv"))?;
    assert!(rt; plain.output().len() > 10_000 && plain.output() == other.output());
    assert!(rt; plain.report().len() > 1_000 && plain.report() == other.report());
    assert!(rt; plain.console.said() == other.console.said());
    Ok(())
}
