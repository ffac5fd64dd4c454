// What stands where memory is refused.
use crate::tests::ran::{NONE, Ran, run_sums};
use std::test::Fail;

const OUTPUT: &[u8] = b"a,b,s\n1,2,3\n3,4,7\n";

const REPORT: &[u8] = b"operator,kind,class,row\n";

const LINE: &[u8] = b"rows 2 exceptions 0\n";

// A refused allocation leaves the files as the contract says: each as before or a prefix, and the report as before
// unless the output is whole.
fn is_part(ran: &Ran) -> bool {
    let (output, report) = (ran.output(), ran.report());
    (output == NONE || OUTPUT.starts_with(output))
        && (report == NONE || output == OUTPUT && REPORT.starts_with(report))
        && LINE.starts_with(ran.console.said())
}

fn is_whole(ran: &Ran) -> bool {
    ran.output() == OUTPUT && ran.report() == REPORT && ran.console.said() == LINE
}

/// `tests/allocations.sh` runs this with each allocation refused in turn.
#[test]
fn memory_may_be_refused(rt: HostRuntime) -> Result<(), Fail> {
    let Ok(ran) = run_sums(rt.alloc(), b"a,b\n1,2\n3,4\n") else {
        return Ok(());
    };
    println!(rt; "status {}", ran.status())?;
    assert!(rt; ran.status() == 8 && is_part(&ran) || ran.status() == 0 && is_whole(&ran));
    Ok(())
}
