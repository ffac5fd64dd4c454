// Reports as a caller makes them.
use std::alloc::Global;
use tx_base::{Class, class_named};
use tx_report::{Entries, Entry};
use tx_text::{Bytes, NoMemory, PyText, Texts};
use tx_values::{Mark, Origin};

// The words of operators 1, 2 and so on.
const KINDS: &str = "csv withColumn csv join h\u{e9}\u{20ac}";

const HEAD: &str = "operator,kind,class,row\n";

// A report for each line, without the head and with a blank in the place of a line feed. The entries are read of it.
const REPORTS: &str = "\
2,withColumn,TypeError,1:2
1,csv,UnicodeDecodeError,1:1 4,join,KeyError,2:1+1:3 2,withColumn,RecordError,5:0
2,withColumn,ValueError,1:2 2,withColumn,ValueError,1:2 2,withColumn,ValueError,1:1
4,join,IndexError,7:10+1:3+2:4294967295+1:3
5,h\u{e9}\u{20ac},Exception,4294967295:1
6,,LookupError,1:1 4294967295,,OverflowError,3:12
3,csv,RecordError,3:1 1,csv,RecordError,1:9";

fn kinds_of(alloc: Global) -> Result<Texts, NoMemory> {
    let mut kinds = Texts::new(alloc);
    for kind in KINDS.split(' ') {
        kinds.push(PyText::from_str(alloc, kind)?)?;
    }
    Ok(kinds)
}

fn number_of(text: &str) -> u32 {
    text.parse::<u32>().unwrap_or(0)
}

fn mark_of(text: &str) -> Mark {
    let (operator, number) = text.split_once(':').unwrap_or(("", ""));
    Mark {
        operator: number_of(operator),
        number: number_of(number),
    }
}

// The cell of a line at a place, empty where the line has fewer.
fn cell(line: &str, at: usize) -> &str {
    line.split(',').nth(at).unwrap_or("")
}

// The entry that a line of a report tells of.
fn entry_of(alloc: Global, line: &str) -> Result<Entry, NoMemory> {
    let mut origin = Origin::new(alloc);
    for mark in cell(line, 3).split('+') {
        origin.push(mark_of(mark))?;
    }
    Ok(Entry {
        operator: number_of(cell(line, 0)),
        class: class_named(cell(line, 2)).unwrap_or(Class::NameError),
        origin,
    })
}

fn entries_of(alloc: Global, report: &str) -> Result<Entries, NoMemory> {
    let mut entries = Entries::new(alloc);
    for line in report.split(' ') {
        entries.add(entry_of(alloc, line)?)?;
    }
    Ok(entries)
}

fn bytes_of(alloc: Global, report: &str) -> Result<Bytes, NoMemory> {
    let mut bytes = Bytes::new(alloc);
    bytes.push_all(HEAD.as_bytes())?;
    for line in report.split(' ') {
        bytes.push_all(line.as_bytes())?;
        bytes.push_all(b"\n")?;
    }
    Ok(bytes)
}

// Whether there are so many entries.
fn are(entries: &Entries, count: usize) -> bool {
    entries.len() == count
        && entries.as_slice().len() == count
        && entries.get(count).is_none()
        && entries.get(count.saturating_sub(1)).is_some() == (count > 0)
}

fn holds(alloc: Global, report: &str) -> Result<bool, NoMemory> {
    let entries = entries_of(alloc, report)?;
    let text = entries.text(alloc, &kinds_of(alloc)?)?;
    let wanted = bytes_of(alloc, report)?;
    Ok(are(&entries, report.split(' ').count()) && text.as_slice() == wanted.as_slice())
}

#[test]
fn entries_are_lines(rt: HostRuntime) {
    let mut rows = 0usize;
    for report in REPORTS.lines() {
        assert!(rt; holds(rt.alloc(), report) == Ok(true), "{report}");
        rows = rows.wrapping_add(1);
    }
    assert!(rt; rows == 7);
}

// Whether a report of no entries is the head alone.
fn begins_with_the_head(alloc: Global) -> Result<bool, NoMemory> {
    let entries = Entries::new(alloc);
    let text = entries.text(alloc, &kinds_of(alloc)?)?;
    Ok(are(&entries, 0) && text.as_slice() == HEAD.as_bytes())
}

// An entry for each number from 1 to 100,000.
fn many_entries(alloc: Global) -> Result<Entries, NoMemory> {
    let mut entries = Entries::new(alloc);
    for number in 1..100_001 {
        let mut entry = entry_of(alloc, "2,withColumn,ValueError,")?;
        entry.origin = Origin::new(alloc);
        entry.origin.push(Mark {
            operator: 1,
            number,
        })?;
        entries.add(entry)?;
    }
    Ok(entries)
}

// Each line has 27 bytes and the digits of its number, which are 488,895 in all.
fn many_are_lines(alloc: Global) -> Result<bool, NoMemory> {
    let entries = many_entries(alloc)?;
    let text = entries.text(alloc, &kinds_of(alloc)?)?;
    Ok(
        are(&entries, 100_000)
            && text.len() == 3_188_919
            && text
                .as_slice()
                .ends_with(b"\n2,withColumn,ValueError,1:100000\n"),
    )
}

#[test]
fn reports_of_none_and_of_many_entries(rt: HostRuntime) {
    assert!(rt; begins_with_the_head(rt.alloc()) == Ok(true));
    assert!(rt; many_are_lines(rt.alloc()) == Ok(true));
}
