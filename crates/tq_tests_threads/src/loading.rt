// Files loaded by 1 to 16 workers, completely and in parts of several lengths.

ghost use Rattle.std.specs.Prelude.{◌≡◌, ◌≤◌};

use std::alloc::{AllocError, Global};
use std::fmt::Write;
use std::sync::atomic::{AtomicBool, AtomicU64, Ordering};
use std::test::Fail;
use std::thread;
use std::thread::Threads;
use tq_base::{Form, List, Rows, Value, ValueRef};
use tq_event::{FileBytes, LoadFault, MAX_EVENTS, TableFile, Tables, load_projected, load_tables};
use tq_load::{
    LoadOptions, first_cut, load_projected_parallel, load_tables_by_parts, load_tables_parallel,
};
use tq_run::{Gate, Open};

// Loading by these workers, with instants as numbers, of as many events as there may be.
fn all_events(workers: u32) -> LoadOptions
    ensures limit { result.limit ≡ MAX_EVENTS }
    ensures workers { result.workers ≡ workers }
{
    LoadOptions {
        limit: MAX_EVENTS,
        workers,
        form: Form::Numbers,
    }
}

// The bytes in lists of this length, or in one list if it is 0.
fn in_pieces(alloc: Global, bytes: &[u8], len: usize) -> Result<FileBytes, AllocError> {
    if len == 0 || bytes.len() < len {
        return Ok(FileBytes::of(bytes.to_vec(alloc)?));
    }
    let (front, behind) = bytes.split_at(len);
    let mut pieces = Vec::new(alloc);
    for piece in behind.chunks(len) {
        pieces.push(piece.to_vec(alloc)?)?;
    }
    FileBytes::of_pieces(front.to_vec(alloc)?, pieces).ok_or(AllocError)
}

// The files of two tables, `a` and `b`, with their bytes in lists of this length. There is no `b` without a text for
// it.
fn files_in_pieces(
    alloc: Global,
    texts: (&str, &str),
    len: usize,
) -> Result<Vec<TableFile>, AllocError> {
    let mut files = Vec::new(alloc);
    for (name, text) in [("a", texts.0), ("b", texts.1)] {
        if name == "a" || !text.is_empty() {
            files.push(TableFile {
                name: List::of(name.as_bytes().to_vec(alloc)?),
                bytes: in_pieces(alloc, text.as_bytes(), len)?,
            })?;
        }
    }
    Ok(files)
}

// The files of two tables, with all bytes of a file in one list.
fn files_of(alloc: Global, first: &str, second: &str) -> Result<Vec<TableFile>, AllocError> {
    files_in_pieces(alloc, (first, second), 0)
}

// Prints a line for each row.
fn print_rows(lines: &mut String, rows: &Rows) -> Result<(), Fail> {
    let zero = Value::int(0);
    for row in 0..rows.len() {
        for column in 0..rows.width() {
            if let Ok(column) = u32::try_from(column) {
                match rows.value(row, column).unwrap_or(&zero).as_ref() {
                    ValueRef::Int(number) => write!(lines, "{number},")?,
                    ValueRef::Text(text) => write!(lines, "{text},")?,
                }
            }
        }
        let period = rows.period(row);
        writeln!(lines, "{},{}", period.start.number(), period.end.number())?;
    }
    Ok(())
}

// The result of loading: each table's width and rows, or the fault.
fn printed(alloc: Global, loaded: Result<Tables, LoadFault>) -> Result<String, Fail> {
    let mut lines = String::new(alloc);
    match loaded {
        Ok(tables) => {
            for rows in tables.rows.get() {
                writeln!(lines, "{} columns", rows.width())?;
                print_rows(&mut lines, rows)?;
            }
        }
        Err(fault) => writeln!(lines, "{fault}")?,
    }
    Ok(lines)
}

// Whether the files are loaded as `wanted` says, in parts of at least `least` bytes, from lists of `len` bytes.
fn is_loaded<R: Threads + Sync>(
    rt: &R,
    alloc: Global,
    texts: (&str, &str),
    least: usize,
    len: usize,
    options: LoadOptions,
    wanted: &str,
) -> Result<bool, Fail>
    requires limit { options.limit ≤ MAX_EVENTS }
    requires some { 1 ≤ options.workers }
    requires at_most { options.workers ≤ 16 }
{
    let files = files_in_pieces(alloc, texts, len)?;
    let loaded = load_tables_by_parts(rt, alloc, files, least, &Open, options);
    Ok(printed(alloc, loaded)?.as_str() == wanted)
}

// Whether any number of workers, with parts and lists of any length, loads the files as one thread does.
fn is_loaded_by_all<R: Threads + Sync>(
    rt: &R,
    alloc: Global,
    texts: (&str, &str),
    limit: u32,
) -> Result<bool, Fail>
    requires { limit ≤ MAX_EVENTS }
{
    let here = load_tables(
        alloc,
        files_of(alloc, texts.0, texts.1)?,
        limit,
        Form::Numbers,
    );
    let wanted = printed(alloc, here)?;
    for workers in [1, 2, 7, 16] {
        for least in [0, 1, 7, 50, 100_000] {
            for len in [0, 1, 2, 16, 22, 37] {
                let options = LoadOptions {
                    limit,
                    workers,
                    form: Form::Numbers,
                };
                if !is_loaded(rt, alloc, texts, least, len, options, &wanted)? {
                    return Ok(false);
                }
            }
        }
    }
    Ok(true)
}

// ---- written files

const GOOD: [(&str, &str); 11] = [
    ("k:int,from,to\n", ""),
    (
        "k:int,v:text,from,to\n1,ann,10,20\n2,bob,15,forever\n3,,0,1",
        "",
    ),
    ("k:int,v:text,from,to\r\n1,ann,10,20\r\n2,bob,15,25\r\n", ""),
    ("\n\n\r\nk:int,from,to\n\n\n1,2,3\n\r\n\n2,3,4\n\n", ""),
    (
        "k:int,v:text,from,to\n1,\"a\nb\",1,2\n2,\"x,\"\"y\",3,4\n",
        "",
    ),
    (
        "\u{feff}k:int,from,to\n1,2,3\n2,3,4\n",
        "\u{feff}n:int,w:text,from,to\n7,x,1,2\n8,y,2,3\n",
    ),
    (
        "k:int,from,to\n1,2,3\n2,3,4\n",
        "n:int,w:text,from,to\n7,\"x\ny\",1,2\n",
    ),
    ("k:int,from,to\n1,2,3\r2,3,4\r3,4,5\n4,5,6\n", ""),
    (
        "k:int,v:text,from,to\n1,a\"b\"\"c,1,2\n2,\"c\"d,3,4\n3,\"e\r\nf\",5,6\r\n4,\"\"\"\",7,8\n5,\"\",8,9\n",
        "",
    ),
    (
        "\u{feff}k:int,\"v:text\",from,to\n1,\"a\n\"\"\n\",1,2\n\n\r\n2,\"b\"\"\n\"\"\",3,4\n\"3\",c,\"4\",\"5\"\n",
        "\"k:int\",from,to\n1,2,3\n",
    ),
    (
        "k:int,v:text,from,to\r1,\"a\rb\",1,2\r\r2,\"c\",3,4\r\n\r\n3,\"d\n\n\",4,5\n",
        "",
    ),
];

const AMISS: [(&str, &str); 12] = [
    ("", ""),
    ("\n\n\n", ""),
    ("k:int,from,to\n1,2,3\n2,3,4\n\u{feff}3,4,5\n4,5,6\n", ""),
    ("\u{feff}\u{feff}k:int,from,to\n1,2,3\n", ""),
    ("k:int,from,to\n1,2,3\n2,3,4\nx,4,5\n4,5,6\n", ""),
    ("k:int,from,to\n1,2,3\n2,3,4\n3,4,5,6\ny,5,6\n", ""),
    ("k:int,from,to\n1,2,3\n2,9,4\n3,4,5\n", "k:text,from,to\n"),
    ("k:int,from,to\n1,2,3\n", "k:text,from,to\n1,2,3\n"),
    (
        "k:int,from,to\n1,2,3\n2,3,4\n",
        "k:int,from,to\n1,2,3\n2,3,z\n",
    ),
    ("k:int,v:text,from,to\n1,\"a\n2,b,3,4\n3,c,4,5\n", ""),
    ("k:int,v:text,from,to\n1,\"a\n\",1,2\n2,\"b\n\",4,3\n", ""),
    (
        "k:int,v:text,from,to\n1,\"a\",1,2\n\u{feff}2,\"b\",3,4\n3,c,4,5\n",
        "",
    ),
];

#[test]
fn written_files_are_loaded_as_by_one_thread(rt: HostRuntime) -> Result<(), Fail> {
    for texts in &GOOD {
        let same = is_loaded_by_all(&rt, rt.alloc(), *texts, 20)?;
        assert!(rt; same, "{texts:?}");
    }
    Ok(())
}

#[test]
fn faults_are_those_that_one_thread_answers(rt: HostRuntime) -> Result<(), Fail> {
    for texts in &AMISS {
        let same = is_loaded_by_all(&rt, rt.alloc(), *texts, 20)?;
        assert!(rt; same, "{texts:?}");
    }
    Ok(())
}

#[test]
fn events_are_counted_over_all_parts(rt: HostRuntime) -> Result<(), Fail> {
    let texts = (
        "k:int,from,to\n1,2,3\n2,3,forever\n",
        "k:int,from,to\n1,2,3\n",
    );
    for limit in 0..7 {
        let same = is_loaded_by_all(&rt, rt.alloc(), texts, limit)?;
        assert!(rt; same, "{limit}");
    }
    Ok(())
}

#[test]
fn no_files_are_no_tables(rt: HostRuntime) -> Result<(), Fail> {
    for workers in [1, 2, 16] {
        let files = Vec::new(rt.alloc());
        let loaded = load_tables_parallel(&rt, rt.alloc(), files, &Open, all_events(workers));
        assert_eq!(rt; printed(rt.alloc(), loaded)?.as_str(), "");
    }
    Ok(())
}

// ---- files that are cut

// A file with `rows` rows, with empty lines, and texts of several lengths.
fn many_rows(alloc: Global, rows: u64) -> Result<String, AllocError> {
    let mut text = String::from_str(alloc, "k:int,v:text,from,to\n")?;
    for row in 0..rows {
        let from = row % 1_000;
        match row % 5 {
            0 => writeln!(text, "{row},a rather long text of the row,{from},forever")?,
            1 => writeln!(text, "{row},,{from},1000\r\n")?,
            _ => writeln!(text, "{row},name of {row},{from},2000")?,
        }
    }
    Ok(text)
}

// Such a file with quotes: around commas, line ends and quotes, or not needed, or in the middle.
fn quoted_rows(alloc: Global, rows: u64) -> Result<String, AllocError> {
    let mut text = String::from_str(alloc, "k:int,v:text,from,to\n")?;
    for row in 0..rows {
        let from = row % 1_000;
        match row % 5 {
            0 => writeln!(text, "{row},\"line, {row}\n\"\"line\"\"\",{from},forever")?,
            1 => writeln!(text, "{row},\"\",{from},1000\r\n")?,
            2 => writeln!(text, "{row},a \"name\" of {row},{from},2000")?,
            3 => writeln!(text, "{row},\"a\n{row},b,1,2\n\",{from},\"2000\"")?,
            _ => writeln!(text, "\"{row}\",name of {row},{from},2000")?,
        }
    }
    Ok(text)
}

// Whether these workers load the files as `load_tables` does, in parts of the usual length.
fn is_loaded_among<R: Threads + Sync, G: Gate + Sync>(
    rt: &R,
    alloc: Global,
    texts: (&str, &str),
    workers: u32,
    gate: &G,
) -> Result<bool, Fail>
    requires some { 1 ≤ workers }
    requires at_most { workers ≤ 16 }
{
    let here = load_tables(
        alloc,
        files_of(alloc, texts.0, texts.1)?,
        MAX_EVENTS,
        Form::Numbers,
    );
    let files = files_of(alloc, texts.0, texts.1)?;
    let among = load_tables_parallel(rt, alloc, files, gate, all_events(workers));
    Ok(printed(alloc, here)? == printed(alloc, among)?)
}

#[test]
fn long_files_are_loaded_by_any_number_of_workers(rt: HostRuntime) -> Result<(), Fail> {
    let first = many_rows(rt.alloc(), 8_000)?;
    let second = quoted_rows(rt.alloc(), 3_000)?;
    for workers in [1, 2, 7, 16] {
        let same = is_loaded_among(&rt, rt.alloc(), (&first, &second), workers, &Open)?;
        assert!(rt; same, "{workers}");
    }
    Ok(())
}

// ---- gates

// Counts arrivals, and holds that of part 0 until part 1 has arrived, up to a limit.
#[derive(Drop)]
struct Arrivals {
    count: AtomicU64,
    second: AtomicBool,
    limit_met: AtomicBool,
}

impl Arrivals {
    fn new() -> Arrivals {
        Arrivals {
            count: AtomicU64::new(0),
            second: AtomicBool::new(false),
            limit_met: AtomicBool::new(false),
        }
    }
}

impl Gate for Arrivals {
    fn arrive(&self, i: u32) {
        self.count.fetch_add(1, Ordering::SeqCst);
        if i == 1 {
            self.second.store(true, Ordering::SeqCst);
        }
        if i != 0 {
            return;
        }
        for _ in 0..100_000_000u32 {
            if self.second.load(Ordering::SeqCst) {
                return;
            }
            thread::yield_now();
        }
        self.limit_met.store(true, Ordering::SeqCst);
    }
}

#[test]
fn two_workers_have_a_part_at_once(rt: HostRuntime) -> Result<(), Fail> {
    let text = many_rows(rt.alloc(), 12_000)?;
    let gate = Arrivals::new();
    let same = is_loaded_among(&rt, rt.alloc(), (&text, ""), 2, &gate)?;
    assert!(rt; same);
    assert!(rt; !gate.limit_met.load(Ordering::SeqCst));
    let parts = gate.count.load(Ordering::SeqCst);
    assert!(rt; 3 < parts && parts < 10, "{parts}");
    Ok(())
}

#[test]
fn two_workers_have_parts_of_a_file_with_quotes(rt: HostRuntime) -> Result<(), Fail> {
    let text = quoted_rows(rt.alloc(), 9_000)?;
    let gate = Arrivals::new();
    let same = is_loaded_among(&rt, rt.alloc(), (&text, ""), 2, &gate)?;
    assert!(rt; same);
    assert!(rt; !gate.limit_met.load(Ordering::SeqCst));
    let parts = gate.count.load(Ordering::SeqCst);
    assert!(rt; 3 < parts && parts < 10, "{parts}");
    Ok(())
}

// ---- bytes in several lists

// The number of parts that two workers get of a file whose bytes are in three lists; `None` if they do not load it as
// one worker does.
fn parts_of_lists<R: Threads + Sync>(
    rt: &R,
    alloc: Global,
    lists: (&str, &str, &str),
) -> Result<Option<u64>, Fail> {
    let gate = Arrivals::new();
    let (front, middle, back) = lists;
    let mut text = String::new(alloc);
    write!(text, "{front}{middle}{back}")?;
    let mut pieces = Vec::new(alloc);
    pieces.push(middle.as_bytes().to_vec(alloc)?)?;
    pieces.push(back.as_bytes().to_vec(alloc)?)?;
    let front = front.as_bytes().to_vec(alloc)?;
    let mut files = Vec::new(alloc);
    files.push(TableFile {
        name: List::of(b"a".to_vec(alloc)?),
        bytes: FileBytes::of_pieces(front, pieces).ok_or(AllocError)?,
    })?;
    let among = load_tables_by_parts(rt, alloc, files, 100_000, &gate, all_events(2));
    let here = load_tables(
        alloc,
        files_of(alloc, &text, "")?,
        MAX_EVENTS,
        Form::Numbers,
    );
    let same = printed(alloc, among)? == printed(alloc, here)?;
    let parts = gate.count.load(Ordering::SeqCst);
    Ok(if same { Some(parts) } else { None })
}

#[test]
fn parts_end_where_lists_end(rt: HostRuntime) -> Result<(), Fail> {
    let first = "k:int,v:text,from,to\n1,ann,10,20\n";
    let lists = (first, "2,bob,15,25\n", "3,cat,5,30\n4,dan,6,7\n");
    assert_eq!(rt; parts_of_lists(&rt, rt.alloc(), lists)?, Some(3));
    let lists = (first, "2,bob,15,25\n3,cat,5,30\n", "4,dan,6,7\n");
    assert_eq!(rt; parts_of_lists(&rt, rt.alloc(), lists)?, Some(3));
    let lists = (first, "", "2,bob,15,25\n");
    assert_eq!(rt; parts_of_lists(&rt, rt.alloc(), lists)?, Some(2));
    // A list that ends within a record is one part with the bytes after it, and one worker loads the files again.
    let lists = (first, "2,bob,15,25\n3", ",cat,5,30\n4,dan,6,7\n");
    assert_eq!(rt; parts_of_lists(&rt, rt.alloc(), lists)?, Some(2));
    // One worker loads the files, and no part is read, if the first list has only the header.
    let lists = ("k:int,v:text,from,to\n", "1,ann,10,20\n", "2,bob,15,25\n");
    assert_eq!(rt; parts_of_lists(&rt, rt.alloc(), lists)?, Some(0));
    Ok(())
}

#[test]
fn a_list_can_end_in_front_of_a_record(rt: HostRuntime) -> Result<(), Fail> {
    assert_eq!(rt; first_cut(b"nn,10,20\n2,bob,15,25\n"), Some(9));
    assert_eq!(rt; first_cut(b"a\nb\n\"-7\",x\n"), Some(4));
    assert_eq!(rt; first_cut(b"a\nb,1\nc"), None);
    assert_eq!(rt; first_cut(b"a\n\xef\xbb\xbf1,2\n"), None);
    assert_eq!(rt; first_cut(b""), None);
    Ok(())
}

// ---- projection

// Two tables. Of the first one, only the second column is wanted.
const TWO: (&str, &str) = (
    "k:int,v:text,w:text,from,to\n1,ann,more than fourteen bytes,10,20\n2,bob,cat,15,25\n",
    "k:int,v:text,from,to\n7,dan,1,2\n",
);

// The lists of wanted columns: the first table's second column; the second table has no list.
fn wanted_lists(alloc: Global) -> Result<Vec<Vec<bool>>, AllocError> {
    let mut lists = Vec::new(alloc);
    lists.push(vec![in alloc; false, true, false]?)?;
    Ok(lists)
}

// The result of loading only the wanted columns of the two tables.
fn wanted_output<R: Threads + Sync>(rt: &R, alloc: Global, workers: u32) -> Result<String, Fail>
    requires some { 1 ≤ workers }
    requires at_most { workers ≤ 16 }
{
    let files = files_of(alloc, TWO.0, TWO.1)?;
    let wanted = wanted_lists(alloc)?;
    let loaded = load_projected_parallel(rt, alloc, files, &wanted, &Open, all_events(workers));
    printed(alloc, loaded)
}

#[test]
fn only_wanted_values_are_kept(rt: HostRuntime) -> Result<(), Fail> {
    let kept = "3 columns\n0,ann,,10,20\n0,bob,,15,25\n2 columns\n7,dan,1,2\n";
    let files = files_of(rt.alloc(), TWO.0, TWO.1)?;
    let wanted = wanted_lists(rt.alloc())?;
    let loaded = load_projected(rt.alloc(), files, &wanted, MAX_EVENTS, Form::Numbers);
    assert_eq!(rt; printed(rt.alloc(), loaded)?.as_str(), kept);
    for workers in [1, 2, 16] {
        assert_eq!(rt; wanted_output(&rt, rt.alloc(), workers)?.as_str(), kept);
    }
    Ok(())
}
