// Answers that are merged.

use std::alloc::{AllocError, Global};
use std::test::Fail;
use tq_base::{Column, Form, Kind, fold_name};
use tq_split::{AnswerLayout, Combine, merge_answers};
use tq_table::Sink;

const FIRST: &[u8] = b"name,n,from,to\nann,1,0,5\nann,1,2,3\nbob,2,0,forever\n";

const SECOND: &[u8] = b"name,n,from,to\nann,1,5,9\nbob,-1,0,1\n";

const BOTH: &[u8] = b"name,n,from,to\nann,1,0,9\nann,1,2,3\nbob,-1,0,1\nbob,2,0,forever\n";

const SUMS: &[u8] = b"name,n,from,to\nann,1,0,5\nann,2,5,9\nbob,-3,0,4\n";

const OTHER_SUMS: &[u8] = b"name,n,from,to\nann,1,7,9\nann,2,5,7\nbob,3,2,4\ncy,0,1,2\n";

const ADDED: &[u8] =
    b"name,n,from,to\nann,1,0,5\nann,3,7,9\nann,4,5,7\nbob,-3,0,2\nbob,0,2,4\ncy,0,1,2\n";

const COUNTS: &[u8] = b"name,n,from,to\n1,1,0,9\n1,3,12,forever\n1,4,9,12\n";

const ALL: &[u8] = b"name,n,from,to\n2,2,0,9\n2,6,12,forever\n2,8,9,12\n";

fn layout(alloc: Global, combine: Combine) -> Result<AnswerLayout, Fail> {
    let mut columns = Vec::new(alloc);
    let first = match combine {
        Combine::Add { groups: 0 } => Kind::Int,
        _ => Kind::Text,
    };
    for (name, kind) in [("name", first), ("n", Kind::Int)] {
        let Some(name) = fold_name(alloc, name.as_bytes())? else {
            return Err(Fail::from(AllocError));
        };
        columns.push(Column { name, kind })?;
    }
    Ok(AnswerLayout {
        columns,
        form: Form::Numbers,
        combine,
    })
}

// The text that the two answers make.
fn combined(
    alloc: Global,
    combine: Combine,
    first: &'static [u8],
    second: &'static [u8],
) -> Result<Vec<u8>, Fail> {
    let mut inputs = Vec::new(alloc);
    inputs.push(first)?;
    inputs.push(second)?;
    let mut text = Vec::new(alloc);
    let mut sink = Sink::over(&mut text);
    let merged = merge_answers(alloc, &layout(alloc, combine)?, inputs, &mut sink);
    drop(sink);
    if merged.is_err() {
        text.clear();
    }
    Ok(text)
}

#[test]
fn answers_are_merged(rt: HostRuntime) -> Result<(), Fail> {
    let alloc = rt.alloc();
    let text = combined(alloc, Combine::Merge, FIRST, SECOND)?;
    assert_eq!(rt; text.as_slice(), BOTH);
    Ok(())
}

#[test]
fn groups_are_added(rt: HostRuntime) -> Result<(), Fail> {
    let alloc = rt.alloc();
    let add = Combine::Add { groups: 1 };
    let text = combined(alloc, add, SUMS, OTHER_SUMS)?;
    assert_eq!(rt; text.as_slice(), ADDED);
    let all = Combine::Add { groups: 0 };
    let text = combined(alloc, all, COUNTS, COUNTS)?;
    assert_eq!(rt; text.as_slice(), ALL);
    Ok(())
}
