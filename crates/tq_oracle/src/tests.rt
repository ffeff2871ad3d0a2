// Plans over the events of a file, as queries to the oracle and in a run of the core machine.

ghost use Rattle.std.specs.Prelude.{◌≤◌, All, IfOk, length};
ghost use Rattle.tq_base.specs.Catalogues.{IsCatalogue};
ghost use Rattle.tq_core.specs.Machine.{HasFittingQuery};
ghost use Rattle.tq_event.specs.History.{IsHistory};
ghost use Rattle.tq_oracle.specs.Runs.{AsksAnswerPlans};
ghost use Rattle.tq_plan.specs.ValidPlans.{IsPlanOver};

use crate::plain::Plain;
use std::alloc::{AllocError, Global};
use std::fmt::Write;
use std::test::Fail;
use tq_base::{Catalogue, Form, List};
use tq_core::{Oracle, Reply, Step, World};
use tq_event::{Event, FileBytes, MAX_EVENTS, TableFile, laws, load};
use tq_plan::{Plan, plan};
use tq_sql::read;
use tq_table::{Table, table_text};

const EMP: &[u8] = b"emp:int,name:text,dept:text,from,to
1,ann,toys,10,20
1,ann,toys,20,30
2,bob,toys,15,25
3,cat,food,5,forever
";

// The file of one table.
fn files(alloc: Global) -> Result<Vec<TableFile>, Fail> {
    let mut files = Vec::new(alloc);
    files.push(TableFile {
        name: List::of(b"emp".to_vec(alloc)?),
        bytes: FileBytes::of(EMP.to_vec(alloc)?),
    })?;
    Ok(files)
}

// The plan of a query for the names.
fn question(alloc: Global, catalogue: &Catalogue) -> Result<Plan, Fail>
    ensures { IfOk result (IsPlanOver catalogue.now) }
{
    let statement = read(alloc, b"VALIDTIME SELECT name FROM emp")?;
    Ok(plan(alloc, catalogue, &statement, Form::Numbers)?)
}

// The text of the answer as of the first `n` events.
fn answered(
    alloc: Global,
    catalogue: &Catalogue,
    events: &[Event],
    n: u32,
    plan: &Plan,
) -> Result<Vec<u8>, Fail>
    requires catalogue { IsCatalogue catalogue.now }
    requires plan { IsPlanOver catalogue.now plan.now }
    requires history { IsHistory catalogue.now events.now }
    requires few { length events.now ≤ 16777216 }
    requires within { n ≤ length events.now }
{
    let table = Plain::new().answer(alloc, catalogue, events, n, plan)?;
    Ok(table_text(alloc, &table, Form::Numbers)?)
}

// As of three events, rows of cat, ann and bob have started, and none has ended.
#[test]
fn a_plan_is_answered_as_of_the_first_events(rt: HostRuntime) -> Result<(), Fail> {
    let alloc = rt.alloc();
    let loaded = load(alloc, files(alloc)?, MAX_EVENTS, Form::Numbers)?;
    laws::loaded_is_catalogue();
    laws::loaded_is_history();
    laws::loaded_is_within();
    let events = loaded.events.get();
    let plan = question(alloc, &loaded.catalogue)?;
    let n = events.len().min(3) as u32;
    let text = answered(alloc, &loaded.catalogue, events, n, &plan)?;
    let wanted = b"name,from,to\nann,10,forever\nbob,15,forever\ncat,5,forever\n";
    assert_eq!(rt; text.as_slice(), wanted.as_slice());
    Ok(())
}

// The replies to steps. By its contract, each answer is that of its plan.
fn replies_to(
    world: &mut World,
    plain: &Plain,
    steps: &[Step<Plan>],
) -> Result<Vec<Reply<Table<'static>>>, AllocError>
    requires { All (HasFittingQuery IsPlanOver world.old.catalogue) steps.now }
    ensures { IfOk result (λ replies. AsksAnswerPlans steps.now replies.items world.new) }
{
    let replies = world.run(plain, steps)?;
    plain.runs_answer_plans();
    Ok(replies)
}

// Writes a line for the reply, and the lines of an answer's table.
fn write_reply(alloc: Global, reply: &Reply<Table<'static>>, out: &mut String) -> Result<(), Fail> {
    match reply {
        Reply::Done => out.push_str("done\n")?,
        Reply::Length(length) => writeln!(out, "length {length}")?,
        Reply::Answer(table) => {
            let text = table_text(alloc, table, Form::Numbers)?;
            out.push_str(str::from_utf8(&text).unwrap_or("?"))?;
        }
        Reply::TooNew { seen } => writeln!(out, "too new {seen}")?,
        Reply::Piece(Some(piece)) => writeln!(out, "piece {piece}")?,
        Reply::Piece(None) => out.push_str("piece none\n")?,
        Reply::Order(order) => {
            for (piece, worker) in order.get() {
                writeln!(out, "piece {piece} by worker {worker}")?;
            }
        }
        Reply::Refused => out.push_str("refused\n")?,
    }
    Ok(())
}

// The first event is published between two queries, of which only the second may see it.
#[test]
fn a_run_answers_a_plan_as_of_what_its_reader_has_seen(rt: HostRuntime) -> Result<(), Fail> {
    let alloc = rt.alloc();
    let loaded = load(alloc, files(alloc)?, MAX_EVENTS, Form::Numbers)?;
    laws::loaded_is_catalogue();
    let [first, ..] = loaded.events.get() else {
        return Err(Fail::new("the file has no event"));
    };
    let steps = [
        Step::Append(first.try_copy()?),
        Step::Enter { reader: 0, at: 0 },
        Step::Publish,
        Step::Ask {
            reader: 0,
            n: 1,
            query: question(alloc, &loaded.catalogue)?,
            pieces: 2,
        },
        Step::Enter { reader: 0, at: 1 },
        Step::Ask {
            reader: 0,
            n: 1,
            query: question(alloc, &loaded.catalogue)?,
            pieces: 2,
        },
        Step::Claim { work: 0, worker: 0 },
        Step::Claim { work: 0, worker: 1 },
        Step::Claim { work: 0, worker: 0 },
        Step::Finish { work: 0 },
        Step::Finish { work: 0 },
    ];
    let mut world = World::new(alloc, loaded.catalogue.try_copy(alloc)?, 1)?;
    let replies = replies_to(&mut world, &Plain::new(), &steps)?;
    let mut text = String::new(alloc);
    for reply in &replies {
        write_reply(alloc, reply, &mut text)?;
    }
    let wanted = "done
length 0
length 1
too new 0
length 1
name,from,to
cat,5,forever
piece 0
piece 1
piece none
piece 0 by worker 0
piece 1 by worker 1
refused
";
    assert_eq!(rt; text.as_str(), wanted);
    Ok(())
}
