//! An oracle that counts the starts among the first events, and worlds for it.

ghost use Rattle.std.specs.Prelude.{◌≡◌, ◌≤◌, length};
ghost use Rattle.tq_core.specs.Counting.{start_count, starts_row};

use std::alloc::{AllocError, Global};
use tq_base::{Catalogue, Form, List};
use tq_core::{Oracle, World};
use tq_event::{Event, FileBytes, LoadFault, TableFile, laws, load};

const EMP: &[u8] = b"emp:int,name:text,dept:text,from,to
1,ann,toys,10,20
1,ann,toys,20,30
2,bob,toys,15,25
3,cat,food,5,forever
";

/// Counts the starts among the first events.
pub(crate) struct Starts;

impl Oracle for Starts {
    type Query = ();

    type Answer = u32;

    ghost fits = { λ catalogue query. Unit {0} };

    ghost value = { λ oracle catalogue events query. start_count events };

    fn answer(
        &self,
        _: Global,
        _: &Catalogue,
        events: &[Event],
        n: u32,
        _: &(),
    ) -> Result<u32, AllocError> {
        Ok(count_starts(&events[..n as usize]))
    }
}

fn is_start(event: &Event) -> bool
    ensures { result ≡ starts_row event.now }
{
    matches!(event, Event::Start { .. })
}

fn count_starts(events: &[Event]) -> u32
    requires { length events.now ≤ 16777216 }
    ensures { result ≡ start_count events.now }
{
    events.iter().filter(|event| is_start(event)).count() as u32
}

/// A world over the table's catalogue, with `readers` readers.
pub(crate) fn world(alloc: Global, readers: u32) -> Result<World, LoadFault>
    requires some { 1 ≤ readers }
    requires few { readers ≤ 8 }
{
    let file = TableFile {
        name: List::of(Vec::from_slice(alloc, b"emp")?),
        bytes: FileBytes::of(Vec::from_slice(alloc, EMP)?),
    };
    let mut files = Vec::new(alloc);
    files.push(file).map_err(AllocError::from)?;
    let loaded = load(alloc, files, 1000, Form::Numbers)?;
    laws::loaded_is_catalogue();
    Ok(World::new(alloc, loaded.catalogue, readers)?)
}
