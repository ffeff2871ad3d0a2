// Table files that are divided among writers that know what they are to take.

ghost use Rattle.std.specs.Prelude.{◌≤◌, length};

use std::alloc::Global;
use std::fmt::Write as Format;
use std::io::{self, ErrorKind, Write};
use std::test::Fail;
use tq_base::{Form, Value};
use tq_event::LoadFaultKind;
use tq_split::{Division, DivisionFault, divide, part_number};
use tq_table::Sink;

const EMP: &[u8] = b"emp:int,dept:text,from,to
1,toys,10,20
2,food,15,25
3,\"sales,x\",5,forever
4,toys,1,2
";

// Takes these bytes and no others. A flush fails until it has taken them all.
#[derive(Drop)]
struct Expected {
    left: &'static [u8],
}

impl Write for Expected {
    fn write(&mut self, buf: &[u8]) -> io::Result<usize> {
        match self.left.strip_prefix(buf) {
            Some(left) => {
                self.left = left;
                Ok(buf.len())
            }
            None => Err(io::Error::from(ErrorKind::InvalidData)),
        }
    }

    fn flush(&mut self) -> io::Result<()> {
        if self.left.is_empty() {
            Ok(())
        } else {
            Err(io::Error::from(ErrorKind::InvalidData))
        }
    }
}

// The number of rows of the file if each part takes exactly its text, else 0; and the fault, if there is one.
fn rows_of(
    alloc: Global,
    division: Division,
    input: &[u8],
    texts: &[&'static [u8]],
) -> Result<(u64, Option<DivisionFault>), Fail>
    requires some { 1 ≤ length texts.now }
    requires few { length texts.now ≤ 65536 }
{
    let mut sinks = Vec::with_capacity(alloc, texts.len())?;
    for text in texts {
        sinks.push(Sink::over(Expected { left: *text }))?;
    }
    if sinks.is_empty() || sinks.len() > 65_536 {
        return Ok((0, None));
    }
    let divided = match divide(alloc, division, input, &mut sinks) {
        Ok(divided) => divided,
        Err(fault) => return Ok((0, Some(fault))),
    };
    for sink in sinks.iter_mut() {
        if sink.flush().is_err() {
            return Ok((0, None));
        }
    }
    Ok((divided.rows, None))
}

// The numbers were computed by another program.
#[test]
fn values_belong_to_parts(rt: HostRuntime) -> Result<(), Fail> {
    let alloc = rt.alloc();
    for (number, wanted) in [(1, 1), (2, 0), (3, 2), (-3, 2), (4, 1), (5, 0)] {
        assert_eq!(rt; part_number(&Value::int(number), 3), wanted);
    }
    for (text, wanted) in [("", 0), ("food", 1), ("toys", 1), ("sales,x", 0)] {
        assert_eq!(rt; part_number(&Value::text(alloc, text)?, 3), wanted);
    }
    Ok(())
}

#[test]
fn records_go_to_their_parts(rt: HostRuntime) -> Result<(), Fail> {
    let alloc = rt.alloc();
    let by_number = Division {
        column: 0,
        form: Form::Numbers,
        begins: true,
    };
    let texts: [&'static [u8]; 2] = [
        b"emp:int,dept:text,from,to\n2,food,15,25\n4,toys,1,2\n",
        b"emp:int,dept:text,from,to\n1,toys,10,20\n3,\"sales,x\",5,forever\n",
    ];
    assert_eq!(rt; rows_of(alloc, by_number, EMP, &texts)?, (4, None));
    let by_text = Division {
        column: 1,
        form: Form::Numbers,
        begins: false,
    };
    let texts: [&'static [u8]; 3] = [
        b"3,\"sales,x\",5,forever\n",
        b"1,toys,10,20\n2,food,15,25\n4,toys,1,2\n",
        b"",
    ];
    assert_eq!(rt; rows_of(alloc, by_text, EMP, &texts)?, (4, None));
    Ok(())
}

// A file of more records than are written together.
#[test]
fn long_files_are_divided(rt: HostRuntime) -> Result<(), Fail> {
    let alloc = rt.alloc();
    let mut text = String::new(alloc);
    text.push_str("n:int,from,to\n")?;
    for number in 0..2500 {
        writeln!(text, "{number},1,2")?;
    }
    let division = Division {
        column: 0,
        form: Form::Numbers,
        begins: true,
    };
    let mut sinks = [
        Sink::over(Vec::new(alloc)),
        Sink::over(Vec::new(alloc)),
        Sink::over(Vec::new(alloc)),
    ];
    let rows = match divide(alloc, division, text.as_bytes(), &mut sinks) {
        Ok(divided) => divided.rows,
        Err(_) => 0,
    };
    assert_eq!(rt; rows, 2500);
    Ok(())
}

#[test]
fn invalid_files_are_refused(rt: HostRuntime) -> Result<(), Fail> {
    let alloc = rt.alloc();
    let division = Division {
        column: 1,
        form: Form::Numbers,
        begins: false,
    };
    let texts: [&'static [u8]; 1] = [b"1,a,1,2\n"];
    for (input, wanted) in [
        ("", DivisionFault::NoHeader),
        (
            "n:int,from\n",
            DivisionFault::Header(LoadFaultKind::BadHeader),
        ),
        ("n:int,from,to\n", DivisionFault::NoColumn),
        (
            "n:int,t:text,from,to\n1,a,1,2\n2,b,2,1\nx,c,1,2\n",
            DivisionFault::Record {
                number: 3,
                kind: LoadFaultKind::BadPeriod,
            },
        ),
        ("n:int,t:text,from,to\n1,b,1,2\n", DivisionFault::Write),
    ] {
        assert_eq!(rt;
            rows_of(alloc, division, input.as_bytes(), &texts)?,
            (0, Some(wanted))
        );
    }
    Ok(())
}
