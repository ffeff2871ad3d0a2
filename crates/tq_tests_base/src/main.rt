//! Tests of values, periods, names, rows and relations, of operators over rows, and of counts and sums, layers and
//! output. Each block of stdin is a call and its output (tq_tests_script).
//!
//!     int TEXT                             the number of 64 signed bits that the text is
//!     natural MOST TEXT                    the number that it is, up to MOST
//!     instant TEXT                         the instant and the bound that it is
//!     date TEXT                            the day and the bound that it is in dates
//!     day NUMBER                           the day of that number in dates, and in numbers
//!     days COUNT                           how many of the first COUNT days print and read back unchanged
//!     instants NUMBER                      whether the number is an instant, and whether it is a bound
//!     name TEXT                            whether the text is a name, and the name
//!     word TEXT                            whether it is a word of the language, and not a name
//!     same TEXT TEXT                       whether two words are the same
//!     count-name                           the name of the counts of an answer
//!     holds START END INSTANT..            which of the instants the period holds
//!     periods START END START END          the overlap of two periods, and whether they meet, in both orders
//!     order VALUE..                        how many pairs of the values do not compare as their places do
//!     texts TEXT TEXT                      how two texts compare, and the second with a copy of itself
//!     rows-order VALUES..                  how many pairs of rows of values do not compare as their places do
//!     fragments VALUES,FROM,TO..           the fragments in order
//!     rank VALUE, size                     the normalized key of a value; how many bytes a value takes
//!     takes VALUE                          whether a column of numbers takes the value, and whether one of texts does
//!     fits VALUES                          whether a table of a number and a text takes the row
//!     table TEXT                           the number of the table among emp and dept; the last column of the last
//!     sorted COLUMNS LEFT RIGHT            the sort keys of rows of both sides, or of one list, and their first run
//!     within START END LIST                the rows of a list that overlap a window
//!     many COUNT                           many rows, in which each eleventh has the same number, sorted
//!     lent LIST, owned WIDTH ROW..         the rows of a relation that borrows, or owns, a list
//!     pick LIST PERIOD PERIOD PERIOD       the last of three rows, and the first one twice, in these periods
//!     pairs LEFT RIGHT START END           pairs of rows, and of pairs, with columns in another order
//!     pushed COUNT, empty COUNT            rows that were pushed; rows without values
//!     copied TEXT                          a row of a text that is freed
//!     kept COLUMNS OTHERS ROW..            rows that store only some columns, copied, moved and appended:
//!                                          N and T for a number and a text that are stored, n and t for those left out
//!     rows TO WIDTH ROW..                  a list of rows: VALUE,..,FROM,TO each, or N of one, as 29*VALUE,..
//!     rising TO COUNT LENGTH               rows of the numbers from 0 on, each valid for LENGTH instants from it
//!     select TO START END FROM             the rows of a list within a window
//!     join TO START END LEFT RIGHT         the pairs of rows of two lists
//!     join-all TO START END FIRST OTHER..  the join of several lists
//!     except TO START END LEFT RIGHT       the rows of LEFT without those of RIGHT
//!     project TO FROM COLUMN..             some columns
//!     merge TO WIDTH FROM..                the layers of lists merged, each list in its layers
//!     show FROM                            the rows, in the order of values and periods
//!     counts FROM COUNT                    how many of them are valid at each instant from 0 on
//!     check VALUE,.. TEST                  which of some tests a row passes
//!     may NUMBER PLACE TEST                which of some tests a row may pass that has the number at a place
//!     chain COUNT                          three tests of COUNT parts
//!     group START END KEYS SUMS ROW..      counts and sums of groups, of rows of a text and a number
//!     count START END ROW..                the number of such rows
//!     coalesce FROM COLUMN..               the text of their layers
//!     write FROM COLUMN..                  the text of the rows in their order
//!     draw FROM WIDTH COLUMN..             the rows in their order, as a picture of a width
//!     draw-dates FROM WIDTH COLUMN..       the same, with instants as dates
//!     pictures FROM COLUMN..               how many bytes a picture and a page of the rows have, and whether several
//!                                          workers draw the same
//!     report FROM FORMAT COLUMN..          the rows in their order, in a format of reports
//!     report-dates FROM FORMAT COLUMN..    the same, with instants as dates
//!     report-amounts FROM FORMAT PLACES,.. COLUMN..
//!                                          the same, with decimal places in each column and the last instants of periods
//!     by-time FROM COLUMN..                the rows as CSV, ordered by start, then end, then values
//!     typed FROM COLUMN..                  the rows as a table file; columns with t.. as their name have texts
//!     totals FROM GROUPS COLUMN..          totals of all columns but the first GROUPS, which group the rows
//!     total-amounts FROM GROUPS PLACES,.. COLUMN..
//!                                          the same, with decimal places in each column
//!     calendar UNIT START END              the months, quarters or years between two dates
//!     send FROM COLUMN..                   the same text, by a sink into memory
//!     send-short FROM COLUMN..             the same, by one whose writer takes five bytes
//!     short ROOM END FLUSH TEXT            bytes by a sink whose writer takes three bytes a call
//!     sent TEXT                            bytes by a sink into memory
//!     faults                               the numbers of the faults of a sink
//!
//! A value is a number or a text. A text begins with ' if it looks like a number or is empty; T^N is the text T, N
//! times. Texts are written as `unescape` of tq_tests_script reads them. A test is in postfix order, with #0 for a
//! column, as `#0 5 < not`. Rows are selected and joined by the test after the word `if`, if there is one.
#![tactic(auto)]

mod dates;
mod drawing;
mod grouping;
mod lists;
mod making;
mod names;
mod operators;
mod orders;
mod output;
mod periods;
mod pushing;
mod relations;
mod session;
mod sort_input;
mod tables;
mod tests;
mod totals;
mod values;
mod with_columns;
mod words;

use session::Session;
use std::io;
use tq_tests_script::run_script;

fn main(rt: HostRuntime) -> io::Result<()> {
    let alloc = rt.alloc();
    run_script(&rt, &mut Session::new(alloc))
}
