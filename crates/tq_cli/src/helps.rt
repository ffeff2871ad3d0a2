// The texts of the help.

pub(crate) const VERSION: &str = "0.1.0";

pub(crate) const ABOUT: &str = "Answers sequenced queries over valid-time tables in CSV files.";

// What the help of a session ends with, beside the forms of statements and files.
pub(crate) const SESSION_HELP: &str = "\
Lines of standard input, each answered as soon as it is read:
  start emp 40 4,dan,toys          a row starts at 40
  end emp 50 4,dan,toys            it ends at 50
  publish                          both become visible; prints the number of published events
  ask 9 1 VALIDTIME SELECT name FROM emp
                                   the answer as of the first 9 events, by 1 worker
With --dates instants are dates, as in `start emp 2024-02-29 4,dan,toys`.

Table file, with --dates (the first column is a key; an open end is `forever`):
  emp:int,name:text,dept:text,from,to
  1,ann,toys,2024-02-29,2024-07-01
  2,bob,food,2024-03-01,forever

Table file:
  emp:int,name:text,dept:text,from,to
  1,ann,toys,10,20
  2,bob,food,15,forever";

// What the help of an import ends with.
pub(crate) const IMPORT_HELP: &str = "\
Example (columns have the names of the file's header):
  tq import --delimiter ';' --date-format dd.mm.yyyy --from 'Valid from' --to 'Valid to' --inclusive \\
      --open '' --key 'Employee ID' --decimal Salary=2 --thousands ',' staff.csv > staff.tq.csv

Kinds of columns:
  --decimal, --int and --text give them. Others are found in the values of the file, and are texts in standard input";

// What the helps of dividing and merging end with.
pub(crate) const SPLIT_HELP: &str = "\
Example (each part is answered by itself, here by one process after the other):
  tq split --parts 8 --out parts --table emp=emp.csv 'VALIDTIME SELECT name FROM emp'
  for part in parts/[0-9]*; do xargs -0 tq ask < $part/args > $part/answer.csv; done
  tq merge parts

Several files of one table are given as --table emp=2023.csv --table emp=2024.csv";

// What the help of a check ends with.
pub(crate) const CHECK_HELP: &str = "\
Table file, with --dates (the first column is a key; an open end is `forever`):
  emp:int,name:text,dept:text,from,to
  1,ann,toys,2024-02-29,2024-07-01
  2,bob,food,2024-03-01,forever

Table file:
  emp:int,name:text,dept:text,from,to
  1,ann,toys,10,20
  2,bob,food,15,forever";

// What the helps of the program and of a question end with.
pub(crate) const QUERY_HELP: &str = "\
Statement, with --dates:
  VALIDTIME PERIOD '[2024-02-29 - 2024-03-01)' SELECT name FROM emp WHERE dept = 'toys'

Statement:
  VALIDTIME SELECT name, dept FROM emp
  VALIDTIME PERIOD '[10 - 20)' SELECT name FROM emp WHERE dept = 'toys'
  VALIDTIME SELECT a.name, b.name FROM emp a, emp b WHERE a.dept = b.dept AND a.emp < b.emp
  VALIDTIME SELECT dept, COUNT(*), SUM(emp) AS total FROM emp GROUP BY dept
  VALIDTIME SELECT emp FROM emp EXCEPT ALL SELECT emp FROM posted

Table file, with --dates (the first column is a key; an open end is `forever`):
  emp:int,name:text,dept:text,from,to
  1,ann,toys,2024-02-29,2024-07-01
  2,bob,food,2024-03-01,forever

Table file:
  emp:int,name:text,dept:text,from,to
  1,ann,toys,10,20
  2,bob,food,15,forever";

/// What the help of a total ends with.
pub(crate) const TOTAL_HELP: &str = "\
Example (costs a day by department, summed over the days of 2024):
  tq total --dates --by dept --sum cost --table emp=emp.csv \\
      \"VALIDTIME PERIOD '[2024-01-01 - 2025-01-01)' SELECT dept, cost FROM emp\"

A period without an end has no length: give the statement a window";

/// What the help of a calendar ends with.
pub(crate) const CALENDAR_HELP: &str = "\
Example (people by month):
  tq calendar --by month 2024-01-01 2025-01-01 -o months.csv
  tq ask --dates --table emp=emp.csv --table months=months.csv \\
      'VALIDTIME SELECT label, COUNT(*) AS people FROM emp, months GROUP BY label'";
