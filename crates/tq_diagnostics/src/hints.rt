// Hints for what other SQL dialects have and this one has not.
//
// A row of a table is the token before the place, what is at the place, and the hint. An empty token before stands for
// any, and so does nothing at the place; `0` stands for any number. The first row that fits gives the hint, which may
// be empty: then there is none.

ghost use Rattle.std.specs.Prelude.{◌≡◌, IfOk, map};
ghost use Rattle.tq_diagnostics.specs.Hints as spec;

use crate::clauses::{Clause, clause_of};
use std::alloc::{AllocError, Global};
use tq_base::{is_name_byte, is_same_word, word_length};

// Rows for any clause that come before those for words.
const CONTEXT: [(&[u8], &[u8], &[u8]); 10] = [
    (
        b"validtime",
        b"as",
        b"AS OF is not supported: ask for one instant by PERIOD '[20 - 21)', or for earlier events in `tq session`",
    ),
    (
        b"period",
        b"",
        b"write the window in quotes, as in PERIOD '[10 - 20)'",
    ),
    (
        b"validtime",
        b"'",
        b"write PERIOD and a window in quotes, as in PERIOD '[10 - 20)'",
    ),
    (
        b"left",
        b"join",
        b"outer joins are not supported: write FROM a, b WHERE a.k = b.k for an inner join, and EXCEPT ALL for the rows without a partner",
    ),
    (
        b"right",
        b"join",
        b"outer joins are not supported: write FROM a, b WHERE a.k = b.k for an inner join, and EXCEPT ALL for the rows without a partner",
    ),
    (
        b"full",
        b"join",
        b"outer joins are not supported: write FROM a, b WHERE a.k = b.k for an inner join, and EXCEPT ALL for the rows without a partner",
    ),
    (
        b"outer",
        b"join",
        b"outer joins are not supported: write FROM a, b WHERE a.k = b.k for an inner join, and EXCEPT ALL for the rows without a partner",
    ),
    (
        b"except",
        b"",
        b"EXCEPT without ALL is not supported: EXCEPT ALL removes a row for each row of the second query",
    ),
    (
        b"as",
        b"",
        b"write a name after AS that is not a reserved word",
    ),
    (
        b";",
        b"",
        b"a statement ends at `;`: ask one statement at a time",
    ),
];

// Words of other dialects, and what to write instead.
const WORDS: [(&[u8], &[u8]); 38] = [
    (
        b"order",
        b"ORDER BY is not supported: rows are sorted by the columns after SELECT, from left to right, then by time; `tq ask --order time` sorts by time first",
    ),
    (
        b"having",
        b"HAVING is not supported: query the answer as a table, with WHERE instead of HAVING",
    ),
    (
        b"distinct",
        b"DISTINCT is not supported: use GROUP BY with the same columns",
    ),
    (
        b"join",
        b"JOIN is not supported: write FROM a, b WHERE a.k = b.k",
    ),
    (
        b"inner",
        b"JOIN is not supported: write FROM a, b WHERE a.k = b.k",
    ),
    (
        b"natural",
        b"JOIN is not supported: write FROM a, b WHERE a.k = b.k",
    ),
    (
        b"left",
        b"outer joins are not supported: write FROM a, b WHERE a.k = b.k for an inner join, and EXCEPT ALL for the rows without a partner",
    ),
    (
        b"right",
        b"outer joins are not supported: write FROM a, b WHERE a.k = b.k for an inner join, and EXCEPT ALL for the rows without a partner",
    ),
    (
        b"full",
        b"outer joins are not supported: write FROM a, b WHERE a.k = b.k for an inner join, and EXCEPT ALL for the rows without a partner",
    ),
    (
        b"outer",
        b"outer joins are not supported: write FROM a, b WHERE a.k = b.k for an inner join, and EXCEPT ALL for the rows without a partner",
    ),
    (b"cross", b"CROSS JOIN is not supported: write FROM a, b"),
    (
        b"on",
        b"ON is not supported: write the condition after WHERE",
    ),
    (
        b"using",
        b"USING is not supported: write the condition after WHERE",
    ),
    (
        b"limit",
        b"LIMIT is not supported: save the answer in a file, and take its first lines",
    ),
    (
        b"offset",
        b"OFFSET is not supported: save the answer in a file, and take its first lines",
    ),
    (
        b"fetch",
        b"FETCH is not supported: save the answer in a file, and take its first lines",
    ),
    (
        b"top",
        b"TOP is not supported: save the answer in a file, and take its first lines",
    ),
    (
        b"union",
        b"UNION is not supported: write the rows of both tables into one file",
    ),
    (
        b"intersect",
        b"INTERSECT is not supported: write FROM a, b WHERE a.k = b.k GROUP BY a.k",
    ),
    (
        b"minus",
        b"MINUS is not supported: EXCEPT ALL removes a row for each row of the second query",
    ),
    (b"in", b"IN is not supported: write `a = 1 OR a = 2`"),
    (
        b"between",
        b"BETWEEN is not supported: write `a >= 1 AND a <= 9`",
    ),
    (b"is", b"NULL is not supported"),
    (
        b"like",
        b"LIKE is not supported: compare whole texts, by `=` `<>` `<` `<=` `>` `>=`",
    ),
    (
        b"exists",
        b"subqueries are not supported: save the answer of the inner query as a table, and query that",
    ),
    (b"case", b"CASE is not supported"),
    (b"over", b"window functions are not supported"),
    (
        b"max",
        b"MAX is not supported: EXCEPT ALL can remove the values that are less than another",
    ),
    (
        b"min",
        b"MIN is not supported: EXCEPT ALL can remove the values that are greater than another",
    ),
    (
        b"avg",
        b"AVG is not supported: select SUM(column) and COUNT(*), and divide",
    ),
    (
        b"of",
        b"AS OF is not supported: ask for one instant by PERIOD '[20 - 21)', or for earlier events in `tq session`",
    ),
    (
        b"for",
        b"FOR SYSTEM_TIME is not supported: ask for one instant by PERIOD '[20 - 21)', or for earlier events in `tq session`",
    ),
    (
        b"with",
        b"WITH is not supported: query the answer of the inner query as a table",
    ),
    (
        b"insert",
        b"a statement only asks: `tq session` starts and ends rows",
    ),
    (
        b"update",
        b"a statement only asks: `tq session` starts and ends rows",
    ),
    (
        b"delete",
        b"a statement only asks: `tq session` starts and ends rows",
    ),
    (
        b"nonsequenced",
        b"NONSEQUENCED is not supported: a statement begins with VALIDTIME",
    ),
    (
        b"explain",
        b"EXPLAIN is not supported: write `tq ask --explain`",
    ),
];

// Rows for what is before SELECT.
const BEFORE_SELECT: [(&[u8], &[u8], &[u8]); 1] = [(
    b"",
    b"select",
    b"write VALIDTIME before SELECT",
)];

// Rows for what is selected.
const IN_SELECT: [(&[u8], &[u8], &[u8]); 14] = [
    (
        b"select",
        b"*",
        b"SELECT * is not supported: name the columns",
    ),
    (b",", b"*", b"SELECT * is not supported: name the columns"),
    (b".", b"*", b"SELECT * is not supported: name the columns"),
    (
        b"select",
        b"from",
        b"a column is missing here; `from` and `to` are not selected, since each answer has them",
    ),
    (
        b",",
        b"from",
        b"a column is missing here; `from` and `to` are not selected, since each answer has them",
    ),
    (
        b"select",
        b"0",
        b"only columns, COUNT(*) and SUM(column) can be selected",
    ),
    (
        b",",
        b"0",
        b"only columns, COUNT(*) and SUM(column) can be selected",
    ),
    (
        b"select",
        b"'",
        b"only columns, COUNT(*) and SUM(column) can be selected",
    ),
    (
        b",",
        b"'",
        b"only columns, COUNT(*) and SUM(column) can be selected",
    ),
    (
        b"sum",
        b"from",
        b"`sum` is a reserved word: write SUM(column)",
    ),
    (
        b"count",
        b"from",
        b"`count` is a reserved word: write COUNT(*)",
    ),
    (b"(", b"*", b"SUM needs a column: COUNT(*) counts rows"),
    (
        b"(",
        b"",
        b"write COUNT(*) or SUM(column): no value is NULL, so COUNT(*) counts the values of each column",
    ),
    (
        b"",
        b"(",
        b"COUNT(*) and SUM(column) are the only functions",
    ),
];

// Rows for sources.
const IN_FROM: [(&[u8], &[u8], &[u8]); 5] = [
    (
        b"from",
        b"(",
        b"subqueries are not supported: save the answer of the inner query as a table, and query that",
    ),
    (
        b",",
        b"(",
        b"subqueries are not supported: save the answer of the inner query as a table, and query that",
    ),
    (b"from", b",", b""),
    (b",", b",", b""),
    (b"", b",", b"a query has at most four sources"),
];

// Rows for conditions.
const IN_WHERE: [(&[u8], &[u8], &[u8]); 8] = [
    (
        b"where",
        b"from",
        b"`from` and `to` cannot be compared: use a window, as in PERIOD '[10 - 20)'",
    ),
    (
        b"and",
        b"from",
        b"`from` and `to` cannot be compared: use a window, as in PERIOD '[10 - 20)'",
    ),
    (
        b"or",
        b"from",
        b"`from` and `to` cannot be compared: use a window, as in PERIOD '[10 - 20)'",
    ),
    (
        b"not",
        b"from",
        b"`from` and `to` cannot be compared: use a window, as in PERIOD '[10 - 20)'",
    ),
    (
        b"(",
        b"from",
        b"`from` and `to` cannot be compared: use a window, as in PERIOD '[10 - 20)'",
    ),
    (b")", b"(", b"write AND or OR between conditions"),
    (b"", b",", b"write AND or OR between conditions"),
    (
        b"",
        b"(",
        b"an operand is a column, a number or a text: functions and subqueries are not supported",
    ),
];

// Rows for columns after GROUP BY.
const IN_GROUP: [(&[u8], &[u8], &[u8]); 2] = [
    (b"by", b"0", b"name the columns after GROUP BY"),
    (b",", b"0", b"name the columns after GROUP BY"),
];

// Rows for signs of other dialects.
const SIGNS: [(&[u8], &[u8], &[u8]); 18] = [
    (
        b"period",
        b"[",
        b"write the window in quotes, as in PERIOD '[10 - 20)'",
    ),
    (
        b"validtime",
        b"[",
        b"write PERIOD and a window in quotes, as in PERIOD '[10 - 20)'",
    ),
    (b"=", b"=", b"write `=` instead of `==`"),
    (b"=", b"<", b"write `<=` instead of `=<`"),
    (b"=", b">", b"write `>=` instead of `=>`"),
    (
        b"0",
        b".",
        b"decimals are not supported: `tq import` makes whole numbers of them, as 150 of 1.50",
    ),
    (b"", b"!=", b"write `<>` instead of `!=`"),
    (
        b"",
        b"\"",
        b"write texts in single quotes, and names without quotes",
    ),
    (b"", b"`", b"write names without quotes"),
    (b"", b"[", b"write names without brackets"),
    (b"", b"--", b"comments are not supported"),
    (b"", b"/*", b"comments are not supported"),
    (
        b"",
        b"-",
        b"arithmetic is not supported; write `-` directly before a number",
    ),
    (b"", b"+", b"arithmetic is not supported"),
    (b"", b"*", b"arithmetic is not supported"),
    (b"", b"/", b"arithmetic is not supported"),
    (b"", b"%", b"arithmetic is not supported"),
    (b"", b"||", b"texts cannot be concatenated"),
];
// The first text if it is not empty, else the second.
fn or_else(first: &'static [u8], second: &'static [u8]) -> &'static [u8]
    ensures { result.now ≡ spec.or_else first.now second.now }
{
    if first.len() > 0 { first } else { second }
}

// The word, or `0` for a number.
fn class_of(word: &[u8]) -> &[u8]
    ensures { result.now ≡ spec.class_of word.entry.now }
{
    match word {
        [] => word,
        [first, ..] => { if first.is_ascii_digit() { b"0" } else { word } }
    }
}

// Whether the token before a place fits a row.
fn fits_before(wanted: &[u8], before: &[u8]) -> bool
    ensures { result ≡ spec.fits_before wanted.now before.now }
{
    if wanted.len() == 0 {
        return true;
    }
    is_same_word(wanted, class_of(before))
}

// Whether the bytes from a place on fit a row: they begin with its sign, or their first word is its word.
fn fits_at(wanted: &[u8], rest: &[u8]) -> bool
    ensures { result ≡ spec.fits_at wanted.now rest.now }
{
    match wanted {
        [] => true,
        [first, ..] => {
            if is_name_byte(*first) {
                is_same_word(wanted, class_of(&rest[..word_length(rest)]))
            } else {
                rest.starts_with(wanted)
            }
        }
    }
}

// The hint of the first row that fits, or nothing.
fn of_rows(
    mut table: &[(&'static [u8], &'static [u8], &'static [u8])],
    before: &[u8],
    rest: &[u8],
) -> &'static [u8]
    ensures { result.now ≡ spec.of_rows (map (λ row. (row.0.now, (row.1.now, row.2.now))) table.entry.now) before.now rest.now }
{
    'table: while let [row, more @ ..] = table {
        if fits_before(row.0, before) && fits_at(row.1, rest) {
            return row.2;
        }
        table = more;
    }
    b""
}

// The hint for a word, or nothing if it is not in the table.
fn of_word(mut table: &[(&'static [u8], &'static [u8])], word: &[u8]) -> &'static [u8]
    ensures { result.now ≡ spec.of_word (map (λ row. (row.0.now, row.1.now)) table.entry.now) word.now }
{
    'table: while let [row, rest @ ..] = table {
        if is_same_word(row.0, word) {
            return row.1;
        }
        table = rest;
    }
    b""
}

// The last word or sign of the bytes; a sign is one byte.
fn last_token(alloc: Global, bytes: &[u8]) -> Result<Vec<u8>, AllocError>
    ensures { IfOk result (λ token. token.items ≡ spec.last_token bytes.now) }
{
    let mut token = Vec::new(alloc);
    let mut open = false;
    'bytes: for byte in bytes {
        if is_name_byte(*byte) {
            if !open {
                token.clear();
            }
            token.push(*byte)?;
            open = true;
        } else {
            if !byte.is_ascii_whitespace() {
                token.clear();
                token.push(*byte)?;
            }
            open = false;
        }
    }
    Ok(token)
}

#[tactic(auto, unfolding(crate::specs::Hints::context_hint))]
fn context_hint(before: &[u8], rest: &[u8]) -> &'static [u8]
    ensures { result.now ≡ spec.context_hint before.now rest.now }
{
    of_rows(&CONTEXT, before, rest)
}

#[tactic(auto, unfolding(crate::specs::Hints::word_hint))]
fn word_hint(word: &[u8]) -> &'static [u8]
    ensures { result.now ≡ spec.word_hint word.now }
{
    of_word(&WORDS, word)
}

// The hint for the first word of the rest, or else for the word before it.
fn words_hint(before: &[u8], rest: &[u8]) -> &'static [u8]
    ensures { result.now ≡ spec.words_hint before.now rest.now }
{
    or_else(word_hint(&rest[..word_length(rest)]), word_hint(before))
}

#[tactic(auto, unfolding(crate::specs::Hints::before_select_hint))]
fn before_select_hint(before: &[u8], rest: &[u8]) -> &'static [u8]
    ensures { result.now ≡ spec.before_select_hint before.now rest.now }
{
    of_rows(&BEFORE_SELECT, before, rest)
}

#[tactic(auto, unfolding(crate::specs::Hints::in_select_hint))]
fn in_select_hint(before: &[u8], rest: &[u8]) -> &'static [u8]
    ensures { result.now ≡ spec.in_select_hint before.now rest.now }
{
    of_rows(&IN_SELECT, before, rest)
}

#[tactic(auto, unfolding(crate::specs::Hints::in_from_hint))]
fn in_from_hint(before: &[u8], rest: &[u8]) -> &'static [u8]
    ensures { result.now ≡ spec.in_from_hint before.now rest.now }
{
    of_rows(&IN_FROM, before, rest)
}

#[tactic(auto, unfolding(crate::specs::Hints::in_where_hint))]
fn in_where_hint(before: &[u8], rest: &[u8]) -> &'static [u8]
    ensures { result.now ≡ spec.in_where_hint before.now rest.now }
{
    of_rows(&IN_WHERE, before, rest)
}

#[tactic(auto, unfolding(crate::specs::Hints::in_group_hint))]
fn in_group_hint(before: &[u8], rest: &[u8]) -> &'static [u8]
    ensures { result.now ≡ spec.in_group_hint before.now rest.now }
{
    of_rows(&IN_GROUP, before, rest)
}

// The hint of the table for the clause.
fn clause_hint(clause: Clause, before: &[u8], rest: &[u8]) -> &'static [u8]
    ensures { result.now ≡ spec.clause_hint clause before.now rest.now }
{
    match clause {
        Clause::Start => before_select_hint(before, rest),
        Clause::Select => in_select_hint(before, rest),
        Clause::From => in_from_hint(before, rest),
        Clause::Where => in_where_hint(before, rest),
        Clause::Group => in_group_hint(before, rest),
    }
}

#[tactic(auto, unfolding(crate::specs::Hints::sign_hint))]
fn sign_hint(before: &[u8], rest: &[u8]) -> &'static [u8]
    ensures { result.now ≡ spec.sign_hint before.now rest.now }
{
    of_rows(&SIGNS, before, rest)
}

// The hint for a token that is unexpected after the token before it, in this clause.
fn hint_in(clause: Clause, before: &[u8], rest: &[u8]) -> &'static [u8]
    ensures { result.now ≡ spec.hint_in clause before.now rest.now }
{
    let later = or_else(clause_hint(clause, before, rest), sign_hint(before, rest));
    let words = or_else(words_hint(before, rest), later);
    or_else(context_hint(before, rest), words)
}

/// The hint for a byte that begins no token, between the text before it and from it on, or nothing. `AllocError` if an
/// allocation failed.
pub(crate) fn byte_hint(
    alloc: Global,
    front: &[u8],
    rest: &[u8],
) -> Result<&'static [u8], AllocError>
    ensures { IfOk result (λ hint. hint.now ≡ spec.byte_hint front.now rest.now) }
{
    let before = last_token(alloc, front)?;
    Ok(sign_hint(&before, rest))
}

/// The hint for an unexpected token, between the text before it and from it on, or nothing. `AllocError` if an
/// allocation failed.
pub(crate) fn token_hint(
    alloc: Global,
    front: &[u8],
    rest: &[u8],
) -> Result<&'static [u8], AllocError>
    ensures { IfOk result (λ hint. hint.now ≡ spec.token_hint front.now rest.now) }
{
    let before = last_token(alloc, front)?;
    let clause = clause_of(alloc, front)?;
    Ok(hint_in(clause, &before, rest))
}
