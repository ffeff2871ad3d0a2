// What a command line asks for. These types have a module of their own because the definitions that the contracts of
// `command_line` cite name them.

ghost use Rattle.std.specs.Prelude.{◌≤◌};

use tq_base::{Form, Instant, Period};
use tq_import::ImportWords;
use tq_report::Format;
use tq_totals::Unit;

/// A table's name, and the path of its file.
#[derive(Drop)]
pub struct TableOption {
    pub name: Vec<u8>,
    pub path: Vec<u8>,
}

/// A question: the tables in the order of their options, 1 to 16 workers, how instants are written, a statement or, if it
/// is not empty, the path of a file that has it, the path of the file for the answer, of which an empty one is standard
/// output, and whether a refusal is explained wherever it goes, and an answer.
#[derive(Drop)]
pub struct QuestionRequest {
    pub tables: Vec<TableOption>,
    pub workers: u32,
    pub form: Form,
    pub statement: Vec<u8>,
    pub statement_file: Vec<u8>,
    pub output: Vec<u8>,
    pub explain: bool,
    ghost some_workers: { 1 ≤ workers },
    ghost few_workers: { workers ≤ 16 },
}

/// A column whose numbers are amounts: its name, and how many digits an amount has after the point.
#[derive(Drop)]
pub struct DecimalOption {
    pub name: Vec<u8>,
    pub places: u32,
    ghost few_places: { places ≤ 18 },
}

/// How an answer is written: its format, whether it is an aligned table at a terminal, whether its rows are in the order of time, whether the end of a period is its last
/// instant, which columns have amounts, and whether it is a table file.
#[derive(Drop)]
pub struct LayoutRequest {
    pub format: Format,
    pub pretty: bool,
    pub by_time: bool,
    pub inclusive: bool,
    pub decimals: Vec<DecimalOption>,
    pub typed: bool,
}

/// What `tq ask` was asked: a question, and how the answer is written.
#[derive(Drop)]
pub struct AskRequest {
    pub question: QuestionRequest,
    pub layout: LayoutRequest,
}

/// What `tq total` was asked: a question, the names of the columns by which rows are grouped, of those that are totalled,
/// and the columns of amounts.
#[derive(Drop)]
pub struct TotalRequest {
    pub question: QuestionRequest,
    pub by: Vec<Vec<u8>>,
    pub sums: Vec<Vec<u8>>,
    pub decimals: Vec<DecimalOption>,
}

/// What `tq calendar` was asked: the unit of the periods, the first day and the day after the last one, and the path of the
/// table file, of which an empty one is standard output.
#[derive(Drop)]
pub struct CalendarRequest {
    pub unit: Unit,
    pub start: Instant,
    pub end: Instant,
    pub output: Vec<u8>,
}

/// How a picture is printed: as text, as an image in SVG, or as an HTML page that has it.
#[derive(Clone, Copy, Debug, PartialEq, Eq)]
pub enum PictureFormat {
    Text,
    Svg,
    Html,
}

/// What `tq draw` was asked: a question, how wide the picture may be, in characters, how it is printed, and the window that
/// it shows, if one was given.
#[derive(Drop)]
pub struct DrawRequest {
    pub question: QuestionRequest,
    pub width: u32,
    pub format: PictureFormat,
    pub window: Option<Period>,
}

/// What `tq check` was asked: the tables in the order of their options, 1 to 16 workers, how instants are written,
/// whether to report overlapping rows of one key, and gaps between rows of one key, which references to check, and whether
/// a refusal is explained wherever it goes.
#[derive(Drop)]
pub struct CheckRequest {
    pub tables: Vec<TableOption>,
    pub workers: u32,
    pub form: Form,
    pub overlaps: bool,
    pub gaps: bool,
    pub references: Vec<Vec<u8>>,
    pub explain: bool,
    ghost some_workers: { 1 ≤ workers },
    ghost few_workers: { workers ≤ 16 },
}

/// What `tq session` is about: the tables in the order of their options, how instants are written, and whether refusals
/// are explained wherever they go.
#[derive(Drop)]
pub struct SessionRequest {
    pub tables: Vec<TableOption>,
    pub form: Form,
    pub explain: bool,
}

/// What `tq import` was asked: the paths of the file and of the table file, of which an empty one is standard output,
/// whether to list all invalid records, the path of the file into which they are put aside, or nothing, and how the file
/// is imported.
#[derive(Drop)]
pub struct ImportRequest {
    pub path: Vec<u8>,
    pub output: Vec<u8>,
    pub all: bool,
    pub rejected: Vec<u8>,
    pub explain: bool,
    pub words: ImportWords,
}

/// What `tq split` was asked: the tables in the order of their options, the number of parts, how instants are written, a
/// statement or, if it is not empty, the path of a file that has it, the path of the folder into which parts are written,
/// and whether to explain how tables are divided.
#[derive(Drop)]
pub struct SplitRequest {
    pub tables: Vec<TableOption>,
    pub parts: u32,
    pub form: Form,
    pub statement: Vec<u8>,
    pub statement_file: Vec<u8>,
    pub output: Vec<u8>,
    pub explain: bool,
}

/// What `tq merge` was asked: the path of the folder with the parts.
#[derive(Drop)]
pub struct MergeRequest {
    pub folder: Vec<u8>,
}

/// What the program was asked: to print this text, to answer a statement, to draw its answer, to total it, to write
/// periods of the calendar, to check tables, to hold a session, to import a file, to divide tables, or to merge answers over
/// parts of tables.
#[derive(Drop)]
pub enum Request {
    Print(String),
    Ask(AskRequest),
    Draw(DrawRequest),
    Total(TotalRequest),
    Calendar(CalendarRequest),
    Check(CheckRequest),
    Session(SessionRequest),
    Import(ImportRequest),
    Split(SplitRequest),
    Merge(MergeRequest),
}
