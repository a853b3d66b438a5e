//! The table of forms: for each word, the fields behind it, and what ends its line.
ghost use Rattle.std.specs.Prelude.{map};
ghost use Rattle.hub_protocol.specs.Table.{IsRowOf, row_shown, table};

use hub_record::{MOST_EVENTS, MOST_WAITING};
use hub_requests::{MOST_TAKEN, MOST_TURNS};

/// What a field may say. A field has no space.
#[derive(Clone, Copy)]
pub enum Kind {
    /// A name.
    Name,
    /// A number from the first to the second. Its numeral has at most 13 digits.
    Number(u64, u64),
    /// 1 for yes, or 0 for no.
    Flag,
    /// One or more letters.
    Letters,
    /// `once` or `repeat`.
    Mode,
    /// `all` or `any`.
    Span,
    /// What a wait may want.
    Want,
    /// Where a service may be told to be.
    State,
    /// Where it may be told to be when the session ends, or `none`.
    Will,
}

/// What ends a line behind its fields.
#[derive(Clone, Copy)]
pub enum Ending {
    /// Nothing.
    Nothing,
    /// 1 to 32 names.
    Names,
    /// A pattern, with its spaces.
    Pattern,
    /// The word `evict`, or nothing.
    Evict,
}

/// What a line asks for: the request that is made of it.
#[derive(Clone, Copy)]
pub enum Verb {
    Dir,
    Svc,
    Sub,
    Pub,
    Tell,
    Will,
    Take,
    Cancel,
    Close,
    Status,
    About,
    Listen,
    Poll,
    Await,
    Next,
    Wait,
    Names,
}

/// A word, what its line asks for, the fields behind the word, and what ends the line.
pub type Row = (&'static [u8], Verb, &'static [Kind], Ending);

const NAME: Kind = Kind::Name;

const WAITING: Kind = Kind::Number(1, MOST_WAITING);

const TOTAL: Kind = Kind::Number(1, MOST_EVENTS);

const REPORTS: Kind = Kind::Flag;

const LETTERS: Kind = Kind::Letters;

const ANY: Kind = Kind::Number(0, u64::MAX);

const MAX: Kind = Kind::Number(1, MOST_TAKEN);

const MODE: Kind = Kind::Mode;

const SPAN: Kind = Kind::Span;

const WANT: Kind = Kind::Want;

const STATE: Kind = Kind::State;

const WILL: Kind = Kind::Will;

const TURNS: Kind = Kind::Number(0, MOST_TURNS);

/// The most fields that a row has.
pub const MOST_FIELDS: usize = 4;

/// Hands the forms of all requests to the macro `$read`, behind what that is given: the word of each, the request, the place
/// and the kind of each field, and what ends the line. All that the crate does with a word is written from here.
macro_rules! forms {
    ($read:ident $given:tt) => {
        $read! {
            $given (a b c d)
            b"dir" Dir { name: a NAME, waiting: b WAITING, total: c TOTAL } Evict(evict)
            b"svc" Svc { name: a NAME, waiting: b WAITING, total: c TOTAL, notifies: d REPORTS } Evict(evict)
            b"sub" Sub { name: a NAME } Nothing
            b"pub" Pub { name: a NAME, letters: b LETTERS } Nothing
            b"tell" Tell { name: a NAME, state: b STATE } Nothing
            b"will" Will { name: a NAME, state: b WILL } Nothing
            b"take" Take { id: a ANY, max: b MAX } Nothing
            b"cancel" Cancel { id: a ANY } Nothing
            b"close" Close { name: a NAME } Nothing
            b"status" Status { name: a NAME } Nothing
            b"about" About { name: a NAME } Nothing
            b"listen" Listen { name: a NAME, mode: b MODE } Pattern(pattern)
            b"poll" Poll { id: a ANY } Nothing
            b"await" Await { id: a ANY, turns: b TURNS } Nothing
            b"next" Next { id: a ANY, turns: b TURNS } Nothing
            b"wait" Wait { span: a SPAN, want: b WANT, turns: c TURNS } Names(names)
            b"names" Names { from: a ANY } Nothing
        }
    };
}

pub(crate) use forms;

// The rows of the table.
macro_rules! rows {
    ($given:tt $places:tt
     $($word:literal $request:ident { $($field:ident: $place:ident $kind:ident),* } $ending:ident $(($last:ident))?)*) => {
        &[$(($word, Verb::$request, &[$($kind),*], Ending::$ending)),*]
    };
}

/// The forms of all lines.
pub const ROWS: &[Row] = forms!(rows());

/// The row of the word. None if no row has it.
pub fn row_of(word: &[u8]) -> Option<Row>
    ensures { IsRowOf table word.now result }
{
    row_in(ROWS, word)
}

fn row_in(rows: &[Row], word: &[u8]) -> Option<Row>
    ensures { IsRowOf (map row_shown rows.now) word.now result }
{
    for row in rows {
        if row.0 == word {
            return Some(*row);
        }
    }
    None
}
