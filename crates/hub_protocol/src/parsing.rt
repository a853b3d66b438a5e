//! Reads the request that a line spells.
ghost use Rattle.std.specs.Prelude.{◌≡◌, ◌∷◌, [], IfOk};
ghost use Rattle.hub_requests.specs.Ranges.{IsInRange};
ghost use Rattle.hub_protocol.specs.Spelling.{fields_of};
ghost use Rattle.hub_protocol.specs.Reading.{IsReading, IsText};

use crate::fields::is_text;
use crate::line::{Field, Line, are_within, first_piece, last_of, read_fields};
use crate::requests::request_of;
use crate::table::{MOST_FIELDS, row_of};
use hub_requests::{Refusal, Request};
use std::alloc::Global;

/// The most bytes of a line, without its LF.
pub const LONGEST_LINE: usize = 512;

/// Why a line isn't a request: the first rule that it breaks, in the order `Long`, `Text`, `Word`, `Form`, `Range`. A line
/// that spells a request is refused only if memory runs out (`Memory`).
pub type Bad = Refusal;

/// The request that a line spells, or the first rule that it breaks. The line comes without its LF.
pub fn parse(alloc: Global, line: &[u8]) -> Result<Request, Bad>
    ensures reading { IsReading line.now result }
    ensures in_range { IfOk result IsInRange }
{
    if line.len() > LONGEST_LINE {
        return Err(Bad::Long);
    }
    if !is_text(line) {
        return Err(Bad::Text);
    }
    read_text(alloc, line)
}

fn read_text(alloc: Global, text: &[u8]) -> Result<Request, Bad>
    requires { IsText text.now }
    ensures reading { IsReading text.now result }
    ensures in_range { IfOk result IsInRange }
{
    let (word, rest) = first_piece(text);
    let Some((_, verb, kinds, ending)) = row_of(word) else {
        return Err(Bad::Word);
    };
    let mut fields = [Field::Number(0); MOST_FIELDS];
    let Some(rest) = read_fields(kinds, rest, &mut fields) else {
        return Err(Bad::Form);
    };
    let Some(last) = last_of(ending, rest) else {
        return Err(Bad::Form);
    };
    if !are_within(kinds, &fields) {
        return Err(Bad::Range);
    }
    let line = Line {
        verb,
        fields: &fields,
        last,
    };
    request_of(alloc, &line)
}
