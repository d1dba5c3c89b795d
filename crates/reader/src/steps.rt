// Taking the next field of a sheet.
ghost use Rattle.std.specs.Prelude.{MatchResult};
ghost use Rattle.sheet.specs.Stages.{stage};
ghost use Rattle.reader.specs.Steps.{Accepts, Refused};

use sheet::{Due, Field, SheetFault, split_field};

// A field of which nothing is wrong, what is known after it, and the bytes after it.
#[derive(Clone, Copy)]
pub(crate) struct Step<'a> {
    pub(crate) field: Field<'a>,
    pub(crate) due: Due,
    pub(crate) rest: &'a [u8],
}

// Takes the first field off some bytes, or tells what is wrong at their place in a sheet.
pub(crate) fn next_field<'a>(
    bytes: &'a [u8],
    due: &Due,
    place: usize,
) -> Result<Step<'a>, SheetFault>
    ensures { MatchResult result (Accepts (stage due.now) bytes.now) (Refused (stage due.now) bytes.now place) }
{
    let split = split_field(bytes).ok_or(SheetFault::Ends(place))?;
    let field = Field::of(split.tag, split.body).ok_or(SheetFault::Tag(place))?;
    let due = due.accept(field).map_err(|cause| cause.at(place))?;
    Ok(Step {
        field,
        due,
        rest: split.rest,
    })
}
