// The fields of a sheet.
ghost use Rattle.std.specs.Prelude.{◌≡◌, ◌<◌, ◌⊎◌, ◌++◌, MatchOption};
ghost use Rattle.sheet.specs.Blocks.{block, shown, block_bytes};
ghost use Rattle.sheet.specs.Wrongs.{NoField};

// A field of a sheet: its kind, and its body as a part of the sheet itself.
#[derive(Clone, Copy, PartialEq, Eq, Debug)]
pub enum Field<'a> {
    // tag 1: the number of states
    States(&'a [u8]),
    // tag 2: a task and its price
    Price(&'a [u8]),
    // tag 3: a state that is an end, with its cost
    End(&'a [u8]),
    // tag 4: a state that is open
    Open(&'a [u8]),
    // tag 5: an action of the latest open state: its task and its outcomes
    Action(&'a [u8]),
}

impl<'a> Field<'a> {
    // The field of a tag and a body; none where no field has such a tag.
    pub fn of(tag: u8, body: &'a [u8]) -> Option<Field<'a>>
        ensures { MatchOption result ((tag < 1) ⊎ (5 < tag)) (λ f. shown f ≡ block tag body.now) }
    {
        match tag {
            1 => Some(Field::States(body)),
            2 => Some(Field::Price(body)),
            3 => Some(Field::End(body)),
            4 => Some(Field::Open(body)),
            5 => Some(Field::Action(body)),
            _ => None,
        }
    }
}

// What bytes begin with: the tag and the body of a field, and the bytes after it.
#[derive(Clone, Copy, PartialEq, Eq, Debug)]
pub struct Split<'a> {
    pub tag: u8,
    pub body: &'a [u8],
    pub rest: &'a [u8],
}

// Takes the first field off some bytes; none where they end before it is whole.
pub fn split_field(bytes: &[u8]) -> Option<Split<'_>>
    ensures { MatchOption result (NoField bytes.now) (λ s. bytes.now ≡ block_bytes (block s.tag s.body.now) ++ s.rest.now) }
{
    let [tag, high, low, rest @ ..] = bytes else {
        return None;
    };
    let length = usize::from(u16::from_be_bytes([*high, *low]));
    let (body, rest) = rest.split_at_checked(length)?;
    Some(Split {
        tag: *tag,
        body,
        rest,
    })
}
