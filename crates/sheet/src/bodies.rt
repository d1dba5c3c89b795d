// Reading numbers out of the body of a field.
ghost use Rattle.std.specs.Prelude.{◌≡◌, map, length, slice_index};
ghost use Rattle.std.specs.Int.{w16, from_be_bytes};
ghost use Rattle.sheet.specs.Stages.{pair_at, end_cost_in, places_in, outcomes_in};

// A byte of a body; past its end it is 0.
pub fn byte_at(body: &[u8], place: usize) -> u8
    ensures { result ≡ slice_index body.now place }
{
    body.get(place).copied().unwrap_or(0)
}

// The number that two bytes of a body stand for.
pub fn pair_at(body: &[u8], place: u16) -> u16
    ensures { result ≡ pair_at body.now place }
{
    let place = usize::from(place);
    u16::from_be_bytes([byte_at(body, place), byte_at(body, place + 1)])
}

// The end cost in the body of an end.
pub fn end_cost_in(body: &[u8]) -> u32
    ensures { result ≡ end_cost_in body.now }
{
    u32::from_be_bytes([
        byte_at(body, 0),
        byte_at(body, 1),
        byte_at(body, 2),
        byte_at(body, 3),
    ])
}

// How many outcomes the body of an action has.
pub fn places_in(body: &[u8]) -> usize
    ensures { result ≡ places_in body.now }
{
    body.len().saturating_sub(1) / 2
}

// The outcomes in the body of an action, each as the two bytes of its number.
pub fn outcomes_in(body: &[u8]) -> &[[u8; 2]]
    ensures value { map (from_be_bytes w16) result.now ≡ outcomes_in body.now }
    ensures count { length result.now ≡ places_in body.now }
{
    let [_, outcomes @ ..] = body else {
        return &[];
    };
    let (outcomes, _) = outcomes.as_chunks();
    outcomes
}

// The outcome at a place of the body of an action; past the last it is 0.
pub fn outcome_in(body: &[u8], place: usize) -> u16
    ensures { result ≡ slice_index (outcomes_in body.now) place }
{
    outcomes_in(body)
        .get(place)
        .map_or(0, |outcome| u16::from_be_bytes(*outcome))
}
