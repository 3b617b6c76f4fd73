//! The first syllable of a text, by a table of states.
ghost use Rattle.std.specs.Prelude.{◌≡◌, ◌+◌, ◌<◌, length};
ghost use Rattle.syllables.specs.Grammar.{better};
ghost use Rattle.syllables.specs.Machines.{by_table, kind_at, kind_or_none, next_state};

/// The table of a grammar. State 0 matches nothing more, and a text begins in state 1.
#[derive(Clone, Copy, Debug)]
pub struct Machine<'a> {
    /// How many categories there are; a character of another one is in no syllable.
    pub columns: u8,
    /// For each state the next state by each category.
    pub rows: &'a [u16],
    /// For each state the kind of what has been read, `NONE` if it is no syllable.
    pub kinds: &'a [u8],
    /// The kind of a character that begins no syllable.
    pub other: u8,
}

/// No kind.
pub const NONE: u8 = 255;

/// The kind of a syllable, and how many characters it has.
#[derive(Clone, Copy, PartialEq, Eq, Debug)]
pub struct Syllable {
    pub kind: u8,
    pub count: usize,
}

/// The state after a character.
pub fn next_state(machine: Machine<'_>, state: u16, category: u8) -> u16
    ensures { result ≡ next_state machine.entry state category }
{
    if category >= machine.columns {
        return 0;
    }
    let place = usize::from(state) * usize::from(machine.columns) + usize::from(category);
    match machine.rows.get(place) {
        Some(next) => *next,
        None => 0,
    }
}

/// The kind of what has been read.
pub fn kind_at(machine: Machine<'_>, state: u16) -> u8
    ensures { result ≡ kind_at machine.entry state }
{
    match machine.kinds.get(usize::from(state)) {
        Some(kind) => *kind,
        None => NONE,
    }
}

/// What is found after `read` characters of this kind.
pub fn better(kind: u8, read: usize, found: Syllable) -> Syllable
    ensures { result ≡ better (kind_or_none kind) read found }
{
    if kind == NONE {
        found
    } else {
        Syllable { kind, count: read }
    }
}

/// The first syllable of a text by a table, of the categories of its characters. It reads on to the
/// character behind which no pattern can match any more.
pub fn first_syllable(machine: Machine<'_>, categories: &[u8]) -> Syllable
    ensures { result ≡ by_table machine.entry categories.now }
{
    let mut found = Syllable {
        kind: machine.other,
        count: 1,
    };
    let mut state = 1;
    let mut read = 0;
    for category in categories {
        state = next_state(machine, state, *category);
        if state == 0 {
            return found;
        }
        read += 1;
        found = better(kind_at(machine, state), read, found);
    }
    found
}
