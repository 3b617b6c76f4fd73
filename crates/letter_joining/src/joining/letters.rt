//! What becomes of letters, read off tables: what stands before the next one, and the forms of this
//! one.
//!
//! A table has a row of eight for each kind, and in it an entry for each state; the eighth is of
//! none.
use crate::joining::{Form, State};

const FREE: State = State::Free;

const ENDED: State = State::Ended;

const BEGUN: State = State::Begun;

const GOING: State = State::Going;

const JOINED: State = State::JoinedAlaph;

const FINAL: State = State::FinalAlaph;

const AFTER: State = State::AfterDalath;

const NONE: Form = Form::None;

const ISOL: Form = Form::Isol;

const FINA: Form = Form::Fina;

const FIN2: Form = Form::Fin2;

const FIN3: Form = Form::Fin3;

const MEDI: Form = Form::Medi;

const MED2: Form = Form::Med2;

const INIT: Form = Form::Init;

/// What stands before the next letter.
#[rattlefmt::skip]
pub(crate) static STATES: [State; 48] = [
    FREE, FREE, FREE, FREE, FREE, FREE, FREE, FREE,
    BEGUN, BEGUN, BEGUN, BEGUN, BEGUN, BEGUN, BEGUN, FREE,
    ENDED, ENDED, ENDED, ENDED, ENDED, ENDED, ENDED, FREE,
    BEGUN, BEGUN, GOING, GOING, BEGUN, BEGUN, BEGUN, FREE,
    ENDED, FINAL, JOINED, JOINED, FINAL, FINAL, FINAL, FREE,
    AFTER, AFTER, AFTER, AFTER, AFTER, AFTER, AFTER, FREE,
];

/// The forms of letters before one that doesn't join to them.
#[rattlefmt::skip]
pub(crate) static OWN_FORMS: [Form; 48] = [
    NONE, NONE, NONE, NONE, NONE, NONE, NONE, NONE,
    ISOL, ISOL, ISOL, ISOL, ISOL, ISOL, ISOL, NONE,
    ISOL, ISOL, FINA, FINA, ISOL, ISOL, ISOL, NONE,
    ISOL, ISOL, FINA, FINA, ISOL, ISOL, ISOL, NONE,
    ISOL, FIN2, FINA, FINA, FIN2, FIN2, FIN3, NONE,
    ISOL, ISOL, FINA, FINA, ISOL, ISOL, ISOL, NONE,
];

/// The forms of letters before one that joins to them.
#[rattlefmt::skip]
pub(crate) static JOINED_FORMS: [Form; 48] = [
    NONE, NONE, NONE, NONE, NONE, NONE, NONE, NONE,
    INIT, INIT, INIT, INIT, INIT, INIT, INIT, NONE,
    ISOL, ISOL, FINA, FINA, ISOL, ISOL, ISOL, NONE,
    INIT, INIT, MEDI, MEDI, INIT, INIT, INIT, NONE,
    ISOL, ISOL, MED2, MED2, ISOL, ISOL, ISOL, NONE,
    ISOL, ISOL, FINA, FINA, ISOL, ISOL, ISOL, NONE,
];
