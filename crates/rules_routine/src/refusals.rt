// What turns a call down: document 01's table, "When a call is turned down", and document 02. The table itself is `number_of` and
// `index_of` (`specs/Refusals.antt`), in the same order.
ghost use Rattle.std.specs.Prelude.{◌≡◌};
ghost use Rattle.rules_routine.specs.Refusals.{number_of, index_of};

// The causes, in the table's order. One that is returned with an index has it here: a command's within its routine, or a routine's.
#[derive(Clone, Copy)]
pub enum Refusal {
    // N not 1 to 32
    DevicesOutOfRange,
    // K above 8
    PassLimitOutOfRange,
    // first id 0
    FirstIdZero,
    // routine of 0 or over 8 commands
    CommandCount,
    // device not below N (32 in a book)
    DeviceNotBelow(usize),
    // setting out of range
    SettingOutOfRange(usize),
    // tag above 2 (document 02, item 4)
    TagOutOfRange(usize),
    // 16 routines in the sequence
    SequenceFull,
    // id 4,294,967,295 already given
    IdsUsedUp,
    // no running routine has this id
    NotRunning,
    // turn with a command in flight
    TurnInFlight,
    // report with none in flight
    NothingInFlight,
    // report code above 1
    ReportCodeOutOfRange,
    // failure or restart, device not below N
    EventDevice,
    // failure of a down device
    FailureOfDown,
    // restart of an up device
    RestartOfUp,
    // restart setting out of range
    RestartSetting,
    // book ends inside count or pairs, or count above 64
    BookCutShort,
    // pair not where the layout puts it, past the end, or bytes left over
    BookMisplaced,
    // length not 4 to 32 in fours
    BookLength(usize),
    // over 64 routines to write, or buffer too short; a list of settings shorter than N (document 02, item 14)
    NoRoom,
    // a condition that is last in its routine or followed by another condition (document 02, item 4)
    ConditionAlone(usize),
}

impl Refusal {
    // Its number in the table.
    pub fn number(self) -> u8
        ensures { result ≡ number_of self }
    {
        match self {
            Refusal::DevicesOutOfRange => 1,
            Refusal::PassLimitOutOfRange => 2,
            Refusal::FirstIdZero => 3,
            Refusal::CommandCount => 4,
            Refusal::DeviceNotBelow(_) => 5,
            Refusal::SettingOutOfRange(_) => 6,
            Refusal::TagOutOfRange(_) => 7,
            Refusal::SequenceFull => 8,
            Refusal::IdsUsedUp => 9,
            Refusal::NotRunning => 10,
            Refusal::TurnInFlight => 11,
            Refusal::NothingInFlight => 12,
            Refusal::ReportCodeOutOfRange => 13,
            Refusal::EventDevice => 14,
            Refusal::FailureOfDown => 15,
            Refusal::RestartOfUp => 16,
            Refusal::RestartSetting => 17,
            Refusal::BookCutShort => 18,
            Refusal::BookMisplaced => 19,
            Refusal::BookLength(_) => 20,
            Refusal::NoRoom => 21,
            Refusal::ConditionAlone(_) => 22,
        }
    }

    // The index that comes with it, if one does.
    pub fn index(self) -> Option<usize>
        ensures { result ≡ index_of self }
    {
        match self {
            Refusal::DeviceNotBelow(i) => Some(i),
            Refusal::SettingOutOfRange(i) => Some(i),
            Refusal::TagOutOfRange(i) => Some(i),
            Refusal::BookLength(i) => Some(i),
            Refusal::ConditionAlone(i) => Some(i),
            _ => None,
        }
    }
}
