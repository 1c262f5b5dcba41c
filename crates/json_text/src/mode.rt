// What a scanner of JSON waits for, and what a byte does to it.

// An array or an object that is open.
#[derive(Clone, Copy, Default)]
pub enum Container {
    #[default]
    Array,
    Object,
}

// Where in a string the next byte stands: as it is, after a backslash, as one of four, three, two or one hexadecimal digits.
#[derive(Clone, Copy)]
pub enum StringPart {
    Chars,
    Escaped,
    Hex4,
    Hex3,
    Hex2,
    Hex1,
}

// What of a number has come: its minus, its leading 0, a digit of its whole part, its point, a digit after it, its e, the sign after it, a digit after that.
#[derive(Clone, Copy)]
pub enum NumberPart {
    Minus,
    Zero,
    Whole,
    Point,
    Places,
    Power,
    Sign,
    Scale,
}

// What is still to come of `true`, `false` or `null`.
#[derive(Clone, Copy)]
pub enum WordRest {
    Rue,
    Ue,
    E,
    Alse,
    Lse,
    Se,
    Ull,
    Ll,
    L,
}

// What may come next.
#[derive(Clone, Copy)]
pub enum Mode {
    Value,
    // a value, or the end of the array that was just opened
    First,
    // a member's name
    Name,
    // a member's name, or the end of the object that was just opened
    Opened,
    Colon,
    // what follows a value
    After,
    // the rest of a string, which is a member's name or not. Kept: a bool beside the part, as two enums of six parts would
    // say the same twice.
    Text(StringPart, bool),
    Figure(NumberPart),
    Word(WordRest),
}

// What a byte does.
#[derive(Clone, Copy)]
pub enum Move {
    To(Mode),
    Open(Container),
    Close,
}
