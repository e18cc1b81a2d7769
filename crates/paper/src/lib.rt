// The types that the definitions, the code over them and its readers share. Those that cross to C have its layout.
#![tactic(auto)]

ghost use Rattle.std.specs.Prelude.{◌≡◌};
ghost use Rattle.paper.specs.Answers.{numbers};
ghost use Rattle.paper.specs.Reasons.{reason_number};
ghost use Rattle.paper.specs.declared.Answer.TheVariants.{Refused};

mod kind;

pub use kind::Kind;

// The variable of wish 0; the others follow it.
pub const FIRST_WISH: u32 = 2001;

// Variable 0 of counter 0; the others follow it, a stride from one counter to the next.
pub const FIRST_COUNTER: u32 = 4001;

// The sizes that no kind of opening moves: the variables of a problem, its rules and its wishes, a wish's weight, and the derived
// clauses.
pub const MOST_VARIABLES: u32 = 2000;

pub const MOST_RULES: u32 = 2048;

pub const MOST_WISHES: u32 = 512;

pub const MOST_WEIGHT: u32 = 1000000;

pub const MOST_DERIVED: u32 = 4096;

// The sizes that go with the kind of the opening record. They are one value, so that laws and code are stated over them.
#[derive(Clone, Copy)]
pub struct Width {
    // at most so many in a clause, and inputs at most in a counter
    pub literals: u32,
    // from one counter's first variable to the next one's
    pub stride: u32,
    // at most so many
    pub counters: u32,
}

// The counts of the four families and the bound, with n, which is 0 before the opening.
#[repr(C)]
#[derive(Clone, Copy, Default)]
pub struct Tally {
    pub variables: u32,
    pub rules: u32,
    pub wishes: u32,
    pub derived: u32,
    pub counters: u32,
    pub bound: u32,
}

// What a step answers; `specs/Answers.antt` gives the number and the two values for each case.
#[derive(Clone, Copy)]
pub enum Answer {
    // n
    Opened(u32),
    // its number
    Rule(u32),
    // its number, its variable
    Wish(u32, u32),
    // its number, its literals
    Derived(u32, u32),
    // the bound, the weight that every member lost
    Core(u32, u32),
    // the cost and the bound, which are equal
    Best(u32, u32),
    // the cost and the bound, which is less
    Counted(u32, u32),
    // the lowest number of a rule that the arrangement breaks
    Broken(u32),
    // any other refusal, by its number and not by a `Reason`: every definition of an answer (`Answers`, `Steps`) is stated with it
    Refused(u32),
}

// Why a step or a text is refused, in the order of the numbers that refusals are given by. What each means stands at its number in
// the description.
#[derive(Clone, Copy, PartialEq, Eq)]
pub enum Reason {
    NoRecord = 10,
    UnknownKind = 11,
    OutOfTurn = 12,
    WrongForm = 13,
    WrongVariables = 14,
    WrongWeight = 15,
    TooManyLiterals = 16,
    StrangeLiteral = 17,
    VariableTwice = 18,
    StrangeHint = 19,
    NotShown = 20,
    NoSuchClause = 21,
    NoCore = 22,
    NoRoom = 23,
    BrokenRule = 24,
    NoHeader = 30,
    NoNumber = 31,
    CutShort = 32,
    WrongCount = 33,
    ShortRoom = 34,
}

impl Reason {
    pub fn number(self) -> u32
        ensures { result ≡ reason_number self }
    {
        self as u32
    }
}

impl From<Reason> for Answer {
    ghost from_gives = { λ reason given. given ≡ Refused (reason_number reason) };

    fn from(reason: Reason) -> Answer {
        Answer::Refused(reason.number())
    }
}

// What an answer gives back: its number, and two values.
#[repr(C)]
#[derive(Clone, Copy)]
pub struct Numbers {
    pub number: u32,
    pub first: u32,
    pub second: u32,
}

impl From<Answer> for Numbers {
    ghost from_gives = { λ answer given. given ≡ numbers answer };

    fn from(answer: Answer) -> Numbers {
        let (number, first, second) = match answer {
            Answer::Opened(variables) => (0, variables, 0),
            Answer::Rule(number) => (0, number, 0),
            Answer::Wish(number, variable) => (0, number, variable),
            Answer::Derived(number, literals) => (0, number, literals),
            Answer::Core(bound, weight) => (0, bound, weight),
            Answer::Best(cost, bound) => (1, cost, bound),
            Answer::Counted(cost, bound) => (0, cost, bound),
            Answer::Broken(rule) => (Reason::BrokenRule.number(), rule, 0),
            Answer::Refused(number) => (number, 0, 0),
        };
        Numbers {
            number,
            first,
            second,
        }
    }
}

// What stands at the front of some bytes of an input.
#[derive(Clone, Copy)]
pub enum Front {
    // the bytes end inside a record or its length
    Short,
    // a length that no record has
    Wrong,
    // a record, with the length of what follows its first 4 bytes
    Whole(usize),
}

// What a hint says under an assignment. `AlreadyTrue` goes before `StillOpen`: one true literal settles it.
#[derive(Clone, Copy)]
pub enum Reading {
    AllFalse,
    // all but this literal are false
    Forces(i32),
    AlreadyTrue,
    StillOpen,
}

// What a step hands back: the tally after it, and its answer.
#[derive(Clone, Copy)]
pub struct Outcome {
    pub tally: Tally,
    pub answer: Answer,
}

// The three numbers of a text's header.
#[derive(Clone, Copy)]
pub struct Header {
    pub variables: u32,
    pub clauses: u32,
    pub top: u32,
}

// What reading a text answers, with the layout that the C interface has: no `Result` goes there.
#[repr(C)]
#[derive(Clone, Copy)]
pub struct TextAnswer {
    // 0, or the refusal
    pub number: u32,
    // the text's length, or the place of the fault
    pub position: usize,
    // of the records in bytes, 0 with a refusal
    pub length: usize,
}
